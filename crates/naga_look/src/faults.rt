//! The report on a module.
ghost use Rattle.std.specs.Prelude.{◌≡◌, ◌++◌, IfOk, MatchOption, OnOk, codes, string_bytes};
ghost use Rattle.naga_arena.specs.Arena.{values};
ghost use Rattle.naga_flow.specs.Bodies.{BodyPasses};
ghost use Rattle.naga_text.specs.Escapes.{visible};
ghost use Rattle.naga_text.specs.Readable.{IsPlain};
ghost use Rattle.naga_typing.specs.Joined.{Adds, AddsJoined};
ghost use Rattle.naga_look.specs.Report.{AreFaults, AreFunctionLines, AreTypeLines, IsBodyFault, IsBodyLine, IsSaidOfTypes, IsTypeLine, fault_line, headed_entry_point, headed_entry_points, headed_function, headed_functions, limit_of, line_count, lines_or_none};
ghost use Rattle.naga_look.specs.View.{IsWholeReport};

mod declarations;

use crate::accesses::push_accesses;
use crate::emits::push_emits;
use crate::heads::{entry_point_head, function_head};
use crate::layouts::push_layout_note;
use crate::notes::push_notes;
use crate::shown::{Extent, Shown};
use crate::summary::summarize;
use crate::summary_text::push_summary;
use declarations::push_declarations;
use naga_arena::Handle;
use naga_flow::laws::a_body_with_a_fault_does_not_pass;
use naga_flow::{InvalidBody, check_body};
use naga_ir::{EntryPoint, Function, Module};
use naga_text::Text;
use naga_typing::{TypeFault, faults_of_function};
use std::alloc::{AllocError, Global};

/// Returns the report on a module: a line for each fault of the declarations, of the bodies and of the types, then the
/// summary, then a line for each function and entry point that lacks an `Emit`, and then notes. If there is no fault, the
/// first line is `no faults`. The number of lines of faults comes with the report.
///
/// The faults of a function are the first that [`check_body`] finds, and then those that [`faults_of_function`] finds, as
/// many as `extent` says. A line begins with the position of the function or of the entry point, and with its name if
/// it has one, as in `function 0 "double": body[4].accept[1]: a continue outside of a loop`. The functions come before
/// the entry points. Names are escaped as [`Text::push_escaped`] writes them, and faults as [`Text::push_visible`]
/// does, so a line has no newline but its last character.
///
/// The faults of the declarations are those that [`faults_of_declarations`](naga_typing::faults_of_declarations)
/// returns, and their lines come first, as in
/// `constant 0: expression 0 must be of the declared type, type 1, found u32`. Functions are checked whether or not the
/// declarations have a fault.
///
/// The summary has a line for each number that is not 0, as in `missing returns: 2`, and for each kind of shader that
/// the module uses, as in `uses mesh shaders`. Its last line is the number of accesses that
/// [`check_bounds`](naga_bounds::check_bounds) does not find to be in bounds, as in
/// `accesses that may be out of bounds: 3`. This is no fault.
///
/// A function lacks an `Emit` if the checks find no fault, but [`check_emitted`](naga_flow::check_emitted) does, where all
/// accesses by constant indices are chosen. Its line is `an access without its own Emit: function 0 "double"`. This is
/// no fault.
///
/// There is a note on the first type whose layout [`check_layouts`](naga_layouter::check_layouts) finds not to fit, as in
/// `note: type 3 "Numbers": member 1: the offset 6 is not a multiple of 4, its alignment`, if the handles of the module are
/// valid. Then there is one for each block of a function that gets a return under [`Rule::New`](naga_proc::Rule::New), as in
/// `note: function 0 "double": body[4].accept: a return is missing at the end`, and one for each of its accesses that may be
/// out of bounds, as in `note: function 0 "double": expression 7 has the index of expression 6, which may be out of bounds`. Of
/// these, there are as many as `extent` says.
///
/// Returns `Err` if allocation fails.
///
/// Differs from naga: naga has no such function.
pub fn report(alloc: Global, module: &Module, extent: Extent) -> Result<Shown, AllocError>
    ensures { IfOk result (IsWholeReport «module».now extent) }
{
    let faults = fault_lines(alloc, module, extent)?;
    let lines = faults.finish();
    let mut text = Text::new(alloc);
    push_or_none(&mut text, lines.as_str())?;
    push_summary(&mut text, &summarize(module))?;
    push_accesses(alloc, &mut text, module)?;
    push_emits(alloc, &mut text, module)?;
    push_layout_note(alloc, &mut text, module)?;
    push_notes(alloc, &mut text, module, extent.limit())?;
    Ok(Shown {
        text: text.finish(),
        faults: line_count(lines.as_str()),
    })
}

/// Appends lines, or a line that says that there are none.
fn push_or_none(text: &mut Text, lines: &str) -> Result<(), AllocError>
    ensures { OnOk result (text.new ≡ text.old ++ lines_or_none lines.now) }
{
    if lines.is_empty() {
        text.push("no faults\n")
    } else {
        text.push(lines)
    }
}

/// Returns the number of lines of a text, each of which ends in a newline.
fn line_count(lines: &str) -> usize
    ensures { result ≡ line_count lines.now }
{
    let bytes = lines.as_bytes();
    bytes.iter().filter(|byte| **byte == b'\n').count()
}

/// Returns the lines of the faults of the declarations, and of all functions and entry points.
fn fault_lines(alloc: Global, module: &Module, extent: Extent) -> Result<Text, AllocError>
    ensures { IfOk result (AreFaults «module».now extent) }
{
    let mut text = Text::new(alloc);
    push_declarations(alloc, &mut text, module)?;
    push_functions(alloc, &mut text, module, extent)?;
    push_entry_points(
        alloc,
        &mut text,
        module,
        module.entry_points.as_slice(),
        extent,
    )?;
    Ok(text)
}

/// Appends the lines of functions.
fn push_functions(
    alloc: Global,
    text: &mut Text,
    module: &Module,
    extent: Extent,
) -> Result<(), AllocError>
    ensures { OnOk result (AddsJoined (AreFunctionLines «module».now (limit_of extent))
        (headed_functions (values «module».now.functions)) text.old text.new) }
{
    'functions: for index in 0..module.functions.len() {
        let function = &module.functions[Handle::<Function>::at(index)];
        push_function(alloc, text, module, index, function, extent)?;
    }
    Ok(())
}

/// Appends the lines of entry points.
fn push_entry_points(
    alloc: Global,
    text: &mut Text,
    module: &Module,
    entry_points: &[EntryPoint],
    extent: Extent,
) -> Result<(), AllocError>
    ensures { OnOk result (AddsJoined (AreFunctionLines «module».now (limit_of extent))
        (headed_entry_points entry_points.now) text.old text.new) }
{
    'entry_points: for position in 0..entry_points.len() {
        push_entry_point(
            alloc,
            text,
            module,
            position,
            &entry_points[position],
            extent,
        )?;
    }
    Ok(())
}

/// Appends the lines of a function.
fn push_function(
    alloc: Global,
    text: &mut Text,
    module: &Module,
    index: usize,
    function: &Function,
    extent: Extent,
) -> Result<(), AllocError>
    ensures { OnOk result (Adds (AreFunctionLines «module».now (limit_of extent))
        (headed_function (index, function.now)) text.old text.new) }
{
    let head = function_head(text, index, function)?;
    push_lines(alloc, text, module, &head, function, extent)
}

/// Appends the lines of an entry point.
fn push_entry_point(
    alloc: Global,
    text: &mut Text,
    module: &Module,
    position: usize,
    entry_point: &EntryPoint,
    extent: Extent,
) -> Result<(), AllocError>
    ensures { OnOk result (Adds (AreFunctionLines «module».now (limit_of extent))
        (headed_entry_point (position, entry_point.now)) text.old text.new) }
{
    let head = entry_point_head(text, position, entry_point)?;
    push_lines(alloc, text, module, &head, &entry_point.function, extent)
}

/// Appends the lines of a function, which begin with `head`: that of its body, and then those of its types.
fn push_lines(
    alloc: Global,
    text: &mut Text,
    module: &Module,
    head: &Text,
    function: &Function,
    extent: Extent,
) -> Result<(), AllocError>
    requires { IsPlain head.now }
    ensures { OnOk result (Adds (AreFunctionLines «module».now (limit_of extent))
        (record { head = head.now; whole = function.now }) text.old text.new) }
{
    push_body(alloc, text, head, function)?;
    push_types(alloc, text, module, head, function, extent)
}

/// Appends the line of the first fault of a body, if there is one.
fn push_body(
    alloc: Global,
    text: &mut Text,
    head: &Text,
    function: &Function,
) -> Result<(), AllocError>
    requires { IsPlain head.now }
    ensures { OnOk result (Adds IsBodyLine (record { head = head.now; whole = function.now }) text.old text.new) }
{
    let Some(fault) = fault_of_body(alloc, function)? else {
        return Ok(());
    };
    push_fault_line(text, head, fault.as_str())
}

/// Appends the lines of the faults of the types of a function, as many as `extent` says.
fn push_types(
    alloc: Global,
    text: &mut Text,
    module: &Module,
    head: &Text,
    function: &Function,
    extent: Extent,
) -> Result<(), AllocError>
    requires { IsPlain head.now }
    ensures { OnOk result (Adds (AreTypeLines «module».now (limit_of extent))
        (record { head = head.now; whole = function.now }) text.old text.new) }
{
    let faults = faults_of_function(alloc, module, function, extent.limit())?;
    push_type_lines(alloc, text, head, function, faults.as_slice())
}

/// Appends the lines of these faults of the types of a function.
fn push_type_lines(
    alloc: Global,
    text: &mut Text,
    head: &Text,
    function: &Function,
    faults: &[TypeFault],
) -> Result<(), AllocError>
    requires { IsPlain head.now }
    ensures { OnOk result (AddsJoined (IsTypeLine (record { head = head.now; whole = function.now }))
        faults.now text.old text.new) }
{
    'faults: for position in 0..faults.len() {
        push_type_line(alloc, text, head, function, &faults[position])?;
    }
    Ok(())
}

/// Appends the line of a fault of the types of a function.
fn push_type_line(
    alloc: Global,
    text: &mut Text,
    head: &Text,
    function: &Function,
    fault: &TypeFault,
) -> Result<(), AllocError>
    requires { IsPlain head.now }
    ensures { OnOk result (Adds (IsTypeLine (record { head = head.now; whole = function.now })) fault.now
        text.old text.new) }
{
    let said = said_of_types(alloc, function, fault)?;
    push_fault_line(text, head, said.as_str())
}

/// Returns what a fault of the types of a function is, with the path to its statement if it has one.
fn said_of_types(
    alloc: Global,
    function: &Function,
    fault: &TypeFault,
) -> Result<String, AllocError>
    ensures { IfOk result (λ said. IsSaidOfTypes function.now fault.now (string_bytes said)) }
{
    format!(in alloc; "{}", fault.display(function))
}

/// Appends a line that begins with `head` and says a fault.
fn push_fault_line(text: &mut Text, head: &Text, fault: &str) -> Result<(), AllocError>
    ensures { OnOk result (text.new ≡ text.old ++ fault_line head.now fault.now) }
{
    text.push_text(head)?;
    push_fault(text, fault)
}

/// Appends a fault behind what its line begins with, and ends the line.
fn push_fault(text: &mut Text, fault: &str) -> Result<(), AllocError>
    ensures { OnOk result (text.new ≡ text.old ++ (codes ": " ++ (visible fault.now ++ codes "\n"))) }
{
    text.push(": ")?;
    push_line(text, fault)
}

/// Appends a fault, and ends the line.
fn push_line(text: &mut Text, fault: &str) -> Result<(), AllocError>
    ensures { OnOk result (text.new ≡ text.old ++ (visible fault.now ++ codes "\n")) }
{
    text.push_visible(fault)?;
    text.push("\n")
}

/// Returns the first fault that the checks of a body find, with the path to its statement, or `None` if they find none.
fn fault_of_body(alloc: Global, function: &Function) -> Result<Option<String>, AllocError>
    ensures { IfOk result (λ fault. MatchOption fault (BodyPasses function.now)
        (λ found. ¬ BodyPasses function.now × IsBodyFault function.now (string_bytes found))) }
{
    a_body_with_a_fault_does_not_pass();
    match check_body(alloc, function) {
        Ok(()) => Ok(None),
        Err(InvalidBody::Memory) => Err(AllocError),
        Err(InvalidBody::Jump(misplaced)) => {
            let text = format!(in alloc; "{}", misplaced.display(function))?;
            Ok(Some(text))
        }
        Err(InvalidBody::Use(misuse)) => {
            let text = format!(in alloc; "{}", misuse.display(function))?;
            Ok(Some(text))
        }
    }
}
