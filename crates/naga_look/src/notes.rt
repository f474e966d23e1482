//! Notes on functions: where a return is missing, and which accesses may be out of bounds.
ghost use Rattle.std.specs.Prelude.{◌≡◌, ◌++◌, IfOk, OnOk, codes, flat_map, string_bytes};
ghost use Rattle.naga_arena.specs.Arena.{values};
ghost use Rattle.naga_bounds.specs.Messages.{unfit_access_text};
ghost use Rattle.naga_look.specs.Notes.{access_line, access_lines, missing_line, missing_lines, note_line, notes_in};
ghost use Rattle.naga_look.specs.Report.{headed_entry_point, headed_entry_points, headed_function, headed_functions, notes_of, notes_on};

use crate::ends::missing_returns;
use crate::heads::{entry_point_head, function_head};
use naga_arena::Handle;
use naga_bounds::{UnfitAccess, unfit_accesses};
use naga_ir::{EntryPoint, Function, Module};
use naga_text::Text;
use std::alloc::{AllocError, Global};

/// What a note says of a block without a return.
const MISSING: &str = ": a return is missing at the end\n";

/// Appends the notes on all functions and entry points, of each kind up to `limit` for each of them.
pub(crate) fn push_notes(
    alloc: Global,
    text: &mut Text,
    module: &Module,
    limit: usize,
) -> Result<(), AllocError>
    ensures { OnOk result (text.new ≡ text.old ++ notes_of «module».now limit) }
{
    push_functions(alloc, text, module, limit)?;
    push_entry_points(alloc, text, module, module.entry_points.as_slice(), limit)
}

/// Appends the notes on functions.
fn push_functions(
    alloc: Global,
    text: &mut Text,
    module: &Module,
    limit: usize,
) -> Result<(), AllocError>
    ensures { OnOk result (text.new ≡ text.old
        ++ flat_map (notes_on «module».now limit) (headed_functions (values «module».now.functions))) }
{
    'functions: for index in 0..module.functions.len() {
        let function = &module.functions[Handle::<Function>::at(index)];
        push_function(alloc, text, module, index, function, limit)?;
    }
    Ok(())
}

/// Appends the notes on entry points.
fn push_entry_points(
    alloc: Global,
    text: &mut Text,
    module: &Module,
    entry_points: &[EntryPoint],
    limit: usize,
) -> Result<(), AllocError>
    ensures { OnOk result (text.new ≡ text.old
        ++ flat_map (notes_on «module».now limit) (headed_entry_points entry_points.now)) }
{
    'entry_points: for position in 0..entry_points.len() {
        push_entry_point(
            alloc,
            text,
            module,
            position,
            &entry_points[position],
            limit,
        )?;
    }
    Ok(())
}

/// Appends the notes on a function.
fn push_function(
    alloc: Global,
    text: &mut Text,
    module: &Module,
    index: usize,
    function: &Function,
    limit: usize,
) -> Result<(), AllocError>
    ensures { OnOk result (text.new ≡ text.old
        ++ notes_on «module».now limit (headed_function (index, function.now))) }
{
    let head = function_head(text, index, function)?;
    push_both(alloc, text, module, &head, function, limit)
}

/// Appends the notes on an entry point.
fn push_entry_point(
    alloc: Global,
    text: &mut Text,
    module: &Module,
    position: usize,
    entry_point: &EntryPoint,
    limit: usize,
) -> Result<(), AllocError>
    ensures { OnOk result (text.new ≡ text.old
        ++ notes_on «module».now limit (headed_entry_point (position, entry_point.now))) }
{
    let head = entry_point_head(text, position, entry_point)?;
    push_both(alloc, text, module, &head, &entry_point.function, limit)
}

/// Appends the notes of both kinds on a function, which name it by `head`.
fn push_both(
    alloc: Global,
    text: &mut Text,
    module: &Module,
    head: &Text,
    function: &Function,
    limit: usize,
) -> Result<(), AllocError>
    ensures { OnOk result (text.new ≡ text.old
        ++ notes_in «module».now limit head.now function.now) }
{
    let paths = missing_returns(alloc, function, limit)?;
    push_missing(text, head, paths.as_slice())?;
    let found = unfit_accesses(alloc, module, function, limit)?;
    push_accesses(alloc, text, head, found.as_slice())
}

/// Appends a note on each block with one of these paths, in which a return is missing.
fn push_missing(text: &mut Text, head: &Text, paths: &[Text]) -> Result<(), AllocError>
    ensures { OnOk result (text.new ≡ text.old ++ missing_lines head.now paths.now) }
{
    'paths: for position in 0..paths.len() {
        push_missing_line(text, head, &paths[position])?;
    }
    Ok(())
}

/// Appends a note on a block in which a return is missing.
fn push_missing_line(text: &mut Text, head: &Text, path: &Text) -> Result<(), AllocError>
    ensures { OnOk result (text.new ≡ text.old ++ missing_line head.now path.now) }
{
    text.push("note: ")?;
    text.push_text(head)?;
    text.push(": ")?;
    text.push_text(path)?;
    text.push(MISSING)
}

/// Appends notes on these accesses of a function.
fn push_accesses(
    alloc: Global,
    text: &mut Text,
    head: &Text,
    accesses: &[UnfitAccess],
) -> Result<(), AllocError>
    ensures { OnOk result (text.new ≡ text.old ++ access_lines head.now accesses.now) }
{
    'accesses: for position in 0..accesses.len() {
        push_access(alloc, text, head, &accesses[position])?;
    }
    Ok(())
}

/// Appends a note on an access of a function.
fn push_access(
    alloc: Global,
    text: &mut Text,
    head: &Text,
    access: &UnfitAccess,
) -> Result<(), AllocError>
    ensures { OnOk result (text.new ≡ text.old ++ access_line head.now access.now) }
{
    let said = said_of(alloc, access)?;
    push_note(text, head, said.as_str())
}

/// Returns why an access may be out of bounds.
fn said_of(alloc: Global, access: &UnfitAccess) -> Result<String, AllocError>
    ensures { IfOk result (λ said. string_bytes said ≡ unfit_access_text access.now) }
{
    format!(in alloc; "{access}")
}

/// Appends a note that says something of a function.
fn push_note(text: &mut Text, head: &Text, said: &str) -> Result<(), AllocError>
    ensures { OnOk result (text.new ≡ text.old ++ note_line head.now said.now) }
{
    text.push("note: ")?;
    text.push_text(head)?;
    text.push(": ")?;
    text.push(said)?;
    text.push("\n")
}
