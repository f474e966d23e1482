//! The functions that use an access without an `Emit` of its own.
ghost use Rattle.std.specs.Prelude.{◌≡◌, ◌++◌, ◌↔◌, IfOk, IsTrue, OnOk, codes, string_bytes};
ghost use Rattle.naga_arena.specs.Arena.{values};
ghost use Rattle.naga_flow.specs.Bodies.{BodyPasses};
ghost use Rattle.naga_text.specs.Words.{number, quoted};
ghost use Rattle.naga_typing.specs.Joined.{Adds, AddsJoined};
ghost use Rattle.naga_look.specs.Emits.{EmitsAccesses, LacksEmit};
ghost use Rattle.naga_look.specs.Report.{IsEmitLine, emit_text, headed_bodies, headed_entry_point, headed_entry_points, headed_function, headed_functions};

use naga_arena::{Arena, Handle};
use naga_flow::laws::a_body_with_a_fault_does_not_pass;
use naga_flow::{InvalidBody, InvalidUse, check_body, check_emitted};
use naga_ir::{EntryPoint, Expression, Function, Module};
use naga_sets::HandleSet;
use naga_text::{Text, push_declared, push_entry_point_name};
use std::alloc::{AllocError, Global};

/// What a line begins with.
const WITHOUT_EMIT: &str = "an access without its own Emit: ";

/// Appends a line for each function and entry point that lacks an `Emit`.
pub(crate) fn push_emits(alloc: Global, text: &mut Text, module: &Module) -> Result<(), AllocError>
    ensures { OnOk result (AddsJoined IsEmitLine (headed_bodies «module».now) text.old text.new) }
{
    push_functions(alloc, text, &module.functions)?;
    push_entry_points(alloc, text, module.entry_points.as_slice())
}

/// Appends the lines of functions.
fn push_functions(
    alloc: Global,
    text: &mut Text,
    functions: &Arena<Function>,
) -> Result<(), AllocError>
    ensures { OnOk result
        (AddsJoined IsEmitLine (headed_functions (values functions.now)) text.old text.new) }
{
    'functions: for index in 0..functions.len() {
        let function = &functions[Handle::<Function>::at(index)];
        push_function(alloc, text, index, function)?;
    }
    Ok(())
}

/// Appends the lines of entry points.
fn push_entry_points(
    alloc: Global,
    text: &mut Text,
    entry_points: &[EntryPoint],
) -> Result<(), AllocError>
    ensures { OnOk result
        (AddsJoined IsEmitLine (headed_entry_points entry_points.now) text.old text.new) }
{
    'entry_points: for position in 0..entry_points.len() {
        push_entry_point(alloc, text, position, &entry_points[position])?;
    }
    Ok(())
}

/// Appends the line of a function, if it lacks an `Emit`.
fn push_function(
    alloc: Global,
    text: &mut Text,
    index: usize,
    function: &Function,
) -> Result<(), AllocError>
    ensures { OnOk result
        (Adds IsEmitLine (headed_function (index, function.now)) text.old text.new) }
{
    if lacks_emit(alloc, function)? {
        push_function_line(text, index, function)
    } else {
        Ok(())
    }
}

/// Appends the line of a function.
fn push_function_line(text: &mut Text, index: usize, function: &Function) -> Result<(), AllocError>
    ensures { OnOk result (text.new ≡ text.old ++ emit_text (headed_function (index, function.now)).head) }
{
    text.push(WITHOUT_EMIT)?;
    push_declared(text, "function", index, &function.name)?;
    text.push("\n")
}

/// Appends the line of an entry point, if it lacks an `Emit`.
fn push_entry_point(
    alloc: Global,
    text: &mut Text,
    position: usize,
    entry_point: &EntryPoint,
) -> Result<(), AllocError>
    ensures { OnOk result
        (Adds IsEmitLine (headed_entry_point (position, entry_point.now)) text.old text.new) }
{
    if lacks_emit(alloc, &entry_point.function)? {
        push_entry_point_line(text, position, &entry_point.name)
    } else {
        Ok(())
    }
}

/// Appends the line of an entry point.
fn push_entry_point_line(text: &mut Text, position: usize, name: &String) -> Result<(), AllocError>
    ensures { OnOk result (text.new
        ≡ text.old ++ emit_text (codes "entry point" ++ (number position ++ quoted (string_bytes name.now)))) }
{
    text.push(WITHOUT_EMIT)?;
    push_entry_point_name(text, position, name)?;
    text.push("\n")
}

/// Returns whether a function lacks an `Emit`: both checks pass its body, but it uses an access that may not have been
/// evaluated by an `Emit`. A chain of accesses by constant indices to what is ready needs none.
pub(crate) fn lacks_emit(alloc: Global, function: &Function) -> Result<bool, AllocError>
    ensures { IfOk result (λ lacks. IsTrue lacks ↔ LacksEmit function.now) }
{
    if emits_accesses(alloc, function)? {
        return Ok(false);
    }
    passes(alloc, function)
}

/// Returns whether the body of a function passes the check of emits, where all accesses by constant indices are chosen.
fn emits_accesses(alloc: Global, function: &Function) -> Result<bool, AllocError>
    ensures { IfOk result (λ emits. IsTrue emits ↔ EmitsAccesses function.now) }
{
    let mut at_use = HandleSet::<Expression>::for_arena(alloc, &function.expressions)?;
    at_use.add_all();
    match check_emitted(alloc, function, &at_use) {
        Ok(()) => Ok(true),
        Err(InvalidUse::Misuse(_)) => Ok(false),
        Err(InvalidUse::Memory) => Err(AllocError),
    }
}

/// Returns whether the body of a function passes both checks.
fn passes(alloc: Global, function: &Function) -> Result<bool, AllocError>
    ensures { IfOk result (λ passes. IsTrue passes ↔ BodyPasses function.now) }
{
    a_body_with_a_fault_does_not_pass();
    match check_body(alloc, function) {
        Ok(()) => Ok(true),
        Err(InvalidBody::Jump(_)) => Ok(false),
        Err(InvalidBody::Use(_)) => Ok(false),
        Err(InvalidBody::Memory) => Err(AllocError),
    }
}
