//! Notes on functions that have a result, but get a return, which has no value.
ghost use Rattle.std.specs.Prelude.{◌≡◌, ◌++◌, OnOk, codes, flat_map, string_bytes};
ghost use Rattle.naga_arena.specs.Arena.{values};
ghost use Rattle.naga_text.specs.Words.{number, quoted};
ghost use Rattle.naga_look.specs.Report.{headed_entry_point, headed_entry_points, headed_function, headed_functions};
ghost use Rattle.naga_look.specs.Stats.{lacks_value, note_of, note_text, notes_of};

use crate::summary::add_open_tails;
use naga_arena::{Arena, Handle};
use naga_ir::{EntryPoint, Function, Module};
use naga_passes::Pass;
use naga_proc::Rule;
use naga_text::{Text, push_declared, push_entry_point_name};
use std::alloc::AllocError;

/// What a note says of a function.
const WITHOUT_VALUE: &str = ": the function has a result, but an inserted return has no value\n";

/// Appends the notes on a module that goes through a pass.
pub(super) fn push_notes(notes: &mut Text, module: &Module, pass: Pass) -> Result<(), AllocError>
    ensures { OnOk result (notes.new ≡ notes.old ++ notes_of pass «module».now) }
{
    match pass {
        Pass::Cull => Ok(()),
        Pass::Close(rule) => {
            push_functions(notes, &module.functions, rule)?;
            push_entry_points(notes, module.entry_points.as_slice(), rule)
        }
        Pass::Compact(_) => Ok(()),
        Pass::Restrict => Ok(()),
    }
}

/// Appends the notes on functions that are closed by a rule.
fn push_functions(
    notes: &mut Text,
    functions: &Arena<Function>,
    rule: Rule,
) -> Result<(), AllocError>
    ensures { OnOk result (notes.new
        ≡ notes.old ++ flat_map (note_of rule) (headed_functions (values functions.now))) }
{
    'functions: for index in 0..functions.len() {
        let function = &functions[Handle::<Function>::at(index)];
        push_function(notes, index, function, rule)?;
    }
    Ok(())
}

/// Appends the notes on entry points that are closed by a rule.
fn push_entry_points(
    notes: &mut Text,
    entry_points: &[EntryPoint],
    rule: Rule,
) -> Result<(), AllocError>
    ensures { OnOk result (notes.new
        ≡ notes.old ++ flat_map (note_of rule) (headed_entry_points entry_points.now)) }
{
    'entry_points: for position in 0..entry_points.len() {
        push_entry_point(notes, position, &entry_points[position], rule)?;
    }
    Ok(())
}

/// Appends the note on a function, if there is one.
fn push_function(
    notes: &mut Text,
    index: usize,
    function: &Function,
    rule: Rule,
) -> Result<(), AllocError>
    ensures { OnOk result (notes.new ≡ notes.old ++ note_of rule (headed_function (index, function.now))) }
{
    if lacks_value(function, rule) {
        push_function_note(notes, index, function)
    } else {
        Ok(())
    }
}

/// Appends the note on a function.
fn push_function_note(notes: &mut Text, index: usize, function: &Function) -> Result<(), AllocError>
    ensures { OnOk result (notes.new ≡ notes.old ++ note_text (headed_function (index, function.now)).head) }
{
    notes.push("note: ")?;
    push_declared(notes, "function", index, &function.name)?;
    notes.push(WITHOUT_VALUE)
}

/// Appends the note on an entry point, if there is one.
fn push_entry_point(
    notes: &mut Text,
    position: usize,
    entry_point: &EntryPoint,
    rule: Rule,
) -> Result<(), AllocError>
    ensures { OnOk result (notes.new ≡ notes.old ++ note_of rule (headed_entry_point (position, entry_point.now))) }
{
    if lacks_value(&entry_point.function, rule) {
        push_entry_point_note(notes, position, &entry_point.name)
    } else {
        Ok(())
    }
}

/// Appends the note on an entry point.
fn push_entry_point_note(notes: &mut Text, position: usize, name: &String) -> Result<(), AllocError>
    ensures { OnOk result (notes.new
        ≡ notes.old ++ note_text (codes "entry point" ++ (number position ++ quoted (string_bytes name.now)))) }
{
    notes.push("note: ")?;
    push_entry_point_name(notes, position, name)?;
    notes.push(WITHOUT_VALUE)
}

/// Returns whether a function has a result, and its body gets a return by a rule.
fn lacks_value(function: &Function, rule: Rule) -> bool
    ensures { result ≡ lacks_value rule function.now }
{
    if function.result.is_none() {
        return false;
    }
    add_open_tails(0, rule, &function.body) > 0
}
