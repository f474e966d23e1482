//! What is shown of a module that passes made.
ghost use Rattle.std.specs.Prelude.{IfOk};
ghost use Rattle.naga_look.specs.View.{AreShownFindings, IsComparedText, IsGraph, IsShown, IsShownReport};

use crate::faults::report;
use crate::finding::{fault_count, findings, findings_json};
use crate::graph::module_dot_compared;
use crate::shown::{Extent, Format, Shown, View};
use naga_ir::Module;
use naga_text::module_text_compared;
use std::alloc::{AllocError, Global};

/// Shows a module that passes made of an old one.
///
/// Returns `Err` if allocation fails.
pub(crate) fn show_module(
    alloc: Global,
    old: &Module,
    new: &Module,
    view: View,
) -> Result<Shown, AllocError>
    ensures { IfOk result (IsShown view «old».now «new».now) }
{
    match view {
        View::Text => compared_text(alloc, old, new),
        View::Dot => graph(alloc, old, new),
        View::Report(extent, format) => show_report(alloc, new, extent, format),
    }
}

/// Returns the readable text of a module, compared with an old one.
fn compared_text(alloc: Global, old: &Module, new: &Module) -> Result<Shown, AllocError>
    ensures { IfOk result (IsComparedText «old».now «new».now) }
{
    let text = module_text_compared(alloc, old, new)?;
    Ok(Shown { text, faults: 0 })
}

/// Returns the graph of a module, compared with an old one.
fn graph(alloc: Global, old: &Module, new: &Module) -> Result<Shown, AllocError>
    ensures { IfOk result (IsGraph «old».now «new».now) }
{
    let text = module_dot_compared(alloc, old, new)?;
    Ok(Shown { text, faults: 0 })
}

/// Returns the report on a module.
fn show_report(
    alloc: Global,
    module: &Module,
    extent: Extent,
    format: Format,
) -> Result<Shown, AllocError>
    ensures { IfOk result (IsShownReport format extent «module».now) }
{
    match format {
        Format::Lines => report(alloc, module, extent),
        Format::Json => report_json(alloc, module, extent),
    }
}

/// Returns the findings on a module as a line of JSON.
fn report_json(alloc: Global, module: &Module, extent: Extent) -> Result<Shown, AllocError>
    ensures { IfOk result (AreShownFindings extent «module».now) }
{
    let found = findings(alloc, module, extent)?;
    let mut text = findings_json(alloc, &found)?;
    text.push_str("\n")?;
    Ok(Shown {
        text,
        faults: fault_count(found.as_slice()),
    })
}
