//! The list of the findings on a module.
ghost use Rattle.std.specs.Prelude.{◌≡◌, IfOk, OnOk};
ghost use Rattle.naga_arena.specs.Arena.{values};
ghost use Rattle.naga_valid.specs.ElementNames.{text_of};
ghost use Rattle.naga_typing.specs.Joined.{Adds, AddsJoined};
ghost use Rattle.naga_look.specs.Findings.{AreFindings, AreFindingsInside, fault_count, is_fault, inside_entry_point, inside_entry_points, inside_function, inside_functions};
ghost use Rattle.naga_look.specs.Report.{limit_of};

use super::body::{Body, push_body};
use super::declarations::push_declarations;
use super::{Finding, FindingKind};
use crate::layouts::push_layouts;
use crate::shown::Extent;
use naga_arena::Handle;
use naga_flow::BodyOwner;
use naga_ir::{EntryPoint, Function, Module};
use naga_text::Text;
use std::alloc::{AllocError, Global};

/// Returns the findings on a module: the faults of the declarations, then the first type whose layout does not fit, as
/// [`check_layouts`](naga_layouter::check_layouts) finds it, and then the findings in each function and in each entry
/// point. Layouts are examined only if the handles of the module are valid.
///
/// Those in a function are the first fault of its body, the faults of its types, whether it lacks an `Emit`, the blocks
/// that get a return, and the accesses that may be out of bounds. Of the faults of types, of the blocks and of the
/// accesses of a function, there are as many as `extent` says. They are what [`report`](crate::report) says in lines.
///
/// Returns `Err` if allocation fails.
///
/// Differs from naga: naga has no such function.
pub fn findings(alloc: Global, module: &Module, extent: Extent) -> Result<Vec<Finding>, AllocError>
    ensures { IfOk result (λ found. AreFindings «module».now (limit_of extent) found.items) }
{
    let limit = extent.limit();
    let mut found = Vec::new(alloc);
    push_declarations(alloc, &mut found, module)?;
    push_layouts(alloc, &mut found, module)?;
    push_functions(alloc, &mut found, module, limit)?;
    push_entry_points(
        alloc,
        &mut found,
        module,
        module.entry_points.as_slice(),
        limit,
    )?;
    Ok(found)
}

/// Returns the number of faults among findings.
pub fn fault_count(found: &[Finding]) -> usize
    ensures { result ≡ fault_count found.now }
{
    found.iter().filter(|finding| is_fault(finding)).count()
}

/// Returns whether a finding is a fault.
fn is_fault(finding: &Finding) -> bool
    ensures { result ≡ is_fault finding.now }
{
    finding.kind == FindingKind::Fault
}

/// Appends the findings in functions.
fn push_functions(
    alloc: Global,
    found: &mut Vec<Finding>,
    module: &Module,
    limit: usize,
) -> Result<(), AllocError>
    ensures { OnOk result (AddsJoined (AreFindingsInside «module».now limit)
        (inside_functions (values «module».now.functions)) found.old.items found.new.items) }
{
    'functions: for index in 0..module.functions.len() {
        let handle = Handle::<Function>::at(index);
        let function = &module.functions[handle];
        push_function(alloc, found, module, handle, function, limit)?;
    }
    Ok(())
}

/// Appends the findings in entry points.
fn push_entry_points(
    alloc: Global,
    found: &mut Vec<Finding>,
    module: &Module,
    entry_points: &[EntryPoint],
    limit: usize,
) -> Result<(), AllocError>
    ensures { OnOk result (AddsJoined (AreFindingsInside «module».now limit)
        (inside_entry_points entry_points.now) found.old.items found.new.items) }
{
    'entry_points: for position in 0..entry_points.len() {
        push_entry_point(
            alloc,
            found,
            module,
            position,
            &entry_points[position],
            limit,
        )?;
    }
    Ok(())
}

/// Appends the findings in a function.
fn push_function(
    alloc: Global,
    found: &mut Vec<Finding>,
    module: &Module,
    handle: Handle<Function>,
    function: &Function,
    limit: usize,
) -> Result<(), AllocError>
    ensures { OnOk result (Adds (AreFindingsInside «module».now limit)
        (inside_function (handle, function.now)) found.old.items found.new.items) }
{
    let name = name_of(alloc, &function.name)?;
    let body = Body {
        owner: BodyOwner::Function(handle),
        name: &name,
        function,
    };
    push_body(alloc, found, module, &body, limit)
}

/// Appends the findings in an entry point.
fn push_entry_point(
    alloc: Global,
    found: &mut Vec<Finding>,
    module: &Module,
    position: usize,
    entry_point: &EntryPoint,
    limit: usize,
) -> Result<(), AllocError>
    ensures { OnOk result (Adds (AreFindingsInside «module».now limit)
        (inside_entry_point (position, entry_point.now)) found.old.items found.new.items) }
{
    let name = Some(text_of(alloc, entry_point.name.as_str())?);
    let body = Body {
        owner: BodyOwner::EntryPoint(position),
        name: &name,
        function: &entry_point.function,
    };
    push_body(alloc, found, module, &body, limit)
}

/// Returns a copy of a name, if there is one.
fn name_of(alloc: Global, name: &Option<String>) -> Result<Option<Text>, AllocError>
    ensures { IfOk result (λ copy. copy ≡ text_of name.now) }
{
    match name {
        Some(name) => Ok(Some(text_of(alloc, name.as_str())?)),
        None => Ok(None),
    }
}

/// Returns a text of these bytes.
pub(crate) fn text_of(alloc: Global, written: &str) -> Result<Text, AllocError>
    ensures { IfOk result (λ text. text ≡ written.now) }
{
    let mut text = Text::new(alloc);
    text.push(written)?;
    Ok(text)
}
