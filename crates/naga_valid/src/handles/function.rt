//! Checks of the handles of functions and entry points.
ghost use Rattle.std.specs.Prelude.{◌≡◌, ℕ};
ghost use Rattle.naga_valid.specs.Declarations.{references_of_mesh_info};
ghost use Rattle.naga_valid.specs.Faults.{ArePlacesWithin, Checks, ChecksFunction, ChecksList, IsEntryPointWithin, IsPartWithin};
ghost use Rattle.naga_valid.specs.Places.{global_overrides, lengths, limits_inside, references_found, references_of_entry_point, references_of_payloads};
ghost use Rattle.naga_valid.specs.declared.place.Part.{Part as PartOf};
ghost use Rattle.naga_valid.specs.declared.place.Part.TheVariants as part;
ghost use Rattle.naga_valid.specs.declared.place.Place.TheVariants as place;

use super::body::first_outside_in_block;
use super::elements::first_element_outside;
use super::fault::{Fault, Owner};
use super::lists::{check_keys, check_part, fault_at};
use crate::limits::Limits;
use crate::place::{Part, Place};
use naga_arena::Handle;
use naga_ir::{EntryPoint, Expression, Function, MeshStageInfo, Module};

/// Checks the handles of all functions that are not entry points.
pub(super) fn check_functions(module: &Module, limits: &Limits) -> Result<(), Fault>
    requires { limits.now ≡ lengths «module».now }
    ensures { Checks «module».now ((handle : ℕ) → ArePlacesWithin «module».now (place.Function handle)) result }
{
    for (handle, function) in module.functions.iter() {
        let limits = Limits {
            functions: handle.index(),
            ..*limits
        };
        if let Err(fault) = check_function(function, &Owner::Function(handle), &limits) {
            return Err(fault);
        }
    }
    Ok(())
}

/// Checks the handles of all entry points.
pub(super) fn check_entry_points(module: &Module, limits: &Limits) -> Result<(), Fault>
    requires { limits.now ≡ lengths «module».now }
    ensures { Checks «module».now ((position : ℕ) → IsEntryPointWithin «module».now position) result }
{
    let entry_points = module.entry_points.as_slice();
    for (position, entry_point) in entry_points.iter().enumerate() {
        if let Err(fault) = check_entry_point(entry_point, position, limits) {
            return Err(fault);
        }
        if let Err(fault) = check_function(
            &entry_point.function,
            &Owner::EntryPoint(position),
            limits,
        ) {
            return Err(fault);
        }
    }
    Ok(())
}

/// Checks the handles of an entry point, without those of its function.
fn check_entry_point(
    entry_point: &EntryPoint,
    position: usize,
    limits: &Limits,
) -> Result<(), Fault>
    ensures { ChecksList limits.now (references_of_entry_point entry_point.now) (place.EntryPoint position) result }
{
    let place = Place::EntryPoint(position);
    if let Err(fault) = check_workgroup_size(
        &entry_point.workgroup_size_overrides,
        limits,
        &place,
    ) {
        return Err(fault);
    }
    if let Err(fault) = check_mesh_info(&entry_point.mesh_info, limits, &place) {
        return Err(fault);
    }
    check_payloads(entry_point, limits, &place)
}

/// Checks the variables that an entry point passes to another stage, or that a ray passes to it.
fn check_payloads(entry_point: &EntryPoint, limits: &Limits, place: &Place) -> Result<(), Fault>
    ensures { ChecksList limits.now (references_of_payloads entry_point.now) place.now result }
{
    if let Err(fault) = check_part(&entry_point.task_payload, limits, place) {
        return Err(fault);
    }
    check_part(&entry_point.incoming_ray_payload, limits, place)
}

/// Checks the global expressions that replace the sizes of a workgroup, if there are any.
fn check_workgroup_size(
    overrides: &Option<[Option<Handle<Expression>>; 3]>,
    limits: &Limits,
    place: &Place,
) -> Result<(), Fault>
    ensures { ChecksList limits.now (references_found global_overrides overrides.now) place.now result }
{
    match overrides {
        Some(overrides) => check_part(overrides, limits, place),
        None => Ok(()),
    }
}

/// Checks the handles of the information about a mesh stage, if there is any.
fn check_mesh_info(
    info: &Option<MeshStageInfo>,
    limits: &Limits,
    place: &Place,
) -> Result<(), Fault>
    ensures { ChecksList limits.now (references_found references_of_mesh_info info.now) place.now result }
{
    match info {
        Some(info) => check_part(info, limits, place),
        None => Ok(()),
    }
}

/// Checks the handles of a function, which belongs to `owner`.
fn check_function(function: &Function, owner: &Owner, limits: &Limits) -> Result<(), Fault>
    ensures { ChecksFunction (limits_inside limits.now function.now) function.now owner.now
        ((inner : PartOf) → IsPartWithin (limits_inside limits.now function.now) function.now inner) result }
{
    let limits = limits.in_function(function);
    if let Err(fault) = check_signature(function, owner, &limits) {
        return Err(fault);
    }
    if let Err(fault) = check_local_variables(function, owner, &limits) {
        return Err(fault);
    }
    if let Err(fault) = check_expressions(function, owner, &limits) {
        return Err(fault);
    }
    check_statements(function, owner, &limits)
}

/// Checks the types of the arguments and of the result of a function.
fn check_signature(function: &Function, owner: &Owner, limits: &Limits) -> Result<(), Fault>
    ensures { ChecksFunction limits.now function.now owner.now
        (IsPartWithin limits.now function.now part.Arguments × IsPartWithin limits.now function.now part.Result) result }
{
    if let Err(fault) = check_part(&function.arguments, limits, &owner.part(Part::Arguments)) {
        return Err(fault);
    }
    check_part(&function.result, limits, &owner.part(Part::Result))
}

/// Checks the handles of the local variables of a function.
fn check_local_variables(function: &Function, owner: &Owner, limits: &Limits) -> Result<(), Fault>
    ensures { ChecksFunction limits.now function.now owner.now
        ((handle : ℕ) → IsPartWithin limits.now function.now (part.LocalVariable handle)) result }
{
    match first_element_outside(function.local_variables.iter(), limits) {
        Some(found) => Err(Fault {
            reference: found.1,
            place: owner.part(Part::LocalVariable(found.0)),
        }),
        None => Ok(()),
    }
}

/// Checks the handles of the expressions of a function.
fn check_expressions(function: &Function, owner: &Owner, limits: &Limits) -> Result<(), Fault>
    ensures { ChecksFunction limits.now function.now owner.now
        ((handle : ℕ) → IsPartWithin limits.now function.now (part.Expression handle)) result }
{
    match first_element_outside(function.expressions.iter(), limits) {
        Some(found) => Err(Fault {
            reference: found.1,
            place: owner.part(Part::Expression(found.0)),
        }),
        None => Ok(()),
    }
}

/// Checks the named expressions, the body and the innermost filter of a function.
fn check_statements(function: &Function, owner: &Owner, limits: &Limits) -> Result<(), Fault>
    ensures { ChecksFunction limits.now function.now owner.now
        (IsPartWithin limits.now function.now part.NamedExpressions
        × IsPartWithin limits.now function.now part.Body
        × IsPartWithin limits.now function.now part.DiagnosticFilterLeaf) result }
{
    let names = &function.named_expressions;
    if let Err(fault) = check_keys(names, limits, &owner.part(Part::NamedExpressions)) {
        return Err(fault);
    }
    if let Err(fault) = check_body(function, owner, limits) {
        return Err(fault);
    }
    check_part(
        &function.diagnostic_filter_leaf,
        limits,
        &owner.part(Part::DiagnosticFilterLeaf),
    )
}

/// Checks the handles of the body of a function.
fn check_body(function: &Function, owner: &Owner, limits: &Limits) -> Result<(), Fault>
    ensures { ChecksFunction limits.now function.now owner.now
        (IsPartWithin limits.now function.now part.Body) result }
{
    let found = first_outside_in_block(&function.body, limits);
    fault_at(found, &owner.part(Part::Body))
}
