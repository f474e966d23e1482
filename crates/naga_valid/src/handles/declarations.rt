//! Checks of the handles of a module's declarations outside functions.
ghost use Rattle.std.specs.Prelude.{◌≡◌};
ghost use Rattle.naga_valid.specs.Faults.{ArePlacesWithin, Checks, ChecksComments, CommentsAreWithin, IsPlaceWithin};
ghost use Rattle.naga_valid.specs.Places.{lengths};
ghost use Rattle.naga_valid.specs.declared.place.Place.TheVariants as place;

use super::elements::first_element_outside;
use super::fault::Fault;
use super::lists::{check_keys, check_part, check_values};
use crate::limits::Limits;
use crate::place::Place;
use naga_ir::{DocComments, Module};

/// Checks the handles of all types.
pub(super) fn check_types(module: &Module, limits: &Limits) -> Result<(), Fault>
    requires { limits.now ≡ lengths «module».now }
    ensures { Checks «module».now (ArePlacesWithin «module».now place.«Type») result }
{
    match first_element_outside(module.types.iter(), limits) {
        Some(found) => Err(Fault {
            reference: found.1,
            place: Place::Type(found.0),
        }),
        None => Ok(()),
    }
}

/// Checks the special types of a module.
pub(super) fn check_special_types(module: &Module, limits: &Limits) -> Result<(), Fault>
    requires { limits.now ≡ lengths «module».now }
    ensures { Checks «module».now (IsPlaceWithin «module».now place.SpecialTypes) result }
{
    let types = &module.special_types;
    if let Err(fault) = check_part(types, limits, &Place::SpecialTypes) {
        return Err(fault);
    }
    check_values(&types.predeclared_types, limits, &Place::SpecialTypes)
}

/// Checks the handles of all constants.
pub(super) fn check_constants(module: &Module, limits: &Limits) -> Result<(), Fault>
    requires { limits.now ≡ lengths «module».now }
    ensures { Checks «module».now (ArePlacesWithin «module».now place.Constant) result }
{
    match first_element_outside(module.constants.iter(), limits) {
        Some(found) => Err(Fault {
            reference: found.1,
            place: Place::Constant(found.0),
        }),
        None => Ok(()),
    }
}

/// Checks the handles of all overrides.
pub(super) fn check_overrides(module: &Module, limits: &Limits) -> Result<(), Fault>
    requires { limits.now ≡ lengths «module».now }
    ensures { Checks «module».now (ArePlacesWithin «module».now place.Override) result }
{
    match first_element_outside(module.overrides.iter(), limits) {
        Some(found) => Err(Fault {
            reference: found.1,
            place: Place::Override(found.0),
        }),
        None => Ok(()),
    }
}

/// Checks the handles of all global variables.
pub(super) fn check_global_variables(module: &Module, limits: &Limits) -> Result<(), Fault>
    requires { limits.now ≡ lengths «module».now }
    ensures { Checks «module».now (ArePlacesWithin «module».now place.GlobalVariable) result }
{
    match first_element_outside(module.global_variables.iter(), limits) {
        Some(found) => Err(Fault {
            reference: found.1,
            place: Place::GlobalVariable(found.0),
        }),
        None => Ok(()),
    }
}

/// Checks the handles of all global expressions.
pub(super) fn check_global_expressions(module: &Module, limits: &Limits) -> Result<(), Fault>
    requires { limits.now ≡ lengths «module».now }
    ensures { Checks «module».now (ArePlacesWithin «module».now place.GlobalExpression) result }
{
    match first_element_outside(module.global_expressions.iter(), limits) {
        Some(found) => Err(Fault {
            reference: found.1,
            place: Place::GlobalExpression(found.0),
        }),
        None => Ok(()),
    }
}

/// Checks the parents of all diagnostic filters.
pub(super) fn check_diagnostic_filters(module: &Module, limits: &Limits) -> Result<(), Fault>
    requires { limits.now ≡ lengths «module».now }
    ensures { Checks «module».now (ArePlacesWithin «module».now place.DiagnosticFilter) result }
{
    match first_element_outside(module.diagnostic_filters.iter(), limits) {
        Some(found) => Err(Fault {
            reference: found.1,
            place: Place::DiagnosticFilter(found.0),
        }),
        None => Ok(()),
    }
}

/// Checks the innermost diagnostic filter of a module.
pub(super) fn check_diagnostic_filter_leaf(module: &Module, limits: &Limits) -> Result<(), Fault>
    requires { limits.now ≡ lengths «module».now }
    ensures { Checks «module».now (IsPlaceWithin «module».now place.DiagnosticFilterLeaf) result }
{
    check_part(
        &module.diagnostic_filter_leaf,
        limits,
        &Place::DiagnosticFilterLeaf,
    )
}

/// Checks the keys of the doc comments of a module, if there are any.
pub(super) fn check_doc_comments(module: &Module, limits: &Limits) -> Result<(), Fault>
    requires { limits.now ≡ lengths «module».now }
    ensures { Checks «module».now (CommentsAreWithin «module».now) result }
{
    match &module.doc_comments {
        Some(comments) => check_comments(comments, limits),
        None => Ok(()),
    }
}

/// Checks the keys of doc comments.
fn check_comments(comments: &DocComments, limits: &Limits) -> Result<(), Fault>
    ensures { ChecksComments limits.now comments.now result }
{
    if let Err(fault) = check_keys(&comments.types, limits, &Place::TypeComments) {
        return Err(fault);
    }
    if let Err(fault) = check_keys(&comments.struct_members, limits, &Place::MemberComments) {
        return Err(fault);
    }
    if let Err(fault) = check_keys(&comments.functions, limits, &Place::FunctionComments) {
        return Err(fault);
    }
    if let Err(fault) = check_keys(&comments.constants, limits, &Place::ConstantComments) {
        return Err(fault);
    }
    check_keys(
        &comments.global_variables,
        limits,
        &Place::GlobalVariableComments,
    )
}
