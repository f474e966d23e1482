//! Searches for handles outside their limits, in lists of handles.
ghost use Rattle.std.specs.Prelude.{List, map};
ghost use Rattle.indexmap.specs.IndexMap.{keys, values};
ghost use Rattle.naga_valid.specs.Faults.{ChecksList};
ghost use Rattle.naga_valid.specs.Limits.{FindsOutside};
ghost use Rattle.naga_valid.specs.declared.limits.Limits.{Limits as Bounds};
ghost use Rattle.naga_valid.specs.declared.reference.Reference.{Reference as ReferenceTo};

use super::fault::Fault;
use crate::limits::{Limits, Outside};
use crate::place::Place;
use crate::reference::{HasReference, Reference};
use crate::references::Refers;
use indexmap::IndexMap;
use std::hash::Hash;
use std::ops::ControlFlow;

/// Returns the first reference of a part of a module that is not within the limits.
pub(super) fn first_outside<P: Refers>(part: &P, limits: &Limits) -> Option<Reference>
    ensures { FindsOutside limits.now (P.references part.now) result }
{
    first_outside_before(part, limits, limits.expressions)
}

/// Returns the first reference of a part of a module that is not within the limits, with another limit of expressions.
pub(super) fn first_outside_before<P: Refers>(
    part: &P,
    limits: &Limits,
    expressions: usize,
) -> Option<Reference>
    ensures { FindsOutside (record limits.now { expressions = expressions }) (P.references part.now) result }
{
    match part.visit_references(&mut Outside::new(limits, expressions)) {
        ControlFlow::Continue(()) => None,
        ControlFlow::Break(reference) => Some(reference),
    }
}

/// Returns the handle of the first key of a map that is not within the limits.
fn first_key_outside<K: HasReference + Eq + Hash, V>(
    entries: &IndexMap<K, V>,
    limits: &Limits,
) -> Option<Reference>
    ensures { FindsOutside limits.now (map K.reference (keys entries.now)) result }
{
    for key in entries.keys() {
        let reference = key.reference();
        if !limits.allow(&reference) {
            return Some(reference);
        }
    }
    None
}

/// Returns the handle of the first value of a map that is not within the limits.
fn first_value_outside<K: Eq + Hash, V: HasReference>(
    entries: &IndexMap<K, V>,
    limits: &Limits,
) -> Option<Reference>
    ensures { FindsOutside limits.now (map V.reference (values entries.now)) result }
{
    for value in entries.values() {
        let reference = value.reference();
        if !limits.allow(&reference) {
            return Some(reference);
        }
    }
    None
}

/// Checks what a part of a module refers to.
pub(super) fn check_part<P: Refers>(part: &P, limits: &Limits, place: &Place) -> Result<(), Fault>
    ensures { ChecksList limits.now (P.references part.now) place.now result }
{
    fault_at(first_outside(part, limits), place)
}

/// Checks the keys of a map.
pub(super) fn check_keys<K: HasReference + Eq + Hash, V>(
    entries: &IndexMap<K, V>,
    limits: &Limits,
    place: &Place,
) -> Result<(), Fault>
    ensures { ChecksList limits.now (map K.reference (keys entries.now)) place.now result }
{
    fault_at(first_key_outside(entries, limits), place)
}

/// Checks the values of a map.
pub(super) fn check_values<K: Eq + Hash, V: HasReference>(
    entries: &IndexMap<K, V>,
    limits: &Limits,
    place: &Place,
) -> Result<(), Fault>
    ensures { ChecksList limits.now (map V.reference (values entries.now)) place.now result }
{
    fault_at(first_value_outside(entries, limits), place)
}

/// Returns the fault of a handle that was found at a place, if one was found.
pub(super) fn fault_at(found: Option<Reference>, place: &Place) -> Result<(), Fault>
    ensures { (limits : Bounds) (references : List ReferenceTo) → FindsOutside limits references found
        → ChecksList limits references place.now result }
{
    match found {
        Some(reference) => Err(Fault {
            reference,
            place: *place,
        }),
        None => Ok(()),
    }
}
