//! The expressions that are evaluated where they are used, and the accesses by constant indices below fixed lengths.
ghost use Rattle.std.specs.Prelude.{◌≡◌, IfOk, OnOk};
ghost use Rattle.naga_flow.specs.ConstantChains.{AreChainsBefore, AreConstantChains, with_if};
ghost use Rattle.naga_bounds.specs.FixedAccesses.{AreFixedAccesses};
ghost use Rattle.naga_bounds.specs.Modules.{typed_in};
ghost use Rattle.naga_bounds.specs.Reach.{at_use, is_fixed_access};

use crate::typed::TypedExpressions;
use naga_arena::Handle;
use naga_ir::{Expression, Function, Module};
use naga_sets::HandleSet;
use std::alloc::{AllocError, Global};

/// Returns the accesses of a function of a module that are always in bounds by their types: those by constant indices
/// below the fixed lengths of their bases, which come before them. Returns `Err` if allocation fails.
///
/// With this set, `check_emitted` of naga_flow makes sure of what
/// [`fitting_stays_in_bounds`](crate::laws::fitting_stays_in_bounds) demands of the uses of a function.
///
/// Differs from naga: naga has no such set.
pub fn fixed_accesses(
    alloc: Global,
    module: &Module,
    function: &Function,
) -> Result<HandleSet<Expression>, AllocError>
    ensures { IfOk result (AreFixedAccesses (typed_in «module».now function.now)) }
{
    match TypedExpressions::of(alloc, module, function) {
        Some(typed) => fixed_accesses_of(alloc, &typed),
        None => Err(AllocError),
    }
}

/// Returns the accesses by constant indices below the fixed lengths of their bases. Returns `Err` if allocation fails.
fn fixed_accesses_of(
    alloc: Global,
    typed: &TypedExpressions<'_>,
) -> Result<HandleSet<Expression>, AllocError>
    ensures { IfOk result (AreFixedAccesses typed.now) }
{
    let mut found = HandleSet::for_arena(alloc, typed.expressions)?;
    'expressions: for index in 0..typed.expressions.len() {
        let handle = Handle::<Expression>::at(index);
        let is_fixed = typed.is_fixed_access(handle);
        add(&mut found, handle, is_fixed)?;
    }
    Ok(found)
}

/// Returns the expressions that are evaluated where they are used: those that are ready when the function is entered,
/// and chains of accesses by constant indices below fixed lengths to such an expression. Returns `Err` if allocation
/// fails.
pub(crate) fn places(
    alloc: Global,
    typed: &TypedExpressions<'_>,
) -> Result<HandleSet<Expression>, AllocError>
    ensures { IfOk result (AreConstantChains (is_fixed_access typed.now) typed.now.arena) }
{
    let mut places = HandleSet::for_arena(alloc, typed.expressions)?;
    'expressions: for index in 0..typed.expressions.len() {
        let handle = Handle::<Expression>::at(index);
        let is_place = is_place(typed, &places, handle);
        add(&mut places, handle, is_place)?;
    }
    Ok(places)
}

/// Inserts an expression if it is a member of the set. Returns `Err` if allocation fails.
fn add(
    places: &mut HandleSet<Expression>,
    handle: Handle<Expression>,
    is_place: bool,
) -> Result<(), AllocError>
    ensures { OnOk result (places.new ≡ with_if is_place places.old handle) }
{
    if is_place {
        places.insert(handle)?;
    }
    Ok(())
}

/// Returns whether an expression is evaluated where it is used, by the answers for those before it.
fn is_place(
    typed: &TypedExpressions<'_>,
    places: &HandleSet<Expression>,
    handle: Handle<Expression>,
) -> bool
    requires { AreChainsBefore (is_fixed_access typed.now) typed.now.arena handle places.now }
    ensures { result ≡ at_use typed.now handle }
{
    if typed.is_ready(handle) {
        return true;
    }
    match typed.fixed_base(handle) {
        Some(base) => places.contains(base),
        None => false,
    }
}
