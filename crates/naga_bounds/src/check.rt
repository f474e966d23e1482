//! The check of the accesses of a module.
ghost use Rattle.std.specs.Prelude.{◌≡◌, IfOk, MatchResult, take};
ghost use Rattle.std.specs.List.{All};
ghost use Rattle.naga_flow.specs.Bodies.{functions_of, functions_of_entries};
ghost use Rattle.naga_bounds.specs.Fits.{misfit_count};
ghost use Rattle.naga_bounds.specs.Modules.{AccessesFit, AccessesFitIn, IsInvalid, IsInvalidIn, typed_in};
ghost use Rattle.naga_bounds.specs.Unfit.{unfit_accesses};

use crate::accesses::Accesses;
use crate::invalid_access::{InvalidAccess, Misfit, UnfitAccess};
use naga_arena::Handle;
use naga_flow::BodyOwner;
use naga_ir::{Expression, Function, Module};
use std::alloc::{AllocError, Global};

/// Checks that each access of each function and of each entry point of a module fits: it is in bounds, as the type of
/// its base and the form of its index show.
///
/// The accesses are [`Access`](Expression::Access), [`AccessIndex`](Expression::AccessIndex) and
/// [`Swizzle`](Expression::Swizzle). An index fits
/// - if it is a constant index or a literal below a fixed length, or 0, since each array has an element,
/// - if it is a minimum or an `And` one of whose operands is a literal of type `u32` below a fixed length,
/// - if it is a minimum or an `And` one of whose operands is the length less a literal 1 of type `u32`, where the length
///   is the override that is the size of the array, or [`ArrayLength`](Expression::ArrayLength) of the base itself. In
///   the latter case, the base must be evaluated where it is used: it is ready when the function is entered, or a chain
///   of accesses by constant indices below fixed lengths to such an expression,
/// - if it is a `Clamp` whose upper limit is such an operand, and whose lower limit is a literal of type `u32` that is 0
///   or not above a literal as upper limit,
/// - if it is a `Modulo` whose divisor is a literal of type `u32` from 1 to a fixed length, or `ArrayLength` of the base.
///
/// Signed numbers are not enough, since the result can be negative. Nothing else is known to fit, even if it is in
/// bounds for another reason. Nor does an access whose base has no known length, or no type. If an expression of a
/// function has no type, no type is known from there on. Global expressions are not examined.
///
/// Returns the first access that does not fit, and why. The functions come before the entry points, and the expressions
/// of a function are in the order of their handles. Returns [`InvalidAccess::Memory`] if allocation fails. The time is
/// linear in the number of expressions.
///
/// Differs from naga: naga has no such check. Its back ends clamp indices.
pub fn check_bounds(alloc: Global, module: &Module) -> Result<(), InvalidAccess>
    ensures { MatchResult result (λ _. AccessesFit «module».now) (IsInvalid «module».now) }
{
    if let Err(invalid) = check_functions(alloc, module) {
        return Err(invalid);
    }
    check_entry_points(alloc, module)
}

/// Returns how many accesses of a function may be out of bounds: those that do not fit, as [`check_bounds`] defines it.
///
/// The function must be one of the module, or the function of one of its entry points. Returns `Err` if allocation fails. The
/// time is linear in the number of expressions.
///
/// Differs from naga: naga has no such function.
pub fn misfit_count(
    alloc: Global,
    module: &Module,
    function: &Function,
) -> Result<usize, AllocError>
    ensures { IfOk result (λ count. count ≡ misfit_count (typed_in «module».now function.now)) }
{
    match Accesses::of(alloc, module, function) {
        Some(accesses) => Ok(accesses.misfit_count()),
        None => Err(AllocError),
    }
}

/// Returns the accesses of a function that may be out of bounds, up to `limit`: those that do not fit, as [`check_bounds`]
/// defines it, in the order of their handles.
///
/// The function must be one of the module, or the function of one of its entry points. There are none if and only if each
/// access fits. If there are as many as `limit`, there may be more.
///
/// Returns `Err` if allocation fails. The time is linear in the number of expressions.
///
/// Differs from naga: naga has no such function.
pub fn unfit_accesses(
    alloc: Global,
    module: &Module,
    function: &Function,
    limit: usize,
) -> Result<Vec<UnfitAccess>, AllocError>
    ensures { IfOk result (λ found. found.items ≡ take limit (unfit_accesses (typed_in «module».now function.now))) }
{
    match Accesses::of(alloc, module, function) {
        Some(accesses) => accesses.unfit(alloc, limit),
        None => Err(AllocError),
    }
}

/// Checks the accesses of the functions that are not entry points.
fn check_functions(alloc: Global, module: &Module) -> Result<(), InvalidAccess>
    ensures { MatchResult result (λ _. All (AccessesFitIn «module».now) (functions_of «module».now))
        (IsInvalid «module».now) }
{
    'functions: for index in 0..module.functions.len() {
        let handle = Handle::<Function>::at(index);
        let owner = BodyOwner::Function(handle);
        if let Err(invalid) = check_function(alloc, module, &module.functions[handle], owner) {
            return Err(invalid);
        }
    }
    Ok(())
}

/// Checks the accesses of the entry points, where those of the functions fit.
fn check_entry_points(alloc: Global, module: &Module) -> Result<(), InvalidAccess>
    requires { All (AccessesFitIn «module».now) (functions_of «module».now) }
    ensures { MatchResult result
        (λ _. All (AccessesFitIn «module».now) (functions_of_entries «module».now.entry_points.items))
        (IsInvalid «module».now) }
{
    let entry_points = module.entry_points.as_slice();
    'entry_points: for position in 0..entry_points.len() {
        let owner = BodyOwner::EntryPoint(position);
        let function = &entry_points[position].function;
        if let Err(invalid) = check_function(alloc, module, function, owner) {
            return Err(invalid);
        }
    }
    Ok(())
}

/// Checks the accesses of a function, which is that of an owner.
fn check_function(
    alloc: Global,
    module: &Module,
    function: &Function,
    owner: BodyOwner,
) -> Result<(), InvalidAccess>
    ensures { MatchResult result (λ _. AccessesFitIn «module».now function.now)
        (IsInvalidIn «module».now function.now owner) }
{
    let Some(accesses) = Accesses::of(alloc, module, function) else {
        return Err(InvalidAccess::Memory);
    };
    'expressions: for index in 0..function.expressions.len() {
        let expression = Handle::<Expression>::at(index);
        match accesses.misfit(expression) {
            Some(cause) => {
                return Err(InvalidAccess::Misfit(Misfit {
                    owner,
                    expression,
                    cause,
                }));
            }
            None => {}
        }
    }
    Ok(())
}
