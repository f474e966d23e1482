//! Reserving space in the bodies of functions and of entry points, and closing these bodies.
ghost use Rattle.std.specs.Prelude.{◌≡◌, All, IsOk, OnOk};
ghost use Rattle.std.specs.List.{AllZip};
ghost use Rattle.naga_proc.specs.Bodies.{ChangesBody, ChangesEntryBody, HasRoomInBody, IsSame};
ghost use Rattle.naga_proc.specs.Closing.{ClosedBy};

use super::rule::Rule;
use super::{close_block, reserve_returns};
use naga_arena::{Arena, Handle};
use naga_ir::{EntryPoint, Function};
use std::alloc::AllocError;

/// Reserves space for the returns in the bodies of functions. Statements are unchanged, even if an allocation fails.
pub(crate) fn reserve_in_functions(
    functions: &mut Arena<Function>,
    rule: Rule,
) -> Result<(), AllocError>
    ensures unchanged { AllZip (λ before after. ChangesBody IsSame before.0 after.0 × (after.1 ≡ before.1))
        functions.old functions.new }
    ensures room { OnOk result (All (λ entry. HasRoomInBody rule entry.0) functions.new) }
    ensures succeeds { All (λ entry. HasRoomInBody rule entry.0) functions.old → IsOk result }
{
    'functions: for index in 0..functions.len() {
        let function = functions.get_mut(Handle::<Function>::at(index));
        reserve_in_function(function, rule)?;
    }
    Ok(())
}

/// Reserves space for the returns in the bodies of entry points. Statements are unchanged, even if an allocation fails.
pub(crate) fn reserve_in_entry_points(
    entry_points: &mut [EntryPoint],
    rule: Rule,
) -> Result<(), AllocError>
    ensures unchanged { AllZip (ChangesEntryBody IsSame) entry_points.old entry_points.new }
    ensures room { OnOk result (All (λ entry. HasRoomInBody rule entry.function) entry_points.new) }
    ensures succeeds { All (λ entry. HasRoomInBody rule entry.function) entry_points.old → IsOk result }
{
    'entry_points: for entry_point in entry_points.iter_mut() {
        reserve_in_function(&mut entry_point.function, rule)?;
    }
    Ok(())
}

/// Inserts the returns into the bodies of functions.
///
/// Precondition: each tail block that gets a return has spare capacity for one push.
pub(crate) fn close_functions(functions: &mut Arena<Function>, rule: Rule)
    requires { All (λ entry. HasRoomInBody rule entry.0) functions.old }
    ensures { AllZip (λ before after. ChangesBody (ClosedBy rule) before.0 after.0 × (after.1 ≡ before.1))
        functions.old functions.new }
{
    'functions: for index in 0..functions.len() {
        let function = functions.get_mut(Handle::<Function>::at(index));
        close_function(function, rule);
    }
}

/// Inserts the returns into the bodies of entry points.
///
/// Precondition: each tail block that gets a return has spare capacity for one push.
pub(crate) fn close_entry_points(entry_points: &mut [EntryPoint], rule: Rule)
    requires { All (λ entry. HasRoomInBody rule entry.function) entry_points.old }
    ensures { AllZip (ChangesEntryBody (ClosedBy rule)) entry_points.old entry_points.new }
{
    'entry_points: for entry_point in entry_points.iter_mut() {
        close_function(&mut entry_point.function, rule);
    }
}

/// Reserves space for the returns in the body of a function. Statements are unchanged, even if an allocation fails.
fn reserve_in_function(function: &mut Function, rule: Rule) -> Result<(), AllocError>
    ensures unchanged { ChangesBody IsSame function.old function.new }
    ensures room { OnOk result (HasRoomInBody rule function.new) }
    ensures succeeds { HasRoomInBody rule function.old → IsOk result }
{
    reserve_returns(&mut function.body, rule)
}

/// Inserts the returns into the body of a function.
///
/// Precondition: each tail block that gets a return has spare capacity for one push.
fn close_function(function: &mut Function, rule: Rule)
    requires { HasRoomInBody rule function.old }
    ensures { ChangesBody (ClosedBy rule) function.old function.new }
{
    close_block(&mut function.body, rule)
}
