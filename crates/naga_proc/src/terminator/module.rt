//! Closing the bodies of all functions and entry points of a module.
ghost use Rattle.std.specs.Prelude.{IsOk, OnErr, OnOk};
ghost use Rattle.naga_proc.specs.Bodies.{ClosesBodies, HasRoomInBodies, HasSameStatements};
ghost use Rattle.naga_valid.specs.Valid.{HandlesAreValid};

use super::bodies::{
    close_entry_points, close_functions, reserve_in_entry_points, reserve_in_functions,
};
use super::rule::Rule;
use naga_ir::Module;
use std::alloc::AllocError;

/// Inserts a return at the end of each tail block that gets one under `rule`, in the bodies of all functions and entry
/// points.
///
/// In each body, the returns are those of [`ensure_block_returns_by`](crate::ensure_block_returns_by), and nothing
/// else of the module is changed. A module whose handles are valid stays one.
///
/// Space for all the returns is reserved before the first one is inserted. Therefore, if allocation fails, the
/// statements of all bodies are unchanged; blocks may only have more spare capacity. The call cannot fail if each block
/// that gets a return has spare capacity for one push, as after [`reserve_module_returns`], or if no block gets one.
///
/// Differs from naga: naga has no such function.
pub fn close_module(module: &mut Module, rule: Rule) -> Result<(), AllocError>
    ensures closed { OnOk result (ClosesBodies rule «module».old «module».new) }
    ensures unchanged { OnErr result (HasSameStatements «module».old «module».new) }
    ensures valid { HandlesAreValid «module».old → HandlesAreValid «module».new }
    ensures succeeds { HasRoomInBodies rule «module».old → IsOk result }
{
    reserve_module_returns(module, rule)?;
    close_bodies(module, rule);
    Ok(())
}

/// Reserves space for one push in each tail block that gets a return under `rule`, in the bodies of all functions and
/// entry points.
///
/// Statements are unchanged, even if an allocation fails. After `Ok`, [`close_module`] with the same rule cannot fail.
/// This function cannot fail if the spare capacity is already there.
///
/// Differs from naga: naga has no such function.
pub fn reserve_module_returns(module: &mut Module, rule: Rule) -> Result<(), AllocError>
    ensures unchanged { HasSameStatements «module».old «module».new }
    ensures room { OnOk result (HasRoomInBodies rule «module».new) }
    ensures succeeds { HasRoomInBodies rule «module».old → IsOk result }
{
    reserve_in_functions(&mut module.functions, rule)?;
    reserve_in_entry_points(&mut module.entry_points, rule)
}

/// Inserts the returns into all bodies. Nothing is allocated.
///
/// Precondition: each tail block that gets a return has spare capacity for one push.
fn close_bodies(module: &mut Module, rule: Rule)
    requires { HasRoomInBodies rule «module».old }
    ensures { ClosesBodies rule «module».old «module».new }
{
    close_functions(&mut module.functions, rule);
    close_entry_points(&mut module.entry_points, rule);
}
