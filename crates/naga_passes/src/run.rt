//! Running passes on a module.
ghost use Rattle.std.specs.Prelude.{IfErr, OnOk};
ghost use Rattle.naga_valid.specs.Valid.{HandlesAreValid};
ghost use Rattle.naga_passes.specs.After.{After, Leaves, StopsAt, Transforms};

use crate::cull::cull_module;
use crate::pass::Pass;
use crate::pass_error::{PassError, PassFault};
use naga_bounds::restrict;
use naga_compact::compact;
use naga_ir::Module;
use naga_proc::close_module;
use std::alloc::Global;

/// Runs a pass on a module.
///
/// All handles of the module are still valid, whether or not the pass fails.
///
/// Culling cannot fail. If an allocation fails, closing leaves the statements of all bodies unchanged, as
/// [`close_module`] does, and compacting leaves the module empty, as [`compact`] does. If the accesses of a function
/// cannot be clamped, or an allocation for it fails, restricting leaves the functions before it restricted and all others
/// unchanged, as [`restrict`] does.
///
/// The caller must ensure that all handles of the module are valid, which `check_handles` tests.
///
/// Differs from naga: naga has no such function.
pub fn run_pass(alloc: Global, module: &mut Module, pass: Pass) -> Result<(), PassFault>
    requires valid { HandlesAreValid «module».old }
    ensures ran { OnOk result (Transforms pass «module».old «module».new) }
    ensures left { IfErr result (λ fault. Leaves pass fault «module».old «module».new) }
    ensures valid { HandlesAreValid «module».new }
{
    match pass {
        Pass::Cull => {
            cull_module(module);
            Ok(())
        }
        Pass::Close(rule) => {
            close_module(module, rule)?;
            Ok(())
        }
        Pass::Compact(keep_unused) => {
            compact(alloc, module, keep_unused)?;
            Ok(())
        }
        Pass::Restrict => {
            if let Err(error) = restrict(alloc, module) {
                return Err(PassFault::from(error));
            }
            Ok(())
        }
    }
}

/// Runs passes on a module, in this order.
///
/// All handles of the module are still valid, whether or not a pass fails.
///
/// If a pass stops, those before it were run. Passes stop if an allocation fails, and [`Pass::Restrict`] also if the
/// accesses of a function cannot be clamped. What the pass leaves is as [`run_pass`] says it. To keep the module as it
/// was, clone it first.
///
/// The caller must ensure that all handles of the module are valid, which `check_handles` tests.
///
/// Differs from naga: naga has no such function.
pub fn run_passes(alloc: Global, module: &mut Module, passes: &[Pass]) -> Result<(), PassError>
    requires valid { HandlesAreValid «module».old }
    ensures ran { OnOk result (After passes.now «module».old «module».new) }
    ensures stopped { IfErr result (λ error. StopsAt error.position error.fault passes.now «module».old «module».new) }
    ensures valid { HandlesAreValid «module».new }
{
    'passes: for position in 0..passes.len() {
        if let Err(fault) = run_pass(alloc, module, passes[position]) {
            return Err(PassError { position, fault });
        }
    }
    Ok(())
}
