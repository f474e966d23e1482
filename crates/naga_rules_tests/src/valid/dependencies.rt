//! A test of the law that nothing in a valid module depends on itself.
ghost use Rattle.std.specs.Prelude.{IsTrue};
ghost use Rattle.naga_valid.specs.Dependencies.{DependsOn};

use super::module;
use naga_ir::Module;
use naga_valid::laws::dependencies::nothing_depends_on_itself;
use naga_valid::{Place, check_handles};

/// Returns whether all handles of a module are valid, so that nothing in it depends on itself.
fn is_valid(module: &Module) -> bool
    ensures { IsTrue result → (place : Place) → ¬ DependsOn «module».now place place }
{
    match check_handles(module) {
        Ok(()) => {
            nothing_depends_on_itself(module);
            true
        }
        Err(_) => false,
    }
}

#[test]
fn nothing_depends_on_itself_in_a_valid_module(rt: HostRuntime) {
    let Some(module) = module(rt.alloc()) else {
        return assert!(rt; false);
    };
    assert!(rt; is_valid(&module));
}
