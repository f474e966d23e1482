//! The law of the errors of [`check_handles`](crate::check_handles).
ghost use Rattle.naga_valid.specs.Faults.{IsAtFault};
ghost use Rattle.naga_valid.specs.Valid.{HandlesAreValid};

use crate::invalid_handle::InvalidHandle;
use naga_ir::Module;

/// If an error names a fault of a module, the module is not valid.
pub fn an_error_refutes_validity()
    ensures { (whole : Module) (error : InvalidHandle) → IsAtFault whole error → ¬ HandlesAreValid whole }
{}
