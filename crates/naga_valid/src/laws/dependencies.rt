//! Laws of the parts of valid modules that depend on others.
ghost use Rattle.std.specs.Prelude.{◌≤◌, ℕ};
ghost use Rattle.naga_valid.specs.Dependencies.{DependsOn};
ghost use Rattle.naga_valid.specs.Valid.{HandlesAreValid};

use crate::place::{Part, Place};
use naga_ir::Module;

/// In a valid module, nothing depends on itself. A part of a function depends only on parts of the same function and of
/// functions before it.
pub fn nothing_depends_on_itself(module: &Module)
    requires { HandlesAreValid «module».now }
    ensures itself { (place : Place) → ¬ DependsOn «module».now place place }
    ensures functions { (handle other : ℕ) (inner outer : Part)
        → DependsOn «module».now (Place.Function handle inner) (Place.Function other outer)
        → other ≤ handle }
{}
