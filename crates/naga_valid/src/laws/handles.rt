//! Laws of the handles that the parts of valid modules contain.
ghost use Rattle.std.specs.Prelude.{◌≡◌, ◌<◌, ◌≤◌, ℕ, Contains, length, slice_get};
ghost use Rattle.std.specs.Option.{ForSome};
ghost use Rattle.naga_arena.specs.Arena.{value_at};
ghost use Rattle.naga_ir.specs.View.{tree_of};
ghost use Rattle.naga_valid.specs.Limits.{AreWithin};
ghost use Rattle.naga_valid.specs.Places.{limits_at, references_in};
ghost use Rattle.naga_valid.specs.Statements.{references_of_tree};
ghost use Rattle.naga_valid.specs.Valid.{HandlesAreValid};

use crate::place::Place;
use crate::reference::Reference;
use naga_arena::Handle;
use naga_ir::{Constant, EntryPoint, Function, GlobalVariable, Module, Override};

/// In a valid module, the handles that a part of it contains are within the limits for that part.
pub fn handles_are_within_limits(module: &Module, place: Place)
    requires { HandlesAreValid «module».now }
    ensures { AreWithin (limits_at «module».now place) (references_in «module».now place) }
{}

/// In a valid module, the type and the init of a constant are in their arenas.
///
/// Preconditions: the module is valid, and `constant` is its constant with this handle.
pub fn handles_of_constant_are_in_arenas(
    module: &Module,
    handle: Handle<Constant>,
    constant: &Constant,
)
    requires valid { HandlesAreValid «module».now }
    requires found { value_at «module».now.constants handle ≡ Some constant.now }
    ensures ty { constant.now.ty < length «module».now.types }
    ensures init { constant.now.init < length «module».now.global_expressions }
{}

/// In a valid module, the type and the init of an override are in their arenas.
///
/// Preconditions: the module is valid, and `declared` is its override with this handle.
pub fn handles_of_override_are_in_arenas(
    module: &Module,
    handle: Handle<Override>,
    declared: &Override,
)
    requires valid { HandlesAreValid «module».now }
    requires found { value_at «module».now.overrides handle ≡ Some declared.now }
    ensures ty { declared.now.ty < length «module».now.types }
    ensures init { ForSome declared.now.init (λ init. init < length «module».now.global_expressions) }
{}

/// In a valid module, the type and the init of a global variable are in their arenas.
///
/// Preconditions: the module is valid, and `variable` is its global variable with this handle.
pub fn handles_of_global_variable_are_in_arenas(
    module: &Module,
    handle: Handle<GlobalVariable>,
    variable: &GlobalVariable,
)
    requires valid { HandlesAreValid «module».now }
    requires found { value_at «module».now.global_variables handle ≡ Some variable.now }
    ensures ty { variable.now.ty < length «module».now.types }
    ensures init { ForSome variable.now.init (λ init. init < length «module».now.global_expressions) }
{}

/// In a valid module, a range of expressions that the body of a function evaluates can be sliced from the function's
/// expressions.
///
/// Preconditions: the module is valid, and `function` is its function with this handle.
pub fn ranges_in_function_are_in_arena(
    module: &Module,
    handle: Handle<Function>,
    function: &Function,
)
    requires valid { HandlesAreValid «module».now }
    requires found { value_at «module».now.functions handle ≡ Some function.now }
    ensures { (first past : ℕ)
        → Contains (references_of_tree (tree_of function.now.body)) (Reference.Expressions first past)
        → (first ≤ past) × (past ≤ length function.now.expressions) }
{}

/// In a valid module, a range of expressions that the body of an entry point evaluates can be sliced from the entry
/// point's expressions.
///
/// Preconditions: the module is valid, and `entry` is its entry point at this position.
pub fn ranges_in_entry_point_are_in_arena(module: &Module, position: usize, entry: &EntryPoint)
    requires valid { HandlesAreValid «module».now }
    requires found { slice_get «module».now.entry_points.items position ≡ Some entry.now }
    ensures { (first past : ℕ)
        → Contains (references_of_tree (tree_of entry.now.function.body)) (Reference.Expressions first past)
        → (first ≤ past) × (past ≤ length entry.now.function.expressions) }
{}
