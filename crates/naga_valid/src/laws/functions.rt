//! Laws of functions in valid modules, and of edits that keep modules valid.
ghost use Rattle.std.specs.Prelude.{◌≡◌, ◌++◌, ◌∷◌, [], ℕ, All, Some, length, slice_get, slice_set};
ghost use Rattle.naga_arena.specs.Arena.{value_at, with_value};
ghost use Rattle.naga_arena.specs.declared.span.Span.{Span};
ghost use Rattle.naga_ir.specs.View.{tree_of};
ghost use Rattle.naga_valid.specs.Expressions.{references_of_expression};
ghost use Rattle.naga_valid.specs.Functions.{FunctionIsWithin};
ghost use Rattle.naga_valid.specs.Limits.{AreWithin};
ghost use Rattle.naga_valid.specs.Places.{lengths, limits_inside};
ghost use Rattle.naga_valid.specs.Statements.{references_of_tree};
ghost use Rattle.naga_valid.specs.Valid.{HandlesAreValid, IsConstant};
ghost use Rattle.naga_valid.specs.declared.limits.Limits.{Limits};

use naga_arena::Handle;
use naga_ir::{Block, EntryPoint, Expression, Function, Module};

/// In a valid module, the handles in a function are within limits. Functions are limited to those before this one.
///
/// Preconditions: the module is valid, and `function` is its function with this handle.
pub fn function_is_within_limits(module: &Module, handle: Handle<Function>, function: &Function)
    requires valid { HandlesAreValid «module».now }
    requires found { value_at «module».now.functions handle ≡ Some function.now }
    ensures { FunctionIsWithin (record (lengths «module».now) { functions = handle }) function.now }
{}

/// In a valid module, the handles in the function of an entry point are within limits.
///
/// Preconditions: the module is valid, and `entry` is its entry point at this position.
pub fn entry_point_is_within_limits(module: &Module, position: usize, entry: &EntryPoint)
    requires valid { HandlesAreValid «module».now }
    requires found { slice_get «module».now.entry_points.items position ≡ Some entry.now }
    ensures { FunctionIsWithin (lengths «module».now) entry.now.function }
{}

/// A valid module stays valid if a function is replaced by one whose handles are within the same limits.
pub fn replacing_a_function_keeps_validity()
    ensures function { (whole : Module) (handle : ℕ) (declared : Function)
        → HandlesAreValid whole
        → FunctionIsWithin (record (lengths whole) { functions = handle }) declared
        → HandlesAreValid (record whole { functions = with_value whole.functions handle declared }) }
    ensures entry_point { (old new : Module) (position : ℕ) (entry : EntryPoint) (declared : Function)
        → HandlesAreValid old
        → slice_get old.entry_points.items position ≡ Some entry
        → FunctionIsWithin (lengths old) declared
        → new.entry_points.items ≡ slice_set old.entry_points.items position (record entry { function = declared })
        → new ≡ record old { entry_points = new.entry_points }
        → HandlesAreValid new }
{}

/// The handles in a function stay within limits if its body is replaced by one whose handles are within these limits.
pub fn replacing_a_body_keeps_limits()
    ensures { (limits : Limits) (declared : Function) (body : Block)
        → FunctionIsWithin limits declared
        → AreWithin (limits_inside limits declared) (references_of_tree (tree_of body))
        → FunctionIsWithin limits (record declared { body = body }) }
{}

/// The handles in a function stay within limits if an expression is appended that refers only to earlier expressions,
/// and otherwise to elements within the limits.
pub fn appending_an_expression_keeps_limits()
    ensures { (limits : Limits) (declared : Function) (expression : Expression) (span : Span)
        → FunctionIsWithin limits declared
        → AreWithin (limits_inside limits declared) (references_of_expression expression)
        → FunctionIsWithin limits (record declared { expressions = declared.expressions ++ (expression, span) ∷ [] }) }
{}

/// A valid module stays valid if a global expression is appended that refers only to earlier global expressions, and to
/// types, constants and overrides of the module.
pub fn appending_a_global_expression_keeps_validity()
    ensures { (whole : Module) (expression : Expression) (span : Span)
        → HandlesAreValid whole
        → AreWithin (record (lengths whole) { expressions = length whole.global_expressions }) (references_of_expression expression)
        → All IsConstant (references_of_expression expression)
        → HandlesAreValid (record whole { global_expressions = whole.global_expressions ++ (expression, span) ∷ [] }) }
{}
