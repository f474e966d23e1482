//! The types of the expressions of an arena.
ghost use Rattle.std.specs.Prelude.{◌≡◌, ◌<◌, [], ℕ, List, None, Option, Some, length, slice_get};
ghost use Rattle.naga_arena.specs.Arena.{value_at, values};
ghost use Rattle.naga_arena.specs.declared.span.Span.{Span};
ghost use Rattle.naga_ir.specs.declared.expression.Expression.{Expression};
ghost use Rattle.naga_ir.specs.declared.module.Function.{Function};
ghost use Rattle.naga_ir.specs.declared.module.Module.{Module};
ghost use Rattle.naga_compact.specs.Operands.{OperandsPrecede};
ghost use Rattle.naga_typifier.specs.Context.{Context, context_in, context_of};
ghost use Rattle.naga_typifier.specs.Table.{type_of};
ghost use Rattle.naga_typifier.specs.Typing.{typing};
ghost use Rattle.naga_typifier.specs.declared.context.ResolveContext.{ResolveContext as Resolving};
ghost use Rattle.naga_typifier.specs.declared.resolution.TypeResolution.{TypeResolution as Resolved};
ghost use Rattle.naga_typifier.specs.declared.resolve_error.ResolveError.{ResolveError as Fault};
ghost use Rattle.naga_typing.specs.Arenas.{AreTypes};
ghost use Rattle.naga_typing.specs.Functions.{IsContextOf};
ghost use Rattle.naga_typing.specs.Operands.{Depends};

/// The type of an expression depends only on the types of some of its operands.
pub fn types_depend_on_operands()
    ensures { (ctx : Context) (known after : ℕ → Option Resolved) (expression : Expression)
        → Depends (λ operand. after operand ≡ known operand) expression
        → type_of ctx after expression ≡ type_of ctx known expression }
{}

/// Where operands precede the expressions that have them, the expressions of an arena have types, and no other ones. An
/// expression may have none.
pub fn each_arena_has_its_types()
    ensures exist { (ctx : Context) (arena : List (Expression × Span)) → OperandsPrecede arena
        → (types : ℕ → Option Resolved) × AreTypes ctx (value_at arena) types }
    ensures unique { (ctx : Context) (arena : List (Expression × Span)) → OperandsPrecede arena
        → (types types' : ℕ → Option Resolved)
        → AreTypes ctx (value_at arena) types → AreTypes ctx (value_at arena) types'
        → (handle : ℕ) → types' handle ≡ types handle }
{}

/// A typifier that grows to an arena, where operands precede the expressions that have them, finds the types of its
/// expressions, up to the first that has none. If it finds no error, it has the types of all expressions.
pub fn typifiers_find_the_types()
    ensures found { (ctx : Context) (arena : List (Expression × Span)) → OperandsPrecede arena
        → (types : ℕ → Option Resolved) → AreTypes ctx (value_at arena) types
        → (found : List Resolved) (fault : Option Fault) → typing ctx [] (values arena) ≡ (found, fault)
        → (handle : ℕ) → handle < length found → slice_get found handle ≡ types handle }
    ensures stopped { (ctx : Context) (arena : List (Expression × Span)) → OperandsPrecede arena
        → (types : ℕ → Option Resolved) → AreTypes ctx (value_at arena) types
        → (found : List Resolved) (error : Fault) → typing ctx [] (values arena) ≡ (found, Some error)
        → (types (length found) ≡ None) × (length found < length arena) }
    ensures all { (ctx : Context) (arena : List (Expression × Span)) → OperandsPrecede arena
        → (found : List Resolved) → typing ctx [] (values arena) ≡ (found, None)
        → AreTypes ctx (value_at arena) (slice_get found) × (length found ≡ length arena) }
{}

/// The context of a function in its module has what a typifier reads from the module and from the function.
pub fn contexts_are_of_functions()
    ensures { (whole : Module) (inside : Function) (ctx : Resolving) → IsContextOf whole inside ctx
        → context_of ctx ≡ context_in whole inside }
{}
