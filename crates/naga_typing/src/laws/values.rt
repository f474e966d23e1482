//! Values have the types of their expressions, whatever operators and statements do, if they respect types.
//!
//! `specs/TypedValues.antt` says what it is that they respect, `specs/TypedCalls.antt` the same of calls, and
//! `specs/TypedExecutions.antt` which executions have types. `specs/CheckedValues.antt` has the checks as premises.
ghost use Rattle.std.specs.Prelude.{◌≡◌, ℕ, [], ◌∷◌, Some, None};
ghost use Rattle.naga_kinds.specs.Scalar.{components_of};
ghost use Rattle.naga_kinds.specs.declared.scalar.Scalar.{Scalar};
ghost use Rattle.naga_kinds.specs.declared.scalar.TheConstants.Scalar.{BOOL};
ghost use Rattle.naga_kinds.specs.declared.scalar.VectorSize.{VectorSize};
ghost use Rattle.naga_ir.specs.declared.module.Function.{Function};
ghost use Rattle.naga_ir.specs.declared.module.Module.{Module};
ghost use Rattle.naga_typifier.specs.Context.{inner_at};
ghost use Rattle.naga_typing.specs.CheckedValues.{CheckedValuesHaveTypes, MeetsRequirements, RespectsTypesOf};
ghost use Rattle.naga_typing.specs.Forms.{form};
ghost use Rattle.naga_typing.specs.ModelValues.{Value, Variable, composite, numeric, pointing};
ghost use Rattle.naga_typing.specs.Requirements.{sized_type};
ghost use Rattle.naga_typing.specs.TypedCalls.{CalledRespectsTypes, CalledValuesHaveTypes, CallsRespectTypes};
ghost use Rattle.naga_typing.specs.TypedExecutions.{ValuesHaveTypes};
ghost use Rattle.naga_typing.specs.TypedInitials.{EntersInItsState, EntersWithTypes};
ghost use Rattle.naga_typing.specs.TypedModel.{IsStateOf, State, calls, has_type_in, interpretation, itself, stored};

/// Which values have which types, for which expressions operators give values of the right types, and in which states
/// the body of a function may be. A law that is generic over these holds for each choice of them.
pub trait ValueTyping<Value, State> {
    ghost use Rattle.naga_ir.specs.declared.expression.Expression as expression;
    ghost use Rattle.naga_ir.specs.declared.module.Function as function;
    ghost use Rattle.naga_typing.specs.Forms.{Form};

    // The value has this type.
    ghost has_type: { Value → Form → Type 0 };

    // In this function, operators give a value of the right type for this expression, if its operands have theirs.
    ghost accepts: { function.Function → expression.Expression → Type 0 };

    // The function may be entered in this state, before its local variables have their initial values.
    ghost beginning: { function.Function → State → Type 0 };

    // The body of the function may be in this state.
    ghost invariant: { function.Function → State → Type 0 };
}

/// At each point of each execution of a function that passes the checks of types and of uses, each expression that has
/// been evaluated has a value of its type, and so has each that is evaluated where it is used. What is returned has the
/// type of the function's result. This holds for each interpretation that respects the types of the function, from each
/// state in which its body may be. The check of uses is `check_emitted` of naga_flow: only chosen accesses by constant
/// indices are evaluated where they are used.
pub fn values_have_their_types<Thing, Value, State, T: ValueTyping<Value, State>>()
    ensures { ValuesHaveTypes Thing Value State T.has_type T.accepts T.invariant }
{}

/// A function whose local variables have constant initial values of their types begins its body in a state of its own,
/// for each interpretation that respects types where the function is entered.
pub fn bodies_begin_in_their_states<Thing, Value, State, T: ValueTyping<Value, State>>()
    ensures { EntersInItsState Thing Value State T.has_type T.accepts T.beginning T.invariant }
{}

/// Where calls have the meanings of the functions that are called, down to any depth, an interpretation still respects
/// the types of each function, if calls respect types and the functions pass the checks. So values have their types in
/// each function.
pub fn called_functions_respect_types<Thing, Value, State, T: ValueTyping<Value, State>>()
    ensures respected { CalledRespectsTypes Thing Value State T.has_type T.accepts T.invariant }
    ensures values { CalledValuesHaveTypes Thing Value State T.has_type T.accepts T.invariant }
{}

/// In a module that passes the checks of handles and of types, each value that is computed in a function has the type of
/// its expression, if the functions pass the check of uses. Calls have the meanings of the functions that are called,
/// down to any depth. Of an interpretation, this demands only that it respects the types of those expressions whose
/// operands are as the check of types requires, and of calls.
pub fn checked_values_have_their_types<Thing, Value, State, T: ValueTyping<Value, State>>()
    ensures { CheckedValuesHaveTypes Thing Value State T.has_type T.invariant }
{}

/// There is an interpretation that respects the types of all functions of each module, of expressions whose operands are
/// as the check of types requires, with calls that do. Its values are numbers, values with components, and pointers to
/// parts of variables. Not each value has each type: a boolean is below 2, a vector has as many parts as its size says, and
/// a number is no vector. A store changes what is in a variable.
pub fn types_are_respected_somewhere()
    ensures operators { (whole : Module)
        → RespectsTypesOf itself (interpretation whole) (has_type_in whole) whole (IsStateOf whole) }
    ensures entering { (whole : Module) (inside : Function)
        → EntersWithTypes itself (interpretation whole) (has_type_in whole) whole inside
        (MeetsRequirements whole inside) (IsStateOf whole inside) (IsStateOf whole inside) }
    ensures calls { (whole : Module)
        → CallsRespectTypes itself (calls whole) (interpretation whole) (has_type_in whole) whole (IsStateOf whole) }
    ensures booleans { (whole : Module)
        → ¬ has_type_in whole (numeric BOOL 2) (form (inner_at whole.types) (sized_type None BOOL)) }
    ensures sizes { (whole : Module) (scalar : Scalar) (size : VectorSize) (count : ℕ) (parts : ℕ → Value)
        → has_type_in whole (composite count parts) (form (inner_at whole.types) (sized_type (Some size) scalar))
        → count ≡ components_of size }
    ensures numbers { (whole : Module) (scalar : Scalar) (number : ℕ) (size : VectorSize)
        → ¬ has_type_in whole (numeric scalar number) (form (inner_at whole.types) (sized_type (Some size) scalar)) }
    ensures stores { (to : Variable) (value : Value) (state : State)
        → (stored (pointing to [] ∷ value ∷ []) state).memory to ≡ value }
{}
