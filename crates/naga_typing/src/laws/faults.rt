//! Laws of faults: what has one is not typed, so the check of types refuses nothing else, and declarations and functions
//! without faults are typed.
ghost use Rattle.std.specs.Prelude.{◌≡◌, ◌↔◌, [], List};
ghost use Rattle.naga_ir.specs.declared.module.Function.{Function};
ghost use Rattle.naga_ir.specs.declared.module.Module.{Module};
ghost use Rattle.naga_typing.specs.DeclarationFaults.{AreFaultsOfDeclarations};
ghost use Rattle.naga_typing.specs.FunctionFaults.{AreFaultsOfFunction};
ghost use Rattle.naga_typing.specs.TypedModules.{DeclarationsAreTyped, FunctionIsTyped, IsFault, IsGlobalFault};
ghost use Rattle.naga_typing.specs.declared.invalid_types.TypeFault.{TypeFault};
ghost use Rattle.naga_typing.specs.declared.invalid_types.ValueFault.{ValueFault};

/// A function with a fault is not typed.
pub fn functions_at_fault_are_not_typed()
    ensures { (whole : Module) (inside : Function) (fault : TypeFault)
        → IsFault whole inside fault → ¬ FunctionIsTyped whole inside }
{}

/// Declarations with a fault are not typed.
pub fn declarations_at_fault_are_not_typed()
    ensures { (whole : Module) (fault : ValueFault) → IsGlobalFault whole fault → ¬ DeclarationsAreTyped whole }
{}

/// Declarations are typed if and only if they have no faults.
pub fn declarations_without_faults_are_typed()
    ensures { (whole : Module) (faults : List ValueFault) → AreFaultsOfDeclarations whole faults
        → ((faults ≡ []) ↔ DeclarationsAreTyped whole) }
{}

/// A function is typed if and only if it has no faults.
pub fn functions_without_faults_are_typed()
    ensures { (whole : Module) (inside : Function) (faults : List TypeFault) → AreFaultsOfFunction whole inside faults
        → ((faults ≡ []) ↔ FunctionIsTyped whole inside) }
{}

/// A function has one list of faults.
pub fn functions_have_one_list_of_faults()
    ensures { (whole : Module) (inside : Function) (faults others : List TypeFault) → AreFaultsOfFunction whole inside faults
        → AreFaultsOfFunction whole inside others → faults ≡ others }
{}
