//! The faults of declarations.
ghost use Rattle.std.specs.Prelude.{◌≡◌, ◌∷◌, ◌++◌, [], IfOk, MatchResult, None, OnOk};
ghost use Rattle.naga_arena.specs.Arena.{values};
ghost use Rattle.naga_ir.specs.Module.{IsEmptyFunction};
ghost use Rattle.naga_typifier.specs.Typing.{IsStopped, typing};
ghost use Rattle.naga_typing.specs.DeclarationFaults.{AddsFaultsOf, AddsInitialFaults, AreFaultsOfDeclarations, AreInitialFaults, declarations, declarations_of};
ghost use Rattle.naga_typing.specs.Initials.{initials};
ghost use Rattle.naga_typing.specs.TypedFunctions.{context_of, signature_of};

use crate::initial::{DeclarationKind, Initialized, declaration_at};
use crate::invalid_types::{InvalidValues, ValueFault};
use crate::requirement::Requirement;
use crate::stage::{check_expressions, unmet};
use crate::typed_function::TypedFunction;
use naga_ir::{Function, Module};
use naga_typifier::{GrowError, ResolveContext, Typifier};
use std::alloc::{AllocError, Global};

/// Returns the faults of the declarations of a module.
///
/// If a global expression has no type, or an operand that is not what it requires, the first such fault is the only
/// one, since the types of the expressions behind it may not be known. Otherwise there is a fault for each constant,
/// override and global variable whose initial value has not the type declared. The faults of constants come first, then
/// those of overrides and of global variables, each in the order of handles.
///
/// There are none if and only if [`check_types_of_declarations`](crate::check_types_of_declarations) finds none.
///
/// Returns `Err` if allocation fails. The time is linear in the size of the module.
///
/// Differs from naga: naga has no such function.
pub fn faults_of_declarations(alloc: Global, module: &Module) -> Result<Vec<ValueFault>, AllocError>
    ensures { IfOk result (λ faults. AreFaultsOfDeclarations «module».now faults.items) }
{
    // global expressions are as those of a function without arguments and variables
    let function = &Function::new(alloc);
    let ctx = ResolveContext::with_function(module, function);
    let mut types = Typifier::new(alloc);
    let outcome = types.grow(&module.global_expressions, &ctx);
    let known = &types;
    let typed = TypedFunction {
        module,
        function,
        known,
    };
    faults_of_global_values(alloc, &typed, &outcome)
}

/// Returns the faults of global expressions, for which a typifier grows with this outcome, or of initial values.
fn faults_of_global_values(
    alloc: Global,
    typed: &TypedFunction<'_>,
    outcome: &Result<(), GrowError>,
) -> Result<Vec<ValueFault>, AllocError>
    requires empty { IsEmptyFunction typed.now.function.now }
    requires types { MatchResult outcome.now
        (λ _. typing (context_of typed.now) [] (values typed.now.«module».now.global_expressions)
        ≡ (typed.now.known.now, None))
        (λ error. IsStopped (context_of typed.now) [] (values typed.now.«module».now.global_expressions) error
        typed.now.known.now) }
    ensures { IfOk result (λ faults. AreFaultsOfDeclarations typed.now.«module».now faults.items) }
{
    match check_expressions(typed, &typed.module.global_expressions, outcome) {
        Ok(()) => faults_of_initials(alloc, typed),
        Err(InvalidValues::Memory) => Err(AllocError),
        Err(InvalidValues::Fault(fault)) => only(alloc, fault),
    }
}

/// Returns a list of one fault.
fn only(alloc: Global, fault: ValueFault) -> Result<Vec<ValueFault>, AllocError>
    ensures { IfOk result (λ faults. faults.items ≡ fault ∷ []) }
{
    let mut faults = Vec::new(alloc);
    push(&mut faults, fault)?;
    Ok(faults)
}

/// Returns the faults of the initial values of constants, overrides and global variables.
fn faults_of_initials(
    alloc: Global,
    typed: &TypedFunction<'_>,
) -> Result<Vec<ValueFault>, AllocError>
    ensures { IfOk result (λ faults. AreInitialFaults (context_of typed.now) (signature_of typed.now)
        typed.now.known.now (declarations_of typed.now.«module».now) faults.items) }
{
    let mut faults = Vec::new(alloc);
    push_faults(&mut faults, typed, DeclarationKind::Constant)?;
    push_faults(&mut faults, typed, DeclarationKind::Override)?;
    push_faults(&mut faults, typed, DeclarationKind::GlobalVariable)?;
    Ok(faults)
}

/// Appends the faults of the initial values of the declarations of this kind.
fn push_faults(
    faults: &mut Vec<ValueFault>,
    typed: &TypedFunction<'_>,
    kind: DeclarationKind,
) -> Result<(), AllocError>
    ensures { OnOk result (AddsInitialFaults (context_of typed.now) (signature_of typed.now) typed.now.known.now
        (declarations kind (initials typed.now.«module».now typed.now.function.now kind))
        faults.old.items faults.new.items) }
{
    'declarations: for position in 0..typed.count_of(kind) {
        let slot = typed.initial(kind, position);
        push_fault(faults, typed, declaration_at(kind, position), &slot)?;
    }
    Ok(())
}

/// Appends the fault of a declaration, if its initial value is not what it requires.
fn push_fault(
    faults: &mut Vec<ValueFault>,
    typed: &TypedFunction<'_>,
    declared: Initialized,
    slot: &Option<Requirement>,
) -> Result<(), AllocError>
    ensures { OnOk result (AddsFaultsOf (context_of typed.now) (signature_of typed.now) typed.now.known.now
        (declared, slot.now) faults.old.items faults.new.items) }
{
    let Some(requirement) = typed.unmet(slot) else {
        return Ok(());
    };
    let unmet = unmet(typed, requirement);
    push(faults, ValueFault::Initial { declared, unmet })
}

/// Appends a fault.
fn push(faults: &mut Vec<ValueFault>, fault: ValueFault) -> Result<(), AllocError>
    ensures { OnOk result (faults.new.items ≡ faults.old.items ++ fault ∷ []) }
{
    faults.reserve(1)?;
    // Each variant has an arm, since the borrow checker knows of no type that is deeper inside an element.
    match fault {
        ValueFault::NoType { expression, error } => {
            faults.push_reserved(ValueFault::NoType { expression, error });
        }
        ValueFault::Operand { expression, unmet } => {
            faults.push_reserved(ValueFault::Operand { expression, unmet });
        }
        ValueFault::Initial { declared, unmet } => {
            faults.push_reserved(ValueFault::Initial { declared, unmet });
        }
    }
    Ok(())
}
