//! The findings in declarations.
ghost use Rattle.std.specs.Prelude.{◌≡◌, OnOk};
ghost use Rattle.naga_typing.specs.Joined.{Adds, AddsJoined};
ghost use Rattle.naga_look.specs.Findings.{AreDeclarationFaults, IsDeclarationFault, owner_at_fault};

use super::body::{expression_at_fault, value_message};
use super::list::text_of;
use super::{Finding, FindingKind, FindingOwner};
use naga_ir::Module;
use naga_typing::{ValueFault, faults_of_declarations};
use std::alloc::{AllocError, Global};

/// Appends the faults of the declarations of a module.
pub(super) fn push_declarations(
    alloc: Global,
    found: &mut Vec<Finding>,
    module: &Module,
) -> Result<(), AllocError>
    ensures { OnOk result (Adds AreDeclarationFaults «module».now found.old.items found.new.items) }
{
    let faults = faults_of_declarations(alloc, module)?;
    push_each(alloc, found, faults.as_slice())
}

/// Appends these faults of declarations.
fn push_each(
    alloc: Global,
    found: &mut Vec<Finding>,
    faults: &[ValueFault],
) -> Result<(), AllocError>
    ensures { OnOk result (AddsJoined IsDeclarationFault faults.now found.old.items found.new.items) }
{
    'faults: for position in 0..faults.len() {
        push_fault(alloc, found, &faults[position])?;
    }
    Ok(())
}

/// Appends a fault of a declaration.
fn push_fault(alloc: Global, found: &mut Vec<Finding>, fault: &ValueFault) -> Result<(), AllocError>
    ensures { OnOk result (Adds IsDeclarationFault fault.now found.old.items found.new.items) }
{
    let message = value_message(alloc, fault)?;
    let message = text_of(alloc, message.as_str())?;
    found.push(Finding {
        kind: FindingKind::Fault,
        owner: owner_at_fault(fault),
        name: None,
        path: None,
        expression: expression_at_fault(fault),
        message,
    })?;
    Ok(())
}

/// Returns the global expression or the declaration at fault.
fn owner_at_fault(fault: &ValueFault) -> FindingOwner
    ensures { result ≡ owner_at_fault fault.now }
{
    match fault {
        ValueFault::NoType { expression, .. } => FindingOwner::GlobalExpression(*expression),
        ValueFault::Operand { expression, .. } => FindingOwner::GlobalExpression(*expression),
        ValueFault::Initial { declared, .. } => FindingOwner::Declaration(*declared),
    }
}
