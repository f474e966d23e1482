//! The lines of a report on the faults of declarations.
ghost use Rattle.std.specs.Prelude.{◌≡◌, ◌++◌, IfOk, OnOk, string_bytes};
ghost use Rattle.naga_text.specs.Words.{number};
ghost use Rattle.naga_typing.specs.Joined.{Adds, AddsJoined};
ghost use Rattle.naga_typing.specs.Messages.{initialized_text};
ghost use Rattle.naga_look.specs.DeclarationLines.{AddsDeclarationLines, IsDeclarationLine, IsSaid, fault_head};

use super::push_fault;
use naga_ir::Module;
use naga_text::Text;
use naga_typing::{Initialized, ValueFault, faults_of_declarations};
use std::alloc::{AllocError, Global};

/// Appends the lines of the faults of the declarations of a module.
pub(super) fn push_declarations(
    alloc: Global,
    text: &mut Text,
    module: &Module,
) -> Result<(), AllocError>
    ensures { OnOk result (AddsDeclarationLines «module».now text.old text.new) }
{
    let faults = faults_of_declarations(alloc, module)?;
    push_faults(alloc, text, faults.as_slice())
}

/// Appends the lines of these faults.
fn push_faults(alloc: Global, text: &mut Text, faults: &[ValueFault]) -> Result<(), AllocError>
    ensures { OnOk result (AddsJoined IsDeclarationLine faults.now text.old text.new) }
{
    'faults: for position in 0..faults.len() {
        push_fault_line(alloc, text, &faults[position])?;
    }
    Ok(())
}

/// Appends the line of a fault.
fn push_fault_line(alloc: Global, text: &mut Text, fault: &ValueFault) -> Result<(), AllocError>
    ensures { OnOk result (Adds IsDeclarationLine fault.now text.old text.new) }
{
    push_head(text, fault)?;
    let said = said_of(alloc, fault)?;
    push_fault(text, said.as_str())
}

/// Appends what the line of a fault begins with.
fn push_head(text: &mut Text, fault: &ValueFault) -> Result<(), AllocError>
    ensures { OnOk result (text.new ≡ text.old ++ fault_head fault.now) }
{
    match fault {
        ValueFault::NoType { expression, .. } => {
            push_numbered(text, "global expression", expression.index())?;
            text.push(" has no type")
        }
        ValueFault::Operand { expression, .. } => {
            push_numbered(text, "global expression", expression.index())
        }
        ValueFault::Initial { declared, .. } => push_initialized(text, *declared),
    }
}

/// Appends what a declaration is, and its position.
fn push_initialized(text: &mut Text, declared: Initialized) -> Result<(), AllocError>
    ensures { OnOk result (text.new ≡ text.old ++ initialized_text declared) }
{
    match declared {
        Initialized::Constant(handle) => push_numbered(text, "constant", handle.index()),
        Initialized::Override(handle) => push_numbered(text, "override", handle.index()),
        Initialized::GlobalVariable(handle) => {
            push_numbered(text, "global variable", handle.index())
        }
        Initialized::LocalVariable(handle) => push_numbered(text, "local variable", handle.index()),
    }
}

/// Appends a name and a number.
fn push_numbered(text: &mut Text, name: &str, index: usize) -> Result<(), AllocError>
    ensures { OnOk result (text.new ≡ text.old ++ (name.now ++ number index)) }
{
    text.push(name)?;
    text.push_index(index)
}

/// Returns what the line of a fault says behind its beginning.
fn said_of(alloc: Global, fault: &ValueFault) -> Result<String, AllocError>
    ensures { IfOk result (λ said. IsSaid fault.now (string_bytes said)) }
{
    match fault {
        ValueFault::NoType { error, .. } => format!(in alloc; "{error}"),
        ValueFault::Operand { unmet, .. } => format!(in alloc; "{unmet}"),
        ValueFault::Initial { unmet, .. } => format!(in alloc; "{unmet}"),
    }
}
