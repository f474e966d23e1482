//! The findings in a function.
ghost use Rattle.std.specs.Prelude.{◌≡◌, ◌++◌, [], ◌∷◌, IfOk, OnOk, map, string_bytes, take};
ghost use Rattle.naga_bounds.specs.Messages.{unfit_access_text};
ghost use Rattle.naga_bounds.specs.Modules.{typed_in};
ghost use Rattle.naga_bounds.specs.Unfit.{unfit_accesses};
ghost use Rattle.naga_flow.specs.Messages.{jump_text, misuse_text};
ghost use Rattle.naga_flow.specs.Paths.{path_text};
ghost use Rattle.naga_ir.specs.View.{tree_of};
ghost use Rattle.naga_typing.specs.Joined.{Adds, AddsJoined};
ghost use Rattle.naga_typing.specs.Messages.{unmet_text, value_fault_text};
ghost use Rattle.naga_look.specs.Findings.{AreBodyFaults, AreEmits, AreFindingsInside, AreTypeFaults, IsTypeFault, IsUnmet, IsValueFault, Says, access_finding, expression_at_fault, finding_in, inside_of, jump_fault, misuse_fault, return_finding};
ghost use Rattle.naga_look.specs.OpenEnds.{missing_returns};

use super::list::text_of;
use super::{Finding, FindingKind, FindingOwner};
use crate::emits::lacks_emit;
use crate::ends::missing_returns;
use naga_arena::Handle;
use naga_bounds::{UnfitAccess, unfit_accesses};
use naga_flow::laws::a_body_with_a_fault_does_not_pass;
use naga_flow::{BodyOwner, InvalidBody, Jump, MisplacedJump, Misuse, StatementPath, check_body};
use naga_ir::{Expression, Function, Module};
use naga_text::Text;
use naga_typing::{TypeFault, Unmet, ValueFault, faults_of_function};
use std::alloc::{AllocError, Global};

/// What is said of a function that lacks an `Emit`.
const WITHOUT_EMIT: &str = "an access without its own Emit";

/// What is said of a block in which a return is missing.
const MISSING_RETURN: &str = "a return is missing at the end";

/// A function or an entry point of the module, and its name.
#[derive(Clone, Copy)]
pub(super) struct Body<'a> {
    pub(super) owner: BodyOwner,
    pub(super) name: &'a Option<Text>,
    pub(super) function: &'a Function,
}

/// Appends the findings in a function: faults first.
pub(super) fn push_body(
    alloc: Global,
    found: &mut Vec<Finding>,
    module: &Module,
    body: &Body<'_>,
    limit: usize,
) -> Result<(), AllocError>
    ensures { OnOk result (Adds (AreFindingsInside «module».now limit) (inside_of body.now)
        found.old.items found.new.items) }
{
    push_body_fault(alloc, found, body)?;
    push_type_faults(alloc, found, module, body, limit)?;
    push_emit(alloc, found, body)?;
    push_returns(alloc, found, body, limit)?;
    push_accesses(alloc, found, module, body, limit)
}

/// Appends the first fault of a body, if there is one.
fn push_body_fault(
    alloc: Global,
    found: &mut Vec<Finding>,
    body: &Body<'_>,
) -> Result<(), AllocError>
    ensures { OnOk result (Adds AreBodyFaults (inside_of body.now) found.old.items found.new.items) }
{
    a_body_with_a_fault_does_not_pass();
    match check_body(alloc, body.function) {
        Ok(()) => Ok(()),
        Err(InvalidBody::Memory) => Err(AllocError),
        Err(InvalidBody::Jump(misplaced)) => push_jump(alloc, found, body, &misplaced),
        Err(InvalidBody::Use(misuse)) => push_misuse(alloc, found, body, &misuse),
    }
}

/// Appends a jump that is not allowed where it is.
fn push_jump(
    alloc: Global,
    found: &mut Vec<Finding>,
    body: &Body<'_>,
    misplaced: &MisplacedJump,
) -> Result<(), AllocError>
    ensures { OnOk result (found.new.items ≡ found.old.items ++ jump_fault (inside_of body.now) misplaced.now ∷ []) }
{
    let path = path_to(alloc, body, misplaced.statement)?;
    let message = jump_message(alloc, misplaced.jump)?;
    push_finding(
        alloc,
        found,
        FindingKind::Fault,
        body,
        Some(path),
        None,
        message.as_str(),
    )
}

/// Returns what is wrong with a jump.
fn jump_message(alloc: Global, jump: Jump) -> Result<String, AllocError>
    ensures { IfOk result (λ message. string_bytes message ≡ jump_text jump) }
{
    format!(in alloc; "{jump}")
}

/// Appends an expression that a statement misuses.
fn push_misuse(
    alloc: Global,
    found: &mut Vec<Finding>,
    body: &Body<'_>,
    misuse: &Misuse,
) -> Result<(), AllocError>
    ensures { OnOk result (found.new.items ≡ found.old.items ++ misuse_fault (inside_of body.now) misuse.now ∷ []) }
{
    let path = path_to(alloc, body, misuse.statement)?;
    let message = misuse_message(alloc, misuse)?;
    push_finding(
        alloc,
        found,
        FindingKind::Fault,
        body,
        Some(path),
        Some(misuse.expression),
        message.as_str(),
    )
}

/// Returns what is wrong with the use of an expression.
fn misuse_message(alloc: Global, misuse: &Misuse) -> Result<String, AllocError>
    ensures { IfOk result (λ message. string_bytes message ≡ misuse_text misuse.now) }
{
    format!(in alloc; "expression {} {}", misuse.expression.index(), misuse.cause)
}

/// Returns the path to the statement of a function with this number.
fn path_to(alloc: Global, body: &Body<'_>, statement: u64) -> Result<Text, AllocError>
    ensures { IfOk result (λ path. path ≡ path_text (tree_of body.now.function.now.body) statement) }
{
    let written = written_path(alloc, body.function, statement)?;
    text_of(alloc, written.as_str())
}

/// Returns the same path as a string.
fn written_path(alloc: Global, function: &Function, statement: u64) -> Result<String, AllocError>
    ensures { IfOk result (λ path. string_bytes path ≡ path_text (tree_of function.now.body) statement) }
{
    let path = StatementPath::new(&function.body, statement);
    format!(in alloc; "{path}")
}

/// Appends the faults of the types of a function, up to `limit`.
fn push_type_faults(
    alloc: Global,
    found: &mut Vec<Finding>,
    module: &Module,
    body: &Body<'_>,
    limit: usize,
) -> Result<(), AllocError>
    ensures { OnOk result (Adds (AreTypeFaults «module».now limit) (inside_of body.now)
        found.old.items found.new.items) }
{
    let faults = faults_of_function(alloc, module, body.function, limit)?;
    push_each_type_fault(alloc, found, body, faults.as_slice())
}

/// Appends these faults of the types of a function.
fn push_each_type_fault(
    alloc: Global,
    found: &mut Vec<Finding>,
    body: &Body<'_>,
    faults: &[TypeFault],
) -> Result<(), AllocError>
    ensures { OnOk result (AddsJoined (IsTypeFault (inside_of body.now)) faults.now found.old.items found.new.items) }
{
    'faults: for position in 0..faults.len() {
        push_type_fault(alloc, found, body, &faults[position])?;
    }
    Ok(())
}

/// Appends a fault of the types of a function.
fn push_type_fault(
    alloc: Global,
    found: &mut Vec<Finding>,
    body: &Body<'_>,
    fault: &TypeFault,
) -> Result<(), AllocError>
    ensures { OnOk result (Adds (IsTypeFault (inside_of body.now)) fault.now found.old.items found.new.items) }
{
    match fault {
        TypeFault::Value(value) => push_value_fault(alloc, found, body, value),
        TypeFault::Mismatch {
            mismatch,
            found: what,
        } => {
            let unmet = Unmet {
                requirement: mismatch.requirement,
                found: *what,
            };
            push_unmet(alloc, found, body, mismatch.statement, &unmet)
        }
    }
}

/// Appends a fault of an expression or of an initial value.
fn push_value_fault(
    alloc: Global,
    found: &mut Vec<Finding>,
    body: &Body<'_>,
    fault: &ValueFault,
) -> Result<(), AllocError>
    ensures { OnOk result (Adds (IsValueFault (inside_of body.now)) fault.now found.old.items found.new.items) }
{
    let message = value_message(alloc, fault)?;
    push_finding(
        alloc,
        found,
        FindingKind::Fault,
        body,
        None,
        expression_at_fault(fault),
        message.as_str(),
    )
}

/// Appends a requirement of a statement that is not met.
fn push_unmet(
    alloc: Global,
    found: &mut Vec<Finding>,
    body: &Body<'_>,
    statement: u64,
    unmet: &Unmet,
) -> Result<(), AllocError>
    ensures { OnOk result (Adds (IsUnmet (inside_of body.now) statement) unmet.now found.old.items found.new.items) }
{
    let path = path_to(alloc, body, statement)?;
    let message = unmet_message(alloc, unmet)?;
    push_finding(
        alloc,
        found,
        FindingKind::Fault,
        body,
        Some(path),
        None,
        message.as_str(),
    )
}

/// Returns what is wrong with an expression or with an initial value.
pub(super) fn value_message(alloc: Global, fault: &ValueFault) -> Result<String, AllocError>
    ensures { IfOk result (λ message. Says (value_fault_text fault.now) (string_bytes message)) }
{
    format!(in alloc; "{fault}")
}

/// Returns which requirement is not met.
fn unmet_message(alloc: Global, unmet: &Unmet) -> Result<String, AllocError>
    ensures { IfOk result (λ message. Says (unmet_text unmet.now) (string_bytes message)) }
{
    format!(in alloc; "{unmet}")
}

/// Returns the expression at fault, if there is one.
pub(super) fn expression_at_fault(fault: &ValueFault) -> Option<Handle<Expression>>
    ensures { result ≡ expression_at_fault fault.now }
{
    match fault {
        ValueFault::NoType { expression, .. } => Some(*expression),
        ValueFault::Operand { expression, .. } => Some(*expression),
        ValueFault::Initial { .. } => None,
    }
}

/// Appends that a function lacks an `Emit`, if it does.
fn push_emit(alloc: Global, found: &mut Vec<Finding>, body: &Body<'_>) -> Result<(), AllocError>
    ensures { OnOk result (Adds AreEmits (inside_of body.now) found.old.items found.new.items) }
{
    if lacks_emit(alloc, body.function)? {
        push_finding(
            alloc,
            found,
            FindingKind::Emit,
            body,
            None,
            None,
            WITHOUT_EMIT,
        )
    } else {
        Ok(())
    }
}

/// Appends the blocks of a function that get a return, up to `limit`.
fn push_returns(
    alloc: Global,
    found: &mut Vec<Finding>,
    body: &Body<'_>,
    limit: usize,
) -> Result<(), AllocError>
    ensures { OnOk result (found.new.items
        ≡ found.old.items ++ map (return_finding (inside_of body.now)) (missing_returns limit body.now.function.now)) }
{
    let paths = missing_returns(alloc, body.function, limit)?;
    push_each_return(alloc, found, body, paths.as_slice())
}

/// Appends the blocks with these paths.
fn push_each_return(
    alloc: Global,
    found: &mut Vec<Finding>,
    body: &Body<'_>,
    paths: &[Text],
) -> Result<(), AllocError>
    ensures { OnOk result (found.new.items ≡ found.old.items ++ map (return_finding (inside_of body.now)) paths.now) }
{
    'paths: for position in 0..paths.len() {
        push_return(alloc, found, body, &paths[position])?;
    }
    Ok(())
}

/// Appends the block with this path.
fn push_return(
    alloc: Global,
    found: &mut Vec<Finding>,
    body: &Body<'_>,
    path: &Text,
) -> Result<(), AllocError>
    ensures { OnOk result (found.new.items ≡ found.old.items ++ return_finding (inside_of body.now) path.now ∷ []) }
{
    let path = path.copy()?;
    push_finding(
        alloc,
        found,
        FindingKind::Return,
        body,
        Some(path),
        None,
        MISSING_RETURN,
    )
}

/// Appends the accesses of a function that may be out of bounds, up to `limit`.
fn push_accesses(
    alloc: Global,
    found: &mut Vec<Finding>,
    module: &Module,
    body: &Body<'_>,
    limit: usize,
) -> Result<(), AllocError>
    ensures { OnOk result (found.new.items ≡ found.old.items
        ++ map (access_finding (inside_of body.now)) (take limit (unfit_accesses (typed_in «module».now body.now.function.now)))) }
{
    let accesses = unfit_accesses(alloc, module, body.function, limit)?;
    push_each_access(alloc, found, body, accesses.as_slice())
}

/// Appends these accesses of a function.
fn push_each_access(
    alloc: Global,
    found: &mut Vec<Finding>,
    body: &Body<'_>,
    accesses: &[UnfitAccess],
) -> Result<(), AllocError>
    ensures { OnOk result (found.new.items ≡ found.old.items ++ map (access_finding (inside_of body.now)) accesses.now) }
{
    'accesses: for position in 0..accesses.len() {
        push_access(alloc, found, body, &accesses[position])?;
    }
    Ok(())
}

/// Appends an access of a function.
fn push_access(
    alloc: Global,
    found: &mut Vec<Finding>,
    body: &Body<'_>,
    access: &UnfitAccess,
) -> Result<(), AllocError>
    ensures { OnOk result (found.new.items ≡ found.old.items ++ access_finding (inside_of body.now) access.now ∷ []) }
{
    let message = access_message(alloc, access)?;
    push_finding(
        alloc,
        found,
        FindingKind::Access,
        body,
        None,
        Some(access.expression),
        message.as_str(),
    )
}

/// Returns why an access may be out of bounds.
fn access_message(alloc: Global, access: &UnfitAccess) -> Result<String, AllocError>
    ensures { IfOk result (λ message. string_bytes message ≡ unfit_access_text access.now) }
{
    format!(in alloc; "{access}")
}

/// Appends a finding in a function.
fn push_finding(
    alloc: Global,
    found: &mut Vec<Finding>,
    kind: FindingKind,
    body: &Body<'_>,
    path: Option<Text>,
    expression: Option<Handle<Expression>>,
    message: &str,
) -> Result<(), AllocError>
    ensures { OnOk result (found.new.items
        ≡ found.old.items ++ finding_in kind (inside_of body.now) path expression message.now ∷ []) }
{
    let name = copy_of(body.name)?;
    let message = text_of(alloc, message)?;
    found.push(Finding {
        kind,
        owner: FindingOwner::Body(body.owner),
        name,
        path,
        expression,
        message,
    })?;
    Ok(())
}

/// Returns a copy of a name, if there is one.
fn copy_of(name: &Option<Text>) -> Result<Option<Text>, AllocError>
    ensures { IfOk result (λ copy. copy ≡ name.now) }
{
    match name {
        Some(name) => Ok(Some(name.copy()?)),
        None => Ok(None),
    }
}
