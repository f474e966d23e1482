//! The expressions that are evaluated where they are used: those that are ready when the function is entered, and access
//! chains to these.
ghost use Rattle.std.specs.Prelude.{◌≡◌, ◌<◌, IfOk, OnOk, length, ℕ};
ghost use Rattle.std.specs.FinSet as set;
ghost use Rattle.naga_flow.specs.ConstantChains.{with_if};
ghost use Rattle.naga_flow.specs.Places.{base_before};
ghost use Rattle.naga_meaning.specs.Readings.{chains_in};

use naga_arena::{Arena, Handle};
use naga_ir::Expression;
use naga_sets::HandleSet;
use std::alloc::{AllocError, Global};

/// Returns the expressions of an arena that are ready when the function is entered, and the access chains that end in
/// such an expression. Returns `Err` if allocation fails.
pub(crate) fn access_chains(
    alloc: Global,
    expressions: &Arena<Expression>,
) -> Result<HandleSet<Expression>, AllocError>
    ensures { IfOk result (λ chains. (handle : ℕ) → set.contains chains.members handle ≡ chains_in expressions.now handle) }
{
    let mut chains = HandleSet::for_arena(alloc, expressions)?;
    'expressions: for index in 0..expressions.len() {
        let handle = Handle::<Expression>::at(index);
        let is_chain = is_chain(expressions, &chains, handle);
        insert_if(&mut chains, handle, is_chain)?;
    }
    Ok(chains)
}

/// Returns whether an expression is ready or an access chain to one that is, by the answers for those before it.
fn is_chain(
    expressions: &Arena<Expression>,
    chains: &HandleSet<Expression>,
    handle: Handle<Expression>,
) -> bool
    requires within { handle < length expressions.now }
    requires before { (before : ℕ) → before < handle → set.contains chains.now.members before ≡ chains_in expressions.now before }
    ensures { result ≡ chains_in expressions.now handle }
{
    match base_before(expressions, handle) {
        Some(base) => chains.contains(base),
        None => expressions[handle].needs_pre_emit(),
    }
}

/// Returns the base of an access, if it comes before the access. Returns `None` for any other expression.
fn base_before(
    expressions: &Arena<Expression>,
    handle: Handle<Expression>,
) -> Option<Handle<Expression>>
    requires { handle < length expressions.now }
    ensures { result ≡ base_before expressions.now handle }
{
    let base = match &expressions[handle] {
        Expression::Access { base, .. } => *base,
        Expression::AccessIndex { base, .. } => *base,
        _ => return None,
    };
    if base.index() < handle.index() {
        Some(base)
    } else {
        None
    }
}

/// Inserts an expression if it is a member. Returns `Err` if allocation fails.
pub(crate) fn insert_if(
    members: &mut HandleSet<Expression>,
    handle: Handle<Expression>,
    is_member: bool,
) -> Result<(), AllocError>
    ensures { OnOk result (members.new ≡ with_if is_member members.old handle) }
{
    if is_member {
        members.insert(handle)?;
    }
    Ok(())
}
