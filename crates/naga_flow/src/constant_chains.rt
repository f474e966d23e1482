//! The chains of chosen accesses by constant indices that end in an expression which needs no statement.
ghost use Rattle.std.specs.Prelude.{◌≡◌, ◌+◌, ◌↔◌, IfOk, IsTrue, OnOk};
ghost use Rattle.std.specs.FinSet as set;
ghost use Rattle.naga_flow.specs.ConstantChains.{AreChainsBefore, AreConstantChains, BasePrecedes, BasesPrecede, with_if};
ghost use Rattle.naga_flow.specs.Readings.{constant_chains_in};

use crate::places::{chosen_base, is_constant_chain, is_ready};
use naga_arena::{Arena, Handle};
use naga_ir::Expression;
use naga_sets::HandleSet;
use std::alloc::{AllocError, Global};

/// Returns the expressions that are ready when the function is entered, and those that are a chain of chosen accesses
/// by constant indices to such an expression. Returns `Err` if allocation fails.
///
/// An access takes the answer for its base, so that no chain is walked again. Chains are walked only where the base of
/// some access does not come before the access.
pub(crate) fn constant_chains(
    alloc: Global,
    expressions: &Arena<Expression>,
    chosen: &HandleSet<Expression>,
) -> Result<HandleSet<Expression>, AllocError>
    ensures { IfOk result (λ chains. AreConstantChains (set.contains chosen.now.members) expressions.now chains) }
{
    let mut chains = HandleSet::for_arena(alloc, expressions)?;
    let mut precede = true;
    'expressions: for index in 0..expressions.len() {
        let handle = Handle::<Expression>::at(index);
        precede = still_precede(expressions, chosen, precede, handle);
        let is_chain = is_chain(expressions, chosen, &chains, precede, handle);
        add(&mut chains, handle, is_chain)?;
    }
    Ok(chains)
}

/// Returns whether the bases precede up to this expression, if those before it are known to or not to.
fn still_precede(
    expressions: &Arena<Expression>,
    chosen: &HandleSet<Expression>,
    precede: bool,
    handle: Handle<Expression>,
) -> bool
    requires { IsTrue precede → BasesPrecede (set.contains chosen.now.members) expressions.now handle }
    ensures { IsTrue result → BasesPrecede (set.contains chosen.now.members) expressions.now (handle + 1) }
{
    precede && base_precedes(expressions, chosen, handle)
}

/// Returns whether an expression comes after its base, or is no chosen access by a constant index.
fn base_precedes(
    expressions: &Arena<Expression>,
    chosen: &HandleSet<Expression>,
    handle: Handle<Expression>,
) -> bool
    ensures { IsTrue result ↔ BasePrecedes (set.contains chosen.now.members) expressions.now handle }
{
    match chosen_base(expressions, chosen, handle) {
        Some(base) => base.index() < handle.index(),
        None => true,
    }
}

/// Returns whether an expression is ready or such a chain, by the answers for those before it if the bases precede.
fn is_chain(
    expressions: &Arena<Expression>,
    chosen: &HandleSet<Expression>,
    chains: &HandleSet<Expression>,
    precede: bool,
    handle: Handle<Expression>,
) -> bool
    requires precede { IsTrue precede → BasesPrecede (set.contains chosen.now.members) expressions.now (handle + 1) }
    requires chains { AreChainsBefore (set.contains chosen.now.members) expressions.now handle chains.now }
    ensures { result ≡ constant_chains_in (set.contains chosen.now.members) expressions.now handle }
{
    if precede {
        extends_chain(expressions, chosen, chains, handle)
    } else {
        is_constant_chain(expressions, chosen, handle)
    }
}

/// Inserts an expression if it is a chain. Returns `Err` if allocation fails.
fn add(
    chains: &mut HandleSet<Expression>,
    handle: Handle<Expression>,
    is_chain: bool,
) -> Result<(), AllocError>
    ensures { OnOk result (chains.new ≡ with_if is_chain chains.old handle) }
{
    if is_chain {
        chains.insert(handle)?;
    }
    Ok(())
}

/// Returns whether an expression is ready or such a chain, by the answers for those before it.
fn extends_chain(
    expressions: &Arena<Expression>,
    chosen: &HandleSet<Expression>,
    chains: &HandleSet<Expression>,
    handle: Handle<Expression>,
) -> bool
    requires precede { BasesPrecede (set.contains chosen.now.members) expressions.now (handle + 1) }
    requires chains { AreChainsBefore (set.contains chosen.now.members) expressions.now handle chains.now }
    ensures { result ≡ constant_chains_in (set.contains chosen.now.members) expressions.now handle }
{
    if is_ready(expressions, handle) {
        return true;
    }
    match chosen_base(expressions, chosen, handle) {
        Some(base) => chains.contains(base),
        None => false,
    }
}
