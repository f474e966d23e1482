//! The access chains of a function's expressions.
ghost use Rattle.std.specs.Prelude.{◌≡◌, ◌<◌, ◌≤◌, ◌↔◌, IfOk, IsOk, Some, true, length};
ghost use Rattle.naga_arena.specs.Arena.{value_at};
ghost use Rattle.naga_flow.specs.Chains.{AreLinks, IsLink, IsPlace, link_at};
ghost use Rattle.naga_flow.specs.Places.{base_before, end_of_chain, ready_in};

use crate::places::{base_before, index_at, is_ready};
use naga_arena::{Arena, BadHandle, Handle};
use naga_ir::Expression;
use std::alloc::{AllocError, Global};
use std::marker::Model;

/// An index of an access chain, and the base of its access.
#[derive(Clone, Copy)]
pub(crate) struct Indexed {
    pub(crate) index: Handle<Expression>,
    pub(crate) base: Handle<Expression>,
}

/// What a use of an expression reads, if access chains are read.
#[derive(Clone, Copy)]
pub(crate) enum Link {
    /// Its value.
    Value,
    /// The indices of its access chain, which ends in a ready expression. This is the first of them that is not ready.
    Place(Option<Indexed>),
}

/// The expressions of a function, with what a use of each of them reads.
///
/// Each access chain is walked once, so that a use of an access takes a time that does not depend on how long its chain
/// is, but for the indices that are not ready.
#[derive(Drop)]
pub(crate) struct Chains<'a> {
    expressions: &'a Arena<Expression>,
    links: Vec<Link>,
}

impl<'a> Model for Chains<'a> {
    ghost use Rattle.std.specs.Prelude.{List};
    ghost use Rattle.naga_arena.specs.declared.span.Span.{Span as SpanOf};
    ghost use Rattle.naga_flow.specs.Chains.{AreChains};
    ghost use Rattle.naga_ir.specs.declared.expression.Expression.{Expression as ExpressionOf};

    ghost Value = { List (ExpressionOf × SpanOf) };

    ghost view = { λ all. all.expressions.now };

    ghost invariant = { λ all. AreChains all.expressions.now all.links.items };
}

impl<'a> Chains<'a> {
    /// Walks over the access chains of these expressions. Returns `Err` if allocation fails.
    pub(crate) fn of(alloc: Global, expressions: &'a Arena<Expression>) -> Result<Self, AllocError>
        ensures { IfOk result (λ chains. chains ≡ expressions.now) }
    {
        let len = expressions.len();
        let mut links = Vec::with_capacity(alloc, len)?;
        'expressions: for index in 0..len {
            let handle = Handle::<Expression>::at(index);
            let link = link_of(expressions, links.as_slice(), handle);
            links.push(link)?;
        }
        Ok(Chains { expressions, links })
    }

    /// Returns a reference to the expression with this handle, or a [`BadHandle`] if there is none.
    pub(crate) fn try_get(&self, handle: Handle<Expression>) -> Result<&'a Expression, BadHandle>
        ensures found { IsOk result ↔ (handle < length self.now) }
        ensures value { IfOk result (λ value. value_at self.now handle ≡ Some value.now) }
    {
        self.expressions.try_get(handle)
    }

    /// Returns what a use of an expression reads.
    pub(crate) fn link(&self, handle: Handle<Expression>) -> Link
        ensures { IsLink self.now handle result }
    {
        link_at(self.links.as_slice(), handle)
    }

    /// Returns the first index that is not ready of an access chain that ends in a ready expression.
    pub(crate) fn first_index(&self, handle: Handle<Expression>) -> Option<Indexed>
        requires { ready_in (value_at self.now (end_of_chain self.now handle handle)) ≡ true }
        ensures { IsPlace self.now handle result }
    {
        match self.link(handle) {
            Link::Place(first) => first,
            Link::Value => None,
        }
    }
}

/// Returns what a use of an expression reads, or `Link::Value` if there is no such expression.
fn link_at(links: &[Link], handle: Handle<Expression>) -> Link
    ensures { result ≡ link_at links.now handle }
{
    match links.get(handle.index()) {
        Some(link) => *link,
        None => Link::Value,
    }
}

/// Returns what a use of an expression reads, by what uses of those before it read.
fn link_of(expressions: &Arena<Expression>, links: &[Link], handle: Handle<Expression>) -> Link
    requires links { AreLinks expressions.now links.now }
    requires within { handle ≤ length links.now }
    ensures { IsLink expressions.now handle result }
{
    let Some(base) = base_before(expressions, handle) else {
        return if is_ready(expressions, handle) {
            Link::Place(None)
        } else {
            Link::Value
        };
    };
    match link_at(links, base) {
        Link::Place(rest) => Link::Place(first_index(expressions, handle, base, rest)),
        Link::Value => Link::Value,
    }
}

/// Returns the first index that is not ready of the chain of an access, by that of the chain of its base.
fn first_index(
    expressions: &Arena<Expression>,
    handle: Handle<Expression>,
    base: Handle<Expression>,
    rest: Option<Indexed>,
) -> Option<Indexed>
    requires base { base_before expressions.now handle ≡ Some base }
    requires place { ready_in (value_at expressions.now (end_of_chain expressions.now base base)) ≡ true }
    requires rest { IsPlace expressions.now base rest }
    ensures { IsPlace expressions.now handle result }
{
    let Some(index) = index_at(expressions, handle) else {
        return rest;
    };
    if is_ready(expressions, index) {
        return rest;
    }
    Some(Indexed { index, base })
}
