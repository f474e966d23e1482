//! The effect of a statement on control flow, with references to the parts that it depends on.
use super::SwitchCase;
use crate::block::Block;
use crate::expression::Expression;
use naga_arena::Handle;

/// The effect of a statement on control flow, as [`Statement::control`](super::Statement::control) returns it.
///
/// Differs from naga: naga has no such type.
#[derive(Clone, Copy, Debug)]
pub enum Control<'a> {
    /// Control passes through the statement: it contains no block and does not jump.
    Plain,
    /// A [`Statement::Block`](super::Statement::Block).
    Block(&'a Block),
    /// A [`Statement::If`](super::Statement::If).
    If {
        condition: Handle<Expression>,
        accept: &'a Block,
        reject: &'a Block,
    },
    /// A [`Statement::Switch`](super::Statement::Switch).
    Switch {
        selector: Handle<Expression>,
        cases: &'a [SwitchCase],
    },
    /// A [`Statement::Loop`](super::Statement::Loop).
    Loop {
        body: &'a Block,
        continuing: &'a Block,
        break_if: Option<Handle<Expression>>,
    },
    /// A [`Statement::Break`](super::Statement::Break).
    Break,
    /// A [`Statement::Continue`](super::Statement::Continue).
    Continue,
    /// A [`Statement::Return`](super::Statement::Return).
    Return {
        value: Option<Handle<Expression>>,
    },
    /// A [`Statement::Kill`](super::Statement::Kill).
    Kill,
}
