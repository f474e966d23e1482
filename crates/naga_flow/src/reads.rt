//! What a use of an expression reads.
ghost use Rattle.std.specs.Prelude.{◌≡◌};
ghost use Rattle.naga_flow.specs.Readings.{read_in};
ghost use Rattle.naga_flow.specs.Uses.{where_reached};

use crate::chains::Chains;
use naga_ir::Expression;
use naga_sets::HandleSet;

/// What a use of an expression reads, unless the expression is ready when the function is entered.
#[derive(Clone, Copy)]
pub(crate) enum Reads<'a> {
    /// The indices of an access chain that ends in a ready expression, or else the value of the expression.
    Chains,
    /// Nothing if the expression is in this set, or else its value.
    Emitted(&'a HandleSet<Expression>),
    /// Nothing, since control never reaches the use.
    Nothing,
}

/// The expressions of a function, and what a use of them reads.
#[derive(Clone, Copy)]
pub(crate) struct Reading<'a> {
    pub(crate) expressions: &'a Chains<'a>,
    pub(crate) reads: Reads<'a>,
}

impl<'a> Reading<'a> {
    /// Returns the reading for uses that control reaches only if `is_reached`.
    pub(crate) fn where_reached(&self, is_reached: bool) -> Self
        ensures { read_in result ≡ where_reached is_reached (read_in self.now) }
    {
        let reads = if is_reached {
            self.reads
        } else {
            Reads::Nothing
        };
        Reading {
            expressions: self.expressions,
            reads,
        }
    }
}
