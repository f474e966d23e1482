//! Testing whether each expression refers only to earlier ones.
ghost use Rattle.std.specs.Prelude.{◌<◌, ◌↔◌, All, IfSome, IsTrue};
ghost use Rattle.naga_valid.specs.Operands.{expression_of, operands_of};
ghost use Rattle.naga_compact.specs.Operands.{OperandsPrecede};

use naga_arena::Arena;
use naga_ir::Expression;
use naga_valid::{Reference, Refers, Visitor};
use std::ops::ControlFlow;

/// Returns whether each expression of an arena refers only to earlier ones, as in every valid module.
///
/// Differs from naga: naga has no such function, since its `compact` expects a valid module.
pub fn operands_precede(expressions: &Arena<Expression>) -> bool
    ensures { IsTrue result ↔ OperandsPrecede expressions.now }
{
    let expressions = expressions.as_slice();
    for (i, expression) in expressions.iter().enumerate() {
        if !are_below(expression, i) {
            return false;
        }
    }
    true
}

/// Returns whether the operands of an expression are below an index.
fn are_below(expression: &Expression, index: usize) -> bool
    ensures { IsTrue result ↔ All (λ operand. operand < index) (operands_of expression.now) }
{
    let mut below = Below { index };
    match expression.visit_references(&mut below) {
        ControlFlow::Continue(()) => true,
        ControlFlow::Break(()) => false,
    }
}

/// A visitor that stops at an expression that is not below an index.
#[derive(Drop)]
struct Below {
    index: usize,
}

impl Visitor for Below {
    ghost use Rattle.naga_compact.specs.Precede.{stops_past};

    type Break = ();

    ghost visits = { λ old to answer new. stops_past old.index to answer new.index };

    fn visit(&mut self, reference: Reference) -> ControlFlow<()> {
        if is_below(reference, self.index) {
            ControlFlow::Continue(())
        } else {
            ControlFlow::Break(())
        }
    }
}

/// Returns whether a handle is below an index, if it is one of an expression.
fn is_below(reference: Reference, index: usize) -> bool
    ensures { IsTrue result ↔ IfSome (expression_of reference) (λ operand. operand < index) }
{
    let Reference::Expression(handle) = reference else {
        return true;
    };
    handle.index() < index
}
