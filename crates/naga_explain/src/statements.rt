//! The first statement of a body that refers to something.
ghost use Rattle.std.specs.Prelude.{◌∷◌, ◌↔◌, IsTrue};
ghost use Rattle.std.specs.List.{Contains};
ghost use Rattle.naga_ir.specs.View.{cases_of, node_of, tree_of};
ghost use Rattle.naga_valid.specs.Statements.{references_of_statement};
ghost use Rattle.naga_explain.specs.Statements.{IsStatementTo, Seeks, statements, statements_in_cases, statements_inside};

use naga_ir::{Block, Control, Statement, SwitchCase};
use naga_valid::{Reference, references_of};
use std::ops::ControlFlow;

/// Returns the number of the first statement of a body that itself contains this handle or range, or `None` if there is
/// none.
///
/// The number is that of the statements that are read before, up to `u64::MAX`. A statement is read before the
/// statements of its blocks, and these before what follows it.
pub(crate) fn first_statement(body: &Block, reference: Reference) -> Option<u64>
    ensures { IsStatementTo reference (tree_of body.now) result }
{
    match seek_in_block(0, body, &reference) {
        ControlFlow::Continue(_) => None,
        ControlFlow::Break(number) => Some(number),
    }
}

/// Searches the statements of a block. `met` is the number of statements before them.
///
/// Returns this number for what follows the block, or that of the first statement that contains the handle or range.
#[cycle(seek)]
fn seek_in_block(met: u64, block: &Block, reference: &Reference) -> ControlFlow<u64, u64>
    ensures { Seeks reference.now (statements (tree_of block.now)) met result }
{
    let mut next = met;
    'statements: for (statement, _) in block.span_iter() {
        match seek_in_statement(next, statement, reference) {
            ControlFlow::Continue(passed) => next = passed,
            ControlFlow::Break(number) => return ControlFlow::Break(number),
        }
    }
    ControlFlow::Continue(next)
}

/// Searches a statement and the statements inside it.
#[cycle(seek)]
fn seek_in_statement(
    met: u64,
    statement: &Statement,
    reference: &Reference,
) -> ControlFlow<u64, u64>
    ensures { Seeks reference.now (node_of statement.now ∷ statements_inside (node_of statement.now)) met result }
{
    if refers(statement, reference) {
        return ControlFlow::Break(met);
    }
    let next = met.saturating_add(1);
    match statement.control() {
        Control::Block(inner) => seek_in_block(next, inner, reference),
        Control::If { accept, reject, .. } => match seek_in_block(next, accept, reference) {
            ControlFlow::Continue(accepted) => seek_in_block(accepted, reject, reference),
            ControlFlow::Break(number) => ControlFlow::Break(number),
        },
        Control::Switch { cases, .. } => seek_in_cases(next, cases, reference),
        Control::Loop {
            body,
            continuing,
            ..
        } => match seek_in_block(next, body, reference) {
            ControlFlow::Continue(repeated) => seek_in_block(repeated, continuing, reference),
            ControlFlow::Break(number) => ControlFlow::Break(number),
        },
        Control::Plain
        | Control::Break
        | Control::Continue
        | Control::Return { .. }
        | Control::Kill => ControlFlow::Continue(next),
    }
}

/// Searches the bodies of the cases of a switch.
#[cycle(seek)]
fn seek_in_cases(met: u64, cases: &[SwitchCase], reference: &Reference) -> ControlFlow<u64, u64>
    ensures { Seeks reference.now (statements_in_cases (cases_of cases.now)) met result }
{
    let mut next = met;
    'cases: for case in cases {
        match seek_in_block(next, &case.body, reference) {
            ControlFlow::Continue(passed) => next = passed,
            ControlFlow::Break(number) => return ControlFlow::Break(number),
        }
    }
    ControlFlow::Continue(next)
}

/// Returns whether a statement itself contains this handle or range.
fn refers(statement: &Statement, reference: &Reference) -> bool
    ensures { IsTrue result ↔ Contains (references_of_statement statement.now) reference.now }
{
    'references: for other in references_of(statement) {
        if other == *reference {
            return true;
        }
    }
    false
}
