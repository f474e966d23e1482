//! Counting the statements of a block.
ghost use Rattle.std.specs.Prelude.{◌≡◌, ◌+◌};
ghost use Rattle.naga_ir.specs.View.{cases_of, node_of, tree_of};
ghost use Rattle.naga_look.specs.Counts.{count_in_cases, inner_count, statement_count};
ghost use Rattle.naga_look.specs.Summary.{saturating_sum};

use naga_ir::{Block, Control, Statement, SwitchCase};

/// Adds the number of statements of a block, including those in nested blocks.
#[cycle(statements)]
pub(super) fn add_statements(counted: u64, block: &Block) -> u64
    ensures { result ≡ saturating_sum counted (statement_count (tree_of block.now)) }
{
    let mut total = counted;
    for statement in block {
        total = add_statement(total, statement);
    }
    total
}

/// Adds 1 for a statement, and the number of statements in its blocks.
#[cycle(statements)]
fn add_statement(counted: u64, statement: &Statement) -> u64
    ensures { result ≡ saturating_sum counted (1 + inner_count (node_of statement.now)) }
{
    let total = counted.saturating_add(1);
    match statement.control() {
        Control::Block(inner) => add_statements(total, inner),
        Control::If { accept, reject, .. } => {
            let accepted = add_statements(total, accept);
            add_statements(accepted, reject)
        }
        Control::Switch { cases, .. } => add_in_cases(total, cases),
        Control::Loop {
            body,
            continuing,
            ..
        } => {
            let inside = add_statements(total, body);
            add_statements(inside, continuing)
        }
        Control::Plain => total,
        Control::Break => total,
        Control::Continue => total,
        Control::Return { .. } => total,
        Control::Kill => total,
    }
}

/// Adds the number of statements in the bodies of cases.
#[cycle(statements)]
fn add_in_cases(counted: u64, cases: &[SwitchCase]) -> u64
    ensures { result ≡ saturating_sum counted (count_in_cases (cases_of cases.now)) }
{
    let mut total = counted;
    for case in cases {
        total = add_statements(total, &case.body);
    }
    total
}
