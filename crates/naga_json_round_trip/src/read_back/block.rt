//! Blocks, and statements that contain them.
ghost use Rattle.std.specs.Bool.{Decides};
ghost use Rattle.naga_json_round_trip.specs.Module.{BlockFits, CasesFit, StatementFits};

use crate::derived::statement::plain_reads_back;
use crate::in_range::InRange;
use naga_ir::{Block, Control, Statement, SwitchCase};

/// Returns whether a block is read as it was written, with at most this number of blocks nested in one another.
#[cycle(blocks)]
pub(super) fn block_reads_back(block: &Block, depth: usize) -> bool
    ensures { Decides result (BlockFits depth block.now) }
{
    let Some(within) = depth.checked_sub(1) else {
        return false;
    };
    for statement in block {
        if !statement_reads_back(statement, within) {
            return false;
        }
    }
    true
}

/// Returns whether a statement is read as it was written, with at most this number of blocks nested in one another.
#[cycle(blocks)]
fn statement_reads_back(statement: &Statement, depth: usize) -> bool
    ensures { Decides result (StatementFits depth statement.now) }
{
    match statement.control() {
        Control::Plain => plain_reads_back(statement),
        Control::Block(inner) => block_reads_back(inner, depth),
        Control::If {
            condition,
            accept,
            reject,
        } => {
            condition.in_range();
            block_reads_back(accept, depth) && block_reads_back(reject, depth)
        }
        Control::Switch { selector, cases } => {
            selector.in_range();
            cases_read_back(cases, depth)
        }
        Control::Loop {
            body,
            continuing,
            break_if,
        } => {
            break_if.in_range();
            block_reads_back(body, depth) && block_reads_back(continuing, depth)
        }
        Control::Break => true,
        Control::Continue => true,
        Control::Return { value } => {
            value.in_range();
            true
        }
        Control::Kill => true,
    }
}

/// Returns whether cases are read as they were written, with at most this number of blocks nested in one another.
#[cycle(blocks)]
fn cases_read_back(cases: &[SwitchCase], depth: usize) -> bool
    ensures { Decides result (CasesFit depth cases.now) }
{
    for case in cases {
        case.value.in_range();
        if !block_reads_back(&case.body, depth) {
            return false;
        }
    }
    true
}
