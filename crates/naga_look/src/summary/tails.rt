//! Counting the tail blocks that get a return.
ghost use Rattle.std.specs.Prelude.{◌≡◌};
ghost use Rattle.naga_ir.specs.View.{cases_of, node_of, tree_of};
ghost use Rattle.naga_proc.specs.Closing.{follows_switch};
ghost use Rattle.naga_look.specs.Counts.{one_if, open_at, open_in_case, open_in_cases, open_tails};
ghost use Rattle.naga_look.specs.Summary.{saturating_sum};

use naga_ir::{Block, Control, Statement, SwitchCase};
use naga_proc::{Rule, has_exit};

/// Adds the number of tail blocks of a block that get a return under a rule.
#[cycle(tails)]
pub(crate) fn add_open_tails(counted: u64, rule: Rule, block: &Block) -> u64
    ensures { result ≡ saturating_sum counted (open_tails rule (tree_of block.now)) }
{
    let Some(last) = block.last() else {
        return counted.saturating_add(1);
    };
    add_open_at(counted, rule, last)
}

/// Adds this number for a block that ends in a statement.
#[cycle(tails)]
fn add_open_at(counted: u64, rule: Rule, last: &Statement) -> u64
    ensures { result ≡ saturating_sum counted (open_at rule (node_of last.now)) }
{
    match last.control() {
        Control::Plain => counted.saturating_add(1),
        Control::Loop { .. } => counted.saturating_add(1),
        Control::Block(inner) => add_open_tails(counted, rule, inner),
        Control::If { accept, reject, .. } => {
            let accepted = add_open_tails(counted, rule, accept);
            add_open_tails(accepted, rule, reject)
        }
        Control::Switch { cases, .. } => {
            let inside = add_open_in_cases(counted, rule, cases);
            add_after_switch(inside, rule, cases)
        }
        Control::Break => counted,
        Control::Continue => counted,
        Control::Return { .. } => counted,
        Control::Kill => counted,
    }
}

/// Adds this number for the bodies of the cases that do not fall through.
#[cycle(tails)]
fn add_open_in_cases(counted: u64, rule: Rule, cases: &[SwitchCase]) -> u64
    ensures { result ≡ saturating_sum counted (open_in_cases rule (cases_of cases.now)) }
{
    let mut total = counted;
    for case in cases {
        total = add_open_in_case(total, rule, case);
    }
    total
}

/// Adds this number for the body of a case, and nothing if the case falls through.
#[cycle(tails)]
fn add_open_in_case(counted: u64, rule: Rule, case: &SwitchCase) -> u64
    ensures { result ≡ saturating_sum counted (open_in_case rule case.now) }
{
    if case.fall_through {
        return counted;
    }
    add_open_tails(counted, rule, &case.body)
}

/// Adds 1 if a return follows a switch with these cases that ends a block.
fn add_after_switch(counted: u64, rule: Rule, cases: &[SwitchCase]) -> u64
    ensures { result ≡ saturating_sum counted (one_if (follows_switch rule (cases_of cases.now))) }
{
    let follows = match rule {
        Rule::New => has_exit(cases),
        Rule::Old => false,
    };
    counted.saturating_add(follows as u64)
}
