//! The rules that determine the last statements of blocks that a return follows.
ghost use Rattle.std.specs.Prelude.{◌≡◌};
ghost use Rattle.naga_ir.specs.View.{cases_of, node_of};
ghost use Rattle.naga_proc.specs.Closing.{follows_switch, goes_straight_through, leaves_open};

use naga_ir::{Statement, SwitchCase};
use naga_runs::has_exit;

/// A rule that determines which tail blocks get a return.
///
/// Under both rules, an empty block gets one, and so does a block that ends in a `Loop` or in a statement that neither
/// contains blocks nor jumps. The rules differ for a block that ends in a `Switch`.
#[derive(Clone, Copy, Debug, PartialEq, Eq)]
pub enum Rule {
    /// A block that ends in a `Switch` with an exit gets a return, too: a switch without a `Default`, one whose last
    /// case falls through, and one with a `Break` that leaves it. No control flow is left that falls off the end.
    New,
    /// A block that ends in a `Switch` gets no return, as in naga.
    Old,
}

impl Rule {
    /// Returns whether a return follows a switch with these cases that ends a block.
    pub(crate) fn follows_switch(self, cases: &[SwitchCase]) -> bool
        ensures { result ≡ follows_switch self (cases_of cases.now) }
    {
        match self {
            Rule::New => has_exit(cases),
            Rule::Old => false,
        }
    }

    /// Returns whether no return follows a switch with these cases that ends a block, and it has only one case, which
    /// does not fall through.
    #[tactic(auto, using(crate::proofs::Closing::GoesStraightThroughLemmas::many_cases))]
    pub(crate) fn goes_straight_through(self, cases: &[SwitchCase]) -> bool
        ensures { result ≡ goes_straight_through self (cases_of cases.now) }
    {
        match (self, cases) {
            (Rule::Old, [only]) => !only.fall_through,
            _ => false,
        }
    }
}

/// Returns whether control falls off the end of a block that ends in this statement.
pub fn leaves_open(last: &Statement) -> bool
    ensures { result ≡ leaves_open (node_of last.now) }
{
    last.is_plain() || matches!(last, Statement::Loop { .. })
}
