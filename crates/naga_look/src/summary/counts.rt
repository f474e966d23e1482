//! Counting the statements and the open tail blocks of the bodies of functions.
ghost use Rattle.std.specs.Prelude.{◌≡◌, ◌∷◌, [], map};
ghost use Rattle.naga_ir.specs.View.{tree_of};
ghost use Rattle.naga_look.specs.Summary.{body_of, entry_body_of, no_counts, with_blocks};

use super::statements::add_statements;
use super::tails::add_open_tails;
use naga_ir::{Block, EntryPoint, Function};
use naga_proc::Rule;

/// Counts of blocks. Each of them stays at `u64::MAX` once it is reached.
#[derive(Clone, Copy, Debug, PartialEq, Eq)]
pub struct Counts {
    /// The number of statements, including those in nested blocks.
    pub statements: u64,
    /// The number of tail blocks that get a return under [`Rule::New`].
    pub open_tails: u64,
    /// The number of tail blocks that get a return under [`Rule::Old`].
    pub open_tails_old: u64,
}

impl Counts {
    ghost use Rattle.naga_look.specs.Summary.{plus};

    /// The counts of no blocks.
    pub const NONE: Counts = Counts {
        statements: 0,
        open_tails: 0,
        open_tails_old: 0,
    };

    /// Returns the counts of two lists of blocks together.
    pub(super) fn plus(self, other: Counts) -> Counts
        ensures { result ≡ plus self other }
    {
        Counts {
            statements: self.statements.saturating_add(other.statements),
            open_tails: self.open_tails.saturating_add(other.open_tails),
            open_tails_old: self.open_tails_old.saturating_add(other.open_tails_old),
        }
    }
}

/// Returns the counts of the bodies of functions.
pub(super) fn count_functions(functions: &[Function]) -> Counts
    ensures { result ≡ with_blocks no_counts (map body_of functions.now) }
{
    let mut total = Counts::NONE;
    'functions: for function in functions {
        total = count_block(total, &function.body);
    }
    total
}

/// Returns the counts of the bodies of entry points.
pub(super) fn count_entry_points(entry_points: &[EntryPoint]) -> Counts
    ensures { result ≡ with_blocks no_counts (map entry_body_of entry_points.now) }
{
    let mut total = Counts::NONE;
    'entry_points: for entry_point in entry_points {
        total = count_block(total, &entry_point.function.body);
    }
    total
}

/// Adds the counts of a block.
fn count_block(counts: Counts, block: &Block) -> Counts
    ensures { result ≡ with_blocks counts (tree_of block.now ∷ []) }
{
    Counts {
        statements: add_statements(counts.statements, block),
        open_tails: add_open_tails(counts.open_tails, Rule::New, block),
        open_tails_old: add_open_tails(counts.open_tails_old, Rule::Old, block),
    }
}
