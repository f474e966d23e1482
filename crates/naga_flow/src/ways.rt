//! The ways in which control can leave a block.
ghost use Rattle.std.specs.Prelude.{◌≡◌};
ghost use Rattle.naga_ir.specs.Tree as tree;
ghost use Rattle.naga_flow.specs.Uses.{may_be_skipped};
ghost use Rattle.naga_flow.specs.Ways.{either, followed, may_go_on, only_off, out_of_case, ways_of_jump};

/// Whether control may fall off the end of a block, and whether it may leave the block by a break or a continue.
#[derive(Clone, Copy, Debug, PartialEq, Eq)]
pub struct Ways {
    /// Whether control may reach the end of the block.
    pub falls_off: bool,
    /// Whether it may leave the block by a `Break`.
    pub breaks: bool,
    /// Whether it may leave the block by a `Continue`.
    pub continues: bool,
}

impl Ways {
    /// Returns the ways of a block that no break and no continue leaves.
    pub(crate) fn only_off(falls_off: bool) -> Self
        ensures { result ≡ only_off falls_off }
    {
        Ways {
            falls_off,
            breaks: false,
            continues: false,
        }
    }

    /// Returns the ways of a `Break`.
    pub(crate) fn of_break() -> Self
        ensures { result ≡ ways_of_jump tree.break }
    {
        Ways {
            falls_off: false,
            breaks: true,
            continues: false,
        }
    }

    /// Returns the ways of a `Continue`.
    pub(crate) fn of_continue() -> Self
        ensures { result ≡ ways_of_jump tree.continue }
    {
        Ways {
            falls_off: false,
            breaks: false,
            continues: true,
        }
    }

    /// Returns the ways of two blocks, one of which is run.
    pub(crate) fn either(self, other: Self) -> Self
        ensures { result ≡ either self other }
    {
        Ways {
            falls_off: self.falls_off || other.falls_off,
            breaks: self.breaks || other.breaks,
            continues: self.continues || other.continues,
        }
    }

    /// Returns the ways of a block with these ones and a statement after it.
    pub(crate) fn followed(self, last: Self) -> Self
        ensures { result ≡ followed self last }
    {
        if self.falls_off {
            let both = self.either(last);
            Ways {
                falls_off: last.falls_off,
                breaks: both.breaks,
                continues: both.continues,
            }
        } else {
            self
        }
    }

    /// Returns the ways of a switch by a case whose body has these ways.
    pub(crate) fn out_of_case(self, falls_through: bool) -> Self
        ensures { result ≡ out_of_case falls_through self }
    {
        Ways {
            falls_off: self.breaks || (!falls_through && self.falls_off),
            breaks: false,
            continues: self.continues,
        }
    }

    /// Returns whether control may go on to the continuing block after the body of a loop with these ways.
    pub(crate) fn may_go_on(self) -> bool
        ensures { result ≡ may_go_on self }
    {
        self.falls_off || self.continues
    }

    /// Returns whether control may go on after a block with these ways and a last statement, by its end or by a
    /// continue, without having passed the statement.
    pub(crate) fn may_skip(self, last: Self) -> bool
        ensures { result ≡ may_be_skipped self last }
    {
        !self.falls_off || self.continues || last.continues
    }
}
