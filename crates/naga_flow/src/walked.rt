//! What a walk over a block has found.
ghost use Rattle.std.specs.Prelude.{◌≡◌, true};
ghost use Rattle.naga_flow.specs.Walked.{walked_on};
ghost use Rattle.naga_flow.specs.Ways.{only_off};

use crate::ways::Ways;

/// What was found of a statement that passes.
#[derive(Clone, Copy, Debug)]
pub(crate) struct Passed {
    /// The number of the statement that is read next.
    pub(crate) next: u64,
    /// The ways in which control can leave the statement.
    pub(crate) ways: Ways,
}

/// What was found of the first statements of a block.
#[derive(Clone, Copy, Debug)]
pub(crate) struct Walked {
    /// The number of the statement that is read next.
    pub(crate) next: u64,
    /// The ways in which control can leave them.
    pub(crate) ways: Ways,
    /// How many expressions are known after those that are executed for certain.
    pub(crate) certain: usize,
    /// Whether these are all of them.
    pub(crate) is_certain: bool,
}

impl Walked {
    /// Begins a walk at the statement with this number, when so many expressions are known.
    pub(crate) fn start(number: u64, len: usize) -> Self
        ensures next { result.next ≡ number }
        ensures ways { result.ways ≡ only_off true }
        ensures certain { result.certain ≡ len }
        ensures is_certain { result.is_certain ≡ true }
    {
        Walked {
            next: number,
            ways: Ways::only_off(true),
            certain: len,
            is_certain: true,
        }
    }

    /// Returns what has been found after one more statement, when so many expressions are known.
    pub(crate) fn followed(self, passed: Passed, len: usize) -> Self
        ensures { result ≡ walked_on self passed len }
    {
        let is_certain = self.is_certain && !self.ways.may_skip(passed.ways);
        let certain = if is_certain { len } else { self.certain };
        Walked {
            next: passed.next,
            ways: self.ways.followed(passed.ways),
            certain,
            is_certain,
        }
    }
}
