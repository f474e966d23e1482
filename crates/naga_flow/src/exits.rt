//! The jumps that may leave a block.
ghost use Rattle.std.specs.Prelude.{◌≡◌};
ghost use Rattle.naga_flow.specs.Structured.{in_body_of_loop, in_case, of_continuing, of_function};

/// The jumps that may leave a block.
#[derive(Clone, Copy, Debug, PartialEq, Eq)]
pub struct Exits {
    /// Whether a `Break` may.
    pub by_break: bool,
    /// Whether a `Continue` may.
    pub by_continue: bool,
    /// Whether a `Return` may.
    pub by_return: bool,
    /// Whether a `Kill` may.
    pub by_kill: bool,
}

impl Exits {
    /// Returns the exits of the body of a function.
    pub fn of_function() -> Self
        ensures { result ≡ of_function }
    {
        Exits {
            by_break: false,
            by_continue: false,
            by_return: true,
            by_kill: true,
        }
    }

    /// Returns the exits of a continuing block, which no jump may leave.
    pub fn of_continuing() -> Self
        ensures { result ≡ of_continuing }
    {
        Exits {
            by_break: false,
            by_continue: false,
            by_return: false,
            by_kill: false,
        }
    }

    /// Returns the exits of the body of a case, if these are those of its switch.
    pub fn in_case(self) -> Self
        ensures { result ≡ in_case self }
    {
        Exits {
            by_break: true,
            by_continue: self.by_continue,
            by_return: self.by_return,
            by_kill: self.by_kill,
        }
    }

    /// Returns the exits of the body of a loop, if these are those of the loop.
    pub fn in_body_of_loop(self) -> Self
        ensures { result ≡ in_body_of_loop self }
    {
        Exits {
            by_break: true,
            by_continue: true,
            ..self
        }
    }
}
