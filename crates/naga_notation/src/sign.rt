//! The signs of the notation, each of which is one byte.
ghost use Rattle.std.specs.Prelude.{◌≡◌};
ghost use Rattle.naga_ir.specs.View.{node_of};
ghost use Rattle.naga_notation.specs.Outline.{simple_node};
ghost use Rattle.naga_notation.specs.Reading.{sign_of, simple_of};

use naga_ir::{Barrier, Flags, Statement};

/// A statement that contains no block.
#[derive(Clone, Copy, Debug, PartialEq, Eq)]
pub enum Simple {
    /// Any statement that control passes through. It is read as a memory barrier without flags.
    Plain,
    Break,
    Continue,
    Return,
    Kill,
}

impl Simple {
    /// Returns the statement.
    pub fn statement(self) -> Statement
        ensures { node_of result ≡ simple_node (simple_of self) }
    {
        match self {
            Simple::Plain => Statement::MemoryBarrier(Barrier::empty()),
            Simple::Break => Statement::Break,
            Simple::Continue => Statement::Continue,
            Simple::Return => Statement::Return { value: None },
            Simple::Kill => Statement::Kill,
        }
    }
}

/// A statement that contains blocks and begins with a letter.
#[derive(Clone, Copy, Debug, PartialEq, Eq)]
pub enum Compound {
    If,
    Switch,
    /// A loop without `break_if`.
    Loop,
    /// A loop with `break_if`.
    BreakingLoop,
}

/// A sign of the notation, which is one byte.
#[derive(Clone, Copy, Debug, PartialEq, Eq)]
pub enum Sign {
    /// Is a whole statement.
    Statement(Simple),
    /// Begins a statement.
    Begin(Compound),
    /// Opens a block in braces.
    Open,
    /// Closes a block in braces.
    Close,
    /// Opens the list of a switch's cases.
    OpenCases,
    /// Closes the list of a switch's cases.
    CloseCases,
    /// Marks the next case as the default one.
    DefaultCase,
    /// Opens the body of a case.
    OpenCase,
    /// Marks the case as one that falls through.
    FallThrough,
    /// Closes the body of a case.
    CloseCase,
}

impl Sign {
    /// Returns the sign of a byte, or `None` if it is not a byte of the notation.
    #[inline(always)]
    pub fn of(byte: u8) -> Option<Sign>
        ensures { result ≡ sign_of byte }
    {
        match byte {
            b'p' => Some(Sign::Statement(Simple::Plain)),
            b'b' => Some(Sign::Statement(Simple::Break)),
            b'c' => Some(Sign::Statement(Simple::Continue)),
            b'r' => Some(Sign::Statement(Simple::Return)),
            b'k' => Some(Sign::Statement(Simple::Kill)),
            b'i' => Some(Sign::Begin(Compound::If)),
            b's' => Some(Sign::Begin(Compound::Switch)),
            b'l' => Some(Sign::Begin(Compound::Loop)),
            b'w' => Some(Sign::Begin(Compound::BreakingLoop)),
            b'{' => Some(Sign::Open),
            b'}' => Some(Sign::Close),
            b'(' => Some(Sign::OpenCases),
            b')' => Some(Sign::CloseCases),
            b'd' => Some(Sign::DefaultCase),
            b'[' => Some(Sign::OpenCase),
            b'>' => Some(Sign::FallThrough),
            b']' => Some(Sign::CloseCase),
            _ => None,
        }
    }
}
