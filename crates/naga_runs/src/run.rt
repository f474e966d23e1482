//! The run of a block, and its ending.
use naga_arena::Handle;
use naga_ir::{Expression, Statement};

/// The way a run ends.
#[derive(Clone, Copy, Debug, PartialEq, Eq)]
pub enum Ending {
    /// The run fell off the end of the block.
    Normal,
    /// The run left a loop or a switch around the block.
    Break,
    /// The run goes on in the continuing block of a loop around the block.
    Continue,
    /// The run left the function, with this value if the function has a result.
    Return(Option<Handle<Expression>>),
    /// The run ended the invocation.
    Kill,
    /// The run needed an answer and none was left, or it would have begun more turns of a loop than the loop may make.
    Cut,
}

/// The run of a block, as [`replay`](crate::replay) returns it.
#[must_use]
#[derive(Debug, Drop)]
pub struct Replay<'a> {
    /// The plain statements that the run met, in order, including those in nested blocks. They are the block's own
    /// statements, by reference.
    pub trace: Vec<&'a Statement>,
    /// The way the run ended.
    pub ending: Ending,
    /// The number of answers that the run read.
    pub used: usize,
    /// `true` if a normal ending came out of a switch: past its last case, by a `Break`, or with no case entered.
    pub slipped: bool,
}
