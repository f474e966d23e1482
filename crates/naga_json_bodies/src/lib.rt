//! Blocks and statements, which are read from parsed JSON by [`read_block`], and taken from tokens by [`take_block`].
//!
//! A block is read if and only if naga writes it, as `naga_json_read` describes. The spans of statements are undefined.
//!
//! Only tested: which cause an error has, except for `Memory`; that each block is taken as naga writes it.
//!
//! Not claimed: that handles are in their arenas; anything of a `None` of [`take_block`].
#![tactic(auto)]

mod derived;
mod read;
mod take;

pub use read::{read_block, read_statement};
pub use take::take_block;
