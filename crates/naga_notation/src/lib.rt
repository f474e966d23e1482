//! A notation for blocks of statements of the shader IR, as lines of text, with its reader and its writer.
//!
//! A text is read byte by byte. If it is rejected, the error has the exact position after which it can no longer be
//! continued to a notation. The block that is read consists of memory barriers, jumps and statements that contain
//! blocks, without spans; every handle is the first one.
#![tactic(auto)]

mod error;
pub mod laws;
mod limits;
mod reader;
mod sign;
mod writer;

pub use error::ShapeError;
pub use limits::{DEPTH_LIMIT, LENGTH_LIMIT};
pub use reader::read_block;
pub use writer::write_block;
