//! The JSON of the IR: for each type a codec, which says how its values are written and read.
//!
//! A codec is a definition. The laws say that each value that fits is read as it was written, and that each value that
//! is read fits.
//!
//! The only code is that of [`numbers`], which reads a number from a JSON value. No text is read or written whose lists and
//! objects are nested more than [`MAX_NESTING`] deep.
#![tactic(auto)]

pub mod laws;
mod nesting;
pub mod numbers;

pub use nesting::MAX_NESTING;
