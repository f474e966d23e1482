//! Readers of the parts of a module that contain no list and no string, from the JSON that naga writes and `json::Value`
//! has parsed. Of the other readers, this crate has what they share.
//!
//! [`Coded`] reads a value and allocates nothing. [`read_struct`] reads an object field by field, and makes a struct or a
//! variant of the fields. [`Cause`] is the reason why a value was not read.
//!
//! A value is read if and only if naga writes it, as `naga_json_read` describes.
//!
//! Only tested: which cause an error has, except for [`Cause::Memory`].
#![tactic(auto)]

mod arrays;
mod cause;
mod derived;
mod flags;
pub mod handles;
mod kinds;
pub mod lists;
mod names;
mod numbers;
pub mod objects;
pub mod parts;
mod ranges;
mod structs;
pub mod text;

pub use cause::Cause;
pub use derived::literal::read_literal;
pub use parts::Coded;
