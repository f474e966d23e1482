//! The check of all handles of a module, and what each part of a module refers to.
//!
//! A part is an expression, a statement, a type or another declaration. For each of them there is one table, in
//! `specs/` and in the code, with one line for each variant, so that a new variant is not silently treated as one
//! without references. In the code, the table is a walk that shows each reference to a visitor. [`References`] is an
//! iterator that is made of the walk.
//!
//! Only tested: which of several faults `check_handles` returns, in the order that it documents; how a text shows a name
//! with a character that is not ASCII.
//!
//! Not claimed: that a module whose handles are valid is valid.
#![tactic(auto)]

mod derived;
mod handles;
mod invalid_handle;
pub mod laws;
mod limits;
mod place;
mod reference;
mod references;
mod visitor;

pub use handles::check_handles;
pub use invalid_handle::{DisplayInvalidHandle, InvalidHandle};
pub use place::{DisplayPlace, Part, Place};
pub use reference::{HasReference, Reference};
pub use references::{References, Refers, references_of};
pub use visitor::Visitor;
