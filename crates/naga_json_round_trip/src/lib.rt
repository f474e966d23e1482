//! A check that a shader module that is written as JSON is read as the same module, and a law that says so of its text.
//!
//! [`reads_back`] returns whether the JSON that `naga_json_write` writes for a module represents this module for
//! `naga_json_read`, apart from spans and spare capacity. It returns `true` unless blocks are nested more than 127 deep, or
//! a range of expressions starts later than it ends. The law [`round_trip`](laws::round_trip) says what follows for the
//! text of the module.
//!
//! Not claimed: that `read_module` returns a module for the text. It does not if two types of the module are equal, if
//! a handle is not valid, or if an allocation fails.
#![tactic(auto)]

mod derived;
mod in_range;
pub mod laws;
mod read_back;

pub use read_back::reads_back;
