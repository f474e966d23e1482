//! A writer of the JSON that naga 30.0.1 writes for its shader IR, under its features `serialize` and `deserialize`.
//!
//! [`write_module`] appends a whole module to a text, byte for byte as serde_json writes it for naga's types: without
//! spaces, and with the fields of a struct in the order of their declaration.
//!
//! A part of a module, such as a type or a block, is written by [`ToJson`], or by [`TryToJson`] if some of its values
//! have no JSON.
//!
//! A struct is an object. A variant without data is its name, and one with data is an object with one member. A handle
//! is its index. An optional field that is `None` is null. An arena is a list of its values, and a block a list of its
//! statements. Spans and capacities are not written. A set of flags is a string: the names of the flags with bars
//! between them, and bits without a name in hexadecimal after `0x`.
//!
//! A float is written in decimal, so that it is read as the same float. A NaN or an infinity has no JSON, so it is an
//! error. naga writes it as null, which it does not read.
//!
//! A module with types of the results of built-in functions or with comments on members of structures is an error, as
//! it is for naga. So is one whose JSON would be nested more than [`MAX_NESTING`](naga_json::MAX_NESTING) deep, since naga does not read it.
//!
//! Only tested: that the definitions agree with naga, in the same way as those of `naga_json_read`; that a float is
//! written with the fewest digits; which reason is returned if there are several.
#![tactic(auto)]

mod derived;
mod to_json;
mod write;
mod write_error;
mod writer;

pub use to_json::{ToJson, TryToJson};
pub use write::write_module;
pub use write_error::{TryWriteError, WriteError};
pub use writer::Writer;
