//! A reader of the JSON that naga 30.0.1 writes for its shader IR, under its features `serialize` and `deserialize`.
//!
//! [`read_module`] reads a whole module from a text, and checks its handles. If all fields are in the order in which naga
//! writes them, it takes the module from the tokens of the text by [`take_module`], and builds no tree of the JSON.
//!
//! [`FromJson`] reads a part of a module, such as an expression, a function or a type, from a value that `json::Value` has
//! parsed. Each of these types implements it, and so do lists, arenas and maps of them. [`Coded`] reads a type whose values
//! contain no list and no string, and allocates nothing. [`read_types`] reads the types of a
//! module, of which no two may be equal.
//!
//! A value is read if and only if naga writes it: an object for a struct, with its fields in any order; the name of a
//! variant without data; an object with one member for a variant with data; the index of a handle. An optional field
//! may be null or missing. An unknown or repeated field, a missing field that is not optional, an unknown variant and a
//! number out of range are errors. Only `read_module` compares handles with their arenas.
//!
//! An arena is a list of its values, and a block a list of its statements, without spans. A set of flags is a string:
//! the names of the flags with bars between them. A flag may also be a hexadecimal number after `0x`, as naga writes
//! bits without a name.
//!
//! A float is read as the one nearest to the decimal number, and rounded once. A number whose nearest float is infinite
//! is an error. A NaN or an infinity has no JSON.
//!
//! A module with types of the results of built-in functions or with comments on members of structures has no JSON.
//!
//! Differs from naga: naga also ignores unknown fields, and reads a list as a struct.
//!
//! Only tested: which cause an error has, except for `RepeatedType` and `Memory`; that [`take_module`] takes each value as
//! naga writes it, so that `read_module` builds no tree; that the definitions agree with naga, by texts that naga wrote
//! for each variant, and by the names of all variants of the kinds without data.
//!
//! Not claimed: of the calls other than `read_module`, that handles are in their arenas; anything of a `None` of
//! `take_module`.
#![tactic(auto)]

mod derived;
mod parts;
mod read;
mod read_error;
mod take;

pub use naga_json_types::read_types;
pub use naga_json_values::{Cause, Coded};
pub use read::{FromJson, parse, read_module, read_module_value};
pub use read_error::ReadError;
pub use take::take_module;
