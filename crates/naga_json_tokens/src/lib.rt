//! Taking of the parts of a module from the tokens of their JSON, where all fields are in the order in which naga writes them.
//!
//! [`Take`] takes a value from the front of a [`Reader`], and [`take_struct`] the fields of a struct or of a variant. If
//! they return `Some`, the tokens that they took are those of a JSON that represents the value. `None` claims nothing: a
//! field may be in another place or missing, the JSON may represent no value at all, or an allocation may have failed. The
//! reader is not to be used then.
//!
//! No tree of the JSON is built on the way, and each field is compared with one name.
//!
//! Only tested: that each value is taken as naga writes it.
//!
//! Not claimed: anything of a `None`.
#![tactic(auto)]

mod arrays;
mod derived;
mod flags;
mod floats;
mod handles;
pub mod parts;
mod ranges;
mod reader;
mod text;
pub mod tokens;
mod values;
mod variants;

pub use reader::Reader;
pub use values::{Take, take_field};
