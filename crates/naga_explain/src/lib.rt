//! Why a text is not the JSON of a module, for people.
//!
//! [`read_module`](naga_json_read::read_module) returns an error without a place, so that a text is read at no cost for
//! one. [`explain`] reads a text that was refused once more, and returns the place and the cause of its fault.
//! [`message_of`] returns them as text.
//!
//! Only tested: how a message shows a name with a character that is not ASCII.
#![tactic(auto)]

mod explanation;
mod item;
mod place;
mod position;
mod statements;

pub use explanation::{Explanation, explain, message_of};
pub use item::Item;
pub use position::Position;
