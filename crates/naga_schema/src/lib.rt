//! The schema of naga's JSON as data, and the first fault of a value against it.
//!
//! The JSON of a text that was not read as a module is read a second time, by [`find_fault`], which looks for its fault
//! alone. So reading a good text costs nothing for the place of a fault. For a text that is not JSON there is
//! `json_fault::find_text_fault`.
//!
//! Only tested: how a character that is not ASCII is shown in a name, in a message.
//!
//! Not claimed: that a fault that is found is the one for which `read_module` returned an error.
#![tactic(auto)]

mod allowed;
mod derived;
mod fault;
mod find;
pub mod laws;
mod leaf;
mod look;
mod mismatch;
mod module;
mod numbers;
mod schema;
mod tables;

pub use allowed::Allowed;
pub use derived::kind::Kind;
pub use derived::type_name::TypeName;
pub use fault::{Fault, Step};
pub use find::find_fault;
pub use leaf::{FlagSet, Leaf};
pub use mismatch::Mismatch;
pub use module::find_module_fault;
pub use schema::{Field, Length, Presence, Schema, Variant};
