//! Taking of modules from the tokens of their JSON, where all fields are in the order in which naga writes them.
//!
//! No tree of the JSON is built on the way, except in [`trees`], and each field is compared with one name.
mod entry_point;
mod function;
mod lists;
mod module;
mod trees;

pub use module::take_module;
