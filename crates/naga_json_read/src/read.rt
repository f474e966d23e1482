//! Reading of JSON values.
mod arenas;
mod declarations;
mod doc_comments;
mod entry_point;
mod function;
pub(crate) mod lists;
mod maps;
mod module;
mod plain;

pub use lists::FromJson;
pub use module::{parse, read_module, read_module_value};
