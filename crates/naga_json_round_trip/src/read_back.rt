//! Whether a module is read as it was written.
mod block;
mod function;
mod module;
pub(crate) mod range;

pub use module::reads_back;
