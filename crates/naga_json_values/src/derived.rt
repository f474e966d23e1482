// Made by tests/derive from the declarations of naga_kinds and naga_ir.
//! What follows from the declarations.
pub(crate) mod expression;
pub(crate) mod kinds;
pub(crate) mod literal;
mod module;
pub(crate) mod statement;
pub(crate) mod types;
