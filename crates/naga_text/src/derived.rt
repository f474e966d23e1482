// Made by tests/derive from the declarations of naga_kinds and naga_ir.
//! What follows from the declarations.
pub(crate) mod address_space;
pub(crate) mod builtin;
pub(crate) mod expression;
pub(crate) mod image;
pub(crate) mod statement;
