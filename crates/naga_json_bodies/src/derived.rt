// Made by tests/derive from the declarations of naga_kinds and naga_ir.
//! What follows from the declarations.
pub(crate) mod read;
pub(crate) mod take;
