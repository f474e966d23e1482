// Made by tests/derive from the declarations of naga_kinds and naga_ir.
//! What follows from the declarations.
mod expression;
mod kinds;
mod literal;
mod module;
mod statement;
