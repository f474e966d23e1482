// Made by tests/derive from the declarations of naga_kinds and naga_ir.
//! What follows from the declarations.
pub(crate) mod expression;
pub(crate) mod kind;
pub(crate) mod kind_leaves;
pub(crate) mod kinds;
pub(crate) mod literal;
pub(crate) mod module;
pub(crate) mod statement;
pub(crate) mod type_name;
pub(crate) mod types;
