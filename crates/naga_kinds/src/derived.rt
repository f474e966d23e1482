// Made by tests/derive from the declarations of naga_kinds and naga_ir.
//! What follows from the declarations.
mod binding;
mod diagnostic_filter;
mod entry_point;
mod format;
mod image;
mod math;
mod operator;
mod scalar;
mod subgroup;
