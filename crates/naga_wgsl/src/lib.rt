//! The text of a function as a shading language has it: a tree of lines, with names in lexical scopes.
//!
//! A text names the value of some expressions where an `Emit` evaluates them, and writes the others out wherever they are
//! used: those for which [`may_be_inline`] returns `true` may be written out, and [`written_out`] returns those that are.
//! The tree has a meaning of its own, in which a name has the value of the innermost line in scope that binds it. By
//! [`laws`], the text of a function does what the function does.
//!
//! `specs/Text.antt` defines the tree, `specs/Scopes.antt` what its lines do, and `specs/Lowering.antt` the text of a
//! function. No function makes it yet.
//!
//! In WGSL, [`write_literal`] writes a literal, [`write_scalar`] and others write types, and [`binary_operator`],
//! [`math_function`] and others return the texts of operators and the names of built-in functions. [`TypeTexts`] has the
//! text of each type of a module, and [`write_type`] writes a type by its handle. [`write_form`] writes an expression from
//! the texts of its operands, and [`ExpressionTexts`] has those of all. [`write_struct`], [`write_constant`],
//! [`write_override`] and [`write_global_variable`] write declarations.
//!
//! An error other than that an allocation failed has the cause for which there is no text, and there is one exactly if the
//! definition of the text has it. Names are those that are passed: that they differ and are no reserved words is for the
//! caller to ensure, by naga_namer.
//!
//! Only tested: that these are the texts and names of WGSL's specification.
#![tactic(auto)]

mod array;
mod binding;
mod chains;
mod choices;
mod declaration;
mod depths;
mod expression_texts;
mod float;
mod form;
mod image;
pub mod laws;
mod literal;
mod operation;
mod operator;
mod pure;
mod scope;
mod space;
mod structure;
mod type_texts;
mod types;
mod uses;
mod write_error;

pub use array::{write_array, write_pointer};
pub use binding::write_binding;
pub use choices::written_out;
pub use declaration::{write_constant, write_global_variable, write_override};
pub use expression_texts::ExpressionTexts;
pub use form::write_form;
pub use image::{write_image, write_sampler};
pub use literal::write_literal;
pub use operator::{
    binary_operator, derivative_function, math_function, relational_function, unary_operator,
};
pub use pure::{is_pure, may_be_inline};
pub use scope::{Scope, Shape};
pub use space::write_space;
pub use structure::{KnownTypes, write_struct};
pub use type_texts::{TypeTexts, write_type};
pub use types::{write_atomic, write_matrix, write_scalar, write_vector};
pub use write_error::{Cause, WriteError};
