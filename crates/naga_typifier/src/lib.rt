//! The types of expressions.
//!
//! An expression of the IR does not contain its type. [`ResolveContext::resolve`] finds it from the types of the
//! expressions before it, and a [`Typifier`] finds the types of all expressions of an arena. [`TypeInnerMethods`] reads
//! from the contents of a type what its users need.
//!
//! The one table over the variants of an expression is in `specs/Rules.antt`. It has the [`Rule`] by which the type of
//! each is found, with the ground of each row: naga's documentation of the IR, the rules of WGSL where that documentation
//! is silent, or a choice where both are. `specs/Table.antt` has the type by each rule, and `specs/Faults.antt` the error.
//!
//! Proved: `resolve` returns the type by the rule, or the error if there is no type, and a typifier has the types of an arena up to the first expression without one. Only tested: the texts of
//! errors.
//!
//! Not claimed: that an expression with a type is valid. Its other operands can have any types, and the handle of its
//! type need not be in the module.
#![tactic(auto)]

mod context;
mod fault;
mod images;
mod inner;
pub mod laws;
mod math;
mod resolution;
mod resolve;
mod resolve_error;
mod rows;
mod rules;
mod typifier;

pub use context::ResolveContext;
pub use inner::TypeInnerMethods;
pub use math::{ArgumentScalars, ArgumentShape, MathResult, MathRule};
pub use resolution::TypeResolution;
pub use resolve_error::ResolveError;
pub use rules::{Named, Reading, Rule};
pub use typifier::{GrowError, Typifier};
