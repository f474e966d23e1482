//! The check that a module uses each value at its type, and laws of types: which passes keep them.
//!
//! An expression has the type that the table of `naga_typifier` has for it, by the types of its operands. Renaming and
//! compaction keep these types, and culling and closing leave them as they are. Compaction and culling keep that a
//! module passes the check, and so does closing if each function that gets a return has no result.
//!
//! [`check_types`] finds the first fault of a module: an expression without a type or with an operand that is not what is
//! required, an initial value that has not the type declared, or a statement with a requirement that is not met.
//! [`faults_of_declarations`] finds all constants, overrides and global variables whose initial values have not the types
//! declared, and [`faults_of_function`] all expressions, variables and statements of a function that are at fault, up to a
//! limit. [`check_body_types`] checks the statements of one body. `specs/Statements.antt` and `specs/Expressions.antt`
//! have what statements and expressions require, `specs/Initials.antt` what declarations do, and
//! `specs/Requirements.antt` says when a requirement is met. Types are compared by [`is_same_type`].
//!
//! The laws are in [`laws`]. Each is a function that does nothing and whose contract states the law.
//! `specs/Arenas.antt` defines the types of an arena, `specs/Renamed.antt` what it means to rename a type,
//! `specs/RenamedRequirements.antt` what it means to rename a requirement, and `specs/Functions.antt` the types of a
//! function of a module.
//!
//! Proved: both checks return `Ok` if and only if all this is so, and otherwise the first fault, the faults of declarations
//! and of functions are all that there are, `is_same_type` is exact, and `specs/Messages.antt` has what errors display. Only tested: how
//! these texts say why an expression has no type, and which argument a mathematical function lacks or does not take.
//!
//! Not claimed: that a module that passes is valid. Not examined: layouts, bindings, capabilities and rights of access.
//! Of operands, these are not examined: the scalars of the second argument of `Outer`, the roles of cooperative matrices
//! that are multiplied, whether the structure with which a ray query is initialized returns vertices, and which images can
//! be sampled with an offset or be clamped to their edges.
#![tactic(auto)]

mod body;
mod check;
mod composites;
mod declarations;
mod expressions;
mod form;
mod found;
mod function_faults;
mod initial;
mod invalid_types;
mod kinds;
pub mod laws;
mod meeting;
mod mismatch;
mod products;
mod requirement;
mod rows;
mod shifts;
mod sized;
mod stage;
mod statements;
mod typed_function;
mod words;

pub use body::check_body_types;
pub use check::{check_types, check_types_of_declarations, check_types_of_function};
pub use declarations::faults_of_declarations;
pub use form::is_same_type;
pub use found::{FoundType, Shape};
pub use function_faults::faults_of_function;
pub use initial::Initialized;
pub use invalid_types::{
    DisplayTypeFault, InvalidFunction, InvalidTypes, InvalidValues, MistypedFunction, TypeFault,
    Unmet, ValueFault,
};
pub use mismatch::{DisplayTypeMismatch, TypeMismatch};
pub use requirement::{Expected, FirstComponents, Kind, Requirement, Scalars, Source};
