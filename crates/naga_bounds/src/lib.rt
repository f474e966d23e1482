//! The check that no access of a shader is out of bounds, and a pass that makes it so.
//!
//! An access fits if the form of its index shows that the index is below the length of what is accessed: a literal, a
//! minimum or a conjunction of bits with a literal or with the length less one, what is clamped to one of them, or a
//! remainder of a division by at most the length. Proved: `check_bounds` returns the first access that does not fit,
//! with the reason, or no error if each access fits, and `unfit_accesses` all that do not fit; and no execution of a function whose accesses fit accesses an element
//! that is not there, as `laws::fitting_stays_in_bounds` says it. `restrict` clamps exactly the accesses that do not fit,
//! and laws say what this keeps: in a module that was restricted, each function that was in bounds computes what it did,
//! with calls, as `laws::calls::restricted_modules` says it. Only tested: how a text says why an
//! expression has no type.
//!
//! Global expressions are not examined: what they access is known when the module is compiled. Nor are images, nor the
//! elements that `CooperativeLoad` and `CooperativeStore` access. No law speaks of an access in the initial value of a
//! variable, or of a buffer that is shorter than its type.
#![tactic(auto)]

mod accesses;
mod building;
mod cause;
mod change;
mod check;
mod clamping;
mod forms;
mod invalid_access;
pub mod laws;
mod length;
mod modules;
mod places;
mod plan;
mod prepared;
mod rebuild;
mod restrict_error;
mod typed;

pub use cause::Cause;
pub use check::{check_bounds, misfit_count, unfit_accesses};
pub use invalid_access::{InvalidAccess, Misfit, UnfitAccess};
pub use modules::restrict;
pub use places::fixed_accesses;
pub use restrict_error::{Obstacle, RestrictError};
