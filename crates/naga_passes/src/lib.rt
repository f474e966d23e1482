//! Passes over modules, one after another: culling, closing, compacting and restricting.
//!
//! [`run_passes`] runs a list of passes on a module. [`passes_from_names`] reads such a list from the names of the passes.
//! [`cull_module`] is culling by itself.
//!
//! Each function that is left computes what it computed before, whatever operators and statements do, except that
//! closing makes it return where it fell off the end. [`laws::meanings`] states this for passes that do not restrict, and
//! `specs/Meanings.antt` defines it. Restricting keeps what executions compute that access only elements that are there,
//! as [`restricting_keeps_outcomes`](naga_bounds::laws::restricting_keeps_outcomes) states it.
//!
//! Only tested: the message of [`NamesError`], and those for an expression that has no type.
#![tactic(auto)]

mod cull;
pub mod laws;
mod names;
mod pass;
mod pass_error;
mod run;

pub use cull::cull_module;
pub use names::{NamesError, PASS_NAMES, passes_from_names};
pub use pass::Pass;
pub use pass_error::{PassError, PassFault};
pub use run::{run_pass, run_passes};
