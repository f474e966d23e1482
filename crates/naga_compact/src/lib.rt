//! Passes that remove what is not needed: statements behind one that diverges by its form, expressions of a function that
//! nothing needs, and elements of a module that nothing uses.
//!
//! Not claimed: that a statement that is left can be reached. Nothing is removed behind a loop without a way out.
#![tactic(auto)]

mod body;
mod collect;
mod cull;
mod derived;
mod function;
pub mod laws;
mod mark;
mod module;
mod precede;
mod renaming;
mod renumbering;

pub use body::compact_body;
pub use collect::{Collect, collect_block, collect_references};
pub use cull::cull_unreachable;
pub use function::{compact_function, mark_names};
pub use mark::{Marks, mark_reached};
pub use module::{KeepUnused, ModuleRenumbering, UsedHandles, compact, used_handles};
pub use precede::operands_precede;
pub use renaming::{
    InGlobal, NewHandles, Rename, rename_block, rename_entry_point, rename_function, rename_values,
};
pub use renumbering::{RenameKey, Renumbering, rename_keys};
