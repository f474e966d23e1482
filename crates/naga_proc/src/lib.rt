//! Operations on shader IR: emitting expressions, building arenas and blocks, inserting returns at the ends of blocks
//! and of all bodies of a module, flattening the components of vectors, replaying runs, and reading and writing a
//! notation of blocks as text.
//!
//! The crates `naga_arena`, `naga_compact`, `naga_flow`, `naga_ir` and `naga_sets` are re-exported as the modules
//! `arena`, `compact`, `flow`, `ir` and `sets`, and `naga_ir::diagnostic_filter` as `diagnostic_filter`; all of these
//! except `flow` and `sets` are naga's names.
//! The types of arenas and spans that naga exports at its top level are exported at the top level here, too.
//!
//! There are two rules by which returns are inserted. The old rule is naga's own, which inserts nothing after a last
//! `Switch`. The new rule also inserts a return after a last `Switch` that has an exit: one without a default case, one
//! whose last case falls through, or one that a `Break` leaves.
//!
//! Only tested: that `size_hint` of [`FlattenCompose`] is exact once nothing is left to be opened, for up to four
//! handles.
//!
//! Not claimed: that an inserted return can be reached.
#![tactic(auto)]

mod builder;
mod emitter;
mod flatten;
pub mod laws;
mod notation;
mod terminator;

pub use builder::{BuildCommand, BuildError, Built, build};
pub use emitter::Emitter;
pub use flatten::{FlattenCompose, flatten_compose};
pub use log::Level;
pub use naga_arena as arena;
pub use naga_arena::{
    Arena, Handle, Range, SourceLocation, Span, SpanContext, UniqueArena, WithSpan,
};
pub use naga_compact as compact;
pub use naga_flow as flow;
pub use naga_ir as ir;
pub use naga_ir::diagnostic_filter;
pub use naga_notation::{DEPTH_LIMIT, LENGTH_LIMIT, ShapeError, read_block, write_block};
pub use naga_runs::{Ending, Replay, has_exit, replay};
pub use naga_sets as sets;
pub use notation::{reshape, reshape_by, reshape_old};
pub use terminator::{
    Rule, close_block, close_module, ensure_block_returns, ensure_block_returns_by,
    ensure_block_returns_old, reserve_module_returns, reserve_returns,
};
