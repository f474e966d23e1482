//! Arenas for the shader IR, the handles and ranges that refer to their elements, and source spans.
//!
//! Only tested: the texts of errors, the debug texts of arenas, and that `retain_mut` allocates before it first calls
//! its predicate.
#![tactic(auto)]

mod arena;
pub mod laws;
mod non_max_u32;
mod span;
mod try_clone;

pub use arena::{
    Arena, ArenaDrain, ArenaError, ArenaIter, ArenaType, BadHandle, BadRangeError, Drain, Handle,
    Index, KindHandle, KindName, KindRange, Range, UniqueArena, UniqueArenaDrain, UniqueArenaIter,
};
pub use non_max_u32::NonMaxU32;
pub use span::{
    SourceLocation, Span, SpanContext, SpanProvider, SpanTooLarge, Spans, WithSpan, map_err_inner,
    with_span, with_span_context, with_span_handle, with_span_static,
};
pub use try_clone::{TryClone, clone_each};
