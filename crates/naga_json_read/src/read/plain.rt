//! The types that [`Coded`](crate::Coded) reads, but for those that naga_kinds and naga_ir declare.
use super::lists::Plain;
use naga_arena::{Handle, KindHandle, Range};
use naga_ir::Expression;
use naga_kinds::{Barrier, MemoryDecorations, StorageAccess, SwizzleComponent};
use std::num::NonZeroU32;

impl Plain for bool {}

impl Plain for u8 {}

impl Plain for u16 {}

impl Plain for u32 {}

impl Plain for u64 {}

impl Plain for NonZeroU32 {}

impl Plain for i16 {}

impl Plain for i32 {}

impl Plain for i64 {}

impl<K> Plain for KindHandle<K> {}

impl Plain for Range<Expression> {}

impl Plain for StorageAccess {}

impl Plain for MemoryDecorations {}

impl Plain for Barrier {}

impl Plain for [SwizzleComponent; 4] {}

impl Plain for [u32; 3] {}

impl Plain for [Option<Handle<Expression>>; 3] {}
