//! [`SpanProvider`], the trait of arenas whose elements have spans.
ghost use Rattle.std.specs.Prelude.{◌≡◌, ℕ, false, IsOk, IfOk};
ghost use Rattle.naga_arena.specs.Arena.{span_at};
ghost use Rattle.naga_arena.specs.Span.{is_defined};
ghost use Rattle.naga_arena.specs.WithSpan.{context, element_context};
ghost use Rattle.naga_arena.specs.declared.span.Span.{Span as SpanValue};

use super::{Span, SpanContext};
use crate::arena::{Arena, Handle, KindName, UniqueArena};
use std::alloc::{AllocError, Global};
use std::hash::Hash;

/// An arena whose elements have spans: an [`Arena`] or a [`UniqueArena`].
pub trait SpanProvider<T: KindName> {
    /// The span of the element at this index, or `UNDEFINED` if there is no such element.
    ghost span_of: { Self → ℕ → SpanValue };

    /// Returns the span of the element with this handle, or [`Span::UNDEFINED`] if there is no such element.
    fn get_span(&self, handle: Handle<T>) -> Span
        ensures { result ≡ span_of self.now handle };

    /// Returns the span of the element with this handle, and a text like `Expression [3]`.
    ///
    /// If the span is undefined, returns `UNDEFINED` with an empty text, and allocates nothing. Returns `Err` if
    /// allocation fails.
    final fn get_span_context(
        &self,
        alloc: Global,
        handle: Handle<T>,
    ) -> Result<SpanContext, AllocError>
        ensures told { IfOk result
            (λ told. context told ≡ element_context T.name (span_of self.now handle) handle) }
        ensures undefined { is_defined (span_of self.now handle) ≡ false → IsOk result }
    {
        let span = self.get_span(handle);
        if !span.is_defined() {
            return Ok((Span::UNDEFINED, String::new(alloc)));
        }
        let kind = T::kind_name();
        let index = handle.index();
        let text = format!(in alloc; "{kind} [{index}]")?;
        Ok((span, text))
    }
}

impl<T: KindName> SpanProvider<T> for Arena<T> {
    ghost span_of = { span_at };

    fn get_span(&self, handle: Handle<T>) -> Span
        ensures { result ≡ span_at self.now handle }
    {
        self.get_span(handle)
    }
}

impl<T: Eq + Hash + KindName> SpanProvider<T> for UniqueArena<T> {
    ghost span_of = { span_at };

    fn get_span(&self, handle: Handle<T>) -> Span
        ensures { result ≡ span_at self.now handle }
    {
        self.get_span(handle)
    }
}
