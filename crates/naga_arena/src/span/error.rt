//! [`WithSpan`], an error with the spans of the source text that it concerns.
ghost use Rattle.std.specs.Prelude.{◌≡◌, ◌≢◌, ◌↔◌, [], false, IsOk, IsSome, IfOk, IfErr, IfSome, IsSomeAnd};
ghost use Rattle.std.specs.Slice.Iter.{iter_rest};
ghost use Rattle.naga_arena.specs.Location.{HasLocation, IsLocation};
ghost use Rattle.naga_arena.specs.Span.{is_defined};
ghost use Rattle.naga_arena.specs.WithSpan.{Joins, AllDefined, bare, context, contexts, element_context, first_span, with_context};

use super::{SourceLocation, Span, SpanContext, SpanProvider};
use crate::arena::{Handle, KindName};
use crate::try_clone::TryClone;
use std::alloc::{AllocError, Global};
use std::error::Error;
use std::marker::Model;
use std::{fmt, slice};

/// An error with spans of the source text, each with a text that describes it.
///
/// All of the spans are defined.
#[derive(Debug, Drop)]
pub struct WithSpan<E> {
    inner: E,
    spans: Vec<SpanContext>,
}

impl<E> Model for WithSpan<E> {
    ghost use Rattle.naga_arena.specs.WithSpan.{Spanned, AllDefined, contexts};

    ghost Value = { Spanned E };

    ghost view = { λ e. record { inner = e.inner; spans = contexts e.spans.items } };

    ghost invariant = { λ e. AllDefined (contexts e.spans.items) };
}

/// An iterator over the spans of an error, each with its text.
pub type Spans<'a> = slice::Iter<'a, SpanContext>;

/// Formats the inner error in its own format, without the spans.
impl<E: fmt::Display> fmt::Display for WithSpan<E> {
    ghost output = { λ error. E.output error.inner };

    ghost styled_output = { λ error. E.styled_output error.inner };

    fn fmt<W: fmt::Write>(&self, f: &mut fmt::Formatter<W>) -> fmt::Result {
        self.inner.fmt(f)
    }
}

impl<E: Error> Error for WithSpan<E> {}

/// Clones the inner error, with the same spans and texts.
impl<E: TryClone> TryClone for WithSpan<E> {
    ghost clone_gives = { λ error copy. E.clone_gives error.inner copy.inner × (copy.spans ≡ error.spans) };

    fn clone(&self) -> Result<Self, AllocError> {
        let spans = Clone::clone(&self.spans)?;
        let inner = TryClone::clone(&self.inner)?;
        Ok(WithSpan { inner, spans })
    }
}

impl<E> WithSpan<E> {
    /// Creates a `WithSpan` without spans from an error. Nothing is allocated.
    pub fn new(alloc: Global, inner: E) -> Self
        ensures { result ≡ bare inner }
    {
        WithSpan {
            inner,
            spans: Vec::new(alloc),
        }
    }

    /// Consumes the `WithSpan`, returning the inner error without the spans.
    pub fn into_inner(self) -> E
        ensures { result ≡ self.inner }
    {
        let WithSpan { inner, spans: _ } = self;
        inner
    }

    /// Returns a reference to the inner error.
    pub fn as_inner(&self) -> &E
        ensures { result.now ≡ self.now.inner }
    {
        &self.inner
    }

    /// Returns an iterator over the spans with their texts, in order. The length of the iterator is exact.
    pub fn spans(&self) -> Spans<'_>
        ensures all { contexts (iter_rest result) ≡ self.now.spans }
        ensures defined { AllDefined self.now.spans }
    {
        self.spans.iter()
    }

    /// Appends a span with its text, and returns the error.
    ///
    /// If the span is undefined, the error is unchanged and nothing is allocated. If allocation fails, returns the
    /// unchanged error as `Err`.
    pub fn with_span(self, span: Span, description: &str) -> Result<Self, Self>
        ensures added { IfOk result (λ error. error ≡ with_context self (span, description.now)) }
        ensures undefined { is_defined span ≡ false → IsOk result }
        ensures refused { IfErr result (λ error. error ≡ self) }
    {
        if !span.is_defined() {
            return Ok(self);
        }
        match String::from_str(*self.spans.allocator(), description) {
            Ok(text) => self.with_context((span, text)),
            Err(_) => Err(self),
        }
    }

    /// Appends a span with its text, like [`with_span`](Self::with_span).
    pub fn with_context(mut self, span_context: SpanContext) -> Result<Self, Self>
        ensures added { IfOk result (λ error. error ≡ with_context self (context span_context)) }
        ensures undefined { is_defined span_context.0 ≡ false → IsOk result }
        ensures refused { IfErr result (λ error. error ≡ self) }
    {
        if span_context.0.is_defined() && self.spans.push(span_context).is_err() {
            return Err(self);
        }
        Ok(self)
    }

    /// Appends the span of an element of an arena, like [`with_span`](Self::with_span). The text is the kind and handle
    /// of the element.
    pub fn with_handle<T: KindName, A: SpanProvider<T>>(
        self,
        handle: Handle<T>,
        arena: &A,
    ) -> Result<Self, Self>
        ensures added { IfOk result (λ error.
            error ≡ with_context self (element_context T.name (A.span_of arena.now handle) handle)) }
        ensures undefined { is_defined (A.span_of arena.now handle) ≡ false → IsOk result }
        ensures refused { IfErr result (λ error. error ≡ self) }
    {
        match arena.get_span_context(*self.spans.allocator(), handle) {
            Ok(span_context) => self.with_context(span_context),
            Err(_) => Err(self),
        }
    }

    /// Converts the inner error with [`From`], and keeps the spans.
    pub fn into_other<E2: From<E>>(self) -> WithSpan<E2>
        ensures inner { E2.from_gives self.inner result.inner }
        ensures spans { result.spans ≡ self.spans }
    {
        let WithSpan { inner, spans } = self;
        WithSpan {
            inner: E2::from(inner),
            spans,
        }
    }

    /// Calls `func` with the inner error, and returns the new error with the spans of both: first the new spans, then
    /// the old ones.
    ///
    /// If allocation fails, returns `Err` with the error that `func` returned and the old spans. If there are no old
    /// spans, nothing is allocated.
    ///
    /// Precondition: `func` can be called with the inner error.
    pub fn and_then<F, E2>(self, func: F) -> Result<WithSpan<E2>, (WithSpan<E2>, Vec<SpanContext>)>
    where
        F: FnOnce(E) -> WithSpan<E2>,
        requires { F.pre func self.inner }
        ensures joined { IfOk result (Joins (F.post func self.inner) self.spans) }
        ensures succeeds { self.spans ≡ [] → IsOk result }
        ensures gave { IfErr result (λ refused. F.post func self.inner refused.0) }
        ensures kept { IfErr result (λ refused. contexts refused.1.items ≡ self.spans) }
    {
        let WithSpan { inner, mut spans } = self;
        let mut error = func(inner);
        if error.spans.append(&mut spans).is_err() {
            return Err((error, spans));
        }
        Ok(error)
    }

    /// Returns the location in the source text of the first span.
    ///
    /// Returns `None` if there is no span, the source text is empty, or the span has no location in it.
    pub fn location(&self, source: &str) -> Option<SourceLocation>
        ensures some { IsSome result
            ↔ ((source.now ≢ []) × IsSomeAnd (first_span self.now) (HasLocation source.now)) }
        ensures value { IfSome result (λ location.
            IfSome (first_span self.now) (λ span. IsLocation source.now span location)) }
    {
        if source.is_empty() {
            return None;
        }
        let (span, _) = self.spans.first()?;
        span.location(source)
    }
}
