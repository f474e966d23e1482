//! Functions that add spans to an error of any type, or to the error inside a `Result`.
//!
//! Differs from naga: naga has the traits `AddSpan`, which is implemented for every type, and `MapErrWithSpan`, which
//! is implemented for `Result`, in place of these functions.
ghost use Rattle.std.specs.Prelude.{◌≡◌, [], false, IsOk, IfOk, IfErr, IsErrAnd, Ok};
ghost use Rattle.std.specs.Result.{ForErr};
ghost use Rattle.naga_arena.specs.Span.{is_defined};
ghost use Rattle.naga_arena.specs.WithSpan.{ConvertsJoined, bare, context, contexts, element_context, with_context};

use super::{Span, SpanContext, SpanProvider, WithSpan};
use crate::arena::{Handle, KindName};
use std::alloc::Global;

/// Returns the error without spans, like [`WithSpan::new`].
pub fn with_span<E>(alloc: Global, error: E) -> WithSpan<E>
    ensures { result ≡ bare error }
{
    WithSpan::new(alloc, error)
}

/// Returns the error with this span and its text, added as by [`WithSpan::with_span`].
///
/// If allocation fails, returns the error without spans as `Err`.
pub fn with_span_static<E>(
    alloc: Global,
    error: E,
    span: Span,
    description: &'static str,
) -> Result<WithSpan<E>, WithSpan<E>>
    ensures added { IfOk result
        (λ spanned. spanned ≡ with_context (bare error) (span, description.entry.now)) }
    ensures undefined { is_defined span ≡ false → IsOk result }
    ensures refused { IfErr result (λ spanned. spanned ≡ bare error) }
{
    WithSpan::new(alloc, error).with_span(span, description)
}

/// Returns the error with this span and its text, added as by [`WithSpan::with_context`].
///
/// If allocation fails, returns the error without spans as `Err`.
pub fn with_span_context<E>(
    alloc: Global,
    error: E,
    span_context: SpanContext,
) -> Result<WithSpan<E>, WithSpan<E>>
    ensures added { IfOk result
        (λ spanned. spanned ≡ with_context (bare error) (context span_context)) }
    ensures undefined { is_defined span_context.0 ≡ false → IsOk result }
    ensures refused { IfErr result (λ spanned. spanned ≡ bare error) }
{
    WithSpan::new(alloc, error).with_context(span_context)
}

/// Returns the error with the span of an element of an arena, added as by [`WithSpan::with_handle`].
///
/// If allocation fails, returns the error without spans as `Err`.
pub fn with_span_handle<E, T: KindName, A: SpanProvider<T>>(
    alloc: Global,
    error: E,
    handle: Handle<T>,
    arena: &A,
) -> Result<WithSpan<E>, WithSpan<E>>
    ensures added { IfOk result (λ spanned.
        spanned ≡ with_context (bare error) (element_context T.name (A.span_of arena.now handle) handle)) }
    ensures undefined { is_defined (A.span_of arena.now handle) ≡ false → IsOk result }
    ensures refused { IfErr result (λ spanned. spanned ≡ bare error) }
{
    WithSpan::new(alloc, error).with_handle(handle, arena)
}

/// Maps the inner error of a `Result` with `func`, and converts the new error with [`From`].
///
/// A value is returned unchanged. For an error, `func` is called with the inner error, and the spans of the old and the
/// new error are joined as in [`WithSpan::and_then`].
///
/// If allocation fails, returns `Err` with the error that `func` returned and the old spans. Nothing is allocated for a
/// value, or for an error without spans.
///
/// Precondition: if `outcome` is an error, `func` can be called with its inner error.
pub fn map_err_inner<T, E, E2, E3, F>(
    outcome: Result<T, WithSpan<E>>,
    func: F,
) -> Result<Result<T, WithSpan<E2>>, (WithSpan<E3>, Vec<SpanContext>)>
where
    F: FnOnce(E) -> WithSpan<E3>,
    E2: From<E3>,
    requires { ForErr outcome (λ error. F.pre func error.inner) }
    ensures value { IfOk outcome (λ value. result ≡ Ok (Ok value)) }
    ensures joined { IfErr outcome (λ old. IfOk result (λ mapped.
        IsErrAnd mapped (ConvertsJoined (F.post func old.inner) old.spans E2.from_gives))) }
    ensures succeeds { IfErr outcome (λ old. old.spans ≡ [] → IsOk result) }
    ensures gave { IfErr outcome
        (λ old. IfErr result (λ refused. F.post func old.inner refused.0)) }
    ensures kept { IfErr outcome
        (λ old. IfErr result (λ refused. contexts refused.1.items ≡ old.spans)) }
{
    match outcome {
        Ok(value) => Ok(Ok(value)),
        Err(error) => Ok(Err(error.and_then(func)?.into_other())),
    }
}
