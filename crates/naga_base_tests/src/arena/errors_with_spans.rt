//! Tests of errors with spans. The errors are numbers: 1 is a `u8`, and 2 is the `u16` that another layer reports.
ghost use Rattle.std.specs.Prelude.{codes};

use super::says;
use naga_arena::{
    Arena, Handle, KindName, SourceLocation, Span, SpanContext, SpanProvider, TryClone, WithSpan,
    clone_each, map_err_inner, with_span, with_span_context, with_span_handle, with_span_static,
};
use std::alloc::{AllocError, Global};

/// An element type with a kind name of its own.
#[derive(Clone, Copy)]
struct Expression;

impl KindName for Expression {
    type Kind = Expression;

    const NAME: &'static str = "Expression";

    ghost name = { codes "Expression" };

    fn kind_name() -> &'static str {
        Self::NAME
    }
}

/// The start and the end of a span, and the text that belongs to it.
type Told = (u32, u32, &'static str);

/// The span 1..2.
const A: &[Told] = &[(1, 2, "a")];

/// The span 3..4.
const B: &[Told] = &[(3, 4, "b")];

/// Four spans. A vector of four has to grow for the fifth.
const FOUR: &[Told] = &[(5, 6, "c"), (7, 8, "d"), (9, 10, "e"), (11, 12, "f")];

/// The span 1..2, and then the four.
const A_AND_FOUR: &[Told] = &[
    (1, 2, "a"),
    (5, 6, "c"),
    (7, 8, "d"),
    (9, 10, "e"),
    (11, 12, "f"),
];

/// The four spans, and then a fifth one.
const FOUR_AND_FIFTH: &[Told] = &[
    (5, 6, "c"),
    (7, 8, "d"),
    (9, 10, "e"),
    (11, 12, "f"),
    (13, 14, "g"),
];

/// The span of the last of four expressions.
const FOURTH: &[Told] = &[(10, 20, "Expression [3]")];

/// Returns whether this is the span with its text.
fn is_told(context: &SpanContext, (start, end, description): Told) -> bool {
    context.0 == Span::new(start, end) && context.1.as_str() == description
}

/// Returns whether these are exactly the spans, each with its text, in this order.
fn told(contexts: &[SpanContext], want: &[Told]) -> bool {
    let mut contexts = contexts.iter();
    for want in want {
        let Some(context) = contexts.next() else {
            return false;
        };
        if !is_told(context, *want) {
            return false;
        }
    }
    contexts.next().is_none()
}

/// Returns whether the error is this number with these spans.
fn tells<E: Copy + PartialEq>(error: &WithSpan<E>, inner: E, want: &[Told]) -> bool {
    *error.as_inner() == inner && told(error.spans().as_slice(), want)
}

/// Creates an error with these spans, or returns `None` if allocation fails.
fn error_at<E: Drop>(alloc: Global, inner: E, spans: &[Told]) -> Option<WithSpan<E>> {
    let mut error = WithSpan::new(alloc, inner);
    for (start, end, description) in spans {
        error = error.with_span(Span::new(*start, *end), *description).ok()?;
    }
    Some(error)
}

/// Returns whether the call returned the error 1 with these spans. If `may_be_refused`, it may also have returned the
/// error with the old spans as `Err`.
fn gave(
    given: Result<WithSpan<u8>, WithSpan<u8>>,
    want: &[Told],
    old: &[Told],
    may_be_refused: bool,
) -> bool {
    match given {
        Ok(error) => tells(&error, 1, want),
        Err(error) => may_be_refused && tells(&error, 1, old),
    }
}

/// Returns whether a clone of an error has "a" at 1..2. If `may_be_refused`, cloning may also fail.
fn is_cloned(error: &WithSpan<u8>, may_be_refused: bool) -> bool {
    match TryClone::clone(error) {
        Ok(copy) => tells(&copy, 1, A),
        Err(AllocError) => may_be_refused,
    }
}

/// Returns whether the clones of these spans and their texts are the expected ones. If `may_be_refused`, cloning may
/// also fail.
fn each_is_cloned(
    alloc: Global,
    contexts: &[SpanContext],
    want: &[Told],
    may_be_refused: bool,
) -> bool {
    match clone_each(alloc, contexts) {
        Ok(copies) => told(copies.as_slice(), want),
        Err(AllocError) => may_be_refused,
    }
}

/// Returns whether an error to which "a" at 1..2 and an undefined span are added has only "a", also after it is cloned
/// and after it is converted.
fn keeps_a(alloc: Global) -> bool {
    let Some(error) = error_at(alloc, 1u8, &[(1, 2, "a"), (0, 0, "x")]) else {
        return false;
    };
    let is_cloned = is_cloned(&error, false)
        && each_is_cloned(alloc, error.spans().as_slice(), A, false);
    let other: WithSpan<u16> = error.into_other();
    is_cloned && tells(&other, 1, A) && other.into_inner() == 1
}

/// Returns an error with spans, which is itself the inner error of another one.
fn itself(error: WithSpan<u8>) -> WithSpan<u8> {
    error
}

/// Returns whether `and_then` puts the new spans before the old ones. If `may_be_refused`, allocation may also fail;
/// the new error and the old spans must then be unchanged. Without old spans, nothing is allocated.
fn joins(alloc: Global, new: &[Told], old: &[Told], want: &[Told], may_be_refused: bool) -> bool {
    let Some(later) = error_at(alloc, 2u8, new) else {
        return may_be_refused;
    };
    let Some(error) = error_at(alloc, later, old) else {
        return may_be_refused;
    };
    match error.and_then(itself) {
        Ok(joined) => tells(&joined, 2, want),
        Err((later, kept)) => {
            may_be_refused && !old.is_empty() && tells(&later, 2, new) && told(kept.as_slice(), old)
        }
    }
}

/// Returns whether `map_err_inner` does the same, and converts the new error.
fn maps(alloc: Global, new: &[Told], old: &[Told], want: &[Told], may_be_refused: bool) -> bool {
    let Some(later) = error_at(alloc, 2u8, new) else {
        return may_be_refused;
    };
    let Some(error) = error_at(alloc, later, old) else {
        return may_be_refused;
    };
    match map_err_inner::<u8, WithSpan<u8>, u16, u8, _>(Err(error), itself) {
        Ok(Ok(_)) => false,
        Ok(Err(mapped)) => tells(&mapped, 2, want),
        Err((later, kept)) => {
            may_be_refused && !old.is_empty() && tells(&later, 2, new) && told(kept.as_slice(), old)
        }
    }
}

/// Returns whether `map_err_inner` returns a value unchanged.
fn maps_no_value() -> bool {
    match map_err_inner::<u8, WithSpan<u8>, u16, u8, _>(Ok(7), itself) {
        Ok(Ok(value)) => value == 7,
        _ => false,
    }
}

/// Returns whether an error with spans has the location of the first one in a source text, and an error without spans
/// has none.
fn is_located(alloc: Global) -> bool {
    let source = "12\n45\n\n89\n";
    let location = SourceLocation {
        line_number: 2,
        line_position: 2,
        offset: 4,
        length: 2,
    };
    match error_at(alloc, 1u8, &[(4, 6, "a"), (0, 1, "b")]) {
        Some(error) => error.location(source) == Some(location),
        None => false,
    }
}

#[test]
fn errors_keep_their_spans(rt: HostRuntime) {
    assert!(rt; keeps_a(rt.alloc()));
    assert!(rt; joins(rt.alloc(), B, A, &[(3, 4, "b"), (1, 2, "a")], false));
    assert!(rt; maps(rt.alloc(), &[], A, A, false));
    assert!(rt; is_located(rt.alloc()));
    assert!(rt; with_span(rt.alloc(), 1).location("12").is_none());
    assert!(rt; says(rt.alloc(), &with_span(rt.alloc(), 7), "7"));
}

/// Appends four expressions to an empty arena, and returns whether every append succeeded. Only the last one has a
/// span, 10..20.
fn fills(arena: &mut Arena<Expression>) -> bool {
    arena.append(Expression, Span::UNDEFINED).is_ok()
        && arena.append(Expression, Span::UNDEFINED).is_ok()
        && arena.append(Expression, Span::UNDEFINED).is_ok()
        && arena.append(Expression, Span::new(10, 20)).is_ok()
}

/// Returns whether `get_span_context` returns this span and text for the element with this handle. If `may_be_refused`,
/// allocation may also fail.
fn tells_of(
    alloc: Global,
    arena: &Arena<Expression>,
    handle: Handle<Expression>,
    want: Told,
    may_be_refused: bool,
) -> bool {
    match arena.get_span_context(alloc, handle) {
        Ok(context) => is_told(&context, want),
        Err(AllocError) => may_be_refused,
    }
}

/// Returns whether `with_handle` adds the span of the last of the four expressions to "a" at 1..2. If `may_be_refused`,
/// allocation may also fail.
fn gets_fourth(alloc: Global, arena: &Arena<Expression>, may_be_refused: bool) -> bool {
    match error_at(alloc, 1, A) {
        Some(error) => gave(
            error.with_handle(Handle::<Expression>::at(3), arena),
            &[(1, 2, "a"), (10, 20, "Expression [3]")],
            A,
            may_be_refused,
        ),
        None => may_be_refused,
    }
}

/// Returns whether `with_span_context` returns the error 1 with these spans, given this span and a text. If
/// `may_be_refused`, allocation may also fail. For an undefined span, only the text is allocated.
fn gives_context(alloc: Global, span: Span, want: &[Told], may_be_refused: bool) -> bool {
    match String::from_str(alloc, "Expression [3]") {
        Ok(text) => gave(
            with_span_context(alloc, 1, (span, text)),
            want,
            &[],
            may_be_refused && span.is_defined(),
        ),
        Err(AllocError) => may_be_refused,
    }
}

/// Returns whether the plain functions return the error 1 with the span of the last of the four expressions. If
/// `may_be_refused`, allocation may also fail; the error must then be returned without spans.
fn plain_functions_give(alloc: Global, arena: &Arena<Expression>, may_be_refused: bool) -> bool {
    let span = Span::new(10, 20);
    let by_handle = with_span_handle(alloc, 1, Handle::<Expression>::at(3), arena);
    gave(by_handle, FOURTH, &[], may_be_refused)
        && gave(
            with_span_static(alloc, 1, span, "Expression [3]"),
            FOURTH,
            &[],
            may_be_refused,
        )
        && gives_context(alloc, span, FOURTH, may_be_refused)
}

/// Returns whether the third of the four expressions, which has no span, has an empty text and adds no span to an
/// error, and whether an undefined span adds none either. Only the text for `with_span_context` is allocated.
fn has_no_span(alloc: Global, arena: &Arena<Expression>) -> bool {
    let third = Handle::<Expression>::at(2);
    tells_of(alloc, arena, third, (0, 0, ""), false)
        && gave(with_span_handle(alloc, 1, third, arena), &[], &[], false)
        && gave(
            with_span_static(alloc, 1, Span::UNDEFINED, "x"),
            &[],
            &[],
            false,
        )
        && gives_context(alloc, Span::UNDEFINED, &[], true)
}

/// Returns whether the last of the four expressions gives its span to an error by each call, and an expression that is
/// not in the arena has none.
fn gives_its_span(alloc: Global, arena: &Arena<Expression>) -> bool {
    let fourth = (10, 20, "Expression [3]");
    tells_of(alloc, arena, Handle::<Expression>::at(3), fourth, false)
        && tells_of(alloc, arena, Handle::<Expression>::at(4), (0, 0, ""), false)
        && gets_fourth(alloc, arena, false)
        && plain_functions_give(alloc, arena, false)
}

#[test]
fn elements_are_told_and_give_their_spans(rt: HostRuntime) {
    let mut arena = Arena::<Expression>::new(rt.alloc());
    assert!(rt; fills(&mut arena) && gives_its_span(rt.alloc(), &arena));
}

/// Returns whether a fifth span is added to four or, if allocation fails, the four are kept.
fn grows_or_stays(alloc: Global) -> bool {
    match error_at(alloc, 1, FOUR) {
        Some(error) => gave(
            error.with_span(Span::new(13, 14), "g"),
            FOUR_AND_FIFTH,
            FOUR,
            true,
        ),
        None => true,
    }
}

/// Returns whether a fifth span with its text is added to four or, if allocation fails, the four are kept.
fn grows_by_context_or_stays(alloc: Global) -> bool {
    let Ok(text) = String::from_str(alloc, "g") else {
        return true;
    };
    match error_at(alloc, 1, FOUR) {
        Some(error) => {
            let given = error.with_context((Span::new(13, 14), text));
            gave(given, FOUR_AND_FIFTH, FOUR, true)
        }
        None => true,
    }
}

/// Returns whether an undefined span adds nothing to an error. This allocates nothing.
fn stays(alloc: Global) -> bool {
    match error_at(alloc, 1, A) {
        Some(error) => gave(error.with_span(Span::UNDEFINED, "x"), A, A, false),
        None => true,
    }
}

/// Returns whether an error is cloned or cloning fails, and it still has its span.
fn is_cloned_or_refused(alloc: Global) -> bool {
    match error_at(alloc, 1, A) {
        Some(error) => is_cloned(&error, true) && tells(&error, 1, A),
        None => true,
    }
}

/// Returns whether four spans are cloned or cloning fails, and the error still has them.
fn each_is_cloned_or_refused(alloc: Global) -> bool {
    match error_at(alloc, 1, FOUR) {
        Some(error) => {
            each_is_cloned(alloc, error.spans().as_slice(), FOUR, true) && tells(&error, 1, FOUR)
        }
        None => true,
    }
}

/// Returns whether `get_span_context` returns the span and the text of the last of the four expressions, or allocation
/// fails.
fn is_told_or_refused(alloc: Global, arena: &Arena<Expression>) -> bool {
    let fourth = (10, 20, "Expression [3]");
    tells_of(alloc, arena, Handle::<Expression>::at(3), fourth, true)
}

/// Tests that also pass if an allocation fails.
mod refusals {
    use super::*;

    #[test]
    fn refused_spans_hand_the_error_back(rt: HostRuntime) {
        assert!(rt; grows_or_stays(rt.alloc()));
        assert!(rt; grows_by_context_or_stays(rt.alloc()));
    }

    #[test]
    fn refused_spans_of_elements_hand_the_error_back(rt: HostRuntime) {
        let mut arena = Arena::<Expression>::new(rt.alloc());
        if fills(&mut arena) {
            assert!(rt; is_told_or_refused(rt.alloc(), &arena));
            assert!(rt; gets_fourth(rt.alloc(), &arena, true));
            assert!(rt; plain_functions_give(rt.alloc(), &arena, true));
            // This allocates nothing.
            assert!(rt; has_no_span(rt.alloc(), &arena));
        }
    }

    #[test]
    fn refused_joins_hand_back_the_new_error_and_the_old_spans(rt: HostRuntime) {
        assert!(rt; joins(rt.alloc(), A, FOUR, A_AND_FOUR, true));
        assert!(rt; maps(rt.alloc(), A, FOUR, A_AND_FOUR, true));
    }

    #[test]
    fn what_adds_no_span_takes_no_memory_to_be_refused(rt: HostRuntime) {
        assert!(rt; stays(rt.alloc()) && maps_no_value());
        assert!(rt; joins(rt.alloc(), B, &[], B, true) && maps(rt.alloc(), B, &[], B, true));
    }

    #[test]
    fn refused_clones_leave_their_sources(rt: HostRuntime) {
        assert!(rt; is_cloned_or_refused(rt.alloc()));
        assert!(rt; each_is_cloned_or_refused(rt.alloc()));
    }
}
