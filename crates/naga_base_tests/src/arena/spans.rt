use super::says;
use naga_arena::{SourceLocation, Span, SpanTooLarge};

/// Returns whether joining the first span with the second one results in the third one.
fn joins(mut span: Span, other: Span, want: Span) -> bool {
    span.subsume(other);
    span == want
}

#[test]
fn spans_are_joined_and_the_empty_one_at_the_start_is_undefined(rt: HostRuntime) {
    let (first, second, third) = (Span::new(2, 5), Span::new(9, 12), Span::new(3, 4));
    let spans = [second, Span::UNDEFINED, first];
    assert!(rt; joins(first, second, Span::new(2, 12)) && joins(Span::UNDEFINED, third, third));
    assert!(rt; first.until(&second) == Span::new(2, 12));
    assert!(rt; !Span::new(0, 0).is_defined() && Span::default() == Span::UNDEFINED);
    assert!(rt; Span::total_span(spans.iter().copied()) == Span::new(2, 12));
}

#[test]
fn spans_and_ranges_are_turned_into_one_another(rt: HostRuntime) {
    assert!(rt; Span::try_from(4294967295..4294967296) == Err(SpanTooLarge));
    assert!(rt; Span::try_from(0..4294967295) == Ok(Span::new(0, 4294967295)));
    assert!(rt; Span::new(3, 2).to_range() == Some(3..2));
    assert!(rt; says(rt.alloc(), &SpanTooLarge, "span end too large"));
}

/// The source text for [`LOCATIONS`].
const SOURCE: &str = "12\n45\n\n89\n";

/// Spans in that text, each with its line and its position in that line.
const LOCATIONS: &[((u32, u32), (u32, u32))] = &[
    ((0, 1), (1, 1)),
    ((1, 2), (1, 2)),
    ((2, 3), (1, 3)),
    ((3, 5), (2, 1)),
    ((4, 6), (2, 2)),
    ((5, 6), (2, 3)),
    ((6, 7), (3, 1)),
    ((7, 8), (4, 1)),
    ((8, 9), (4, 2)),
    ((9, 10), (4, 3)),
    ((10, 11), (5, 1)),
];

/// Returns whether the span from one position to another is located at this line, and at this position in it.
fn is_located((start, end): (u32, u32), (line_number, line_position): (u32, u32)) -> bool {
    Span::new(start, end).location(SOURCE)
        == Some(SourceLocation {
            line_number,
            line_position,
            offset: start,
            length: end.wrapping_sub(start),
        })
}

/// Texts, and the start and the end of spans that have no location in them and cover no part of them.
const OUTSIDE: &[(&str, u32, u32)] = &[
    (SOURCE, 11, 12),
    ("é", 1, 2),
    ("é", 3, 1),
    ("é", 4294967295, 4294967295),
    (SOURCE, 3, 1),
    (SOURCE, 4294967295, 4294967295),
    ("", 3, 1),
    ("", 4294967295, 4294967295),
];

/// Returns whether a span has no location in a text and covers no part of it.
fn is_outside(source: &str, span: Span) -> bool {
    span.location(source).is_none() && span.slice_of(source).is_none()
}

#[test]
fn spans_have_a_location_and_a_part_in_the_source(rt: HostRuntime) {
    for (span, location) in LOCATIONS {
        assert!(rt; is_located(*span, *location), "at {}", span.0);
    }
    for (source, start, end) in OUTSIDE {
        assert!(rt; is_outside(source, Span::new(*start, *end)), "at {start}");
    }
    assert!(rt; Span::new(3, 5).slice_of(SOURCE) == Some("45"));
}
