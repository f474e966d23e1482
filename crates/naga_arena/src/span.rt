//! Source spans, and the locations in a source text where they begin.
ghost use Rattle.std.specs.Prelude.{◌≡◌, ◌<◌, ◌≤◌, ◌↔◌, length, IsSome, IfSome, slice_range};
ghost use Rattle.std.specs.Iterator.{IsFinite};
ghost use Rattle.std.specs.Iterator.Runs.{WholeRun};
ghost use Rattle.naga_arena.specs.Limits.{max_position};
ghost use Rattle.naga_arena.specs.Location.{HasLocation, HasSlice, IsLineStart, IsLocation, newlines_before};
ghost use Rattle.naga_arena.specs.Span.{is_defined, join, range_of, span_of, total};

mod add_span;
mod error;
mod span_provider;

pub use add_span::{
    map_err_inner, with_span, with_span_context, with_span_handle, with_span_static,
};
pub use error::{Spans, WithSpan};
pub use span_provider::SpanProvider;
use std::ops::Range;
use thiserror::Error;

/// A part of a source text: the bytes from `start` up to, but not including, `end`.
///
/// `start` may be greater than `end`.
#[derive(Clone, Copy, Debug, PartialEq, Eq, Hash, Default)]
pub struct Span {
    /// The position of the first byte.
    pub start: u32,
    /// The position after the last byte.
    pub end: u32,
}

impl Span {
    /// The span of anything that is not in the source text.
    pub const UNDEFINED: Self = Self { start: 0, end: 0 };

    /// Creates the span of the bytes from `start` up to, but not including, `end`.
    pub fn new(start: u32, end: u32) -> Self
        ensures { result ≡ record { start = start; «end» = end } }
    {
        Span { start, end }
    }

    /// Returns the span from the start of this span to the end of `other`.
    pub fn until(&self, other: &Self) -> Self
        ensures { result ≡ record { start = self.now.start; «end» = other.now.end } }
    {
        Span {
            start: self.start,
            end: other.end,
        }
    }

    /// Widens this span to cover `other` too.
    ///
    /// An undefined span covers nothing: if one of the two spans is undefined, the result is the other one.
    pub fn subsume(&mut self, other: Self)
        ensures { self.new ≡ join self.old other }
    {
        *self = if !self.is_defined() {
            other
        } else if !other.is_defined() {
            *self
        } else {
            Span {
                start: self.start.min(other.start),
                end: self.end.max(other.end),
            }
        }
    }

    /// Returns the join of all spans that an iterator yields.
    ///
    /// Spans are joined as in [`subsume`](Self::subsume). The join of no spans is [`UNDEFINED`](Self::UNDEFINED).
    ///
    /// Precondition: `next` can be called on the iterator, and the iterator is finite.
    pub fn total_span<I: Iterator<Item = Self>>(from: I) -> Self
        requires can { I.can_next from }
        requires ends { IsFinite (I.remaining from) }
        ensures { WholeRun I.next_gives from (λ run. result ≡ total run.items) }
    {
        // Folding each part separately lets LLVM join several spans at a time.
        let (start, end, is_defined) = from.fold((u32::MAX, 0_u32, false), |total, span| {
            let here = span.is_defined();
            let start = if here { span.start } else { u32::MAX };
            (total.0.min(start), total.1.max(span.end), total.2 | here)
        });
        if is_defined {
            Span { start, end }
        } else {
            Self::UNDEFINED
        }
    }

    /// Returns the span as a range, or `None` if it is undefined.
    pub fn to_range(self) -> Option<Range<usize>>
        ensures { result ≡ range_of self }
    {
        if self.is_defined() {
            Some(self.start as usize..self.end as usize)
        } else {
            None
        }
    }

    /// Returns `true` for every span except [`UNDEFINED`](Self::UNDEFINED).
    pub fn is_defined(&self) -> bool
        ensures { result ≡ is_defined self.now }
    {
        *self != Self::UNDEFINED
    }

    /// Returns the location of this span in the source text: the place where it begins, and its length.
    ///
    /// Returns `None` if the start is greater than the end, is not a UTF-8 boundary of `source`, or is `u32::MAX`. The
    /// end is not compared with `source`.
    ///
    /// Differs from naga: naga panics or wraps around in these cases. The exception is a start of `u32::MAX` in a line
    /// that does not begin at position 0, for which naga can return a location.
    pub fn location(&self, source: &str) -> Option<SourceLocation>
        ensures some { IsSome result ↔ HasLocation source.now self.now }
        ensures value { IfSome result (IsLocation source.now self.now) }
    {
        let start = self.start as usize;
        if self.start > self.end || self.start == u32::MAX || !source.is_char_boundary(start) {
            return None;
        }
        let text = source.as_bytes();
        let line_start = line_start(text, start);
        // There is no newline between `line_start` and `start`, so this also counts the newlines before `start`.
        let newlines = count_newlines(text, line_start);
        Some(SourceLocation {
            line_number: newlines + 1,
            line_position: (start - line_start) as u32 + 1,
            offset: self.start,
            length: self.end - self.start,
        })
    }

    /// Returns the part of the source text that this span covers.
    ///
    /// Returns `None` if the start is greater than the end, the end is greater than the length of `source`, or one of
    /// them is not a UTF-8 boundary.
    ///
    /// Differs from naga: naga indexes a `str` by a span, and panics in these cases.
    pub fn slice_of<'a>(&self, source: &'a str) -> Option<&'a str>
        ensures some { IsSome result ↔ HasSlice source.now self.now }
        ensures value { IfSome result (λ part.
            part.now ≡ slice_range source.now self.now.start self.now.end) }
    {
        let (start, end) = (self.start as usize, self.end as usize);
        if start <= end && source.is_char_boundary(start) && source.is_char_boundary(end) {
            Some(&source[start..end])
        } else {
            None
        }
    }
}

/// Returns the greatest position at or before `offset` where a line begins.
///
/// Precondition: `offset` is at most the length of `text`.
fn line_start(text: &[u8], offset: usize) -> usize
    requires { offset ≤ length text.now }
    ensures { IsLineStart text.now offset result }
{
    let mut start = offset;
    'back: while start > 0 && text[start - 1] != b'\n' {
        start -= 1;
    }
    start
}

/// Returns the number of newlines before `offset`.
///
/// Precondition: `offset` is at most the length of `text`, and below `u32::MAX`.
#[tactic(auto, using(std::proofs::lemmas::List::Sums::count_by_more_yes, std::proofs::lemmas::List::Sums::count_by_more_no))]
fn count_newlines(text: &[u8], offset: usize) -> u32
    requires within { offset ≤ length text.now }
    requires counted { offset < max_position }
    ensures value { result ≡ newlines_before text.now offset }
    ensures bound { result ≤ offset }
{
    // Counting in a `u32`, in one pass, lets LLVM count several bytes at a time.
    let mut newlines: u32 = 0;
    for byte in &text[..offset] {
        if *byte == b'\n' {
            newlines += 1;
        }
    }
    newlines
}

/// The error returned when a bound of a range is greater than `u32::MAX`, so that no span can have it.
#[derive(Clone, Copy, Debug, PartialEq, Eq, Error)]
#[error("span end too large")]
pub struct SpanTooLarge;

impl TryFrom<Range<usize>> for Span {
    type Error = SpanTooLarge;

    ghost try_from_gives = { λ range result. result ≡ span_of range };

    /// Returns the span with the bounds of this range, or [`SpanTooLarge`] if one of them is greater than `u32::MAX`.
    ///
    /// Differs from naga: naga truncates the bounds to 32 bits.
    fn try_from(range: Range<usize>) -> Result<Self, SpanTooLarge> {
        match (u32::try_from(range.start), u32::try_from(range.end)) {
            (Ok(start), Ok(end)) => Ok(Span { start, end }),
            _ => Err(SpanTooLarge),
        }
    }
}

/// A human-readable location in a source text.
///
/// `offset`, `length` and `line_position` are in bytes.
#[derive(Clone, Copy, Debug, PartialEq, Eq)]
pub struct SourceLocation {
    /// The line number, starting at 1.
    pub line_number: u32,
    /// The position in the line, starting at 1.
    pub line_position: u32,
    /// The position in the source text, starting at 0.
    pub offset: u32,
    /// The number of bytes that the span covers.
    pub length: u32,
}

/// A span, and a text that describes it.
pub type SpanContext = (Span, String);
