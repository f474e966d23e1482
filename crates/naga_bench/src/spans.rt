//! Workloads on spans, and on errors with spans.
use crate::fault::Fault;
use crate::item::{mixed, span};
use crate::sample::{Sample, now, since};
use naga_arena::{Span, WithSpan};
use std::alloc::{AllocError, Global};

/// The operation that is timed on a list of spans.
#[derive(Clone, Copy)]
pub enum SpanWork {
    Subsume,
    Total,
}

impl SpanWork {
    /// Returns the name of the workload.
    pub fn name(self) -> &'static str {
        match self {
            SpanWork::Subsume => "span_subsume",
            SpanWork::Total => "span_total",
        }
    }
}

/// The operation that is timed on a text.
#[derive(Clone, Copy)]
pub enum TextWork {
    Location,
    SliceOf,
}

impl TextWork {
    /// Returns the name of the workload.
    pub fn name(self) -> &'static str {
        match self {
            TextWork::Location => "span_location",
            TextWork::SliceOf => "span_slice_of",
        }
    }
}

/// A line of the text, which has 33 bytes.
const LINE: &str = "let value = other + 1.0 * thing;\n";

/// Appends `size` spans, in no apparent order.
fn fill(spans: &mut Vec<Span>, size: u32) -> Result<(), AllocError> {
    for number in 0..size {
        spans.push(span(number.wrapping_mul(0x9E37_79B9)))?;
    }
    Ok(())
}

/// Times an operation on a list of spans.
pub fn on_spans(rt: &HostRuntime, size: u32, work: SpanWork) -> Result<Sample, Fault> {
    let mut spans = Vec::new(rt.alloc());
    fill(&mut spans, size)?;
    let start = now(rt);
    let whole = match work {
        SpanWork::Subsume => subsume(spans.as_slice()),
        SpanWork::Total => Span::total_span(spans.iter().copied()),
    };
    let time = since(rt, start);
    Sample::of(size, Ok(whole.start as u64), whole.end as u64, time)
}

/// Times an operation on a text of `size` lines.
pub fn on_text(rt: &HostRuntime, size: u32, work: TextWork) -> Result<Sample, Fault> {
    let text = LINE.repeat(rt.alloc(), size as usize)?;
    let start = now(rt);
    let sum = match work {
        TextWork::Location => location(text.as_str(), size),
        TextWork::SliceOf => slice_of(text.as_str(), size),
    };
    let time = since(rt, start);
    Sample::of(size, Ok(sum), text.len() as u64, time)
}

/// Returns the join of these spans, by widening one span with each of them in order.
fn subsume(spans: &[Span]) -> Span {
    let mut whole = Span::UNDEFINED;
    for span in spans {
        whole.subsume(*span);
    }
    whole
}

/// Returns a checksum of the locations of 64 spans that begin in the last lines of a text.
fn location(text: &str, lines: u32) -> u64 {
    let mut sum = 0;
    for back in 0..64 {
        let start = lines.saturating_mul(33).saturating_sub(back);
        if let Some(place) = Span::new(start, start).location(text) {
            sum = mixed(sum, place.line_number as u64);
        }
    }
    sum
}

/// Returns a checksum of the parts of a text that `size` spans cover.
fn slice_of(text: &str, size: u32) -> u64 {
    let mut sum = 0;
    for number in 0..size {
        if let Some(part) = span(number).slice_of(text) {
            sum = mixed(sum, part.len() as u64);
        }
    }
    sum
}

/// Creates an error, and adds `size` spans to it, each with a text.
fn with_spans(alloc: Global, size: u32) -> Result<WithSpan<Fault>, WithSpan<Fault>> {
    let mut error = WithSpan::new(alloc, Fault::System);
    for number in 0..size {
        error = error.with_span(span(number), "declared here")?;
    }
    Ok(error)
}

/// Returns a checksum of the spans of an error.
fn sum_of(error: &WithSpan<Fault>) -> u64 {
    let mut sum = 0;
    for context in error.spans() {
        sum = mixed(sum, context.0.end as u64);
    }
    sum
}

/// Times adding spans to an error.
pub fn on_error(rt: &HostRuntime, size: u32) -> Result<Sample, Fault> {
    let start = now(rt);
    let error = with_spans(rt.alloc(), size);
    let time = since(rt, start);
    match error {
        Ok(error) => Sample::of(size, Ok(0), sum_of(&error), time),
        Err(_) => Err(Fault::Memory),
    }
}
