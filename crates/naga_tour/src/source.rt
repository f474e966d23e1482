//! The text of the shader, and functions that use the span of a part of it.
ghost use Rattle.std.specs.Prelude.{◌<◌, ◌≤◌, length, IfOk};

use anyhow::Result;
use naga_proc::ir::Expression;
use naga_proc::{Arena, Handle, Span};

/// The text that [`text`] returns.
const SOURCE: &str = "override LEN: u32 = 4;
override DEPTH: u32;
const SCALE: u32 = 3;
@group(0) @binding(0) var<storage, read_write> sums: array<u32, LEN>;
var<workgroup> depths: array<u32, DEPTH>;

fn scaled(amount: u32) -> u32 {
    return amount * SCALE;
}

@fragment
fn tally(@location(0) kind: u32, @location(1) amount: u32) {
    if amount == 0 { discard; }
    let more = scaled(amount);
    loop {
        sums[kind] = sums[kind] + more;
        continuing { break if sums[kind] > SCALE; }
    }
    switch kind {
        case 0: { sums[1] = more; }
        default: { break; }
    }
}
";

/// Returns the shader as a front end would read it.
///
/// It is returned by a function so that no other proof has to handle the long constant.
pub fn text() -> &'static str {
    SOURCE
}

/// Returns the span of the first occurrence of this part of the text, or `UNDEFINED` if the text has no such part.
pub fn span_of(part: &str) -> Span {
    find(part).unwrap_or(Span::UNDEFINED)
}

/// Returns the span of the first occurrence of this part of the text, or `None` if there is none. Also returns `None`
/// if a position does not fit in 32 bits, because no span has such a position.
fn find(part: &str) -> Option<Span> {
    let start = text().find(part)?;
    let end = start.checked_add(part.len())?;
    Span::try_from(start..end).ok()
}

/// Appends an expression with the span of this part of the text. The returned handle is in the arena.
pub fn append(
    expressions: &mut Arena<Expression>,
    expression: Expression,
    part: &str,
) -> Result<Handle<Expression>>
    ensures handle { IfOk result (λ handle. handle < length expressions.new) }
    ensures grown { length expressions.old ≤ length expressions.new }
{
    let handle = expressions.append(expression, span_of(part))?;
    Ok(handle)
}
