//! Ranges of expressions.
ghost use Rattle.std.specs.Bool.{Decides};
ghost use Rattle.naga_json.specs.Range.{range_codec};

use naga_arena::Range;
use naga_ir::Expression;

/// Returns whether a range of expressions starts no later than it ends, at an index that a handle can have.
pub(crate) fn range_reads_back(range: &Range<Expression>) -> bool
    ensures { Decides result (range_codec.Fits range.now) }
{
    let range = range.index_range();
    range.start < u32::MAX && range.start <= range.end
}
