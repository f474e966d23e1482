//! Ranges of expressions, which are written as objects of their bounds.
ghost use Rattle.std.specs.Prelude.{◌≡◌, Some, None, cond, nat_le};
ghost use Rattle.std.specs.Result.{result_ok};
ghost use Rattle.naga_json.specs.Range.{range_codec};

use crate::cause::Cause;
use crate::objects::fields;
use crate::parts::{Coded, Field};
use json::Value;
use naga_arena::{Handle, KindHandle, KindRange, Range};
use naga_ir::Expression;

impl Coded for Range<Expression> {
    ghost codec = { range_codec };

    #[tactic(auto, unfolding(naga_json::specs::Fields::struct_in))]
    fn read_value(value: &Value<'_>) -> Result<Self, Cause> {
        let value = fields(value, &["start", "end"])?;
        let first = Field::read_field(value, "start")?;
        let last = Field::read_field(value, "end")?;
        range_between(first, last)
    }
}

/// Returns the range of these bounds.
fn range_between(first: Handle<Expression>, last: u32) -> Result<Range<Expression>, Cause>
    ensures { result_ok result ≡ cond (nat_le first last) (Some (first, last)) None }
{
    let end = last as usize;
    if first.index() > end {
        return Err(Cause::Range);
    }
    if end == 0 {
        return Ok(KindRange::up_to(0));
    }
    Ok(KindRange::new_from_bounds(first, KindHandle::at(end - 1)))
}
