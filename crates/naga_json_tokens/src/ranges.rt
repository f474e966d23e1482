//! Ranges of expressions, which are written as objects of their bounds.
ghost use Rattle.std.specs.Prelude.{◌≡◌, ℕ, IfSome, Some, None, cond, nat_le};
ghost use Rattle.naga_json.specs.Fields.{struct_in};
ghost use Rattle.naga_json.specs.Range.{range_codec, range_fields};
ghost use Rattle.naga_json_tokens.specs.Takes.{Takes};

use crate::parts::Parts;
use crate::reader::Reader;
use crate::tokens::take_begin;
use crate::values::Take;
use naga_arena::{Handle, KindHandle, KindRange, Range};
use naga_ir::Expression;
use std::alloc::Global;

/// Takes the bounds of a range.
#[tactic(auto, using(crate::proofs::TakesPartsLemmas::takes_struct), unfolding(naga_json::specs::Fields::struct_in))]
fn take_bounds(alloc: Global, reader: &mut Reader<'_>) -> Option<(Handle<Expression>, u32)>
    ensures { IfSome result (λ found. Takes {A = ℕ × ℕ} (struct_in range_fields (λ parts. (parts.0, parts.1.0)))
        (found.0, found.1) reader.old reader.new) }
{
    take_begin(reader)?;
    let (first, (last, ())) = Parts::take_parts(alloc, reader, &["start", "end"])?;
    Some((first, last))
}

/// Returns the range of these bounds.
fn range_between(first: Handle<Expression>, last: u32) -> Option<Range<Expression>>
    ensures { result ≡ cond (nat_le first last) (Some (first, last)) None }
{
    let end = last as usize;
    if first.index() > end {
        return None;
    }
    if end == 0 {
        return Some(KindRange::up_to(0));
    }
    Some(KindRange::new_from_bounds(first, KindHandle::at(end - 1)))
}

impl Take for Range<Expression> {
    ghost use Rattle.std.specs.Prelude.{ℕ};

    ghost Meaning = { ℕ × ℕ };

    ghost value_of = { λ value. value };

    ghost meaning = { range_codec.decode };

    #[tactic(auto, using(crate::proofs::TakesMapLemmas::takes_map))]
    fn take(alloc: Global, reader: &mut Reader<'_>) -> Option<Self> {
        let (first, last) = take_bounds(alloc, reader)?;
        range_between(first, last)
    }
}
