//! Lists of handles.
ghost use Rattle.std.specs.Prelude.{IfSome};
ghost use Rattle.naga_json.specs.Codec.{handle_codec};
ghost use Rattle.naga_json.specs.Lists.{list_codec};
ghost use Rattle.naga_json_tokens.specs.Takes.{Takes};

use crate::reader::Reader;
use crate::tokens::take_begin_list;
use crate::values::Take;
use naga_arena::KindHandle;
use std::alloc::Global;

/// Takes a list of handles.
#[tactic(auto, using(crate::proofs::TakesListsLemmas::takes_more_items, crate::proofs::TakesListsLemmas::takes_list, crate::proofs::TakesListsLemmas::takes_shorter))]
fn take_handles<K>(alloc: Global, reader: &mut Reader<'_>) -> Option<Vec<KindHandle<K>>>
    ensures { IfSome result (λ found. Takes (list_codec handle_codec).decode found.items reader.old reader.new) }
{
    take_begin_list(reader)?;
    let mut found = Vec::new(alloc);
    'items: while !reader.take_end_array() {
        let handle = KindHandle::<K>::take(alloc, reader)?;
        if found.push(handle).is_err() {
            return None;
        }
    }
    Some(found)
}

impl<K> Take for Vec<KindHandle<K>> {
    ghost use Rattle.std.specs.Prelude.{List, ℕ};

    ghost Meaning = { List ℕ };

    ghost value_of = { λ list. list.items };

    ghost meaning = { (list_codec handle_codec).decode };

    fn take(alloc: Global, reader: &mut Reader<'_>) -> Option<Self> {
        take_handles::<K>(alloc, reader)
    }
}
