//! Arenas, which are written as lists of their values, without spans.
ghost use Rattle.std.specs.Prelude.{◌≡◌, ◌≢◌, map, OnOk, IfErr};
ghost use Rattle.naga_json_write.specs.Appends.{append_items};
ghost use Rattle.naga_json_write.specs.Lists.{AppendsItems, HasNoItems, IsArenaJson};
ghost use Rattle.naga_json.specs.Arenas.{arena_value};
ghost use Rattle.naga_json.specs.Lists.{items_of};
ghost use Rattle.naga_json_write.specs.declared.write_error.TryWriteError.TheVariants.{Memory};
ghost use Rattle.naga_json_write.specs.Encoding.{arena_encoding, by_form, json_of};

use crate::to_json::{ToJson, TryToJson};
use crate::write_error::TryWriteError;
use crate::writer::Writer;
use naga_arena::{Arena, ArenaIter, KindName, UniqueArena};
use std::alloc::AllocError;
use std::hash::Hash;

/// Appends values, and after them the end of a list.
fn write_entries<T: ToJson + KindName>(
    out: &mut Writer,
    entries: ArenaIter<'_, T>,
) -> Result<(), AllocError>
    ensures before { out.new.before ≡ out.old.before }
    ensures tokens { OnOk result (out.new.tokens
        ≡ append_items out.old.tokens (items_of (map (json_of T.encoding) (map (λ entry. entry.1) entries.entry)))) }
{
    for (_, value) in entries {
        value.write(out)?;
    }
    out.end_array()
}

#[tactic(auto, using(crate::proofs::ArenasLemmas::values_of_entries, crate::proofs::EncodingLemmas::arena_values))]
impl<T: ToJson + KindName> ToJson for Arena<T> {
    ghost encoding = { arena_encoding T.encoding };

    fn write(&self, out: &mut Writer) -> Result<(), AllocError> {
        out.begin_array()?;
        write_entries(out, self.iter())
    }
}

#[tactic(auto, using(crate::proofs::ArenasLemmas::values_of_entries, crate::proofs::EncodingLemmas::arena_values))]
impl<T: ToJson + Eq + Hash + KindName> ToJson for UniqueArena<T> {
    ghost encoding = { arena_encoding T.encoding };

    fn write(&self, out: &mut Writer) -> Result<(), AllocError> {
        out.begin_array()?;
        write_entries(out, self.iter())
    }
}

/// Appends values that may have no JSON, and after them the end of a list.
fn try_write_entries<T: TryToJson + KindName>(
    out: &mut Writer,
    entries: ArenaIter<'_, T>,
) -> Result<(), TryWriteError>
    ensures before { out.new.before ≡ out.old.before }
    ensures written { OnOk result
        (AppendsItems T.writing.Writes (map T.writing.value_of (map (λ entry. entry.1) entries.entry)) out.old.tokens out.new.tokens) }
    ensures refused { IfErr result
        (λ error. error ≢ Memory → HasNoItems T.writing.Writes (map T.writing.value_of (map (λ entry. entry.1) entries.entry))) }
{
    for (_, value) in entries {
        value.try_write(out)?;
    }
    Ok(out.end_array()?)
}

#[tactic(auto, using(crate::proofs::ArenasLemmas::values_of_entries))]
impl<T: TryToJson + KindName> TryToJson for Arena<T> {
    ghost writing = { by_form (arena_value T.writing.value_of) (IsArenaJson T.writing.Writes) };

    fn try_write(&self, out: &mut Writer) -> Result<(), TryWriteError> {
        out.begin_array()?;
        try_write_entries(out, self.iter())
    }
}
