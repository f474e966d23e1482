//! Maps, which are written as objects whose keys are numbers in decimal.
ghost use Rattle.json.specs.Token.{key as key_token};
ghost use Rattle.std.specs.Prelude.{◌≡◌, ◌∷◌, [], ◌++◌, decimal, OnOk};
ghost use Rattle.naga_json_write.specs.Appends.{append_json, append_members};
ghost use Rattle.naga_json.specs.Maps.{entry_fields};
ghost use Rattle.naga_json.specs.Objects.{members_of};
ghost use Rattle.naga_json_write.specs.Encoding.{json_of, map_encoding};

use super::objects::write_field;
use crate::to_json::{ToJson, copied};
use crate::writer::Writer;
use indexmap::IndexMap;
use itoa::Buffer;
use naga_arena::KindHandle;
use std::alloc::AllocError;

/// Appends an entry of a map.
fn write_entry<V: ToJson>(out: &mut Writer, number: usize, value: &V) -> Result<(), AllocError>
    ensures before { out.new.before ≡ out.old.before }
    ensures tokens { OnOk result (out.new.tokens
        ≡ append_json (out.old.tokens ++ key_token (decimal number) ∷ []) (json_of V.encoding value.now)) }
{
    let mut buffer = Buffer::new();
    write_field(out, buffer.format(number), value)
}

/// Appends the entries of a map whose keys are handles, and after them the end of an object.
fn write_entries<K, V: ToJson>(
    out: &mut Writer,
    entries: &IndexMap<KindHandle<K>, V>,
) -> Result<(), AllocError>
    ensures before { out.new.before ≡ out.old.before }
    ensures tokens { OnOk result (out.new.tokens
        ≡ append_members out.old.tokens (members_of (entry_fields (json_of V.encoding) entries.now.entries))) }
{
    'entries: for (key, value) in entries.iter() {
        write_entry(out, copied(key).index(), value)?;
    }
    out.end_object()
}

#[tactic(auto, using(crate::proofs::EncodingLemmas::map_entries))]
impl<K, V: ToJson> ToJson for IndexMap<KindHandle<K>, V> {
    ghost encoding = { map_encoding V.encoding };

    fn write(&self, out: &mut Writer) -> Result<(), AllocError> {
        out.begin_object()?;
        write_entries(out, self)
    }
}

/// Appends the entries of a map whose keys are positions, and after them the end of an object.
fn write_positions<V: ToJson>(
    out: &mut Writer,
    entries: &IndexMap<usize, V>,
) -> Result<(), AllocError>
    ensures before { out.new.before ≡ out.old.before }
    ensures tokens { OnOk result (out.new.tokens
        ≡ append_members out.old.tokens (members_of (entry_fields (json_of V.encoding) entries.now.entries))) }
{
    'entries: for (position, value) in entries.iter() {
        write_entry(out, *position, value)?;
    }
    out.end_object()
}

#[tactic(auto, using(crate::proofs::EncodingLemmas::map_entries))]
impl<V: ToJson> ToJson for IndexMap<usize, V> {
    ghost encoding = { map_encoding V.encoding };

    fn write(&self, out: &mut Writer) -> Result<(), AllocError> {
        out.begin_object()?;
        write_positions(out, self)
    }
}
