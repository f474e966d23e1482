//! Sets of flags, which are written as the names of the flags with bars between them.
ghost use Rattle.std.specs.Prelude.{◌≡◌, ◌≤◌, ◌++◌, IfOk, length};
ghost use Rattle.json.specs.Json.{string};
ghost use Rattle.naga_json_write.specs.Appends.{Appends};
ghost use Rattle.naga_json.specs.Flags.{bar_after, hexadecimal, names_text, with_other_bits};
ghost use Rattle.naga_json.specs.FlagSets.{barrier_codec, barriers, memory_decorations, memory_decorations_codec, storage_access_codec, storage_accesses};
ghost use Rattle.naga_json_write.specs.Encoding.{direct};

use crate::to_json::ToJson;
use crate::writer::Writer;
use arrayvec::ArrayString;
use bitflags::Flags;
use naga_kinds::{Barrier, MemoryDecorations, StorageAccess};
use std::alloc::AllocError;
use std::fmt::Write;

/// Returns the bar after names, if there are any.
fn bar_after_names(names: &str) -> &'static str
    ensures text { result.now ≡ bar_after names.now }
    ensures fits { length result.now ≤ 3 }
{
    if names.is_empty() { "" } else { " | " }
}

/// Returns names, and after them the bits that have no name, with a bar between them.
fn text_of_flags(names: &str, others: u32) -> Result<ArrayString<64>, AllocError>
    requires { length names.now ≤ 42 }
    ensures { IfOk result (λ text. text.bytes
        ≡ names.now ++ bar_after names.now ++ hexadecimal others) }
{
    let mut text: ArrayString<64> = ArrayString::new();
    text.push_str(names);
    text.push_str(bar_after_names(names));
    text.push_str("0x");
    // There are at most 8 digits, so they fit.
    match write!(text, "{others:x}") {
        Ok(()) => Ok(text),
        Err(_) => Err(AllocError),
    }
}

/// Appends names, and after them the bits that have no name.
fn write_flags(out: &mut Writer, names: &str, others: u32) -> Result<(), AllocError>
    requires { length names.now ≤ 42 }
    ensures before { out.new.before ≡ out.old.before }
    ensures tokens { Appends result out.old out.new (string (with_other_bits names.now others)) }
{
    if others == 0 {
        out.string(names)
    } else {
        let text = text_of_flags(names, others)?;
        out.string(text.as_str())
    }
}

/// Returns the names of the accesses to an image or a buffer, with bars between them.
fn storage_access_names(value: StorageAccess) -> &'static str
    ensures text { result.now ≡ names_text storage_accesses value.0 }
    ensures fits { length result.now ≤ 42 }
{
    match (
        value.contains(StorageAccess::LOAD),
        value.contains(StorageAccess::STORE),
        value.contains(StorageAccess::ATOMIC),
    ) {
        (false, false, false) => "",
        (false, false, true) => "ATOMIC",
        (false, true, false) => "STORE",
        (false, true, true) => "STORE | ATOMIC",
        (true, false, false) => "LOAD",
        (true, false, true) => "LOAD | ATOMIC",
        (true, true, false) => "LOAD | STORE",
        (true, true, true) => "LOAD | STORE | ATOMIC",
    }
}

impl ToJson for StorageAccess {
    ghost encoding = { direct storage_access_codec.encode };

    fn write(&self, out: &mut Writer) -> Result<(), AllocError> {
        let others = self.difference(StorageAccess::all()).bits();
        write_flags(out, storage_access_names(*self), others)
    }
}

/// Returns the names of memory decorations, with bars between them.
fn memory_decorations_names(value: MemoryDecorations) -> &'static str
    ensures text { result.now ≡ names_text memory_decorations value.0 }
    ensures fits { length result.now ≤ 42 }
{
    match (
        value.contains(MemoryDecorations::COHERENT),
        value.contains(MemoryDecorations::VOLATILE),
    ) {
        (false, false) => "",
        (false, true) => "VOLATILE",
        (true, false) => "COHERENT",
        (true, true) => "COHERENT | VOLATILE",
    }
}

impl ToJson for MemoryDecorations {
    ghost encoding = { direct memory_decorations_codec.encode };

    fn write(&self, out: &mut Writer) -> Result<(), AllocError> {
        let others = self.difference(MemoryDecorations::all()).bits();
        write_flags(out, memory_decorations_names(*self), u32::from(others))
    }
}

/// Returns the names of the accesses that a barrier orders, with bars between them.
fn barrier_names(value: Barrier) -> &'static str
    ensures text { result.now ≡ names_text barriers value.0 }
    ensures fits { length result.now ≤ 42 }
{
    match (
        value.contains(Barrier::STORAGE),
        value.contains(Barrier::WORK_GROUP),
        value.contains(Barrier::SUB_GROUP),
        value.contains(Barrier::TEXTURE),
    ) {
        (false, false, false, false) => "",
        (false, false, false, true) => "TEXTURE",
        (false, false, true, false) => "SUB_GROUP",
        (false, false, true, true) => "SUB_GROUP | TEXTURE",
        (false, true, false, false) => "WORK_GROUP",
        (false, true, false, true) => "WORK_GROUP | TEXTURE",
        (false, true, true, false) => "WORK_GROUP | SUB_GROUP",
        (false, true, true, true) => "WORK_GROUP | SUB_GROUP | TEXTURE",
        (true, false, false, false) => "STORAGE",
        (true, false, false, true) => "STORAGE | TEXTURE",
        (true, false, true, false) => "STORAGE | SUB_GROUP",
        (true, false, true, true) => "STORAGE | SUB_GROUP | TEXTURE",
        (true, true, false, false) => "STORAGE | WORK_GROUP",
        (true, true, false, true) => "STORAGE | WORK_GROUP | TEXTURE",
        (true, true, true, false) => "STORAGE | WORK_GROUP | SUB_GROUP",
        (true, true, true, true) => "STORAGE | WORK_GROUP | SUB_GROUP | TEXTURE",
    }
}

impl ToJson for Barrier {
    ghost encoding = { direct barrier_codec.encode };

    fn write(&self, out: &mut Writer) -> Result<(), AllocError> {
        let others = self.difference(Barrier::all()).bits();
        write_flags(out, barrier_names(*self), others)
    }
}
