//! Objects: structs with named fields, and variants that hold a value.
ghost use Rattle.json.specs.Json.{Json};
ghost use Rattle.json.specs.Token.{begin_object, end_object, key};
ghost use Rattle.std.specs.Prelude.{◌≡◌, ◌∷◌, [], ◌++◌, OnOk};
ghost use Rattle.naga_json_write.specs.Appends.{Appends, append_fields, append_json};
ghost use Rattle.naga_json_write.specs.Objects.{HoldsSome, fields_json, holder_json};
ghost use Rattle.naga_json_write.specs.Writes.{AppendsSome, Refuses};
ghost use Rattle.naga_json_write.specs.Encoding.{direct, field_of, json_of};

use crate::to_json::{ToJson, TryToJson};
use crate::write_error::TryWriteError;
use crate::writer::Writer;
use std::alloc::AllocError;

/// Appends a field of an object.
pub(crate) fn write_field<T: ToJson>(
    out: &mut Writer,
    name: &str,
    value: &T,
) -> Result<(), AllocError>
    ensures before { out.new.before ≡ out.old.before }
    ensures tokens { OnOk result (out.new.tokens
        ≡ append_json (out.old.tokens ++ key name.now ∷ []) (json_of T.encoding value.now)) }
{
    out.key(name)?;
    value.write(out)
}

/// Fields of an object: `()`, or a field, as its name and its value, and the fields after it.
pub(crate) trait Fields {
    ghost use Rattle.std.specs.Prelude.{ℕ, List};
    ghost use Rattle.json.specs.Json.{Json};

    // The name and the JSON of each field.
    ghost fields: { Self → List (List ℕ × Json) };

    /// Appends the fields.
    fn write_each(&self, out: &mut Writer) -> Result<(), AllocError>
        ensures before { out.new.before ≡ out.old.before }
        ensures tokens { OnOk result (out.new.tokens ≡ append_fields out.old.tokens (fields self.now)) };
}

impl Fields for () {
    ghost fields = { λ none. [] };

    fn write_each(&self, _out: &mut Writer) -> Result<(), AllocError> {
        Ok(())
    }
}

impl<T: ToJson, F: Fields> Fields for ((&str, &T), F) {
    ghost fields = { λ given. field_of T.encoding given.0 ∷ F.fields given.1 };

    fn write_each(&self, out: &mut Writer) -> Result<(), AllocError> {
        write_field(out, self.0.0, self.0.1)?;
        self.1.write_each(out)
    }
}

/// Appends an object with these fields.
#[tactic(auto, using(crate::proofs::AppendsLemmas::append_object))]
pub(crate) fn write_object<F: Fields>(out: &mut Writer, fields: &F) -> Result<(), AllocError>
    ensures before { out.new.before ≡ out.old.before }
    ensures tokens { Appends result out.old out.new (fields_json (F.fields fields.now)) }
{
    out.begin_object()?;
    fields.write_each(out)?;
    out.end_object()
}

/// An object without members.
pub(crate) struct EmptyObject;

impl ToJson for EmptyObject {
    ghost encoding = { direct (λ empty. fields_json []) };

    fn write(&self, out: &mut Writer) -> Result<(), AllocError> {
        write_object(out, &())
    }
}

/// Appends a variant that holds these fields.
pub(crate) fn write_struct_variant<F: Fields>(
    out: &mut Writer,
    name: &str,
    fields: &F,
) -> Result<(), AllocError>
    ensures before { out.new.before ≡ out.old.before }
    ensures tokens { Appends result out.old out.new (holder_json name.now (fields_json (F.fields fields.now))) }
{
    out.begin_object()?;
    out.key(name)?;
    write_object(out, fields)?;
    out.end_object()
}

/// Appends a variant that holds a value.
pub(crate) fn write_holder<T: ToJson>(
    out: &mut Writer,
    name: &str,
    held: &T,
) -> Result<(), AllocError>
    ensures before { out.new.before ≡ out.old.before }
    ensures tokens { Appends result out.old out.new (holder_json name.now (json_of T.encoding held.now)) }
{
    out.begin_object()?;
    write_field(out, name, held)?;
    out.end_object()
}

/// Appends the beginning of a variant that holds an object.
pub(crate) fn begin_variant(out: &mut Writer, name: &str) -> Result<(), AllocError>
    ensures before { out.new.before ≡ out.old.before }
    ensures tokens { OnOk result (out.new.tokens
        ≡ ((out.old.tokens ++ begin_object ∷ []) ++ key name.now ∷ []) ++ begin_object ∷ []) }
{
    out.begin_object()?;
    out.key(name)?;
    out.begin_object()
}

/// Appends the end of a variant that holds an object.
pub(crate) fn end_variant(out: &mut Writer) -> Result<(), AllocError>
    ensures before { out.new.before ≡ out.old.before }
    ensures tokens { OnOk result (out.new.tokens
        ≡ (out.old.tokens ++ end_object ∷ []) ++ end_object ∷ []) }
{
    out.end_object()?;
    out.end_object()
}

/// Appends a field of an object, whose value may have no JSON.
pub(crate) fn try_write_field<T: TryToJson>(
    out: &mut Writer,
    name: &str,
    value: &T,
) -> Result<(), TryWriteError>
    ensures before { out.new.before ≡ out.old.before }
    ensures written { OnOk result ((j : Json) × T.writing.Writes (T.writing.value_of value.now) j
        × (out.new.tokens ≡ append_json (out.old.tokens ++ key name.now ∷ []) j)) }
    ensures refused { Refuses (T.writing.Writes (T.writing.value_of value.now)) result }
{
    out.key(name)?;
    value.try_write(out)
}

/// Appends a variant that holds a value, which may have no JSON.
pub(crate) fn try_write_holder<T: TryToJson>(
    out: &mut Writer,
    name: &str,
    held: &T,
) -> Result<(), TryWriteError>
    ensures before { out.new.before ≡ out.old.before }
    ensures written { AppendsSome (HoldsSome name.now (T.writing.Writes (T.writing.value_of held.now))) result out.old out.new }
    ensures refused { Refuses (HoldsSome name.now (T.writing.Writes (T.writing.value_of held.now))) result }
{
    out.begin_object()?;
    try_write_field(out, name, held)?;
    Ok(out.end_object()?)
}
