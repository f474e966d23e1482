//! Lists of values of one type.
ghost use Rattle.std.specs.Prelude.{◌≡◌, ◌≢◌, map, OnOk, IfErr};
ghost use Rattle.naga_json_write.specs.Appends.{Appends, append_items};
ghost use Rattle.naga_json_write.specs.Lists.{AppendsItems, HasNoItems};
ghost use Rattle.naga_json.specs.Form.{IsList};
ghost use Rattle.naga_json.specs.Lists.{items_of, list_json};
ghost use Rattle.naga_json_write.specs.declared.write_error.TryWriteError.TheVariants.{Memory};
ghost use Rattle.naga_json_write.specs.Encoding.{by_form, json_of, list_encoding};

use crate::to_json::{ToJson, TryToJson};
use crate::write_error::TryWriteError;
use crate::writer::Writer;
use std::alloc::AllocError;

/// Appends values, and after them the end of a list.
fn write_items<T: ToJson>(out: &mut Writer, values: &[T]) -> Result<(), AllocError>
    ensures before { out.new.before ≡ out.old.before }
    ensures tokens { OnOk result (out.new.tokens
        ≡ append_items out.old.tokens (items_of (map (json_of T.encoding) values.now))) }
{
    for value in values {
        value.write(out)?;
    }
    out.end_array()
}

/// Appends a list.
pub(crate) fn write_list<T: ToJson>(out: &mut Writer, values: &[T]) -> Result<(), AllocError>
    ensures before { out.new.before ≡ out.old.before }
    ensures tokens { Appends result out.old out.new (list_json (json_of T.encoding) values.now) }
{
    out.begin_array()?;
    write_items(out, values)
}

#[tactic(auto, using(crate::proofs::EncodingLemmas::list_items))]
impl<T: ToJson> ToJson for Vec<T> {
    ghost encoding = { list_encoding T.encoding };

    fn write(&self, out: &mut Writer) -> Result<(), AllocError> {
        write_list(out, self.as_slice())
    }
}

/// Appends values that may have no JSON, and after them the end of a list.
fn try_write_items<T: TryToJson>(out: &mut Writer, values: &[T]) -> Result<(), TryWriteError>
    ensures before { out.new.before ≡ out.old.before }
    ensures written { OnOk result
        (AppendsItems T.writing.Writes (map T.writing.value_of values.now) out.old.tokens out.new.tokens) }
    ensures refused { IfErr result
        (λ error. error ≢ Memory → HasNoItems T.writing.Writes (map T.writing.value_of values.now)) }
{
    for value in values {
        value.try_write(out)?;
    }
    Ok(out.end_array()?)
}

impl<T: TryToJson> TryToJson for Vec<T> {
    ghost writing = { by_form (λ list. map T.writing.value_of list.items) (IsList T.writing.Writes) };

    fn try_write(&self, out: &mut Writer) -> Result<(), TryWriteError> {
        out.begin_array()?;
        try_write_items(out, self.as_slice())
    }
}
