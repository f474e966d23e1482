//! Types.
ghost use Rattle.naga_ir.specs.Types.{type_of};
ghost use Rattle.naga_json.specs.Types.{type_codec};
ghost use Rattle.naga_json_write.specs.Encoding.{by_view};

use crate::to_json::ToJson;
use crate::writer::Writer;
use naga_ir::Type;
use std::alloc::AllocError;

impl ToJson for Type {
    ghost encoding = { by_view type_of type_codec.encode };

    fn write(&self, out: &mut Writer) -> Result<(), AllocError> {
        write_struct! { self, out; name, inner }
    }
}
