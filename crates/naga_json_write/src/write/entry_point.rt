//! Entry points.
ghost use Rattle.naga_json.specs.EntryPoint.{entry_point_form, entry_point_value};
ghost use Rattle.naga_json.specs.Lists.{array_codec};
ghost use Rattle.naga_json.specs.Codec.{handle_codec, option_codec, word_codec};
ghost use Rattle.naga_json_write.specs.Encoding.{by_form, direct};

use super::lists::write_list;
use super::objects::{try_write_field, write_field};
use crate::to_json::{ToJson, TryToJson};
use crate::write_error::TryWriteError;
use crate::writer::Writer;
use naga_arena::Handle;
use naga_ir::{EntryPoint, Expression};
use std::alloc::AllocError;

impl ToJson for [u32; 3] {
    ghost encoding = { direct (array_codec 3 word_codec).encode };

    fn write(&self, out: &mut Writer) -> Result<(), AllocError> {
        write_list(out, self.as_slice())
    }
}

impl ToJson for [Option<Handle<Expression>>; 3] {
    ghost encoding = { direct (array_codec 3 (option_codec handle_codec)).encode };

    fn write(&self, out: &mut Writer) -> Result<(), AllocError> {
        write_list(out, self.as_slice())
    }
}

impl TryToJson for EntryPoint {
    ghost writing = { by_form entry_point_value entry_point_form.Writes };

    fn try_write(&self, out: &mut Writer) -> Result<(), TryWriteError> {
        out.begin_object()?;
        write_field(out, "name", &self.name)?;
        write_field(out, "stage", &self.stage)?;
        write_field(out, "early_depth_test", &self.early_depth_test)?;
        write_field(out, "workgroup_size", &self.workgroup_size)?;
        write_field(
            out,
            "workgroup_size_overrides",
            &self.workgroup_size_overrides,
        )?;
        try_write_field(out, "function", &self.function)?;
        write_field(out, "mesh_info", &self.mesh_info)?;
        write_field(out, "task_payload", &self.task_payload)?;
        write_field(out, "incoming_ray_payload", &self.incoming_ray_payload)?;
        Ok(out.end_object()?)
    }
}
