//! Types that a module declares for its built-in functions.
ghost use Rattle.std.specs.Prelude.{◌≡◌};
ghost use Rattle.naga_json_write.specs.Appends.{Appends};
ghost use Rattle.naga_json.specs.SpecialTypes.{special_types_codec, special_types_value};

use super::objects::{EmptyObject, write_object};
use crate::writer::Writer;
use naga_ir::SpecialTypes;
use std::alloc::AllocError;

/// Appends the special types of a module without its types of results, which have no JSON.
///
/// Differs from naga: naga fails if there are types of results. The caller tests for them.
pub(crate) fn write_special_types(
    out: &mut Writer,
    special: &SpecialTypes,
) -> Result<(), AllocError>
    ensures before { out.new.before ≡ out.old.before }
    ensures tokens { Appends result out.old out.new (special_types_codec.encode (special_types_value special.now)) }
{
    let fields = fields! {
        ("ray_desc", &special.ray_desc)
        ("ray_intersection", &special.ray_intersection)
        ("ray_vertex_return", &special.ray_vertex_return)
        ("external_texture_params", &special.external_texture_params)
        ("external_texture_transfer_function", &special.external_texture_transfer_function)
        ("predeclared_types", &EmptyObject)
    };
    write_object(out, &fields)
}
