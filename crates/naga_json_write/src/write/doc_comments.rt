//! Doc comments.
ghost use Rattle.std.specs.Prelude.{◌≡◌};
ghost use Rattle.naga_json.specs.DocComments.{comments_value, doc_comments_codec};
ghost use Rattle.naga_json_write.specs.Appends.{Appends};

use super::objects::{EmptyObject, write_object};
use crate::writer::Writer;
use naga_ir::DocComments;
use std::alloc::AllocError;

/// Appends doc comments. Those on members of structures are left out.
pub(crate) fn write_doc_comments(out: &mut Writer, comments: &DocComments) -> Result<(), AllocError>
    ensures before { out.new.before ≡ out.old.before }
    ensures tokens { Appends result out.old out.new (doc_comments_codec.encode (comments_value comments.now)) }
{
    let fields = fields! {
        ("types", &comments.types)
        ("struct_members", &EmptyObject)
        ("entry_points", &comments.entry_points)
        ("functions", &comments.functions)
        ("constants", &comments.constants)
        ("global_variables", &comments.global_variables)
        ("module", &comments.module)
    };
    write_object(out, &fields)
}
