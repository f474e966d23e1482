//! Diagnostic filters.
ghost use Rattle.std.specs.Prelude.{◌≡◌, string_bytes};
ghost use Rattle.naga_json_write.specs.Appends.{Appends};
ghost use Rattle.naga_json.specs.DiagnosticFilter.{filter_codec, filter_value, node_codec, node_value, rule_codec, rule_value, user_variant};
ghost use Rattle.naga_json.specs.Variants.{held_json};
ghost use Rattle.naga_json_write.specs.Encoding.{by_view};

use super::objects::write_holder;
use crate::to_json::ToJson;
use crate::writer::Writer;
use naga_kinds::{DiagnosticFilter, DiagnosticFilterNode, FilterableTriggeringRule};
use std::alloc::AllocError;

/// Appends a `User`.
fn write_user(out: &mut Writer, tool: &String, name: &String) -> Result<(), AllocError>
    ensures before { out.new.before ≡ out.old.before }
    ensures tokens { Appends result out.old out.new
        (held_json user_variant (string_bytes tool.now, string_bytes name.now)) }
{
    out.begin_object()?;
    out.key("User")?;
    out.begin_array()?;
    tool.write(out)?;
    name.write(out)?;
    out.end_array()?;
    out.end_object()
}

impl ToJson for FilterableTriggeringRule {
    ghost encoding = { by_view rule_value rule_codec.encode };

    fn write(&self, out: &mut Writer) -> Result<(), AllocError> {
        match self {
            FilterableTriggeringRule::Standard(known) => write_holder(out, "Standard", known),
            FilterableTriggeringRule::Unknown(name) => write_holder(out, "Unknown", name),
            FilterableTriggeringRule::User(tool, name) => write_user(out, tool, name),
        }
    }
}

impl ToJson for DiagnosticFilter {
    ghost encoding = { by_view filter_value filter_codec.encode };

    fn write(&self, out: &mut Writer) -> Result<(), AllocError> {
        write_struct! { self, out; new_severity, triggering_rule }
    }
}

impl ToJson for DiagnosticFilterNode {
    ghost encoding = { by_view node_value node_codec.encode };

    fn write(&self, out: &mut Writer) -> Result<(), AllocError> {
        write_struct! { self, out; inner, parent }
    }
}
