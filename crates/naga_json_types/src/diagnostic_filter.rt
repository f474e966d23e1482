//! Diagnostic filters.
ghost use Rattle.std.specs.Prelude.{string_bytes};
ghost use Rattle.json.specs.Value.{value_view};
ghost use Rattle.naga_json_values.specs.Items.{item_at};
ghost use Rattle.naga_json.specs.Codec.{text_codec};
ghost use Rattle.naga_json.specs.Lists.{pair_codec};
ghost use Rattle.naga_json.specs.DiagnosticFilter.{rule_value, rule_codec, rule_rows, user_variant, filter_value, filter_codec, node_value, node_codec};
ghost use Rattle.naga_json.specs.Variants.{held_in};
ghost use Rattle.naga_json.specs.Objects.{choose, required_at};
ghost use Rattle.naga_json_values.specs.Reads.{Reads};

use json::Value;
use naga_json_values::handles::items_of_length;
use naga_json_values::objects::{field, holder};
use naga_json_values::text::read_text;
use naga_json_values::{Cause, Coded, read_struct};
use naga_kinds::{DiagnosticFilter, DiagnosticFilterNode, FilterableTriggeringRule};
use std::alloc::Global;

/// Reads a rule, which a filter is about.
pub fn read_rule(alloc: Global, value: &Value<'_>) -> Result<FilterableTriggeringRule, Cause>
    ensures { Reads rule_value result (rule_codec.decode (value_view value.now)) }
{
    let (name, held) = holder(value)?;
    read_held_rule(alloc, name, held)
}

/// Reads a rule by the name of its variant.
fn read_held_rule(
    alloc: Global,
    name: &str,
    held: &Value<'_>,
) -> Result<FilterableTriggeringRule, Cause>
    ensures { Reads rule_value result (choose (rule_rows (value_view held.now)) name.now) }
{
    match name {
        "Standard" => Ok(FilterableTriggeringRule::Standard(Coded::read_value(held)?)),
        "Unknown" => Ok(FilterableTriggeringRule::Unknown(read_text(alloc, held)?)),
        "User" => read_user_rule(alloc, held),
        _ => Err(Cause::UnknownVariant),
    }
}

/// Reads a list of two strings.
fn text_pair(alloc: Global, value: &Value<'_>) -> Result<(String, String), Cause>
    ensures { Reads (λ pair. (string_bytes pair.0, string_bytes pair.1)) result
        ((pair_codec text_codec).decode (value_view value.now)) }
{
    let items = items_of_length(value, 2)?;
    let first = text_at(alloc, items, 0)?;
    let second = text_at(alloc, items, 1)?;
    Ok((first, second))
}

/// Reads a `User`.
fn read_user_rule(alloc: Global, held: &Value<'_>) -> Result<FilterableTriggeringRule, Cause>
    ensures { Reads rule_value result (held_in user_variant (value_view held.now)) }
{
    let (tool, rule) = text_pair(alloc, held)?;
    Ok(FilterableTriggeringRule::User(tool, rule))
}

/// Reads the string at a position of a list.
fn text_at(alloc: Global, value: &Value<'_>, position: usize) -> Result<String, Cause>
    ensures { Reads string_bytes result (item_at text_codec.decode position (value_view value.now)) }
{
    read_text(alloc, value.at(position).ok_or(Cause::List)?)
}

/// Reads the rule in a field.
fn rule_field(
    alloc: Global,
    value: &Value<'_>,
    name: &str,
) -> Result<FilterableTriggeringRule, Cause>
    ensures { Reads rule_value result (required_at rule_codec.decode name.now (value_view value.now)) }
{
    read_rule(alloc, field(value, name)?)
}

/// Reads a filter.
#[tactic(auto, unfolding(naga_json::specs::Fields::struct_in))]
pub fn read_filter(alloc: Global, value: &Value<'_>) -> Result<DiagnosticFilter, Cause>
    ensures { Reads filter_value result (filter_codec.decode (value_view value.now)) }
{
    read_struct! { value => DiagnosticFilter { new_severity, triggering_rule: rule_field(alloc) } }
}

/// Reads the filter in a field.
fn filter_field(alloc: Global, value: &Value<'_>, name: &str) -> Result<DiagnosticFilter, Cause>
    ensures { Reads filter_value result (required_at filter_codec.decode name.now (value_view value.now)) }
{
    read_filter(alloc, field(value, name)?)
}

/// Reads a filter with the one that it is added to.
#[tactic(auto, unfolding(naga_json::specs::Fields::struct_in))]
pub fn read_filter_node(alloc: Global, value: &Value<'_>) -> Result<DiagnosticFilterNode, Cause>
    ensures { Reads node_value result (node_codec.decode (value_view value.now)) }
{
    read_struct! { value => DiagnosticFilterNode { inner: filter_field(alloc), parent } }
}
