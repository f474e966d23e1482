//! What is read by functions of the crates below, by the trait [`FromJson`].
ghost use Rattle.naga_ir.specs.Types.{type_of};
ghost use Rattle.naga_json.specs.Block.{block_codec, statement_codec};
ghost use Rattle.naga_json.specs.DiagnosticFilter.{filter_codec, filter_value, node_codec, node_value, rule_codec, rule_value};
ghost use Rattle.naga_json.specs.SpecialTypes.{special_types_codec, special_types_value};
ghost use Rattle.naga_json.specs.StatementValue.{value_of_block, value_of_statement};
ghost use Rattle.naga_json.specs.Types.{type_codec};

use super::lists::FromJson;
use json::Value;
use naga_ir::{Block, SpecialTypes, Statement, Type};
use naga_json_bodies::{read_block, read_statement};
use naga_json_types::{read_filter, read_filter_node, read_rule, read_special_types, read_type};
use naga_json_values::Cause;
use naga_kinds::{DiagnosticFilter, DiagnosticFilterNode, FilterableTriggeringRule};
use std::alloc::Global;

impl FromJson for Type {
    ghost use Rattle.std.specs.Prelude.{List, Option, ℕ};
    ghost use Rattle.naga_ir.specs.Types.{Inner};

    ghost Meaning = { Option (List ℕ) × Inner };

    ghost value_of = { type_of };

    ghost meaning = { type_codec.decode };

    fn from_json(alloc: Global, value: &Value<'_>) -> Result<Self, Cause> {
        read_type(alloc, value)
    }
}

impl FromJson for SpecialTypes {
    ghost use Rattle.naga_json.specs.SpecialTypes.{SpecialTypesValue};

    ghost Meaning = { SpecialTypesValue };

    ghost value_of = { special_types_value };

    ghost meaning = { special_types_codec.decode };

    #[tactic(auto, using(naga_json_values::proofs::ReadsLemmas::reads_exact))]
    fn from_json(alloc: Global, value: &Value<'_>) -> Result<Self, Cause> {
        read_special_types(alloc, value)
    }
}

impl FromJson for FilterableTriggeringRule {
    ghost use Rattle.naga_json.specs.DiagnosticFilter.{RuleValue};

    ghost Meaning = { RuleValue };

    ghost value_of = { rule_value };

    ghost meaning = { rule_codec.decode };

    fn from_json(alloc: Global, value: &Value<'_>) -> Result<Self, Cause> {
        read_rule(alloc, value)
    }
}

impl FromJson for DiagnosticFilter {
    ghost use Rattle.naga_json.specs.DiagnosticFilter.{FilterValue};

    ghost Meaning = { FilterValue };

    ghost value_of = { filter_value };

    ghost meaning = { filter_codec.decode };

    fn from_json(alloc: Global, value: &Value<'_>) -> Result<Self, Cause> {
        read_filter(alloc, value)
    }
}

impl FromJson for DiagnosticFilterNode {
    ghost use Rattle.naga_json.specs.DiagnosticFilter.{NodeValue};

    ghost Meaning = { NodeValue };

    ghost value_of = { node_value };

    ghost meaning = { node_codec.decode };

    fn from_json(alloc: Global, value: &Value<'_>) -> Result<Self, Cause> {
        read_filter_node(alloc, value)
    }
}

/// The spans of the statements of a block are undefined.
///
/// Fails with [`Cause::Nesting`] if blocks are nested more than 127 deep. No value that [`Value::parse`] returns is
/// nested so deeply.
impl FromJson for Block {
    ghost use Rattle.naga_json.specs.StatementValue.{BlockValue};

    ghost Meaning = { BlockValue };

    ghost value_of = { value_of_block };

    ghost meaning = { block_codec.decode };

    fn from_json(alloc: Global, value: &Value<'_>) -> Result<Self, Cause> {
        read_block(alloc, value)
    }
}

/// The spans of the statements in its blocks are undefined.
///
/// Fails with [`Cause::Nesting`] if blocks are nested more than 127 deep. No value that [`Value::parse`] returns is
/// nested so deeply.
impl FromJson for Statement {
    ghost use Rattle.naga_json.specs.StatementValue.{StatementValue};

    ghost Meaning = { StatementValue };

    ghost value_of = { value_of_statement };

    ghost meaning = { (statement_codec block_codec).decode };

    fn from_json(alloc: Global, value: &Value<'_>) -> Result<Self, Cause> {
        read_statement(alloc, value)
    }
}
