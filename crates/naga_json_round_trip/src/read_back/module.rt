//! Modules.
ghost use Rattle.std.specs.Bool.{Decides};
ghost use Rattle.naga_json_round_trip.specs.Module.{ModuleFits};

use super::function::{each_reads_back, functions_read_back};
use crate::in_range::InRange;
use naga_ir::Module;

/// Returns whether the JSON of a module represents this module, apart from spans and spare capacity, if the module has
/// a JSON.
///
/// It does unless blocks are nested more than 127 deep, or a range of expressions starts later than it ends. All else
/// that the contract demands is guaranteed by Rust's types: numbers are in their ranges, and no map has a key twice.
///
/// Differs from naga: naga has no such function.
pub fn reads_back(module: &Module) -> bool
    ensures { Decides result (ModuleFits «module».now) }
{
    module.types.in_range();
    module.special_types.in_range();
    module.constants.in_range();
    module.overrides.in_range();
    module.global_variables.in_range();
    module.global_expressions.in_range();
    module.diagnostic_filters.in_range();
    module.diagnostic_filter_leaf.in_range();
    module.doc_comments.in_range();
    functions_read_back(&module.functions) && each_reads_back(module.entry_points.as_slice())
}
