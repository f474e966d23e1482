//! Functions and entry points.
ghost use Rattle.std.specs.Prelude.{All, IfSome};
ghost use Rattle.std.specs.Bool.{Decides};
ghost use Rattle.naga_json.specs.Codec.{handle_codec, option_codec, word_codec};
ghost use Rattle.naga_json.specs.Lists.{array_codec};
ghost use Rattle.naga_json_round_trip.specs.Module.{EntryPointFits, FunctionFits, ValuesFit};

use super::block::block_reads_back;
use crate::in_range::maps::keys_in_range;
use crate::in_range::{InRange, each_in_range, has_its_length};
use naga_arena::Arena;
use naga_ir::{EntryPoint, Function};
use naga_json::MAX_NESTING;

/// A type with values that are not read as they were written.
pub(super) trait ReadsBack {
    // The value is read as it was written.
    ghost Fits: { Self → Type 0 };

    /// Returns whether the value is read as it was written.
    fn reads_back(&self) -> bool
        ensures { Decides result (Fits self.now) };
}

impl ReadsBack for Function {
    ghost Fits = { FunctionFits };

    fn reads_back(&self) -> bool {
        self.arguments.in_range();
        self.result.in_range();
        self.local_variables.in_range();
        self.expressions.in_range();
        keys_in_range(&self.named_expressions);
        self.diagnostic_filter_leaf.in_range();
        block_reads_back(&self.body, MAX_NESTING)
    }
}

/// Reads the sizes of a workgroup, and the expressions that replace them.
fn workgroup_in_range(entry: &EntryPoint)
    ensures sizes { (array_codec 3 word_codec).Fits entry.now.workgroup_size }
    ensures overrides { IfSome entry.now.workgroup_size_overrides (array_codec 3 (option_codec handle_codec)).Fits }
{
    each_in_range(&entry.workgroup_size);
    has_its_length(&entry.workgroup_size);
    if let Some(overrides) = &entry.workgroup_size_overrides {
        each_in_range(overrides);
        has_its_length(overrides);
    }
}

impl ReadsBack for EntryPoint {
    ghost Fits = { EntryPointFits };

    fn reads_back(&self) -> bool {
        workgroup_in_range(self);
        self.mesh_info.in_range();
        self.task_payload.in_range();
        self.incoming_ray_payload.in_range();
        self.function.reads_back()
    }
}

/// Returns whether each value is read as it was written.
pub(super) fn each_reads_back<T: ReadsBack>(values: &[T]) -> bool
    ensures { Decides result (All T.Fits values.now) }
{
    for value in values {
        if !value.reads_back() {
            return false;
        }
    }
    true
}

/// Returns whether each function of an arena is read as it was written.
pub(super) fn functions_read_back(functions: &Arena<Function>) -> bool
    ensures { Decides result (ValuesFit FunctionFits functions.now) }
{
    let _len = functions.len();
    each_reads_back(functions.as_slice())
}
