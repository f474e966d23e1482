//! Laws of the diagnostic filters of valid modules.
ghost use Rattle.std.specs.Prelude.{◌≡◌, ◌<◌, length, slice_get};
ghost use Rattle.std.specs.Option.{ForSome};
ghost use Rattle.naga_arena.specs.Arena.{value_at};
ghost use Rattle.naga_kinds.specs.Search.{ParentsPrecede};
ghost use Rattle.naga_valid.specs.Valid.{HandlesAreValid};

use naga_arena::Handle;
use naga_ir::{EntryPoint, Function, Module};

/// In a valid module, each parent of a filter precedes it, and the module's innermost filter is in the arena.
pub fn parents_of_filters_precede(module: &Module)
    requires { HandlesAreValid «module».now }
    ensures parents { ParentsPrecede «module».now.diagnostic_filters }
    ensures leaf { ForSome «module».now.diagnostic_filter_leaf (λ leaf. leaf < length «module».now.diagnostic_filters) }
{}

/// In a valid module, the innermost filter of a function is in the arena of the filters.
///
/// Preconditions: the module is valid, and `function` is its function with this handle.
pub fn filter_of_function_is_in_arena(
    module: &Module,
    handle: Handle<Function>,
    function: &Function,
)
    requires valid { HandlesAreValid «module».now }
    requires found { value_at «module».now.functions handle ≡ Some function.now }
    ensures { ForSome function.now.diagnostic_filter_leaf (λ leaf. leaf < length «module».now.diagnostic_filters) }
{}

/// In a valid module, the innermost filter of an entry point is in the arena of the filters.
///
/// Preconditions: the module is valid, and `entry` is its entry point at this position.
pub fn filter_of_entry_point_is_in_arena(module: &Module, position: usize, entry: &EntryPoint)
    requires valid { HandlesAreValid «module».now }
    requires found { slice_get «module».now.entry_points.items position ≡ Some entry.now }
    ensures { ForSome entry.now.function.diagnostic_filter_leaf (λ leaf. leaf < length «module».now.diagnostic_filters) }
{}
