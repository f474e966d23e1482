//! Laws of the context of a valid module.
ghost use Rattle.std.specs.Prelude.{◌≡◌, slice_get};
ghost use Rattle.naga_arena.specs.Arena.{value_at};
ghost use Rattle.naga_ir.specs.Constant.{IsClosedOver, IsKnownSize};
ghost use Rattle.naga_valid.specs.Contexts.{IsContextOf, size_of};
ghost use Rattle.naga_valid.specs.Valid.{HandlesAreValid};

use naga_arena::Handle;
use naga_ir::{ArraySize, EntryPoint, Function, GlobalCtx, Module, Type};

/// The context of a valid module contains everything that is looked up for its global expressions.
///
/// Preconditions: the module is valid, and `ctx` is its context.
pub fn context_is_closed_over_global_expressions(module: &Module, ctx: GlobalCtx<'_>)
    requires valid { HandlesAreValid «module».now }
    requires context { IsContextOf «module».now ctx }
    ensures { IsClosedOver ctx.entry ctx.entry.global_expressions.now }
{}

/// The context of a valid module contains everything that is looked up for the expressions of a function.
///
/// Preconditions: the module is valid, `ctx` is its context, and `function` is its function with this handle.
pub fn context_is_closed_over_function(
    module: &Module,
    ctx: GlobalCtx<'_>,
    handle: Handle<Function>,
    function: &Function,
)
    requires valid { HandlesAreValid «module».now }
    requires context { IsContextOf «module».now ctx }
    requires found { value_at «module».now.functions handle ≡ Some function.now }
    ensures { IsClosedOver ctx.entry function.now.expressions }
{}

/// The context of a valid module contains everything that is looked up for the expressions of an entry point.
///
/// Preconditions: the module is valid, `ctx` is its context, and `entry` is its entry point at this position.
pub fn context_is_closed_over_entry_point(
    module: &Module,
    ctx: GlobalCtx<'_>,
    position: usize,
    entry: &EntryPoint,
)
    requires valid { HandlesAreValid «module».now }
    requires context { IsContextOf «module».now ctx }
    requires found { slice_get «module».now.entry_points.items position ≡ Some entry.now }
    ensures { IsClosedOver ctx.entry entry.now.function.expressions }
{}

/// The context of a valid module contains the override of an array's size, if the size is `Pending`.
///
/// Preconditions: the module is valid, `ctx` is its context, `ty` is its type with this handle, and `size` is the size
/// of this array type or binding array type.
pub fn context_contains_override_of_size(
    module: &Module,
    ctx: GlobalCtx<'_>,
    handle: Handle<Type>,
    ty: &Type,
    size: ArraySize,
)
    requires valid { HandlesAreValid «module».now }
    requires context { IsContextOf «module».now ctx }
    requires found { value_at «module».now.types handle ≡ Some ty.now }
    requires size { size_of ty.now.inner ≡ Some size }
    ensures { IsKnownSize ctx.entry size }
{}
