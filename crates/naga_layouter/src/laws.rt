//! Laws of layouts.
ghost use Rattle.naga_valid.specs.Contexts.{IsContextOf};
ghost use Rattle.naga_valid.specs.Valid.{HandlesAreValid};
ghost use Rattle.naga_layouter.specs.Accesses.{AccessesStayInside};
ghost use Rattle.naga_layouter.specs.Layout.{SizesAreKnown};
ghost use Rattle.naga_layouter.specs.Leaves.{LeavesDoNotMeet, LeavesLieInside};

use naga_ir::{GlobalCtx, Module};

/// The context of a module whose handles are valid contains all that the sizes of its types need.
///
/// Preconditions: the handles of the module are valid, and `ctx` is its context.
pub fn valid_modules_have_known_sizes(module: &Module, ctx: GlobalCtx<'_>)
    requires valid { HandlesAreValid «module».now }
    requires context { IsContextOf «module».now ctx }
    ensures { SizesAreKnown ctx.entry }
{}

/// If [`check_layouts`](crate::check_layouts) finds no fault in a module, then two different leaves of a value, such as
/// scalars that are reached by different indices of arrays, members, columns or components, share no byte.
///
/// An array whose number of elements is known only once the pipeline is created, or the shader runs, may have any number
/// of them.
pub fn leaves_do_not_meet()
    ensures { LeavesDoNotMeet }
{}

/// Under the same condition, each leaf of a value ends at or before the end of the value.
pub fn leaves_lie_inside()
    ensures { LeavesLieInside }
{}

/// Under the same condition, a chain of accesses in a function of the module reaches only bytes of what its first pointer
/// points to, if each index is below the length with which [`check_bounds`](naga_bounds::check_bounds) compares it.
///
/// After [`restrict`](naga_bounds::restrict) each index is, when its access is evaluated. A binding array has no bytes:
/// a chain begins after the access that chooses one of its elements.
pub fn accesses_stay_inside()
    ensures { AccessesStayInside }
{}
