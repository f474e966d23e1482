//! How many expressions are written one inside another.
ghost use Rattle.std.specs.Prelude.{◌≡◌, length, map, slice_index_or};
ghost use Rattle.naga_valid.specs.Operands.{operands_of};
ghost use Rattle.naga_wgsl.specs.Counts.{deepen};
ghost use Rattle.naga_wgsl.specs.WrittenOut.{greatest};

use naga_arena::Handle;
use naga_compact::{Collect, collect_references};
use naga_ir::Expression;
use naga_valid::{Reference, Visitor};
use std::convert::Infallible;
use std::ops::ControlFlow;

/// Returns the greatest depth of the operands of an expression, or 0 if it has none.
pub(crate) fn greatest_depth(depths: &[usize], expression: &Expression) -> usize
    ensures { result ≡ greatest (map (λ handle. slice_index_or depths.now handle 0) (operands_of expression.now)) }
{
    let mut deepest = Deepest { depths, depth: 0 };
    collect_references(&mut deepest, expression);
    deepest.depth
}

/// A visitor that finds the greatest depth of what is referred to.
#[derive(Drop)]
pub(crate) struct Deepest<'a> {
    /// The depths of the first expressions of an arena.
    depths: &'a [usize],
    /// The greatest depth up to now.
    depth: usize,
}

impl<'a> Deepest<'a> {
    /// Goes on with one more expression.
    fn deepen(&mut self, handle: Handle<Expression>)
        ensures { self.new ≡ deepen self.old handle }
    {
        let depth = match self.depths.get(handle.index()) {
            Some(depth) => *depth,
            None => 0,
        };
        self.depth = self.depth.max(depth);
    }
}

impl<'a> Visitor for Deepest<'a> {
    ghost use Rattle.std.specs.Prelude.{◌≡◌};
    ghost use Rattle.std.specs.declared.ops.ControlFlow.TheVariants.{Continue};
    ghost use Rattle.naga_wgsl.specs.Counts.{deepen_reference};

    type Break = Infallible;

    ghost visits = { λ old to answer new. (answer ≡ Continue tt) × (new ≡ deepen_reference old to) };

    fn visit(&mut self, reference: Reference) -> ControlFlow<Infallible> {
        if let Reference::Expression(handle) = reference {
            self.deepen(handle);
        }
        ControlFlow::Continue(())
    }
}

impl<'a> Collect for Deepest<'a> {
    ghost use Rattle.naga_wgsl.specs.Counts.{deepen_reference};

    ghost collected = { deepen_reference };

    ghost never_stops = { λ old new to answer so. so };
}
