//! How often the expressions of a function are used: never, once, or more often.
ghost use Rattle.std.specs.Prelude.{◌≡◌, IfOk};
ghost use Rattle.naga_wgsl.specs.Counts.{AreUsesIn, is_used_once, use_each, use_once_more};
ghost use Rattle.naga_wgsl.specs.WrittenOut.{operands_in};

use naga_arena::{Arena, Handle};
use naga_compact::{Collect, Marks, collect_block, collect_references};
use naga_ir::{Expression, Function};
use naga_sets::HandleSet;
use naga_valid::{Reference, Visitor};
use std::alloc::{AllocError, Global};
use std::convert::Infallible;
use std::ops::ControlFlow;

/// The expressions of an arena that are used, and those that are used more than once.
#[derive(Drop)]
pub(crate) struct Uses {
    used: Marks,
    again: Marks,
}

impl Uses {
    /// Counts the uses of the expressions of a function. Returns `Err` if allocation fails.
    pub(crate) fn of(alloc: Global, function: &Function) -> Result<Self, AllocError>
        ensures { IfOk result (AreUsesIn function.now) }
    {
        let used = HandleSet::for_arena(alloc, &function.expressions)?;
        let again = HandleSet::for_arena(alloc, &function.expressions)?;
        let mut uses = Uses {
            used: Marks::new(used),
            again: Marks::new(again),
        };
        use_operands(&mut uses, &function.expressions);
        collect_block(&mut uses, &function.body);
        Ok(uses)
    }

    /// Returns whether an expression is used once.
    pub(crate) fn is_used_once(&self, handle: Handle<Expression>) -> bool
        ensures { result ≡ is_used_once self.now handle }
    {
        self.used.contains(handle) && !self.again.contains(handle)
    }

    /// Counts one more use of an expression.
    fn use_once_more(&mut self, handle: Handle<Expression>)
        ensures { self.new ≡ use_once_more self.old handle }
    {
        if self.used.contains(handle) {
            self.again.insert(handle);
        } else {
            self.used.insert(handle);
        }
    }
}

/// Counts the uses of expressions as operands of the expressions of an arena.
fn use_operands(uses: &mut Uses, expressions: &Arena<Expression>)
    ensures { uses.new ≡ use_each uses.old (operands_in expressions.now) }
{
    let values = expressions.as_slice();
    for expression in values {
        collect_references(uses, expression);
    }
}

impl Visitor for Uses {
    ghost use Rattle.std.specs.Prelude.{◌≡◌};
    ghost use Rattle.std.specs.declared.ops.ControlFlow.TheVariants.{Continue};
    ghost use Rattle.naga_wgsl.specs.Counts.{use_reference};

    type Break = Infallible;

    ghost visits = { λ old to answer new. (answer ≡ Continue tt) × (new ≡ use_reference old to) };

    fn visit(&mut self, reference: Reference) -> ControlFlow<Infallible> {
        if let Reference::Expression(handle) = reference {
            self.use_once_more(handle);
        }
        ControlFlow::Continue(())
    }
}

impl Collect for Uses {
    ghost use Rattle.naga_wgsl.specs.Counts.{use_reference};

    ghost collected = { use_reference };

    ghost never_stops = { λ old new to answer so. so };
}
