//! Marking the expressions that are reached.
ghost use Rattle.std.specs.Prelude.{◌≡◌, ◌↔◌, ℕ, true, length};
ghost use Rattle.std.specs.FinSet.{contains};
ghost use Rattle.naga_compact.specs.Compaction.{IsMember};
ghost use Rattle.naga_compact.specs.Marks.{put, put_reference};
ghost use Rattle.naga_compact.specs.Operands.{IsReached, OperandsPrecede};

use crate::collect::{Collect, collect_references};
use naga_arena::{Arena, Handle};
use naga_ir::Expression;
use naga_sets::HandleSet;
use naga_valid::{Reference, Visitor};
use std::convert::Infallible;
use std::marker::Model;
use std::ops::ControlFlow;

/// A set of marked expressions. Those to which parts of a function refer are marked as far as they are below the bound
/// of the set, and all other references are ignored.
///
/// Differs from naga: naga has no such type.
#[derive(Drop)]
pub struct Marks {
    marked: HandleSet<Expression>,
}

impl Model for Marks {
    ghost use Rattle.naga_sets.specs.HandleSet.{BoundedSet, bounded_set_code};

    ghost Value = { BoundedSet };

    ghost coded = { bounded_set_code };

    ghost view = { λ marks. marks.marked };
}

impl Marks {
    /// Creates marks of the members of a set.
    pub fn new(marked: HandleSet<Expression>) -> Self
        ensures { result ≡ marked }
    {
        Marks { marked }
    }

    /// Returns the set of the marked expressions.
    pub fn finish(self) -> HandleSet<Expression>
        ensures { result ≡ self }
    {
        let Marks { marked } = self;
        marked
    }

    /// Returns whether an expression is marked.
    pub fn contains(&self, handle: Handle<Expression>) -> bool
        ensures { result ≡ contains self.now.members handle }
    {
        self.marked.contains(handle)
    }

    /// Marks an expression if it is below the bound of the set.
    #[tactic(auto, using(crate::proofs::MarkLemmas::putting))]
    pub fn insert(&mut self, handle: Handle<Expression>)
        ensures { self.new ≡ put self.old handle }
    {
        let bound = self.marked.all_possible().index_range().end as usize;
        if handle.index() < bound {
            let Ok(_) = self.marked.insert(handle) else {
                unreachable!()
            };
        }
    }
}

impl Visitor for Marks {
    ghost use Rattle.std.specs.Prelude.{◌≡◌};
    ghost use Rattle.std.specs.declared.ops.ControlFlow.TheVariants.{Continue};
    ghost use Rattle.naga_compact.specs.Marks.{put_reference};

    type Break = Infallible;

    ghost visits = { λ old to answer new. (answer ≡ Continue tt) × (new ≡ put_reference old to) };

    fn visit(&mut self, reference: Reference) -> ControlFlow<Infallible> {
        if let Reference::Expression(handle) = reference {
            self.insert(handle);
        }
        ControlFlow::Continue(())
    }
}

impl Collect for Marks {
    ghost use Rattle.naga_compact.specs.Marks.{put_reference};

    ghost collected = { put_reference };

    ghost never_stops = { λ old new to answer so. so };
}

/// Marks everything that is reached from the marked expressions of an arena.
///
/// The caller must ensure that each expression refers only to earlier ones, which `operands_precede` tests, and that the
/// set of the marks was created for this arena.
///
/// Differs from naga: naga has no such function.
pub fn mark_reached(expressions: &Arena<Expression>, marks: &mut Marks)
    requires precede { OperandsPrecede expressions.now }
    requires bound { marks.old.bound ≡ length expressions.now }
    ensures bound { marks.new.bound ≡ marks.old.bound }
    ensures reached { (handle : ℕ) → (contains marks.new.members handle ≡ true)
        ↔ IsReached expressions.now (IsMember marks.old) handle }
{
    let mut i = expressions.len();
    'down: while i > 0 {
        i -= 1;
        let handle = Handle::<Expression>::at(i);
        if marks.contains(handle) {
            collect_references(marks, &expressions[handle]);
        }
    }
}
