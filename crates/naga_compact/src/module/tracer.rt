//! Visiting the elements of a module that are used.
ghost use Rattle.std.specs.Prelude.{◌≡◌, ◌+◌, [], ◌++◌, IfNone, IfOk, length, option_to_list};
ghost use Rattle.naga_compact.specs.Module.Used.{nothing_used};
ghost use Rattle.naga_compact.specs.Module.Visits.{visit};

use super::used::UsedHandles;
use crate::collect::Collect;
use naga_ir::Module;
use naga_valid::{Reference, Visitor};
use std::alloc::{AllocError, Global};
use std::convert::Infallible;
use std::marker::Model;
use std::ops::ControlFlow;

/// The elements of a module that are used, as far as they are known.
#[derive(Drop)]
pub(super) struct Tracer {
    used: UsedHandles,
    /// The used elements whose own handles are still to be visited. There is capacity for all elements that are not yet
    /// used.
    pending: Vec<Reference>,
}

impl Model for Tracer {
    ghost use Rattle.std.specs.Prelude.{◌+◌, ◌≤◌, length, vec_capacity};
    ghost use Rattle.naga_compact.specs.Module.Visits.{Visited, unmarked};
    ghost use Rattle.naga_compact.specs.contracts.module.used.UsedHandles as sets;
    ghost use Rattle.std.specs.Coded.{codes};

    ghost Value = { Visited };

    ghost coded = { Prim.hlevel (codes, sets.the_row.coded) };

    ghost view = { λ t. record { used = t.used; pending = t.pending.items } };

    ghost invariant = { λ t. length t.pending.items + unmarked t.used ≤ vec_capacity t.pending };
}

impl Tracer {
    /// Creates a tracer for which no element is used.
    ///
    /// Returns `Err` if allocation fails.
    pub(super) fn new(alloc: Global, module: &Module) -> Result<Self, AllocError>
        ensures { IfOk result (λ tracer. tracer ≡ record { used = nothing_used «module».now; pending = [] }) }
    {
        let used = UsedHandles::for_module(alloc, module)?;
        let pending = Vec::with_capacity(alloc, element_count(module))?;
        Ok(Tracer { used, pending })
    }

    /// Marks an element as used. If it was not marked before, its own handles are still to be visited.
    ///
    /// Handles inside functions, handles of diagnostic filters, and handles that are not in their arenas are ignored.
    #[inline(always)]
    pub(super) fn add(&mut self, element: Reference)
        ensures { self.new ≡ visit self.old element }
    {
        if self.used.insert(&element) {
            self.pending.push_reserved(element);
        }
    }

    /// Returns an element whose own handles are still to be visited, or `None` if there is none. These handles are now
    /// up to the caller.
    pub(super) fn take(&mut self) -> Option<Reference>
        ensures used { self.new.used ≡ self.old.used }
        ensures pending { self.old.pending ≡ self.new.pending ++ option_to_list result }
        ensures none { IfNone result (self.old.pending ≡ []) }
    {
        self.pending.pop()
    }

    /// Returns the elements that are marked as used.
    pub(super) fn finish(self) -> UsedHandles
        ensures { result ≡ self.used }
    {
        let Tracer { used, pending: _ } = self;
        used
    }
}

impl Visitor for Tracer {
    ghost use Rattle.std.specs.Prelude.{◌≡◌};
    ghost use Rattle.std.specs.declared.ops.ControlFlow.TheVariants.{Continue};
    ghost use Rattle.naga_compact.specs.Module.Visits.{visit};

    type Break = Infallible;

    ghost visits = { λ old to answer new. (answer ≡ Continue tt) × (new ≡ visit old to) };

    fn visit(&mut self, reference: Reference) -> ControlFlow<Infallible> {
        self.add(reference);
        ControlFlow::Continue(())
    }
}

impl Collect for Tracer {
    ghost use Rattle.naga_compact.specs.Module.Visits.{visit};

    ghost collected = { visit };

    ghost never_stops = { λ old new to answer so. so };
}

/// Returns the number of elements of the arenas of a module, without its diagnostic filters.
fn element_count(module: &Module) -> usize
    ensures { result ≡ length «module».now.types + length «module».now.constants + length «module».now.overrides
        + length «module».now.global_variables + length «module».now.global_expressions + length «module».now.functions }
{
    let types = module.types.len();
    let constants = module.constants.len();
    let overrides = module.overrides.len();
    let global_variables = module.global_variables.len();
    let global_expressions = module.global_expressions.len();
    let functions = module.functions.len();
    types + constants + overrides + global_variables + global_expressions + functions
}
