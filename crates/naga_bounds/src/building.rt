//! The arena that is built in memory that is reserved.
ghost use Rattle.std.specs.Prelude.{◌≡◌, ◌≤◌, ◌<◌, ◌∷◌, ◌++◌, [], IfOk, length};
ghost use Rattle.naga_arena.specs.Limits.{max_len};

use naga_arena::{Arena, Handle, Span};
use naga_ir::Expression;
use std::alloc::{AllocError, Global};
use std::marker::Model;

/// The first entries of a new arena, with memory for the others.
#[derive(Drop)]
pub(crate) struct Building {
    values: Vec<Expression>,
    spans: Vec<Span>,
}

impl Model for Building {
    ghost use Rattle.std.specs.Prelude.{◌≡◌, ◌≤◌, length, vec_capacity};
    ghost use Rattle.std.specs.List.{zip};
    ghost use Rattle.naga_arena.specs.Limits.{max_len};
    ghost use Rattle.naga_bounds.specs.Plans.{Built};

    ghost Value = { Built };

    ghost view = { λ it. record {
      entries = zip it.values.items it.spans.items;
      capacity = vec_capacity it.values;
    } };

    ghost invariant = { λ it.
        (length it.spans.items ≡ length it.values.items)
        × (vec_capacity it.spans ≡ vec_capacity it.values)
        × (length it.values.items ≤ vec_capacity it.values)
        × (vec_capacity it.values ≤ max_len) };
}

#[tactic(auto, using(naga_arena::proofs::ZipLemmas::pairs))]
impl Building {
    /// Reserves memory for an arena with this many entries. Returns `Err` if allocation fails.
    pub(crate) fn with_capacity(alloc: Global, capacity: usize) -> Result<Self, AllocError>
        requires { capacity ≤ max_len }
        ensures empty { IfOk result (λ built. built.entries ≡ []) }
        ensures room { IfOk result (λ built. built.capacity ≡ capacity) }
    {
        let values = Vec::with_capacity(alloc, capacity)?;
        let spans = Vec::with_capacity(alloc, capacity)?;
        Ok(Building { values, spans })
    }

    /// Returns the number of entries.
    pub(crate) fn len(&self) -> usize
        ensures value { result ≡ length self.now.entries }
        ensures bound { result ≤ self.now.capacity }
    {
        self.values.len()
    }

    /// Appends an expression with its span, and returns its handle.
    pub(crate) fn push(&mut self, expression: Expression, span: Span) -> Handle<Expression>
        requires { length self.old.entries < self.old.capacity }
        ensures handle { result ≡ length self.old.entries }
        ensures entries { self.new.entries ≡ self.old.entries ++ (expression, span) ∷ [] }
        ensures capacity { self.new.capacity ≡ self.old.capacity }
    {
        let handle = Handle::<Expression>::at(self.values.len());
        self.values.push_reserved(expression);
        self.spans.push_reserved(span);
        handle
    }

    /// Returns the arena with these entries.
    pub(crate) fn finish(self) -> Arena<Expression>
        ensures { result ≡ self.entries }
    {
        Arena::from_vecs(self.values, self.spans)
    }
}
