//! The limits of the handles that a part of a module contains.
ghost use Rattle.std.specs.Prelude.{◌≡◌, ◌↔◌, IsTrue};
ghost use Rattle.naga_valid.specs.Limits.{IsWithin};
ghost use Rattle.naga_valid.specs.Places.{lengths, limits_inside};
ghost use Rattle.naga_valid.specs.Visits.{limits_of};

use crate::reference::Reference;
use crate::visitor::Visitor;
use naga_ir::{Function, Module};
use std::ops::ControlFlow;

/// For each arena, the number of its elements that a part of a module may refer to: those before this index.
#[derive(Clone, Copy, Debug)]
pub(crate) struct Limits {
    pub(crate) types: usize,
    pub(crate) constants: usize,
    pub(crate) overrides: usize,
    pub(crate) global_variables: usize,
    pub(crate) global_expressions: usize,
    pub(crate) expressions: usize,
    pub(crate) local_variables: usize,
    pub(crate) functions: usize,
    pub(crate) diagnostic_filters: usize,
}

impl Limits {
    /// Returns the number of elements of each arena of a module. Outside functions, there are no expressions and no
    /// local variables.
    pub(crate) fn of_module(module: &Module) -> Self
        ensures { result ≡ lengths «module».now }
    {
        Limits {
            types: module.types.len(),
            constants: module.constants.len(),
            overrides: module.overrides.len(),
            global_variables: module.global_variables.len(),
            global_expressions: module.global_expressions.len(),
            expressions: 0,
            local_variables: 0,
            functions: module.functions.len(),
            diagnostic_filters: module.diagnostic_filters.len(),
        }
    }

    /// Returns these limits with the numbers of expressions and of local variables of a function.
    pub(crate) fn in_function(&self, function: &Function) -> Self
        ensures { result ≡ limits_inside self.now function.now }
    {
        Limits {
            expressions: function.expressions.len(),
            local_variables: function.local_variables.len(),
            ..*self
        }
    }

    /// Returns whether a handle is below the limit of its arena. A range is within the limit if it is not inverted and
    /// does not end after the limit.
    pub(crate) fn allow(&self, reference: &Reference) -> bool
        ensures { IsTrue result ↔ IsWithin self.now reference.now }
    {
        self.allow_before(reference, self.expressions)
    }

    /// Returns whether a reference is within these limits, with another limit of expressions.
    #[inline(always)]
    fn allow_before(&self, reference: &Reference, expressions: usize) -> bool
        ensures { IsTrue result ↔ IsWithin (record self.now { expressions = expressions }) reference.now }
    {
        match reference {
            Reference::Type(handle) => handle.index() < self.types,
            Reference::Constant(handle) => handle.index() < self.constants,
            Reference::Override(handle) => handle.index() < self.overrides,
            Reference::GlobalVariable(handle) => handle.index() < self.global_variables,
            Reference::GlobalExpression(handle) => handle.index() < self.global_expressions,
            Reference::Expression(handle) => handle.index() < expressions,
            Reference::Expressions { start, end } => *start <= *end && *end as usize <= expressions,
            Reference::LocalVariable(handle) => handle.index() < self.local_variables,
            Reference::Function(handle) => handle.index() < self.functions,
            Reference::DiagnosticFilter(handle) => handle.index() < self.diagnostic_filters,
        }
    }
}

/// A visitor that stops at a reference that is not within limits.
///
/// The limit of expressions is given apart, since it is another one for each expression of a function.
#[derive(Clone, Copy, Debug)]
pub(crate) struct Outside<'a> {
    limits: &'a Limits,
    expressions: usize,
}

impl<'a> Outside<'a> {
    /// Creates a visitor that stops at a reference that is not within these limits, with another limit of expressions.
    pub(crate) fn new(limits: &'a Limits, expressions: usize) -> Self
        ensures { limits_of result ≡ record limits.now { expressions = expressions } }
    {
        Outside {
            limits,
            expressions,
        }
    }
}

impl<'a> Visitor for Outside<'a> {
    ghost use Rattle.naga_valid.specs.Visits.{tests};

    type Break = Reference;

    ghost visits = { tests };

    // Inlined into the table of references, where the kind of the reference is known.
    #[inline(always)]
    fn visit(&mut self, reference: Reference) -> ControlFlow<Reference> {
        if self.limits.allow_before(&reference, self.expressions) {
            ControlFlow::Continue(())
        } else {
            ControlFlow::Break(reference)
        }
    }
}
