//! The expressions of a function with their types.
ghost use Rattle.std.specs.Prelude.{◌≡◌, IfErr, IfOk, IfSome, OnOk, option_copied};
ghost use Rattle.naga_arena.specs.Arena.{value_at};
ghost use Rattle.naga_flow.specs.Places.{ready_in};
ghost use Rattle.naga_flow.specs.Readings.{chosen_base};
ghost use Rattle.naga_bounds.specs.Modules.{typed_in};
ghost use Rattle.naga_bounds.specs.RestrictedModules.{IsObstacle, IsTyped, obstacle_of};
ghost use Rattle.naga_bounds.specs.Reach.{contents_at, is_below_fixed, is_fixed_access, length_at};

use crate::length::{Length, length_reached};
use crate::restrict_error::Obstacle;
use naga_arena::{Arena, Handle, UniqueArena};
use naga_ir::{Expression, Function, Module, Type, TypeInner};
use naga_typifier::{GrowError, ResolveContext, Typifier};
use std::alloc::Global;
use std::marker::Model;

/// The expressions of a function with their types, up to the first expression that has none.
#[derive(Drop)]
pub(crate) struct TypedExpressions<'a> {
    pub(crate) types: &'a UniqueArena<Type>,
    pub(crate) known: Typifier,
    pub(crate) expressions: &'a Arena<Expression>,
}

impl<'a> Model for TypedExpressions<'a> {
    ghost use Rattle.naga_bounds.specs.Reach.{Typed};

    ghost Value = { Typed };

    ghost view = { λ all. record {
      types = all.types.now;
      known = all.known;
      arena = all.expressions.now;
    } };
}

impl<'a> TypedExpressions<'a> {
    /// Finds the types of the expressions of a function. Returns `None` if allocation fails.
    pub(crate) fn of(alloc: Global, module: &'a Module, function: &'a Function) -> Option<Self>
        ensures { IfSome result (λ typed. typed ≡ typed_in «module».now function.now) }
    {
        let ctx = ResolveContext::with_function(module, function);
        let mut known = Typifier::new(alloc);
        if let Err(GrowError::Memory) = known.grow(&function.expressions, &ctx) {
            return None;
        }
        Some(TypedExpressions {
            types: &module.types,
            known,
            expressions: &function.expressions,
        })
    }

    /// Finds the types of the expressions of a function. Returns `Err` if one has none, or if allocation fails.
    pub(crate) fn all(
        alloc: Global,
        module: &'a Module,
        function: &'a Function,
    ) -> Result<Self, Obstacle>
        ensures value { IfOk result (λ typed. typed ≡ typed_in «module».now function.now) }
        ensures typed { OnOk result (IsTyped «module».now function.now) }
        ensures error { IfErr result (IsObstacle «module».now function.now) }
    {
        match types_of(alloc, module, function) {
            Ok(known) => Ok(TypedExpressions {
                types: &module.types,
                known,
                expressions: &function.expressions,
            }),
            Err(stopped) => Err(obstacle_of(&stopped)),
        }
    }

    /// Returns the expression with this handle.
    pub(crate) fn expression(&self, handle: Handle<Expression>) -> Option<&'a Expression>
        ensures { option_copied result ≡ value_at self.now.arena handle }
    {
        match self.expressions.try_get(handle) {
            Ok(expression) => Some(expression),
            Err(_) => None,
        }
    }

    /// Returns whether an expression has its value when the function is entered.
    pub(crate) fn is_ready(&self, handle: Handle<Expression>) -> bool
        ensures { result ≡ ready_in (value_at self.now.arena handle) }
    {
        match self.expression(handle) {
            Some(expression) => expression.needs_pre_emit(),
            None => false,
        }
    }

    /// Returns the contents of the type of an expression, if it is known.
    pub(crate) fn contents(&self, handle: Handle<Expression>) -> Option<&TypeInner>
        ensures { option_copied result ≡ contents_at self.now handle }
    {
        match self.known.get(handle) {
            Some(ty) => ty.get_inner(self.types),
            None => None,
        }
    }

    /// Returns the number of parts of the value of an expression, or of what it points to.
    pub(crate) fn length(&self, handle: Handle<Expression>) -> Option<Length>
        ensures { result ≡ length_at self.now handle }
    {
        match self.contents(handle) {
            Some(contents) => length_reached(self.types, contents),
            None => None,
        }
    }

    /// Returns the base of an access by a constant index that is below the fixed length of the base, if the base comes
    /// before the access.
    pub(crate) fn fixed_base(&self, handle: Handle<Expression>) -> Option<Handle<Expression>>
        ensures { result ≡ chosen_base (is_fixed_access self.now) self.now.arena handle }
    {
        match self.expression(handle) {
            Some(Expression::AccessIndex { base, index }) => {
                if base.index() < handle.index() && self.is_below_fixed(*base, *index) {
                    Some(*base)
                } else {
                    None
                }
            }
            _ => None,
        }
    }

    /// Returns whether an expression is an access by a constant index that is below the fixed length of its base, and
    /// the base comes before the access.
    pub(crate) fn is_fixed_access(&self, handle: Handle<Expression>) -> bool
        ensures { result ≡ is_fixed_access self.now handle }
    {
        match self.expression(handle) {
            Some(Expression::AccessIndex { base, index }) => {
                let is_later = base.index() < handle.index();
                is_later && self.is_below_fixed(*base, *index)
            }
            _ => false,
        }
    }

    /// Returns whether a number is below the fixed length of a base.
    fn is_below_fixed(&self, base: Handle<Expression>, number: u32) -> bool
        ensures { result ≡ is_below_fixed (length_at self.now base) number }
    {
        match self.length(base) {
            Some(Length::Fixed(count)) => (number as usize) < count,
            _ => false,
        }
    }
}

/// Returns the types of the expressions of a function, if each has one.
fn types_of(alloc: Global, module: &Module, function: &Function) -> Result<Typifier, GrowError>
    ensures value { IfOk result (λ known. known ≡ (typed_in «module».now function.now).known) }
    ensures typed { OnOk result (IsTyped «module».now function.now) }
    ensures error { IfErr result (λ stopped. IsObstacle «module».now function.now (obstacle_of stopped)) }
{
    let ctx = ResolveContext::with_function(module, function);
    let mut known = Typifier::new(alloc);
    match known.grow(&function.expressions, &ctx) {
        Ok(()) => Ok(known),
        Err(stopped) => Err(stopped),
    }
}

/// Returns why the accesses of a function cannot be clamped if a typifier stops in it with this error.
fn obstacle_of(stopped: &GrowError) -> Obstacle
    ensures { result ≡ obstacle_of stopped.now }
{
    match stopped {
        GrowError::Memory => Obstacle::Memory,
        GrowError::NoType { expression, error } => Obstacle::NoType {
            expression: *expression,
            error: *error,
        },
    }
}
