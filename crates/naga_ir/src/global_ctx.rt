//! The context in which constant expressions are looked up, and the values of constant expressions.
ghost use Rattle.std.specs.Prelude.{◌≡◌, ◌<◌, ◌↔◌, IsTrue, IfSome, All, length};
ghost use Rattle.naga_arena.specs.Arena.{values};
ghost use Rattle.naga_ir.specs.Constant.{IsClosedOver, IsKnown, HasInit, MayHaveInit, own_literal, const_literal, const_value, literal_at};

use crate::const_value::{ConstValueError, FromLiteral};
use crate::expression::Expression;
use crate::literal::Literal;
use crate::module::{Constant, Override};
use crate::types::{Type, TypeInner};
use naga_arena::{Arena, Handle, UniqueArena};

/// The parts of a module that constant expressions refer to, borrowed by [`Module::to_ctx`](crate::Module::to_ctx).
#[derive(Clone, Copy, Debug)]
pub struct GlobalCtx<'a> {
    pub types: &'a UniqueArena<Type>,
    pub constants: &'a Arena<Constant>,
    pub overrides: &'a Arena<Override>,
    pub global_expressions: &'a Arena<Expression>,
}

impl GlobalCtx<'_> {
    /// Returns the value of a global expression, read as a `T`.
    ///
    /// This is [`get_const_val_from`](Self::get_const_val_from) for the arena of the global expressions, with the same
    /// preconditions.
    pub fn get_const_val<T: FromLiteral>(
        &self,
        handle: Handle<Expression>,
    ) -> Result<T, ConstValueError>
        requires within { handle < length self.now.global_expressions.now }
        requires closed { IsClosedOver self.now self.now.global_expressions.now }
        ensures { result ≡ const_value T.value_of
            (literal_at self.now self.now.global_expressions.now handle) }
    {
        self.get_const_val_from(handle, self.global_expressions)
    }

    /// Returns the value of an expression of an arena, read as a `T`.
    ///
    /// The value of a constant is the value of its `init`, unless that is itself a constant. The value of a literal is
    /// the literal itself. The value of the zero value of a scalar is [`Literal::zero`]. Returns
    /// [`ConstValueError::NonConst`] for all other expressions, and for the zero value of a scalar that has no zero. If
    /// the literal cannot be read as a `T`, returns the error of [`FromLiteral::from_literal`].
    ///
    /// The caller must ensure that `handle` is in the arena, and that the context is closed over the arena;
    /// [`Arena::check_contains_handle`] and [`is_closed_over`](Self::is_closed_over) test this.
    ///
    /// Differs from naga: naga panics if these preconditions are not met.
    pub fn get_const_val_from<T: FromLiteral>(
        &self,
        handle: Handle<Expression>,
        arena: &Arena<Expression>,
    ) -> Result<T, ConstValueError>
        requires within { handle < length arena.now }
        requires closed { IsClosedOver self.now arena.now }
        ensures { result ≡ const_value T.value_of (literal_at self.now arena.now handle) }
    {
        match self.const_literal(&arena[handle]) {
            Some(literal) => T::from_literal(literal),
            None => Err(ConstValueError::NonConst),
        }
    }

    /// Returns the literal that is the value of an expression, or `None` if it has no such value.
    ///
    /// Preconditions: the context contains the constants and the types of zero values that `expression` and the global
    /// expressions refer to, and the `init` of each constant.
    fn const_literal(&self, expression: &Expression) -> Option<Literal>
        requires known { IsKnown self.now expression.now }
        requires global_expressions { All (IsKnown self.now) (values self.now.global_expressions.now) }
        requires constants { All (HasInit self.now) (values self.now.constants.now) }
        ensures { result ≡ const_literal self.now expression.now }
    {
        match expression {
            Expression::Constant(constant) => {
                let init = self.constants[*constant].init;
                self.own_literal(&self.global_expressions[init])
            }
            _ => self.own_literal(expression),
        }
    }

    /// Returns the literal that an expression is by itself or as the zero value of a scalar, or `None` if it is
    /// neither.
    ///
    /// Precondition: the context contains the constant that `expression` refers to, or the type of the zero value.
    fn own_literal(&self, expression: &Expression) -> Option<Literal>
        requires { IsKnown self.now expression.now }
        ensures { result ≡ own_literal self.now expression.now }
    {
        match expression {
            Expression::Literal(literal) => Some(*literal),
            Expression::ZeroValue(ty) => match &self.types[*ty].inner {
                TypeInner::Scalar(scalar) => Literal::zero(*scalar),
                _ => None,
            },
            _ => None,
        }
    }

    /// Returns whether the context contains everything that is looked up for the constant expressions of an arena.
    ///
    /// This is each constant and each type of a zero value that the arena or the global expressions refer to, and the
    /// `init` of each constant and of each override.
    pub fn is_closed_over(&self, arena: &Arena<Expression>) -> bool
        ensures { IsTrue result ↔ IsClosedOver self.now arena.now }
    {
        self.knows_all(arena)
            && self.knows_all(self.global_expressions)
            && self.has_inits_of_constants()
            && self.has_inits_of_overrides()
    }

    /// Returns whether the context contains each constant and each type of a zero value that the arena refers to.
    fn knows_all(&self, arena: &Arena<Expression>) -> bool
        ensures { IsTrue result ↔ All (IsKnown self.now) (values arena.now) }
    {
        arena
            .as_slice()
            .iter()
            .all(|expression| self.knows(expression))
    }

    /// Returns whether the context contains the constant that an expression refers to, or the type of the zero value.
    fn knows(&self, expression: &Expression) -> bool
        ensures { IsTrue result ↔ IsKnown self.now expression.now }
    {
        match expression {
            Expression::Constant(constant) => constant.index() < self.constants.len(),
            Expression::ZeroValue(ty) => ty.index() < self.types.len(),
            _ => true,
        }
    }

    /// Returns whether the `init` of each constant is a global expression.
    fn has_inits_of_constants(&self) -> bool
        ensures { IsTrue result ↔ All (HasInit self.now) (values self.now.constants.now) }
    {
        self.constants
            .as_slice()
            .iter()
            .all(|constant| self.has(constant.init))
    }

    /// Returns whether the `init` of each override that has one is a global expression.
    fn has_inits_of_overrides(&self) -> bool
        ensures { IsTrue result ↔ All (MayHaveInit self.now) (values self.now.overrides.now) }
    {
        self.overrides
            .as_slice()
            .iter()
            .all(|named| self.may_have(named.init))
    }

    /// Returns whether a handle is that of a global expression.
    fn has(&self, init: Handle<Expression>) -> bool
        ensures { IsTrue result ↔ (init < length self.now.global_expressions.now) }
    {
        init.index() < self.global_expressions.len()
    }

    /// Returns whether a handle is that of a global expression, or there is no handle.
    fn may_have(&self, init: Option<Handle<Expression>>) -> bool
        ensures { IsTrue result ↔ IfSome init (λ init. init < length self.now.global_expressions.now) }
    {
        match init {
            Some(init) => self.has(init),
            None => true,
        }
    }
}
