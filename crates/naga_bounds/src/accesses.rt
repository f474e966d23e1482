//! The accesses of a function, and why they may be out of bounds.
ghost use Rattle.std.specs.Prelude.{◌≡◌, ◌≤◌, ◌-◌, ◌++◌, ◌↔◌, ℕ, IfErr, IfOk, IfSome, IsTrue, OnOk, [], ◌∷◌, Some, length, nat_eq, nat_le, option_and_then, take};
ghost use Rattle.naga_arena.specs.Limits.{max_len};
ghost use Rattle.naga_kinds.specs.Scalar.{components_of};
ghost use Rattle.naga_ir.specs.View.{tree_of};
ghost use Rattle.naga_ir.specs.declared.expression.Expression.TheVariants as expr;
ghost use Rattle.naga_flow.specs.Misuses.{BlockMisuse, Judged};
ghost use Rattle.naga_flow.specs.Readings.{emitted_in, passes};
ghost use Rattle.naga_flow.specs.Scopes.{BlockPasses};
ghost use Rattle.naga_bounds.specs.Fits.{EachFits, are_ordered, at_most, bound_of, difference_of, first_misfit, is_bounded, is_divisor, is_length, is_length_less_one, is_limit, is_unsigned, length_found, misfit, misfit_at, misfit_count, misfit_of_constant, misfit_of, misfit_of_index, number_of};
ghost use Rattle.naga_bounds.specs.Modules.{typed_in};
ghost use Rattle.naga_bounds.specs.RestrictedModules.{IsObstacle, IsTyped};
ghost use Rattle.naga_bounds.specs.Reach.{Typed, at_use, contents_at, expression_at, is_fixed_access, positions_of};
ghost use Rattle.naga_bounds.specs.Unfit.{unfit_accesses, unfit_at};

use crate::cause::{Cause, Position};
use crate::forms::{counted_by, difference_of, number_of, override_of, unsigned_of};
use crate::invalid_access::UnfitAccess;
use crate::length::{Length, length_reached};
use crate::places::places;
use crate::restrict_error::Obstacle;
use crate::typed::TypedExpressions;
use naga_arena::Handle;
use naga_flow::{InvalidUse, check_emitted};
use naga_ir::{
    BinaryOperator, Expression, Function, MathFunction, Module, Override, SwizzleComponent,
    VectorSize,
};
use naga_sets::HandleSet;
use std::alloc::{AllocError, Global};
use std::marker::Model;

/// The expressions of a function with their types, and those of them that are evaluated where they are used.
#[derive(Drop)]
pub(crate) struct Accesses<'a> {
    pub(crate) typed: TypedExpressions<'a>,
    places: HandleSet<Expression>,
}

impl<'a> Model for Accesses<'a> {
    ghost use Rattle.naga_flow.specs.ConstantChains.{AreConstantChains};
    ghost use Rattle.naga_bounds.specs.Reach.{Typed, is_fixed_access};

    ghost Value = { Typed };

    ghost view = { λ all. all.typed };

    ghost invariant = { λ all. AreConstantChains (is_fixed_access all.typed) all.typed.arena all.places };
}

impl<'a> Accesses<'a> {
    /// Finds the types of the expressions of a function, and those that are evaluated where they are used. Returns
    /// `None` if allocation fails.
    pub(crate) fn of(alloc: Global, module: &'a Module, function: &'a Function) -> Option<Self>
        ensures { IfSome result (λ accesses. accesses ≡ typed_in «module».now function.now) }
    {
        let typed = TypedExpressions::of(alloc, module, function)?;
        match places(alloc, &typed) {
            Ok(places) => Some(Accesses { typed, places }),
            Err(_) => None,
        }
    }

    /// Finds the types of the expressions of a function, and those that are evaluated where they are used. Returns
    /// `Err` if an expression has no type, or if allocation fails.
    pub(crate) fn typed(
        alloc: Global,
        module: &'a Module,
        function: &'a Function,
    ) -> Result<Self, Obstacle>
        ensures value { IfOk result (λ accesses. accesses ≡ typed_in «module».now function.now) }
        ensures typed { OnOk result (IsTyped «module».now function.now) }
        ensures error { IfErr result (IsObstacle «module».now function.now) }
    {
        let typed = match TypedExpressions::all(alloc, module, function) {
            Ok(typed) => typed,
            Err(obstacle) => return Err(obstacle),
        };
        match places(alloc, &typed) {
            Ok(places) => Ok(Accesses { typed, places }),
            Err(_) => Err(Obstacle::Memory),
        }
    }

    /// Checks the uses of the function, where accesses by constant indices below fixed lengths may be evaluated where they
    /// are used.
    pub(crate) fn check_emitted(&self, alloc: Global, function: &Function) -> Result<(), InvalidUse>
        requires { function.now.expressions ≡ self.now.arena }
        ensures { let expressions = emitted_in (is_fixed_access self.now) function.now.expressions in
            Judged result (λ _. BlockPasses expressions [] [] (tree_of function.now.body))
            (λ misuse. BlockMisuse expressions 0 [] [] (tree_of function.now.body) misuse
            × ¬ BlockPasses expressions [] [] (tree_of function.now.body)) }
    {
        check_emitted(alloc, function, &self.places)
    }

    /// Returns the number of expressions.
    pub(crate) fn len(&self) -> usize
        ensures value { result ≡ length self.now.arena }
        ensures bound { result ≤ max_len }
    {
        self.typed.expressions.len()
    }

    /// Returns whether each access fits.
    pub(crate) fn all_fit(&self) -> bool
        ensures { IsTrue result ↔ EachFits self.now }
    {
        'expressions: for index in 0..self.len() {
            if self.misfit(Handle::<Expression>::at(index)).is_some() {
                return false;
            }
        }
        true
    }

    /// Returns how many accesses do not fit.
    pub(crate) fn misfit_count(&self) -> usize
        ensures { result ≡ misfit_count self.now }
    {
        let mut count = 0;
        'expressions: for index in 0..self.len() {
            if self.misfit(Handle::<Expression>::at(index)).is_some() {
                count += 1;
            }
        }
        count
    }

    /// Returns the accesses that do not fit, up to `limit`.
    pub(crate) fn unfit(&self, alloc: Global, limit: usize) -> Result<Vec<UnfitAccess>, AllocError>
        ensures { IfOk result (λ found. found.items ≡ take limit (unfit_accesses self.now)) }
    {
        let mut found = Vec::new(alloc);
        'expressions: for index in 0..self.len() {
            self.push_unfit(&mut found, limit, Handle::<Expression>::at(index))?;
        }
        Ok(found)
    }

    /// Appends an access if it does not fit, unless there are as many as `limit`.
    fn push_unfit(
        &self,
        found: &mut Vec<UnfitAccess>,
        limit: usize,
        expression: Handle<Expression>,
    ) -> Result<(), AllocError>
        ensures { OnOk result (found.new.items
            ≡ found.old.items ++ take (limit - length found.old.items) (unfit_at self.now expression)) }
    {
        let Some(cause) = self.misfit(expression) else {
            return Ok(());
        };
        if found.len() >= limit {
            return Ok(());
        }
        found.extend_from_slice(&[UnfitAccess { expression, cause }])
    }

    /// Returns why an access may be out of bounds, or `None` if it is in bounds or the expression is no access.
    pub(crate) fn misfit(&self, handle: Handle<Expression>) -> Option<Cause>
        ensures { result ≡ misfit self.now handle }
    {
        match self.typed.expression(handle)? {
            Expression::Access { base, index } => {
                self.misfit_of_access(*base, Position::Computed(*index))
            }
            Expression::AccessIndex { base, index } => {
                self.misfit_of_access(*base, Position::Constant(*index))
            }
            Expression::Swizzle {
                size,
                vector,
                pattern,
            } => self.misfit_of_swizzle(*size, *vector, pattern),
            _ => None,
        }
    }

    /// Returns the length of a base, or the reason why it is not known.
    pub(crate) fn length(&self, base: Handle<Expression>) -> Result<Length, Cause>
        ensures { result ≡ length_found self.now (contents_at self.now base) }
    {
        let Some(contents) = self.typed.contents(base) else {
            return Err(Cause::NoType);
        };
        match length_reached(self.typed.types, contents) {
            Some(length) => Ok(length),
            None => Err(Cause::NoLength),
        }
    }

    /// Returns why an access to one part of a base may be out of bounds.
    fn misfit_of_access(&self, base: Handle<Expression>, position: Position) -> Option<Cause>
        ensures { result ≡ misfit_of self.now (Some (record { base = base; positions = position ∷ [] })) }
    {
        match self.length(base) {
            Ok(length) => self.misfit_at(length, base, position),
            Err(cause) => Some(cause),
        }
    }

    /// Returns why a swizzle may be out of bounds.
    fn misfit_of_swizzle(
        &self,
        size: VectorSize,
        vector: Handle<Expression>,
        pattern: &[SwizzleComponent; 4],
    ) -> Option<Cause>
        ensures { result ≡ misfit_of self.now (Some (record { base = vector; positions = positions_of (take (components_of size) pattern.now) })) }
    {
        match self.length(vector) {
            Ok(length) => misfit_of_components(&length, &pattern[..usize::from(u8::from(size))]),
            Err(cause) => Some(cause),
        }
    }

    /// Returns why a base may have no part at a position.
    fn misfit_at(
        &self,
        length: Length,
        base: Handle<Expression>,
        position: Position,
    ) -> Option<Cause>
        ensures { result ≡ misfit_at self.now length base position }
    {
        match position {
            Position::Constant(number) => misfit_of_constant(length, number),
            Position::Computed(index) => self.misfit_of_index(length, base, index),
        }
    }

    /// Returns why a base may have no part at the index that is the value of an expression.
    fn misfit_of_index(
        &self,
        length: Length,
        base: Handle<Expression>,
        index: Handle<Expression>,
    ) -> Option<Cause>
        ensures { result ≡ misfit_of_index self.now length base index (option_and_then number_of (expression_at self.now index)) }
    {
        let Some(expression) = self.typed.expression(index) else {
            return Some(Cause::Index(index));
        };
        if let Some(number) = number_of(expression) {
            return misfit_of_constant(length, number);
        }
        if self.is_clamped(length, base, expression) {
            None
        } else {
            Some(Cause::Index(index))
        }
    }

    /// Returns whether the operands of an expression show that its value is below the length.
    fn is_clamped(&self, length: Length, base: Handle<Expression>, expression: &Expression) -> bool
        ensures { result ≡ is_bounded self.now length base (bound_of expression.now) }
    {
        match expression {
            Expression::Math {
                fun: MathFunction::Min,
                arg,
                arg1: Some(arg1),
                arg2: None,
                arg3: None,
            } => self.has_limit(&length, base, *arg, *arg1),
            Expression::Math {
                fun: MathFunction::Clamp,
                arg1: Some(low),
                arg2: Some(high),
                arg3: None,
                ..
            } => self.is_limit(length, base, *high) && self.are_ordered(*low, *high),
            Expression::Binary { op, left, right } => {
                self.is_bounded_by_binary(length, base, *op, *left, *right)
            }
            _ => false,
        }
    }

    /// Returns whether the operands of a binary operator show that its value is below the length.
    fn is_bounded_by_binary(
        &self,
        length: Length,
        base: Handle<Expression>,
        op: BinaryOperator,
        left: Handle<Expression>,
        right: Handle<Expression>,
    ) -> bool
        ensures { result ≡ is_bounded self.now length base (bound_of (expr.Binary op left right)) }
    {
        match op {
            BinaryOperator::And => self.has_limit(&length, base, left, right),
            BinaryOperator::Modulo => self.is_divisor(length, base, right),
            _ => false,
        }
    }

    /// Returns whether the value of one of two expressions is of type `u32` and below the length.
    fn has_limit(
        &self,
        length: &Length,
        base: Handle<Expression>,
        first: Handle<Expression>,
        second: Handle<Expression>,
    ) -> bool
        ensures { result ≡ is_bounded self.now length.now base (Some (at_most first second)) }
    {
        self.is_limit(*length, base, first) || self.is_limit(*length, base, second)
    }

    /// Returns whether an expression is a literal of type `u32` that is 0 or at most that of another expression.
    fn are_ordered(&self, low: Handle<Expression>, high: Handle<Expression>) -> bool
        ensures { result ≡ are_ordered self.now low high }
    {
        let Some(expression) = self.typed.expression(low) else {
            return false;
        };
        match unsigned_of(expression) {
            Some(least) => least == 0 || self.is_at_least(least, high),
            None => false,
        }
    }

    /// Returns whether an expression is a literal of type `u32` that is not less than a number.
    fn is_at_least(&self, least: u32, handle: Handle<Expression>) -> bool
        ensures { result ≡ is_unsigned self.now (nat_le least) handle }
    {
        let Some(expression) = self.typed.expression(handle) else {
            return false;
        };
        match unsigned_of(expression) {
            Some(number) => least <= number,
            None => false,
        }
    }

    /// Returns whether the value of an expression is of type `u32`, not 0 and at most the length.
    fn is_divisor(
        &self,
        length: Length,
        base: Handle<Expression>,
        handle: Handle<Expression>,
    ) -> bool
        ensures { result ≡ is_divisor self.now length base handle }
    {
        match length {
            Length::Fixed(count) => self.is_divisor_of_fixed(count, handle),
            Length::Overridden(_) => false,
            Length::Counted => self.is_count(base, handle),
        }
    }

    /// Returns whether an expression is a literal of type `u32` that is not 0 and at most a length.
    fn is_divisor_of_fixed(&self, count: usize, handle: Handle<Expression>) -> bool
        ensures { result ≡ is_divisor self.now (Length.Fixed count) 0 handle }
    {
        let Some(expression) = self.typed.expression(handle) else {
            return false;
        };
        match unsigned_of(expression) {
            Some(number) => 0 < number && (number as usize) <= count,
            None => false,
        }
    }

    /// Returns whether the value of an expression is of type `u32` and below the length.
    fn is_limit(&self, length: Length, base: Handle<Expression>, limit: Handle<Expression>) -> bool
        ensures { result ≡ is_limit self.now length base limit }
    {
        let Some(expression) = self.typed.expression(limit) else {
            return false;
        };
        match length {
            Length::Fixed(count) => match unsigned_of(expression) {
                Some(number) => (number as usize) < count,
                None => false,
            },
            Length::Overridden(_) | Length::Counted => {
                self.is_length_less_one(length, base, expression)
            }
        }
    }

    /// Returns whether an expression is the length less one.
    fn is_length_less_one(
        &self,
        length: Length,
        base: Handle<Expression>,
        expression: &Expression,
    ) -> bool
        ensures { result ≡ is_length_less_one self.now length base (difference_of expression.now) }
    {
        match difference_of(expression) {
            Some((left, right)) => self.is_length(length, base, left) && self.is_one(right),
            None => false,
        }
    }

    /// Returns whether an expression is a literal of type `u32` and of the number one.
    fn is_one(&self, handle: Handle<Expression>) -> bool
        ensures { result ≡ is_unsigned self.now (nat_eq 1) handle }
    {
        match self.typed.expression(handle) {
            Some(expression) => unsigned_of(expression) == Some(1),
            None => false,
        }
    }

    /// Returns whether the value of an expression is the length of a base that an override or a buffer determines.
    fn is_length(
        &self,
        length: Length,
        base: Handle<Expression>,
        handle: Handle<Expression>,
    ) -> bool
        ensures { result ≡ is_length self.now length base handle }
    {
        match length {
            Length::Fixed(_) => false,
            Length::Overridden(size) => self.is_override(size, handle),
            Length::Counted => self.is_count(base, handle),
        }
    }

    /// Returns whether an expression is the value of an override.
    fn is_override(&self, size: Handle<Override>, handle: Handle<Expression>) -> bool
        ensures { result ≡ is_length self.now (Length.Overridden size) 0 handle }
    {
        match self.typed.expression(handle) {
            Some(expression) => override_of(expression) == Some(size),
            None => false,
        }
    }

    /// Returns whether an expression is the length of the array behind a pointer that is evaluated where it is used.
    fn is_count(&self, base: Handle<Expression>, handle: Handle<Expression>) -> bool
        ensures { result ≡ is_length self.now Length.Counted base handle }
    {
        match self.typed.expression(handle) {
            Some(expression) => counted_by(expression) == Some(base) && self.is_place(base),
            None => false,
        }
    }

    /// Returns whether an expression is evaluated where it is used.
    pub(crate) fn is_place(&self, handle: Handle<Expression>) -> bool
        ensures { result ≡ at_use self.now handle }
    {
        self.places.contains(handle)
    }
}

/// Returns why there may be no part with a constant index.
fn misfit_of_constant(length: Length, number: u32) -> Option<Cause>
    ensures { result ≡ misfit_of_constant length number }
{
    let has_part = match length {
        Length::Fixed(count) => (number as usize) < count,
        Length::Overridden(_) | Length::Counted => number == 0,
    };
    if has_part {
        None
    } else {
        Some(Cause::Part(number))
    }
}

/// Returns why a vector may lack one of these components, for the first that it may lack.
fn misfit_of_components(length: &Length, components: &[SwizzleComponent]) -> Option<Cause>
    ensures { (code : Typed) (base : ℕ) → result ≡ first_misfit code length.now base (positions_of components.now) }
{
    'components: for component in components {
        if let Some(cause) = misfit_of_constant(*length, component.index()) {
            return Some(cause);
        }
    }
    None
}
