//! Which accesses of a function are clamped.
ghost use Rattle.std.specs.Prelude.{◌≡◌, ◌≤◌, ◌<◌, ◌∷◌, ◌++◌, [], All, IfErr, IfOk, OnOk, Some, Ok, Err, length, vec_capacity};
ghost use Rattle.naga_arena.specs.Limits.{max_len};
ghost use Rattle.naga_bounds.specs.Changes.{AreChanges, change_at, clamp_at, clamp_found, clamp_of, counts_by, index_at, is_convertible, is_decided, is_integer, is_told, is_u32, takes_constants};
ghost use Rattle.naga_bounds.specs.Fits.{length_found};
ghost use Rattle.naga_bounds.specs.Plans.{IsShort};
ghost use Rattle.naga_bounds.specs.Reach.{contents_at, expression_at};
ghost use Rattle.naga_bounds.specs.RestrictedModules.{IsUnplanned};
ghost use Rattle.naga_bounds.specs.declared.change.Change.{Change as TheChange};

use crate::accesses::Accesses;
use crate::cause::{Cause, Position};
use crate::change::{Change, Clamp, ClampedIndex};
use crate::forms::number_of;
use crate::length::Length;
use crate::restrict_error::Obstacle;
use naga_arena::{Arena, Handle, UniqueArena};
use naga_ir::{Expression, Override, ScalarKind, Type, TypeInner};
use std::alloc::Global;

/// Returns whether the contents are those of the type `u32`.
fn is_u32(inner: &TypeInner) -> bool
    ensures { result ≡ is_u32 (Some inner.now) }
{
    match inner {
        TypeInner::Scalar(scalar) => match scalar.kind {
            ScalarKind::Uint => scalar.width == 4,
            _ => false,
        },
        _ => false,
    }
}

/// Returns whether the contents are those of an integer type.
fn is_integer(inner: &TypeInner) -> bool
    ensures { result ≡ is_integer (Some inner.now) }
{
    match inner {
        TypeInner::Scalar(scalar) => match scalar.kind {
            ScalarKind::Sint => true,
            ScalarKind::Uint => true,
            _ => false,
        },
        _ => false,
    }
}

/// Returns whether an override is of type `u32`.
fn counts(overrides: &Arena<Override>, types: &UniqueArena<Type>, size: Handle<Override>) -> bool
    ensures { result ≡ counts_by overrides.now types.now size }
{
    let Ok(size) = overrides.try_get(size) else {
        return false;
    };
    match types.get_handle(size.ty) {
        Ok(ty) => is_u32(&ty.inner),
        Err(_) => false,
    }
}

impl<'a> Accesses<'a> {
    /// Returns what becomes of each expression. Returns `Err` if an access cannot be clamped, or if allocation fails.
    pub(crate) fn changes(
        &self,
        alloc: Global,
        overrides: &Arena<Override>,
    ) -> Result<Vec<Change>, Obstacle>
        ensures changes { IfOk result (λ changes. AreChanges (counts_by overrides.now self.now.types) self.now changes.items) }
        ensures short { IfOk result (λ changes. All IsShort changes.items) }
        ensures bound { IfOk result (λ changes. length changes.items ≤ max_len) }
        ensures error { IfErr result (IsUnplanned (counts_by overrides.now self.now.types) self.now) }
    {
        let Ok(mut changes) = Vec::with_capacity(alloc, self.len()) else {
            return Err(Obstacle::Memory);
        };
        'expressions: for index in 0..self.len() {
            let access = Handle::<Expression>::at(index);
            if let Err(cause) = self.push_change(&mut changes, overrides, access) {
                return Err(Obstacle::NoClamp { access, cause });
            }
        }
        Ok(changes)
    }

    /// Appends what becomes of an expression. Returns `Err` if it is an access that cannot be clamped.
    fn push_change(
        &self,
        changes: &mut Vec<Change>,
        overrides: &Arena<Override>,
        handle: Handle<Expression>,
    ) -> Result<(), Cause>
        requires { length changes.old.items < vec_capacity changes.old }
        ensures pushed { OnOk result ((change : TheChange)
            × (change_at (counts_by overrides.now self.now.types) self.now handle ≡ Ok change)
            × (changes.new.items ≡ changes.old.items ++ change ∷ [])) }
        ensures capacity { vec_capacity changes.new ≡ vec_capacity changes.old }
        ensures error { IfErr result (λ cause.
            (change_at (counts_by overrides.now self.now.types) self.now handle ≡ Err cause)
            × (changes.new.items ≡ changes.old.items)) }
    {
        // Each variant has an arm, since the borrow checker knows of no type that is deeper inside a result.
        match self.change(overrides, handle) {
            Ok(Change::Stays) => {
                changes.push_reserved(Change::Stays);
                Ok(())
            }
            Ok(Change::Clamped(clamp)) => {
                changes.push_reserved(Change::Clamped(clamp));
                Ok(())
            }
            Err(cause) => Err(cause),
        }
    }

    /// Returns what becomes of an expression, or why it is an access that cannot be clamped.
    pub(crate) fn change(
        &self,
        overrides: &Arena<Override>,
        handle: Handle<Expression>,
    ) -> Result<Change, Cause>
        ensures { result ≡ change_at (counts_by overrides.now self.now.types) self.now handle }
    {
        match self.misfit(handle) {
            Some(cause) => self.clamped(overrides, cause, handle),
            None => Ok(Change::Stays),
        }
    }

    /// Returns what becomes of an access that does not fit for this cause.
    fn clamped(
        &self,
        overrides: &Arena<Override>,
        cause: Cause,
        handle: Handle<Expression>,
    ) -> Result<Change, Cause>
        ensures { result ≡ clamp_of (counts_by overrides.now self.now.types) self.now cause (expression_at self.now handle) }
    {
        match self.typed.expression(handle) {
            Some(Expression::Access { base, index }) => {
                self.clamped_at(overrides, cause, *base, Position::Computed(*index))
            }
            Some(Expression::AccessIndex { base, index }) => {
                self.clamped_at(overrides, cause, *base, Position::Constant(*index))
            }
            _ => Err(cause),
        }
    }

    /// Returns what becomes of an access to the part of a base at a position.
    fn clamped_at(
        &self,
        overrides: &Arena<Override>,
        cause: Cause,
        base: Handle<Expression>,
        position: Position,
    ) -> Result<Change, Cause>
        ensures { result ≡ clamp_found (counts_by overrides.now self.now.types) self.now cause
            (length_found self.now (contents_at self.now base)) base position }
    {
        match self.length(base) {
            Ok(length) => self.clamped_below(overrides, cause, length, base, position),
            Err(unknown) => Err(unknown),
        }
    }

    /// Returns what becomes of an access to the part of a base of this length.
    fn clamped_below(
        &self,
        overrides: &Arena<Override>,
        cause: Cause,
        length: Length,
        base: Handle<Expression>,
        position: Position,
    ) -> Result<Change, Cause>
        ensures { result ≡ clamp_at (counts_by overrides.now self.now.types) self.now cause length base position }
    {
        if self.is_decided(&length, &position)
            || self.takes_constants(base)
            || !self.is_convertible(&position)
        {
            return Err(cause);
        }
        if !self.is_told(overrides, &length, base) {
            return Err(Cause::NoLength);
        }
        let index = self.clamped_index(&position);
        Ok(Change::Clamped(Clamp {
            length,
            base,
            index,
        }))
    }

    /// Returns whether both the length and the index are numbers.
    fn is_decided(&self, length: &Length, position: &Position) -> bool
        ensures { result ≡ is_decided self.now length.now position.now }
    {
        match length {
            Length::Fixed(_) => match position {
                Position::Constant(_) => true,
                Position::Computed(index) => self.is_number(*index),
            },
            Length::Overridden(_) => false,
            Length::Counted => false,
        }
    }

    /// Returns whether an expression is a literal whose number is known.
    fn is_number(&self, handle: Handle<Expression>) -> bool
        ensures { result ≡ is_decided self.now (Length.Fixed 0) (Position.Computed handle) }
    {
        match self.typed.expression(handle) {
            Some(expression) => number_of(expression).is_some(),
            None => false,
        }
    }

    /// Returns whether the value of a base is a matrix, which takes only constant indices.
    fn takes_constants(&self, base: Handle<Expression>) -> bool
        ensures { result ≡ takes_constants (contents_at self.now base) }
    {
        match self.typed.contents(base) {
            Some(TypeInner::Matrix { .. }) => true,
            _ => false,
        }
    }

    /// Returns whether an expression can give the length of a base.
    fn is_told(
        &self,
        overrides: &Arena<Override>,
        length: &Length,
        base: Handle<Expression>,
    ) -> bool
        ensures { result ≡ is_told (counts_by overrides.now self.now.types) self.now length.now base }
    {
        match length {
            Length::Fixed(count) => *count <= u32::MAX as usize,
            Length::Overridden(size) => counts(overrides, self.typed.types, *size),
            Length::Counted => self.is_place(base),
        }
    }

    /// Returns whether an index is a number, or of an integer type.
    fn is_convertible(&self, position: &Position) -> bool
        ensures { result ≡ is_convertible self.now position.now }
    {
        match position {
            Position::Constant(_) => true,
            Position::Computed(index) => match self.typed.contents(*index) {
                Some(inner) => is_integer(inner),
                None => false,
            },
        }
    }

    /// Returns the index that is clamped.
    fn clamped_index(&self, position: &Position) -> ClampedIndex
        ensures { result ≡ index_at self.now position.now }
    {
        match position {
            Position::Constant(number) => ClampedIndex::Constant(*number),
            Position::Computed(index) => {
                if self.is_unsigned(*index) {
                    ClampedIndex::Unsigned(*index)
                } else {
                    ClampedIndex::Converted(*index)
                }
            }
        }
    }

    /// Returns whether the value of an expression is of type `u32`.
    fn is_unsigned(&self, handle: Handle<Expression>) -> bool
        ensures { result ≡ is_u32 (contents_at self.now handle) }
    {
        match self.typed.contents(handle) {
            Some(inner) => is_u32(inner),
            None => false,
        }
    }
}
