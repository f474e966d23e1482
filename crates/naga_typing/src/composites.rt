//! The check of the components of composite values, and of the patterns of swizzles.
ghost use Rattle.std.specs.Prelude.{◌≡◌, ◌≤◌, ◌↔◌, IsTrue, option_and_then, slice_get, take};
ghost use Rattle.naga_kinds.specs.Scalar.{components_of};
ghost use Rattle.naga_typifier.specs.Rows.{part_of};
ghost use Rattle.naga_typifier.specs.Table.{the};
ghost use Rattle.naga_typing.specs.Checks.{Checks};
ghost use Rattle.naga_typing.specs.Composites.{entries, first_components, has_components, is_filled_by, takes, takes_elements, vector_scalar};
ghost use Rattle.naga_typing.specs.Expressions.{of_components, of_compose, of_parts, of_pattern, of_place};
ghost use Rattle.naga_typing.specs.Kinds.{component};
ghost use Rattle.naga_typing.specs.Requirements.{IsExpected, IsPart, entries_at, first_entries, passes};
ghost use Rattle.naga_typing.specs.TypedFunctions.{FitsIn, context_of, signature_of, types_of};
ghost use Rattle.naga_typing.specs.declared.requirement.Expected.TheVariants as expected;

use crate::expressions::of;
use crate::requirement::{Expected, FirstComponents, Kind, Requirement, of_kind};
use crate::typed_function::TypedFunction;
use crate::{kinds, rows};
use naga_arena::Handle;
use naga_ir::{ArraySize, Expression, Scalar, SwizzleComponent, Type, TypeInner, VectorSize};
use naga_typifier::TypeResolution;

impl TypedFunction<'_> {
    /// Checks the components of a composite value.
    pub(crate) fn check_compose(
        &self,
        ty: Handle<Type>,
        components: &[Handle<Expression>],
    ) -> Result<(), Requirement>
        ensures { Checks (FitsIn self.now) (of_compose ty components.now) result }
    {
        let count = components.len();
        match self.check_one(Some(Requirement::ComponentCount { ty, count })) {
            Ok(()) => self.check_parts(ty, components),
            Err(unmet) => Err(unmet),
        }
    }

    /// Checks the components of a composite value, and how many scalars they have.
    fn check_parts(
        &self,
        ty: Handle<Type>,
        components: &[Handle<Expression>],
    ) -> Result<(), Requirement>
        ensures { Checks (FitsIn self.now) (of_parts ty components.now) result }
    {
        match self.check_components(ty, components) {
            Ok(()) => {
                let first = first_components(components);
                self.check_one(Some(Requirement::VectorEntries { ty, first }))
            }
            Err(unmet) => Err(unmet),
        }
    }

    /// Checks each of the components of a composite value.
    fn check_components(
        &self,
        ty: Handle<Type>,
        components: &[Handle<Expression>],
    ) -> Result<(), Requirement>
        ensures { Checks (FitsIn self.now) (of_components ty 0 components.now) result }
    {
        'components: for position in 0..components.len() {
            let component = of(Expected::Component(ty, position), components[position]);
            if let Some(unmet) = self.unmet(&component) {
                return Err(unmet);
            }
        }
        Ok(())
    }

    /// Checks that a vector has the components that a swizzle selects.
    pub(crate) fn check_swizzle(
        &self,
        size: VectorSize,
        vector: Handle<Expression>,
        pattern: &[SwizzleComponent; 4],
    ) -> Result<(), Requirement>
        ensures { Checks (FitsIn self.now) (of_pattern vector (take (components_of size) pattern.now)) result }
    {
        self.check_pattern(vector, &pattern[..usize::from(u8::from(size))])
    }

    /// Checks that a vector has these components.
    fn check_pattern(
        &self,
        vector: Handle<Expression>,
        pattern: &[SwizzleComponent],
    ) -> Result<(), Requirement>
        ensures { Checks (FitsIn self.now) (of_pattern vector pattern.now) result }
    {
        'pattern: for position in 0..pattern.len() {
            let slot = place_at(vector, pattern, position);
            if let Some(unmet) = self.unmet(&slot) {
                return Err(unmet);
            }
        }
        Ok(())
    }

    /// Returns whether a value of a declared type can be composed of this number of components.
    pub(crate) fn takes_components(&self, ty: Handle<Type>, count: usize) -> bool
        ensures { result ≡ passes (takes count) ((context_of self.now).types ty) }
    {
        match self.declared(ty) {
            Some(inner) => takes(inner, count),
            None => false,
        }
    }

    /// Returns whether the first components of a composite value together have as many scalars as its type, if it is a
    /// vector.
    pub(crate) fn is_filled(&self, ty: Handle<Type>, first: &FirstComponents) -> bool
        ensures { result ≡ passes (is_filled_by (first_entries (context_of self.now) (types_of self.now) (signature_of self.now) first.now))
            ((context_of self.now).types ty) }
    {
        match self.declared(ty) {
            Some(inner) => is_filled_by(inner, self.first_entries(first)),
            None => false,
        }
    }

    /// Returns the number of scalars of the first components of a composite value.
    fn first_entries(&self, first: &FirstComponents) -> u32
        ensures { result ≡ first_entries (context_of self.now) (types_of self.now) (signature_of self.now) first.now }
    {
        self.entries_at(first.first)
            + self.entries_at(first.second)
            + self.entries_at(first.third)
            + self.entries_at(first.fourth)
    }

    /// Returns the number of scalars of an operand that may be absent, which is 0 unless it is a scalar or a vector.
    fn entries_at(&self, operand: Option<Handle<Expression>>) -> u32
        ensures is { result ≡ entries_at (context_of self.now) (types_of self.now) (signature_of self.now) operand }
        ensures small { result ≤ 4 }
    {
        let Some(operand) = operand else {
            return 0;
        };
        match self.contents(operand) {
            Some(inner) => entries(inner),
            None => 0,
        }
    }

    /// Returns whether an operand can be the component of a composite value of a declared type at a position.
    pub(crate) fn is_component(
        &self,
        operand: Handle<Expression>,
        ty: Handle<Type>,
        position: usize,
    ) -> bool
        ensures { IsTrue result ↔ IsExpected (context_of self.now) (types_of self.now) (signature_of self.now)
            operand (expected.Component ty position) }
    {
        match self.declared(ty) {
            Some(inner) => self.is_part(vector_scalar(inner), inner, position, operand),
            None => false,
        }
    }

    /// Returns whether an operand can be the component at a position of a value with these contents, which are a vector
    /// of a scalar if there is one.
    fn is_part(
        &self,
        of: Option<Scalar>,
        inner: &TypeInner,
        position: usize,
        operand: Handle<Expression>,
    ) -> bool
        ensures { IsTrue result ↔ IsPart (context_of self.now) (types_of self.now) (signature_of self.now)
            of inner.now position operand }
    {
        match of {
            Some(scalar) => self.consists_of(operand, scalar),
            None => match part_at(inner, position) {
                Some(ty) => self.has(operand, &ty),
                None => false,
            },
        }
    }

    /// Returns whether an operand is this scalar, or a vector of it.
    fn consists_of(&self, operand: Handle<Expression>, scalar: Scalar) -> bool
        ensures { IsTrue result ↔ (option_and_then component (the (context_of self.now) (types_of self.now) operand) ≡ Some scalar) }
    {
        let Some(inner) = self.contents(operand) else {
            return false;
        };
        match kinds::component(inner) {
            Some(found) => found == scalar,
            None => false,
        }
    }
}

/// Returns the first four of these components.
fn first_components(components: &[Handle<Expression>]) -> FirstComponents
    ensures { result ≡ first_components components.now }
{
    FirstComponents {
        first: component_at(components, 0),
        second: component_at(components, 1),
        third: component_at(components, 2),
        fourth: component_at(components, 3),
    }
}

/// Returns the component at this position, if there is one.
fn component_at(components: &[Handle<Expression>], position: usize) -> Option<Handle<Expression>>
    ensures { result ≡ slice_get components.now position }
{
    match components.get(position) {
        Some(component) => Some(*component),
        None => None,
    }
}

/// Requires that a vector has the component at a position of a pattern, if there is one.
fn place_at(
    vector: Handle<Expression>,
    pattern: &[SwizzleComponent],
    position: usize,
) -> Option<Requirement>
    ensures { result ≡ option_and_then (of_place vector) (slice_get pattern.now position) }
{
    match pattern.get(position) {
        Some(component) => of_place(vector, component),
        None => None,
    }
}

/// Requires that a vector has this component.
fn of_place(vector: Handle<Expression>, component: &SwizzleComponent) -> Option<Requirement>
    ensures { result ≡ of_place vector component.now }
{
    of_kind(vector, Kind::VectorWith(component.index() + 1))
}

/// Returns whether an array of this size can be composed of this number of elements.
fn takes_elements(size: ArraySize, count: usize) -> bool
    ensures { result ≡ takes_elements count size }
{
    match size {
        ArraySize::Constant(length) => count == length.get() as usize,
        ArraySize::Pending(_) => true,
        ArraySize::Dynamic => false,
    }
}

/// Returns whether a value of a type can be composed of this number of components.
fn takes(inner: &TypeInner, count: usize) -> bool
    ensures { result ≡ takes count inner.now }
{
    match inner {
        TypeInner::Vector { size, .. } => count <= usize::from(u8::from(*size)),
        TypeInner::Matrix { columns, .. } => count == usize::from(u8::from(*columns)),
        TypeInner::Array { size, .. } => takes_elements(*size, count),
        TypeInner::Struct { members, .. } => count == members.len(),
        _ => false,
    }
}

/// Returns the scalar of a vector, or `None` for any other type.
fn vector_scalar(inner: &TypeInner) -> Option<Scalar>
    ensures { result ≡ vector_scalar inner.now }
{
    match inner {
        TypeInner::Vector { scalar, .. } => Some(*scalar),
        _ => None,
    }
}

/// Returns the number of scalars of a scalar or a vector, which is 0 for any other type.
fn entries(inner: &TypeInner) -> u32
    ensures is { result ≡ entries inner.now }
    ensures small { result ≤ 4 }
{
    match inner {
        TypeInner::Scalar(_) => 1,
        TypeInner::Vector { size, .. } => u32::from(*size),
        _ => 0,
    }
}

/// Returns whether this is the number of scalars of a vector, if the type is one.
fn is_filled_by(inner: &TypeInner, count: u32) -> bool
    ensures { result ≡ is_filled_by count inner.now }
{
    match inner {
        TypeInner::Vector { size, .. } => count == u32::from(*size),
        _ => true,
    }
}

/// Returns whether there is a size, and a vector of this size has at least this number of components.
pub(crate) fn has_components(count: u32, size: Option<VectorSize>) -> bool
    ensures { result ≡ has_components count size }
{
    match size {
        Some(size) => count <= u32::from(size),
        None => false,
    }
}

/// Returns the type of the part of a value at a position.
fn part_at(inner: &TypeInner, position: usize) -> Option<TypeResolution>
    ensures { result ≡ part_of (Some position) inner.now }
{
    match inner {
        TypeInner::Vector { size, scalar } => {
            if position < usize::from(u8::from(*size)) {
                Some(rows::sized_type(None, *scalar))
            } else {
                None
            }
        }
        TypeInner::Matrix {
            columns,
            rows: size,
            scalar,
        } => {
            if position < usize::from(u8::from(*columns)) {
                Some(rows::sized_type(Some(*size), *scalar))
            } else {
                None
            }
        }
        TypeInner::Array { base, .. } | TypeInner::BindingArray { base, .. } => {
            Some(TypeResolution::Handle(*base))
        }
        TypeInner::Struct { members, .. } => match members.get(position) {
            Some(member) => Some(TypeResolution::Handle(member.ty)),
            None => None,
        },
        _ => None,
    }
}
