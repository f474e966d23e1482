//! The type that is found where another one is required.
ghost use Rattle.std.specs.Prelude.{◌≡◌};
ghost use Rattle.std.specs.Option.{option_map};
ghost use Rattle.naga_kinds.specs.Scalar.{components_of};
ghost use Rattle.naga_typing.specs.Found.{found_in, operand_of, shape_of, short};
ghost use Rattle.naga_typing.specs.TypedFunctions.{context_of, types_of};

use crate::requirement::Requirement;
use crate::typed_function::TypedFunction;
use crate::words::ScalarName;
use naga_arena::Handle;
use naga_ir::{Expression, Scalar, Type, TypeInner, VectorSize};
use naga_typifier::TypeResolution;
use std::fmt;

/// The contents of a type, without their lists and in short.
#[derive(Clone, Copy, Debug, PartialEq, Eq)]
pub enum Shape {
    /// A scalar.
    Scalar(Scalar),
    /// A vector of a scalar.
    Vector(VectorSize, Scalar),
    /// A matrix, by the numbers of its columns and rows.
    Matrix(VectorSize, VectorSize, Scalar),
    /// A matrix whose elements are distributed over a subgroup.
    CooperativeMatrix(Scalar),
    /// An atomic.
    Atomic(Scalar),
    /// A pointer to a declared type.
    Pointer(Handle<Type>),
    /// A pointer to a scalar, or to a vector of this size.
    ValuePointer(Option<VectorSize>, Scalar),
    /// An array of a declared type.
    Array(Handle<Type>),
    /// A structure.
    Struct,
    /// An image.
    Image,
    /// A sampler, which compares depths if this is `true`.
    Sampler(bool),
    /// Geometry that rays are traced through.
    AccelerationStructure,
    /// A ray query.
    RayQuery,
    /// An array of resources of a declared type.
    BindingArray(Handle<Type>),
}

/// A type that is found where another one is required.
#[derive(Clone, Copy, Debug, PartialEq, Eq)]
pub struct FoundType {
    /// The handle of the type, if it is declared.
    pub declared: Option<Handle<Type>>,
    /// The contents of the type, unless it is declared and not in the module.
    pub shape: Option<Shape>,
}

/// Returns the number of components of a vector.
fn count(size: VectorSize) -> u8
    ensures { result ≡ components_of size }
{
    u8::from(size)
}

impl fmt::Display for Shape {
    ghost use Rattle.std.specs.Prelude.{Some};
    ghost use Rattle.naga_typing.specs.Messages.{shape_text};

    ghost output = { λ shape. Some (shape_text shape) };

    fn fmt<W: fmt::Write>(&self, f: &mut fmt::Formatter<W>) -> fmt::Result {
        match self {
            Shape::Scalar(scalar) => write!(f, "{}", ScalarName(*scalar)),
            Shape::Vector(size, scalar) => {
                write!(f, "vec{}<{}>", count(*size), ScalarName(*scalar))
            }
            Shape::Matrix(columns, rows, scalar) => write!(
                f,
                "mat{}x{}<{}>",
                count(*columns),
                count(*rows),
                ScalarName(*scalar)
            ),
            Shape::CooperativeMatrix(scalar) => {
                write!(f, "a cooperative matrix of {}", ScalarName(*scalar))
            }
            Shape::Atomic(scalar) => write!(f, "an atomic of {}", ScalarName(*scalar)),
            Shape::Pointer(base) => base.write_prefixed(f, "a pointer to type "),
            Shape::ValuePointer(None, scalar) => {
                write!(f, "a pointer to {}", ScalarName(*scalar))
            }
            Shape::ValuePointer(Some(size), scalar) => write!(
                f,
                "a pointer to vec{}<{}>",
                count(*size),
                ScalarName(*scalar)
            ),
            Shape::Array(base) => base.write_prefixed(f, "an array of type "),
            Shape::Struct => f.write_str("a structure"),
            Shape::Image => f.write_str("an image"),
            Shape::Sampler(true) => f.write_str("a sampler that compares depths"),
            Shape::Sampler(false) => f.write_str("a sampler"),
            Shape::AccelerationStructure => f.write_str("an acceleration structure"),
            Shape::RayQuery => f.write_str("a ray query"),
            Shape::BindingArray(base) => base.write_prefixed(f, "a binding array of type "),
        }
    }
}

impl fmt::Display for FoundType {
    ghost use Rattle.std.specs.Prelude.{Some};
    ghost use Rattle.naga_typing.specs.Messages.{found_text};

    ghost output = { λ found. Some (found_text found) };

    fn fmt<W: fmt::Write>(&self, f: &mut fmt::Formatter<W>) -> fmt::Result {
        match (self.declared, self.shape) {
            (Some(ty), Some(shape)) => write!(f, "type {} = {shape}", ty.index()),
            (Some(ty), None) => write!(f, "type {}, which is not declared", ty.index()),
            (None, Some(shape)) => write!(f, "{shape}"),
            (None, None) => f.write_str("no type"),
        }
    }
}

/// Returns the contents of a type, in short.
fn shape_of(inner: &TypeInner) -> Shape
    ensures { result ≡ shape_of inner.now }
{
    match inner {
        TypeInner::Scalar(scalar) => Shape::Scalar(*scalar),
        TypeInner::Vector { size, scalar } => Shape::Vector(*size, *scalar),
        TypeInner::Matrix {
            columns,
            rows,
            scalar,
        } => Shape::Matrix(*columns, *rows, *scalar),
        TypeInner::CooperativeMatrix { scalar, .. } => Shape::CooperativeMatrix(*scalar),
        TypeInner::Atomic(scalar) => Shape::Atomic(*scalar),
        TypeInner::Pointer { base, .. } => Shape::Pointer(*base),
        TypeInner::ValuePointer { size, scalar, .. } => Shape::ValuePointer(*size, *scalar),
        TypeInner::Array { base, .. } => Shape::Array(*base),
        TypeInner::Struct { .. } => Shape::Struct,
        TypeInner::Image { .. } => Shape::Image,
        TypeInner::Sampler { comparison } => Shape::Sampler(*comparison),
        TypeInner::AccelerationStructure { .. } => Shape::AccelerationStructure,
        TypeInner::RayQuery { .. } => Shape::RayQuery,
        TypeInner::BindingArray { base, .. } => Shape::BindingArray(*base),
    }
}

/// Returns the operand that a requirement is about, or `None` if it is about something else.
fn operand_of(requirement: &Requirement) -> Option<Handle<Expression>>
    ensures { result ≡ operand_of requirement.now }
{
    match requirement {
        Requirement::Operand { operand, .. } => Some(*operand),
        Requirement::Layers { image, .. }
        | Requirement::Samples { image, .. }
        | Requirement::Levels { image, .. } => Some(*image),
        Requirement::ArgumentCount { .. }
        | Requirement::CallResult { .. }
        | Requirement::NoResult
        | Requirement::MathArgument { .. }
        | Requirement::ComponentCount { .. }
        | Requirement::VectorEntries { .. }
        | Requirement::Contents { .. }
        | Requirement::Product { .. } => None,
    }
}

impl TypedFunction<'_> {
    /// Returns the type of the operand that a requirement is about, or `None` if no type is known.
    pub(crate) fn found(&self, requirement: &Requirement) -> Option<FoundType>
        ensures { result ≡ found_in (context_of self.now) (types_of self.now) requirement.now }
    {
        let Some(operand) = operand_of(requirement) else {
            return None;
        };
        match self.known.get(operand) {
            Some(ty) => Some(self.short(ty)),
            None => None,
        }
    }

    /// Returns a type, in short.
    fn short(&self, ty: &TypeResolution) -> FoundType
        ensures { result ≡ short (context_of self.now) ty.now }
    {
        match ty {
            TypeResolution::Handle(handle) => FoundType {
                declared: Some(*handle),
                shape: self.shape_at(*handle),
            },
            TypeResolution::Value(inner) => FoundType {
                declared: None,
                shape: Some(shape_of(inner)),
            },
        }
    }

    /// Returns the contents of a declared type, in short.
    fn shape_at(&self, ty: Handle<Type>) -> Option<Shape>
        ensures { result ≡ option_map shape_of ((context_of self.now).types ty) }
    {
        match self.declared(ty) {
            Some(inner) => Some(shape_of(inner)),
            None => None,
        }
    }
}
