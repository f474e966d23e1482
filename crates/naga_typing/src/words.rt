//! The words for requirements that are not met.
ghost use Rattle.std.specs.Fmt.{WritesOnOk};
ghost use Rattle.naga_typing.specs.Messages.{call_result_text, product_text};

use crate::requirement::{Expected, Kind, Requirement, Scalars, Source};
use naga_arena::Handle;
use naga_ir::{Expression, Function, Scalar, ScalarKind, SwitchValue};
use std::fmt;

impl fmt::Display for Kind {
    ghost use Rattle.std.specs.Prelude.{Some};
    ghost use Rattle.naga_typing.specs.Messages.{kind_text};

    ghost output = { λ kind. Some (kind_text kind) };

    fn fmt<W: fmt::Write>(&self, f: &mut fmt::Formatter<W>) -> fmt::Result {
        match self {
            Kind::Pointer => f.write_str("a pointer to data of a known size"),
            Kind::AtomicPointer => f.write_str("a pointer to an atomic"),
            Kind::WorkGroupPointer => f.write_str("a pointer into workgroup memory"),
            Kind::StorageImage => f.write_str("a storage image"),
            Kind::RayQueryPointer => f.write_str("a pointer to a ray query"),
            Kind::AccelerationStructure => f.write_str("an acceleration structure"),
            Kind::RayPayload => f.write_str("a pointer to a ray payload"),
            Kind::CooperativeMatrix => f.write_str("a cooperative matrix"),
            Kind::Single(scalars) => write!(f, "a scalar of {scalars}"),
            Kind::Components(scalars) => write!(f, "a scalar or a vector of {scalars}"),
            Kind::Entries(scalars) => write!(f, "a scalar, a vector or a matrix of {scalars}"),
            Kind::SampledImage => f.write_str("an image that can be sampled"),
            Kind::DepthImage => f.write_str("an image of depths"),
            Kind::Sampler(true) => f.write_str("a sampler that compares depths"),
            Kind::Sampler(false) => f.write_str("a sampler that does not compare depths"),
            Kind::DynamicArrayPointer => f.write_str("a pointer to an array of a dynamic size"),
            Kind::VectorWith(count) => write!(f, "a vector of at least {count} components"),
            Kind::Data => f.write_str("data of a known size"),
            Kind::ExchangeResult => f.write_str("a structure of a number and a boolean"),
            Kind::Convertible(to) => write!(
                f,
                "a scalar or a vector that can be converted to {} of {} bytes",
                ScalarName(*to),
                to.width
            ),
            Kind::GatheredImage(position) => write!(
                f,
                "an image of whose texels component {position} can be gathered"
            ),
            Kind::VertexQueryPointer => {
                f.write_str("a pointer to a ray query that returns vertices")
            }
            Kind::Summand => {
                f.write_str("a scalar, a vector or a matrix of numbers, or a cooperative matrix")
            }
            Kind::TexelImage => f.write_str("an image that is not a cube"),
            Kind::BitsOf(to) => write!(
                f,
                "a scalar or a vector whose bits are those of {}",
                ScalarsOfKind(*to)
            ),
        }
    }
}

impl fmt::Display for Scalars {
    ghost use Rattle.std.specs.Prelude.{Some};
    ghost use Rattle.naga_typing.specs.Messages.{scalars_text};

    ghost output = { λ scalars. Some (scalars_text scalars) };

    fn fmt<W: fmt::Write>(&self, f: &mut fmt::Formatter<W>) -> fmt::Result {
        f.write_str(match self {
            Scalars::Any => "any kind",
            Scalars::Numbers => "numbers",
            Scalars::Signed => "numbers that can be negative",
            Scalars::Floats => "floating-point numbers",
            Scalars::Integers => "integers",
            Scalars::Bits => "integers or booleans",
            Scalars::Booleans => "booleans",
        })
    }
}

impl fmt::Display for Source {
    ghost use Rattle.std.specs.Prelude.{Some};
    ghost use Rattle.naga_typing.specs.Messages.{source_text};

    ghost output = { λ source. Some (source_text source) };

    fn fmt<W: fmt::Write>(&self, f: &mut fmt::Formatter<W>) -> fmt::Result {
        match self {
            Source::Scalar(scalar) => write!(f, "{}", RequiredScalar(*scalar)),
            Source::Case(SwitchValue::I32(value)) => write!(f, "an i32, like the case {value}"),
            Source::Case(SwitchValue::U32(value)) => write!(f, "a u32, like the case {value}"),
            Source::Case(SwitchValue::Default) => f.write_str("of the type of the default case"),
            Source::Same(expression) => {
                expression.write_prefixed(f, "of the type of expression ")
            }
            Source::Loaded(pointer) => {
                pointer.write_prefixed(f, "of the type behind expression ")
            }
            Source::AtomicScalar(pointer) => {
                pointer.write_prefixed(f, "the scalar of the atomic behind expression ")
            }
            Source::ExchangeResult(pointer) => pointer.write_prefixed(
                f,
                "the predeclared result of an exchange of the atomic behind expression ",
            ),
            Source::Texel(image) => image.write_prefixed(f, "a texel of expression "),
            Source::Component(image) => {
                image.write_prefixed(f, "a component of a texel of expression ")
            }
            Source::Argument(function, position) => write!(
                f,
                "of the type of argument {position} of function {}",
                function.index()
            ),
            Source::RayDescription => f.write_str("a description of a ray"),
            Source::FunctionResult => f.write_str("of the type of the result of the function"),
            Source::Declared(ty) => ty.write_prefixed(f, "of the declared type, type "),
            Source::Entry(expression) => {
                expression.write_prefixed(f, "the scalar of expression ")
            }
            Source::Along(expression, scalar) => write!(
                f,
                "{}, for each component of expression {}",
                RequiredScalar(*scalar),
                expression.index()
            ),
            Source::Position(image, scalar) => write!(
                f,
                "{}, for each dimension of expression {}",
                RequiredScalar(*scalar),
                image.index()
            ),
        }
    }
}

impl fmt::Display for Expected {
    ghost use Rattle.std.specs.Prelude.{Some};
    ghost use Rattle.naga_typing.specs.Messages.{expected_text};

    ghost output = { λ expected. Some (expected_text expected) };

    fn fmt<W: fmt::Write>(&self, f: &mut fmt::Formatter<W>) -> fmt::Result {
        match self {
            Expected::Kind(kind) => write!(f, "{kind}"),
            Expected::Type(source) => write!(f, "{source}"),
            Expected::Integer => f.write_str("an i32 or a u32"),
            Expected::Coordinate(image) => {
                image.write_prefixed(f, "a coordinate of expression ")
            }
            Expected::CooperativeData(target) => {
                target.write_prefixed(f, "a pointer to elements of expression ")
            }
            Expected::Either(first, second) => write!(f, "{first}, or {second}"),
            Expected::SameScalar(other) => {
                other.write_prefixed(f, "made of the same scalar as expression ")
            }
            Expected::Shift(left) => {
                left.write_prefixed(f, "an unsigned integer for each component of expression ")
            }
            Expected::Level(image) => image.write_prefixed(f, "a level of expression "),
            Expected::Component(ty, position) => write!(
                f,
                "a value for component {position} of type {}",
                ty.index()
            ),
        }
    }
}

impl fmt::Display for Requirement {
    ghost use Rattle.naga_typing.specs.Messages.{requirement_text};

    ghost output = { λ requirement. requirement_text requirement };

    fn fmt<W: fmt::Write>(&self, f: &mut fmt::Formatter<W>) -> fmt::Result {
        match self {
            Requirement::Operand { operand, expected } => {
                write!(f, "expression {} must be {expected}", operand.index())
            }
            Requirement::Layers {
                image,
                has_index: true,
            } => image.write_prefixed(f, "layers are used, and there are none in expression "),
            Requirement::Layers {
                image,
                has_index: false,
            } => image.write_prefixed(f, "an index of a layer is missing for expression "),
            Requirement::ArgumentCount { function, count } => write!(
                f,
                "function {} does not take {count} arguments",
                function.index()
            ),
            Requirement::CallResult {
                function,
                has_result,
            } => write_call_result(f, *function, *has_result),
            Requirement::NoResult => f.write_str("a value must be returned"),
            Requirement::Samples {
                image,
                has_index: true,
            } => image.write_prefixed(f, "samples are used, and there are none in expression "),
            Requirement::Samples {
                image,
                has_index: false,
            } => image.write_prefixed(f, "the index of a sample is missing for expression "),
            Requirement::Levels {
                image,
                has_level: true,
            } => image.write_prefixed(f, "levels are used, and there are none in expression "),
            Requirement::Levels {
                image,
                has_level: false,
            } => image.write_prefixed(f, "a level is missing for expression "),
            Requirement::MathArgument {
                fun,
                position,
                is_given: true,
            } => write!(f, "{fun:?} takes no argument {position}"),
            Requirement::MathArgument {
                fun,
                position,
                is_given: false,
            } => write!(f, "argument {position} of {fun:?} is missing"),
            Requirement::ComponentCount { ty, count } => {
                write!(f, "type {} does not take {count} components", ty.index())
            }
            Requirement::VectorEntries { ty, .. } => ty.write_prefixed(
                f,
                "the components together do not have as many scalars as type ",
            ),
            Requirement::Contents { ty, kind } => {
                write!(f, "type {} must be {kind}", ty.index())
            }
            Requirement::Product { a, b, c } => write_product(f, *a, *b, *c),
        }
    }
}

/// Writes what is wrong with the result of a call.
fn write_call_result<W: fmt::Write>(
    f: &mut fmt::Formatter<W>,
    function: Handle<Function>,
    has_result: bool,
) -> fmt::Result
    ensures { WritesOnOk W.write_str_gives f.old result (call_result_text function has_result) f.new }
{
    function.write_prefixed(f, "function ")?;
    if has_result {
        f.write_str(" returns no value, and the call has a result")
    } else {
        f.write_str(" returns a value, and the call has no result")
    }
}

/// Writes that three cooperative matrices do not have the sizes of two factors and a summand.
fn write_product<W: fmt::Write>(
    f: &mut fmt::Formatter<W>,
    a: Handle<Expression>,
    b: Handle<Expression>,
    c: Handle<Expression>,
) -> fmt::Result
    ensures { WritesOnOk W.write_str_gives f.old result (product_text a b c) f.new }
{
    a.write_prefixed(f, "expressions ")?;
    b.write_prefixed(f, ", ")?;
    c.write_prefixed(f, " and ")?;
    f.write_str(" do not have the sizes of two factors and a summand")
}

/// A scalar that a value must be.
#[derive(Clone, Copy)]
struct RequiredScalar(Scalar);

impl fmt::Display for RequiredScalar {
    ghost use Rattle.std.specs.Prelude.{Some};
    ghost use Rattle.naga_typing.specs.Messages.{required_scalar_text};

    ghost output = { λ required. Some (required_scalar_text required.0) };

    fn fmt<W: fmt::Write>(&self, f: &mut fmt::Formatter<W>) -> fmt::Result {
        let name = ScalarName(self.0);
        match self.0.kind {
            ScalarKind::AbstractInt | ScalarKind::AbstractFloat => write!(f, "{name}"),
            _ => write!(f, "of the type {name}"),
        }
    }
}

/// The scalars of a kind.
#[derive(Clone, Copy)]
struct ScalarsOfKind(ScalarKind);

impl fmt::Display for ScalarsOfKind {
    ghost use Rattle.std.specs.Prelude.{Some};
    ghost use Rattle.naga_typing.specs.Messages.{scalar_kind_text};

    ghost output = { λ scalars. Some (scalar_kind_text scalars.0) };

    fn fmt<W: fmt::Write>(&self, f: &mut fmt::Formatter<W>) -> fmt::Result {
        f.write_str(match self.0 {
            ScalarKind::Sint => "signed integers",
            ScalarKind::Uint => "unsigned integers",
            ScalarKind::Float => "floating-point numbers",
            ScalarKind::Bool => "booleans",
            ScalarKind::AbstractInt => "abstract integers",
            ScalarKind::AbstractFloat => "abstract floats",
        })
    }
}

/// The name of the type of a scalar: its kind and its number of bits.
#[derive(Clone, Copy)]
pub(crate) struct ScalarName(pub(crate) Scalar);

impl fmt::Display for ScalarName {
    ghost use Rattle.std.specs.Prelude.{Some};
    ghost use Rattle.naga_typing.specs.Messages.{scalar_text};

    ghost output = { λ name. Some (scalar_text name.0) };

    fn fmt<W: fmt::Write>(&self, f: &mut fmt::Formatter<W>) -> fmt::Result {
        let bits = u32::from(self.0.width) * 8;
        match self.0.kind {
            ScalarKind::Sint => write!(f, "i{bits}"),
            ScalarKind::Uint => write!(f, "u{bits}"),
            ScalarKind::Float => write!(f, "f{bits}"),
            ScalarKind::Bool => f.write_str("bool"),
            ScalarKind::AbstractInt => f.write_str("an abstract integer"),
            ScalarKind::AbstractFloat => f.write_str("an abstract float"),
        }
    }
}
