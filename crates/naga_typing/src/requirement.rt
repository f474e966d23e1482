//! What statements, expressions and initial values require of the values that they use.
ghost use Rattle.std.specs.Prelude.{◌≡◌};
ghost use Rattle.naga_typing.specs.Statements.{integer, integer_if, of_kind, of_type, of_type_if, selects};

use naga_arena::Handle;
use naga_ir::{Expression, Function, MathFunction, Scalar, ScalarKind, SwitchValue, Type};

/// The scalars of which a value consists.
#[derive(Clone, Copy, Debug, PartialEq, Eq)]
pub enum Scalars {
    /// Scalars of any kind.
    Any,
    /// Numbers of any kind.
    Numbers,
    /// Numbers that can be negative.
    Signed,
    /// Floating-point numbers.
    Floats,
    /// Integers whose type is chosen.
    Integers,
    /// Booleans, or integers whose type is chosen.
    Bits,
    /// Booleans.
    Booleans,
}

/// A kind of value that has many types.
#[derive(Clone, Copy, Debug, PartialEq, Eq)]
pub enum Kind {
    /// A pointer to a value that can be loaded and stored: data of a known size.
    Pointer,
    /// A pointer to an atomic.
    AtomicPointer,
    /// A pointer to a variable in workgroup memory.
    WorkGroupPointer,
    /// An image that a shader can write to.
    StorageImage,
    /// A pointer to a ray query.
    RayQueryPointer,
    /// Geometry that rays are traced through.
    AccelerationStructure,
    /// A pointer to a payload that the stages of a ray pipeline pass on.
    RayPayload,
    /// A matrix whose elements are distributed over a subgroup.
    CooperativeMatrix,
    /// One of these scalars.
    Single(Scalars),
    /// One of these scalars, or a vector of them.
    Components(Scalars),
    /// One of these scalars, or a vector or a matrix of them.
    Entries(Scalars),
    /// An image that can be sampled.
    SampledImage,
    /// An image of depths.
    DepthImage,
    /// A sampler, which compares depths if and only if this is `true`.
    Sampler(bool),
    /// A pointer to an array whose length is known when the shader runs.
    DynamicArrayPointer,
    /// A vector that has at least this number of components.
    VectorWith(u32),
    /// Data of a known size.
    Data,
    /// The result of an exchange that compares: a structure of the old value and whether it was exchanged.
    ExchangeResult,
    /// A scalar that can be converted to this one, or a vector of such.
    Convertible(Scalar),
    /// A scalar whose bits are those of one of this kind, or a vector of such.
    BitsOf(ScalarKind),
    /// An image of whose texels the component at this position can be gathered.
    GatheredImage(u32),
    /// An image whose texels have coordinates, which is no cube.
    TexelImage,
    /// A pointer to a ray query that returns the vertices that are hit.
    VertexQueryPointer,
    /// A number, or a vector, a matrix or a cooperative matrix of numbers.
    Summand,
}

/// Where the type that an operand must have comes from.
#[derive(Clone, Copy, Debug, PartialEq, Eq)]
pub enum Source {
    /// A scalar.
    Scalar(Scalar),
    /// The value of a case of a switch.
    Case(SwitchValue),
    /// The type of another expression.
    Same(Handle<Expression>),
    /// What is loaded through a pointer.
    Loaded(Handle<Expression>),
    /// The scalar of the atomic behind a pointer.
    AtomicScalar(Handle<Expression>),
    /// The predeclared result of an exchange that compares, of the atomic behind a pointer.
    ExchangeResult(Handle<Expression>),
    /// A texel of an image.
    Texel(Handle<Expression>),
    /// One component of a texel of an image.
    Component(Handle<Expression>),
    /// The argument of a function at a position.
    Argument(Handle<Function>, usize),
    /// The description of a ray, which is one of the special types of the module.
    RayDescription,
    /// The result of the function.
    FunctionResult,
    /// The type that a constant, an override or a variable declares.
    Declared(Handle<Type>),
    /// The scalar of which another expression consists.
    Entry(Handle<Expression>),
    /// This scalar, or as many of it as another expression has components.
    Along(Handle<Expression>, Scalar),
    /// A coordinate of an image, of components that are this scalar.
    Position(Handle<Expression>, Scalar),
}

/// What an operand must be.
#[derive(Clone, Copy, Debug, PartialEq, Eq)]
pub enum Expected {
    /// A value of this kind.
    Kind(Kind),
    /// A value of the type that comes from this source.
    Type(Source),
    /// An `i32` or a `u32`.
    Integer,
    /// A coordinate of an image, of components that are `i32` or `u32`.
    Coordinate(Handle<Expression>),
    /// A pointer to the elements of a cooperative matrix.
    CooperativeData(Handle<Expression>),
    /// A value of the type that comes from either of two sources.
    Either(Source, Source),
    /// A value that consists of the same scalar as another expression.
    SameScalar(Handle<Expression>),
    /// An unsigned integer, or as many of them as another expression has components.
    Shift(Handle<Expression>),
    /// A level of an image: an `i32` or a `u32` if it has depths, and otherwise an `f32`.
    Level(Handle<Expression>),
    /// A value for the component of a composite type at this position, the first being 0: of a vector, a scalar or a
    /// vector of its scalar, and otherwise the column, the element or the member.
    Component(Handle<Type>, usize),
}

/// The first four components of a composite value, which are all if it is a vector.
#[derive(Clone, Copy, Debug, PartialEq, Eq)]
pub struct FirstComponents {
    /// The first component.
    pub first: Option<Handle<Expression>>,
    /// The second component.
    pub second: Option<Handle<Expression>>,
    /// The third component.
    pub third: Option<Handle<Expression>>,
    /// The fourth component.
    pub fourth: Option<Handle<Expression>>,
}

/// What a statement, an expression or an initial value requires of the values that it uses.
#[derive(Clone, Copy, Debug, PartialEq, Eq)]
pub enum Requirement {
    /// An operand is what is expected.
    Operand {
        operand: Handle<Expression>,
        expected: Expected,
    },
    /// There is an index of an array layer if and only if the image has array layers.
    Layers {
        image: Handle<Expression>,
        has_index: bool,
    },
    /// The function that is called takes this number of arguments.
    ArgumentCount {
        function: Handle<Function>,
        count: usize,
    },
    /// The call has a result if and only if the function returns a value.
    CallResult {
        function: Handle<Function>,
        has_result: bool,
    },
    /// The function returns no value.
    NoResult,
    /// There is an index of a sample if and only if each texel of the image has several samples.
    Samples {
        image: Handle<Expression>,
        has_index: bool,
    },
    /// There is a level if and only if the image has mipmap levels.
    Levels {
        image: Handle<Expression>,
        has_level: bool,
    },
    /// The mathematical function has an argument at this position, the first being 0, if and only if one is given.
    MathArgument {
        fun: MathFunction,
        position: usize,
        is_given: bool,
    },
    /// A value of this type can be composed of this number of components.
    ComponentCount {
        ty: Handle<Type>,
        count: usize,
    },
    /// The components together have as many scalars as the type, if it is a vector.
    VectorEntries {
        ty: Handle<Type>,
        first: FirstComponents,
    },
    /// A declared type is of this kind.
    Contents {
        ty: Handle<Type>,
        kind: Kind,
    },
    /// The cooperative matrices `a` and `b` have a product, which has the size of `c`.
    Product {
        a: Handle<Expression>,
        b: Handle<Expression>,
        c: Handle<Expression>,
    },
}

/// Requires that an operand is of this kind.
pub(crate) fn of_kind(operand: Handle<Expression>, kind: Kind) -> Option<Requirement>
    ensures { result ≡ of_kind operand kind }
{
    let expected = Expected::Kind(kind);
    Some(Requirement::Operand { operand, expected })
}

/// Requires that an operand has the type that comes from a source.
pub(crate) fn of_type(source: Source, operand: Handle<Expression>) -> Option<Requirement>
    ensures { result ≡ of_type source operand }
{
    let expected = Expected::Type(source);
    Some(Requirement::Operand { operand, expected })
}

/// Requires that an operand is an `i32` or a `u32`.
pub(crate) fn integer(operand: Handle<Expression>) -> Option<Requirement>
    ensures { result ≡ integer operand }
{
    let expected = Expected::Integer;
    Some(Requirement::Operand { operand, expected })
}

/// Requires that an operand that may be absent has the type that comes from a source.
pub(crate) fn of_type_if(source: Source, operand: Option<Handle<Expression>>) -> Option<Requirement>
    ensures { result ≡ of_type_if source operand }
{
    match operand {
        Some(operand) => of_type(source, operand),
        None => None,
    }
}

/// Requires that an operand that may be absent is an `i32` or a `u32`.
pub(crate) fn integer_if(operand: Option<Handle<Expression>>) -> Option<Requirement>
    ensures { result ≡ integer_if operand }
{
    match operand {
        Some(operand) => integer(operand),
        None => None,
    }
}

/// Requires that a selector has the type of the value of a case, unless it is the default.
pub(crate) fn selects(selector: Handle<Expression>, value: SwitchValue) -> Option<Requirement>
    ensures { result ≡ selects selector value }
{
    match value {
        SwitchValue::Default => None,
        SwitchValue::I32(_) | SwitchValue::U32(_) => of_type(Source::Case(value), selector),
    }
}
