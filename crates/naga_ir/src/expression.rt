//! Expressions: the computations of a shader.
ghost use Rattle.std.specs.Prelude.{◌≡◌};

use crate::literal::Literal;
use crate::module::{Constant, Function, GlobalVariable, LocalVariable, Override};
use crate::types::Type;
use crate::variants::clone_variants;
use naga_arena::Handle;
use naga_kinds::{
    BinaryOperator, Bytes, CooperativeRole, CooperativeSize, DerivativeAxis, DerivativeControl,
    Direction, MathFunction, RelationalFunction, ScalarKind, SwizzleComponent, UnaryOperator,
    VectorSize,
};
use std::alloc::AllocError;

/// An operation on an atomic value in one step, other than loading and storing it.
#[derive(Clone, Copy, Debug, PartialEq, Eq, PartialOrd, Ord, Hash)]
pub enum AtomicFunction {
    Add,
    Subtract,
    And,
    ExclusiveOr,
    InclusiveOr,
    Min,
    Max,
    /// Writes the new value. If there is a `compare`, writes it only if the old value is equal to `compare`.
    Exchange { compare: Option<Handle<Expression>> },
}

/// The mipmap level at which an image is sampled.
#[derive(Clone, Copy, Debug, PartialEq)]
pub enum SampleLevel {
    /// The level that the derivatives of the coordinate require.
    Auto,
    /// The finest level.
    Zero,
    /// This level.
    Exact(Handle<Expression>),
    /// The level of `Auto`, shifted by this number.
    Bias(Handle<Expression>),
    /// The level that these derivatives require.
    Gradient {
        x: Handle<Expression>,
        y: Handle<Expression>,
    },
}

impl SampleLevel {
    ghost use Rattle.naga_ir.specs.Expression.{implicit_derivatives};

    /// Returns whether derivatives of the coordinate determine the level, so that neighbouring fragments must take
    /// part.
    pub fn implicit_derivatives(&self) -> bool
        ensures { result ≡ implicit_derivatives self.now }
    {
        match self {
            SampleLevel::Auto | SampleLevel::Bias(_) => true,
            SampleLevel::Zero | SampleLevel::Exact(_) | SampleLevel::Gradient { .. } => false,
        }
    }
}

/// A query about an image.
#[derive(Clone, Copy, Debug, PartialEq)]
pub enum ImageQuery {
    /// The size of the image in texels: a `u32` for one dimension, otherwise a vector of `u32`.
    Size {
        /// The mipmap level whose size is queried. `None` is the finest level.
        level: Option<Handle<Expression>>,
    },
    /// The number of mipmap levels of the image, a `u32`.
    NumLevels,
    /// The number of array layers of the image, a `u32`.
    NumLayers,
    /// The number of samples of each texel, a `u32`.
    NumSamples,
}

/// The invocation whose value each invocation of a subgroup gets.
#[derive(Clone, Copy, Debug, PartialEq, Eq, PartialOrd, Ord, Hash)]
pub enum GatherMode {
    /// The active invocation with the least index.
    BroadcastFirst,
    /// The invocation with this index, which is the same for all invocations.
    Broadcast(Handle<Expression>),
    /// The invocation with this index, which each invocation chooses for itself.
    Shuffle(Handle<Expression>),
    /// The invocation whose index is that of the receiving invocation plus this number.
    ShuffleDown(Handle<Expression>),
    /// The invocation whose index is that of the receiving invocation minus this number.
    ShuffleUp(Handle<Expression>),
    /// The invocation whose index differs from that of the receiving invocation in these bits.
    ShuffleXor(Handle<Expression>),
    /// The invocation with this index in the same quad.
    QuadBroadcast(Handle<Expression>),
    /// The opposite invocation of the same quad.
    QuadSwap(Direction),
}

/// The location of a cooperative matrix in memory.
#[derive(Clone, Copy, Debug, PartialEq, Eq, PartialOrd, Ord, Hash)]
pub struct CooperativeData {
    /// A pointer to the first element.
    pub pointer: Handle<Expression>,
    /// The number of elements from the start of one row or column to the start of the next.
    pub stride: Handle<Expression>,
    /// `true` if the matrix is stored row by row, and `false` if it is stored column by column.
    pub row_major: bool,
}

/// A computation that yields a value and has no side effects.
///
/// A `Handle<Expression>` here refers to an expression of the same arena that comes before this one. An expression is
/// evaluated when the `Emit` statement that covers it is executed, except for expressions that have a value from the
/// start and for results of statements.
#[derive(Debug, PartialEq, Drop)]
pub enum Expression {
    /// A literal value. In a valid module, it is neither a NaN nor an infinity.
    Literal(Literal),
    /// The value of a constant.
    Constant(Handle<Constant>),
    /// The value of an override in the pipeline.
    Override(Handle<Override>),
    /// The zero value of a type.
    ZeroValue(Handle<Type>),
    /// A vector, matrix, array or structure that is composed of its components.
    // derive: value compose
    Compose {
        ty: Handle<Type>,
        components: Vec<Handle<Expression>>,
    },
    /// The element of a vector, matrix or array at a computed index. For a pointer to one of these, a pointer to the
    /// element.
    Access {
        base: Handle<Expression>,
        index: Handle<Expression>,
    },
    /// The element of a vector, matrix or array, or the member of a structure, at a known index. For a pointer to one
    /// of these, a pointer to the element or member.
    AccessIndex {
        base: Handle<Expression>,
        index: u32,
    },
    /// A vector of this size in which each component is the value.
    Splat {
        size: VectorSize,
        value: Handle<Expression>,
    },
    /// A vector of this size whose components are selected from another vector by the first entries of the pattern, one
    /// for each component.
    Swizzle {
        size: VectorSize,
        vector: Handle<Expression>,
        pattern: [SwizzleComponent; 4],
    },
    /// The argument with this index.
    FunctionArgument(u32),
    /// A pointer to a global variable. For a variable in the address space `Handle`, the value of the variable itself.
    GlobalVariable(Handle<GlobalVariable>),
    /// A pointer to a local variable.
    LocalVariable(Handle<LocalVariable>),
    /// The value that a pointer points to.
    Load {
        pointer: Handle<Expression>,
    },
    /// A sample of an image.
    ImageSample {
        image: Handle<Expression>,
        sampler: Handle<Expression>,
        /// The component of the four texels around the point that is gathered, if this is a gather operation.
        gather: Option<SwizzleComponent>,
        coordinate: Handle<Expression>,
        array_index: Option<Handle<Expression>>,
        /// The number of texels by which the point is shifted, which is a constant expression.
        offset: Option<Handle<Expression>>,
        level: SampleLevel,
        /// The value with which a `comparison` sampler compares.
        depth_ref: Option<Handle<Expression>>,
        /// `true` if the coordinate is kept half a texel away from the edges, regardless of the sampler.
        clamp_to_edge: bool,
    },
    /// A texel of an image: four components, or a scalar if the image is a depth image.
    ImageLoad {
        image: Handle<Expression>,
        /// The coordinate: as many integers as the image has dimensions.
        coordinate: Handle<Expression>,
        /// The index of the array layer. It is present if and only if the image is `arrayed`.
        array_index: Option<Handle<Expression>>,
        /// The index of the sample of the texel. It is present if and only if the image is multisampled.
        sample: Option<Handle<Expression>>,
        /// The mipmap level. It is present for each sampled or depth image that is not multisampled, even if the image
        /// has only one level, whose index is 0.
        level: Option<Handle<Expression>>,
    },
    /// The result of a query about an image.
    ImageQuery {
        image: Handle<Expression>,
        query: ImageQuery,
    },
    /// The result of an operator with one operand.
    Unary {
        op: UnaryOperator,
        expr: Handle<Expression>,
    },
    /// The result of an operator with two operands.
    Binary {
        op: BinaryOperator,
        left: Handle<Expression>,
        right: Handle<Expression>,
    },
    /// `accept` if the condition is true, and `reject` otherwise.
    Select {
        condition: Handle<Expression>,
        accept: Handle<Expression>,
        reject: Handle<Expression>,
    },
    /// The rate at which a value changes from pixel to pixel.
    Derivative {
        axis: DerivativeAxis,
        ctrl: DerivativeControl,
        expr: Handle<Expression>,
    },
    /// The result of a test of a value or of the components of a vector.
    Relational {
        fun: RelationalFunction,
        argument: Handle<Expression>,
    },
    /// The result of a mathematical function. There are as many arguments as the function takes.
    // derive: no flags
    Math {
        fun: MathFunction,
        arg: Handle<Expression>,
        arg1: Option<Handle<Expression>>,
        arg2: Option<Handle<Expression>>,
        arg3: Option<Handle<Expression>>,
    },
    /// A scalar or vector, cast to another kind.
    As {
        expr: Handle<Expression>,
        kind: ScalarKind,
        /// The width to which the value is converted, in bytes. If it is `None`, the bits stay the same.
        convert: Option<Bytes>,
    },
    /// The value that the function of a `Call` statement returned.
    CallResult(Handle<Function>),
    /// The value that an `Atomic` statement found. Exactly one such statement of the function has this expression as
    /// its result.
    AtomicResult {
        /// The scalar of the atomic, which is the type of the old value. With `comparison`, a structure with two
        /// members: `old_value`, of that scalar, and `exchanged`, a boolean.
        ty: Handle<Type>,
        /// `true` if the statement compares before it exchanges.
        comparison: bool,
    },
    /// The value that a `WorkGroupUniformLoad` statement read.
    WorkGroupUniformLoadResult {
        ty: Handle<Type>,
    },
    /// The number of elements, when the shader runs, of the array that a pointer points to.
    ArrayLength(Handle<Expression>),
    /// The positions of the corners of the triangle that a ray query hit.
    RayQueryVertexPositions {
        query: Handle<Expression>,
        committed: bool,
    },
    /// A boolean that is `true` if a ray query that proceeded has a candidate to examine.
    RayQueryProceedResult,
    /// The intersection that a ray query found: the committed one or the candidate.
    RayQueryGetIntersection {
        query: Handle<Expression>,
        committed: bool,
    },
    /// The bit mask that a `SubgroupBallot` statement created: four `u32`, with one bit for each invocation.
    SubgroupBallotResult,
    /// The result of a `SubgroupCollectiveOperation` or `SubgroupGather` statement.
    SubgroupOperationResult {
        ty: Handle<Type>,
    },
    /// A cooperative matrix that is read from memory.
    CooperativeLoad {
        columns: CooperativeSize,
        rows: CooperativeSize,
        role: CooperativeRole,
        data: CooperativeData,
    },
    /// The cooperative matrix `a * b + c`, computed from three cooperative matrices.
    CooperativeMultiplyAdd {
        a: Handle<Expression>,
        b: Handle<Expression>,
        c: Handle<Expression>,
    },
}

/// Clones the expression. Every expression except a [`Compose`](Expression::Compose) is plain data, and cloning it
/// allocates nothing.
impl Clone for Expression {
    ghost use Rattle.naga_ir.specs.Expression.{IsCloneOf, IsPlain};

    ghost is_clone = { IsCloneOf };

    ghost is_infallible = { IsPlain };

    fn clone(&self) -> Result<Self, AllocError> {
        clone_variants! {
            match self {
                Self::Compose { ty, components } => Ok(Self::Compose {
                    ty: *ty,
                    components: Clone::clone(components)?,
                }),
            }
            Literal(literal)
            Constant(constant)
            Override(handle)
            ZeroValue(ty)
            FunctionArgument(index)
            GlobalVariable(variable)
            LocalVariable(variable)
            CallResult(function)
            ArrayLength(array);
            Access { base, index }
            AccessIndex { base, index }
            Splat { size, value }
            Swizzle { size, vector, pattern }
            Load { pointer }
            ImageSample { image, sampler, gather, coordinate, array_index, offset, level, depth_ref, clamp_to_edge }
            ImageLoad { image, coordinate, array_index, sample, level }
            ImageQuery { image, query }
            Unary { op, expr }
            Binary { op, left, right }
            Select { condition, accept, reject }
            Derivative { axis, ctrl, expr }
            Relational { fun, argument }
            Math { fun, arg, arg1, arg2, arg3 }
            As { expr, kind, convert }
            AtomicResult { ty, comparison }
            WorkGroupUniformLoadResult { ty }
            RayQueryVertexPositions { query, committed }
            RayQueryProceedResult {}
            RayQueryGetIntersection { query, committed }
            SubgroupBallotResult {}
            SubgroupOperationResult { ty }
            CooperativeLoad { columns, rows, role, data }
            CooperativeMultiplyAdd { a, b, c }
        }
    }
}

impl Expression {
    ghost use Rattle.naga_ir.specs.Expression.{needs_pre_emit, is_dynamic_index};

    /// Returns whether the expression has its value when a function is entered, so that no `Emit` covers it.
    pub fn needs_pre_emit(&self) -> bool
        ensures { result ≡ needs_pre_emit self.now }
    {
        matches!(
            self,
            Expression::Literal(_)
                | Expression::Constant(_)
                | Expression::Override(_)
                | Expression::ZeroValue(_)
                | Expression::FunctionArgument(_)
                | Expression::GlobalVariable(_)
                | Expression::LocalVariable(_)
        )
    }

    /// Returns whether the expression, as an index, is known only after the shader is translated. Such an index can be
    /// used on a matrix only behind a pointer.
    ///
    /// The type of the expression is not checked.
    pub fn is_dynamic_index(&self) -> bool
        ensures { result ≡ is_dynamic_index self.now }
    {
        !matches!(
            self,
            Expression::Literal(_) | Expression::ZeroValue(_) | Expression::Constant(_)
        )
    }
}
