//! The check of the operands of expressions.
ghost use Rattle.std.specs.Prelude.{◌≡◌, ◌≤◌, ◌∷◌, [], MatchResult, length, take};
ghost use Rattle.std.specs.List.{All};
ghost use Rattle.naga_arena.specs.Arena.{values};
ghost use Rattle.naga_arena.specs.Limits.{max_len};
ghost use Rattle.naga_typing.specs.Checks.{Checks};
ghost use Rattle.naga_typing.specs.Expressions.{ExpressionFits, cast_from, float, float_position, given, has_level_if, of, of_contents, of_depths, of_derivative, of_if, of_level, of_load, of_math, of_product, of_query, of_sample, of_sampled, of_second, of_select, of_third, outcome_of, related, required_by_expression, second_argument, taken, taken_left, taken_right, third_argument};
ghost use Rattle.naga_typing.specs.Faults.{IsFirstUnfit};
ghost use Rattle.naga_typing.specs.Statements.{of_kind};
ghost use Rattle.naga_typing.specs.TypedFunctions.{FitsIn};

use crate::requirement::{
    Expected, Kind, Requirement, Scalars, Source, integer_if, of_kind, of_type, of_type_if,
};
use crate::typed_function::TypedFunction;
use naga_arena::{Arena, Handle};
use naga_ir::{
    BinaryOperator, Bytes, Expression, ImageQuery, MathFunction, RelationalFunction, SampleLevel,
    Scalar, ScalarKind, SwizzleComponent, Type, UnaryOperator,
};

/// An expression of which an operand is not what is required.
#[derive(Clone, Copy)]
pub(crate) struct Unfit {
    /// The expression.
    pub(crate) expression: Handle<Expression>,
    /// What the expression requires and what is not met.
    pub(crate) requirement: Requirement,
}

impl TypedFunction<'_> {
    /// Checks the operands of this number of expressions at the beginning of an arena.
    ///
    /// Returns the first expression of which a requirement is not met, with the first such requirement.
    pub(crate) fn check_operands(
        &self,
        expressions: &Arena<Expression>,
        count: usize,
    ) -> Result<(), Unfit>
        requires within { count ≤ length expressions.now }
        requires fits { count ≤ max_len }
        ensures { MatchResult result (λ _. All (ExpressionFits (FitsIn self.now)) (take count (values expressions.now)))
            (λ unfit. IsFirstUnfit (FitsIn self.now) (values expressions.now) count unfit.expression unfit.requirement) }
    {
        'expressions: for index in 0..count {
            let expression = Handle::<Expression>::at(index);
            if let Err(requirement) = self.check_expression(&expressions[expression]) {
                return Err(Unfit {
                    expression,
                    requirement,
                });
            }
        }
        Ok(())
    }

    /// Checks what an expression requires of its operands.
    ///
    /// Returns the first requirement that is not met.
    pub(crate) fn check_expression(&self, expression: &Expression) -> Result<(), Requirement>
        ensures { Checks (FitsIn self.now) (required_by_expression expression.now) result }
    {
        match expression {
            Expression::ZeroValue(ty) => self.check_one(of_contents(*ty, Kind::Data)),
            Expression::Compose { ty, components } => {
                self.check_compose(*ty, components.as_slice())
            }
            Expression::Access { index, .. } => {
                self.check_kind(*index, Kind::Single(Scalars::Integers))
            }
            Expression::Swizzle {
                size,
                vector,
                pattern,
            } => self.check_swizzle(*size, *vector, pattern),
            Expression::Load { pointer } => self.check_kind(*pointer, Kind::Pointer),
            Expression::ImageSample {
                image,
                sampler,
                gather,
                coordinate,
                array_index,
                offset,
                level,
                depth_ref,
                ..
            } => self.check_sample(
                *image,
                *sampler,
                *gather,
                *coordinate,
                *array_index,
                *offset,
                level,
                *depth_ref,
            ),
            Expression::ImageLoad {
                image,
                coordinate,
                array_index,
                sample,
                level,
            } => self.check_load(*image, *coordinate, *array_index, *sample, *level),
            Expression::ImageQuery { image, query } => self.check_query(*image, query),
            Expression::Unary { op, expr } => self.check_kind(*expr, taken(*op)),
            Expression::Binary { op, left, right } => self.check_binary(*op, *left, *right),
            Expression::Select {
                condition,
                accept,
                reject,
            } => self.check_select(*condition, *accept, *reject),
            Expression::Derivative { expr, .. } => {
                self.check_kind(*expr, Kind::Components(Scalars::Floats))
            }
            Expression::Relational { fun, argument } => {
                self.check_kind(*argument, related(*fun))
            }
            Expression::Math {
                fun,
                arg,
                arg1,
                arg2,
                arg3,
            } => self.check_math(*fun, *arg, *arg1, *arg2, *arg3),
            Expression::As {
                expr,
                kind,
                convert,
            } => self.check_kind(*expr, cast_from(*kind, *convert)),
            Expression::AtomicResult { ty, comparison } => {
                self.check_one(of_contents(*ty, outcome_of(*comparison)))
            }
            Expression::ArrayLength(array) => { self.check_kind(*array, Kind::DynamicArrayPointer) }
            Expression::RayQueryVertexPositions { query, .. } => {
                self.check_kind(*query, Kind::VertexQueryPointer)
            }
            Expression::RayQueryGetIntersection { query, .. } => {
                self.check_kind(*query, Kind::RayQueryPointer)
            }
            Expression::CooperativeLoad { data, .. } => {
                self.check_type(Source::Scalar(Scalar::U32), data.stride)
            }
            Expression::CooperativeMultiplyAdd { a, b, c } => self.check_product(*a, *b, *c),
            Expression::Literal(_)
            | Expression::Constant(_)
            | Expression::Override(_)
            | Expression::AccessIndex { .. }
            | Expression::Splat { .. }
            | Expression::FunctionArgument(_)
            | Expression::GlobalVariable(_)
            | Expression::LocalVariable(_)
            | Expression::CallResult(_)
            | Expression::WorkGroupUniformLoadResult { .. }
            | Expression::RayQueryProceedResult
            | Expression::SubgroupBallotResult
            | Expression::SubgroupOperationResult { .. } => Ok(()),
        }
    }

    /// Checks the operands of a binary operator.
    fn check_binary(
        &self,
        op: BinaryOperator,
        left: Handle<Expression>,
        right: Handle<Expression>,
    ) -> Result<(), Requirement>
        ensures { Checks (FitsIn self.now)
            (of_kind left (taken_left op) ∷ (of (taken_right op left) right ∷ [])) result }
    {
        self.check_kind_and(left, taken_left(op), taken_right(op, left), right)
    }

    /// Checks the operands of a choice between two values.
    fn check_select(
        &self,
        condition: Handle<Expression>,
        accept: Handle<Expression>,
        reject: Handle<Expression>,
    ) -> Result<(), Requirement>
        ensures { Checks (FitsIn self.now) (of_select condition accept reject) result }
    {
        let decides = Expected::Either(
            Source::Scalar(Scalar::BOOL),
            Source::Along(accept, Scalar::BOOL),
        );
        self.check(&[
            of(decides, condition),
            of_kind(accept, Kind::Components(Scalars::Any)),
            of_type(Source::Same(accept), reject),
        ])
    }

    /// Checks that three operands are cooperative matrices, with the sizes of two factors and a summand.
    fn check_product(
        &self,
        a: Handle<Expression>,
        b: Handle<Expression>,
        c: Handle<Expression>,
    ) -> Result<(), Requirement>
        ensures { Checks (FitsIn self.now) (of_product a b c) result }
    {
        self.check(&[
            of_kind(a, Kind::CooperativeMatrix),
            of_kind(b, Kind::CooperativeMatrix),
            of_kind(c, Kind::CooperativeMatrix),
            Some(Requirement::Product { a, b, c }),
        ])
    }

    /// Checks the operands of a sample.
    fn check_sample(
        &self,
        image: Handle<Expression>,
        sampler: Handle<Expression>,
        gather: Option<SwizzleComponent>,
        coordinate: Handle<Expression>,
        array_index: Option<Handle<Expression>>,
        offset: Option<Handle<Expression>>,
        level: &SampleLevel,
        depth_ref: Option<Handle<Expression>>,
    ) -> Result<(), Requirement>
        ensures { Checks (FitsIn self.now)
            (of_sample image sampler gather coordinate array_index offset level.now depth_ref) result }
    {
        let has_index = array_index.is_some();
        let compares = depth_ref.is_some();
        self.check(&[
            of_sampled(image, gather),
            of_depths(image, depth_ref),
            of_kind(sampler, Kind::Sampler(compares)),
            of(float_position(image), coordinate),
            Some(Requirement::Layers { image, has_index }),
            integer_if(array_index),
            of_type_if(Source::Position(image, Scalar::I32), offset),
            of_level(image, level),
            of_derivative(image, level),
            of_if(float(), depth_ref),
        ])
    }

    /// Checks the operands of a load from an image.
    fn check_load(
        &self,
        image: Handle<Expression>,
        coordinate: Handle<Expression>,
        array_index: Option<Handle<Expression>>,
        sample: Option<Handle<Expression>>,
        level: Option<Handle<Expression>>,
    ) -> Result<(), Requirement>
        ensures { Checks (FitsIn self.now) (of_load image coordinate array_index sample level) result }
    {
        self.check(&[
            of_kind(image, Kind::TexelImage),
            of(Expected::Coordinate(image), coordinate),
            Some(Requirement::Layers {
                image,
                has_index: array_index.is_some(),
            }),
            integer_if(array_index),
            Some(Requirement::Samples {
                image,
                has_index: sample.is_some(),
            }),
            integer_if(sample),
            Some(Requirement::Levels {
                image,
                has_level: level.is_some(),
            }),
            integer_if(level),
        ])
    }

    /// Checks what is queried about an image.
    fn check_query(&self, image: Handle<Expression>, query: &ImageQuery) -> Result<(), Requirement>
        ensures { Checks (FitsIn self.now) (of_query image query.now) result }
    {
        match query {
            ImageQuery::Size { level } => {
                self.check_both(has_level_if(image, *level), integer_if(*level))
            }
            ImageQuery::NumLevels => self.check_one(Some(Requirement::Levels {
                image,
                has_level: true,
            })),
            ImageQuery::NumLayers => self.check_one(Some(Requirement::Layers {
                image,
                has_index: true,
            })),
            ImageQuery::NumSamples => self.check_one(Some(Requirement::Samples {
                image,
                has_index: true,
            })),
        }
    }

    /// Checks the arguments of a mathematical function.
    fn check_math(
        &self,
        fun: MathFunction,
        first: Handle<Expression>,
        arg1: Option<Handle<Expression>>,
        arg2: Option<Handle<Expression>>,
        arg3: Option<Handle<Expression>>,
    ) -> Result<(), Requirement>
        ensures { Checks (FitsIn self.now) (of_math fun first arg1 arg2 arg3) result }
    {
        self.check(&[
            given(fun, 1, &arg1),
            given(fun, 2, &arg2),
            given(fun, 3, &arg3),
            of_second(fun, first, arg1),
            of_third(fun, first, arg2),
            of_type_if(Source::Scalar(Scalar::U32), arg3),
        ])
    }
}

/// Requires that an operand is what is expected.
pub(crate) fn of(expected: Expected, operand: Handle<Expression>) -> Option<Requirement>
    ensures { result ≡ of expected operand }
{
    Some(Requirement::Operand { operand, expected })
}

/// Requires that an operand that may be absent is what is expected.
fn of_if(expected: Expected, operand: Option<Handle<Expression>>) -> Option<Requirement>
    ensures { result ≡ of_if expected operand }
{
    match operand {
        Some(operand) => of(expected, operand),
        None => None,
    }
}

/// Requires that a declared type is of this kind.
fn of_contents(ty: Handle<Type>, kind: Kind) -> Option<Requirement>
    ensures { result ≡ of_contents ty kind }
{
    Some(Requirement::Contents { ty, kind })
}

/// Returns what is cast to this kind: to a number of bytes, or as the bits are if there is none.
fn cast_from(kind: ScalarKind, convert: Option<Bytes>) -> Kind
    ensures { result ≡ cast_from kind convert }
{
    match convert {
        Some(width) => Kind::Convertible(Scalar { kind, width }),
        None => Kind::BitsOf(kind),
    }
}

/// Returns what the result of an atomic operation is, by whether it compares.
fn outcome_of(comparison: bool) -> Kind
    ensures { result ≡ outcome_of comparison }
{
    if comparison {
        Kind::ExchangeResult
    } else {
        Kind::Single(Scalars::Numbers)
    }
}

/// Requires that the second argument of a mathematical function is what is expected, if anything is.
fn of_second(
    fun: MathFunction,
    first: Handle<Expression>,
    operand: Option<Handle<Expression>>,
) -> Option<Requirement>
    ensures { result ≡ of_second fun first operand }
{
    let operand = operand?;
    match second_argument(fun, first) {
        Some(expected) => of(expected, operand),
        None => None,
    }
}

/// Requires that the third argument of a mathematical function is what is expected.
fn of_third(
    fun: MathFunction,
    first: Handle<Expression>,
    operand: Option<Handle<Expression>>,
) -> Option<Requirement>
    ensures { result ≡ of_third fun first operand }
{
    of_if(third_argument(fun, first), operand)
}

/// Requires that a mathematical function has an argument at this position if and only if there is one.
fn given(
    fun: MathFunction,
    position: usize,
    operand: &Option<Handle<Expression>>,
) -> Option<Requirement>
    ensures { result ≡ given fun position operand.now }
{
    Some(Requirement::MathArgument {
        fun,
        position,
        is_given: operand.is_some(),
    })
}

/// Requires that an image can be sampled, or that a component can be gathered from it.
fn of_sampled(image: Handle<Expression>, gather: Option<SwizzleComponent>) -> Option<Requirement>
    ensures { result ≡ of_sampled image gather }
{
    match gather {
        Some(component) => of_kind(image, Kind::GatheredImage(component.index())),
        None => of_kind(image, Kind::SampledImage),
    }
}

/// Requires that an image has depths if they are compared.
fn of_depths(
    image: Handle<Expression>,
    depth_ref: Option<Handle<Expression>>,
) -> Option<Requirement>
    ensures { result ≡ of_depths image depth_ref }
{
    match depth_ref {
        Some(_) => of_kind(image, Kind::DepthImage),
        None => None,
    }
}

/// Requires that an image has levels if one of them is given.
fn has_level_if(image: Handle<Expression>, level: Option<Handle<Expression>>) -> Option<Requirement>
    ensures { result ≡ has_level_if image level }
{
    match level {
        Some(_) => Some(Requirement::Levels {
            image,
            has_level: true,
        }),
        None => None,
    }
}

/// Returns what a float of 32 or of 16 bits is.
fn float() -> Expected
    ensures { result ≡ float }
{
    Expected::Either(Source::Scalar(Scalar::F32), Source::Scalar(Scalar::F16))
}

/// Returns what a position in an image is, of such floats.
fn float_position(image: Handle<Expression>) -> Expected
    ensures { result ≡ float_position image }
{
    let (wide, narrow) = (
        Source::Position(image, Scalar::F32),
        Source::Position(image, Scalar::F16),
    );
    Expected::Either(wide, narrow)
}

/// Requires what a sample requires of its level, or of the first derivative.
fn of_level(image: Handle<Expression>, level: &SampleLevel) -> Option<Requirement>
    ensures { result ≡ of_level image level.now }
{
    match level {
        SampleLevel::Exact(level) => of(Expected::Level(image), *level),
        SampleLevel::Bias(offset) => of(float(), *offset),
        SampleLevel::Gradient { x, .. } => of(float_position(image), *x),
        SampleLevel::Auto | SampleLevel::Zero => None,
    }
}

/// Requires what a sample requires of the second derivative.
fn of_derivative(image: Handle<Expression>, level: &SampleLevel) -> Option<Requirement>
    ensures { result ≡ of_derivative image level.now }
{
    match level {
        SampleLevel::Gradient { y, .. } => of(float_position(image), *y),
        _ => None,
    }
}

/// Returns what a unary operator takes.
fn taken(op: UnaryOperator) -> Kind
    ensures { result ≡ taken op }
{
    match op {
        UnaryOperator::Negate => Kind::Entries(Scalars::Signed),
        UnaryOperator::LogicalNot => Kind::Components(Scalars::Booleans),
        UnaryOperator::BitwiseNot => Kind::Components(Scalars::Integers),
    }
}

/// Returns what a binary operator takes on its left.
fn taken_left(op: BinaryOperator) -> Kind
    ensures { result ≡ taken_left op }
{
    match op {
        BinaryOperator::Add | BinaryOperator::Subtract => Kind::Summand,
        BinaryOperator::Multiply => Kind::Entries(Scalars::Numbers),
        BinaryOperator::Equal | BinaryOperator::NotEqual => Kind::Components(Scalars::Any),
        BinaryOperator::LogicalAnd | BinaryOperator::LogicalOr => {
            Kind::Components(Scalars::Booleans)
        }
        BinaryOperator::And | BinaryOperator::InclusiveOr => Kind::Components(Scalars::Bits),
        BinaryOperator::ExclusiveOr | BinaryOperator::ShiftLeft | BinaryOperator::ShiftRight => {
            Kind::Components(Scalars::Integers)
        }
        BinaryOperator::Divide
        | BinaryOperator::Modulo
        | BinaryOperator::Less
        | BinaryOperator::LessEqual
        | BinaryOperator::Greater
        | BinaryOperator::GreaterEqual => Kind::Components(Scalars::Numbers),
    }
}

/// Returns what a binary operator with this left operand takes on its right.
fn taken_right(op: BinaryOperator, left: Handle<Expression>) -> Expected
    ensures { result ≡ taken_right op left }
{
    match op {
        BinaryOperator::Multiply => Expected::SameScalar(left),
        BinaryOperator::ShiftLeft | BinaryOperator::ShiftRight => Expected::Shift(left),
        _ => Expected::Type(Source::Same(left)),
    }
}

/// Returns what a relational function takes.
fn related(fun: RelationalFunction) -> Kind
    ensures { result ≡ related fun }
{
    Kind::Components(match fun {
        RelationalFunction::All | RelationalFunction::Any => Scalars::Booleans,
        RelationalFunction::IsNan | RelationalFunction::IsInf => Scalars::Floats,
    })
}

/// Returns what is expected of the second argument of a mathematical function, or `None` if nothing is.
fn second_argument(fun: MathFunction, first: Handle<Expression>) -> Option<Expected>
    ensures { result ≡ second_argument fun first }
{
    match fun {
        MathFunction::Outer => None,
        MathFunction::Ldexp => Some(Expected::Type(Source::Along(first, Scalar::I32))),
        MathFunction::ExtractBits => Some(Expected::Type(Source::Scalar(Scalar::U32))),
        _ => Some(Expected::Type(Source::Same(first))),
    }
}

/// Returns what is expected of the third argument of a mathematical function.
fn third_argument(fun: MathFunction, first: Handle<Expression>) -> Expected
    ensures { result ≡ third_argument fun first }
{
    match fun {
        MathFunction::Refract => Expected::Type(Source::Entry(first)),
        MathFunction::Mix => Expected::Either(Source::Same(first), Source::Entry(first)),
        MathFunction::ExtractBits | MathFunction::InsertBits => {
            Expected::Type(Source::Scalar(Scalar::U32))
        }
        _ => Expected::Type(Source::Same(first)),
    }
}
