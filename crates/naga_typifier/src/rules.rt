//! The rule of each expression: how its type is found.
ghost use Rattle.std.specs.Prelude.{◌≡◌};
ghost use Rattle.naga_typifier.specs.Rules.{rule_of_binary, rule_of_expression, rule_of_query, rule_of_relational};

use naga_arena::Handle;
use naga_ir::{
    BinaryOperator, Bytes, Constant, CooperativeRole, CooperativeSize, Expression, Function,
    GlobalVariable, ImageQuery, LocalVariable, MathFunction, Override, RelationalFunction, Scalar,
    ScalarKind, SwizzleComponent, Type, VectorSize,
};

/// What an expression names, with a type that is declared elsewhere.
#[derive(Clone, Copy, Debug, PartialEq)]
pub enum Named {
    Constant(Handle<Constant>),
    Override(Handle<Override>),
    /// The argument of the function with this index.
    Argument(u32),
    /// A global variable, to which the expression is a pointer unless its space is `Handle`.
    GlobalVariable(Handle<GlobalVariable>),
    /// A local variable, to which the expression is a pointer.
    LocalVariable(Handle<LocalVariable>),
    /// The result of this function.
    Result(Handle<Function>),
    /// The special type of the positions of the vertices of a triangle.
    RayVertexReturn,
    /// The special type of an intersection.
    RayIntersection,
}

/// What is read from the contents of the type of an operand.
#[derive(Clone, Copy, Debug, PartialEq)]
pub enum Reading {
    /// The part at this index, which is `None` if it is computed, or a pointer to it.
    Part(Option<u32>),
    /// A vector of this size of the scalar.
    Splat(VectorSize),
    /// A vector of this size of components of the vector.
    Swizzle(VectorSize),
    /// What is loaded through the pointer.
    Load,
    /// A sample of the image, which gathers a component if one is given.
    Sample(Option<SwizzleComponent>),
    /// A texel of the image.
    Texel,
    /// The size of the image.
    Size,
    /// A boolean for each component.
    Truths,
    /// The components, converted to this kind and to this width, if one is given.
    Cast(ScalarKind, Option<Bytes>),
    /// A cooperative matrix of the scalars behind the pointer, with these columns and rows.
    Matrix(CooperativeSize, CooperativeSize, CooperativeRole),
}

/// How the type of an expression is found.
#[derive(Clone, Copy, Debug, PartialEq)]
pub enum Rule {
    /// This scalar, or a vector of this size of it.
    Fixed(Option<VectorSize>, Scalar),
    /// This declared type.
    Declared(Handle<Type>),
    /// The declared type of what the expression names.
    Named(Named),
    /// The type of this operand.
    Like(Handle<Expression>),
    /// What is read from the contents of the type of this operand.
    Read(Reading, Handle<Expression>),
    /// The product of the left and of the right operand.
    Product(Handle<Expression>, Handle<Expression>),
    /// The result of the function for this first argument, and for a second one, if there is one.
    Math(MathFunction, Handle<Expression>, Option<Handle<Expression>>),
}

impl Rule {
    /// Returns the rule of an expression.
    pub fn of(expression: &Expression) -> Self
        ensures { result ≡ rule_of_expression expression.now }
    {
        match expression {
            Expression::Literal(literal) => Rule::Fixed(None, literal.scalar()),
            Expression::Constant(constant) => Rule::Named(Named::Constant(*constant)),
            Expression::Override(named) => Rule::Named(Named::Override(*named)),
            Expression::ZeroValue(ty)
            | Expression::Compose { ty, .. }
            | Expression::AtomicResult { ty, .. }
            | Expression::WorkGroupUniformLoadResult { ty }
            | Expression::SubgroupOperationResult { ty } => Rule::Declared(*ty),
            Expression::Access { base, .. } => Rule::Read(Reading::Part(None), *base),
            Expression::AccessIndex { base, index } => {
                Rule::Read(Reading::Part(Some(*index)), *base)
            }
            Expression::Splat { size, value } => Rule::Read(Reading::Splat(*size), *value),
            Expression::Swizzle { size, vector, .. } => {
                Rule::Read(Reading::Swizzle(*size), *vector)
            }
            Expression::FunctionArgument(index) => Rule::Named(Named::Argument(*index)),
            Expression::GlobalVariable(variable) => Rule::Named(Named::GlobalVariable(*variable)),
            Expression::LocalVariable(variable) => Rule::Named(Named::LocalVariable(*variable)),
            Expression::Load { pointer } => Rule::Read(Reading::Load, *pointer),
            Expression::ImageSample { image, gather, .. } => {
                Rule::Read(Reading::Sample(*gather), *image)
            }
            Expression::ImageLoad { image, .. } => Rule::Read(Reading::Texel, *image),
            Expression::ImageQuery { image, query } => of_query(query, *image),
            Expression::Unary { expr, .. } | Expression::Derivative { expr, .. } => {
                Rule::Like(*expr)
            }
            Expression::Binary { op, left, right } => of_binary(*op, *left, *right),
            Expression::Select { accept, .. } => Rule::Like(*accept),
            Expression::Relational { fun, argument } => of_relational(*fun, *argument),
            Expression::Math { fun, arg, arg1, .. } => Rule::Math(*fun, *arg, *arg1),
            Expression::As {
                expr,
                kind,
                convert,
            } => Rule::Read(Reading::Cast(*kind, *convert), *expr),
            Expression::CallResult(function) => Rule::Named(Named::Result(*function)),
            Expression::ArrayLength(_) => Rule::Fixed(None, Scalar::U32),
            Expression::RayQueryVertexPositions { .. } => Rule::Named(Named::RayVertexReturn),
            Expression::RayQueryProceedResult => Rule::Fixed(None, Scalar::BOOL),
            Expression::RayQueryGetIntersection { .. } => Rule::Named(Named::RayIntersection),
            Expression::SubgroupBallotResult => Rule::Fixed(Some(VectorSize::Quad), Scalar::U32),
            Expression::CooperativeLoad {
                columns,
                rows,
                role,
                data,
            } => Rule::Read(Reading::Matrix(*columns, *rows, *role), data.pointer),
            Expression::CooperativeMultiplyAdd { c, .. } => Rule::Like(*c),
        }
    }
}

/// Returns the rule of a binary operator.
fn of_binary(op: BinaryOperator, left: Handle<Expression>, right: Handle<Expression>) -> Rule
    ensures { result ≡ rule_of_binary op left right }
{
    match op {
        BinaryOperator::Multiply => Rule::Product(left, right),
        BinaryOperator::Equal
        | BinaryOperator::NotEqual
        | BinaryOperator::Less
        | BinaryOperator::LessEqual
        | BinaryOperator::Greater
        | BinaryOperator::GreaterEqual
        | BinaryOperator::LogicalAnd
        | BinaryOperator::LogicalOr => Rule::Read(Reading::Truths, left),
        _ => Rule::Like(left),
    }
}

/// Returns the rule of a relational function.
fn of_relational(fun: RelationalFunction, argument: Handle<Expression>) -> Rule
    ensures { result ≡ rule_of_relational fun argument }
{
    match fun {
        RelationalFunction::IsNan | RelationalFunction::IsInf => {
            Rule::Read(Reading::Truths, argument)
        }
        RelationalFunction::All | RelationalFunction::Any => Rule::Fixed(None, Scalar::BOOL),
    }
}

/// Returns the rule of a query about an image.
fn of_query(query: &ImageQuery, image: Handle<Expression>) -> Rule
    ensures { result ≡ rule_of_query query.now image }
{
    match query {
        ImageQuery::Size { .. } => Rule::Read(Reading::Size, image),
        _ => Rule::Fixed(None, Scalar::U32),
    }
}
