// Made by tests/derive from the declarations of naga_kinds and naga_ir.
//! What naga_ir declares in expression.rt.

use crate::derived::kind_leaves::{
    BINARY_OPERATOR, COOPERATIVE_ROLE, COOPERATIVE_SIZE, DERIVATIVE_AXIS, DERIVATIVE_CONTROL,
    DIRECTION, MATH_FUNCTION, RELATIONAL_FUNCTION, SCALAR_KIND, SWIZZLE_COMPONENT, UNARY_OPERATOR,
    VECTOR_SIZE,
};
use crate::derived::type_name::TypeName;
use crate::schema::Presence::{Optional, Required};
use crate::schema::{Field, Variant};
use crate::tables::leaves::{BOOLEAN, BYTE, HANDLE, WORD};

/// The fields of `AtomicFunction::Exchange`.
pub(crate) static ATOMIC_FUNCTION_EXCHANGE: [Field; 1] = [("compare", Optional, HANDLE)];

/// The variants of `AtomicFunction` that hold no value.
pub(crate) static ATOMIC_FUNCTION_NAMES: [&str; 7] = [
    "Add",
    "Subtract",
    "And",
    "ExclusiveOr",
    "InclusiveOr",
    "Min",
    "Max",
];

/// The variants of `AtomicFunction` that hold a value.
pub(crate) static ATOMIC_FUNCTION_VARIANTS: [Variant; 1] = [(
    "Exchange",
    TypeName::AtomicFunctionExchange,
)];

/// The fields of `SampleLevel::Gradient`.
pub(crate) static SAMPLE_LEVEL_GRADIENT: [Field; 2] = [
    ("x", Required, HANDLE),
    ("y", Required, HANDLE),
];

/// The variants of `SampleLevel` that hold no value.
pub(crate) static SAMPLE_LEVEL_NAMES: [&str; 2] = ["Auto", "Zero"];

/// The variants of `SampleLevel` that hold a value.
pub(crate) static SAMPLE_LEVEL_VARIANTS: [Variant; 3] = [
    ("Exact", HANDLE),
    ("Bias", HANDLE),
    ("Gradient", TypeName::SampleLevelGradient),
];

/// The fields of `ImageQuery::Size`.
pub(crate) static IMAGE_QUERY_SIZE: [Field; 1] = [("level", Optional, HANDLE)];

/// The variants of `ImageQuery` that hold no value.
pub(crate) static IMAGE_QUERY_NAMES: [&str; 3] = ["NumLevels", "NumLayers", "NumSamples"];

/// The variants of `ImageQuery` that hold a value.
pub(crate) static IMAGE_QUERY_VARIANTS: [Variant; 1] = [("Size", TypeName::ImageQuerySize)];

/// The variants of `GatherMode` that hold no value.
pub(crate) static GATHER_MODE_NAMES: [&str; 1] = ["BroadcastFirst"];

/// The variants of `GatherMode` that hold a value.
pub(crate) static GATHER_MODE_VARIANTS: [Variant; 7] = [
    ("Broadcast", HANDLE),
    ("Shuffle", HANDLE),
    ("ShuffleDown", HANDLE),
    ("ShuffleUp", HANDLE),
    ("ShuffleXor", HANDLE),
    ("QuadBroadcast", HANDLE),
    ("QuadSwap", DIRECTION),
];

/// The fields of `CooperativeData`.
pub(crate) static COOPERATIVE_DATA: [Field; 3] = [
    ("pointer", Required, HANDLE),
    ("stride", Required, HANDLE),
    ("row_major", Required, BOOLEAN),
];

/// The fields of `Expression::Compose`.
pub(crate) static EXPRESSION_COMPOSE: [Field; 2] = [
    ("ty", Required, HANDLE),
    ("components", Required, TypeName::Handles),
];

/// The fields of `Expression::Access`.
pub(crate) static EXPRESSION_ACCESS: [Field; 2] = [
    ("base", Required, HANDLE),
    ("index", Required, HANDLE),
];

/// The fields of `Expression::AccessIndex`.
pub(crate) static EXPRESSION_ACCESS_INDEX: [Field; 2] = [
    ("base", Required, HANDLE),
    ("index", Required, WORD),
];

/// The fields of `Expression::Splat`.
pub(crate) static EXPRESSION_SPLAT: [Field; 2] = [
    ("size", Required, VECTOR_SIZE),
    ("value", Required, HANDLE),
];

/// The fields of `Expression::Swizzle`.
pub(crate) static EXPRESSION_SWIZZLE: [Field; 3] = [
    ("size", Required, VECTOR_SIZE),
    ("vector", Required, HANDLE),
    ("pattern", Required, TypeName::SwizzlePattern),
];

/// The fields of `Expression::Load`.
pub(crate) static EXPRESSION_LOAD: [Field; 1] = [("pointer", Required, HANDLE)];

/// The fields of `Expression::ImageSample`.
pub(crate) static EXPRESSION_IMAGE_SAMPLE: [Field; 9] = [
    ("image", Required, HANDLE),
    ("sampler", Required, HANDLE),
    ("gather", Optional, SWIZZLE_COMPONENT),
    ("coordinate", Required, HANDLE),
    ("array_index", Optional, HANDLE),
    ("offset", Optional, HANDLE),
    ("level", Required, TypeName::SampleLevel),
    ("depth_ref", Optional, HANDLE),
    ("clamp_to_edge", Required, BOOLEAN),
];

/// The fields of `Expression::ImageLoad`.
pub(crate) static EXPRESSION_IMAGE_LOAD: [Field; 5] = [
    ("image", Required, HANDLE),
    ("coordinate", Required, HANDLE),
    ("array_index", Optional, HANDLE),
    ("sample", Optional, HANDLE),
    ("level", Optional, HANDLE),
];

/// The fields of `Expression::ImageQuery`.
pub(crate) static EXPRESSION_IMAGE_QUERY: [Field; 2] = [
    ("image", Required, HANDLE),
    ("query", Required, TypeName::ImageQuery),
];

/// The fields of `Expression::Unary`.
pub(crate) static EXPRESSION_UNARY: [Field; 2] = [
    ("op", Required, UNARY_OPERATOR),
    ("expr", Required, HANDLE),
];

/// The fields of `Expression::Binary`.
pub(crate) static EXPRESSION_BINARY: [Field; 3] = [
    ("op", Required, BINARY_OPERATOR),
    ("left", Required, HANDLE),
    ("right", Required, HANDLE),
];

/// The fields of `Expression::Select`.
pub(crate) static EXPRESSION_SELECT: [Field; 3] = [
    ("condition", Required, HANDLE),
    ("accept", Required, HANDLE),
    ("reject", Required, HANDLE),
];

/// The fields of `Expression::Derivative`.
pub(crate) static EXPRESSION_DERIVATIVE: [Field; 3] = [
    ("axis", Required, DERIVATIVE_AXIS),
    ("ctrl", Required, DERIVATIVE_CONTROL),
    ("expr", Required, HANDLE),
];

/// The fields of `Expression::Relational`.
pub(crate) static EXPRESSION_RELATIONAL: [Field; 2] = [
    ("fun", Required, RELATIONAL_FUNCTION),
    ("argument", Required, HANDLE),
];

/// The fields of `Expression::Math`.
pub(crate) static EXPRESSION_MATH: [Field; 5] = [
    ("fun", Required, MATH_FUNCTION),
    ("arg", Required, HANDLE),
    ("arg1", Optional, HANDLE),
    ("arg2", Optional, HANDLE),
    ("arg3", Optional, HANDLE),
];

/// The fields of `Expression::As`.
pub(crate) static EXPRESSION_AS: [Field; 3] = [
    ("expr", Required, HANDLE),
    ("kind", Required, SCALAR_KIND),
    ("convert", Optional, BYTE),
];

/// The fields of `Expression::AtomicResult`.
pub(crate) static EXPRESSION_ATOMIC_RESULT: [Field; 2] = [
    ("ty", Required, HANDLE),
    ("comparison", Required, BOOLEAN),
];

/// The fields of `Expression::WorkGroupUniformLoadResult`.
pub(crate) static EXPRESSION_WORK_GROUP_UNIFORM_LOAD_RESULT: [Field; 1] = [(
    "ty", Required, HANDLE,
)];

/// The fields of `Expression::RayQueryVertexPositions`.
pub(crate) static EXPRESSION_RAY_QUERY_VERTEX_POSITIONS: [Field; 2] = [
    ("query", Required, HANDLE),
    ("committed", Required, BOOLEAN),
];

/// The fields of `Expression::RayQueryGetIntersection`.
pub(crate) static EXPRESSION_RAY_QUERY_GET_INTERSECTION: [Field; 2] = [
    ("query", Required, HANDLE),
    ("committed", Required, BOOLEAN),
];

/// The fields of `Expression::SubgroupOperationResult`.
pub(crate) static EXPRESSION_SUBGROUP_OPERATION_RESULT: [Field; 1] = [("ty", Required, HANDLE)];

/// The fields of `Expression::CooperativeLoad`.
pub(crate) static EXPRESSION_COOPERATIVE_LOAD: [Field; 4] = [
    ("columns", Required, COOPERATIVE_SIZE),
    ("rows", Required, COOPERATIVE_SIZE),
    ("role", Required, COOPERATIVE_ROLE),
    ("data", Required, TypeName::CooperativeData),
];

/// The fields of `Expression::CooperativeMultiplyAdd`.
pub(crate) static EXPRESSION_COOPERATIVE_MULTIPLY_ADD: [Field; 3] = [
    ("a", Required, HANDLE),
    ("b", Required, HANDLE),
    ("c", Required, HANDLE),
];

/// The variants of `Expression` that hold no value.
pub(crate) static EXPRESSION_NAMES: [&str; 2] = ["RayQueryProceedResult", "SubgroupBallotResult"];

/// The variants of `Expression` that hold a value.
pub(crate) static EXPRESSION_VARIANTS: [Variant; 32] = [
    ("Literal", TypeName::Literal),
    ("Constant", HANDLE),
    ("Override", HANDLE),
    ("ZeroValue", HANDLE),
    ("Compose", TypeName::ExpressionCompose),
    ("Access", TypeName::ExpressionAccess),
    ("AccessIndex", TypeName::ExpressionAccessIndex),
    ("Splat", TypeName::ExpressionSplat),
    ("Swizzle", TypeName::ExpressionSwizzle),
    ("FunctionArgument", WORD),
    ("GlobalVariable", HANDLE),
    ("LocalVariable", HANDLE),
    ("Load", TypeName::ExpressionLoad),
    ("ImageSample", TypeName::ExpressionImageSample),
    ("ImageLoad", TypeName::ExpressionImageLoad),
    ("ImageQuery", TypeName::ExpressionImageQuery),
    ("Unary", TypeName::ExpressionUnary),
    ("Binary", TypeName::ExpressionBinary),
    ("Select", TypeName::ExpressionSelect),
    ("Derivative", TypeName::ExpressionDerivative),
    ("Relational", TypeName::ExpressionRelational),
    ("Math", TypeName::ExpressionMath),
    ("As", TypeName::ExpressionAs),
    ("CallResult", HANDLE),
    ("AtomicResult", TypeName::ExpressionAtomicResult),
    (
        "WorkGroupUniformLoadResult",
        TypeName::ExpressionWorkGroupUniformLoadResult,
    ),
    ("ArrayLength", HANDLE),
    (
        "RayQueryVertexPositions",
        TypeName::ExpressionRayQueryVertexPositions,
    ),
    (
        "RayQueryGetIntersection",
        TypeName::ExpressionRayQueryGetIntersection,
    ),
    (
        "SubgroupOperationResult",
        TypeName::ExpressionSubgroupOperationResult,
    ),
    ("CooperativeLoad", TypeName::ExpressionCooperativeLoad),
    (
        "CooperativeMultiplyAdd",
        TypeName::ExpressionCooperativeMultiplyAdd,
    ),
];
