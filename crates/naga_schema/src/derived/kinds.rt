// Made by tests/derive from the declarations of naga_kinds and naga_ir.
//! What naga_kinds declares.

use crate::derived::kind_leaves::{
    CONSERVATIVE_DEPTH, INTERPOLATION, SAMPLING, SCALAR_KIND, SEVERITY, STANDARD_RULE,
    STORAGE_FORMAT,
};
use crate::derived::type_name::TypeName;
use crate::schema::Presence::{Optional, Required};
use crate::schema::{Field, Variant};
use crate::tables::leaves::{BOOLEAN, BYTE, HANDLE, INTEGER_32, STORAGE_ACCESS, TEXT, WORD};

/// The fields of `AddressSpace::Storage`.
pub(crate) static ADDRESS_SPACE_STORAGE: [Field; 1] = [("access", Required, STORAGE_ACCESS)];

/// The variants of `AddressSpace` that hold no value.
pub(crate) static ADDRESS_SPACE_NAMES: [&str; 9] = [
    "Function",
    "Private",
    "WorkGroup",
    "Uniform",
    "Handle",
    "Immediate",
    "TaskPayload",
    "RayPayload",
    "IncomingRayPayload",
];

/// The variants of `AddressSpace` that hold a value.
pub(crate) static ADDRESS_SPACE_VARIANTS: [Variant; 1] = [(
    "Storage",
    TypeName::AddressSpaceStorage,
)];

/// The fields of `Binding::Location`.
pub(crate) static BINDING_LOCATION: [Field; 5] = [
    ("location", Required, WORD),
    ("interpolation", Optional, INTERPOLATION),
    ("sampling", Optional, SAMPLING),
    ("blend_src", Optional, WORD),
    ("per_primitive", Required, BOOLEAN),
];

/// The variants of `Binding` that hold no value.
pub(crate) static BINDING_NAMES: [&str; 0] = [];

/// The variants of `Binding` that hold a value.
pub(crate) static BINDING_VARIANTS: [Variant; 2] = [
    ("BuiltIn", TypeName::BuiltIn),
    ("Location", TypeName::BindingLocation),
];

/// The fields of `ResourceBinding`.
pub(crate) static RESOURCE_BINDING: [Field; 2] = [
    ("group", Required, WORD),
    ("binding", Required, WORD),
];

/// The fields of `BuiltIn::Position`.
pub(crate) static BUILT_IN_POSITION: [Field; 1] = [("invariant", Required, BOOLEAN)];

/// The fields of `BuiltIn::Barycentric`.
pub(crate) static BUILT_IN_BARYCENTRIC: [Field; 1] = [("perspective", Required, BOOLEAN)];

/// The variants of `BuiltIn` that hold no value.
pub(crate) static BUILT_IN_NAMES: [&str; 47] = [
    "PrimitiveIndex",
    "ViewIndex",
    "BaseInstance",
    "BaseVertex",
    "ClipDistances",
    "CullDistance",
    "InstanceIndex",
    "PointSize",
    "VertexIndex",
    "DrawIndex",
    "FragDepth",
    "PointCoord",
    "FrontFacing",
    "SampleIndex",
    "SampleMask",
    "GlobalInvocationId",
    "LocalInvocationId",
    "LocalInvocationIndex",
    "WorkGroupId",
    "WorkGroupSize",
    "NumWorkGroups",
    "NumSubgroups",
    "SubgroupId",
    "SubgroupSize",
    "SubgroupInvocationId",
    "MeshTaskSize",
    "CullPrimitive",
    "PointIndex",
    "LineIndices",
    "TriangleIndices",
    "VertexCount",
    "Vertices",
    "PrimitiveCount",
    "Primitives",
    "RayInvocationId",
    "NumRayInvocations",
    "InstanceCustomData",
    "GeometryIndex",
    "WorldRayOrigin",
    "WorldRayDirection",
    "ObjectRayOrigin",
    "ObjectRayDirection",
    "RayTmin",
    "RayTCurrentMax",
    "ObjectToWorld",
    "WorldToObject",
    "HitKind",
];

/// The variants of `BuiltIn` that hold a value.
pub(crate) static BUILT_IN_VARIANTS: [Variant; 2] = [
    ("Position", TypeName::BuiltInPosition),
    ("Barycentric", TypeName::BuiltInBarycentric),
];

/// The variants of `FilterableTriggeringRule` that hold no value.
pub(crate) static TRIGGERING_RULE_NAMES: [&str; 0] = [];

/// The variants of `FilterableTriggeringRule` that hold a value.
pub(crate) static TRIGGERING_RULE_VARIANTS: [Variant; 3] = [
    ("Standard", STANDARD_RULE),
    ("Unknown", TEXT),
    ("User", TypeName::RuleNames),
];

/// The fields of `DiagnosticFilter`.
pub(crate) static DIAGNOSTIC_FILTER: [Field; 2] = [
    ("new_severity", Required, SEVERITY),
    ("triggering_rule", Required, TypeName::TriggeringRule),
];

/// The fields of `DiagnosticFilterNode`.
pub(crate) static DIAGNOSTIC_FILTER_NODE: [Field; 2] = [
    ("inner", Required, TypeName::DiagnosticFilter),
    ("parent", Optional, HANDLE),
];

/// The fields of `EarlyDepthTest::Allow`.
pub(crate) static EARLY_DEPTH_TEST_ALLOW: [Field; 1] = [(
    "conservative",
    Required,
    CONSERVATIVE_DEPTH,
)];

/// The variants of `EarlyDepthTest` that hold no value.
pub(crate) static EARLY_DEPTH_TEST_NAMES: [&str; 1] = ["Force"];

/// The variants of `EarlyDepthTest` that hold a value.
pub(crate) static EARLY_DEPTH_TEST_VARIANTS: [Variant; 1] = [(
    "Allow",
    TypeName::EarlyDepthTestAllow,
)];

/// The fields of `ImageClass::Sampled`.
pub(crate) static IMAGE_CLASS_SAMPLED: [Field; 2] = [
    ("kind", Required, SCALAR_KIND),
    ("multi", Required, BOOLEAN),
];

/// The fields of `ImageClass::Depth`.
pub(crate) static IMAGE_CLASS_DEPTH: [Field; 1] = [("multi", Required, BOOLEAN)];

/// The fields of `ImageClass::Storage`.
pub(crate) static IMAGE_CLASS_STORAGE: [Field; 2] = [
    ("format", Required, STORAGE_FORMAT),
    ("access", Required, STORAGE_ACCESS),
];

/// The variants of `ImageClass` that hold no value.
pub(crate) static IMAGE_CLASS_NAMES: [&str; 1] = ["External"];

/// The variants of `ImageClass` that hold a value.
pub(crate) static IMAGE_CLASS_VARIANTS: [Variant; 3] = [
    ("Sampled", TypeName::ImageClassSampled),
    ("Depth", TypeName::ImageClassDepth),
    ("Storage", TypeName::ImageClassStorage),
];

/// The fields of `Scalar`.
pub(crate) static SCALAR: [Field; 2] = [("kind", Required, SCALAR_KIND), ("width", Required, BYTE)];

/// The variants of `SwitchValue` that hold no value.
pub(crate) static SWITCH_VALUE_NAMES: [&str; 1] = ["Default"];

/// The variants of `SwitchValue` that hold a value.
pub(crate) static SWITCH_VALUE_VARIANTS: [Variant; 2] = [("I32", INTEGER_32), ("U32", WORD)];
