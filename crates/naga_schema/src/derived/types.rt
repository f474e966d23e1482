// Made by tests/derive from the declarations of naga_kinds and naga_ir.
//! What naga_ir declares in types.rt.

use crate::derived::kind_leaves::{
    COOPERATIVE_ROLE, COOPERATIVE_SIZE, IMAGE_DIMENSION, VECTOR_SIZE,
};
use crate::derived::type_name::TypeName;
use crate::schema::Presence::{Optional, Required};
use crate::schema::{Field, Variant};
use crate::tables::leaves::{BOOLEAN, HANDLE, NON_ZERO, TEXT, WORD};

/// The variants of `ArraySize` that hold no value.
pub(crate) static ARRAY_SIZE_NAMES: [&str; 1] = ["Dynamic"];

/// The variants of `ArraySize` that hold a value.
pub(crate) static ARRAY_SIZE_VARIANTS: [Variant; 2] = [("Constant", NON_ZERO), ("Pending", HANDLE)];

/// The fields of `StructMember`.
pub(crate) static STRUCT_MEMBER: [Field; 4] = [
    ("name", Optional, TEXT),
    ("ty", Required, HANDLE),
    ("binding", Optional, TypeName::Binding),
    ("offset", Required, WORD),
];

/// The fields of `Type`.
pub(crate) static NAGA_TYPE: [Field; 2] = [
    ("name", Optional, TEXT),
    ("inner", Required, TypeName::TypeInner),
];

/// The fields of `TypeInner::Vector`.
pub(crate) static TYPE_INNER_VECTOR: [Field; 2] = [
    ("size", Required, VECTOR_SIZE),
    ("scalar", Required, TypeName::Scalar),
];

/// The fields of `TypeInner::Matrix`.
pub(crate) static TYPE_INNER_MATRIX: [Field; 3] = [
    ("columns", Required, VECTOR_SIZE),
    ("rows", Required, VECTOR_SIZE),
    ("scalar", Required, TypeName::Scalar),
];

/// The fields of `TypeInner::CooperativeMatrix`.
pub(crate) static TYPE_INNER_COOPERATIVE_MATRIX: [Field; 4] = [
    ("columns", Required, COOPERATIVE_SIZE),
    ("rows", Required, COOPERATIVE_SIZE),
    ("scalar", Required, TypeName::Scalar),
    ("role", Required, COOPERATIVE_ROLE),
];

/// The fields of `TypeInner::Pointer`.
pub(crate) static TYPE_INNER_POINTER: [Field; 2] = [
    ("base", Required, HANDLE),
    ("space", Required, TypeName::AddressSpace),
];

/// The fields of `TypeInner::ValuePointer`.
pub(crate) static TYPE_INNER_VALUE_POINTER: [Field; 3] = [
    ("size", Optional, VECTOR_SIZE),
    ("scalar", Required, TypeName::Scalar),
    ("space", Required, TypeName::AddressSpace),
];

/// The fields of `TypeInner::Array`.
pub(crate) static TYPE_INNER_ARRAY: [Field; 3] = [
    ("base", Required, HANDLE),
    ("size", Required, TypeName::ArraySize),
    ("stride", Required, WORD),
];

/// The fields of `TypeInner::Struct`.
pub(crate) static TYPE_INNER_STRUCT: [Field; 2] = [
    ("members", Required, TypeName::StructMembers),
    ("span", Required, WORD),
];

/// The fields of `TypeInner::Image`.
pub(crate) static TYPE_INNER_IMAGE: [Field; 3] = [
    ("dim", Required, IMAGE_DIMENSION),
    ("arrayed", Required, BOOLEAN),
    ("class", Required, TypeName::ImageClass),
];

/// The fields of `TypeInner::Sampler`.
pub(crate) static TYPE_INNER_SAMPLER: [Field; 1] = [("comparison", Required, BOOLEAN)];

/// The fields of `TypeInner::AccelerationStructure`.
pub(crate) static TYPE_INNER_ACCELERATION_STRUCTURE: [Field; 1] = [(
    "vertex_return",
    Required,
    BOOLEAN,
)];

/// The fields of `TypeInner::RayQuery`.
pub(crate) static TYPE_INNER_RAY_QUERY: [Field; 1] = [("vertex_return", Required, BOOLEAN)];

/// The fields of `TypeInner::BindingArray`.
pub(crate) static TYPE_INNER_BINDING_ARRAY: [Field; 2] = [
    ("base", Required, HANDLE),
    ("size", Required, TypeName::ArraySize),
];

/// The variants of `TypeInner` that hold no value.
pub(crate) static TYPE_INNER_NAMES: [&str; 0] = [];

/// The variants of `TypeInner` that hold a value.
pub(crate) static TYPE_INNER_VARIANTS: [Variant; 14] = [
    ("Scalar", TypeName::Scalar),
    ("Vector", TypeName::TypeInnerVector),
    ("Matrix", TypeName::TypeInnerMatrix),
    ("CooperativeMatrix", TypeName::TypeInnerCooperativeMatrix),
    ("Atomic", TypeName::Scalar),
    ("Pointer", TypeName::TypeInnerPointer),
    ("ValuePointer", TypeName::TypeInnerValuePointer),
    ("Array", TypeName::TypeInnerArray),
    ("Struct", TypeName::TypeInnerStruct),
    ("Image", TypeName::TypeInnerImage),
    ("Sampler", TypeName::TypeInnerSampler),
    (
        "AccelerationStructure",
        TypeName::TypeInnerAccelerationStructure,
    ),
    ("RayQuery", TypeName::TypeInnerRayQuery),
    ("BindingArray", TypeName::TypeInnerBindingArray),
];
