// Made by tests/derive from the declarations of naga_kinds and naga_ir.
//! The kinds whose variants contain no data, as the tables name them.

use crate::derived::kind::Kind;
use crate::derived::type_name::TypeName;
use crate::leaf::Leaf;

pub(crate) const INTERPOLATION: TypeName = TypeName::Leaf(Leaf::Kind(Kind::Interpolation));

pub(crate) const SAMPLING: TypeName = TypeName::Leaf(Leaf::Kind(Kind::Sampling));

pub(crate) const SEVERITY: TypeName = TypeName::Leaf(Leaf::Kind(Kind::Severity));

pub(crate) const STANDARD_RULE: TypeName = TypeName::Leaf(Leaf::Kind(Kind::StandardRule));

pub(crate) const SHADER_STAGE: TypeName = TypeName::Leaf(Leaf::Kind(Kind::ShaderStage));

pub(crate) const CONSERVATIVE_DEPTH: TypeName = TypeName::Leaf(Leaf::Kind(Kind::ConservativeDepth));

pub(crate) const MESH_OUTPUT_TOPOLOGY: TypeName = TypeName::Leaf(Leaf::Kind(
    Kind::MeshOutputTopology,
));

pub(crate) const STORAGE_FORMAT: TypeName = TypeName::Leaf(Leaf::Kind(Kind::StorageFormat));

pub(crate) const IMAGE_DIMENSION: TypeName = TypeName::Leaf(Leaf::Kind(Kind::ImageDimension));

pub(crate) const MATH_FUNCTION: TypeName = TypeName::Leaf(Leaf::Kind(Kind::MathFunction));

pub(crate) const UNARY_OPERATOR: TypeName = TypeName::Leaf(Leaf::Kind(Kind::UnaryOperator));

pub(crate) const BINARY_OPERATOR: TypeName = TypeName::Leaf(Leaf::Kind(Kind::BinaryOperator));

pub(crate) const DERIVATIVE_CONTROL: TypeName = TypeName::Leaf(Leaf::Kind(Kind::DerivativeControl));

pub(crate) const DERIVATIVE_AXIS: TypeName = TypeName::Leaf(Leaf::Kind(Kind::DerivativeAxis));

pub(crate) const RELATIONAL_FUNCTION: TypeName = TypeName::Leaf(Leaf::Kind(
    Kind::RelationalFunction,
));

pub(crate) const SWIZZLE_COMPONENT: TypeName = TypeName::Leaf(Leaf::Kind(Kind::SwizzleComponent));

pub(crate) const VECTOR_SIZE: TypeName = TypeName::Leaf(Leaf::Kind(Kind::VectorSize));

pub(crate) const COOPERATIVE_SIZE: TypeName = TypeName::Leaf(Leaf::Kind(Kind::CooperativeSize));

pub(crate) const SCALAR_KIND: TypeName = TypeName::Leaf(Leaf::Kind(Kind::ScalarKind));

pub(crate) const COOPERATIVE_ROLE: TypeName = TypeName::Leaf(Leaf::Kind(Kind::CooperativeRole));

pub(crate) const DIRECTION: TypeName = TypeName::Leaf(Leaf::Kind(Kind::Direction));

pub(crate) const SUBGROUP_OPERATION: TypeName = TypeName::Leaf(Leaf::Kind(Kind::SubgroupOperation));

pub(crate) const COLLECTIVE_OPERATION: TypeName = TypeName::Leaf(Leaf::Kind(
    Kind::CollectiveOperation,
));
