// Made by tests/derive from the declarations of naga_kinds and naga_ir.
//! The kinds whose variants contain no data.
ghost use Rattle.std.specs.Prelude.{option_map, slice_get, ◌≡◌};
ghost use Rattle.naga_schema.specs.derived.Kinds.{kind_has, kind_names};

use crate::look::name_at;
use naga_kinds::{
    BinaryOperator, CollectiveOperation, ConservativeDepth, CooperativeRole, CooperativeSize,
    DerivativeAxis, DerivativeControl, Direction, ImageDimension, Interpolation, MathFunction,
    MeshOutputTopology, PlainKind, RelationalFunction, Sampling, ScalarKind, Severity, ShaderStage,
    StandardFilterableTriggeringRule, StorageFormat, SubgroupOperation, SwizzleComponent,
    UnaryOperator, VectorSize,
};

/// A kind whose variants contain no data, which is written as the name of its variant.
#[derive(Clone, Copy, Debug, PartialEq, Eq)]
pub enum Kind {
    /// `Interpolation`.
    Interpolation,
    /// `Sampling`.
    Sampling,
    /// `Severity`.
    Severity,
    /// `StandardFilterableTriggeringRule`.
    StandardRule,
    /// `ShaderStage`.
    ShaderStage,
    /// `ConservativeDepth`.
    ConservativeDepth,
    /// `MeshOutputTopology`.
    MeshOutputTopology,
    /// `StorageFormat`.
    StorageFormat,
    /// `ImageDimension`.
    ImageDimension,
    /// `MathFunction`.
    MathFunction,
    /// `UnaryOperator`.
    UnaryOperator,
    /// `BinaryOperator`.
    BinaryOperator,
    /// `DerivativeControl`.
    DerivativeControl,
    /// `DerivativeAxis`.
    DerivativeAxis,
    /// `RelationalFunction`.
    RelationalFunction,
    /// `SwizzleComponent`.
    SwizzleComponent,
    /// `VectorSize`.
    VectorSize,
    /// `CooperativeSize`.
    CooperativeSize,
    /// `ScalarKind`.
    ScalarKind,
    /// `CooperativeRole`.
    CooperativeRole,
    /// `Direction`.
    Direction,
    /// `SubgroupOperation`.
    SubgroupOperation,
    /// `CollectiveOperation`.
    CollectiveOperation,
}

impl Kind {
    /// Returns `true` if a variant of the kind has this name.
    #[tactic(auto, unfolding(crate::specs::derived::Kinds::kind_has))]
    pub fn has(self, name: &str) -> bool
        ensures { result ≡ kind_has self name.now }
    {
        match self {
            Kind::Interpolation => Interpolation::from_name(name).is_some(),
            Kind::Sampling => Sampling::from_name(name).is_some(),
            Kind::Severity => Severity::from_name(name).is_some(),
            Kind::StandardRule => StandardFilterableTriggeringRule::from_name(name).is_some(),
            Kind::ShaderStage => ShaderStage::from_name(name).is_some(),
            Kind::ConservativeDepth => ConservativeDepth::from_name(name).is_some(),
            Kind::MeshOutputTopology => MeshOutputTopology::from_name(name).is_some(),
            Kind::StorageFormat => StorageFormat::from_name(name).is_some(),
            Kind::ImageDimension => ImageDimension::from_name(name).is_some(),
            Kind::MathFunction => MathFunction::from_name(name).is_some(),
            Kind::UnaryOperator => UnaryOperator::from_name(name).is_some(),
            Kind::BinaryOperator => BinaryOperator::from_name(name).is_some(),
            Kind::DerivativeControl => DerivativeControl::from_name(name).is_some(),
            Kind::DerivativeAxis => DerivativeAxis::from_name(name).is_some(),
            Kind::RelationalFunction => RelationalFunction::from_name(name).is_some(),
            Kind::SwizzleComponent => SwizzleComponent::from_name(name).is_some(),
            Kind::VectorSize => VectorSize::from_name(name).is_some(),
            Kind::CooperativeSize => CooperativeSize::from_name(name).is_some(),
            Kind::ScalarKind => ScalarKind::from_name(name).is_some(),
            Kind::CooperativeRole => CooperativeRole::from_name(name).is_some(),
            Kind::Direction => Direction::from_name(name).is_some(),
            Kind::SubgroupOperation => SubgroupOperation::from_name(name).is_some(),
            Kind::CollectiveOperation => CollectiveOperation::from_name(name).is_some(),
        }
    }

    /// Returns the name of the variant at a position, in the order of declaration, or `None` if there are fewer.
    #[tactic(auto, unfolding(crate::specs::derived::Kinds::kind_names))]
    pub fn name(self, position: usize) -> Option<&'static str>
        ensures { option_map (λ name. name.now) result ≡ slice_get (kind_names self) position }
    {
        match self {
            Kind::Interpolation => name_at::<Interpolation>(position),
            Kind::Sampling => name_at::<Sampling>(position),
            Kind::Severity => name_at::<Severity>(position),
            Kind::StandardRule => name_at::<StandardFilterableTriggeringRule>(position),
            Kind::ShaderStage => name_at::<ShaderStage>(position),
            Kind::ConservativeDepth => name_at::<ConservativeDepth>(position),
            Kind::MeshOutputTopology => name_at::<MeshOutputTopology>(position),
            Kind::StorageFormat => name_at::<StorageFormat>(position),
            Kind::ImageDimension => name_at::<ImageDimension>(position),
            Kind::MathFunction => name_at::<MathFunction>(position),
            Kind::UnaryOperator => name_at::<UnaryOperator>(position),
            Kind::BinaryOperator => name_at::<BinaryOperator>(position),
            Kind::DerivativeControl => name_at::<DerivativeControl>(position),
            Kind::DerivativeAxis => name_at::<DerivativeAxis>(position),
            Kind::RelationalFunction => name_at::<RelationalFunction>(position),
            Kind::SwizzleComponent => name_at::<SwizzleComponent>(position),
            Kind::VectorSize => name_at::<VectorSize>(position),
            Kind::CooperativeSize => name_at::<CooperativeSize>(position),
            Kind::ScalarKind => name_at::<ScalarKind>(position),
            Kind::CooperativeRole => name_at::<CooperativeRole>(position),
            Kind::Direction => name_at::<Direction>(position),
            Kind::SubgroupOperation => name_at::<SubgroupOperation>(position),
            Kind::CollectiveOperation => name_at::<CollectiveOperation>(position),
        }
    }
}
