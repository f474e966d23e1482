// Made by tests/derive from the declarations of naga_kinds and naga_ir.
//! What naga_kinds declares.
ghost use Rattle.std.specs.Prelude.{◌≡◌};
ghost use Rattle.std.specs.Result.{result_ok};
ghost use Rattle.json.specs.Value.{value_view};
ghost use Rattle.naga_json.specs.Objects.{choose};
ghost use Rattle.naga_json.specs.Variants.{held_in};
ghost use Rattle.naga_json.specs.derived.AddressSpace.{address_space_codec, address_space_rows, address_space_storage};
ghost use Rattle.naga_json.specs.derived.Binding.{binding_codec, binding_location, binding_rows, resource_binding_codec};
ghost use Rattle.naga_json.specs.derived.Builtin.{built_in_barycentric, built_in_codec, built_in_position, built_in_rows};
ghost use Rattle.naga_json.specs.derived.EntryPoint.{early_depth_test_allow, early_depth_test_codec, early_depth_test_rows};
ghost use Rattle.naga_json.specs.derived.Image.{image_class_codec, image_class_depth, image_class_rows, image_class_sampled, image_class_storage};
ghost use Rattle.naga_json.specs.derived.Scalar.{scalar_codec};
ghost use Rattle.naga_json.specs.derived.Switch.{switch_value_codec, switch_value_rows};

use crate::kinds::Kind;
use crate::names::{Row, find_row};
use crate::objects::{holder, variant};
use crate::{Cause, Coded, read_struct};
use json::Value;
use naga_kinds::{
    AddressSpace, BinaryOperator, Binding, BuiltIn, CollectiveOperation, ConservativeDepth,
    CooperativeRole, CooperativeSize, DerivativeAxis, DerivativeControl, Direction, EarlyDepthTest,
    ImageClass, ImageDimension, Interpolation, MathFunction, MeshOutputTopology,
    RelationalFunction, ResourceBinding, Sampling, Scalar, ScalarKind, Severity, ShaderStage,
    StandardFilterableTriggeringRule, StorageFormat, SubgroupOperation, SwitchValue,
    SwizzleComponent, UnaryOperator, VectorSize,
};

/// The variants of `AddressSpace` that are names alone.
pub(crate) const ADDRESS_SPACE_NAMES: &'static [Row<AddressSpace>] = &[
    ("Function", AddressSpace::Function),
    ("Private", AddressSpace::Private),
    ("WorkGroup", AddressSpace::WorkGroup),
    ("Uniform", AddressSpace::Uniform),
    ("Handle", AddressSpace::Handle),
    ("Immediate", AddressSpace::Immediate),
    ("TaskPayload", AddressSpace::TaskPayload),
    ("RayPayload", AddressSpace::RayPayload),
    ("IncomingRayPayload", AddressSpace::IncomingRayPayload),
];

/// Reads a `Storage`.
#[tactic(auto, unfolding(naga_json::specs::Fields::struct_in))]
fn read_address_space_storage(held: &Value<'_>) -> Result<AddressSpace, Cause>
    ensures { result_ok result ≡ held_in address_space_storage (value_view held.now) }
{
    read_struct! { held => AddressSpace::Storage { access } }
}

/// Reads an `AddressSpace` that contains data.
pub(crate) fn read_held_address_space(name: &str, held: &Value<'_>) -> Result<AddressSpace, Cause>
    ensures { result_ok result ≡ choose (address_space_rows (value_view held.now)) name.now }
{
    match name {
        "Storage" => read_address_space_storage(held),
        _ => Err(Cause::UnknownVariant),
    }
}

impl Coded for AddressSpace {
    ghost codec = { address_space_codec };

    fn read_value(value: &Value<'_>) -> Result<Self, Cause> {
        match variant(value)? {
            (name, None) => find_row(ADDRESS_SPACE_NAMES, name).ok_or(Cause::UnknownVariant),
            (name, Some(held)) => read_held_address_space(name, held),
        }
    }
}

/// Reads a `Location`.
#[tactic(auto, unfolding(naga_json::specs::Fields::struct_in))]
fn read_binding_location(held: &Value<'_>) -> Result<Binding, Cause>
    ensures { result_ok result ≡ held_in binding_location (value_view held.now) }
{
    read_struct! { held => Binding::Location {
        location, interpolation, sampling, blend_src, per_primitive,
    } }
}

/// Reads a `Binding` that contains data.
pub(crate) fn read_held_binding(name: &str, held: &Value<'_>) -> Result<Binding, Cause>
    ensures { result_ok result ≡ choose (binding_rows (value_view held.now)) name.now }
{
    match name {
        "BuiltIn" => Ok(Binding::BuiltIn(Coded::read_value(held)?)),
        "Location" => read_binding_location(held),
        _ => Err(Cause::UnknownVariant),
    }
}

impl Coded for Binding {
    ghost codec = { binding_codec };

    fn read_value(value: &Value<'_>) -> Result<Self, Cause> {
        let (name, held) = holder(value)?;
        read_held_binding(name, held)
    }
}

impl Coded for ResourceBinding {
    ghost codec = { resource_binding_codec };

    #[tactic(auto, unfolding(naga_json::specs::Fields::struct_in))]
    fn read_value(value: &Value<'_>) -> Result<Self, Cause> {
        read_struct! { value => ResourceBinding { group, binding } }
    }
}

/// The variants of `BuiltIn` that are names alone.
pub(crate) const BUILT_IN_NAMES: &'static [Row<BuiltIn>] = &[
    ("PrimitiveIndex", BuiltIn::PrimitiveIndex),
    ("ViewIndex", BuiltIn::ViewIndex),
    ("BaseInstance", BuiltIn::BaseInstance),
    ("BaseVertex", BuiltIn::BaseVertex),
    ("ClipDistances", BuiltIn::ClipDistances),
    ("CullDistance", BuiltIn::CullDistance),
    ("InstanceIndex", BuiltIn::InstanceIndex),
    ("PointSize", BuiltIn::PointSize),
    ("VertexIndex", BuiltIn::VertexIndex),
    ("DrawIndex", BuiltIn::DrawIndex),
    ("FragDepth", BuiltIn::FragDepth),
    ("PointCoord", BuiltIn::PointCoord),
    ("FrontFacing", BuiltIn::FrontFacing),
    ("SampleIndex", BuiltIn::SampleIndex),
    ("SampleMask", BuiltIn::SampleMask),
    ("GlobalInvocationId", BuiltIn::GlobalInvocationId),
    ("LocalInvocationId", BuiltIn::LocalInvocationId),
    ("LocalInvocationIndex", BuiltIn::LocalInvocationIndex),
    ("WorkGroupId", BuiltIn::WorkGroupId),
    ("WorkGroupSize", BuiltIn::WorkGroupSize),
    ("NumWorkGroups", BuiltIn::NumWorkGroups),
    ("NumSubgroups", BuiltIn::NumSubgroups),
    ("SubgroupId", BuiltIn::SubgroupId),
    ("SubgroupSize", BuiltIn::SubgroupSize),
    ("SubgroupInvocationId", BuiltIn::SubgroupInvocationId),
    ("MeshTaskSize", BuiltIn::MeshTaskSize),
    ("CullPrimitive", BuiltIn::CullPrimitive),
    ("PointIndex", BuiltIn::PointIndex),
    ("LineIndices", BuiltIn::LineIndices),
    ("TriangleIndices", BuiltIn::TriangleIndices),
    ("VertexCount", BuiltIn::VertexCount),
    ("Vertices", BuiltIn::Vertices),
    ("PrimitiveCount", BuiltIn::PrimitiveCount),
    ("Primitives", BuiltIn::Primitives),
    ("RayInvocationId", BuiltIn::RayInvocationId),
    ("NumRayInvocations", BuiltIn::NumRayInvocations),
    ("InstanceCustomData", BuiltIn::InstanceCustomData),
    ("GeometryIndex", BuiltIn::GeometryIndex),
    ("WorldRayOrigin", BuiltIn::WorldRayOrigin),
    ("WorldRayDirection", BuiltIn::WorldRayDirection),
    ("ObjectRayOrigin", BuiltIn::ObjectRayOrigin),
    ("ObjectRayDirection", BuiltIn::ObjectRayDirection),
    ("RayTmin", BuiltIn::RayTmin),
    ("RayTCurrentMax", BuiltIn::RayTCurrentMax),
    ("ObjectToWorld", BuiltIn::ObjectToWorld),
    ("WorldToObject", BuiltIn::WorldToObject),
    ("HitKind", BuiltIn::HitKind),
];

/// Reads a `Position`.
#[tactic(auto, unfolding(naga_json::specs::Fields::struct_in))]
fn read_built_in_position(held: &Value<'_>) -> Result<BuiltIn, Cause>
    ensures { result_ok result ≡ held_in built_in_position (value_view held.now) }
{
    read_struct! { held => BuiltIn::Position { invariant } }
}

/// Reads a `Barycentric`.
#[tactic(auto, unfolding(naga_json::specs::Fields::struct_in))]
fn read_built_in_barycentric(held: &Value<'_>) -> Result<BuiltIn, Cause>
    ensures { result_ok result ≡ held_in built_in_barycentric (value_view held.now) }
{
    read_struct! { held => BuiltIn::Barycentric { perspective } }
}

/// Reads a `BuiltIn` that contains data.
pub(crate) fn read_held_built_in(name: &str, held: &Value<'_>) -> Result<BuiltIn, Cause>
    ensures { result_ok result ≡ choose (built_in_rows (value_view held.now)) name.now }
{
    match name {
        "Position" => read_built_in_position(held),
        "Barycentric" => read_built_in_barycentric(held),
        _ => Err(Cause::UnknownVariant),
    }
}

impl Coded for BuiltIn {
    ghost codec = { built_in_codec };

    fn read_value(value: &Value<'_>) -> Result<Self, Cause> {
        match variant(value)? {
            (name, None) => find_row(BUILT_IN_NAMES, name).ok_or(Cause::UnknownVariant),
            (name, Some(held)) => read_held_built_in(name, held),
        }
    }
}

/// The variants of `EarlyDepthTest` that are names alone.
pub(crate) const EARLY_DEPTH_TEST_NAMES: &'static [Row<EarlyDepthTest>] = &[(
    "Force",
    EarlyDepthTest::Force,
)];

/// Reads an `Allow`.
#[tactic(auto, unfolding(naga_json::specs::Fields::struct_in))]
fn read_early_depth_test_allow(held: &Value<'_>) -> Result<EarlyDepthTest, Cause>
    ensures { result_ok result ≡ held_in early_depth_test_allow (value_view held.now) }
{
    read_struct! { held => EarlyDepthTest::Allow { conservative } }
}

/// Reads an `EarlyDepthTest` that contains data.
pub(crate) fn read_held_early_depth_test(
    name: &str,
    held: &Value<'_>,
) -> Result<EarlyDepthTest, Cause>
    ensures { result_ok result ≡ choose (early_depth_test_rows (value_view held.now)) name.now }
{
    match name {
        "Allow" => read_early_depth_test_allow(held),
        _ => Err(Cause::UnknownVariant),
    }
}

impl Coded for EarlyDepthTest {
    ghost codec = { early_depth_test_codec };

    fn read_value(value: &Value<'_>) -> Result<Self, Cause> {
        match variant(value)? {
            (name, None) => find_row(EARLY_DEPTH_TEST_NAMES, name).ok_or(Cause::UnknownVariant),
            (name, Some(held)) => read_held_early_depth_test(name, held),
        }
    }
}

/// The variants of `ImageClass` that are names alone.
pub(crate) const IMAGE_CLASS_NAMES: &'static [Row<ImageClass>] = &[(
    "External",
    ImageClass::External,
)];

/// Reads a `Sampled`.
#[tactic(auto, unfolding(naga_json::specs::Fields::struct_in))]
fn read_image_class_sampled(held: &Value<'_>) -> Result<ImageClass, Cause>
    ensures { result_ok result ≡ held_in image_class_sampled (value_view held.now) }
{
    read_struct! { held => ImageClass::Sampled { kind, multi } }
}

/// Reads a `Depth`.
#[tactic(auto, unfolding(naga_json::specs::Fields::struct_in))]
fn read_image_class_depth(held: &Value<'_>) -> Result<ImageClass, Cause>
    ensures { result_ok result ≡ held_in image_class_depth (value_view held.now) }
{
    read_struct! { held => ImageClass::Depth { multi } }
}

/// Reads a `Storage`.
#[tactic(auto, unfolding(naga_json::specs::Fields::struct_in))]
fn read_image_class_storage(held: &Value<'_>) -> Result<ImageClass, Cause>
    ensures { result_ok result ≡ held_in image_class_storage (value_view held.now) }
{
    read_struct! { held => ImageClass::Storage { format, access } }
}

/// Reads an `ImageClass` that contains data.
pub(crate) fn read_held_image_class(name: &str, held: &Value<'_>) -> Result<ImageClass, Cause>
    ensures { result_ok result ≡ choose (image_class_rows (value_view held.now)) name.now }
{
    match name {
        "Sampled" => read_image_class_sampled(held),
        "Depth" => read_image_class_depth(held),
        "Storage" => read_image_class_storage(held),
        _ => Err(Cause::UnknownVariant),
    }
}

impl Coded for ImageClass {
    ghost codec = { image_class_codec };

    fn read_value(value: &Value<'_>) -> Result<Self, Cause> {
        match variant(value)? {
            (name, None) => find_row(IMAGE_CLASS_NAMES, name).ok_or(Cause::UnknownVariant),
            (name, Some(held)) => read_held_image_class(name, held),
        }
    }
}

impl Coded for Scalar {
    ghost codec = { scalar_codec };

    #[tactic(auto, unfolding(naga_json::specs::Fields::struct_in))]
    fn read_value(value: &Value<'_>) -> Result<Self, Cause> {
        read_struct! { value => Scalar { kind, width } }
    }
}

/// The variants of `SwitchValue` that are names alone.
pub(crate) const SWITCH_VALUE_NAMES: &'static [Row<SwitchValue>] = &[(
    "Default",
    SwitchValue::Default,
)];

/// Reads a `SwitchValue` that contains data.
pub(crate) fn read_held_switch_value(name: &str, held: &Value<'_>) -> Result<SwitchValue, Cause>
    ensures { result_ok result ≡ choose (switch_value_rows (value_view held.now)) name.now }
{
    match name {
        "I32" => Ok(SwitchValue::I32(Coded::read_value(held)?)),
        "U32" => Ok(SwitchValue::U32(Coded::read_value(held)?)),
        _ => Err(Cause::UnknownVariant),
    }
}

impl Coded for SwitchValue {
    ghost codec = { switch_value_codec };

    fn read_value(value: &Value<'_>) -> Result<Self, Cause> {
        match variant(value)? {
            (name, None) => find_row(SWITCH_VALUE_NAMES, name).ok_or(Cause::UnknownVariant),
            (name, Some(held)) => read_held_switch_value(name, held),
        }
    }
}

impl Kind for Interpolation {}

impl Kind for Sampling {}

impl Kind for Severity {}

impl Kind for StandardFilterableTriggeringRule {}

impl Kind for ShaderStage {}

impl Kind for ConservativeDepth {}

impl Kind for MeshOutputTopology {}

impl Kind for StorageFormat {}

impl Kind for ImageDimension {}

impl Kind for MathFunction {}

impl Kind for UnaryOperator {}

impl Kind for BinaryOperator {}

impl Kind for DerivativeControl {}

impl Kind for DerivativeAxis {}

impl Kind for RelationalFunction {}

impl Kind for SwizzleComponent {}

impl Kind for VectorSize {}

impl Kind for CooperativeSize {}

impl Kind for ScalarKind {}

impl Kind for CooperativeRole {}

impl Kind for Direction {}

impl Kind for SubgroupOperation {}

impl Kind for CollectiveOperation {}
