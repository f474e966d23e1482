//! Tests of the kinds: their order, their numbers and their texts.
use super::{is_ascending, is_shown};
use naga_kinds::{
    Binding, CollectiveOperation, ConservativeDepth, CooperativeSize, Direction, EarlyDepthTest,
    EntryPointError, Interpolation, MeshOutputTopology, PredeclaredType, RayQueryIntersection,
    Scalar, ShaderStage, SubgroupOperation, SwitchValue, SwizzleComponent, VectorSize,
};
use std::alloc::Global;
use std::test::Fail;

#[test]
fn scalars_and_tests_of_depths_stand_in_their_order(rt: HostRuntime) {
    assert!(rt; is_ascending(&[Scalar::I32, Scalar::I64, Scalar::U16]));
    assert!(rt;
        is_ascending(&[
            EarlyDepthTest::Force,
            EarlyDepthTest::Allow {
                conservative: ConservativeDepth::GreaterEqual,
            },
            EarlyDepthTest::Allow {
                conservative: ConservativeDepth::LessEqual,
            },
            EarlyDepthTest::Allow {
                conservative: ConservativeDepth::Unchanged,
            },
        ])
    );
    assert!(rt; is_ascending(&SwizzleComponent::XYZW));
}

/// The numbers of kinds that are converted by `as`, each with the number that is expected.
const NUMBERS: &[(u32, u32)] = &[
    (VectorSize::Bi as u32, 2),
    (VectorSize::Tri as u32, 3),
    (VectorSize::Quad as u32, 4),
    (CooperativeSize::Eight as u32, 8),
    (CooperativeSize::Sixteen as u32, 16),
    (SwizzleComponent::X as u32, 0),
    (SwizzleComponent::Y as u32, 1),
    (SwizzleComponent::Z as u32, 2),
    (SwizzleComponent::W as u32, 3),
    (Direction::X as u32, 0),
    (Direction::Y as u32, 1),
    (Direction::Diagonal as u32, 2),
    (SubgroupOperation::All as u32, 0),
    (SubgroupOperation::Any as u32, 1),
    (SubgroupOperation::Add as u32, 2),
    (SubgroupOperation::Mul as u32, 3),
    (SubgroupOperation::Min as u32, 4),
    (SubgroupOperation::Max as u32, 5),
    (SubgroupOperation::And as u32, 6),
    (SubgroupOperation::Or as u32, 7),
    (SubgroupOperation::Xor as u32, 8),
    (CollectiveOperation::Reduce as u32, 0),
    (CollectiveOperation::InclusiveScan as u32, 1),
    (CollectiveOperation::ExclusiveScan as u32, 2),
    (RayQueryIntersection::None as u32, 0),
    (RayQueryIntersection::Triangle as u32, 1),
    (RayQueryIntersection::Generated as u32, 2),
    (RayQueryIntersection::Aabb as u32, 3),
    (ShaderStage::Vertex as u32, 0),
    (ShaderStage::Task as u32, 1),
    (ShaderStage::Mesh as u32, 2),
    (ShaderStage::Fragment as u32, 3),
    (ShaderStage::Compute as u32, 4),
    (ShaderStage::RayGeneration as u32, 5),
    (ShaderStage::Miss as u32, 6),
    (ShaderStage::AnyHit as u32, 7),
    (ShaderStage::ClosestHit as u32, 8),
    (MeshOutputTopology::Points as u32, 0),
    (MeshOutputTopology::Lines as u32, 1),
    (MeshOutputTopology::Triangles as u32, 2),
];

/// Returns whether the numbers of each row are equal.
fn are_equal(rows: &[(u32, u32)]) -> bool {
    for (number, want) in rows {
        if *number != *want {
            return false;
        }
    }
    true
}

#[test]
fn kinds_have_their_numbers(rt: HostRuntime) {
    assert!(rt; are_equal(NUMBERS));
    assert!(rt; RayQueryIntersection::default() == RayQueryIntersection::None);
}

#[test]
fn kinds_and_clones_are_printed_by_name(rt: HostRuntime) -> Result<(), Fail> {
    let alloc = rt.alloc();
    let result = PredeclaredType::ModfResult {
        size: Some(VectorSize::Bi),
        scalar: Scalar::U32,
    };
    let text = "ModfResult { size: Some(Bi), scalar: Scalar { kind: Uint, width: 4 } }";
    assert!(rt; is_shown(alloc, &result.clone()?, text));
    let location = Binding::Location {
        location: 3,
        interpolation: Some(Interpolation::Flat),
        sampling: None,
        blend_src: Some(1),
        per_primitive: true,
    };
    let text = "Location { location: 3, interpolation: Some(Flat), sampling: None, \
         blend_src: Some(1), per_primitive: true }";
    assert!(rt; is_shown(alloc, &location.clone()?, text));
    assert!(rt; is_shown(alloc, &SwitchValue::I32(-7), "I32(-7)"));
    Ok(())
}

/// Returns whether the display text of an error is `want`.
fn is_told(alloc: Global, error: EntryPointError, want: &str) -> bool {
    match format!(in alloc; "{error}") {
        Ok(text) => text.as_str() == want,
        Err(_) => false,
    }
}

#[test]
fn errors_of_entry_points_have_their_texts(rt: HostRuntime) {
    let alloc = rt.alloc();
    let (whole, field) = (
        EntryPointError::BadMeshOutputVariableType,
        EntryPointError::BadMeshOutputVariableField,
    );
    assert!(rt; is_told(alloc, whole, "mesh output variable type is wrong"));
    assert!(rt; is_told(alloc, field, "mesh output variable field is wrong"));
}
