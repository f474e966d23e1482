//! Tests of the functions on kinds, most of whose rows are in tables, and of the names and the order of kinds.
use super::is_ascending;
use naga_kinds::{
    ABSTRACT_WIDTH, AddressSpace, BOOL_WIDTH, Binding, BuiltIn, Bytes, Flags, GlslScalar,
    GlslScalarKind, GlslVectorSize, ImageClass, MathFunction, MeshOutputTopology, PlainKind,
    Scalar, ScalarKind, StorageAccess, StorageFormat, SwizzleComponent, VectorSize,
};

/// The named scalars, each with its kind and its width.
const SCALARS: &[(Scalar, ScalarKind, Bytes)] = &[
    (Scalar::F64, ScalarKind::Float, 8),
    (Scalar::F32, ScalarKind::Float, 4),
    (Scalar::F16, ScalarKind::Float, 2),
    (Scalar::I64, ScalarKind::Sint, 8),
    (Scalar::I32, ScalarKind::Sint, 4),
    (Scalar::I16, ScalarKind::Sint, 2),
    (Scalar::U64, ScalarKind::Uint, 8),
    (Scalar::U32, ScalarKind::Uint, 4),
    (Scalar::U16, ScalarKind::Uint, 2),
    (Scalar::BOOL, ScalarKind::Bool, 1),
    (Scalar::ABSTRACT_INT, ScalarKind::AbstractInt, 8),
    (Scalar::ABSTRACT_FLOAT, ScalarKind::AbstractFloat, 8),
];

/// Returns whether each scalar has its kind and its width.
fn are_of(rows: &[(Scalar, ScalarKind, Bytes)]) -> bool {
    for (scalar, kind, width) in rows {
        if scalar.kind != *kind || scalar.width != *width {
            return false;
        }
    }
    true
}

#[test]
fn formats_and_names_have_their_scalars(rt: HostRuntime) {
    assert!(rt; Scalar::from(StorageFormat::R64Uint) == Scalar::U64);
    assert!(rt; are_of(SCALARS));
    assert!(rt; BOOL_WIDTH == 1 && ABSTRACT_WIDTH == 8);
}

/// All address spaces, in their order.
const SPACES: &[AddressSpace] = &[
    AddressSpace::Function,
    AddressSpace::Private,
    AddressSpace::WorkGroup,
    AddressSpace::Uniform,
    AddressSpace::Storage {
        access: StorageAccess::LOAD,
    },
    AddressSpace::Storage {
        access: StorageAccess::ATOMIC,
    },
    AddressSpace::Handle,
    AddressSpace::Immediate,
    AddressSpace::TaskPayload,
    AddressSpace::RayPayload,
    AddressSpace::IncomingRayPayload,
];

/// Classes of images, in their order.
const CLASSES: &[ImageClass] = &[
    ImageClass::Sampled {
        kind: ScalarKind::Float,
        multi: false,
    },
    ImageClass::Sampled {
        kind: ScalarKind::Float,
        multi: true,
    },
    ImageClass::Depth { multi: false },
    ImageClass::Depth { multi: true },
    ImageClass::External,
    ImageClass::Storage {
        format: StorageFormat::R32Float,
        access: StorageAccess::LOAD,
    },
];

#[test]
fn spaces_and_classes_stand_in_their_order(rt: HostRuntime) {
    assert!(rt; is_ascending(SPACES));
    assert!(rt; is_ascending(CLASSES));
}

#[test]
fn spaces_and_classes_are_told(rt: HostRuntime) {
    let (space, class) = (AddressSpace::WorkGroup, ImageClass::Depth { multi: false });
    assert!(rt; space.access().bits() == 3 && space.is_workgroup_like());
    assert!(rt; !class.is_multisampled() && class.is_mipmapped() && class.is_depth());
}

#[test]
fn bindings_and_topologies_name_built_ins(rt: HostRuntime) {
    let position = BuiltIn::Position { invariant: true };
    let location = Binding::Location {
        location: 0,
        interpolation: None,
        sampling: None,
        blend_src: None,
        per_primitive: false,
    };
    assert!(rt; Binding::BuiltIn(position).to_built_in() == Some(position));
    assert!(rt; location.to_built_in() == None);
    assert!(rt; MeshOutputTopology::Points.to_builtin() == BuiltIn::PointIndex);
    assert!(rt; MeshOutputTopology::Lines.to_builtin() == BuiltIn::LineIndices);
    assert!(rt; MeshOutputTopology::Triangles.to_builtin() == BuiltIn::TriangleIndices);
}

#[test]
fn components_and_sizes_are_numbers(rt: HostRuntime) {
    let component = SwizzleComponent::from_index(2);
    assert!(rt; component == SwizzleComponent::Z && component.index() == 2);
    assert!(rt; u8::from(VectorSize::Tri) == 3 && u32::from(VectorSize::Tri) == 3);
    assert!(rt; GlslVectorSize::from(VectorSize::Tri) == GlslVectorSize::Tri);
    assert!(rt; VectorSize::MAX == 4);
}

#[test]
fn glsl_has_floats_but_no_booleans(rt: HostRuntime) {
    let float = GlslScalar {
        kind: GlslScalarKind::Float,
        width: 4,
    };
    assert!(rt; GlslScalar::try_from(Scalar::F32) == Ok(float));
    assert!(rt; GlslScalar::try_from(Scalar::BOOL) == Err(()));
    assert!(rt; GlslScalarKind::try_from(ScalarKind::Uint) == Ok(GlslScalarKind::Uint));
}

#[test]
fn variants_have_names_and_functions_arguments(rt: HostRuntime) {
    assert!(rt; MathFunction::variants().len() == 79 && MathFunction::Dot.name() == "Dot");
    assert!(rt; MathFunction::from_name("Dot") == Some(MathFunction::Dot));
    assert!(rt; MathFunction::Dot.argument_count() == 2);
}
