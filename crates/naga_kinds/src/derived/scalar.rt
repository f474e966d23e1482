// Made by tests/derive from the declarations of naga_kinds and naga_ir.
//! Names and order of variants.
ghost use Rattle.naga_kinds.specs.derived.Names.{cooperative_role_name, cooperative_roles, cooperative_size_name, cooperative_sizes, scalar_kind_name, scalar_kinds, vector_size_name, vector_sizes};

use crate::plain_kind::PlainKind;
use crate::scalar::{CooperativeRole, CooperativeSize, ScalarKind, VectorSize};

/// The variants of `VectorSize`, in the order of their declaration.
const VECTOR_SIZES: &[VectorSize] = &[VectorSize::Bi, VectorSize::Tri, VectorSize::Quad];

impl PlainKind for VectorSize {
    ghost name_of = { vector_size_name };

    ghost in_order = { vector_sizes };

    fn variants<'a>() -> &'a [VectorSize] {
        VECTOR_SIZES
    }

    fn name(self) -> &'static str {
        match self {
            VectorSize::Bi => "Bi",
            VectorSize::Tri => "Tri",
            VectorSize::Quad => "Quad",
        }
    }
}

/// The variants of `CooperativeSize`, in the order of their declaration.
const COOPERATIVE_SIZES: &[CooperativeSize] = &[CooperativeSize::Eight, CooperativeSize::Sixteen];

impl PlainKind for CooperativeSize {
    ghost name_of = { cooperative_size_name };

    ghost in_order = { cooperative_sizes };

    fn variants<'a>() -> &'a [CooperativeSize] {
        COOPERATIVE_SIZES
    }

    fn name(self) -> &'static str {
        match self {
            CooperativeSize::Eight => "Eight",
            CooperativeSize::Sixteen => "Sixteen",
        }
    }
}

/// The variants of `ScalarKind`, in the order of their declaration.
const SCALAR_KINDS: &[ScalarKind] = &[
    ScalarKind::Sint,
    ScalarKind::Uint,
    ScalarKind::Float,
    ScalarKind::Bool,
    ScalarKind::AbstractInt,
    ScalarKind::AbstractFloat,
];

impl PlainKind for ScalarKind {
    ghost name_of = { scalar_kind_name };

    ghost in_order = { scalar_kinds };

    fn variants<'a>() -> &'a [ScalarKind] {
        SCALAR_KINDS
    }

    fn name(self) -> &'static str {
        match self {
            ScalarKind::Sint => "Sint",
            ScalarKind::Uint => "Uint",
            ScalarKind::Float => "Float",
            ScalarKind::Bool => "Bool",
            ScalarKind::AbstractInt => "AbstractInt",
            ScalarKind::AbstractFloat => "AbstractFloat",
        }
    }
}

/// The variants of `CooperativeRole`, in the order of their declaration.
const COOPERATIVE_ROLES: &[CooperativeRole] = &[
    CooperativeRole::A,
    CooperativeRole::B,
    CooperativeRole::C,
];

impl PlainKind for CooperativeRole {
    ghost name_of = { cooperative_role_name };

    ghost in_order = { cooperative_roles };

    fn variants<'a>() -> &'a [CooperativeRole] {
        COOPERATIVE_ROLES
    }

    fn name(self) -> &'static str {
        match self {
            CooperativeRole::A => "A",
            CooperativeRole::B => "B",
            CooperativeRole::C => "C",
        }
    }
}
