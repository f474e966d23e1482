//! Laws about the equality of types, of the parts of expressions and of the information about mesh stages: they are
//! compared field by field, as plain values, whatever the spare capacity of their names and members.
ghost use Rattle.std.specs.Prelude.{◌≡◌, ◌↔◌, IsTrue};
ghost use Rattle.naga_kinds.specs.Equality.{DecidesEquality};
ghost use Rattle.naga_ir.specs.Types.{member_of, inner_of, type_of};

use crate::const_value::ConstValueError;
use crate::expression::{AtomicFunction, CooperativeData, GatherMode, ImageQuery, SampleLevel};
use crate::glsl::GlslUniformType;
use crate::literal::{HashableLiteral, Literal};
use crate::module::MeshStageInfo;
use crate::types::{
    ArraySize, IndexableLength, ResolveArraySizeError, StructMember, Type, TypeInner,
};
use std::hash::Hash;

/// Types are equal if and only if they have the same contents, and the same name or both no name.
pub fn types_are_equal_field_by_field(first: &Type, second: &Type)
    ensures { IsTrue (⟦<Type as PartialEq>⟧.eq first.now second.now)
        ↔ (type_of first.now ≡ type_of second.now) }
{}

/// Equal types have equal hashes.
pub fn equal_types_have_one_hash(first: &Type, second: &Type)
    ensures { type_of first.now ≡ type_of second.now
        → ⟦<Type as Hash>⟧.hash_input first.now ≡ ⟦<Type as Hash>⟧.hash_input second.now }
{}

/// The contents of types are equal if and only if they are the same variant with the same fields.
pub fn inner_types_are_equal_field_by_field(first: &TypeInner, second: &TypeInner)
    ensures { IsTrue (⟦<TypeInner as PartialEq>⟧.eq first.now second.now)
        ↔ (inner_of first.now ≡ inner_of second.now) }
{}

/// Members of structures are equal if and only if they have the same names, types, bindings and offsets.
pub fn struct_members_are_equal_field_by_field(first: &StructMember, second: &StructMember)
    ensures { IsTrue (⟦<StructMember as PartialEq>⟧.eq first.now second.now)
        ↔ (member_of first.now ≡ member_of second.now) }
{}

/// `==` on the sizes of arrays returns `true` if and only if they are the same value.
pub fn array_sizes_are_equal_field_by_field(first: ArraySize, second: ArraySize)
    ensures { IsTrue (⟦<ArraySize as PartialEq>⟧.eq first second) ↔ (first ≡ second) }
{}

/// Literals are equal if and only if they are of the same variant and have the same bits.
pub fn literals_are_equal_by_their_bits(first: Literal, second: Literal)
    ensures { IsTrue (⟦<Literal as PartialEq>⟧.eq first second) ↔ (first ≡ second) }
{}

/// Hashable literals are equal if and only if they are of the same variant and have the same bits.
pub fn hashable_literals_are_equal_by_their_bits(first: HashableLiteral, second: HashableLiteral)
    ensures { IsTrue (⟦<HashableLiteral as PartialEq>⟧.eq first second) ↔ (first ≡ second) }
{}

/// `==` on the lengths of arrays, on the errors of resolving them and of reading constant values, and on the types of
/// uniforms returns `true` if and only if the two are the same value.
pub fn lengths_and_uniforms_are_equal_field_by_field(
    lengths: (IndexableLength, IndexableLength),
    errors: (ResolveArraySizeError, ResolveArraySizeError),
    constant_errors: (ConstValueError, ConstValueError),
    uniforms: (GlslUniformType, GlslUniformType),
)
    ensures lengths { DecidesEquality ⟦<IndexableLength as PartialEq>⟧.eq lengths }
    ensures errors { DecidesEquality ⟦<ResolveArraySizeError as PartialEq>⟧.eq errors }
    ensures constant_errors { DecidesEquality ⟦<ConstValueError as PartialEq>⟧.eq constant_errors }
    ensures uniforms { DecidesEquality ⟦<GlslUniformType as PartialEq>⟧.eq uniforms }
{}

/// `==` on the parts of expressions and statements that concern images, atomics, subgroups and cooperative matrices
/// returns `true` if and only if the two are the same value.
pub fn parts_of_expressions_are_equal_field_by_field(
    levels: (SampleLevel, SampleLevel),
    queries: (ImageQuery, ImageQuery),
    functions: (AtomicFunction, AtomicFunction),
    modes: (GatherMode, GatherMode),
    matrices: (CooperativeData, CooperativeData),
)
    ensures levels { DecidesEquality ⟦<SampleLevel as PartialEq>⟧.eq levels }
    ensures queries { DecidesEquality ⟦<ImageQuery as PartialEq>⟧.eq queries }
    ensures functions { DecidesEquality ⟦<AtomicFunction as PartialEq>⟧.eq functions }
    ensures modes { DecidesEquality ⟦<GatherMode as PartialEq>⟧.eq modes }
    ensures matrices { DecidesEquality ⟦<CooperativeData as PartialEq>⟧.eq matrices }
{}

/// `==` on the information about mesh stages returns `true` if and only if the two are the same value.
pub fn mesh_stages_are_equal_field_by_field(first: &MeshStageInfo, second: &MeshStageInfo)
    ensures { IsTrue (⟦<MeshStageInfo as PartialEq>⟧.eq first.now second.now) ↔ (first.now ≡ second.now) }
{}
