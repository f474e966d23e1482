//! Laws of the constants, the sets of flags, the diagnostic rules and the kinds that types consist of.
ghost use Rattle.std.specs.Prelude.{◌≡◌, ◌<◌, ◌^◌, ◌↔◌, [], ◌∷◌, IsTrue, map};
ghost use Rattle.std.specs.Int.RustNames.{bit_and};
ghost use Rattle.bitflags.specs.Sets.{known_bits};
ghost use Rattle.naga_kinds.specs.Rule.{rule_of};
ghost use Rattle.naga_kinds.specs.Scalar.{abstract_width, bool_width, components_of};
ghost use Rattle.naga_kinds.specs.Swizzle.{place_of};

pub mod equality;
pub mod filters;
pub mod names;
pub mod reports;

use crate::binding::Binding;
use crate::diagnostic_filter::FilterableTriggeringRule;
use crate::flags::{Barrier, MemoryDecorations, RayFlag, StorageAccess};
use crate::operator::SwizzleComponent;
use crate::scalar::{ABSTRACT_WIDTH, BOOL_WIDTH, PredeclaredType, Scalar, ScalarKind, VectorSize};
use bitflags::Flags;
use std::hash::Hash;

/// The constants have the expected values.
///
/// These are the named scalars, the widths of booleans and of scalars whose type is not chosen yet, the greatest number
/// of components of a vector, and the list of the components in order.
pub fn constants_have_their_values()
    ensures floats { (Scalar.F16 ≡ record { kind = ScalarKind.Float; width = 2 })
        × (Scalar.F32 ≡ record { kind = ScalarKind.Float; width = 4 })
        × (Scalar.F64 ≡ record { kind = ScalarKind.Float; width = 8 }) }
    ensures signed { (Scalar.I16 ≡ record { kind = ScalarKind.Sint; width = 2 })
        × (Scalar.I32 ≡ record { kind = ScalarKind.Sint; width = 4 })
        × (Scalar.I64 ≡ record { kind = ScalarKind.Sint; width = 8 }) }
    ensures unsigned { (Scalar.U16 ≡ record { kind = ScalarKind.Uint; width = 2 })
        × (Scalar.U32 ≡ record { kind = ScalarKind.Uint; width = 4 })
        × (Scalar.U64 ≡ record { kind = ScalarKind.Uint; width = 8 }) }
    ensures truth_value { Scalar.BOOL ≡ record { kind = ScalarKind.Bool; width = bool_width } }
    ensures untyped { (Scalar.ABSTRACT_INT ≡ record { kind = ScalarKind.AbstractInt; width = abstract_width })
        × (Scalar.ABSTRACT_FLOAT ≡ record { kind = ScalarKind.AbstractFloat; width = abstract_width }) }
    ensures widths { (BOOL_WIDTH ≡ bool_width) × (ABSTRACT_WIDTH ≡ abstract_width) }
    ensures most { VectorSize.MAX ≡ components_of VectorSize.Quad }
    ensures in_order { map place_of SwizzleComponent.XYZW ≡ 0 ∷ 1 ∷ 2 ∷ 3 ∷ [] }
{}

/// The flags of each type are the lowest bits of a number, so a number is a set of flags if and only if it is below a
/// power of two.
///
/// This is the condition that `from_bits` tests.
pub fn sets_are_numbers_below_a_power(bits: u32)
    ensures storage_accesses { (bit_and bits (known_bits ⟦<StorageAccess as Flags>⟧.table) ≡ bits)
        ↔ (bits < 2 ^ 3) }
    ensures memory_decorations { (bit_and bits (known_bits ⟦<MemoryDecorations as Flags>⟧.table) ≡ bits)
        ↔ (bits < 2 ^ 2) }
    ensures barriers { (bit_and bits (known_bits ⟦<Barrier as Flags>⟧.table) ≡ bits)
        ↔ (bits < 2 ^ 4) }
    ensures ray_flags { (bit_and bits (known_bits ⟦<RayFlag as Flags>⟧.table) ≡ bits)
        ↔ (bits < 2 ^ 10) }
{}

/// Two sets of flags are equal if and only if they have the same bits.
pub fn sets_are_equal_by_their_bits(
    accesses: (StorageAccess, StorageAccess),
    decorations: (MemoryDecorations, MemoryDecorations),
    barriers: (Barrier, Barrier),
    flags: (RayFlag, RayFlag),
)
    ensures storage_accesses { IsTrue (⟦<StorageAccess as PartialEq>⟧.eq accesses.0 accesses.1)
        ↔ (⟦<StorageAccess as Flags>⟧.set_of accesses.0 ≡ ⟦<StorageAccess as Flags>⟧.set_of accesses.1) }
    ensures memory_decorations { IsTrue (⟦<MemoryDecorations as PartialEq>⟧.eq decorations.0 decorations.1)
        ↔ (⟦<MemoryDecorations as Flags>⟧.set_of decorations.0 ≡ ⟦<MemoryDecorations as Flags>⟧.set_of decorations.1) }
    ensures barriers { IsTrue (⟦<Barrier as PartialEq>⟧.eq barriers.0 barriers.1)
        ↔ (⟦<Barrier as Flags>⟧.set_of barriers.0 ≡ ⟦<Barrier as Flags>⟧.set_of barriers.1) }
    ensures ray_flags { IsTrue (⟦<RayFlag as PartialEq>⟧.eq flags.0 flags.1)
        ↔ (⟦<RayFlag as Flags>⟧.set_of flags.0 ≡ ⟦<RayFlag as Flags>⟧.set_of flags.1) }
{}

/// Two bindings are equal if and only if they are the same variant with the same fields.
pub fn bindings_are_equal_field_by_field(first: &Binding, second: &Binding)
    ensures { IsTrue (⟦<Binding as PartialEq>⟧.eq first.now second.now) ↔ (first.now ≡ second.now) }
{}

/// Two predeclared types are equal if and only if they are the same variant with the same fields.
pub fn predeclared_types_are_equal_field_by_field(first: &PredeclaredType, second: &PredeclaredType)
    ensures { IsTrue (⟦<PredeclaredType as PartialEq>⟧.eq first.now second.now)
        ↔ (first.now ≡ second.now) }
{}

/// Two rules are equal if and only if they represent the same rule.
pub fn rules_are_equal_by_their_names(
    first: &FilterableTriggeringRule,
    second: &FilterableTriggeringRule,
)
    ensures { IsTrue (⟦<FilterableTriggeringRule as PartialEq>⟧.eq first.now second.now)
        ↔ (rule_of first.now ≡ rule_of second.now) }
{}

/// Equal rules have equal hashes.
pub fn equal_rules_have_one_hash(
    first: &FilterableTriggeringRule,
    second: &FilterableTriggeringRule,
)
    ensures { rule_of first.now ≡ rule_of second.now
        → ⟦<FilterableTriggeringRule as Hash>⟧.hash_input first.now
        ≡ ⟦<FilterableTriggeringRule as Hash>⟧.hash_input second.now }
{}

/// A clone of a rule represents the same rule.
pub fn clones_stand_for_the_same_rule(
    source: &FilterableTriggeringRule,
    clone: &FilterableTriggeringRule,
)
    ensures { ⟦<FilterableTriggeringRule as Clone>⟧.is_clone source.now clone.now
        → rule_of source.now ≡ rule_of clone.now }
{}
