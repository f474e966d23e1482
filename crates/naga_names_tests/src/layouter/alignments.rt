//! Alignments at some numbers.
use naga_kinds::{CooperativeSize, VectorSize};
use naga_layouter::Alignment;
use std::alloc::Global;

/// Returns whether powers of two are alignments, and no other numbers.
fn is_made() -> bool {
    Alignment::new(1) == Some(Alignment::ONE)
        && Alignment::new(8) == Some(Alignment::EIGHT)
        && Alignment::new(2_147_483_648).is_some()
        && Alignment::new(0).is_none()
        && Alignment::new(24).is_none()
}

/// Returns whether widths are alignments, if they are powers of two.
fn is_made_from_width() -> bool {
    Alignment::from_width(4) == Some(Alignment::FOUR)
        && Alignment::from_width(128) == Alignment::new(128)
        && Alignment::from_width(3).is_none()
}

/// Returns whether sizes of vectors and of cooperative matrices are converted to factors.
fn is_converted() -> bool {
    Alignment::from(VectorSize::Bi) == Alignment::TWO
        && Alignment::from(VectorSize::Tri) == Alignment::FOUR
        && Alignment::from(VectorSize::Quad) == Alignment::FOUR
        && Alignment::from(CooperativeSize::Eight) == Alignment::EIGHT
        && Alignment::from(CooperativeSize::Sixteen) == Alignment::SIXTEEN
}

/// Returns whether multiples are recognized.
fn is_compared() -> bool {
    Alignment::FOUR.is_aligned(0)
        && Alignment::FOUR.is_aligned(12)
        && !Alignment::FOUR.is_aligned(14)
        && Alignment::ONE.is_aligned(7)
}

/// Returns whether numbers are rounded up.
fn is_rounded() -> bool {
    Alignment::MIN_UNIFORM.round_up(0) == 0
        && Alignment::MIN_UNIFORM.round_up(1) == 16
        && Alignment::MIN_UNIFORM.round_up(16) == 16
        && Alignment::EIGHT.round_up(17) == 24
}

/// Returns whether alignments are multiplied, by one another and by numbers.
fn is_multiplied() -> bool {
    Alignment::FOUR * Alignment::TWO == Alignment::EIGHT
        && Alignment::FOUR * 5u32 == 20
        && Alignment::SIXTEEN.get() == 16
}

/// Returns whether the texts of an alignment are its number.
fn is_shown(alloc: Global) -> bool {
    let alignment = Alignment::SIXTEEN;
    match format!(in alloc; "{alignment} {alignment:?}") {
        Ok(text) => text.as_str() == "16 Alignment(16)",
        Err(_) => true,
    }
}

#[test]
fn alignments_are_powers_of_two(rt: HostRuntime) {
    assert!(rt; is_made());
    assert!(rt; is_made_from_width());
    assert!(rt; is_converted());
    assert!(rt; is_compared());
    assert!(rt; is_rounded());
    assert!(rt; is_multiplied());
    assert!(rt; is_shown(rt.alloc()));
}
