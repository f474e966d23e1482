//! Tests of the literals of small numbers, and of the types and the values of literals. Their rows are in a table.
use naga_ir::{
    ConstValueError, FromLiteral, HashableLiteral, Literal, Scalar, ScalarKind, TypeInner,
};
use std::num::{f32_to_bits_with_nan, f64_to_bits_with_nan};

/// Returns whether a scalar has its literals of 0, 1 and -1.
fn have_small_literals() -> bool {
    Literal::zero(Scalar::BOOL) == Some(Literal::Bool(false))
        && Literal::one(Scalar::F16) == Some(Literal::F16(0x3C00))
        && Literal::minus_one(Scalar::I64) == Some(Literal::I64(-1))
}

/// Returns whether 2 and 3 have literals, except that 2 has no boolean literal.
fn have_literals() -> bool {
    Literal::new(2, Scalar::BOOL) == None
        && Literal::new(2, Scalar::F64) == Some(Literal::F64(0x4000_0000_0000_0000))
        && Literal::new(3, Scalar::F32) == Some(Literal::F32(0x4040_0000))
}

#[test]
fn scalars_have_literals(rt: HostRuntime) {
    assert!(rt; have_small_literals() && have_literals() && has_type(Literal::U16(7)));
}

/// Returns whether the float literals of a number have the bits of the language's own floats.
fn has_bits(value: u8) -> bool {
    let wide = f64_to_bits_with_nan(f64::from(value));
    let bits = f32_to_bits_with_nan(f32::from(value));
    Literal::new(value, Scalar::F32) == Some(Literal::F32(bits))
        && Literal::new(value, Scalar::F64) == Some(Literal::F64(wide))
}

#[test]
fn floats_have_the_bits_of_the_language(rt: HostRuntime) {
    for value in 0..=255u8 {
        assert!(rt; has_bits(value));
    }
}

/// Returns whether a literal has its type, and a hash.
fn has_type(literal: Literal) -> bool {
    literal.scalar() == Scalar::U16
        && literal.scalar_kind() == ScalarKind::Uint
        && literal.width() == 2
        && literal.ty_inner() == TypeInner::Scalar(Scalar::U16)
        && HashableLiteral::from(literal) == HashableLiteral::U16(7)
}

#[test]
fn values_are_read_from_literals(rt: HostRuntime) {
    assert!(rt; u32::try_from(Literal::I16(-1)) == Err(ConstValueError::Negative));
    assert!(rt; bool::try_from(Literal::Bool(true)) == Ok(true));
    assert!(rt; u32::from_literal(Literal::U16(7)) == Ok(7));
    assert!(rt; bool::from_literal(Literal::Bool(false)) == Ok(false));
    assert!(rt; Literal::from_literal(Literal::F16(9)) == Ok(Literal::F16(9)));
}
