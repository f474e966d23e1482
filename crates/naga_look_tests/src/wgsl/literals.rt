//! The texts of literals in WGSL.
use naga_ir::Literal;
use naga_text::Text;
use naga_wgsl::{Cause, WriteError, write_literal};
use std::alloc::Global;

/// Literals of each type of WGSL, and their texts.
pub(super) const LITERALS: &[(Literal, &str)] = &[
    (Literal::Bool(true), "true"),
    (Literal::U32(7), "7u"),
    (Literal::I32(-7), "-7i"),
    (Literal::I32(-2147483648), "i32(-2147483648)"),
    (Literal::F32(0x4040_0000), "0x1.8p1f"),
    (Literal::F32(0x8000_0001), "-0x0.000002p-126f"),
    (Literal::F16(0x3C00), "0x1p0h"),
    (Literal::AbstractInt(-7), "-7"),
    (Literal::AbstractFloat(0x3FE0_0000_0000_0000), "0x1p-1"),
];

/// Literals that WGSL does not have, and why.
const OTHERS: &[(Literal, Cause)] = &[
    (Literal::F32(0x7F80_0000), Cause::NotFinite),
    (Literal::F32(0xFFC0_0001), Cause::NotFinite),
    (
        Literal::AbstractFloat(0x7FF0_0000_0000_0000),
        Cause::NotFinite,
    ),
    (Literal::F64(0x3FF0_0000_0000_0000), Cause::Scalar),
    (Literal::U64(7), Cause::Scalar),
];

/// Returns the text of a literal behind an equals sign.
fn assigned(alloc: Global, literal: Literal) -> Result<String, WriteError> {
    let mut text = Text::new(alloc);
    text.push("=")?;
    write_literal(&mut text, literal)?;
    Ok(text.finish())
}

/// Returns whether a literal has a text, or `None` if an allocation failed.
pub(super) fn is_written_as(alloc: Global, literal: Literal, expected: &str) -> Option<bool> {
    match assigned(alloc, literal) {
        Ok(text) => Some(text.as_str().strip_prefix("=") == Some(expected)),
        Err(WriteError::Memory) => None,
        Err(WriteError::Inexpressible(_)) => Some(false),
    }
}

/// Returns whether WGSL has no such literal, for this reason.
fn is_inexpressible(alloc: Global, literal: Literal, cause: Cause) -> bool {
    match assigned(alloc, literal) {
        Ok(_) => false,
        Err(error) => error == WriteError::Inexpressible(cause),
    }
}

#[test]
fn literals_are_written(rt: HostRuntime) {
    for (literal, expected) in LITERALS {
        assert!(rt;
            is_written_as(rt.alloc(), *literal, expected) == Some(true),
            "{expected}"
        );
    }
}

#[test]
fn other_literals_are_inexpressible(rt: HostRuntime) {
    for (literal, cause) in OTHERS {
        assert!(rt;
            is_inexpressible(rt.alloc(), *literal, *cause),
            "{literal:?}"
        );
    }
}
