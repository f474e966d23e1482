// Made by tests/derive from the declarations of naga_kinds and naga_ir.
//! What naga_ir declares in literal.rt.

use crate::schema::Variant;
use crate::tables::leaves::{
    BOOLEAN, FLOAT_32, FLOAT_64, INTEGER_16, INTEGER_32, INTEGER_64, LONG, SHORT, WORD,
};

/// The variants of `Literal` that hold no value.
pub(crate) static LITERAL_NAMES: [&str; 0] = [];

/// The variants of `Literal` that hold a value.
pub(crate) static LITERAL_VARIANTS: [Variant; 12] = [
    ("F64", FLOAT_64),
    ("F32", FLOAT_32),
    ("F16", SHORT),
    ("U16", SHORT),
    ("I16", INTEGER_16),
    ("U32", WORD),
    ("I32", INTEGER_32),
    ("U64", LONG),
    ("I64", INTEGER_64),
    ("Bool", BOOLEAN),
    ("AbstractInt", INTEGER_64),
    ("AbstractFloat", FLOAT_64),
];
