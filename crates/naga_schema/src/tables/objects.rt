//! Objects for which there is no declaration.

use super::leaves::{HANDLE, WORD};
use crate::schema::Field;
use crate::schema::Presence::Required;

/// The fields of a range of expressions.
pub(crate) static RANGE: [Field; 2] = [("start", Required, HANDLE), ("end", Required, WORD)];

/// The fields of an empty map: none.
pub(crate) static EMPTY_MAP: [Field; 0] = [];
