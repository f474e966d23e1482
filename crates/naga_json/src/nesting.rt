//! How deep the JSON of a module is nested.

/// The greatest depth to which lists and objects are nested in a text that is read or written, and blocks in a module.
/// serde_json has the same limit.
///
/// Differs from naga: naga has no such constant.
pub const MAX_NESTING: usize = 127;
