//! The limits on the length of a text and the depth of a block.

/// The greatest number of bytes that a text may have.
pub const LENGTH_LIMIT: usize = 65_536;

/// The greatest depth that a block may have. The outermost block has depth 0.
pub const DEPTH_LIMIT: usize = 100;
