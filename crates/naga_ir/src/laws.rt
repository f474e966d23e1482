//! Laws that hold for all blocks, types, literals and arenas, whichever functions made them.
pub mod equality;
pub mod literals;
pub mod pointers;
pub mod trees;
