//! Laws that hold for all spans, handles and arenas, whichever functions made them.
pub mod appends;
pub mod clones;
pub mod fetches;
pub mod handles;
pub mod joins;
pub mod locations;
pub mod retains;
pub mod unique_arenas;
