//! Laws of building, closing, flattening, runs, the notation and its errors. They hold whichever functions are called.
pub mod building;
pub mod closing;
pub mod flattening;
pub mod notation;
pub mod runs;
