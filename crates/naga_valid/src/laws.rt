//! Laws of valid modules (`HandlesAreValid`). Most ensure a precondition of another call of this layer, for a part of a
//! valid module.
pub mod chains;
pub mod contexts;
pub mod dependencies;
pub mod faults;
pub mod filters;
pub mod functions;
pub mod handles;
pub mod meshes;
