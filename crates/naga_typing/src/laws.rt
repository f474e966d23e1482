//! Laws of types, by topic.

pub mod arenas;
pub mod bodies;
pub mod compacting;
pub mod faults;
pub mod modules;
pub mod renaming;
pub mod requirements;
pub mod values;
