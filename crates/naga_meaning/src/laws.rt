//! Laws of meanings, by topic.

pub mod calls;
pub mod closing;
pub mod examples;
pub mod jumps;
pub mod redirecting;
pub mod renaming;
pub mod replacing;
pub mod runs;
pub mod switches;
pub mod things;
pub mod uses;
