//! Laws of texts, by topic.

pub mod examples;
pub mod inlining;
pub mod literals;
pub mod operators;
pub mod texts;
pub mod types;
