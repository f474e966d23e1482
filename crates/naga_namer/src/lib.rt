//! Names for what a module declares, as identifiers of a language: a port of naga's `proc::Namer`.
//!
//! A [`Namer`] makes an identifier of each label, which may be any text. Within a scope the names differ, none is a
//! word that the language reserves, and a label that can be kept is kept: [`laws`]. [`Namer::reset`] names all that a
//! module declares, by [`NameKey`].
//!
//! Only tested: that the words of [`WGSL`] are those of its specification.
#![tactic(auto)]

mod base;
mod language;
pub mod laws;
mod name_key;
mod namer;
mod reserved;
mod reset;
mod wgsl;
mod words;

pub use name_key::NameKey;
pub use namer::Namer;
pub use reserved::ReservedNames;
pub use wgsl::WGSL;
