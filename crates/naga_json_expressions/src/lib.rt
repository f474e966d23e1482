//! Expressions, which are read from parsed JSON by [`read_expression`], and taken from tokens by [`take_expression`].
//!
//! An expression is read if and only if naga writes it, as `naga_json_read` describes.
//!
//! Only tested: which cause an error has, except for `Memory`; that each expression is taken as naga writes it.
//!
//! Not claimed: that handles are in their arenas; anything of a `None` of [`take_expression`].
#![tactic(auto)]

mod derived;

pub use derived::read::read_expression;
pub use derived::take::take_expression;
