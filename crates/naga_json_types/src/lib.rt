//! Types, and what a module declares beside its functions: constants, overrides, variables, special types and diagnostic
//! filters. All are read from parsed JSON, and [`take_types_field`] takes the types of a module from tokens.
//!
//! A value is read if and only if naga writes it, as `naga_json_read` describes.
//!
//! Only tested: which cause an error has, except for `RepeatedType` and `Memory`; that types are taken as naga writes them.
//!
//! Not claimed: that handles are in their arenas; anything of a `None` of [`take_types_field`].
#![tactic(auto)]

mod arenas;
mod derived;
mod diagnostic_filter;
mod members;
mod special_types;
mod taken;
mod types;

pub use arenas::{arena_items, read_types};
pub use derived::module::{
    read_constant, read_function_argument, read_global_variable, read_local_variable, read_override,
};
pub use derived::types::{read_struct_member, read_type_inner};
pub use diagnostic_filter::{read_filter, read_filter_node, read_rule};
pub use special_types::read_special_types;
pub use taken::take_types_field;
pub use types::read_type;
