//! A module of the shader IR as readable text.
//!
//! An expression is written as its handle, its type, the name of its variant, its fields that are not handles, and what
//! it refers to, as in `[6]: u32 = Binary Add [2] [5]`. A body is written as lines, with those of inner blocks further to
//! the right.
//!
//! Names are escaped: each character of a name shows, and none starts a line, moves the cursor of a terminal or turns the
//! direction of the text.
#![tactic(auto)]

mod body;
mod counterpart;
mod declarations;
mod derived;
mod element;
mod escape;
mod expression;
mod function;
mod ignorable;
pub mod laws;
mod literal;
mod module;
mod operands;
mod parts;
mod pieces;
mod resolved;
mod statement;
mod text;
mod types;

pub use body::push_case_name;
pub use counterpart::{inner_at, is_inserted};
pub use derived::expression::push_kind;
pub use derived::statement::push_action;
pub use escape::{MAX_CHARACTER_LEN, escaped_character};
pub use expression::push_expression;
pub use function::{body_before, entry_body_before, push_entry_point_name, push_found_name};
pub use module::{module_text, module_text_compared};
pub use operands::push_references;
pub use statement::push_statement;
pub use text::Text;
pub use types::push_declared;
