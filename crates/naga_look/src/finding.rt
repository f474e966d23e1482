//! The findings on a module, as data.
mod body;
mod declarations;
mod list;
mod to_json;

pub(crate) use list::text_of;
pub use list::{fault_count, findings};
use naga_arena::Handle;
use naga_flow::BodyOwner;
use naga_ir::{Expression, Type};
use naga_text::Text;
use naga_typing::Initialized;
pub use to_json::findings_json;

/// What kind of finding it is.
#[derive(Clone, Copy, Debug, PartialEq, Eq)]
pub enum FindingKind {
    /// A fault.
    Fault,
    /// The layout of a type does not fit. This is no fault, since naga accepts it in some modules.
    Layout,
    /// A function uses an access without an `Emit` of its own. This is no fault.
    Emit,
    /// A return is missing at the end of a block. This is no fault.
    Return,
    /// An access may be out of bounds. This is no fault.
    Access,
}

/// What a finding is in.
#[derive(Clone, Copy, Debug, PartialEq, Eq)]
pub enum FindingOwner {
    /// An element of `global_expressions`.
    GlobalExpression(Handle<Expression>),
    /// A declaration with an initial value.
    Declaration(Initialized),
    /// A type.
    Type(Handle<Type>),
    /// A function or an entry point.
    Body(BodyOwner),
}

/// What a report says of one place of a module.
#[derive(Drop)]
pub struct Finding {
    /// What kind of finding it is.
    pub kind: FindingKind,
    /// What it is in.
    pub owner: FindingOwner,
    /// The name of the function or of the entry point, or `None` if it has no name or the finding is in a declaration.
    pub name: Option<Text>,
    /// The path to the statement or to the block, as in `body[4].accept[1]`, or `None` if the finding is about neither.
    pub path: Option<Text>,
    /// The expression at fault, or the access, or `None` if the finding is about no expression.
    pub expression: Option<Handle<Expression>>,
    /// What is found, without the name and the path.
    pub message: Text,
}
