//! The kinds and the names of the element types of a module's arenas.
//!
//! The kind of an element type is an empty type that represents it in its handles. The type of a handle refers to the
//! kind and not to the element type, so that a type can contain handles to its own values and still be plain data in
//! contracts.
ghost use Rattle.std.specs.Prelude.{codes};

use crate::expression::Expression;
use crate::module::{Constant, Function, GlobalVariable, LocalVariable, Override};
use crate::types::Type;
use naga_arena::KindName;

/// The kind that represents [`Type`] in its handles.
#[derive(Clone, Copy)]
pub enum TypeKind {}

impl KindName for Type {
    type Kind = TypeKind;

    const NAME: &'static str = "Type";

    ghost name = { codes "Type" };

    fn kind_name() -> &'static str {
        Self::NAME
    }
}

/// The kind that represents [`Constant`] in its handles.
#[derive(Clone, Copy)]
pub enum ConstantKind {}

impl KindName for Constant {
    type Kind = ConstantKind;

    const NAME: &'static str = "Constant";

    ghost name = { codes "Constant" };

    fn kind_name() -> &'static str {
        Self::NAME
    }
}

/// The kind that represents [`Override`] in its handles.
#[derive(Clone, Copy)]
pub enum OverrideKind {}

impl KindName for Override {
    type Kind = OverrideKind;

    const NAME: &'static str = "Override";

    ghost name = { codes "Override" };

    fn kind_name() -> &'static str {
        Self::NAME
    }
}

/// The kind that represents [`GlobalVariable`] in its handles.
#[derive(Clone, Copy)]
pub enum GlobalVariableKind {}

impl KindName for GlobalVariable {
    type Kind = GlobalVariableKind;

    const NAME: &'static str = "GlobalVariable";

    ghost name = { codes "GlobalVariable" };

    fn kind_name() -> &'static str {
        Self::NAME
    }
}

/// The kind that represents [`LocalVariable`] in its handles.
#[derive(Clone, Copy)]
pub enum LocalVariableKind {}

impl KindName for LocalVariable {
    type Kind = LocalVariableKind;

    const NAME: &'static str = "LocalVariable";

    ghost name = { codes "LocalVariable" };

    fn kind_name() -> &'static str {
        Self::NAME
    }
}

/// The kind that represents [`Expression`] in its handles.
#[derive(Clone, Copy)]
pub enum ExpressionKind {}

impl KindName for Expression {
    type Kind = ExpressionKind;

    const NAME: &'static str = "Expression";

    ghost name = { codes "Expression" };

    fn kind_name() -> &'static str {
        Self::NAME
    }
}

/// The kind that represents [`Function`] in its handles.
#[derive(Clone, Copy)]
pub enum FunctionKind {}

impl KindName for Function {
    type Kind = FunctionKind;

    const NAME: &'static str = "Function";

    ghost name = { codes "Function" };

    fn kind_name() -> &'static str {
        Self::NAME
    }
}
