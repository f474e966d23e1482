//! The texts of constants, overrides, global variables and global expressions.
ghost use Rattle.std.specs.Prelude.{◌≡◌, ◌++◌, OnOk, codes};
ghost use Rattle.naga_text.specs.Module.{decorations_text, optional_id, optional_place, storage_text};
ghost use Rattle.naga_text.specs.Words.{number};

use crate::derived::address_space::push_address_space;
use crate::element::Element;
use crate::expression::push_expression;
use crate::operands::{push_element, push_references};
use crate::pieces::push_numbered;
use crate::text::Text;
use crate::types::push_declared;
use naga_ir::{
    Constant, Expression, Flags, GlobalVariable, MemoryDecorations, Override, ResourceBinding,
};
use naga_valid::Refers;
use std::alloc::AllocError;

impl Element for Constant {
    ghost use Rattle.naga_text.specs.Module.{constant_line};

    ghost lines = { constant_line };

    fn push(&self, text: &mut Text, index: usize) -> Result<(), AllocError> {
        push_declared(text, "constant", index, &self.name)?;
        push_references(text, self)?;
        text.push("\n")
    }
}

impl Element for Override {
    ghost use Rattle.naga_text.specs.Module.{override_line};

    ghost lines = { override_line };

    fn push(&self, text: &mut Text, index: usize) -> Result<(), AllocError> {
        push_declared(text, "override", index, &self.name)?;
        push_id(text, self.id)?;
        push_references(text, self)?;
        text.push("\n")
    }
}

impl Element for GlobalVariable {
    ghost use Rattle.naga_text.specs.Module.{global_line};

    ghost lines = { global_line };

    fn push(&self, text: &mut Text, index: usize) -> Result<(), AllocError> {
        push_declared(text, "global", index, &self.name)?;
        push_storage(text, self)?;
        push_references(text, self)?;
        text.push("\n")
    }
}

impl Element for Expression {
    ghost use Rattle.naga_text.specs.Module.{global_expression_line};

    ghost lines = { global_expression_line };

    fn push(&self, text: &mut Text, index: usize) -> Result<(), AllocError> {
        push_element(text, "expression [", index, "] = ")?;
        push_expression(text, self)?;
        text.push("\n")
    }
}

/// Appends the number of an override, if it has one.
fn push_id(text: &mut Text, id: Option<u16>) -> Result<(), AllocError>
    ensures { OnOk result (text.new ≡ text.old ++ optional_id id) }
{
    match id {
        Some(id) => push_numbered(text, " id", u32::from(id)),
        None => Ok(()),
    }
}

/// Appends where a variable is.
fn push_storage(text: &mut Text, declared: &GlobalVariable) -> Result<(), AllocError>
    ensures { OnOk result (text.new ≡ text.old ++ storage_text declared.now) }
{
    push_address_space(text, &declared.space)?;
    push_place(text, declared.binding)?;
    push_decorations(text, declared.memory_decorations)
}

/// Appends the place at which a pipeline finds a variable, if there is one.
fn push_place(text: &mut Text, place: Option<ResourceBinding>) -> Result<(), AllocError>
    ensures { OnOk result (text.new ≡ text.old ++ optional_place place) }
{
    match place {
        Some(place) => {
            push_numbered(text, " group", place.group)?;
            push_numbered(text, " binding", place.binding)
        }
        None => Ok(()),
    }
}

/// Appends memory decorations.
fn push_decorations(text: &mut Text, decorations: MemoryDecorations) -> Result<(), AllocError>
    ensures { OnOk result (text.new ≡ text.old ++ decorations_text decorations) }
{
    text.push_flag(
        decorations.contains(MemoryDecorations::COHERENT),
        "coherent",
    )?;
    text.push_flag(
        decorations.contains(MemoryDecorations::VOLATILE),
        "volatile",
    )
}
