//! The declarations of constants, overrides and variables of a module.
ghost use Rattle.std.specs.Prelude.{◌≡◌, ◌++◌, Ok, OnOk, codes};
ghost use Rattle.std.specs.Fmt.{decimal};
ghost use Rattle.naga_wgsl.specs.Declarations.{constant_text, global_variable_text, id_text, initial_text, initialized_text, override_text, resource_text, variable_text};
ghost use Rattle.naga_wgsl.specs.Operations.{between, followed};
ghost use Rattle.naga_wgsl.specs.Structures.{typed_text};
ghost use Rattle.naga_wgsl.specs.TypeTexts.{text_at};
ghost use Rattle.naga_wgsl.specs.WriteError.{Attempts};

use crate::binding::push_closed;
use crate::operation::write_operand;
use crate::space::write_space;
use crate::type_texts::{TypeTexts, write_type};
use crate::write_error::{Cause, WriteError};
use naga_arena::Handle;
use naga_ir::{Constant, Expression, Flags, GlobalVariable, Override, Type};
use naga_kinds::{AddressSpace, ResourceBinding};
use naga_text::Text;
use std::alloc::AllocError;

/// Appends the declaration of a constant with a name, as in `const name: f32 = 0x1p0f;`.
///
/// Returns `Err` if its type or its value has no text, or allocation fails. A part of the text may then have been appended.
pub fn write_constant(
    text: &mut Text,
    types: &TypeTexts,
    known: &[Result<Text, Cause>],
    name: &str,
    declared: &Constant,
) -> Result<(), WriteError>
    ensures { Attempts (constant_text types.now known.now name.now declared.now) text.old text.new result }
{
    text.push("const ")?;
    write_initialized(text, types, known, name, declared.ty, Some(declared.init))?;
    text.push(";\n")?;
    Ok(())
}

/// Appends the declaration of an override with a name, as in `@id(2) override name: u32 = 4u;`.
///
/// Returns `Err` if its type or its initial value has no text, or allocation fails. A part of the text may then have been
/// appended.
pub fn write_override(
    text: &mut Text,
    types: &TypeTexts,
    known: &[Result<Text, Cause>],
    name: &str,
    declared: &Override,
) -> Result<(), WriteError>
    ensures { Attempts (override_text types.now known.now name.now declared.now) text.old text.new result }
{
    push_override(text, declared.id)?;
    write_initialized(text, types, known, name, declared.ty, declared.init)?;
    text.push(";\n")?;
    Ok(())
}

/// Appends the declaration of a variable of a module with a name, as in
/// `@group(0) @binding(1) var<storage, read> name: array<u32>;`.
///
/// Returns `Err` if its type or its initial value has no text, its address space is one in which WGSL has no variables, it
/// has memory decorations, or allocation fails. A part of the text may then have been appended.
pub fn write_global_variable(
    text: &mut Text,
    types: &TypeTexts,
    known: &[Result<Text, Cause>],
    name: &str,
    declared: &GlobalVariable,
) -> Result<(), WriteError>
    ensures { Attempts (global_variable_text types.now known.now name.now declared.now) text.old text.new result }
{
    if declared.memory_decorations.bits() == 0 {
        write_undecorated(text, types, known, name, declared)
    } else {
        Err(WriteError::Inexpressible(Cause::Decorations))
    }
}

/// Appends the declaration of a variable without memory decorations. Returns `Err` if it cannot be written, or allocation
/// fails.
fn write_undecorated(
    text: &mut Text,
    types: &TypeTexts,
    known: &[Result<Text, Cause>],
    name: &str,
    declared: &GlobalVariable,
) -> Result<(), WriteError>
    ensures { Attempts (between (resource_text declared.now.binding)
        (followed (variable_text declared.now.space) (initialized_text types.now known.now name.now declared.now.ty declared.now.init))
        (codes ";\n")) text.old text.new result }
{
    push_resource(text, declared.binding)?;
    write_variable(text, types, known, name, declared)?;
    text.push(";\n")?;
    Ok(())
}

/// Appends a variable, from its address space to its initial value. Returns `Err` if it cannot be written, or allocation
/// fails.
fn write_variable(
    text: &mut Text,
    types: &TypeTexts,
    known: &[Result<Text, Cause>],
    name: &str,
    declared: &GlobalVariable,
) -> Result<(), WriteError>
    ensures { Attempts (followed (variable_text declared.now.space)
        (initialized_text types.now known.now name.now declared.now.ty declared.now.init)) text.old text.new result }
{
    match write_var(text, declared.space) {
        Ok(()) => write_initialized(text, types, known, name, declared.ty, declared.init),
        Err(error) => Err(error),
    }
}

/// Appends `var` and an address space. Returns `Err` if WGSL has no variables there, or allocation fails.
fn write_var(text: &mut Text, space: AddressSpace) -> Result<(), WriteError>
    ensures { Attempts (variable_text space) text.old text.new result }
{
    text.push("var")?;
    write_space(text, space)?;
    text.push(" ")?;
    Ok(())
}

/// Appends a name, its type and its initial value, if there is one. Returns `Err` if the type or the value has no text, or
/// allocation fails.
fn write_initialized(
    text: &mut Text,
    types: &TypeTexts,
    known: &[Result<Text, Cause>],
    name: &str,
    ty: Handle<Type>,
    init: Option<Handle<Expression>>,
) -> Result<(), WriteError>
    ensures { Attempts (initialized_text types.now known.now name.now ty init) text.old text.new result }
{
    match write_named(text, types, name, ty) {
        Ok(()) => write_initial(text, known, init),
        Err(error) => Err(error),
    }
}

/// Appends a name and its type. Returns `Err` if the type has no text, or allocation fails.
fn write_named(
    text: &mut Text,
    types: &TypeTexts,
    name: &str,
    ty: Handle<Type>,
) -> Result<(), WriteError>
    ensures { Attempts (typed_text (Ok name.now) (text_at types.now ty)) text.old text.new result }
{
    text.push(name)?;
    text.push(": ")?;
    write_type(text, types, ty)
}

/// Appends an initial value, if there is one. Returns `Err` if it has no text, or allocation fails.
#[tactic(auto, using(crate::proofs::AttemptsLemmas::attempts_written))]
fn write_initial(
    text: &mut Text,
    known: &[Result<Text, Cause>],
    init: Option<Handle<Expression>>,
) -> Result<(), WriteError>
    ensures { Attempts (initial_text known.now init) text.old text.new result }
{
    match init {
        Some(init) => write_operand(text, known, " = ", init),
        None => Ok(()),
    }
}

/// Appends the number of an override, if it has one, and `override`. Returns `Err` if allocation fails.
fn push_override(text: &mut Text, id: Option<u16>) -> Result<(), AllocError>
    ensures { OnOk result (text.new ≡ text.old ++ (id_text id ++ codes "override ")) }
{
    push_id(text, id)?;
    text.push("override ")
}

/// Appends the number of an override, if it has one. Returns `Err` if allocation fails.
fn push_id(text: &mut Text, id: Option<u16>) -> Result<(), AllocError>
    ensures { OnOk result (text.new ≡ text.old ++ id_text id) }
{
    match id {
        Some(id) => push_attribute(text, "@id(", u32::from(id)),
        None => Ok(()),
    }
}

/// Appends the place of a resource, if it is one. Returns `Err` if allocation fails.
fn push_resource(text: &mut Text, binding: Option<ResourceBinding>) -> Result<(), AllocError>
    ensures { OnOk result (text.new ≡ text.old ++ resource_text binding) }
{
    match binding {
        Some(place) => push_place(text, place.group, place.binding),
        None => Ok(()),
    }
}

/// Appends the place of a resource. Returns `Err` if allocation fails.
fn push_place(text: &mut Text, group: u32, binding: u32) -> Result<(), AllocError>
    ensures { OnOk result (text.new ≡ text.old ++ ((codes "@group(" ++ (decimal group ++ codes ") "))
        ++ (codes "@binding(" ++ (decimal binding ++ codes ") ")))) }
{
    push_attribute(text, "@group(", group)?;
    push_attribute(text, "@binding(", binding)
}

/// Appends an attribute with a number, of which the text before the number is given. Returns `Err` if allocation fails.
fn push_attribute(text: &mut Text, front: &str, number: u32) -> Result<(), AllocError>
    ensures { OnOk result (text.new ≡ text.old ++ (front.now ++ (decimal number ++ codes ") "))) }
{
    text.push(front)?;
    push_closed(text, number)
}
