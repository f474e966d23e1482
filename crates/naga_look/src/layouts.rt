//! The note and the finding on the layouts of a module.
ghost use Rattle.std.specs.Prelude.{◌≡◌, ◌++◌, ◌∷◌, [], IfOk, IsSomeAnd, MatchOption, OnOk, codes};
ghost use Rattle.naga_text.specs.Escapes.{visible};
ghost use Rattle.naga_typing.specs.Joined.{Adds};
ghost use Rattle.naga_valid.specs.ElementNames.{name_of_place};
ghost use Rattle.naga_valid.specs.declared.place.Place.{Place as ThePlace};
ghost use Rattle.naga_look.specs.Findings.{AreLayoutFindings, layout_finding};
ghost use Rattle.naga_look.specs.Layouts.{HasNoLayoutFault, IsLayoutNote, SaysLayoutFault, SaysOfLayouts, member_text, type_head};

use crate::finding::{Finding, FindingKind, FindingOwner, text_of};
use naga_arena::Handle;
use naga_ir::{Module, Type};
use naga_layouter::{InvalidLayouts, LayoutFault, check_layouts};
use naga_text::Text;
use naga_valid::{Place, check_handles};
use std::alloc::{AllocError, Global};

/// A type whose layout does not fit, and what is said of it.
#[derive(Drop)]
struct SaidOfType {
    ty: Handle<Type>,
    message: Text,
}

/// Appends a note on the first fault of the layouts of a module, as in
/// `note: type 3 "Numbers": member 1: the offset 6 is not a multiple of 4, its alignment`, if there is one.
pub(crate) fn push_layout_note(
    alloc: Global,
    text: &mut Text,
    module: &Module,
) -> Result<(), AllocError>
    ensures { OnOk result (Adds IsLayoutNote «module».now text.old text.new) }
{
    let Some(said) = said_of_layouts(alloc, module)? else {
        return Ok(());
    };
    push_type(text, module, said.ty)?;
    push_message(text, said.message.as_str())
}

/// Appends the finding on the first fault of the layouts of a module, if there is one.
pub(crate) fn push_layouts(
    alloc: Global,
    found: &mut Vec<Finding>,
    module: &Module,
) -> Result<(), AllocError>
    ensures { OnOk result (Adds AreLayoutFindings «module».now found.old.items found.new.items) }
{
    let Some(said) = said_of_layouts(alloc, module)? else {
        return Ok(());
    };
    push_layout(alloc, found, module, said)
}

/// Returns the type of the first fault of the layouts of a module, and what is said of it, or `None` if there is none or
/// a handle is not valid.
fn said_of_layouts(alloc: Global, module: &Module) -> Result<Option<SaidOfType>, AllocError>
    ensures { IfOk result (λ said. MatchOption said (HasNoLayoutFault «module».now)
        (λ said. SaysOfLayouts «module».now said.ty said.message)) }
{
    if check_handles(module).is_err() {
        return Ok(None);
    }
    match check_layouts(alloc, module) {
        Ok(()) => Ok(None),
        Err(InvalidLayouts::Memory) => Err(AllocError),
        Err(InvalidLayouts::Fault(fault)) => said_of(alloc, &fault),
    }
}

/// Returns the type of a fault, and what is said of it.
fn said_of(alloc: Global, fault: &LayoutFault) -> Result<Option<SaidOfType>, AllocError>
    ensures { IfOk result (λ said. IsSomeAnd said (λ said. (fault.now.ty ≡ said.ty) × SaysLayoutFault fault.now said.message)) }
{
    let message = layout_message(alloc, fault)?;
    Ok(Some(SaidOfType {
        ty: fault.ty,
        message,
    }))
}

/// Appends the finding on a type whose layout does not fit.
fn push_layout(
    alloc: Global,
    found: &mut Vec<Finding>,
    module: &Module,
    said: SaidOfType,
) -> Result<(), AllocError>
    ensures { OnOk result (found.new.items
        ≡ found.old.items ++ layout_finding «module».now said.ty said.message ∷ []) }
{
    let SaidOfType { ty, message } = said;
    let name = type_name(alloc, module, ty)?;
    found.push(Finding {
        kind: FindingKind::Layout,
        owner: FindingOwner::Type(ty),
        name,
        path: None,
        expression: None,
        message,
    })?;
    Ok(())
}

/// Returns the name of a type, if it has one.
fn type_name(alloc: Global, module: &Module, ty: Handle<Type>) -> Result<Option<Text>, AllocError>
    ensures { IfOk result (λ copy. copy ≡ name_of_place «module».now (ThePlace.«Type» ty)) }
{
    match Place::Type(ty).name(module) {
        Some(name) => Ok(Some(text_of(alloc, name)?)),
        None => Ok(None),
    }
}

/// Returns what is said of a fault: the member, if one is at fault, and the cause.
fn layout_message(alloc: Global, fault: &LayoutFault) -> Result<Text, AllocError>
    ensures { IfOk result (λ message. SaysLayoutFault fault.now message) }
{
    let cause = format!(in alloc; "{}", fault.cause)?;
    let mut message = Text::new(alloc);
    push_member(&mut message, fault.member)?;
    message.push(cause.as_str())?;
    Ok(message)
}

/// Appends what is said behind the type, and ends the line.
fn push_message(text: &mut Text, message: &str) -> Result<(), AllocError>
    ensures { OnOk result (text.new ≡ text.old ++ (codes ": " ++ (visible message.now ++ codes "\n"))) }
{
    text.push(": ")?;
    text.push_visible(message)?;
    text.push("\n")
}

/// Appends what the note of a type begins with.
fn push_type(text: &mut Text, module: &Module, ty: Handle<Type>) -> Result<(), AllocError>
    ensures { OnOk result (text.new ≡ text.old ++ type_head «module».now ty) }
{
    text.push("note: type")?;
    text.push_index(ty.index())?;
    match Place::Type(ty).name(module) {
        Some(name) => text.push_quoted(name),
        None => Ok(()),
    }
}

/// Appends the index of the member at fault, if one is.
fn push_member(text: &mut Text, member: Option<usize>) -> Result<(), AllocError>
    ensures { OnOk result (text.new ≡ text.old ++ member_text member) }
{
    let Some(member) = member else {
        return Ok(());
    };
    text.push("member")?;
    text.push_index(member)?;
    text.push(": ")
}
