//! The declarations of structures.
ghost use Rattle.std.specs.Prelude.{◌≡◌, ◌+◌, ◌<◌, ◌≤◌, ◌++◌, OnOk, Some, codes, length, slice_get};
ghost use Rattle.std.specs.Option.{option_copied, option_map};
ghost use Rattle.naga_arena.specs.Arena.{value_at};
ghost use Rattle.naga_wgsl.specs.Operations.{followed, items_text};
ghost use Rattle.naga_wgsl.specs.Structures.{after_of, gap_text, is_dynamic, laid_gap_text, member_gap_text, member_line, member_text, members_text, next_of, size_attribute, struct_text, typed_text};
ghost use Rattle.naga_wgsl.specs.Bindings.{binding_text};
ghost use Rattle.naga_wgsl.specs.TypeTexts.{name_at, text_at};
ghost use Rattle.naga_wgsl.specs.WriteError.{Attempts, Writes};

use crate::binding::{push_closed, write_binding};
use crate::type_texts::{TypeTexts, write_name, write_type};
use crate::write_error::{Cause, WriteError};
use naga_arena::{Handle, UniqueArena};
use naga_ir::{ArraySize, StructMember, Type, TypeInner};
use naga_layouter::{Alignment, TypeLayout};
use naga_text::Text;
use std::alloc::AllocError;

/// What is known about the types of a module when structures are declared.
#[derive(Clone, Copy)]
pub struct KnownTypes<'a> {
    /// The types.
    pub types: &'a UniqueArena<Type>,
    /// Their layouts.
    pub layouts: &'a [TypeLayout],
    /// Their texts.
    pub texts: &'a TypeTexts,
}

/// Appends the declaration of a structure with a handle and a name, whose members have names.
///
/// A member gets the attributes of its binding, and the attribute `@size` if the next member is at a greater offset than
/// WGSL would choose.
///
/// Returns `Err` if a type has no text or no layout, a member has no name or a binding that WGSL does not have, the members
/// cannot be at their offsets or there are none, or allocation fails. A part of the text may then have been appended.
pub fn write_struct(
    text: &mut Text,
    known: &KnownTypes<'_>,
    name: &str,
    names: &[String],
    handle: Handle<Type>,
    members: &[StructMember],
    span: u32,
) -> Result<(), WriteError>
    ensures { Attempts (struct_text known.now.types.now known.now.layouts.now known.now.texts.now name.now
        names.now handle span members.now)
        text.old text.new result }
{
    push_opening(text, name)?;
    write_members(text, known, names, handle, members, span)?;
    text.push("}\n")?;
    Ok(())
}

/// Appends the beginning of a structure. Returns `Err` if allocation fails.
fn push_opening(text: &mut Text, name: &str) -> Result<(), AllocError>
    ensures { OnOk result (text.new ≡ text.old ++ (codes "struct " ++ (name.now ++ codes " {\n"))) }
{
    text.push("struct ")?;
    text.push(name)?;
    text.push(" {\n")
}

/// Appends the lines of members, of which there must be at least one. Returns `Err` if there is none, the first has another
/// offset than 0, a member cannot be written, or allocation fails.
fn write_members(
    text: &mut Text,
    known: &KnownTypes<'_>,
    names: &[String],
    handle: Handle<Type>,
    members: &[StructMember],
    span: u32,
) -> Result<(), WriteError>
    ensures { Attempts (members_text known.now.types.now known.now.layouts.now known.now.texts.now names.now handle
        span members.now)
        text.old text.new result }
{
    match members.first() {
        None => Err(WriteError::Inexpressible(Cause::Empty)),
        Some(first) if first.offset == 0 => {
            write_lines(text, known, names, handle, members, span)
        }
        Some(_) => Err(WriteError::Inexpressible(Cause::Offset)),
    }
}

/// Appends the lines of members. Returns `Err` if a member cannot be written, or allocation fails.
fn write_lines(
    text: &mut Text,
    known: &KnownTypes<'_>,
    names: &[String],
    handle: Handle<Type>,
    members: &[StructMember],
    span: u32,
) -> Result<(), WriteError>
    ensures { Attempts (items_text (member_line known.now.types.now known.now.layouts.now known.now.texts.now
        names.now handle span members.now)
        0 members.now) text.old text.new result }
{
    'each: for (index, member) in members.iter().enumerate() {
        match write_line(text, known, names, handle, members, span, index, member) {
            Ok(()) => {}
            Err(error) => return Err(error),
        }
    }
    Ok(())
}

/// Appends the line of a member. Returns `Err` if it cannot be written, or allocation fails.
fn write_line(
    text: &mut Text,
    known: &KnownTypes<'_>,
    names: &[String],
    handle: Handle<Type>,
    members: &[StructMember],
    span: u32,
    index: usize,
    member: &StructMember,
) -> Result<(), WriteError>
    requires { index < length members.now }
    ensures { Attempts (member_line known.now.types.now known.now.layouts.now known.now.texts.now names.now handle
        span members.now index member.now)
        text.old text.new result }
{
    text.push("    ")?;
    let next = member_after(members, index);
    match write_member(text, known, names, handle, span, index, member, next) {
        Ok(()) => {
            text.push(",\n")?;
            Ok(())
        }
        Err(error) => Err(error),
    }
}

/// Returns the member behind the one with an index, if there is one. The caller must ensure that there is one with the index.
fn member_after(members: &[StructMember], index: usize) -> Option<&StructMember>
    requires { index < length members.now }
    ensures { option_copied result ≡ slice_get members.now (index + 1) }
{
    members.get(index + 1)
}

/// Appends a member: its attributes, its name and its type. Returns `Err` if it cannot be written, or allocation fails.
fn write_member(
    text: &mut Text,
    known: &KnownTypes<'_>,
    names: &[String],
    handle: Handle<Type>,
    span: u32,
    index: usize,
    member: &StructMember,
    next: Option<&StructMember>,
) -> Result<(), WriteError>
    ensures { Attempts (member_text known.now.types.now known.now.layouts.now known.now.texts.now names.now handle
        span index member.now
        (option_copied next.entry)) text.old text.new result }
{
    match write_attributes(text, known, handle, span, member, next) {
        Ok(()) => write_typed(text, known.texts, names, index, member.ty),
        Err(error) => Err(error),
    }
}

/// Appends the attributes of a member. Returns `Err` if it has a binding that WGSL does not have, what comes next cannot be
/// at its offset, or allocation fails.
fn write_attributes(
    text: &mut Text,
    known: &KnownTypes<'_>,
    handle: Handle<Type>,
    span: u32,
    member: &StructMember,
    next: Option<&StructMember>,
) -> Result<(), WriteError>
    ensures { Attempts (followed (binding_text member.now.binding)
        (member_gap_text known.now.types.now known.now.layouts.now handle span member.now (option_copied
        next.entry))) text.old text.new result }
{
    match write_binding(text, &member.binding) {
        Ok(()) => write_member_gap(text, known, handle, span, member, next),
        Err(error) => Err(error),
    }
}

/// Appends a name and a type. Returns `Err` if one is missing, or allocation fails.
fn write_typed(
    text: &mut Text,
    texts: &TypeTexts,
    names: &[String],
    index: usize,
    ty: Handle<Type>,
) -> Result<(), WriteError>
    ensures { Attempts (typed_text (name_at names.now index) (text_at texts.now ty)) text.old text.new result }
{
    write_name(text, names, index)?;
    text.push(": ")?;
    write_type(text, texts, ty)
}

/// Appends the size of a member, if it has to be written. Returns `Err` if what comes next cannot be at its offset, a layout
/// is not known, or allocation fails.
fn write_member_gap(
    text: &mut Text,
    known: &KnownTypes<'_>,
    handle: Handle<Type>,
    span: u32,
    member: &StructMember,
    next: Option<&StructMember>,
) -> Result<(), WriteError>
    ensures { Writes (member_gap_text known.now.types.now known.now.layouts.now handle span member.now
        (option_copied next.entry))
        text.old text.new result }
{
    let is_dynamic = is_dynamic(known.types, member.ty);
    let own = known.layouts.get(member.ty.index());
    match next {
        Some(next) => write_laid_gap(
            text,
            is_dynamic,
            own,
            known.layouts.get(next.ty.index()),
            member.offset,
            next.offset,
        ),
        None => write_laid_gap(
            text,
            is_dynamic,
            own,
            known.layouts.get(handle.index()),
            member.offset,
            span,
        ),
    }
}

/// Returns whether a type is an array of as many elements as fit.
fn is_dynamic(types: &UniqueArena<Type>, handle: Handle<Type>) -> bool
    ensures { result ≡ is_dynamic (option_map (λ type. type.inner) (value_at types.now handle)) }
{
    match types.get_handle(handle) {
        Ok(ty) => is_dynamic_array(&ty.inner),
        Err(_) => false,
    }
}

/// Returns whether the contents of a type are an array of as many elements as fit.
fn is_dynamic_array(inner: &TypeInner) -> bool
    ensures { result ≡ is_dynamic (Some inner.now) }
{
    match inner {
        TypeInner::Array {
            size: ArraySize::Dynamic,
            ..
        } => true,
        _ => false,
    }
}

/// Appends the size of a member, if it has to be written, where the layouts of it and of what comes next may be known.
/// Returns `Err` if one is not known, what comes next cannot be at its offset, or allocation fails.
fn write_laid_gap(
    text: &mut Text,
    is_dynamic: bool,
    own: Option<&TypeLayout>,
    after: Option<&TypeLayout>,
    offset: u32,
    next: u32,
) -> Result<(), WriteError>
    ensures { Writes (laid_gap_text is_dynamic (option_copied own.entry) (option_copied after.entry) offset next)
        text.old text.new result }
{
    match (own, after) {
        (Some(own), Some(after)) => {
            write_gap(text, is_dynamic, own.size, offset, after.alignment, next)
        }
        _ => Err(WriteError::Inexpressible(Cause::Layout)),
    }
}

/// Appends the size of a member, if it has to be written. Returns `Err` if what comes next cannot be at its offset, or
/// allocation fails.
fn write_gap(
    text: &mut Text,
    is_dynamic: bool,
    size: u32,
    offset: u32,
    alignment: Alignment,
    next: u32,
) -> Result<(), WriteError>
    ensures { Writes (gap_text is_dynamic size offset alignment next) text.old text.new result }
{
    if alignment.is_aligned(next) && offset <= next && size <= next - offset {
        write_size(text, is_dynamic, next - offset, size, alignment)
    } else {
        Err(WriteError::Inexpressible(Cause::Offset))
    }
}

/// Appends the attribute for the size of a member that has some room, if it is needed. Returns `Err` if it cannot be
/// written, or allocation fails. The room must be at least the size.
fn write_size(
    text: &mut Text,
    is_dynamic: bool,
    room: u32,
    size: u32,
    alignment: Alignment,
) -> Result<(), WriteError>
    requires { size ≤ room }
    ensures { Writes (size_attribute is_dynamic room size alignment) text.old text.new result }
{
    if room - size < alignment.get() {
        return Ok(());
    }
    if is_dynamic {
        return Err(WriteError::Inexpressible(Cause::Offset));
    }
    text.push("@size(")?;
    push_closed(text, room)?;
    Ok(())
}
