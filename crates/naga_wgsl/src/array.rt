//! The texts of types that refer to another type, which has a text already.
ghost use Rattle.std.specs.Prelude.{◌≡◌, ◌++◌, Ok, OnOk, codes};
ghost use Rattle.std.specs.Fmt.{decimal};
ghost use Rattle.naga_wgsl.specs.Arrays.{array_text, pointer_in, pointer_text, sized_text, storage_pointer};
ghost use Rattle.naga_wgsl.specs.Spaces.{access_name};
ghost use Rattle.naga_wgsl.specs.WriteError.{Writes};

use crate::space::access_name;
use crate::write_error::{Cause, WriteError};
use naga_ir::ArraySize;
use naga_kinds::{AddressSpace, StorageAccess};
use naga_text::Text;
use std::alloc::AllocError;

/// Appends the type of an array, as in `array<f32, 4>`, or `array<f32>` for one of as many elements as fit into its buffer.
///
/// The elements have the type whose text is `base`, and `natural` is the stride of an array of these in WGSL: their size,
/// rounded up to a multiple of their alignment.
///
/// Returns `Err` if allocation fails, or the array has another stride, which WGSL cannot express, or a number of elements
/// that an override determines.
pub fn write_array(
    text: &mut Text,
    base: &str,
    natural: u32,
    size: ArraySize,
    stride: u32,
) -> Result<(), WriteError>
    ensures { Writes (array_text base.now natural size stride) text.old text.new result }
{
    if stride == natural {
        write_sized(text, base, size)
    } else {
        Err(WriteError::Inexpressible(Cause::Stride))
    }
}

/// Appends the type of an array with the natural stride. Returns `Err` if an override determines the number of its
/// elements, or allocation fails.
pub(crate) fn write_sized(text: &mut Text, base: &str, size: ArraySize) -> Result<(), WriteError>
    ensures { Writes (sized_text base.now size) text.old text.new result }
{
    match size {
        ArraySize::Constant(count) => write_counted(text, base, count.get()),
        ArraySize::Pending(_) => Err(WriteError::Inexpressible(Cause::OverrideSize)),
        ArraySize::Dynamic => write_dynamic(text, base),
    }
}

/// Appends the type of an array of as many elements as fit. Returns `Err` if allocation fails.
fn write_dynamic(text: &mut Text, base: &str) -> Result<(), WriteError>
    ensures { Writes (Ok (codes "array<" ++ (base.now ++ codes ">"))) text.old text.new result }
{
    text.push("array<")?;
    text.push(base)?;
    text.push(">")?;
    Ok(())
}

/// Appends the type of an array of a number of elements. Returns `Err` if allocation fails.
fn write_counted(text: &mut Text, base: &str, count: u32) -> Result<(), WriteError>
    ensures { Writes (Ok (codes "array<" ++ (base.now ++ (codes ", " ++ (decimal count ++ codes ">"))))) text.old text.new result }
{
    text.push("array<")?;
    text.push(base)?;
    push_count(text, count)?;
    Ok(())
}

/// Appends a number of elements, up to the bracket behind it. Returns `Err` if allocation fails.
fn push_count(text: &mut Text, count: u32) -> Result<(), AllocError>
    ensures { OnOk result (text.new ≡ text.old ++ (codes ", " ++ (decimal count ++ codes ">"))) }
{
    text.push(", ")?;
    text.push_number(u64::from(count))?;
    text.push(">")
}

/// Appends a name, up to the bracket behind it. Returns `Err` if allocation fails.
fn push_last(text: &mut Text, name: &str) -> Result<(), AllocError>
    ensures { OnOk result (text.new ≡ text.old ++ (codes ", " ++ (name.now ++ codes ">"))) }
{
    text.push(", ")?;
    text.push(name)?;
    text.push(">")
}

/// Appends the type of a pointer to a value whose type has a text, as in `ptr<function, f32>`, or
/// `ptr<storage, f32, read>` for a storage buffer.
///
/// Returns `Err` if WGSL has no such pointers, or allocation fails. A storage buffer must be one that can be loaded from.
pub fn write_pointer(text: &mut Text, base: &str, space: AddressSpace) -> Result<(), WriteError>
    ensures { Writes (pointer_text base.now space) text.old text.new result }
{
    match space {
        AddressSpace::Function => write_pointer_in(text, "function", base),
        AddressSpace::Private => write_pointer_in(text, "private", base),
        AddressSpace::WorkGroup => write_pointer_in(text, "workgroup", base),
        AddressSpace::Uniform => write_pointer_in(text, "uniform", base),
        AddressSpace::Storage { access } => write_storage_pointer(text, base, access),
        AddressSpace::Immediate => write_pointer_in(text, "immediate", base),
        AddressSpace::Handle
        | AddressSpace::TaskPayload
        | AddressSpace::RayPayload
        | AddressSpace::IncomingRayPayload => Err(WriteError::Inexpressible(Cause::AddressSpace)),
    }
}

/// Appends the type of a pointer into a space without modes of access. Returns `Err` if allocation fails.
fn write_pointer_in(text: &mut Text, space: &str, base: &str) -> Result<(), WriteError>
    ensures { Writes (pointer_in space.now base.now) text.old text.new result }
{
    text.push("ptr<")?;
    text.push(space)?;
    push_last(text, base)?;
    Ok(())
}

/// Appends the type of a pointer into a storage buffer with these accesses. Returns `Err` if WGSL has no mode for these,
/// or allocation fails.
fn write_storage_pointer(
    text: &mut Text,
    base: &str,
    access: StorageAccess,
) -> Result<(), WriteError>
    ensures { Writes (storage_pointer base.now (access_name access)) text.old text.new result }
{
    match access_name(access) {
        Some(mode) => write_moded_pointer(text, base, mode),
        None => Err(WriteError::Inexpressible(Cause::Access)),
    }
}

/// Appends the type of a pointer into a storage buffer with a mode of access. Returns `Err` if allocation fails.
fn write_moded_pointer(text: &mut Text, base: &str, mode: &str) -> Result<(), WriteError>
    ensures { Writes (Ok (codes "ptr<storage, " ++ (base.now ++ (codes ", " ++ (mode.now ++ codes ">"))))) text.old text.new result }
{
    text.push("ptr<storage, ")?;
    text.push(base)?;
    push_last(text, mode)?;
    Ok(())
}
