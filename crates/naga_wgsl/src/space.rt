//! The texts of address spaces.
ghost use Rattle.std.specs.Prelude.{◌≡◌, ◌++◌, Ok, codes};
ghost use Rattle.std.specs.Option.{option_copied};
ghost use Rattle.naga_wgsl.specs.Spaces.{access_name, space_text, storage_text};
ghost use Rattle.naga_wgsl.specs.WriteError.{Writes};

use crate::write_error::{Cause, WriteError};
use naga_ir::Flags;
use naga_kinds::{AddressSpace, StorageAccess};
use naga_text::Text;

/// Appends the address space of a variable of a module, as it comes behind `var`: `<private>`, `<workgroup>`,
/// `<uniform>`, `<immediate>`, `<storage, read>` or `<storage, read_write>`, or nothing for a sampler or an image.
///
/// Returns `Err` if WGSL has no such space, or allocation fails. A storage buffer must be one that can be loaded from.
pub fn write_space(text: &mut Text, space: AddressSpace) -> Result<(), WriteError>
    ensures { Writes (space_text space) text.old text.new result }
{
    match space {
        AddressSpace::Private => write_constant(text, "<private>"),
        AddressSpace::WorkGroup => write_constant(text, "<workgroup>"),
        AddressSpace::Uniform => write_constant(text, "<uniform>"),
        AddressSpace::Storage { access } => write_storage(text, access),
        AddressSpace::Handle => write_constant(text, ""),
        AddressSpace::Immediate => write_constant(text, "<immediate>"),
        AddressSpace::Function
        | AddressSpace::TaskPayload
        | AddressSpace::RayPayload
        | AddressSpace::IncomingRayPayload => Err(WriteError::Inexpressible(Cause::AddressSpace)),
    }
}

/// Appends a text. Returns `Err` if allocation fails.
fn write_constant(text: &mut Text, constant: &str) -> Result<(), WriteError>
    ensures { Writes (Ok constant.now) text.old text.new result }
{
    text.push(constant)?;
    Ok(())
}

/// Appends the space of storage buffers with these accesses. Returns `Err` if WGSL has no mode for these, or allocation
/// fails.
fn write_storage(text: &mut Text, access: StorageAccess) -> Result<(), WriteError>
    ensures { Writes (storage_text (access_name access)) text.old text.new result }
{
    match access_name(access) {
        Some(name) => write_mode(text, name),
        None => Err(WriteError::Inexpressible(Cause::Access)),
    }
}

/// Appends the space of storage buffers with a mode. Returns `Err` if allocation fails.
fn write_mode(text: &mut Text, name: &str) -> Result<(), WriteError>
    ensures { Writes (Ok (codes "<storage, " ++ (name.now ++ codes ">"))) text.old text.new result }
{
    text.push("<storage, ")?;
    text.push(name)?;
    text.push(">")?;
    Ok(())
}

/// Returns the mode of the accesses to a buffer, or `None` if WGSL has none.
pub(crate) fn access_name(access: StorageAccess) -> Option<&'static str>
    ensures { option_copied result ≡ access_name access }
{
    if !access.contains(StorageAccess::LOAD) {
        None
    } else if access.contains(StorageAccess::STORE) {
        Some("read_write")
    } else if access.contains(StorageAccess::ATOMIC) {
        None
    } else {
        Some("read")
    }
}
