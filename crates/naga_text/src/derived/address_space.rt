// Made by tests/derive from the declarations of naga_kinds and naga_ir.
//! Appends the texts of the enums of `address_space`.
ghost use Rattle.std.specs.Prelude.{codes, OnOk, ◌++◌, ◌≡◌};
ghost use Rattle.naga_text.specs.Parts.{access_text};
ghost use Rattle.naga_text.specs.derived.AddressSpace.{address_space_text};

use crate::parts::push_access;
use crate::text::Text;
use naga_ir::{AddressSpace, StorageAccess};
use std::alloc::AllocError;

/// Appends an `AddressSpace`, with a space before it.
///
/// Returns `Err` if allocation fails. The text may then end with a part of this.
// One line for each variant.
#[rattlefmt::skip]
pub(crate) fn push_address_space(text: &mut Text, address_space: &AddressSpace) -> Result<(), AllocError>
    ensures { OnOk result (text.new ≡ text.old ++ address_space_text address_space.now) }
{
    match address_space {
        AddressSpace::Function => text.push(" Function"),
        AddressSpace::Private => text.push(" Private"),
        AddressSpace::WorkGroup => text.push(" WorkGroup"),
        AddressSpace::Uniform => text.push(" Uniform"),
        AddressSpace::Storage { access } => push_address_space_storage(text, *access),
        AddressSpace::Handle => text.push(" Handle"),
        AddressSpace::Immediate => text.push(" Immediate"),
        AddressSpace::TaskPayload => text.push(" TaskPayload"),
        AddressSpace::RayPayload => text.push(" RayPayload"),
        AddressSpace::IncomingRayPayload => text.push(" IncomingRayPayload"),
    }
}

/// Appends the text of an `AddressSpace::Storage`.
fn push_address_space_storage(text: &mut Text, access: StorageAccess) -> Result<(), AllocError>
    ensures { OnOk result (text.new ≡ text.old ++ (codes " Storage" ++ access_text access)) }
{
    text.push(" Storage")?;
    push_access(text, access)
}
