// Made by tests/derive from the declarations of naga_kinds and naga_ir.
//! Appends the texts of the enums of `image`.
ghost use Rattle.std.specs.Prelude.{codes, OnOk, ◌++◌, ◌≡◌};
ghost use Rattle.naga_text.specs.Parts.{access_text};
ghost use Rattle.naga_text.specs.Words.{flag, word};
ghost use Rattle.naga_kinds.specs.derived.Names.{scalar_kind_name, storage_format_name};
ghost use Rattle.naga_text.specs.derived.Image.{image_class_text};

use crate::parts::push_access;
use crate::pieces::{push_flagged, push_kind_name};
use crate::text::Text;
use naga_ir::{ImageClass, ScalarKind, StorageAccess, StorageFormat};
use std::alloc::AllocError;

/// Appends an `ImageClass`, with a space before it.
///
/// Returns `Err` if allocation fails. The text may then end with a part of this.
// One line for each variant.
#[rattlefmt::skip]
pub(crate) fn push_image_class(text: &mut Text, image_class: &ImageClass) -> Result<(), AllocError>
    ensures { OnOk result (text.new ≡ text.old ++ image_class_text image_class.now) }
{
    match image_class {
        ImageClass::Sampled { kind, multi } => push_image_class_sampled(text, *kind, *multi),
        ImageClass::Depth { multi } => push_flagged(text, " Depth", *multi, "multi"),
        ImageClass::External => text.push(" External"),
        ImageClass::Storage { format, access } => push_image_class_storage(text, *format, *access),
    }
}

/// Appends the text of an `ImageClass::Sampled`.
fn push_image_class_sampled(
    text: &mut Text,
    kind: ScalarKind,
    multi: bool,
) -> Result<(), AllocError>
    ensures { OnOk result (text.new ≡ text.old
        ++ (codes " Sampled" ++ (word (scalar_kind_name kind) ++ flag multi (codes "multi")))) }
{
    text.push(" Sampled")?;
    push_kind_name(text, kind)?;
    text.push_flag(multi, "multi")
}

/// Appends the text of an `ImageClass::Storage`.
fn push_image_class_storage(
    text: &mut Text,
    format: StorageFormat,
    access: StorageAccess,
) -> Result<(), AllocError>
    ensures { OnOk result (text.new ≡ text.old
        ++ (codes " Storage" ++ (word (storage_format_name format) ++ access_text access))) }
{
    text.push(" Storage")?;
    push_kind_name(text, format)?;
    push_access(text, access)
}
