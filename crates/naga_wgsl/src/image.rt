//! The texts of the types of images and samplers.
ghost use Rattle.std.specs.Prelude.{◌≡◌, ◌++◌, Ok, OnOk, codes, if◌then◌else◌};
ghost use Rattle.std.specs.Option.{option_copied};
ghost use Rattle.naga_wgsl.specs.Images.{depth_name, external_name, format_name, image_access_name, image_text, multisampled_depth_name, multisampled_name, sampled_name, sampled_text, sampler_text, storage_image_text, storage_name, texel_name};
ghost use Rattle.naga_wgsl.specs.Types.{name_or};
ghost use Rattle.naga_wgsl.specs.WriteError.{Writes};
ghost use Rattle.naga_wgsl.specs.declared.write_error.Cause.TheVariants.{Image};

use crate::write_error::{Cause, WriteError};
use naga_ir::Flags;
use naga_kinds::{ImageClass, ImageDimension, ScalarKind, StorageAccess, StorageFormat};
use naga_text::Text;
use std::alloc::AllocError;

/// Appends the type of an image, as in `texture_2d<f32>` or `texture_storage_2d<rgba8unorm, write>`.
///
/// Returns `Err` if WGSL has no such type, or allocation fails.
pub fn write_image(
    text: &mut Text,
    dim: ImageDimension,
    arrayed: bool,
    class: ImageClass,
) -> Result<(), WriteError>
    ensures { Writes (image_text dim arrayed class) text.old text.new result }
{
    match class {
        ImageClass::Sampled { kind, multi } => {
            write_sampled(
                text,
                any_sampled_name(dim, arrayed, multi),
                texel_name(kind),
            )
        }
        ImageClass::Depth { multi } => write_named(text, any_depth_name(dim, arrayed, multi)),
        ImageClass::External => write_named(text, external_name(dim, arrayed)),
        ImageClass::Storage { format, access } => {
            write_storage_image(text, storage_name(dim, arrayed), format, access)
        }
    }
}

/// Appends the type of a sampler, `sampler` or `sampler_comparison`. Returns `Err` if allocation fails.
pub fn write_sampler(text: &mut Text, comparison: bool) -> Result<(), WriteError>
    ensures { Writes (Ok (sampler_text comparison)) text.old text.new result }
{
    text.push(if comparison {
        "sampler_comparison"
    } else {
        "sampler"
    })?;
    Ok(())
}

/// Appends the name of an image. Returns `Err` if there is none, or allocation fails.
fn write_named(text: &mut Text, name: Option<&'static str>) -> Result<(), WriteError>
    ensures { Writes (name_or Image (option_copied name.entry)) text.old text.new result }
{
    match name {
        Some(name) => {
            text.push(name)?;
            Ok(())
        }
        None => Err(WriteError::Inexpressible(Cause::Image)),
    }
}

/// Appends the type of an image with the type of a component of its texels. Returns `Err` if one of the names is missing,
/// or allocation fails.
fn write_sampled(
    text: &mut Text,
    name: Option<&'static str>,
    texel: Option<&'static str>,
) -> Result<(), WriteError>
    ensures { Writes (sampled_text (option_copied name.entry) (option_copied texel.entry)) text.old text.new result }
{
    match (name, texel) {
        (Some(name), Some(texel)) => {
            text.push(name)?;
            text.push("<")?;
            text.push(texel)?;
            text.push(">")?;
            Ok(())
        }
        _ => Err(WriteError::Inexpressible(Cause::Image)),
    }
}

/// Appends the type of a storage image of which the name is given. Returns `Err` if the name is missing, WGSL has no such
/// format or no mode for these accesses, or allocation fails.
fn write_storage_image(
    text: &mut Text,
    name: Option<&'static str>,
    format: StorageFormat,
    access: StorageAccess,
) -> Result<(), WriteError>
    ensures { Writes (storage_image_text (option_copied name.entry) (format_name format) (image_access_name access))
        text.old text.new result }
{
    let Some(name) = name else {
        return Err(WriteError::Inexpressible(Cause::Image));
    };
    let Some(format) = format_name(format) else {
        return Err(WriteError::Inexpressible(Cause::Format));
    };
    match image_access_name(access) {
        Some(access) => {
            push_storage_image(text, name, format, access)?;
            Ok(())
        }
        None => Err(WriteError::Inexpressible(Cause::ImageAccess)),
    }
}

/// Appends a name with a format and a mode in angle brackets. Returns `Err` if allocation fails.
fn push_storage_image(
    text: &mut Text,
    name: &str,
    format: &str,
    access: &str,
) -> Result<(), AllocError>
    ensures { OnOk result (text.new ≡ text.old ++ (name.now ++ (codes "<" ++ (format.now ++ (codes ", " ++
        (access.now ++ codes ">")))))) }
{
    text.push(name)?;
    text.push("<")?;
    text.push(format)?;
    text.push(", ")?;
    text.push(access)?;
    text.push(">")
}

/// Returns the name of a sampled image, multisampled or not, or `None` if WGSL has none.
fn any_sampled_name(dim: ImageDimension, arrayed: bool, multi: bool) -> Option<&'static str>
    ensures { option_copied result ≡ (if multi then multisampled_name dim arrayed else sampled_name dim arrayed) }
{
    if multi {
        multisampled_name(dim, arrayed)
    } else {
        sampled_name(dim, arrayed)
    }
}

/// Returns the name of a sampled image that is not multisampled, or `None` if WGSL has none.
fn sampled_name(dim: ImageDimension, arrayed: bool) -> Option<&'static str>
    ensures { option_copied result ≡ sampled_name dim arrayed }
{
    match (dim, arrayed) {
        (ImageDimension::D1, false) => Some("texture_1d"),
        (ImageDimension::D2, false) => Some("texture_2d"),
        (ImageDimension::D2, true) => Some("texture_2d_array"),
        (ImageDimension::D3, false) => Some("texture_3d"),
        (ImageDimension::Cube, false) => Some("texture_cube"),
        (ImageDimension::Cube, true) => Some("texture_cube_array"),
        _ => None,
    }
}

/// Returns the name of a multisampled image, or `None` if WGSL has none.
fn multisampled_name(dim: ImageDimension, arrayed: bool) -> Option<&'static str>
    ensures { option_copied result ≡ multisampled_name dim arrayed }
{
    match (dim, arrayed) {
        (ImageDimension::D2, false) => Some("texture_multisampled_2d"),
        _ => None,
    }
}

/// Returns the name of a depth image, multisampled or not, or `None` if WGSL has none.
fn any_depth_name(dim: ImageDimension, arrayed: bool, multi: bool) -> Option<&'static str>
    ensures { option_copied result ≡ (if multi then multisampled_depth_name dim arrayed else depth_name dim arrayed) }
{
    if multi {
        multisampled_depth_name(dim, arrayed)
    } else {
        depth_name(dim, arrayed)
    }
}

/// Returns the name of a depth image that is not multisampled, or `None` if WGSL has none.
fn depth_name(dim: ImageDimension, arrayed: bool) -> Option<&'static str>
    ensures { option_copied result ≡ depth_name dim arrayed }
{
    match (dim, arrayed) {
        (ImageDimension::D2, false) => Some("texture_depth_2d"),
        (ImageDimension::D2, true) => Some("texture_depth_2d_array"),
        (ImageDimension::Cube, false) => Some("texture_depth_cube"),
        (ImageDimension::Cube, true) => Some("texture_depth_cube_array"),
        _ => None,
    }
}

/// Returns the name of a multisampled depth image, or `None` if WGSL has none.
fn multisampled_depth_name(dim: ImageDimension, arrayed: bool) -> Option<&'static str>
    ensures { option_copied result ≡ multisampled_depth_name dim arrayed }
{
    match (dim, arrayed) {
        (ImageDimension::D2, false) => Some("texture_depth_multisampled_2d"),
        _ => None,
    }
}

/// Returns the name of an external image, or `None` if WGSL has none.
fn external_name(dim: ImageDimension, arrayed: bool) -> Option<&'static str>
    ensures { option_copied result ≡ external_name dim arrayed }
{
    match (dim, arrayed) {
        (ImageDimension::D2, false) => Some("texture_external"),
        _ => None,
    }
}

/// Returns the name of a storage image, or `None` if WGSL has none.
fn storage_name(dim: ImageDimension, arrayed: bool) -> Option<&'static str>
    ensures { option_copied result ≡ storage_name dim arrayed }
{
    match (dim, arrayed) {
        (ImageDimension::D1, false) => Some("texture_storage_1d"),
        (ImageDimension::D2, false) => Some("texture_storage_2d"),
        (ImageDimension::D2, true) => Some("texture_storage_2d_array"),
        (ImageDimension::D3, false) => Some("texture_storage_3d"),
        _ => None,
    }
}

/// Returns the type of a component of a texel that is sampled, or `None` if WGSL has none.
fn texel_name(kind: ScalarKind) -> Option<&'static str>
    ensures { option_copied result ≡ texel_name kind }
{
    match kind {
        ScalarKind::Sint => Some("i32"),
        ScalarKind::Uint => Some("u32"),
        ScalarKind::Float => Some("f32"),
        _ => None,
    }
}

/// Returns the name of a format of texels, or `None` if WGSL has none.
fn format_name(format: StorageFormat) -> Option<&'static str>
    ensures { option_copied result ≡ format_name format }
{
    match format {
        StorageFormat::R32Uint => Some("r32uint"),
        StorageFormat::R32Sint => Some("r32sint"),
        StorageFormat::R32Float => Some("r32float"),
        StorageFormat::Rgba8Unorm => Some("rgba8unorm"),
        StorageFormat::Rgba8Snorm => Some("rgba8snorm"),
        StorageFormat::Rgba8Uint => Some("rgba8uint"),
        StorageFormat::Rgba8Sint => Some("rgba8sint"),
        StorageFormat::Bgra8Unorm => Some("bgra8unorm"),
        StorageFormat::Rg32Uint => Some("rg32uint"),
        StorageFormat::Rg32Sint => Some("rg32sint"),
        StorageFormat::Rg32Float => Some("rg32float"),
        StorageFormat::Rgba16Uint => Some("rgba16uint"),
        StorageFormat::Rgba16Sint => Some("rgba16sint"),
        StorageFormat::Rgba16Float => Some("rgba16float"),
        StorageFormat::Rgba32Uint => Some("rgba32uint"),
        StorageFormat::Rgba32Sint => Some("rgba32sint"),
        StorageFormat::Rgba32Float => Some("rgba32float"),
        _ => None,
    }
}

/// Returns the mode of the accesses to a storage image, or `None` if WGSL has none.
fn image_access_name(access: StorageAccess) -> Option<&'static str>
    ensures { option_copied result ≡ image_access_name access }
{
    match access.bits() {
        1 => Some("read"),
        2 => Some("write"),
        3 => Some("read_write"),
        _ => None,
    }
}
