// Made by tests/derive from the declarations of naga_kinds and naga_ir.
//! Names and order of variants.
ghost use Rattle.naga_kinds.specs.derived.Names.{storage_format_name, storage_formats};

use crate::format::StorageFormat;
use crate::plain_kind::PlainKind;

/// The variants of `StorageFormat`, in the order of their declaration.
const STORAGE_FORMATS: &[StorageFormat] = &[
    StorageFormat::R8Unorm,
    StorageFormat::R8Snorm,
    StorageFormat::R8Uint,
    StorageFormat::R8Sint,
    StorageFormat::R16Uint,
    StorageFormat::R16Sint,
    StorageFormat::R16Float,
    StorageFormat::Rg8Unorm,
    StorageFormat::Rg8Snorm,
    StorageFormat::Rg8Uint,
    StorageFormat::Rg8Sint,
    StorageFormat::R32Uint,
    StorageFormat::R32Sint,
    StorageFormat::R32Float,
    StorageFormat::Rg16Uint,
    StorageFormat::Rg16Sint,
    StorageFormat::Rg16Float,
    StorageFormat::Rgba8Unorm,
    StorageFormat::Rgba8Snorm,
    StorageFormat::Rgba8Uint,
    StorageFormat::Rgba8Sint,
    StorageFormat::Bgra8Unorm,
    StorageFormat::Rgb10a2Uint,
    StorageFormat::Rgb10a2Unorm,
    StorageFormat::Rg11b10Ufloat,
    StorageFormat::R64Uint,
    StorageFormat::Rg32Uint,
    StorageFormat::Rg32Sint,
    StorageFormat::Rg32Float,
    StorageFormat::Rgba16Uint,
    StorageFormat::Rgba16Sint,
    StorageFormat::Rgba16Float,
    StorageFormat::Rgba32Uint,
    StorageFormat::Rgba32Sint,
    StorageFormat::Rgba32Float,
    StorageFormat::R16Unorm,
    StorageFormat::R16Snorm,
    StorageFormat::Rg16Unorm,
    StorageFormat::Rg16Snorm,
    StorageFormat::Rgba16Unorm,
    StorageFormat::Rgba16Snorm,
];

impl PlainKind for StorageFormat {
    ghost name_of = { storage_format_name };

    ghost in_order = { storage_formats };

    fn variants<'a>() -> &'a [StorageFormat] {
        STORAGE_FORMATS
    }

    fn name(self) -> &'static str {
        match self {
            StorageFormat::R8Unorm => "R8Unorm",
            StorageFormat::R8Snorm => "R8Snorm",
            StorageFormat::R8Uint => "R8Uint",
            StorageFormat::R8Sint => "R8Sint",
            StorageFormat::R16Uint => "R16Uint",
            StorageFormat::R16Sint => "R16Sint",
            StorageFormat::R16Float => "R16Float",
            StorageFormat::Rg8Unorm => "Rg8Unorm",
            StorageFormat::Rg8Snorm => "Rg8Snorm",
            StorageFormat::Rg8Uint => "Rg8Uint",
            StorageFormat::Rg8Sint => "Rg8Sint",
            StorageFormat::R32Uint => "R32Uint",
            StorageFormat::R32Sint => "R32Sint",
            StorageFormat::R32Float => "R32Float",
            StorageFormat::Rg16Uint => "Rg16Uint",
            StorageFormat::Rg16Sint => "Rg16Sint",
            StorageFormat::Rg16Float => "Rg16Float",
            StorageFormat::Rgba8Unorm => "Rgba8Unorm",
            StorageFormat::Rgba8Snorm => "Rgba8Snorm",
            StorageFormat::Rgba8Uint => "Rgba8Uint",
            StorageFormat::Rgba8Sint => "Rgba8Sint",
            StorageFormat::Bgra8Unorm => "Bgra8Unorm",
            StorageFormat::Rgb10a2Uint => "Rgb10a2Uint",
            StorageFormat::Rgb10a2Unorm => "Rgb10a2Unorm",
            StorageFormat::Rg11b10Ufloat => "Rg11b10Ufloat",
            StorageFormat::R64Uint => "R64Uint",
            StorageFormat::Rg32Uint => "Rg32Uint",
            StorageFormat::Rg32Sint => "Rg32Sint",
            StorageFormat::Rg32Float => "Rg32Float",
            StorageFormat::Rgba16Uint => "Rgba16Uint",
            StorageFormat::Rgba16Sint => "Rgba16Sint",
            StorageFormat::Rgba16Float => "Rgba16Float",
            StorageFormat::Rgba32Uint => "Rgba32Uint",
            StorageFormat::Rgba32Sint => "Rgba32Sint",
            StorageFormat::Rgba32Float => "Rgba32Float",
            StorageFormat::R16Unorm => "R16Unorm",
            StorageFormat::R16Snorm => "R16Snorm",
            StorageFormat::Rg16Unorm => "Rg16Unorm",
            StorageFormat::Rg16Snorm => "Rg16Snorm",
            StorageFormat::Rgba16Unorm => "Rgba16Unorm",
            StorageFormat::Rgba16Snorm => "Rgba16Snorm",
        }
    }
}
