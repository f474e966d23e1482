//! The formats of storage images.

/// The format in which a texel of a storage image is stored.
///
/// The name lists the components in order, the number of bits of each, and their interpretation. `Unorm` is a number
/// from 0 to 1 and `Snorm` a number from -1 to 1, both in equal steps. `Uint` and `Sint` are integers. `Float` and
/// `Ufloat` are floating-point numbers, with and without a sign.
#[derive(Clone, Copy, Debug, PartialEq, Eq, PartialOrd, Ord, Hash)]
pub enum StorageFormat {
    // 8 bits per texel.
    R8Unorm,
    R8Snorm,
    R8Uint,
    R8Sint,

    // 16 bits per texel.
    R16Uint,
    R16Sint,
    R16Float,
    Rg8Unorm,
    Rg8Snorm,
    Rg8Uint,
    Rg8Sint,

    // 32 bits per texel.
    R32Uint,
    R32Sint,
    R32Float,
    Rg16Uint,
    Rg16Sint,
    Rg16Float,
    Rgba8Unorm,
    Rgba8Snorm,
    Rgba8Uint,
    Rgba8Sint,
    Bgra8Unorm,

    // 32 bits per texel, with components of different widths.
    Rgb10a2Uint,
    Rgb10a2Unorm,
    Rg11b10Ufloat,

    // 64 bits per texel.
    R64Uint,
    Rg32Uint,
    Rg32Sint,
    Rg32Float,
    Rgba16Uint,
    Rgba16Sint,
    Rgba16Float,

    // 128 bits per texel.
    Rgba32Uint,
    Rgba32Sint,
    Rgba32Float,

    // 16 bits per component, normalized.
    R16Unorm,
    R16Snorm,
    Rg16Unorm,
    Rg16Snorm,
    Rgba16Unorm,
    Rgba16Snorm,
}
