//! Image dimensions and image classes.
ghost use Rattle.std.specs.Prelude.{◌≡◌, ◌↔◌, IsTrue, Some, true, false};
ghost use Rattle.naga_kinds.specs.Image.{multi_of, is_depth};

use crate::flags::StorageAccess;
use crate::format::StorageFormat;
use crate::scalar::ScalarKind;

/// The number of dimensions of an image.
#[derive(Clone, Copy, Debug, PartialEq, Eq, PartialOrd, Ord, Hash)]
pub enum ImageDimension {
    /// One dimension.
    D1,
    /// Two dimensions.
    D2,
    /// Three dimensions.
    D3,
    /// A cube of six two-dimensional faces.
    Cube,
}

/// The class of an image, which determines how its texels are used.
#[derive(Clone, Copy, Debug, PartialEq, Eq, PartialOrd, Ord, Hash)]
pub enum ImageClass {
    /// An image whose texels are sampled or loaded.
    Sampled {
        /// The kind of a texel's components.
        kind: ScalarKind,
        /// `true` if each texel has several samples. Such an image has no mipmaps.
        multi: bool,
    },
    /// An image whose texels are depths, which are sampled, loaded or compared.
    Depth {
        /// `true` if each texel has several samples. Such an image has no mipmaps.
        multi: bool,
    },
    /// An image from an external source, such as a video frame.
    External,
    /// An image whose texels are loaded and stored directly.
    Storage {
        /// The format in which a texel is stored.
        format: StorageFormat,
        /// The accesses that the shader may make to the image.
        access: StorageAccess,
    },
}

impl ImageClass {
    /// Returns whether each texel has several samples.
    pub fn is_multisampled(self) -> bool
        ensures { IsTrue result ↔ (multi_of self ≡ Some true) }
    {
        match self {
            ImageClass::Sampled { multi, .. } | ImageClass::Depth { multi } => multi,
            ImageClass::External | ImageClass::Storage { .. } => false,
        }
    }

    /// Returns whether the image may have mipmaps.
    ///
    /// Multisampled images, storage images and external images have none.
    pub fn is_mipmapped(self) -> bool
        ensures { IsTrue result ↔ (multi_of self ≡ Some false) }
    {
        match self {
            ImageClass::Sampled { multi, .. } | ImageClass::Depth { multi } => !multi,
            ImageClass::External | ImageClass::Storage { .. } => false,
        }
    }

    /// Returns whether the texels are depths.
    pub fn is_depth(self) -> bool
        ensures { result ≡ is_depth self }
    {
        matches!(self, ImageClass::Depth { .. })
    }
}
