// Made by tests/derive from the declarations of naga_kinds and naga_ir.
//! Names and order of variants.
ghost use Rattle.naga_kinds.specs.derived.Names.{image_dimension_name, image_dimensions};

use crate::image::ImageDimension;
use crate::plain_kind::PlainKind;

/// The variants of `ImageDimension`, in the order of their declaration.
const IMAGE_DIMENSIONS: &[ImageDimension] = &[
    ImageDimension::D1,
    ImageDimension::D2,
    ImageDimension::D3,
    ImageDimension::Cube,
];

impl PlainKind for ImageDimension {
    ghost name_of = { image_dimension_name };

    ghost in_order = { image_dimensions };

    fn variants<'a>() -> &'a [ImageDimension] {
        IMAGE_DIMENSIONS
    }

    fn name(self) -> &'static str {
        match self {
            ImageDimension::D1 => "D1",
            ImageDimension::D2 => "D2",
            ImageDimension::D3 => "D3",
            ImageDimension::Cube => "Cube",
        }
    }
}
