// Made by tests/derive from the declarations of naga_kinds and naga_ir.
//! Names and order of variants.
ghost use Rattle.naga_kinds.specs.derived.Names.{interpolation_name, interpolations, sampling_name, samplings};

use crate::binding::{Interpolation, Sampling};
use crate::plain_kind::PlainKind;

/// The variants of `Interpolation`, in the order of their declaration.
const INTERPOLATIONS: &[Interpolation] = &[
    Interpolation::Perspective,
    Interpolation::Linear,
    Interpolation::Flat,
    Interpolation::PerVertex,
];

impl PlainKind for Interpolation {
    ghost name_of = { interpolation_name };

    ghost in_order = { interpolations };

    fn variants<'a>() -> &'a [Interpolation] {
        INTERPOLATIONS
    }

    fn name(self) -> &'static str {
        match self {
            Interpolation::Perspective => "Perspective",
            Interpolation::Linear => "Linear",
            Interpolation::Flat => "Flat",
            Interpolation::PerVertex => "PerVertex",
        }
    }
}

/// The variants of `Sampling`, in the order of their declaration.
const SAMPLINGS: &[Sampling] = &[
    Sampling::Center,
    Sampling::Centroid,
    Sampling::Sample,
    Sampling::First,
    Sampling::Either,
];

impl PlainKind for Sampling {
    ghost name_of = { sampling_name };

    ghost in_order = { samplings };

    fn variants<'a>() -> &'a [Sampling] {
        SAMPLINGS
    }

    fn name(self) -> &'static str {
        match self {
            Sampling::Center => "Center",
            Sampling::Centroid => "Centroid",
            Sampling::Sample => "Sample",
            Sampling::First => "First",
            Sampling::Either => "Either",
        }
    }
}
