//! The bindings of the inputs and outputs of entry points, and of resources.
ghost use Rattle.std.specs.Prelude.{◌≡◌};
ghost use Rattle.naga_kinds.specs.BuiltIn.{built_in_of};

use crate::builtin::BuiltIn;

/// The way in which a fragment's value is computed from the values at the vertices of its primitive.
#[derive(Clone, Copy, Debug, PartialEq, Eq, PartialOrd, Ord, Hash)]
pub enum Interpolation {
    /// Interpolation with correction for perspective.
    Perspective,
    /// Linear interpolation on the screen, without correction for perspective.
    Linear,
    /// No interpolation.
    Flat,
    /// No interpolation: the fragment gets an array with the value at each vertex.
    PerVertex,
}

/// The position at which a value is interpolated, or the vertex from which it is taken.
#[derive(Clone, Copy, Debug, PartialEq, Eq, PartialOrd, Ord, Hash)]
pub enum Sampling {
    /// The centre of the pixel.
    Center,
    /// A position that the primitive covers, which is the same for all samples of the fragment.
    Centroid,
    /// The position of each sample. The shader runs once for each of them.
    Sample,
    /// The first vertex of the primitive.
    First,
    /// The first or the last vertex of the primitive, as the implementation chooses.
    Either,
}

/// The binding of an argument or a result of an entry point, or of a member of one.
#[derive(Clone, Debug, PartialEq, Eq, Hash, Drop)]
pub enum Binding {
    /// A built-in value, which the pipeline provides or receives.
    BuiltIn(BuiltIn),
    /// A value that is passed from one stage to the next at a numbered location.
    Location {
        /// The number of the location. No two outputs of a stage have the same number, except the two sources of a
        /// blend, which differ in `blend_src`.
        location: u32,
        /// The interpolation of the value for a fragment. A front end chooses one for each value that is passed from a
        /// vertex shader to a fragment shader, and `Flat` for all values except floats. It is ignored elsewhere.
        interpolation: Option<Interpolation>,
        /// The position or the vertex at which the value is sampled.
        sampling: Option<Sampling>,
        /// The index of the source, if the value is one of the two sources of a blend.
        blend_src: Option<u32>,
        /// `true` if a mesh shader writes the value for each primitive instead of each vertex.
        per_primitive: bool,
    },
}

impl Binding {
    /// Returns the built-in value that is bound, or `None` if the binding is a location.
    pub fn to_built_in(&self) -> Option<BuiltIn>
        ensures { result ≡ built_in_of self.now }
    {
        match self {
            Binding::BuiltIn(built_in) => Some(*built_in),
            Binding::Location { .. } => None,
        }
    }
}

/// The binding at which a pipeline finds the resource of a global variable.
#[derive(Clone, Copy, Debug, PartialEq, Eq)]
pub struct ResourceBinding {
    /// The number of the bind group.
    pub group: u32,

    /// The number of the binding within the group.
    pub binding: u32,
}
