//! The reasons why a text was not written.
ghost use Rattle.std.specs.Prelude.{◌≡◌};

use std::alloc::AllocError;
use std::fmt;

/// What WGSL cannot express.
#[derive(Clone, Copy, Debug, PartialEq, Eq, Drop)]
pub enum Cause {
    /// A scalar type that is not `bool`, `i32`, `u32`, `f32` or `f16`.
    Scalar,
    /// A literal that is a NaN or an infinity.
    NotFinite,
    /// A matrix whose components are not of type `f32` or `f16`.
    Matrix,
    /// An atomic that is not of type `i32` or `u32`.
    Atomic,
    /// A variable of a module, or a pointer, in an address space in which WGSL has none.
    AddressSpace,
    /// A storage buffer that cannot be loaded from, or that has atomic operations and cannot be stored to.
    Access,
    /// An array whose stride is not the natural one of its elements.
    Stride,
    /// An array the number of whose elements is an override.
    OverrideSize,
    /// A cooperative matrix.
    CooperativeMatrix,
    /// An acceleration structure or a ray query.
    RayTracing,
    /// An array of resources.
    BindingArray,
    /// An image of a dimension, or of a kind of texels, of which WGSL has none in this class.
    Image,
    /// A storage image whose texels have a format that WGSL does not have.
    Format,
    /// A storage image with accesses for which WGSL has no mode.
    ImageAccess,
    /// A reference to a type or an expression that does not come before what refers to it.
    Order,
    /// An array or a structure of a type without a layout.
    Layout,
    /// A declaration without a name.
    Name,
    /// A binding of an input or an output of an entry point that WGSL does not have.
    Binding,
    /// A structure without members.
    Empty,
    /// A structure whose members, or whose end, cannot be at their offsets.
    Offset,
    /// A variable with memory decorations.
    Decorations,
    /// A function that WGSL does not have.
    Function,
    /// A conversion of a value that is neither a scalar, a vector nor a matrix, or of the bits of a matrix.
    Cast,
    /// A part of a value that has no part with this index.
    Part,
    /// The result of a statement, which has only a name.
    Unnamed,
    /// A use of an image: such expressions are not written yet.
    ImageUse,
}

impl Cause {
    ghost use Rattle.naga_wgsl.specs.WriteError.{cause_text};

    /// Returns the message of the cause.
    pub fn as_str(&self) -> &'static str
        ensures { result.now ≡ cause_text self.now }
    {
        match self {
            Cause::Scalar => "WGSL has no scalar of this type",
            Cause::NotFinite => "WGSL has no literal of a NaN or an infinity",
            Cause::Matrix => "WGSL has no matrix of this type",
            Cause::Atomic => "WGSL has no atomic of this type",
            Cause::AddressSpace => "WGSL has no such use of this address space",
            Cause::Access => "WGSL has no such access to a buffer",
            Cause::Stride => "WGSL has no array of this stride",
            Cause::OverrideSize => "the number of elements of an array is an override",
            Cause::CooperativeMatrix => "WGSL has no cooperative matrices",
            Cause::RayTracing => "WGSL has no types for tracing rays",
            Cause::BindingArray => "WGSL has no arrays of resources",
            Cause::Image => "WGSL has no image of this dimension and class",
            Cause::Format => "WGSL has no storage image of this format",
            Cause::ImageAccess => "WGSL has no such access to an image",
            Cause::Order => "a type or an expression refers to one that does not come before it",
            Cause::Layout => "a type has no layout",
            Cause::Name => "a declaration has no name",
            Cause::Binding => "WGSL has no such binding",
            Cause::Empty => "a structure has no members",
            Cause::Offset => "WGSL has no structure with these offsets",
            Cause::Decorations => "WGSL has no memory decorations",
            Cause::Function => "WGSL has no such function",
            Cause::Cast => "WGSL has no such conversion",
            Cause::Part => "an operand has no part with this index",
            Cause::Unnamed => "the result of a statement has no name",
            Cause::ImageUse => "expressions that use images are not written yet",
        }
    }
}

/// The reason why a text was not written.
#[derive(Clone, Copy, Debug, PartialEq, Eq, Drop)]
pub enum WriteError {
    /// An allocation failed.
    Memory,
    /// WGSL cannot express what was to be written.
    Inexpressible(Cause),
}

impl WriteError {
    ghost use Rattle.naga_wgsl.specs.WriteError.{write_error_text};

    /// Returns the message of the error.
    pub fn as_str(&self) -> &'static str
        ensures { result.now ≡ write_error_text self.now }
    {
        match self {
            WriteError::Memory => "out of memory",
            WriteError::Inexpressible(cause) => cause.as_str(),
        }
    }
}

impl fmt::Display for WriteError {
    ghost use Rattle.std.specs.Prelude.{Some};
    ghost use Rattle.naga_wgsl.specs.WriteError.{write_error_text};

    ghost output = { λ error. Some (write_error_text error) };

    fn fmt<W: fmt::Write>(&self, f: &mut fmt::Formatter<W>) -> fmt::Result {
        f.write_str(self.as_str())
    }
}

impl std::error::Error for WriteError {}

impl From<AllocError> for WriteError {
    ghost use Rattle.naga_wgsl.specs.declared.write_error.WriteError.TheVariants.{Memory};

    ghost from_gives = { λ _ error. error ≡ Memory };

    fn from(_error: AllocError) -> Self {
        WriteError::Memory
    }
}
