//! How many parts there are.
ghost use Rattle.std.specs.Prelude.{◌≡◌};
ghost use Rattle.std.specs.Option.{option_map};
ghost use Rattle.naga_kinds.specs.Scalar.{components_of};
ghost use Rattle.naga_typifier.specs.Context.{inner_at};
ghost use Rattle.naga_bounds.specs.Reach.{length_behind, length_of, length_of_size, length_reached};

use naga_arena::{Handle, UniqueArena};
use naga_ir::{ArraySize, Override, Type, TypeInner, VectorSize};
use naga_typifier::TypeInnerMethods;

/// The number of parts: components of a vector, columns of a matrix, elements of an array or members of a structure.
#[derive(Clone, Copy)]
pub(crate) enum Length {
    /// A number that the type determines.
    Fixed(usize),
    /// The value of an override.
    Overridden(Handle<Override>),
    /// As many elements as fit into the buffer.
    Counted,
}

/// Returns the number of elements of a value.
fn length_of_size(size: ArraySize) -> Option<Length>
    ensures { result ≡ length_of_size size }
{
    match size {
        ArraySize::Constant(count) => Some(Length::Fixed(count.get() as usize)),
        ArraySize::Pending(handle) => Some(Length::Overridden(handle)),
        ArraySize::Dynamic => None,
    }
}

/// Returns the number of parts of a value.
fn length_of(inner: &TypeInner) -> Option<Length>
    ensures { result ≡ length_of inner.now }
{
    match inner {
        TypeInner::Array { size, .. } | TypeInner::BindingArray { size, .. } => length_of_size(
            *size,
        ),
        _ => match inner.components() {
            Some(count) => Some(Length::Fixed(count)),
            None => None,
        },
    }
}

/// Returns the number of parts of what a pointer points to.
fn length_behind(inner: &TypeInner) -> Option<Length>
    ensures { result ≡ length_behind inner.now }
{
    match inner {
        TypeInner::Array {
            size: ArraySize::Dynamic,
            ..
        } => Some(Length::Counted),
        _ => length_of(inner),
    }
}

/// Returns the number of components behind a pointer to a vector, or `None` for a pointer to a scalar.
fn length_of_vector(size: Option<VectorSize>) -> Option<Length>
    ensures { result ≡ option_map (λ some. Length.Fixed (components_of some)) size }
{
    match size {
        Some(size) => Some(Length::Fixed(usize::from(u8::from(size)))),
        None => None,
    }
}

/// Returns the number of parts of a value, or of what it points to if it is a pointer.
pub(crate) fn length_reached(types: &UniqueArena<Type>, inner: &TypeInner) -> Option<Length>
    ensures { result ≡ length_reached (inner_at types.now) inner.now }
{
    match inner {
        TypeInner::Pointer { base, .. } => match types.get_handle(*base) {
            Ok(declared) => length_behind(&declared.inner),
            Err(_) => None,
        },
        TypeInner::ValuePointer { size, .. } => length_of_vector(*size),
        _ => length_of(inner),
    }
}
