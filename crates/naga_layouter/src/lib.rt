//! The layouts of types, and the check that the parts of values lie where they may.
//!
//! A [`Layouter`] has the size and the alignment of each type of a module. [`check_layouts`] tests that the offsets of
//! members, the strides of arrays and the sizes of structures fit them.
//!
//! Proved: a layouter has the layouts that `specs/Layout.antt` defines, up to the first type that has none, and its error
//! names that type. The check finds the first fault that `specs/Check.antt` defines. If it finds none, then different
//! leaves of a value, such as scalars in it, share no byte, and each lies inside the value. Accesses by indices that are
//! below the lengths of naga_bounds reach only bytes of what they point into. Only tested: the texts of errors and of
//! faults.
//!
//! Not claimed: that a type is valid in other respects. Members that the checks of layouts accept can have any types.
#![tactic(auto)]

mod alignment;
mod check;
mod faults;
pub mod laws;
mod layout_error;
mod layout_fault;
mod layouter;
mod size;
mod spaces;
mod types;

pub use alignment::Alignment;
pub use check::check_layouts;
pub use layout_error::{LayoutError, LayoutErrorInner};
pub use layout_fault::{InvalidLayouts, LayoutCause, LayoutFault};
pub use layouter::{Layouter, TypeLayout};
pub use size::{MAX_TYPE_SIZE, sizes_are_known, try_size};
