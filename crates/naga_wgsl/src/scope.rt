//! What the texts of expressions refer to.
use crate::type_texts::TypeTexts;
use naga_arena::Handle;
use naga_ir::Type;
use naga_kinds::{Scalar, VectorSize};

/// What the texts of the expressions of a function, or of a module, refer to: texts and names, by handle.
#[derive(Clone, Copy)]
pub struct Scope<'a> {
    /// The texts of the types.
    pub types: &'a TypeTexts,
    /// The names of the members of each type that is a structure.
    pub members: &'a [Vec<String>],
    /// The names of the constants.
    pub constants: &'a [String],
    /// The names of the overrides.
    pub overrides: &'a [String],
    /// The names of the variables of the module.
    pub global_variables: &'a [String],
    /// The texts of the arguments of the function: the name, or `(*name)` for a pointer, which is then a place.
    pub arguments: &'a [String],
    /// The names of the local variables of the function.
    pub local_variables: &'a [String],
}

/// The shape of a value, or of what a pointer points to: as much of its type as the text of an expression depends on.
#[derive(Clone, Copy, Debug, PartialEq, Eq, Drop)]
pub enum Shape {
    /// A scalar.
    Scalar(Scalar),
    /// A vector.
    Vector {
        /// The number of components.
        size: VectorSize,
        /// The type of a component.
        scalar: Scalar,
    },
    /// A matrix.
    Matrix {
        /// The number of columns.
        columns: VectorSize,
        /// The number of rows.
        rows: VectorSize,
        /// The type of a component.
        scalar: Scalar,
    },
    /// An atomic.
    Atomic,
    /// An array, also of resources.
    Array,
    /// The structure with this handle.
    Struct(Handle<Type>),
    /// Something else.
    Other,
}
