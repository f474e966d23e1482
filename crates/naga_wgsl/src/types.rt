//! The texts of scalar types, and of types that consist of scalars.
ghost use Rattle.std.specs.Prelude.{◌≡◌, ◌++◌, Ok, codes};
ghost use Rattle.std.specs.Option.{option_copied};
ghost use Rattle.naga_wgsl.specs.Types.{atomic_name, atomic_text, component_name, float_name, integer_name, matrix_text, scalar_name, scalar_text, size_text, vector_text};
ghost use Rattle.naga_wgsl.specs.WriteError.{Writes};

use crate::write_error::{Cause, WriteError};
use naga_kinds::{Bytes, Scalar, ScalarKind, VectorSize};
use naga_text::Text;

/// Appends the name of a scalar type: `bool`, `i32`, `u32`, `f32` or `f16`.
///
/// Returns `Err` if WGSL has no such type, or allocation fails.
pub fn write_scalar(text: &mut Text, scalar: Scalar) -> Result<(), WriteError>
    ensures { Writes (scalar_text scalar) text.old text.new result }
{
    match scalar_name(scalar.kind, scalar.width) {
        Some(name) => {
            text.push(name)?;
            Ok(())
        }
        None => Err(WriteError::Inexpressible(Cause::Scalar)),
    }
}

/// Appends the type of a vector, as in `vec3<f32>`.
///
/// Returns `Err` if WGSL has no such type, or allocation fails.
pub fn write_vector(text: &mut Text, size: VectorSize, scalar: Scalar) -> Result<(), WriteError>
    ensures { Writes (vector_text size scalar) text.old text.new result }
{
    match scalar_name(scalar.kind, scalar.width) {
        Some(name) => {
            text.push("vec")?;
            text.push(size_text(size))?;
            write_bracketed(text, name)
        }
        None => Err(WriteError::Inexpressible(Cause::Scalar)),
    }
}

/// Appends the type of a matrix, as in `mat4x3<f32>` for one of four columns and three rows.
///
/// Returns `Err` if WGSL has no such type, or allocation fails.
pub fn write_matrix(
    text: &mut Text,
    columns: VectorSize,
    rows: VectorSize,
    scalar: Scalar,
) -> Result<(), WriteError>
    ensures { Writes (matrix_text columns rows scalar) text.old text.new result }
{
    match component_name(scalar.kind, scalar.width) {
        Some(name) => {
            text.push("mat")?;
            text.push(size_text(columns))?;
            text.push("x")?;
            text.push(size_text(rows))?;
            write_bracketed(text, name)
        }
        None => Err(WriteError::Inexpressible(Cause::Matrix)),
    }
}

/// Appends the type of an atomic, `atomic<i32>` or `atomic<u32>`.
///
/// Returns `Err` if WGSL has no such type, or allocation fails.
pub fn write_atomic(text: &mut Text, scalar: Scalar) -> Result<(), WriteError>
    ensures { Writes (atomic_text scalar) text.old text.new result }
{
    match atomic_name(scalar.kind, scalar.width) {
        Some(name) => {
            text.push("atomic")?;
            write_bracketed(text, name)
        }
        None => Err(WriteError::Inexpressible(Cause::Atomic)),
    }
}

/// Appends a name in angle brackets. Returns `Err` if allocation fails.
fn write_bracketed(text: &mut Text, name: &str) -> Result<(), WriteError>
    ensures { Writes (Ok (codes "<" ++ (name.now ++ codes ">"))) text.old text.new result }
{
    text.push("<")?;
    text.push(name)?;
    text.push(">")?;
    Ok(())
}

/// Returns a number of components, columns or rows.
fn size_text(size: VectorSize) -> &'static str
    ensures { result.now ≡ size_text size }
{
    match size {
        VectorSize::Bi => "2",
        VectorSize::Tri => "3",
        VectorSize::Quad => "4",
    }
}

/// Returns the name of a scalar type, or `None` if WGSL has none.
fn scalar_name(kind: ScalarKind, width: Bytes) -> Option<&'static str>
    ensures { option_copied result ≡ scalar_name kind width }
{
    match kind {
        ScalarKind::Sint => integer_name(width, "i32"),
        ScalarKind::Uint => integer_name(width, "u32"),
        ScalarKind::Float => float_name(width),
        ScalarKind::Bool => if width == 1 { Some("bool") } else { None },
        ScalarKind::AbstractInt | ScalarKind::AbstractFloat => None,
    }
}

/// Returns the name of a scalar type of which WGSL has matrices, or `None` for any other one.
fn component_name(kind: ScalarKind, width: Bytes) -> Option<&'static str>
    ensures { option_copied result ≡ component_name kind width }
{
    match kind {
        ScalarKind::Float => float_name(width),
        _ => None,
    }
}

/// Returns the name of a scalar type of which WGSL has atomics, or `None` for any other one.
fn atomic_name(kind: ScalarKind, width: Bytes) -> Option<&'static str>
    ensures { option_copied result ≡ atomic_name kind width }
{
    match kind {
        ScalarKind::Sint => integer_name(width, "i32"),
        ScalarKind::Uint => integer_name(width, "u32"),
        _ => None,
    }
}

/// Returns the name of a float type, or `None` if WGSL has none of this width.
fn float_name(width: Bytes) -> Option<&'static str>
    ensures { option_copied result ≡ float_name width }
{
    match width {
        4 => Some("f32"),
        2 => Some("f16"),
        _ => None,
    }
}

/// Returns the name of an integer type of 32 bits, or `None` if the width is another one.
fn integer_name(width: Bytes, name: &'static str) -> Option<&'static str>
    ensures { option_copied result ≡ integer_name width name.now }
{
    if width == 4 { Some(name) } else { None }
}
