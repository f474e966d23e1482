//! The texts of types and of address spaces in WGSL.
use naga_ir::{AddressSpace, ArraySize, Scalar, StorageAccess, VectorSize};
use naga_text::Text;
use naga_wgsl::{
    WriteError, write_array, write_atomic, write_matrix, write_pointer, write_scalar, write_space,
    write_vector,
};
use std::alloc::Global;

/// The texts that [`types`] writes, one after another.
const TYPES: &str =
    "<storage, read>boolvec3<u32>mat4x2<f16>atomic<i32>array<bool>ptr<uniform, bool>";

/// Appends an address space and six types.
fn write_types(text: &mut Text) -> Result<(), WriteError> {
    let access = StorageAccess::LOAD;
    write_space(text, AddressSpace::Storage { access })?;
    write_scalar(text, Scalar::BOOL)?;
    write_vector(text, VectorSize::Tri, Scalar::U32)?;
    write_matrix(text, VectorSize::Quad, VectorSize::Bi, Scalar::F16)?;
    write_atomic(text, Scalar::I32)?;
    write_array(text, "bool", 4, ArraySize::Dynamic, 4)?;
    write_pointer(text, "bool", AddressSpace::Uniform)
}

/// Returns an address space and six types as one text.
fn types(alloc: Global) -> Result<String, WriteError> {
    let mut text = Text::new(alloc);
    write_types(&mut text)?;
    Ok(text.finish())
}

/// Returns whether types have their texts, or `None` if an allocation failed.
pub(super) fn are_written(alloc: Global) -> Option<bool> {
    match types(alloc) {
        Ok(text) => Some(text.as_str() == TYPES),
        Err(WriteError::Memory) => None,
        Err(WriteError::Inexpressible(_)) => Some(false),
    }
}

#[test]
fn types_are_written(rt: HostRuntime) {
    assert!(rt; are_written(rt.alloc()) == Some(true));
}
