//! The texts of types.
ghost use Rattle.std.specs.Prelude.{◌≡◌, ◌++◌, OnOk, codes, flat_map};
ghost use Rattle.naga_kinds.specs.derived.Names.{cooperative_role_name, cooperative_size_name, image_dimension_name, scalar_kind_name, vector_size_name};
ghost use Rattle.naga_text.specs.Types.{array_size_text, binding_text, inner_text, member_text, optional_binding, optional_blend, optional_interpolation, optional_sampling, optional_size_text, scalar_text, type_text};
ghost use Rattle.naga_text.specs.derived.AddressSpace.{address_space_text};
ghost use Rattle.naga_text.specs.derived.Builtin.{built_in_text};
ghost use Rattle.naga_text.specs.derived.Image.{image_class_text};
ghost use Rattle.naga_text.specs.Words.{flag, name_text, number, word};
ghost use Rattle.naga_valid.specs.ElementNames.{text_of};

use crate::derived::address_space::push_address_space;
use crate::derived::builtin::push_built_in;
use crate::derived::image::push_image_class;
use crate::element::Element;
use crate::operands::push_element;
use crate::pieces::{push_flagged, push_numbered, push_two, push_worded};
use crate::text::Text;
use naga_arena::Handle;
use naga_ir::{
    AddressSpace, ArraySize, Binding, BuiltIn, CooperativeRole, CooperativeSize, Flags, ImageClass,
    ImageDimension, Interpolation, Sampling, Scalar, ScalarKind, StorageAccess, StorageFormat,
    StructMember, Type, TypeInner, VectorSize,
};
use naga_kinds::PlainKind;
use std::alloc::AllocError;

impl Element for Type {
    ghost use Rattle.naga_text.specs.Types.{type_line};

    ghost lines = { type_line };

    fn push(&self, text: &mut Text, index: usize) -> Result<(), AllocError> {
        push_declared(text, "type", index, &self.name)?;
        text.push(" = ")?;
        push_inner(text, &self.inner)?;
        text.push("\n")
    }
}

/// Appends what is declared, its index, and its name in quotes, if it has one.
///
/// Returns `Err` if allocation fails.
pub fn push_declared(
    text: &mut Text,
    what: &str,
    index: usize,
    name: &Option<String>,
) -> Result<(), AllocError>
    ensures { OnOk result (text.new ≡ text.old ++ (what.now ++ (number index ++ name_text (text_of name.now)))) }
{
    text.push(what)?;
    text.push_index(index)?;
    text.push_name(name)
}

/// Appends the contents of a type.
// One line for each variant.
#[rattlefmt::skip]
fn push_inner(text: &mut Text, inner: &TypeInner) -> Result<(), AllocError>
    ensures { OnOk result (text.new ≡ text.old ++ inner_text inner.now) }
{
    match inner {
        TypeInner::Scalar(scalar) => push_named_scalar(text, "Scalar", *scalar),
        TypeInner::Vector { size, scalar } => push_vector(text, *size, *scalar),
        TypeInner::Matrix { columns, rows, scalar } => push_matrix(text, *columns, *rows, *scalar),
        TypeInner::CooperativeMatrix { columns, rows, scalar, role } =>
            push_cooperative_matrix(text, *columns, *rows, *scalar, *role),
        TypeInner::Atomic(scalar) => push_named_scalar(text, "Atomic", *scalar),
        TypeInner::Pointer { base, space } => push_pointer(text, *base, *space),
        TypeInner::ValuePointer { size, scalar, space } => push_value_pointer(text, *size, *scalar, *space),
        TypeInner::Array { base, size, stride } => push_array(text, *base, *size, *stride),
        TypeInner::Struct { members, span } => push_struct(text, members, *span),
        TypeInner::Image { dim, arrayed, class } => push_image(text, *dim, *arrayed, *class),
        TypeInner::Sampler { comparison } => push_flagged(text, "Sampler", *comparison, "comparison"),
        TypeInner::AccelerationStructure { vertex_return } =>
            push_flagged(text, "AccelerationStructure", *vertex_return, "vertex_return"),
        TypeInner::RayQuery { vertex_return } => push_flagged(text, "RayQuery", *vertex_return, "vertex_return"),
        TypeInner::BindingArray { base, size } => push_elements(text, "BindingArray", *base, *size),
    }
}

/// Appends the kind and the width of a scalar.
fn push_scalar(text: &mut Text, scalar: Scalar) -> Result<(), AllocError>
    ensures { OnOk result (text.new ≡ text.old ++ scalar_text scalar) }
{
    text.push_word(scalar.kind.name())?;
    text.push_index(scalar.width as usize)
}

/// Appends a name and a scalar.
fn push_named_scalar(text: &mut Text, name: &str, scalar: Scalar) -> Result<(), AllocError>
    ensures { OnOk result (text.new ≡ text.old ++ (name.now ++ scalar_text scalar)) }
{
    text.push(name)?;
    push_scalar(text, scalar)
}

/// Appends the contents of a vector.
fn push_vector(text: &mut Text, size: VectorSize, scalar: Scalar) -> Result<(), AllocError>
    ensures { OnOk result (text.new ≡ text.old
        ++ (codes "Vector" ++ (word (vector_size_name size) ++ scalar_text scalar))) }
{
    push_worded(text, "Vector", size.name())?;
    push_scalar(text, scalar)
}

/// Appends the contents of a matrix.
fn push_matrix(
    text: &mut Text,
    columns: VectorSize,
    rows: VectorSize,
    scalar: Scalar,
) -> Result<(), AllocError>
    ensures { OnOk result (text.new ≡ text.old ++ (codes "Matrix" ++ (word (vector_size_name columns)
        ++ (word (vector_size_name rows) ++ scalar_text scalar)))) }
{
    text.push("Matrix")?;
    text.push_word(columns.name())?;
    text.push_word(rows.name())?;
    push_scalar(text, scalar)
}

/// Appends the contents of a cooperative matrix.
fn push_cooperative_matrix(
    text: &mut Text,
    columns: CooperativeSize,
    rows: CooperativeSize,
    scalar: Scalar,
    role: CooperativeRole,
) -> Result<(), AllocError>
    ensures { OnOk result (text.new ≡ text.old
        ++ ((codes "CooperativeMatrix" ++ (word (cooperative_size_name columns) ++ word (cooperative_size_name rows)))
        ++ (scalar_text scalar ++ word (cooperative_role_name role)))) }
{
    push_two(text, "CooperativeMatrix", columns.name(), rows.name())?;
    push_scalar(text, scalar)?;
    text.push_word(role.name())
}

/// Appends the handle of a type.
pub(crate) fn push_type_handle(text: &mut Text, handle: Handle<Type>) -> Result<(), AllocError>
    ensures { OnOk result (text.new ≡ text.old ++ type_text handle) }
{
    push_element(text, " type ", handle.index(), "")
}

/// Appends the contents of a pointer.
fn push_pointer(text: &mut Text, base: Handle<Type>, space: AddressSpace) -> Result<(), AllocError>
    ensures { OnOk result (text.new ≡ text.old ++ (codes "Pointer" ++ (address_space_text space ++ type_text base))) }
{
    text.push("Pointer")?;
    push_address_space(text, &space)?;
    push_type_handle(text, base)
}

/// Appends the contents of a pointer to a scalar or a vector.
fn push_value_pointer(
    text: &mut Text,
    size: Option<VectorSize>,
    scalar: Scalar,
    space: AddressSpace,
) -> Result<(), AllocError>
    ensures { OnOk result (text.new ≡ text.old
        ++ (codes "ValuePointer" ++ (address_space_text space ++ (optional_size_text size ++ scalar_text scalar)))) }
{
    text.push("ValuePointer")?;
    push_address_space(text, &space)?;
    push_optional_size(text, size)?;
    push_scalar(text, scalar)
}

/// Appends the size of a vector, if there is one.
fn push_optional_size(text: &mut Text, size: Option<VectorSize>) -> Result<(), AllocError>
    ensures { OnOk result (text.new ≡ text.old ++ optional_size_text size) }
{
    match size {
        Some(size) => text.push_word(size.name()),
        None => Ok(()),
    }
}

/// Appends a name, the number of elements and their type.
fn push_elements(
    text: &mut Text,
    name: &str,
    base: Handle<Type>,
    size: ArraySize,
) -> Result<(), AllocError>
    ensures { OnOk result (text.new ≡ text.old ++ (name.now ++ (array_size_text size ++ type_text base))) }
{
    text.push(name)?;
    push_array_size(text, size)?;
    push_type_handle(text, base)
}

/// Appends the number of elements of an array.
fn push_array_size(text: &mut Text, size: ArraySize) -> Result<(), AllocError>
    ensures { OnOk result (text.new ≡ text.old ++ array_size_text size) }
{
    match size {
        ArraySize::Constant(count) => push_numbered(text, "", count.get()),
        ArraySize::Pending(handle) => push_element(text, " override ", handle.index(), ""),
        ArraySize::Dynamic => text.push(" dynamic"),
    }
}

/// Appends the contents of an array.
fn push_array(
    text: &mut Text,
    base: Handle<Type>,
    size: ArraySize,
    stride: u32,
) -> Result<(), AllocError>
    ensures { OnOk result (text.new ≡ text.old ++ ((codes "Array" ++ (array_size_text size ++ type_text base))
        ++ (codes " stride" ++ number stride))) }
{
    push_elements(text, "Array", base, size)?;
    push_numbered(text, " stride", stride)
}

/// Appends the contents of a structure.
fn push_struct(text: &mut Text, members: &[StructMember], span: u32) -> Result<(), AllocError>
    ensures { OnOk result (text.new ≡ text.old
        ++ (codes "Struct" ++ (number span ++ flat_map member_text members.now))) }
{
    push_numbered(text, "Struct", span)?;
    push_members(text, members)
}

/// Appends the lines of members.
fn push_members(text: &mut Text, members: &[StructMember]) -> Result<(), AllocError>
    ensures { OnOk result (text.new ≡ text.old ++ flat_map member_text members.now) }
{
    for member in members {
        push_member(text, member)?;
    }
    Ok(())
}

/// Appends the line of a member.
fn push_member(text: &mut Text, member: &StructMember) -> Result<(), AllocError>
    ensures { OnOk result (text.new ≡ text.old ++ member_text member.now) }
{
    push_declared(text, "\n    offset", member.offset as usize, &member.name)?;
    push_typed(text, member.ty, &member.binding)
}

/// Appends the handle of a type, and a binding, if there is one.
pub(crate) fn push_typed(
    text: &mut Text,
    ty: Handle<Type>,
    binding: &Option<Binding>,
) -> Result<(), AllocError>
    ensures { OnOk result (text.new ≡ text.old ++ (type_text ty ++ optional_binding binding.now)) }
{
    push_type_handle(text, ty)?;
    push_optional_binding(text, binding)
}

/// Appends a binding, if there is one.
fn push_optional_binding(text: &mut Text, binding: &Option<Binding>) -> Result<(), AllocError>
    ensures { OnOk result (text.new ≡ text.old ++ optional_binding binding.now) }
{
    match binding {
        Some(binding) => push_binding(text, binding),
        None => Ok(()),
    }
}

/// Appends a binding.
fn push_binding(text: &mut Text, binding: &Binding) -> Result<(), AllocError>
    ensures { OnOk result (text.new ≡ text.old ++ binding_text binding.now) }
{
    match binding {
        Binding::BuiltIn(value) => push_named_built_in(text, *value),
        Binding::Location {
            location,
            interpolation,
            sampling,
            blend_src,
            per_primitive,
        } => {
            push_location(text, *location, *interpolation)?;
            push_location_rest(text, *sampling, *blend_src, *per_primitive)
        }
    }
}

/// Appends a binding to a built-in value.
fn push_named_built_in(text: &mut Text, value: BuiltIn) -> Result<(), AllocError>
    ensures { OnOk result (text.new ≡ text.old ++ (codes " builtin" ++ built_in_text value)) }
{
    text.push(" builtin")?;
    push_built_in(text, &value)
}

/// Appends a location and an interpolation.
fn push_location(
    text: &mut Text,
    location: u32,
    interpolation: Option<Interpolation>,
) -> Result<(), AllocError>
    ensures { OnOk result (text.new ≡ text.old
        ++ (codes " location" ++ (number location ++ optional_interpolation interpolation))) }
{
    push_numbered(text, " location", location)?;
    match interpolation {
        Some(kind) => text.push_word(kind.name()),
        None => Ok(()),
    }
}

/// Appends the rest of a binding to a location.
fn push_location_rest(
    text: &mut Text,
    sampling: Option<Sampling>,
    blend_src: Option<u32>,
    per_primitive: bool,
) -> Result<(), AllocError>
    ensures { OnOk result (text.new ≡ text.old ++ (optional_sampling sampling
        ++ (optional_blend blend_src ++ flag per_primitive (codes "per_primitive")))) }
{
    push_sampling(text, sampling)?;
    push_blend(text, blend_src)?;
    text.push_flag(per_primitive, "per_primitive")
}

/// Appends a sampling, if there is one.
fn push_sampling(text: &mut Text, sampling: Option<Sampling>) -> Result<(), AllocError>
    ensures { OnOk result (text.new ≡ text.old ++ optional_sampling sampling) }
{
    match sampling {
        Some(kind) => text.push_word(kind.name()),
        None => Ok(()),
    }
}

/// Appends the index from which a colour is blended, if there is one.
fn push_blend(text: &mut Text, blend_src: Option<u32>) -> Result<(), AllocError>
    ensures { OnOk result (text.new ≡ text.old ++ optional_blend blend_src) }
{
    match blend_src {
        Some(index) => push_numbered(text, " blend_src", index),
        None => Ok(()),
    }
}

/// Appends the contents of an image.
fn push_image(
    text: &mut Text,
    dim: ImageDimension,
    arrayed: bool,
    class: ImageClass,
) -> Result<(), AllocError>
    ensures { OnOk result (text.new ≡ text.old ++ (codes "Image" ++ (word (image_dimension_name dim)
        ++ (flag arrayed (codes "arrayed") ++ image_class_text class)))) }
{
    push_worded(text, "Image", dim.name())?;
    push_arrayed_class(text, arrayed, class)
}

/// Appends whether an image has array layers, and its class.
fn push_arrayed_class(text: &mut Text, arrayed: bool, class: ImageClass) -> Result<(), AllocError>
    ensures { OnOk result (text.new ≡ text.old ++ (flag arrayed (codes "arrayed") ++ image_class_text class)) }
{
    text.push_flag(arrayed, "arrayed")?;
    push_image_class(text, &class)
}
