//! The texts of the types of expressions.
ghost use Rattle.std.specs.Prelude.{◌≡◌, ◌++◌, ◌*◌, IfOk, OnOk, Some, codes, option_copied};
ghost use Rattle.std.specs.Fmt.{decimal};
ghost use Rattle.naga_kinds.specs.Scalar.{components_of};
ghost use Rattle.naga_kinds.specs.derived.Names.{cooperative_role_name};
ghost use Rattle.naga_text.specs.Resolved.{base_text, bracketed, cooperative_contents_text, cooperative_digits, cooperative_size_text, declared_type_text, full_text, matrix_size_text, named_type_text, plain_text, pointer_start, pointer_text, resolved_text, scalar_words, space_words, types_in, unnamed_text, value_text, vector_text};
ghost use Rattle.naga_text.specs.Words.{word};

use crate::text::Text;
use crate::types::push_type_handle;
use naga_arena::{Handle, UniqueArena};
use naga_ir::{
    AddressSpace, Bytes, CooperativeRole, CooperativeSize, Function, Module, Scalar, ScalarKind,
    Type, TypeInner, VectorSize,
};
use naga_kinds::PlainKind;
use naga_typifier::{GrowError, ResolveContext, TypeResolution, Typifier};
use std::alloc::{AllocError, Global};

/// Returns the types of the expressions of a function, up to the first that has no type. Returns `Err` if allocation
/// fails.
pub(crate) fn types_in(
    alloc: Global,
    owner: &Module,
    function: &Function,
) -> Result<Typifier, AllocError>
    ensures { IfOk result (λ types. types ≡ types_in owner.now function.now) }
{
    let ctx = ResolveContext::with_function(owner, function);
    let mut types = Typifier::new(alloc);
    match types.grow(&function.expressions, &ctx) {
        Ok(()) => Ok(types),
        Err(GrowError::NoType { .. }) => Ok(types),
        Err(GrowError::Memory) => Err(AllocError),
    }
}

/// Appends the type of an expression, with a space before it, or a question mark if it has none.
///
/// A named type is its name in quotes. Others are in WGSL's words, or the handle of the type where there are none.
pub(crate) fn push_resolved(
    text: &mut Text,
    types: &UniqueArena<Type>,
    resolved: Option<&TypeResolution>,
) -> Result<(), AllocError>
    ensures { OnOk result (text.new ≡ text.old ++ resolved_text types.now (option_copied resolved.entry)) }
{
    match resolved {
        Some(resolved) => push_resolution(text, types, resolved),
        None => text.push(" ?"),
    }
}

/// Appends the type of an expression.
fn push_resolution(
    text: &mut Text,
    types: &UniqueArena<Type>,
    resolved: &TypeResolution,
) -> Result<(), AllocError>
    ensures { OnOk result (text.new ≡ text.old ++ resolved_text types.now (Some resolved.now)) }
{
    match resolved {
        TypeResolution::Handle(handle) => push_declared_type(text, types, *handle),
        TypeResolution::Value(inner) => push_full(text, types, None, inner),
    }
}

/// Appends a type of the module.
fn push_declared_type(
    text: &mut Text,
    types: &UniqueArena<Type>,
    handle: Handle<Type>,
) -> Result<(), AllocError>
    ensures { OnOk result (text.new ≡ text.old ++ declared_type_text types.now handle) }
{
    match types.get_handle(handle) {
        Ok(declared) => push_named_type(text, types, handle, declared),
        Err(_) => push_type_handle(text, handle),
    }
}

/// Appends a type of the module that has this handle.
fn push_named_type(
    text: &mut Text,
    types: &UniqueArena<Type>,
    handle: Handle<Type>,
    declared: &Type,
) -> Result<(), AllocError>
    ensures { OnOk result (text.new ≡ text.old
        ++ named_type_text declared.now (full_text types.now (Some handle) declared.now.inner)) }
{
    match &declared.name {
        Some(name) => text.push_quoted(name.as_str()),
        None => push_full(text, types, Some(handle), &declared.inner),
    }
}

/// Appends the contents of a type. If there are no words for them, appends the handle.
fn push_full(
    text: &mut Text,
    types: &UniqueArena<Type>,
    handle: Option<Handle<Type>>,
    inner: &TypeInner,
) -> Result<(), AllocError>
    ensures { OnOk result (text.new ≡ text.old ++ full_text types.now handle inner.now) }
{
    match inner {
        TypeInner::Pointer { base, space } => push_pointer(text, types, *base, *space),
        TypeInner::ValuePointer {
            size,
            scalar,
            space,
        } => push_value_pointer(text, *size, *scalar, *space),
        _ => push_plain(text, handle, inner),
    }
}

/// Appends the contents of a type that is no pointer. If there are no words for them, appends the handle.
// One line for each variant.
#[rattlefmt::skip]
fn push_plain(text: &mut Text, handle: Option<Handle<Type>>, inner: &TypeInner) -> Result<(), AllocError>
    ensures { OnOk result (text.new ≡ text.old ++ plain_text handle inner.now) }
{
    match inner {
        TypeInner::Scalar(scalar) => push_scalar_word(text, *scalar),
        TypeInner::Vector { size, scalar } => push_vector(text, *size, *scalar),
        TypeInner::Matrix { columns, rows, scalar } => push_matrix(text, *columns, *rows, *scalar),
        TypeInner::CooperativeMatrix { columns, rows, scalar, role } =>
            push_cooperative_matrix(text, *columns, *rows, *scalar, *role),
        TypeInner::Atomic(scalar) => push_atomic(text, *scalar),
        _ => push_unnamed(text, handle),
    }
}

/// Appends the handle of a type, or a question mark if it has none.
fn push_unnamed(text: &mut Text, handle: Option<Handle<Type>>) -> Result<(), AllocError>
    ensures { OnOk result (text.new ≡ text.old ++ unnamed_text handle) }
{
    match handle {
        Some(handle) => push_type_handle(text, handle),
        None => text.push(" ?"),
    }
}

/// Appends a pointer to a type of the module.
fn push_pointer(
    text: &mut Text,
    types: &UniqueArena<Type>,
    base: Handle<Type>,
    space: AddressSpace,
) -> Result<(), AllocError>
    ensures { OnOk result (text.new ≡ text.old ++ pointer_text space (base_text types.now base)) }
{
    push_space(text, space)?;
    push_base(text, types, base)?;
    text.push(">")
}

/// Appends the beginning of a pointer into an address space.
fn push_space(text: &mut Text, space: AddressSpace) -> Result<(), AllocError>
    ensures { OnOk result (text.new ≡ text.old ++ pointer_start space) }
{
    text.push(" ptr<")?;
    text.push(space_words(space))?;
    text.push(",")
}

/// Returns an address space as WGSL writes it.
fn space_words(space: AddressSpace) -> &'static str
    ensures { result.now ≡ space_words space }
{
    match space {
        AddressSpace::Function => "function",
        AddressSpace::Private => "private",
        AddressSpace::WorkGroup => "workgroup",
        AddressSpace::Uniform => "uniform",
        AddressSpace::Storage { .. } => "storage",
        AddressSpace::Handle => "handle",
        AddressSpace::Immediate => "immediate",
        AddressSpace::TaskPayload => "task_payload",
        AddressSpace::RayPayload => "ray_payload",
        AddressSpace::IncomingRayPayload => "incoming_ray_payload",
    }
}

/// Appends a type of the module to which something points.
fn push_base(
    text: &mut Text,
    types: &UniqueArena<Type>,
    base: Handle<Type>,
) -> Result<(), AllocError>
    ensures { OnOk result (text.new ≡ text.old ++ base_text types.now base) }
{
    match types.get_handle(base) {
        Ok(declared) => push_named_base(text, base, declared),
        Err(_) => push_type_handle(text, base),
    }
}

/// Appends a type of the module that has this handle, and to which something points.
fn push_named_base(text: &mut Text, base: Handle<Type>, declared: &Type) -> Result<(), AllocError>
    ensures { OnOk result (text.new ≡ text.old
        ++ named_type_text declared.now (plain_text (Some base) declared.now.inner)) }
{
    match &declared.name {
        Some(name) => text.push_quoted(name.as_str()),
        None => push_plain(text, Some(base), &declared.inner),
    }
}

/// Appends a pointer to a scalar or a vector.
fn push_value_pointer(
    text: &mut Text,
    size: Option<VectorSize>,
    scalar: Scalar,
    space: AddressSpace,
) -> Result<(), AllocError>
    ensures { OnOk result (text.new ≡ text.old ++ pointer_text space (value_text size scalar)) }
{
    push_space(text, space)?;
    push_value(text, size, scalar)?;
    text.push(">")
}

/// Appends a vector, or a scalar if there is no size.
fn push_value(text: &mut Text, size: Option<VectorSize>, scalar: Scalar) -> Result<(), AllocError>
    ensures { OnOk result (text.new ≡ text.old ++ value_text size scalar) }
{
    match size {
        Some(size) => push_vector(text, size, scalar),
        None => push_scalar_word(text, scalar),
    }
}

/// Appends a vector, with a space before it.
fn push_vector(text: &mut Text, size: VectorSize, scalar: Scalar) -> Result<(), AllocError>
    ensures { OnOk result (text.new ≡ text.old ++ vector_text size scalar) }
{
    text.push(" vec")?;
    push_size(text, size)?;
    push_bracketed(text, scalar)
}

/// Appends the number of components.
fn push_size(text: &mut Text, size: VectorSize) -> Result<(), AllocError>
    ensures { OnOk result (text.new ≡ text.old ++ decimal (components_of size)) }
{
    text.push_number(u64::from(u32::from(size)))
}

/// Appends a matrix.
fn push_matrix(
    text: &mut Text,
    columns: VectorSize,
    rows: VectorSize,
    scalar: Scalar,
) -> Result<(), AllocError>
    ensures { OnOk result (text.new ≡ text.old ++ (matrix_size_text columns rows ++ bracketed (scalar_words scalar))) }
{
    push_matrix_size(text, columns, rows)?;
    push_bracketed(text, scalar)
}

/// Appends the numbers of columns and rows of a matrix.
fn push_matrix_size(
    text: &mut Text,
    columns: VectorSize,
    rows: VectorSize,
) -> Result<(), AllocError>
    ensures { OnOk result (text.new ≡ text.old ++ matrix_size_text columns rows) }
{
    text.push(" mat")?;
    push_size(text, columns)?;
    text.push("x")?;
    push_size(text, rows)
}

/// Appends a cooperative matrix.
fn push_cooperative_matrix(
    text: &mut Text,
    columns: CooperativeSize,
    rows: CooperativeSize,
    scalar: Scalar,
    role: CooperativeRole,
) -> Result<(), AllocError>
    ensures { OnOk result (text.new ≡ text.old
        ++ (cooperative_size_text columns rows ++ cooperative_contents_text scalar role)) }
{
    push_cooperative_size(text, columns, rows)?;
    push_cooperative_contents(text, scalar, role)
}

/// Appends the numbers of columns and rows of a cooperative matrix.
fn push_cooperative_size(
    text: &mut Text,
    columns: CooperativeSize,
    rows: CooperativeSize,
) -> Result<(), AllocError>
    ensures { OnOk result (text.new ≡ text.old ++ cooperative_size_text columns rows) }
{
    text.push(" coop_mat")?;
    text.push(cooperative_digits(columns))?;
    text.push("x")?;
    text.push(cooperative_digits(rows))
}

/// Returns the number of columns or rows of a cooperative matrix.
fn cooperative_digits(size: CooperativeSize) -> &'static str
    ensures { result.now ≡ cooperative_digits size }
{
    match size {
        CooperativeSize::Eight => "8",
        CooperativeSize::Sixteen => "16",
    }
}

/// Appends the scalar and the role of a cooperative matrix, in brackets.
fn push_cooperative_contents(
    text: &mut Text,
    scalar: Scalar,
    role: CooperativeRole,
) -> Result<(), AllocError>
    ensures { OnOk result (text.new ≡ text.old ++ cooperative_contents_text scalar role) }
{
    text.push("<")?;
    push_scalar(text, scalar)?;
    text.push(",")?;
    push_role(text, role)
}

/// Appends the role of a cooperative matrix, and the end of the brackets.
fn push_role(text: &mut Text, role: CooperativeRole) -> Result<(), AllocError>
    ensures { OnOk result (text.new ≡ text.old ++ (word (cooperative_role_name role) ++ codes ">")) }
{
    text.push_word(role.name())?;
    text.push(">")
}

/// Appends an atomic scalar.
fn push_atomic(text: &mut Text, scalar: Scalar) -> Result<(), AllocError>
    ensures { OnOk result (text.new ≡ text.old ++ (codes " atomic" ++ bracketed (scalar_words scalar))) }
{
    text.push(" atomic")?;
    push_bracketed(text, scalar)
}

/// Appends a scalar in brackets.
fn push_bracketed(text: &mut Text, scalar: Scalar) -> Result<(), AllocError>
    ensures { OnOk result (text.new ≡ text.old ++ bracketed (scalar_words scalar)) }
{
    text.push("<")?;
    push_scalar(text, scalar)?;
    text.push(">")
}

/// Appends a scalar, with a space before it.
fn push_scalar_word(text: &mut Text, scalar: Scalar) -> Result<(), AllocError>
    ensures { OnOk result (text.new ≡ text.old ++ word (scalar_words scalar)) }
{
    text.push(" ")?;
    push_scalar(text, scalar)
}

/// Appends a scalar.
fn push_scalar(text: &mut Text, scalar: Scalar) -> Result<(), AllocError>
    ensures { OnOk result (text.new ≡ text.old ++ scalar_words scalar) }
{
    match scalar.kind {
        ScalarKind::Sint => push_sized(text, "i", scalar.width),
        ScalarKind::Uint => push_sized(text, "u", scalar.width),
        ScalarKind::Float => push_sized(text, "f", scalar.width),
        ScalarKind::Bool => text.push("bool"),
        ScalarKind::AbstractInt => text.push("AbstractInt"),
        ScalarKind::AbstractFloat => text.push("AbstractFloat"),
    }
}

/// Appends a letter and the number of bits in some bytes.
fn push_sized(text: &mut Text, letter: &str, width: Bytes) -> Result<(), AllocError>
    ensures { OnOk result (text.new ≡ text.old ++ (letter.now ++ decimal (width * 8))) }
{
    text.push(letter)?;
    text.push_number(u64::from(width) * 8)
}
