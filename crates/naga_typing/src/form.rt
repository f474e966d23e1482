//! The comparison of types.
ghost use Rattle.std.specs.Prelude.{◌≡◌, ◌↔◌, IsTrue, option_copied, unwrap_or};
ghost use Rattle.naga_ir.specs.Types.{inner_of};
ghost use Rattle.naga_typifier.specs.Context.{inner_at};
ghost use Rattle.naga_typing.specs.Forms.{as_value_pointer, contents, contents_form, declared, declared_form, form, is_structure, value_pointer};
ghost use Rattle.naga_typing.specs.Compared.{form_in};

use naga_arena::{Handle, UniqueArena};
use naga_ir::{AddressSpace, Type, TypeInner};
use naga_typifier::TypeResolution;

/// Returns whether two types are the same type in a module that declares `types`.
///
/// Two declared structures are the same if they have the same handle. A pointer to a declared scalar or vector is the
/// same as a [`ValuePointer`](TypeInner::ValuePointer) to it. Any other declared type is the same as its contents.
pub fn is_same_type(
    types: &UniqueArena<Type>,
    first: &TypeResolution,
    second: &TypeResolution,
) -> bool
    ensures { IsTrue result ↔ (form (inner_at types.now) first.now ≡ form (inner_at types.now) second.now) }
{
    match form_of(types, first) {
        Form::Declared(first) => is_declared(types, first, &form_of(types, second)),
        Form::Contents(first) => is_known_by(types, first, &form_of(types, second)),
    }
}

/// Returns whether a form is that of a declared type with this handle that is known by it.
fn is_declared(types: &UniqueArena<Type>, handle: Handle<Type>, form: &Form<'_>) -> bool
    ensures { IsTrue result ↔ (declared handle ≡ form_in (inner_at types.now) form.now) }
{
    match form {
        Form::Declared(other) => handle.index() == other.index(),
        Form::Contents(_) => false,
    }
}

/// Returns whether a form is that of a type with these contents that is known by them.
fn is_known_by(types: &UniqueArena<Type>, inner: &TypeInner, form: &Form<'_>) -> bool
    ensures { IsTrue result ↔ (contents (inner_of (contents_form (inner_at types.now) inner.now))
        ≡ form_in (inner_at types.now) form.now) }
{
    match form {
        Form::Declared(_) => false,
        Form::Contents(other) => is_same_contents(types, inner, other),
    }
}

/// What a type is known by.
#[derive(Clone, Copy)]
pub(crate) enum Form<'a> {
    /// The handle of a structure, or of a type that is not declared.
    Declared(Handle<Type>),
    /// The contents of any other type.
    Contents(&'a TypeInner),
}

/// Returns what a type is known by.
fn form_of<'a>(types: &'a UniqueArena<Type>, ty: &'a TypeResolution) -> Form<'a>
    ensures { form_in (inner_at types.now) result ≡ form (inner_at types.now) ty.now }
{
    match ty {
        TypeResolution::Handle(handle) => form_of_declared(types, *handle),
        TypeResolution::Value(inner) => Form::Contents(inner),
    }
}

/// Returns what a declared type is known by.
fn form_of_declared(types: &UniqueArena<Type>, handle: Handle<Type>) -> Form<'_>
    ensures { form_in (inner_at types.now) result ≡ declared_form (inner_at types.now) handle (inner_at types.now handle) }
{
    match contents_at(types, handle) {
        Some(inner) => {
            if is_structure(inner) {
                Form::Declared(handle)
            } else {
                Form::Contents(inner)
            }
        }
        None => Form::Declared(handle),
    }
}

/// Returns whether this is a structure.
fn is_structure(inner: &TypeInner) -> bool
    ensures { result ≡ is_structure inner.now }
{
    matches!(inner, TypeInner::Struct { .. })
}

/// Returns whether the contents of two types are those of the same type.
fn is_same_contents(types: &UniqueArena<Type>, first: &TypeInner, second: &TypeInner) -> bool
    ensures { IsTrue result ↔ (inner_of (contents_form (inner_at types.now) first.now)
        ≡ inner_of (contents_form (inner_at types.now) second.now)) }
{
    match (first, second) {
        (TypeInner::Scalar(first), TypeInner::Scalar(second)) => first == second,
        _ => is_same_pointed(types, first, second),
    }
}

/// Returns whether the contents of two types are those of the same type, where a pointer may be written in two ways.
fn is_same_pointed(types: &UniqueArena<Type>, first: &TypeInner, second: &TypeInner) -> bool
    ensures { IsTrue result ↔ (inner_of (contents_form (inner_at types.now) first.now)
        ≡ inner_of (contents_form (inner_at types.now) second.now)) }
{
    let first_pointer = as_value_pointer(types, first);
    let second_pointer = as_value_pointer(types, second);
    is_equal(
        either(&first_pointer, first),
        either(&second_pointer, second),
    )
}

/// Returns whether the contents of two types are equal.
fn is_equal(first: &TypeInner, second: &TypeInner) -> bool
    ensures { IsTrue result ↔ (inner_of first.now ≡ inner_of second.now) }
{
    first == second
}

/// Returns the pointer if there is one, and otherwise the contents of a type.
fn either<'a>(pointer: &'a Option<TypeInner>, inner: &'a TypeInner) -> &'a TypeInner
    ensures { result.now ≡ unwrap_or pointer.now inner.now }
{
    match pointer {
        Some(pointer) => pointer,
        None => inner,
    }
}

/// Returns a pointer to a declared scalar or vector as a pointer to a value, or `None` for any other type.
fn as_value_pointer(types: &UniqueArena<Type>, inner: &TypeInner) -> Option<TypeInner>
    ensures { result ≡ as_value_pointer (inner_at types.now) inner.now }
{
    let TypeInner::Pointer { base, space } = inner else {
        return None;
    };
    match contents_at(types, *base) {
        Some(behind) => value_pointer(*space, behind),
        None => None,
    }
}

/// Returns a pointer to a value with these contents, or `None` unless they are a scalar or a vector.
fn value_pointer(space: AddressSpace, inner: &TypeInner) -> Option<TypeInner>
    ensures { result ≡ value_pointer space inner.now }
{
    match inner {
        TypeInner::Scalar(scalar) => Some(TypeInner::ValuePointer {
            size: None,
            scalar: *scalar,
            space,
        }),
        TypeInner::Vector { size, scalar } => Some(TypeInner::ValuePointer {
            size: Some(*size),
            scalar: *scalar,
            space,
        }),
        _ => None,
    }
}

/// Returns the contents of a declared type, or `None` if there is no type with this handle.
pub(crate) fn contents_at(types: &UniqueArena<Type>, ty: Handle<Type>) -> Option<&TypeInner>
    ensures { option_copied result ≡ inner_at types.now ty }
{
    match types.get_handle(ty) {
        Ok(declared) => Some(&declared.inner),
        Err(_) => None,
    }
}
