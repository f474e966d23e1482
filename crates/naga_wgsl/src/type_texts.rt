//! The texts of the types of a module, by handle.
ghost use Rattle.std.specs.Prelude.{◌≡◌, IfOk, MatchResult, Ok, Err, slice_get};
ghost use Rattle.std.specs.Option.{option_copied};
ghost use Rattle.naga_arena.specs.Arena.{values};
ghost use Rattle.naga_wgsl.specs.TypeTexts.{array_of, contents_text, is_natural, laid_text, name_at, pointer_to, text_at, texts_of, value_text};
ghost use Rattle.naga_wgsl.specs.WriteError.{Attempts, Writes};

use crate::array::{write_pointer, write_sized};
use crate::image::{write_image, write_sampler};
use crate::types::{write_atomic, write_matrix, write_scalar, write_vector};
use crate::write_error::{Cause, WriteError};
use naga_arena::{Handle, UniqueArena};
use naga_ir::{ArraySize, Type, TypeInner};
use naga_kinds::{AddressSpace, Scalar, VectorSize};
use naga_layouter::TypeLayout;
use naga_text::Text;
use std::alloc::{AllocError, Global};
use std::marker::Model;

/// The texts of the types of a module, in the order of their handles, each with the cause in its place if it has none.
///
/// In contracts, it is the list of these.
#[derive(Drop)]
pub struct TypeTexts {
    texts: Vec<Result<Text, Cause>>,
}

impl Model for TypeTexts {
    ghost use Rattle.std.specs.Prelude.{ℕ, List, Result};
    ghost use Rattle.naga_wgsl.specs.declared.write_error.Cause.{Cause as CauseValue};

    ghost Value = { List (Result (List ℕ) CauseValue) };

    ghost view = { λ t. t.texts.items };
}

impl TypeTexts {
    /// Returns the texts of all types of a module, from their layouts and the names of its structures, by handle.
    ///
    /// A structure is its name, and any other type is written by its contents. A type without a text has the cause in its
    /// place, and so has each type that contains it, but for a structure.
    ///
    /// Returns `Err` if allocation fails.
    pub fn new(
        alloc: Global,
        types: &UniqueArena<Type>,
        layouts: &[TypeLayout],
        names: &[String],
    ) -> Result<Self, AllocError>
        ensures { IfOk result (λ texts. texts ≡ texts_of layouts.now names.now (values types.now)) }
    {
        let mut texts = Vec::new(alloc);
        'each: for index in 0..types.len() {
            let inner = &types[Handle::<Type>::at(index)].inner;
            let made = contents_text(alloc, texts.as_slice(), layouts, names, index, inner)?;
            texts.push(made)?;
        }
        Ok(TypeTexts { texts })
    }

    /// Returns the text of a type, or why it has none: `Cause::Order` if the type is not among these.
    pub fn get(&self, handle: Handle<Type>) -> Result<&str, Cause>
        ensures { MatchResult result (λ text. text_at self.now handle ≡ Ok text.now) (λ cause. text_at self.now handle ≡ Err cause) }
    {
        text_at(self.texts.as_slice(), handle.index())
    }
}

/// Appends the type with a handle, as in `array<vec3<f32>, 4>`. A structure is its name.
///
/// Returns `Err` if the type has no text in WGSL, or allocation fails.
pub fn write_type(
    text: &mut Text,
    texts: &TypeTexts,
    handle: Handle<Type>,
) -> Result<(), WriteError>
    ensures { Writes (text_at texts.now handle) text.old text.new result }
{
    match texts.get(handle) {
        Ok(found) => {
            text.push(found)?;
            Ok(())
        }
        Err(cause) => Err(WriteError::Inexpressible(cause)),
    }
}

/// Returns the text of a type, from those of the types before it, or why it has none. Returns `Err` if allocation fails.
fn contents_text(
    alloc: Global,
    known: &[Result<Text, Cause>],
    layouts: &[TypeLayout],
    names: &[String],
    index: usize,
    inner: &TypeInner,
) -> Result<Result<Text, Cause>, AllocError>
    ensures { IfOk result (λ made. made ≡ contents_text known.now layouts.now (name_at names.now index) inner.now) }
{
    let mut text = Text::new(alloc);
    match write_contents(&mut text, known, layouts, names, index, inner) {
        Ok(()) => Ok(Ok(text)),
        Err(WriteError::Inexpressible(cause)) => Ok(Err(cause)),
        Err(WriteError::Memory) => Err(AllocError),
    }
}

/// Appends the contents of a type, from the texts of the types before it. Returns `Err` if WGSL has no such type, or
/// allocation fails.
// One line for each variant.
#[rattlefmt::skip]
#[tactic(auto, using(crate::proofs::AttemptsLemmas::attempts_written))]
fn write_contents(
    text: &mut Text,
    known: &[Result<Text, Cause>],
    layouts: &[TypeLayout],
    names: &[String],
    index: usize,
    inner: &TypeInner,
) -> Result<(), WriteError>
    ensures { Attempts (contents_text known.now layouts.now (name_at names.now index) inner.now) text.old text.new result }
{
    match inner {
        TypeInner::Scalar(scalar) => write_scalar(text, *scalar),
        TypeInner::Vector { size, scalar } => write_vector(text, *size, *scalar),
        TypeInner::Matrix { columns, rows, scalar } => write_matrix(text, *columns, *rows, *scalar),
        TypeInner::CooperativeMatrix { .. } => Err(WriteError::Inexpressible(Cause::CooperativeMatrix)),
        TypeInner::Atomic(scalar) => write_atomic(text, *scalar),
        TypeInner::Pointer { base, space } => write_pointer_to(text, known, *base, *space),
        TypeInner::ValuePointer { size, scalar, space } => write_value_pointer(text, *size, *scalar, *space),
        TypeInner::Array { base, size, stride } => write_array_of(text, known, layouts, *base, *size, *stride),
        TypeInner::Struct { .. } => write_name(text, names, index),
        TypeInner::Image { dim, arrayed, class } => write_image(text, *dim, *arrayed, *class),
        TypeInner::Sampler { comparison } => write_sampler(text, *comparison),
        TypeInner::AccelerationStructure { .. } => Err(WriteError::Inexpressible(Cause::RayTracing)),
        TypeInner::RayQuery { .. } => Err(WriteError::Inexpressible(Cause::RayTracing)),
        TypeInner::BindingArray { .. } => Err(WriteError::Inexpressible(Cause::BindingArray)),
    }
}

/// Returns the text of a type or an expression that comes before another one, by its index, or why there is none.
pub(crate) fn text_at(known: &[Result<Text, Cause>], index: usize) -> Result<&str, Cause>
    ensures { MatchResult result (λ text. text_at known.now index ≡ Ok text.now) (λ cause. text_at known.now index ≡ Err cause) }
{
    match known.get(index) {
        Some(Ok(text)) => Ok(text.as_str()),
        Some(Err(cause)) => Err(*cause),
        None => Err(Cause::Order),
    }
}

/// Appends the name with an index. Returns `Err` if there is none, or allocation fails.
pub(crate) fn write_name(text: &mut Text, names: &[String], index: usize) -> Result<(), WriteError>
    ensures { Writes (name_at names.now index) text.old text.new result }
{
    match names.get(index) {
        Some(name) => {
            text.push(name.as_str())?;
            Ok(())
        }
        None => Err(WriteError::Inexpressible(Cause::Name)),
    }
}

/// Appends the type of a pointer to what a type before it describes. Returns `Err` if WGSL has no such type, or allocation
/// fails.
fn write_pointer_to(
    text: &mut Text,
    known: &[Result<Text, Cause>],
    base: Handle<Type>,
    space: AddressSpace,
) -> Result<(), WriteError>
    ensures { Writes (pointer_to (text_at known.now base) space) text.old text.new result }
{
    match text_at(known, base.index()) {
        Ok(base) => write_pointer(text, base, space),
        Err(cause) => Err(WriteError::Inexpressible(cause)),
    }
}

/// Appends the type of a pointer to a scalar or a vector. Returns `Err` if WGSL has no such type, or allocation fails.
fn write_value_pointer(
    text: &mut Text,
    size: Option<VectorSize>,
    scalar: Scalar,
    space: AddressSpace,
) -> Result<(), WriteError>
    ensures { Attempts (pointer_to (value_text size scalar) space) text.old text.new result }
{
    let mut base = text.fresh();
    match write_value(&mut base, size, scalar) {
        Ok(()) => write_pointer(text, base.as_str(), space),
        Err(error) => Err(error),
    }
}

/// Appends the type of a vector, or of a scalar if there is no size. Returns `Err` if WGSL has no such type, or allocation
/// fails.
fn write_value(text: &mut Text, size: Option<VectorSize>, scalar: Scalar) -> Result<(), WriteError>
    ensures { Writes (value_text size scalar) text.old text.new result }
{
    match size {
        Some(size) => write_vector(text, size, scalar),
        None => write_scalar(text, scalar),
    }
}

/// Appends the type of an array of a type before it. Returns `Err` if WGSL has no such type, or allocation fails.
fn write_array_of(
    text: &mut Text,
    known: &[Result<Text, Cause>],
    layouts: &[TypeLayout],
    base: Handle<Type>,
    size: ArraySize,
    stride: u32,
) -> Result<(), WriteError>
    ensures { Writes (array_of (text_at known.now base) (slice_get layouts.now base) size stride) text.old text.new result }
{
    match text_at(known, base.index()) {
        Ok(element) => write_laid(text, element, layouts.get(base.index()), size, stride),
        Err(cause) => Err(WriteError::Inexpressible(cause)),
    }
}

/// Appends the type of an array whose elements have a text, and perhaps a layout. Returns `Err` if there is no layout, WGSL
/// has no such array, or allocation fails.
fn write_laid(
    text: &mut Text,
    base: &str,
    layout: Option<&TypeLayout>,
    size: ArraySize,
    stride: u32,
) -> Result<(), WriteError>
    ensures { Writes (laid_text base.now (option_copied layout.entry) size stride) text.old text.new result }
{
    match layout {
        Some(layout) if is_natural(*layout, stride) => write_sized(text, base, size),
        Some(_) => Err(WriteError::Inexpressible(Cause::Stride)),
        None => Err(WriteError::Inexpressible(Cause::Layout)),
    }
}

/// Returns whether a stride is the least multiple of the alignment that is not below the size.
fn is_natural(layout: TypeLayout, stride: u32) -> bool
    ensures { result ≡ is_natural layout stride }
{
    layout.alignment.is_aligned(stride)
        && layout.size <= stride
        && stride - layout.size < layout.alignment.get()
}
