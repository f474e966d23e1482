//! Questions about a module: the value of a constant, and the size of an array.
ghost use Rattle.std.specs.Prelude.{◌≡◌, Some};
ghost use Rattle.naga_arena.specs.Arena.{value_at};
ghost use Rattle.naga_valid.specs.Contexts.{size_of};
ghost use Rattle.naga_valid.specs.Valid.{HandlesAreValid};

use crate::declarations::Declared;
use crate::source::text;
use anyhow::{Result, bail};
use naga_proc::arena::{with_span, with_span_handle};
use naga_proc::ir::{
    ArraySize, Constant, GlobalVariable, IndexableLength, Module, Override, ResolveArraySizeError,
    Type, TypeInner,
};
use naga_proc::{Arena, Handle, WithSpan};
use naga_valid::check_handles;
use naga_valid::laws::contexts::{
    context_contains_override_of_size, context_is_closed_over_global_expressions,
};
use naga_valid::laws::handles::handles_of_constant_are_in_arenas;
use std::alloc::{AllocError, Global};
use std::error::Error;

/// Shows the value of the constant, and the sizes of the two arrays. All handles of the module are checked once. Laws
/// then give everything that the calls below require.
pub fn ask(rt: &impl Print, alloc: Global, module: &Module, declared: &Declared) -> Result<()> {
    println!(rt; "Questions: a constant's value, and the sizes of the two arrays")?;
    check_handles(module)?;
    show_value(rt, module, declared.scale)?;
    show_length(rt, alloc, module, declared.sums)?;
    show_length(rt, alloc, module, declared.depths)
}

/// Shows the value of a constant. The caller of `get_const_val` must ensure that everything that is looked up is there.
/// In a valid module it is, so nothing is tested here.
fn show_value(rt: &impl Print, module: &Module, handle: Handle<Constant>) -> Result<()>
    requires { HandlesAreValid «module».now }
{
    let constant = module.constants.try_get(handle)?;
    let ctx = module.to_ctx();
    handles_of_constant_are_in_arenas(module, handle, constant);
    context_is_closed_over_global_expressions(module, ctx);
    match ctx.get_const_val::<u32>(constant.init) {
        Ok(value) => println!(rt; "  The value of constant {handle:?} is {value}.")?,
        Err(error) => println!(rt; "  Constant {handle:?} has no value: {error:?}.")?,
    }
    Ok(())
}

/// Shows the size of a global variable that is an array. If it has no size, shows the error and the place in the source
/// that leaves the size open.
fn show_length(
    rt: &impl Print,
    alloc: Global,
    module: &Module,
    variable: Handle<GlobalVariable>,
) -> Result<()>
    requires { HandlesAreValid «module».now }
{
    let handle = module.global_variables.try_get(variable)?.ty;
    let ty = module.types.get_handle(handle)?;
    let TypeInner::Array { size, .. } = &ty.inner else {
        bail!("global variable {variable:?} is not an array");
    };
    match length(module, handle, ty, *size) {
        Ok(length) => show_size(rt, variable, length),
        Err(error) => {
            println!(rt; "  Global variable {variable:?} is an array without a known size.")?;
            show_error(rt, alloc, error, *size, &module.overrides)
        }
    }
}

/// Shows the size of a global variable.
fn show_size(
    rt: &impl Print,
    variable: Handle<GlobalVariable>,
    length: IndexableLength,
) -> Result<()> {
    println!(rt; "  Global variable {variable:?} is an array of size {length:?}.")?;
    Ok(())
}

/// Returns the resolved size of an array type of a valid module.
fn length(
    module: &Module,
    handle: Handle<Type>,
    ty: &Type,
    size: ArraySize,
) -> Result<IndexableLength, ResolveArraySizeError>
    requires valid { HandlesAreValid «module».now }
    requires found { value_at «module».now.types handle ≡ Some ty.now }
    requires size { size_of ty.now.inner ≡ Some size }
{
    let ctx = module.to_ctx();
    context_contains_override_of_size(module, ctx, handle, ty, size);
    context_is_closed_over_global_expressions(module, ctx);
    size.resolve(ctx)
}

/// Shows the error, with the span of the size's override if there is an override.
fn show_error(
    rt: &impl Print,
    alloc: Global,
    error: ResolveArraySizeError,
    size: ArraySize,
    overrides: &Arena<Override>,
) -> Result<()> {
    let ArraySize::Pending(handle) = size else {
        return show_places(rt, &with_span(alloc, error));
    };
    match with_span_handle(alloc, error, handle, overrides) {
        Ok(located) => show_places(rt, &located),
        // If allocation fails, the error is returned without the span.
        Err(_) => Err(AllocError.into()),
    }
}

/// Shows an error, the line where its first span begins, and the text that each span covers.
fn show_places<E: Error>(rt: &impl Print, error: &WithSpan<E>) -> Result<()> {
    println!(rt; "    {error}")?;
    if let Some(place) = error.location(text()) {
        let (line, position) = (place.line_number, place.line_position);
        println!(rt; "    at line {line}, position {position}:")?;
    }
    for (span, told) in error.spans() {
        if let Some(part) = span.slice_of(text()) {
            println!(rt; "      {told}: {part}")?;
        }
    }
    Ok(())
}
