//! A workload on vectors that are composed of vectors.
ghost use Rattle.std.specs.Prelude.{◌<◌, length};
ghost use Rattle.naga_proc.specs.Flatten.{CanFlatten};

use crate::fault::Fault;
use crate::item::mixed;
use crate::sample::{Sample, now, since};
use naga_arena::{Arena, Handle, Span, UniqueArena};
use naga_ir::{Expression, Literal, Module, Scalar, Type, TypeInner, VectorSize, chains_precede};
use naga_proc::flatten_compose;
use naga_proc::laws::flattening::preceding_chains_can_be_flattened;
use std::alloc::Global;

/// Times flattening a vector of four components that is composed of a vector and a `Splat`.
pub fn on_flattening(rt: &HostRuntime, size: u32) -> Result<Sample, Fault> {
    let mut types = UniqueArena::<Type>::new(rt.alloc());
    let mut expressions = Arena::<Expression>::new(rt.alloc());
    let ty = insert(&mut types, VectorSize::Quad);
    let components = compose_both(rt.alloc(), &mut types, &mut expressions);
    match (ty, components) {
        (Ok(ty), Ok(components)) => on_vector(rt, size, ty, components, &expressions, &types),
        (Err(fault), _) | (_, Err(fault)) => Err(fault),
    }
}

/// Inserts the type of a vector of numbers.
fn insert(types: &mut UniqueArena<Type>, size: VectorSize) -> Result<Handle<Type>, Fault> {
    let vector = Type {
        name: None,
        inner: TypeInner::Vector {
            size,
            scalar: Scalar::U32,
        },
    };
    Ok(types.insert(vector, Span::UNDEFINED)?)
}

/// Appends a number.
fn number(expressions: &mut Arena<Expression>, value: u32) -> Result<Handle<Expression>, Fault> {
    let literal = Expression::Literal(Literal::U32(value));
    Ok(expressions.append(literal, Span::UNDEFINED)?)
}

/// Appends two numbers, and then a vector of two components that is composed of them.
fn compose(
    alloc: Global,
    expressions: &mut Arena<Expression>,
    ty: Handle<Type>,
) -> Result<Handle<Expression>, Fault> {
    let one = number(expressions, 1)?;
    let two = number(expressions, 2)?;
    let components = Vec::from_slice(alloc, &[one, two])?;
    let composed = Expression::Compose { ty, components };
    Ok(expressions.append(composed, Span::UNDEFINED)?)
}

/// Appends a number, and then a `Splat` that repeats it in two components.
fn splat(expressions: &mut Arena<Expression>) -> Result<Handle<Expression>, Fault> {
    let value = number(expressions, 3)?;
    let splat = Expression::Splat {
        size: VectorSize::Bi,
        value,
    };
    Ok(expressions.append(splat, Span::UNDEFINED)?)
}

/// Appends the two components, each after its operands.
fn compose_both(
    alloc: Global,
    types: &mut UniqueArena<Type>,
    expressions: &mut Arena<Expression>,
) -> Result<[Handle<Expression>; 2], Fault> {
    let pair = insert(types, VectorSize::Bi)?;
    let first = compose(alloc, expressions, pair)?;
    let second = splat(expressions)?;
    Ok([first, second])
}

/// Times flattening two components. The caller of `flatten_compose` must ensure that everything that it looks up is
/// there, so this is tested first.
fn on_vector(
    rt: &HostRuntime,
    size: u32,
    ty: Handle<Type>,
    components: [Handle<Expression>; 2],
    expressions: &Arena<Expression>,
    types: &UniqueArena<Type>,
) -> Result<Sample, Fault> {
    if types.check_contains_handle(ty).is_err()
        || expressions.check_contains_handle(components[0]).is_err()
        || expressions.check_contains_handle(components[1]).is_err()
        || !chains_precede(expressions)
    {
        return Err(Fault::SetUp);
    }
    preceding_chains_can_be_flattened();
    let start = now(rt);
    let sum = flatten_often(size, ty, &components, expressions, types);
    let time = since(rt, start);
    Sample::of(size, Ok(sum), 0, time)
}

/// Flattens the components `size` times, and returns a checksum of the resulting handles.
fn flatten_often(
    size: u32,
    ty: Handle<Type>,
    components: &[Handle<Expression>],
    expressions: &Arena<Expression>,
    types: &UniqueArena<Type>,
) -> u64
    requires declared { ty < length types.now }
    requires within { CanFlatten types.now expressions.now ty components.now }
{
    let mut sum = 0;
    for _ in 0..size {
        for handle in flatten_compose(ty, components, expressions, types) {
            sum = mixed(sum, handle.index() as u64);
        }
    }
    sum
}
