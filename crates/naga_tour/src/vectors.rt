//! A vector that is composed of vectors, and its individual components.
use anyhow::{Result, ensure};
use naga_proc::ir::{Expression, Literal, Scalar, Type, TypeInner, VectorSize, chains_precede};
use naga_proc::laws::flattening::preceding_chains_can_be_flattened;
use naga_proc::{Arena, Handle, Span, UniqueArena, flatten_compose};
use std::alloc::Global;

/// Composes a vector of a vector and a `Splat`, and shows its individual components.
pub fn flatten(rt: &impl Print, alloc: Global) -> Result<()> {
    let mut types = UniqueArena::<Type>::new(alloc);
    let mut expressions = Arena::<Expression>::new(alloc);
    flatten_in(rt, alloc, &mut types, &mut expressions)
}

/// Does this in two empty arenas.
fn flatten_in(
    rt: &impl Print,
    alloc: Global,
    types: &mut UniqueArena<Type>,
    expressions: &mut Arena<Expression>,
) -> Result<()> {
    let ty = types.insert(vector(VectorSize::Quad), Span::UNDEFINED)?;
    let pair = types.insert(vector(VectorSize::Bi), Span::UNDEFINED)?;
    let components = compose(alloc, expressions, pair)?;
    println!(rt;
        "Vectors: vec4(vec2(1, 2), vec2(3)) is composed of {components:?}, which flatten to"
    )?;
    show_flattened(rt, ty, components, expressions, types)
}

/// Returns the type of a vector of numbers.
fn vector(size: VectorSize) -> Type {
    Type {
        name: None,
        inner: TypeInner::Vector {
            size,
            scalar: Scalar::U32,
        },
    }
}

/// Appends the two components, each after its operands.
fn compose(
    alloc: Global,
    expressions: &mut Arena<Expression>,
    pair: Handle<Type>,
) -> Result<[Handle<Expression>; 2]> {
    let one = number(expressions, 1)?;
    let two = number(expressions, 2)?;
    let three = number(expressions, 3)?;
    let components = Vec::from_slice(alloc, &[one, two])?;
    let composed = Expression::Compose {
        ty: pair,
        components,
    };
    let first = expressions.append(composed, Span::UNDEFINED)?;
    let splat = Expression::Splat {
        size: VectorSize::Bi,
        value: three,
    };
    let second = expressions.append(splat, Span::UNDEFINED)?;
    Ok([first, second])
}

/// Appends a number.
fn number(expressions: &mut Arena<Expression>, value: u32) -> Result<Handle<Expression>> {
    let literal = Expression::Literal(Literal::U32(value));
    let handle = expressions.append(literal, Span::UNDEFINED)?;
    Ok(handle)
}

/// Shows the flattened components. The caller of `flatten_compose` must ensure that everything that it looks up is
/// there, which follows by a law from two tests.
fn show_flattened(
    rt: &impl Print,
    ty: Handle<Type>,
    components: [Handle<Expression>; 2],
    expressions: &Arena<Expression>,
    types: &UniqueArena<Type>,
) -> Result<()> {
    types.check_contains_handle(ty)?;
    expressions.check_contains_handle(components[0])?;
    expressions.check_contains_handle(components[1])?;
    ensure!(
        chains_precede(expressions),
        "an expression refers to a later expression"
    );
    preceding_chains_can_be_flattened();
    for handle in flatten_compose(ty, &components, expressions, types) {
        let expression = expressions.try_get(handle)?;
        println!(rt; "  {handle:?}: {expression:?}")?;
    }
    Ok(())
}
