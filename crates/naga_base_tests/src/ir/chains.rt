//! Tests of `chains_precede`, and of the global variable that a pointer leads into. An expression that refers to a later
//! one has no JSON, so the rows are in no table.
use super::{at, put};
use naga_arena::{Arena, Handle};
use naga_ir::{Expression, Function, GlobalVariable, Type, VectorSize, chains_precede};
use std::alloc::{AllocError, Global};

/// An expression that refers to the expressions with these indices.
#[derive(Clone, Copy)]
enum Link {
    Access(u8, u8),
    AccessIndex(u8),
    Compose(&'static [u8]),
    Splat(u8),
    Load(u8),
    Variable,
}

/// Returns the handles with these indices.
fn components(alloc: Global, parts: &[u8]) -> Result<Vec<Handle<Expression>>, AllocError> {
    let mut components = Vec::with_capacity(alloc, parts.len())?;
    for part in parts {
        components.push(at::<Expression>(*part))?;
    }
    Ok(components)
}

/// Returns the expression of a link.
fn linked(alloc: Global, link: Link) -> Result<Expression, AllocError> {
    Ok(match link {
        Link::Access(base, index) => Expression::Access {
            base: at::<Expression>(base),
            index: at::<Expression>(index),
        },
        Link::AccessIndex(base) => Expression::AccessIndex {
            base: at::<Expression>(base),
            index: 0,
        },
        Link::Compose(parts) => Expression::Compose {
            ty: at::<Type>(0),
            components: components(alloc, parts)?,
        },
        Link::Splat(value) => Expression::Splat {
            size: VectorSize::Tri,
            value: at::<Expression>(value),
        },
        Link::Load(pointer) => Expression::Load {
            pointer: at::<Expression>(pointer),
        },
        Link::Variable => Expression::GlobalVariable(at::<GlobalVariable>(4)),
    })
}

/// Appends the expression of a link.
fn add(alloc: Global, arena: &mut Arena<Expression>, link: Link) -> bool {
    match linked(alloc, link) {
        Ok(expression) => put(arena, expression),
        Err(AllocError) => false,
    }
}

/// A link that is the second of three expressions, and whether the chains of the arena precede their expressions. The
/// other two expressions refer to no others.
type Row = (Link, bool);

const ROWS: &[Row] = &[
    (Link::Access(0, 0), true),
    (Link::Access(1, 0), false),
    (Link::Access(2, 0), false),
    (Link::AccessIndex(0), true),
    (Link::AccessIndex(1), false),
    (Link::AccessIndex(2), false),
    (Link::Compose(&[0, 0]), true),
    (Link::Compose(&[]), true),
    (Link::Compose(&[0, 1]), false),
    (Link::Compose(&[2, 0]), false),
    (Link::Splat(0), true),
    (Link::Splat(1), false),
    (Link::Splat(2), false),
    (Link::Access(0, 1), true),
    (Link::Access(0, 2), true),
    (Link::Load(1), true),
    (Link::Load(2), true),
];

/// Returns the table above. It is returned by a function so that no other proof has to handle all of it.
fn each_row() -> &'static [Row] {
    ROWS
}

/// Returns whether `chains_precede` returns what a row says.
fn is_row(alloc: Global, row: &Row) -> bool {
    let mut arena = Arena::new(alloc);
    add(alloc, &mut arena, Link::Variable)
        && add(alloc, &mut arena, row.0)
        && add(alloc, &mut arena, Link::Variable)
        && chains_precede(&arena) == row.1
}

#[test]
fn bases_components_and_values_stand_before_what_they_make(rt: HostRuntime) {
    for row in each_row() {
        assert!(rt; is_row(rt.alloc(), row));
    }
}

/// Appends a global variable, an access to its first element, an access to an element of that, and a load of the
/// variable.
fn add_sample(alloc: Global, arena: &mut Arena<Expression>) -> bool {
    add(alloc, arena, Link::Variable)
        && add(alloc, arena, Link::AccessIndex(0))
        && add(alloc, arena, Link::Access(1, 0))
        && add(alloc, arena, Link::Load(0))
}

/// Returns whether the pointer with this index leads into a global variable, and that is the one of the sample if it
/// does.
fn leads(function: &Function, index: u8, want: bool) -> bool {
    let pointer = at::<Expression>(index);
    if function.expressions.check_contains_handle(pointer).is_err()
        || !chains_precede(&function.expressions)
    {
        return false;
    }
    match function.originating_global(pointer) {
        Some(variable) => want && variable.index() == 4,
        None => !want,
    }
}

/// Returns whether the pointers of the sample lead into the variable, and the loaded value leads into no variable.
fn lead_into_variable(function: &Function) -> bool {
    leads(function, 0, true)
        && leads(function, 1, true)
        && leads(function, 2, true)
        && leads(function, 3, false)
}

#[test]
fn pointers_lead_from_base_to_base(rt: HostRuntime) {
    let alloc = rt.alloc();
    let mut function = Function::new(alloc);
    assert!(rt; add_sample(alloc, &mut function.expressions) && lead_into_variable(&function));
}
