//! Tests of the spans of errors of output variables of mesh shaders, and of types that are not in the module.
use super::queries::{Query, ask};
use super::{at, put};
use naga_arena::{Span, WithSpan};
use naga_ir::{
    AddressSpace, ArraySize, Binding, BuiltIn, EntryPointError, Flags, GlobalVariable,
    MemoryDecorations, Module, Override, Scalar, StructMember, Type, TypeInner,
};
use std::alloc::{AllocError, Global};

/// A member: its built-in, if it has one, and the index of its type.
type Member = (Option<BuiltIn>, u8);

/// The type of the variable: a structure of these members, or the type with this index.
#[derive(Clone, Copy)]
pub(super) enum Output {
    Of(&'static [Member]),
    At(u8),
}

/// The error, and the start and the text of its span.
pub(super) type Fault = (EntryPointError, u32, &'static str);

/// A number, an array of a type that is not in the module, and that type. The structure is the type between them.
const NUMBER: u8 = 0;

const UNKNOWN_ARRAY: u8 = 1;

const OUTPUT: u8 = 2;

const UNKNOWN: u8 = 3;

/// Adds a type whose span starts at the index of its handle, and returns whether this succeeded.
fn declare(module: &mut Module, inner: TypeInner) -> bool {
    let start = module.types.len() as u32;
    let ty = Type { name: None, inner };
    module.types.insert(ty, Span::new(start, 99)).is_ok()
}

/// Returns a member.
fn member((built_in, ty): Member) -> StructMember {
    let binding = match built_in {
        Some(built_in) => Some(Binding::BuiltIn(built_in)),
        None => None,
    };
    StructMember {
        name: None,
        ty: at::<Type>(ty),
        binding,
        offset: 0,
    }
}

/// Returns a structure.
fn structure(alloc: Global, listed: &[Member]) -> Result<TypeInner, AllocError> {
    let mut members = Vec::new(alloc);
    for listed in listed {
        members.push(member(*listed))?;
    }
    Ok(TypeInner::Struct { members, span: 4 })
}

/// Adds the number, and the array of what is not in the module, and returns whether this succeeded.
fn add_types(module: &mut Module) -> bool {
    let array = TypeInner::Array {
        base: at::<Type>(UNKNOWN),
        size: ArraySize::Pending(at::<Override>(0)),
        stride: 4,
    };
    declare(module, TypeInner::Scalar(Scalar::U32)) && declare(module, array)
}

/// Adds a variable of a type, and returns whether this succeeded.
fn add_variable(module: &mut Module, ty: u8) -> bool {
    let variable = GlobalVariable {
        name: None,
        space: AddressSpace::WorkGroup,
        binding: None,
        ty: at::<Type>(ty),
        init: None,
        memory_decorations: MemoryDecorations::empty(),
    };
    put(&mut module.global_variables, variable)
}

/// Adds the types and the variable, and returns whether this succeeded.
fn fill(alloc: Global, module: &mut Module, ty: Output) -> bool {
    let members = match ty {
        Output::Of(members) => members,
        Output::At(ty) => return add_types(module) && add_variable(module, ty),
    };
    match structure(alloc, members) {
        Ok(inner) => { add_types(module) && declare(module, inner) && add_variable(module, OUTPUT) }
        Err(AllocError) => false,
    }
}

/// Returns whether the module contains all handles that are looked up for its first variable if and only if that is
/// wanted, and none for a second variable, or `None` if an allocation fails.
pub(super) fn has_handles(
    alloc: Global,
    module: &mut Module,
    ty: Output,
    want: bool,
) -> Option<bool> {
    if !fill(alloc, module, ty) {
        return None;
    }
    let (first, second) = (at::<GlobalVariable>(0), at::<GlobalVariable>(1));
    Some(module.mesh_handles_in(first) == want && !module.mesh_handles_in(second))
}

/// Types of the variable, and whether the module contains all handles that are looked up for it.
const HANDLES: &[(Output, bool)] = &[
    (Output::Of(&[(Some(BuiltIn::VertexCount), UNKNOWN)]), false),
    (Output::Of(&[(Some(BuiltIn::Primitives), UNKNOWN)]), false),
    (
        Output::Of(&[(Some(BuiltIn::Primitives), UNKNOWN_ARRAY)]),
        false,
    ),
    (
        Output::Of(&[(Some(BuiltIn::Vertices), UNKNOWN_ARRAY)]),
        true,
    ),
    (
        Output::Of(&[(None, UNKNOWN), (Some(BuiltIn::PointIndex), UNKNOWN)]),
        true,
    ),
    (Output::At(OUTPUT), false),
    (Output::At(NUMBER), true),
];

#[test]
fn what_is_looked_up_is_there(rt: HostRuntime) {
    for (ty, want) in HANDLES {
        assert!(rt; ask(rt.alloc(), "", Query::HasMeshHandles(*ty, *want)) == Some(true));
    }
}

/// Returns whether an error is this one, with its span and no other span.
fn is_fault(error: &WithSpan<EntryPointError>, (inner, start, want): Fault) -> bool {
    let mut spans = error.spans();
    match spans.next() {
        Some((span, text)) => {
            *error.as_inner() == inner
                && *span == Span::new(start, 99)
                && text.as_str() == want
                && spans.next().is_none()
        }
        None => false,
    }
}

/// Returns whether the analysis of the first variable of a module has this error, or `None` if an allocation fails.
fn has_fault(module: &Module, want: Fault) -> Option<bool> {
    let variable = at::<GlobalVariable>(0);
    if !module.mesh_handles_in(variable) {
        return Some(false);
    }
    match module.analyze_mesh_shader_info(variable) {
        Ok((_, _, Some(error))) => Some(is_fault(&error, want)),
        Ok((_, _, None)) => Some(false),
        Err(AllocError) => None,
    }
}

/// Returns whether the analysis of a variable of this type has this error, or `None` if an allocation fails.
pub(super) fn is_refused(
    alloc: Global,
    module: &mut Module,
    ty: Output,
    want: Fault,
) -> Option<bool> {
    if fill(alloc, module, ty) {
        has_fault(module, want)
    } else {
        None
    }
}

/// A variable that is no structure, and its error.
const NO_STRUCTURE: Query = Query::MeshError(
    Output::At(NUMBER),
    (EntryPointError::BadMeshOutputVariableType, 0, "Type [0]"),
);

/// A variable with a field that is no array, and its error.
const NO_ARRAY: Query = Query::MeshError(
    Output::Of(&[(Some(BuiltIn::Primitives), NUMBER)]),
    (EntryPointError::BadMeshOutputVariableField, 2, "Type [2]"),
);

#[test]
fn an_error_has_the_span_of_the_type(rt: HostRuntime) {
    assert!(rt; ask(rt.alloc(), "", NO_STRUCTURE) == Some(true));
    assert!(rt; ask(rt.alloc(), "", NO_ARRAY) == Some(true));
}

/// Tests in which allocations may fail.
mod refusals {
    use super::*;

    #[test]
    fn a_refused_span_is_no_answer(rt: HostRuntime) {
        assert!(rt; ask(rt.alloc(), "", NO_STRUCTURE) != Some(false));
    }
}
