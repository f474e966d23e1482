//! Renaming the handles of the parts of a module of which 3 types, 2 constants, 2 global expressions and 1 element of
//! each other arena are kept. So a handle with the index 9 gets another index in most arenas.
use super::{is_shown, module, nth};
use naga_compact::{
    InGlobal, KeepUnused, ModuleRenumbering, Rename, Renumbering, rename_block, rename_entry_point,
    rename_function, used_handles,
};
use naga_ir::{
    AddressSpace, ArraySize, Constant, EntryPoint, Expression, Flags, Function, FunctionArgument,
    FunctionResult, GlobalVariable, LocalVariable, MemoryDecorations, MeshOutputTopology,
    MeshStageInfo, Module, Override, SpecialTypes, StructMember, Type, TypeInner,
};
use naga_sets::HandleSet;
use std::alloc::Global;
use std::fmt;

/// Returns whether a part is formatted as `text` once its handles are renamed. Also returns `true` if an allocation
/// fails.
fn becomes<T: Rename + fmt::Debug + Drop>(
    alloc: Global,
    renumbering: &ModuleRenumbering,
    mut part: T,
    text: &str,
) -> bool {
    part.rename(renumbering);
    is_shown(alloc, &part, text) != Some(false)
}

/// Returns whether the handles of types are renamed.
fn renames_types(alloc: Global, new: &ModuleRenumbering) -> bool {
    let (name, ty, binding) = (None, nth::<Type>(9), None);
    let inner = TypeInner::Array {
        base: ty,
        size: ArraySize::Pending(nth::<Override>(9)),
        stride: 9,
    };
    let mut types = SpecialTypes::new(alloc);
    types.external_texture_params = Some(ty);
    types.rename(new);
    types.external_texture_params == Some(nth::<Type>(3))
        && becomes(
            alloc,
            new,
            StructMember {
                name,
                ty,
                binding,
                offset: 9,
            },
            "StructMember { name: None, ty: [3], binding: None, offset: 9 }",
        )
        && becomes(
            alloc,
            new,
            Type { name: None, inner },
            "Type { name: None, inner: Array { base: [3], size: Pending([1]), stride: 9 } }",
        )
}

/// Returns whether the handles of declarations are renamed.
fn renames_values(alloc: Global, new: &ModuleRenumbering) -> bool {
    let (ty, init) = (nth::<Type>(9), nth::<Expression>(9));
    becomes(
        alloc,
        new,
        Constant {
            name: None,
            ty,
            init,
        },
        "Constant { name: None, ty: [3], init: [2] }",
    ) && becomes(
        alloc,
        new,
        Override {
            name: None,
            id: None,
            ty,
            init: Some(init),
        },
        "Override { name: None, id: None, ty: [3], init: Some([2]) }",
    ) && becomes(
        alloc,
        new,
        GlobalVariable {
            name: None,
            space: AddressSpace::Private,
            binding: None,
            ty,
            init: Some(init),
            memory_decorations: MemoryDecorations::empty(),
        },
        "GlobalVariable { name: None, space: Private, binding: None, ty: [3], init: Some([2]), \
         memory_decorations: MemoryDecorations(0) }",
    )
}

/// Returns whether the handles of parts of functions are renamed, except for those of the function's own expressions.
fn renames_parts(alloc: Global, new: &ModuleRenumbering) -> bool {
    let ty = nth::<Type>(9);
    becomes(
        alloc,
        new,
        FunctionArgument {
            name: None,
            ty,
            binding: None,
        },
        "FunctionArgument { name: None, ty: [3], binding: None }",
    ) && becomes(
        alloc,
        new,
        FunctionResult { ty, binding: None },
        "FunctionResult { ty: [3], binding: None }",
    ) && becomes(
        alloc,
        new,
        LocalVariable {
            name: None,
            ty,
            init: Some(nth::<Expression>(9)),
        },
        "LocalVariable { name: None, ty: [3], init: Some([9]) }",
    ) && becomes(
        alloc,
        new,
        Expression::Constant(nth::<Constant>(9)),
        "Constant([2])",
    )
}

/// Returns whether the handles of the information about a mesh stage are renamed.
fn renames_mesh_info(alloc: Global, new: &ModuleRenumbering) -> bool {
    let info = MeshStageInfo {
        topology: MeshOutputTopology::Points,
        max_vertices: 9,
        max_vertices_override: Some(nth::<Expression>(9)),
        max_primitives: 9,
        max_primitives_override: None,
        vertex_output_type: nth::<Type>(9),
        primitive_output_type: nth::<Type>(0),
        output_variable: nth::<GlobalVariable>(9),
    };
    becomes(
        alloc,
        new,
        info,
        "MeshStageInfo { topology: Points, max_vertices: 9, max_vertices_override: Some([2]), max_primitives: 9, \
         max_primitives_override: None, vertex_output_type: [3], primitive_output_type: [0], output_variable: [1] }",
    )
}

/// Returns whether the operand of a global expression is renamed.
fn renames_global_expression(new: &ModuleRenumbering) -> bool {
    let mut load = Expression::Load {
        pointer: nth::<Expression>(9),
    };
    load.rename(&InGlobal { handles: new });
    matches!(&load, Expression::Load { pointer } if *pointer == nth::<Expression>(2))
}

/// Returns whether the handles of an entry point are renamed: the called function, the expression of its result, and
/// the variable of the entry point. Also returns `true` if an allocation fails.
fn renames_entry_point(
    alloc: Global,
    new: &ModuleRenumbering,
    entry_point: &mut EntryPoint,
) -> bool {
    rename_block(&mut entry_point.function.body, new);
    let call = "Some(Call { function: [0], arguments: [], result: Some([0]) })";
    if is_shown(alloc, &entry_point.function.body.last(), call) == Some(false) {
        return false;
    }
    rename_function(&mut entry_point.function, new);
    let expressions = "{[0]: CallResult([0])}";
    if is_shown(alloc, &entry_point.function.expressions, expressions) == Some(false) {
        return false;
    }
    rename_entry_point(entry_point, new);
    entry_point.task_payload == Some(nth::<GlobalVariable>(0))
}

/// Returns whether the handles of the module are renamed, or `None` if an allocation fails.
fn renames(alloc: Global, module: &mut Module) -> Option<bool> {
    let Ok(used) = used_handles(alloc, module, KeepUnused::No) else {
        return None;
    };
    let Ok(new) = ModuleRenumbering::new(alloc, used) else {
        return None;
    };
    let Some(entry_point) = module.entry_points.last_mut() else {
        return Some(false);
    };
    Some(
        renames_entry_point(alloc, &new, entry_point)
            && renames_global_expression(&new)
            && renames_types(alloc, &new)
            && renames_values(alloc, &new)
            && renames_parts(alloc, &new)
            && renames_mesh_info(alloc, &new),
    )
}

/// Returns whether handles are renamed, or `None` if an allocation fails.
fn are_renamed(alloc: Global) -> Option<bool> {
    let mut module = module(alloc, "\"\"")?;
    renames(alloc, &mut module)
}

/// Returns whether the first of two constants gets no new handle, or `None` if an allocation fails.
fn is_first_removed(alloc: Global) -> Option<bool> {
    let mut kept = HandleSet::<Constant>::new(alloc);
    if kept.insert(nth::<Constant>(1)).is_err() {
        return None;
    }
    match Renumbering::<Constant>::new(alloc, kept) {
        Ok(new) => Some(
            !new.keeps(nth::<Constant>(0)) && new.handle(nth::<Constant>(1)) == nth::<Constant>(0),
        ),
        Err(_) => None,
    }
}

#[test]
fn handles_are_renamed(rt: HostRuntime) {
    assert!(rt; are_renamed(rt.alloc()) == Some(true));
    assert!(rt; is_first_removed(rt.alloc()) == Some(true));
}

/// Tests in which allocations may fail.
mod refusals {
    use super::*;

    #[test]
    fn a_refused_renumbering_is_an_error(rt: HostRuntime) {
        assert!(rt; are_renamed(rt.alloc()) != Some(false));
        assert!(rt; is_first_removed(rt.alloc()) != Some(false));
    }
}
