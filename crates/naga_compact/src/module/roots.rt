//! Visiting the elements of a module that are used by definition.
ghost use Rattle.std.specs.Prelude.{◌≡◌, map, option_to_list};
ghost use Rattle.std.specs.List.{filter_map, flat_map};
ghost use Rattle.naga_valid.specs.Declarations.{references_of_mesh_info};
ghost use Rattle.naga_valid.specs.Places.{global_overrides, references_found, references_of_entry_point, references_of_special_types};
ghost use Rattle.naga_compact.specs.Module.References.{references_of_whole_entry_point};
ghost use Rattle.naga_compact.specs.Module.Used.{element_if, kept_if_unused, roots};
ghost use Rattle.naga_compact.specs.Module.Visits.{visits};

use super::declaration::Declaration;
use super::function::visit_function;
use super::tracer::Tracer;
use crate::collect::collect_references;
use naga_arena::{ArenaIter, Handle, UniqueArena};
use naga_ir::{EntryPoint, Expression, MeshStageInfo, Module, SpecialTypes, Type};
use naga_valid::Reference;

/// The choice between removing and keeping elements of a module that are not used.
///
/// An element is used if an entry point, or another element that is kept, refers to it. Whatever the choice, these are
/// kept: the entry points, the special types, and constants that have a name and whose type is not abstract. So are the
/// arguments, local variables and named expressions of each entry point and of each function that is kept. These are
/// removed if they are not used: expressions, types, overrides and constants that have no name, and constants of an
/// abstract type.
///
/// A type is abstract if it is a scalar, vector or matrix of the kind `AbstractInt` or `AbstractFloat`, or an array
/// whose base is abstract.
#[derive(Clone, Copy, Debug, PartialEq, Eq)]
pub enum KeepUnused {
    /// All other elements are removed, too, if they are not used: functions and global variables, with or without a
    /// name, and types and overrides that have a name.
    No,
    /// All other elements are kept: functions and global variables, with or without a name, and types and overrides
    /// that have a name.
    Yes,
}

/// Visits the elements of a module that are used by definition.
pub(super) fn visit_roots(tracer: &mut Tracer, module: &Module, keep_unused: KeepUnused)
    ensures { tracer.new ≡ visits tracer.old (roots «module».now keep_unused) }
{
    visit_special_types(tracer, &module.special_types);
    visit_entry_points(tracer, module.entry_points.as_slice());
    visit_kept(tracer, &module.types, module.constants.iter());
    match keep_unused {
        KeepUnused::No => {}
        KeepUnused::Yes => visit_kept_if_unused(tracer, module),
    }
}

/// Visits the special types of a module.
fn visit_special_types(tracer: &mut Tracer, types: &SpecialTypes)
    ensures { tracer.new ≡ visits tracer.old (references_of_special_types types.now) }
{
    collect_references(tracer, types);
    for ty in types.predeclared_types.values() {
        tracer.add(Reference::Type(*ty));
    }
}

/// Visits the elements to which entry points refer.
fn visit_entry_points(tracer: &mut Tracer, entry_points: &[EntryPoint])
    ensures { tracer.new ≡ visits tracer.old (flat_map references_of_whole_entry_point entry_points.now) }
{
    for entry_point in entry_points {
        visit_entry_point(tracer, entry_point);
        visit_function(tracer, &entry_point.function);
    }
}

/// Visits the elements to which an entry point refers outside its function.
fn visit_entry_point(tracer: &mut Tracer, entry_point: &EntryPoint)
    ensures { tracer.new ≡ visits tracer.old (references_of_entry_point entry_point.now) }
{
    visit_workgroup_size(tracer, &entry_point.workgroup_size_overrides);
    visit_mesh_info(tracer, &entry_point.mesh_info);
    collect_references(tracer, &entry_point.task_payload);
    collect_references(tracer, &entry_point.incoming_ray_payload);
}

/// Visits the global expressions that replace the sizes of a workgroup, if there are any.
fn visit_workgroup_size(tracer: &mut Tracer, overrides: &Option<[Option<Handle<Expression>>; 3]>)
    ensures { tracer.new ≡ visits tracer.old (references_found global_overrides overrides.now) }
{
    match overrides {
        Some(overrides) => collect_references(tracer, overrides),
        None => {}
    }
}

/// Visits the elements to which the information about a mesh stage refers, if there is any.
fn visit_mesh_info(tracer: &mut Tracer, info: &Option<MeshStageInfo>)
    ensures { tracer.new ≡ visits tracer.old (references_found references_of_mesh_info info.now) }
{
    match info {
        Some(info) => collect_references(tracer, info),
        None => {}
    }
}

/// Visits the elements of a module that are kept only if unused elements are.
fn visit_kept_if_unused(tracer: &mut Tracer, module: &Module)
    ensures { tracer.new ≡ visits tracer.old (kept_if_unused «module».now) }
{
    let types = &module.types;
    visit_kept(tracer, types, types.iter());
    visit_kept(tracer, types, module.overrides.iter());
    visit_kept(tracer, types, module.global_variables.iter());
    visit_kept(tracer, types, module.functions.iter());
}

/// Visits the elements of an arena that are kept although nothing refers to them. They belong to a module with these
/// types.
fn visit_kept<T: Declaration>(
    tracer: &mut Tracer,
    types: &UniqueArena<Type>,
    elements: ArenaIter<'_, T>,
)
    ensures { tracer.new ≡ visits tracer.old (filter_map (element_if T.element (T.keeps types.now)) elements.entry) }
{
    for (handle, declared) in elements {
        visit_if_kept(tracer, types, handle, declared);
    }
}

/// Visits an element if it is kept although nothing refers to it.
fn visit_if_kept<T: Declaration>(
    tracer: &mut Tracer,
    types: &UniqueArena<Type>,
    handle: Handle<T>,
    declared: &T,
)
    ensures { tracer.new ≡ visits tracer.old
        (option_to_list (element_if T.element (T.keeps types.now) (handle, declared.now))) }
{
    if declared.is_kept(types) {
        tracer.add(T::element(handle));
    }
}
