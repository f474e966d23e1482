//! What tests query of small modules. One function owns each module and queries it, since each function that owns a
//! module pays for the proof that the module is dropped.
use super::{constants, mesh_outputs, modules};
use naga_fixtures::module_of;
use naga_ir::Module;
use std::alloc::Global;

/// A question about a module, with the expected answer, if that is not `true`.
#[derive(Clone, Copy)]
pub(super) enum Query {
    /// Whether the constants and the sizes have the values of the sample of `constants`.
    Values,
    /// Whether the module is closed over its global expressions, once it has this part.
    IsClosed(constants::Part, bool),
    /// Whether all that is looked up for a variable is in the module. The variable has the type of these members.
    HasMeshHandles(mesh_outputs::Output, bool),
    /// Whether the analysis of this variable has this error, with the span of the type.
    MeshError(mesh_outputs::Output, mesh_outputs::Fault),
    /// Whether the module uses mesh shaders, and the kinds of ray tracing that it uses.
    Uses,
    /// Whether a clone of the module is shown in the same way.
    IsCloned,
}

/// Returns whether the answer to a query is as expected, or `None` if an allocation fails.
fn answer(alloc: Global, module: &mut Module, query: Query) -> Option<bool> {
    match query {
        Query::Values => Some(constants::have_values(alloc, module)),
        Query::IsClosed(part, want) => constants::is_closed_with(module, part, want),
        Query::HasMeshHandles(ty, want) => mesh_outputs::has_handles(alloc, module, ty, want),
        Query::MeshError(ty, want) => mesh_outputs::is_refused(alloc, module, ty, want),
        Query::Uses => Some(modules::are_used(module)),
        Query::IsCloned => modules::is_cloned_whole(alloc, module),
    }
}

/// Returns the module of a JSON text, or a module without declarations if the text is empty.
fn module(alloc: Global, text: &str) -> Option<Module> {
    if text.is_empty() {
        Some(Module::new(alloc))
    } else {
        module_of(alloc, text)
    }
}

/// Returns whether the answer to a query of the module of a text is as expected, or `None` if an allocation fails or the
/// text is not that of a module.
pub(super) fn ask(alloc: Global, text: &str, query: Query) -> Option<bool> {
    let mut module = module(alloc, text)?;
    answer(alloc, &mut module, query)
}
