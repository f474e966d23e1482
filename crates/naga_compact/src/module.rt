//! Whole modules: which of their elements are used, and renaming the handles of those that are kept.
ghost use Rattle.std.specs.Prelude.{IfOk};
ghost use Rattle.naga_compact.specs.Module.Used.{AreUsed};

mod abstract_types;
mod compaction;
mod declaration;
mod elements;
mod function;
mod functions;
mod renumbering;
mod roots;
mod tracer;
mod used;

pub use compaction::compact;
use elements::visit_element;
use naga_ir::Module;
pub use renumbering::ModuleRenumbering;
pub use roots::KeepUnused;
use roots::visit_roots;
use std::alloc::{AllocError, Global};
use tracer::Tracer;
pub use used::UsedHandles;

/// Returns the elements of a module that are used.
///
/// The special types, all elements to which an entry point refers, and constants that have a name and whose type is not
/// abstract, are used. With [`KeepUnused::Yes`], all functions and global variables are used, too, and so are types and
/// overrides that have a name. Each element to which a used one refers is used. Handles that are not in their arenas are
/// ignored, so the module need not be valid.
///
/// The keys of named expressions and of doc comments are not references.
///
/// Each element is visited at most once. Besides, the type of each constant that has a name is followed from array to
/// base, which takes at most as many steps as there are types. Returns `Err` if allocation fails. Everything is
/// allocated before the first element is visited.
pub fn used_handles(
    alloc: Global,
    module: &Module,
    keep_unused: KeepUnused,
) -> Result<UsedHandles, AllocError>
    ensures { IfOk result (AreUsed «module».now keep_unused) }
{
    let mut tracer = Tracer::new(alloc, module)?;
    visit_roots(&mut tracer, module, keep_unused);
    'pending: while let Some(element) = tracer.take() {
        visit_element(&mut tracer, module, element);
    }
    Ok(tracer.finish())
}
