//! The summary of a module.
ghost use Rattle.std.specs.Prelude.{◌≡◌};
ghost use Rattle.naga_look.specs.Summary.{bodies_of, no_counts, summary_of, with_blocks};

mod counts;
mod statements;
mod tails;

pub use counts::Counts;
use counts::{count_entry_points, count_functions};
use naga_ir::Module;
pub(crate) use tails::add_open_tails;

/// What a module contains, in numbers.
#[derive(Clone, Copy, Debug, PartialEq, Eq)]
pub struct Summary {
    /// The number of types.
    pub types: usize,
    /// The number of functions that are no entry points.
    pub functions: usize,
    /// The number of entry points.
    pub entry_points: usize,
    /// The counts of the bodies of all functions and entry points.
    pub counts: Counts,
    /// `true` if the module uses ray tracing pipelines.
    pub ray_pipelines: bool,
    /// `true` if the module uses ray queries.
    pub ray_queries: bool,
    /// `true` if the module uses mesh shaders.
    pub mesh_shaders: bool,
}

/// Returns the summary of a module.
///
/// The uses are those of [`uses_ray_tracing`](Module::uses_ray_tracing) for all entry points, and of
/// [`uses_mesh_shaders`](Module::uses_mesh_shaders).
///
/// Differs from naga: naga has no such function.
pub fn summarize(module: &Module) -> Summary
    ensures { result ≡ summary_of «module».now }
{
    let uses = module.uses_ray_tracing(None);
    Summary {
        types: module.types.len(),
        functions: module.functions.len(),
        entry_points: module.entry_points.len(),
        counts: counts_of(module),
        ray_pipelines: uses.pipelines,
        ray_queries: uses.queries,
        mesh_shaders: module.uses_mesh_shaders(),
    }
}

/// Returns the counts of the bodies of all functions and entry points.
pub(crate) fn counts_of(module: &Module) -> Counts
    ensures { result ≡ with_blocks no_counts (bodies_of «module».now) }
{
    let functions = count_functions(module.functions.as_slice());
    let entry_points = count_entry_points(module.entry_points.as_slice());
    functions.plus(entry_points)
}
