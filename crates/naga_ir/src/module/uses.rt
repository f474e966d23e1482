//! Tests of whether a module uses mesh shaders or ray tracing.
ghost use Rattle.std.specs.Prelude.{◌≡◌, not, option_and_then};
ghost use Rattle.std.specs.List.{list_any};
ghost use Rattle.naga_arena.specs.Arena.{values};
ghost use Rattle.naga_ir.specs.Uses.{has_mesh_member, is_acceleration_structure, is_mesh_binding, is_mesh_built_in, is_mesh_entry_point, is_mesh_stage, is_ray_query, is_ray_stage, is_task_payload, uses_mesh_shaders, uses_ray_pipelines, uses_ray_queries, visited};

use super::{EntryPoint, FunctionArgument, FunctionResult, GlobalVariable, Module};
use crate::types::{StructMember, Type, TypeInner};
use naga_arena::{Arena, UniqueArena};
use naga_kinds::{AddressSpace, Binding, BuiltIn, ShaderStage};
use std::slice;

/// The kinds of ray tracing that a module uses.
#[derive(Clone, Copy, Debug, Default)]
pub struct RayTracingUses {
    /// `true` if the module uses ray tracing pipelines, whose stages are run by rays.
    pub pipelines: bool,
    /// `true` if the module uses ray queries, with which any other stage traces rays itself.
    pub queries: bool,
}

impl Module {
    /// Returns whether the module contains anything that is specific to mesh shaders.
    ///
    /// This is a task or mesh stage, a variable in [`AddressSpace::TaskPayload`], or a binding to a built-in of such
    /// stages or to a location with one value for each primitive. The binding may be that of a member of a structure,
    /// or of an argument or the result of an entry point.
    pub fn uses_mesh_shaders(&self) -> bool
        ensures { result ≡ uses_mesh_shaders self.now }
    {
        have_mesh_member(&self.types)
            || have_mesh_entry_point(self.entry_points.as_slice())
            || have_task_payload(&self.global_variables)
    }

    /// Returns which kinds of ray tracing the entry point at a position uses, or which kinds any entry point uses if
    /// the position is `None`. If there is no entry point at the position, the result depends only on the types.
    ///
    /// A stage that rays run uses pipelines. In any other stage, a [`ray_desc`](super::SpecialTypes::ray_desc) or an
    /// acceleration structure counts as a use of queries. A [`ray_intersection`](super::SpecialTypes::ray_intersection)
    /// or the type of a ray query always counts as a use of queries.
    pub fn uses_ray_tracing(&self, ep_index: Option<usize>) -> RayTracingUses
        ensures pipelines { result.pipelines ≡ uses_ray_pipelines self.now ep_index }
        ensures queries { result.queries ≡ uses_ray_queries self.now ep_index }
    {
        let (has_queries, has_structures) = ray_types(&self.types);
        let (pipelines, has_others) = ray_stages(self.visited(ep_index));
        let may_trace_rays = self.special_types.ray_desc.is_some() || has_structures;
        RayTracingUses {
            pipelines,
            queries: self.special_types.ray_intersection.is_some()
                || has_queries
                || (may_trace_rays && has_others),
        }
    }

    /// Returns all entry points, or only the one at a position, if there is one.
    fn visited(&self, ep_index: Option<usize>) -> &[EntryPoint]
        ensures { result.now ≡ visited ep_index self.now.entry_points.items }
    {
        let all = self.entry_points.as_slice();
        match ep_index {
            None => all,
            Some(index) => match all.get(index) {
                Some(entry_point) => slice::from_ref(entry_point),
                None => &[],
            },
        }
    }
}

/// Returns whether some structure has a member that is specific to mesh shaders.
fn have_mesh_member(types: &UniqueArena<Type>) -> bool
    ensures { result ≡ list_any (λ type. has_mesh_member type.inner) (values types.now) }
{
    for (_, ty) in types.iter() {
        if has_mesh_member(&ty.inner) {
            return true;
        }
    }
    false
}

/// Returns whether a type is a structure with a member that is specific to mesh shaders.
fn has_mesh_member(inner: &TypeInner) -> bool
    ensures { result ≡ has_mesh_member inner.now }
{
    match inner {
        TypeInner::Struct { members, .. } => is_mesh_member_among(members.as_slice()),
        _ => false,
    }
}

/// Returns whether some member is specific to mesh shaders.
fn is_mesh_member_among(members: &[StructMember]) -> bool
    ensures { result ≡ list_any (λ member. is_mesh_binding member.binding) members.now }
{
    members
        .iter()
        .any(|member| is_mesh_binding(&member.binding))
}

/// Returns whether some entry point is specific to mesh shaders.
fn have_mesh_entry_point(entry_points: &[EntryPoint]) -> bool
    ensures { result ≡ list_any is_mesh_entry_point entry_points.now }
{
    entry_points.iter().any(is_mesh_entry_point)
}

/// Returns whether the stage, an argument or the result of an entry point is specific to mesh shaders.
fn is_mesh_entry_point(entry_point: &EntryPoint) -> bool
    ensures { result ≡ is_mesh_entry_point entry_point.now }
{
    let function = &entry_point.function;
    is_mesh_stage(entry_point.stage)
        || is_mesh_argument_among(function.arguments.as_slice())
        || is_mesh_result(&function.result)
}

/// Returns whether some argument is specific to mesh shaders.
fn is_mesh_argument_among(arguments: &[FunctionArgument]) -> bool
    ensures { result ≡ list_any (λ argument. is_mesh_binding argument.binding) arguments.now }
{
    arguments
        .iter()
        .any(|argument| is_mesh_binding(&argument.binding))
}

/// Returns whether there is a result that is specific to mesh shaders.
fn is_mesh_result(given: &Option<FunctionResult>) -> bool
    ensures { result ≡ is_mesh_binding (option_and_then (λ result. result.binding) given.now) }
{
    match given {
        Some(result) => is_mesh_binding(&result.binding),
        None => false,
    }
}

/// Returns whether there is a binding that is specific to mesh shaders.
fn is_mesh_binding(binding: &Option<Binding>) -> bool
    ensures { result ≡ is_mesh_binding binding.now }
{
    match binding {
        Some(Binding::BuiltIn(built_in)) => is_mesh_built_in(*built_in),
        Some(Binding::Location { per_primitive, .. }) => *per_primitive,
        None => false,
    }
}

/// Returns whether a built-in is specific to mesh shaders.
fn is_mesh_built_in(built_in: BuiltIn) -> bool
    ensures { result ≡ is_mesh_built_in built_in }
{
    matches!(
        built_in,
        BuiltIn::MeshTaskSize
            | BuiltIn::CullPrimitive
            | BuiltIn::PointIndex
            | BuiltIn::LineIndices
            | BuiltIn::TriangleIndices
            | BuiltIn::VertexCount
            | BuiltIn::Vertices
            | BuiltIn::PrimitiveCount
            | BuiltIn::Primitives
    )
}

/// Returns whether a stage is that of a mesh shader or of a task shader, which starts mesh shaders.
fn is_mesh_stage(stage: ShaderStage) -> bool
    ensures { result ≡ is_mesh_stage stage }
{
    matches!(stage, ShaderStage::Mesh | ShaderStage::Task)
}

/// Returns whether some variable is the payload that a task shader passes on.
fn have_task_payload(variables: &Arena<GlobalVariable>) -> bool
    ensures { result ≡ list_any (λ variable. is_task_payload variable.space) (values variables.now) }
{
    variables
        .as_slice()
        .iter()
        .any(|variable| is_task_payload(variable.space))
}

/// Returns whether an address space is that of the payload that a task shader passes on.
fn is_task_payload(space: AddressSpace) -> bool
    ensures { result ≡ is_task_payload space }
{
    matches!(space, AddressSpace::TaskPayload)
}

/// Returns whether there is the type of a ray query, and whether there is an acceleration structure.
fn ray_types(types: &UniqueArena<Type>) -> (bool, bool)
    ensures queries { result.0 ≡ list_any (λ type. is_ray_query type.inner) (values types.now) }
    ensures structures { result.1 ≡ list_any (λ type. is_acceleration_structure type.inner) (values types.now) }
{
    let (mut queries, mut structures) = (false, false);
    for (_, ty) in types.iter() {
        queries |= is_ray_query(&ty.inner);
        structures |= is_acceleration_structure(&ty.inner);
    }
    (queries, structures)
}

/// Returns whether a type is that of a ray query.
fn is_ray_query(inner: &TypeInner) -> bool
    ensures { result ≡ is_ray_query inner.now }
{
    matches!(inner, TypeInner::RayQuery { .. })
}

/// Returns whether a type is an acceleration structure, through which rays are traced.
fn is_acceleration_structure(inner: &TypeInner) -> bool
    ensures { result ≡ is_acceleration_structure inner.now }
{
    matches!(inner, TypeInner::AccelerationStructure { .. })
}

/// Returns whether there is a stage that rays run, and whether there is a stage that rays do not run.
fn ray_stages(entry_points: &[EntryPoint]) -> (bool, bool)
    ensures rays { result.0 ≡ list_any (λ entry. is_ray_stage entry.stage) entry_points.now }
    ensures others { result.1 ≡ list_any (λ entry. not (is_ray_stage entry.stage)) entry_points.now }
{
    let (mut rays, mut others) = (false, false);
    for entry_point in entry_points {
        let is_ray_stage = is_ray_stage(entry_point.stage);
        rays |= is_ray_stage;
        others |= !is_ray_stage;
    }
    (rays, others)
}

/// Returns whether rays run a stage.
fn is_ray_stage(stage: ShaderStage) -> bool
    ensures { result ≡ is_ray_stage stage }
{
    matches!(
        stage,
        ShaderStage::RayGeneration
            | ShaderStage::Miss
            | ShaderStage::AnyHit
            | ShaderStage::ClosestHit
    )
}
