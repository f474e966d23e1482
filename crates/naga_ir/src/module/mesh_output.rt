//! The analysis of the output variable of a mesh shader.
ghost use Rattle.std.specs.Prelude.{◌≡◌, ◌<◌, ◌↔◌, IsTrue, All, Some, IfOk, IfSome, OnErr, length, slice_get};
ghost use Rattle.naga_arena.specs.Arena.{value_at};
ghost use Rattle.naga_ir.specs.MeshOutput.{HasMeshHandles, HasOutputTypes, HasTypesFor, KeepsSpan, TellsMesh, elements_given, elements_of, errors_of, info_of, inner_of, is_fit, is_count, is_sized_array, last_read, mesh_of, mesh_of_members, members_of, no_elements, output_bound, output_of, overrides_of, topology_bound, topology_given, topology_of, was_given, with_given};

use super::{GlobalVariable, MeshStageInfo, Module, Override};
use crate::types::{ArraySize, StructMember, Type, TypeInner};
use naga_arena::{Handle, UniqueArena, WithSpan, with_span_handle};
use naga_kinds::{Binding, BuiltIn, EntryPointError, MeshOutputTopology, Scalar, ScalarKind};
use std::alloc::AllocError;

/// An output of a mesh shader. A member of the shader's output variable contains it.
#[derive(Clone, Copy)]
enum MeshOutput {
    VertexCount,
    PrimitiveCount,
    Vertices,
    Primitives,
}

/// The set of outputs that the members examined so far contain.
#[derive(Clone, Copy)]
struct Given {
    vertex_count: bool,
    primitive_count: bool,
    vertices: bool,
    primitives: bool,
}

/// The vertices or the primitives of a mesh.
#[derive(Clone, Copy)]
struct MeshElements {
    /// The maximum number.
    max: u32,
    /// The override that replaces `max` once the pipeline is created.
    max_override: Option<Handle<Override>>,
    /// The type of each vertex or primitive.
    ty: Handle<Type>,
}

/// The mesh that the type of an output variable describes.
#[derive(Clone, Copy)]
struct Mesh {
    topology: MeshOutputTopology,
    vertices: MeshElements,
    primitives: MeshElements,
    /// The first error, if there is one.
    error: Option<EntryPointError>,
}

impl Module {
    /// Analyzes the type of a mesh shader's output variable.
    ///
    /// Returns the information about the mesh that the type describes, the overrides of the maximum numbers of vertices
    /// and of primitives, and the first error, with the span of the type. The returned [`MeshStageInfo`] does not
    /// contain the overrides. If there is an error, it still contains whatever can be read.
    ///
    /// The type must be a structure with members for [`BuiltIn::VertexCount`], [`BuiltIn::PrimitiveCount`],
    /// [`BuiltIn::Vertices`] and [`BuiltIn::Primitives`], at most one for each and no others. A count must be a `u32`.
    /// Vertices and primitives must be arrays whose size is not [`Dynamic`](ArraySize::Dynamic).
    ///
    /// Allocates only for the span of an error. Returns `Err` if that allocation fails.
    ///
    /// The caller must ensure that all handles that are looked up are in the module;
    /// [`mesh_handles_in`](Self::mesh_handles_in) tests this.
    ///
    /// Differs from naga: naga panics if a handle is not in the module, and also accepts vectors of `u32` as counts.
    pub fn analyze_mesh_shader_info(
        &self,
        gv: Handle<GlobalVariable>,
    ) -> Result<
        (
            MeshStageInfo,
            [Option<Handle<Override>>; 2],
            Option<WithSpan<EntryPointError>>,
        ),
        AllocError,
    >
        requires { HasMeshHandles self.now gv }
        ensures told { IfOk result (λ answer. IfSome (value_at self.now.global_variables gv)
            (λ variable. TellsMesh self.now.types gv variable.ty answer)) }
        ensures memory { OnErr result (IfSome (value_at self.now.global_variables gv)
            (λ variable. KeepsSpan self.now.types variable.ty)) }
    {
        let ty = self.global_variables[gv].ty;
        let mesh = mesh_of(&self.types, &self.types[ty].inner);
        let info = mesh.info(gv);
        let overrides = mesh.overrides();
        let Some(error) = mesh.error else {
            return Ok((info, overrides, None));
        };
        let alloc = *self.entry_points.allocator();
        match with_span_handle::<_, Type, _>(alloc, error, ty, &self.types) {
            Ok(error) => Ok((info, overrides, Some(error))),
            Err(_) => Err(AllocError),
        }
    }

    /// Returns whether the module contains everything that [`analyze_mesh_shader_info`](Self::analyze_mesh_shader_info)
    /// looks up.
    ///
    /// This is the variable, its type, the types of the members that contain an output of the mesh shader, and the type
    /// of each primitive.
    pub fn mesh_handles_in(&self, gv: Handle<GlobalVariable>) -> bool
        ensures { IsTrue result ↔ HasMeshHandles self.now gv }
    {
        if gv.index() >= self.global_variables.len() {
            return false;
        }
        let ty = self.global_variables[gv].ty;
        if ty.index() >= self.types.len() {
            return false;
        }
        have_output_types(&self.types, members_of(&self.types[ty].inner))
    }
}

impl Mesh {
    /// Returns the mesh as the [`MeshStageInfo`] of an output variable.
    fn info(&self, output_variable: Handle<GlobalVariable>) -> MeshStageInfo
        ensures { result ≡ info_of self.now output_variable }
    {
        MeshStageInfo {
            topology: self.topology,
            max_vertices: self.vertices.max,
            max_vertices_override: None,
            max_primitives: self.primitives.max,
            max_primitives_override: None,
            vertex_output_type: self.vertices.ty,
            primitive_output_type: self.primitives.ty,
            output_variable,
        }
    }

    /// Returns the overrides of the maximum numbers of vertices and of primitives, in this order.
    fn overrides(&self) -> [Option<Handle<Override>>; 2]
        ensures { result ≡ overrides_of self.now }
    {
        [self.vertices.max_override, self.primitives.max_override]
    }
}

impl Given {
    /// Returns whether the set contains this output.
    fn has(self, output: MeshOutput) -> bool
        ensures { result ≡ was_given self output }
    {
        match output {
            MeshOutput::VertexCount => self.vertex_count,
            MeshOutput::PrimitiveCount => self.primitive_count,
            MeshOutput::Vertices => self.vertices,
            MeshOutput::Primitives => self.primitives,
        }
    }

    /// Returns the set with this output added, if there is one.
    fn with(self, output: Option<MeshOutput>) -> Self
        ensures { result ≡ with_given self output }
    {
        let mut given = self;
        match output {
            Some(MeshOutput::VertexCount) => given.vertex_count = true,
            Some(MeshOutput::PrimitiveCount) => given.primitive_count = true,
            Some(MeshOutput::Vertices) => given.vertices = true,
            Some(MeshOutput::Primitives) => given.primitives = true,
            None => {}
        }
        given
    }
}

/// Returns the mesh that the type of a variable describes.
///
/// Precondition: if the type is a structure, [`have_output_types`] returns `true` for its members.
#[tactic(auto, unfolding(crate::specs::MeshOutput::mesh_of, crate::specs::MeshOutput::members_of))]
fn mesh_of(types: &UniqueArena<Type>, inner: &TypeInner) -> Mesh
    requires { All (HasOutputTypes types.now) (members_of (Some inner.now)) }
    ensures { result ≡ mesh_of types.now (Some inner.now) }
{
    match inner {
        TypeInner::Struct { members, .. } => mesh_of_members(types, members.as_slice()),
        _ => Mesh {
            topology: MeshOutputTopology::Triangles,
            vertices: no_elements(),
            primitives: no_elements(),
            error: Some(EntryPointError::BadMeshOutputVariableType),
        },
    }
}

/// Returns the mesh that the members of a structure describe.
///
/// Precondition: [`have_output_types`] returns `true` for the members.
fn mesh_of_members(types: &UniqueArena<Type>, members: &[StructMember]) -> Mesh
    requires { All (HasOutputTypes types.now) members.now }
    ensures { result ≡ mesh_of_members types.now members.now }
{
    let mut topology = MeshOutputTopology::Triangles;
    let mut vertices = no_elements();
    let mut primitives = no_elements();
    let mut error = None;
    let mut given = Given {
        vertex_count: false,
        primitive_count: false,
        vertices: false,
        primitives: false,
    };
    for member in members {
        let output = output_of(member);
        topology = topology_given(types, member, output).unwrap_or(topology);
        vertices = vertices_given(types, member, output).unwrap_or(vertices);
        primitives = primitives_given(types, member, output).unwrap_or(primitives);
        error = error.or(error_of(types, member, output, given));
        given = given.with(output);
    }
    Mesh {
        topology,
        vertices,
        primitives,
        error,
    }
}

/// Returns the output that a member contains, or `None` if it contains none.
#[tactic(auto, unfolding(crate::specs::MeshOutput::output_bound))]
fn output_of(member: &StructMember) -> Option<MeshOutput>
    ensures { result ≡ output_of member.now }
{
    match &member.binding {
        Some(Binding::BuiltIn(BuiltIn::VertexCount)) => Some(MeshOutput::VertexCount),
        Some(Binding::BuiltIn(BuiltIn::PrimitiveCount)) => Some(MeshOutput::PrimitiveCount),
        Some(Binding::BuiltIn(BuiltIn::Vertices)) => Some(MeshOutput::Vertices),
        Some(Binding::BuiltIn(BuiltIn::Primitives)) => Some(MeshOutput::Primitives),
        _ => None,
    }
}

/// Returns the vertices that a member contains, or `None` if it contains something else.
///
/// Preconditions: `output` is that of `member`, and [`has_output_types`] returns `true` for `member`.
fn vertices_given(
    types: &UniqueArena<Type>,
    member: &StructMember,
    output: Option<MeshOutput>,
) -> Option<MeshElements>
    requires types { HasTypesFor types.now output member.now.ty }
    requires output { output ≡ output_of member.now }
    ensures { result ≡ elements_given types.now MeshOutput.Vertices member.now }
{
    match output {
        Some(MeshOutput::Vertices) => Some(elements_of(&types[member.ty].inner)),
        _ => None,
    }
}

/// Returns the primitives that a member contains, or `None` if it contains something else.
///
/// Preconditions: `output` is that of `member`, and [`has_output_types`] returns `true` for `member`.
fn primitives_given(
    types: &UniqueArena<Type>,
    member: &StructMember,
    output: Option<MeshOutput>,
) -> Option<MeshElements>
    requires types { HasTypesFor types.now output member.now.ty }
    requires output { output ≡ output_of member.now }
    ensures value { result ≡ elements_given types.now MeshOutput.Primitives member.now }
    ensures within { IfSome result (λ primitives. primitives.ty < length types.now) }
{
    match output {
        Some(MeshOutput::Primitives) => Some(elements_of(&types[member.ty].inner)),
        _ => None,
    }
}

/// Returns the topology of the primitives that a member contains, or `None` if there is none.
///
/// Preconditions: `output` is that of `member`, and [`has_output_types`] returns `true` for `member`.
fn topology_given(
    types: &UniqueArena<Type>,
    member: &StructMember,
    output: Option<MeshOutput>,
) -> Option<MeshOutputTopology>
    requires types { HasTypesFor types.now output member.now.ty }
    requires output { output ≡ output_of member.now }
    ensures { result ≡ topology_given types.now member.now }
{
    match primitives_given(types, member, output) {
        Some(primitives) => topology_of(&types[primitives.ty].inner),
        None => None,
    }
}

/// Returns the first error of a member, or `None` if it has none. The earlier members contain the outputs in `given`.
///
/// Precondition: the types that are looked up for a member with this output are in `types`.
fn error_of(
    types: &UniqueArena<Type>,
    member: &StructMember,
    output: Option<MeshOutput>,
    given: Given,
) -> Option<EntryPointError>
    requires { HasTypesFor types.now output member.now.ty }
    ensures { result ≡ slice_get
        (errors_of output (inner_of types.now member.now.ty) (was_given given)) 0 }
{
    let Some(output) = output else {
        return Some(EntryPointError::BadMeshOutputVariableType);
    };
    if !is_fit(output, &types[member.ty].inner) {
        return Some(EntryPointError::BadMeshOutputVariableField);
    }
    if given.has(output) {
        return Some(EntryPointError::BadMeshOutputVariableType);
    }
    None
}

/// Returns whether a type is allowed for an output.
fn is_fit(output: MeshOutput, inner: &TypeInner) -> bool
    ensures { result ≡ is_fit output (Some inner.now) }
{
    match output {
        MeshOutput::VertexCount | MeshOutput::PrimitiveCount => is_count(inner),
        MeshOutput::Vertices | MeshOutput::Primitives => is_sized_array(inner),
    }
}

/// Returns whether a type is exactly `u32`.
#[tactic(auto, unfolding(crate::specs::MeshOutput::is_count))]
fn is_count(inner: &TypeInner) -> bool
    ensures { result ≡ is_count (Some inner.now) }
{
    matches!(
        inner,
        TypeInner::Scalar(Scalar {
            kind: ScalarKind::Uint,
            width: 4,
        })
    )
}

/// Returns whether a type is an array whose length is known once the pipeline is created.
#[tactic(auto, unfolding(crate::specs::MeshOutput::is_sized_array))]
fn is_sized_array(inner: &TypeInner) -> bool
    ensures { result ≡ is_sized_array (Some inner.now) }
{
    match inner {
        TypeInner::Array { size, .. } => !matches!(size, ArraySize::Dynamic),
        _ => false,
    }
}

/// Returns the `MeshElements` of a mesh without vertices, or without primitives.
fn no_elements() -> MeshElements
    ensures { result ≡ no_elements }
{
    MeshElements {
        max: 0,
        max_override: None,
        ty: Handle::<Type>::from_usize(0).unwrap(),
    }
}

/// Returns the vertices or primitives that an array contains, or [`no_elements`] if the type is not an array.
#[tactic(auto, unfolding(crate::specs::MeshOutput::elements_of))]
fn elements_of(inner: &TypeInner) -> MeshElements
    ensures { result ≡ elements_of (Some inner.now) }
{
    match inner {
        TypeInner::Array {
            base,
            size: ArraySize::Constant(count),
            ..
        } => MeshElements {
            max: count.get(),
            max_override: None,
            ty: *base,
        },
        TypeInner::Array {
            base,
            size: ArraySize::Pending(named),
            ..
        } => MeshElements {
            max: 0,
            max_override: Some(*named),
            ty: *base,
        },
        TypeInner::Array { base, .. } => MeshElements {
            max: 0,
            max_override: None,
            ty: *base,
        },
        _ => no_elements(),
    }
}

/// Returns the topology of primitives of this type, or `None` if the type has no member that specifies one.
#[tactic(auto, unfolding(crate::specs::MeshOutput::topology_of))]
fn topology_of(inner: &TypeInner) -> Option<MeshOutputTopology>
    ensures { result ≡ topology_of (Some inner.now) }
{
    match inner {
        TypeInner::Struct { members, .. } => topology_of_members(members.as_slice()),
        _ => None,
    }
}

/// Returns the topology of the last member that specifies one.
fn topology_of_members(members: &[StructMember]) -> Option<MeshOutputTopology>
    ensures { result ≡ last_read (λ member. topology_bound member.binding) members.now }
{
    let mut topology = None;
    for member in members {
        topology = topology_bound(&member.binding).or(topology);
    }
    topology
}

/// Returns the topology that a binding to the indices of primitives specifies, or `None` for any other binding.
#[tactic(auto, unfolding(crate::specs::MeshOutput::topology_bound))]
fn topology_bound(binding: &Option<Binding>) -> Option<MeshOutputTopology>
    ensures { result ≡ topology_bound binding.now }
{
    match binding {
        Some(Binding::BuiltIn(BuiltIn::PointIndex)) => Some(MeshOutputTopology::Points),
        Some(Binding::BuiltIn(BuiltIn::LineIndices)) => Some(MeshOutputTopology::Lines),
        Some(Binding::BuiltIn(BuiltIn::TriangleIndices)) => Some(MeshOutputTopology::Triangles),
        _ => None,
    }
}

/// Returns the members of a structure, and no members for any other type.
#[tactic(auto, unfolding(crate::specs::MeshOutput::members_of))]
fn members_of(inner: &TypeInner) -> &[StructMember]
    ensures { result.now ≡ members_of (Some inner.now) }
{
    match inner {
        TypeInner::Struct { members, .. } => members.as_slice(),
        _ => &[],
    }
}

/// Returns whether the types of all members that contain an output of the mesh shader are in `types`.
fn have_output_types(types: &UniqueArena<Type>, members: &[StructMember]) -> bool
    ensures { IsTrue result ↔ All (HasOutputTypes types.now) members.now }
{
    members.iter().all(|member| has_output_types(types, member))
}

/// Returns whether the type of a member is in `types` and, if the member contains primitives, the type of each of them
/// is too.
///
/// Returns `true` for a member that contains no output of the mesh shader.
fn has_output_types(types: &UniqueArena<Type>, member: &StructMember) -> bool
    ensures { IsTrue result ↔ HasOutputTypes types.now member.now }
{
    let Some(output) = output_of(member) else {
        return true;
    };
    if member.ty.index() >= types.len() {
        return false;
    }
    match output {
        MeshOutput::Primitives => elements_of(&types[member.ty].inner).ty.index() < types.len(),
        _ => true,
    }
}
