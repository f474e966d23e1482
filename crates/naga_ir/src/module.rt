//! A module and its declarations: overrides, constants, variables, functions and entry points.
ghost use Rattle.std.specs.Prelude.{◌≡◌, ◌<◌, IfOk, length};
ghost use Rattle.std.specs.List.{AllZip};
ghost use Rattle.naga_ir.specs.Chain.{ChainsPrecede, OriginatesIn};
ghost use Rattle.naga_ir.specs.Module.{IsEmptyFunction, HasNoSpecialTypes, HasNoComments, IsEmptyModule};

mod mesh_output;
mod uses;

use crate::block::Block;
use crate::chains::originating_global;
use crate::expression::Expression;
use crate::global_ctx::GlobalCtx;
use crate::types::Type;
use indexmap::IndexMap;
use naga_arena::{Arena, Handle, TryClone, UniqueArena, clone_each};
use naga_kinds::{
    AddressSpace, Binding, DiagnosticFilterNode, EarlyDepthTest, MemoryDecorations,
    MeshOutputTopology, PredeclaredType, ResourceBinding, ShaderStage,
};
use std::alloc::{AllocError, Global};
pub use uses::RayTracingUses;

/// A constant whose value can be set when the pipeline is created.
#[derive(Clone, Debug, PartialEq, Drop)]
pub struct Override {
    pub name: Option<String>,
    /// The number by which the pipeline refers to the override, if it does not refer to it by its name.
    pub id: Option<u16>,
    pub ty: Handle<Type>,
    /// The value that is used if the pipeline sets none, in the module's `global_expressions`.
    pub init: Option<Handle<Expression>>,
}

/// A value that is known when the shader is translated.
#[derive(Clone, Debug, PartialEq, Drop)]
pub struct Constant {
    pub name: Option<String>,
    pub ty: Handle<Type>,
    /// The value, in the module's `global_expressions`.
    pub init: Handle<Expression>,
}

/// A variable of the module.
#[derive(Clone, Debug, PartialEq, Drop)]
pub struct GlobalVariable {
    pub name: Option<String>,
    /// The address space in which the variable is stored.
    pub space: AddressSpace,
    /// The binding at which the pipeline finds the variable, if it is a resource.
    pub binding: Option<ResourceBinding>,
    pub ty: Handle<Type>,
    /// The initial value, in the module's `global_expressions`.
    pub init: Option<Handle<Expression>>,
    /// The decorations that determine how other invocations see what is written to the variable.
    pub memory_decorations: MemoryDecorations,
}

/// A variable of a function.
// derive: not renamed
#[derive(Clone, Debug, Drop)]
pub struct LocalVariable {
    pub name: Option<String>,
    pub ty: Handle<Type>,
    /// The initial value, in the function's own expressions. It must be known once the pipeline is created.
    pub init: Option<Handle<Expression>>,
}

/// The names of the expressions of a function that have a name in the source.
pub type NamedExpressions = IndexMap<Handle<Expression>, String>;

/// A parameter of a function.
#[derive(Clone, Debug, Drop)]
pub struct FunctionArgument {
    pub name: Option<String>,
    pub ty: Handle<Type>,
    /// The binding of the argument of an entry point, unless the argument is a structure whose members have bindings.
    pub binding: Option<Binding>,
}

/// The result of a function.
#[derive(Clone, Debug, Drop)]
pub struct FunctionResult {
    pub ty: Handle<Type>,
    /// The binding of the result of an entry point, unless the result is a structure whose members have bindings.
    pub binding: Option<Binding>,
}

/// A function of the module.
#[derive(Debug, Drop)]
pub struct Function {
    pub name: Option<String>,
    pub arguments: Vec<FunctionArgument>,
    pub result: Option<FunctionResult>,
    pub local_variables: Arena<LocalVariable>,
    /// The expressions that the body computes. Each expression comes after the expressions that it uses.
    pub expressions: Arena<Expression>,
    pub named_expressions: NamedExpressions,
    pub body: Block,
    /// The innermost of the diagnostic filters that apply to the function, in the module's `diagnostic_filters`.
    pub diagnostic_filter_leaf: Option<Handle<DiagnosticFilterNode>>,
}

impl Function {
    /// Creates a function that has no name, takes and returns nothing, and does nothing. Nothing is allocated.
    pub fn new(alloc: Global) -> Self
        ensures { IsEmptyFunction result }
    {
        Function {
            name: None,
            arguments: Vec::new(alloc),
            result: None,
            local_variables: Arena::new(alloc),
            expressions: Arena::new(alloc),
            named_expressions: IndexMap::new(alloc),
            body: Block::new(alloc),
            diagnostic_filter_leaf: None,
        }
    }

    /// Returns the global variable that a pointer leads into, or `None` if it leads into something else.
    ///
    /// The path of the pointer goes through each `Access` and `AccessIndex` to its base. The global variable is at the
    /// end of this path. If the path ends in another expression, the result is `None`.
    ///
    /// The caller must ensure that `pointer` is in [`expressions`](Self::expressions), and that
    /// [`chains_precede`](crate::chains_precede) returns `true` for `expressions`.
    ///
    /// Differs from naga: naga panics or does not terminate if these preconditions are not met.
    pub fn originating_global(&self, pointer: Handle<Expression>) -> Option<Handle<GlobalVariable>>
        requires within { pointer < length self.now.expressions }
        requires precede { ChainsPrecede self.now.expressions }
        ensures { OriginatesIn self.now.expressions pointer result }
    {
        originating_global(&self.expressions, pointer)
    }
}

impl TryClone for Function {
    ghost clone_gives = { λ source clone.
        ⟦<Option<String> as TryClone>⟧.clone_gives source.name clone.name
        × ⟦<Vec<FunctionArgument> as TryClone>⟧.clone_gives source.arguments clone.arguments
        × ⟦<Option<FunctionResult> as TryClone>⟧.clone_gives source.result clone.result
        × ⟦<Arena<LocalVariable> as TryClone>⟧.clone_gives source.local_variables clone.local_variables
        × ⟦<Arena<Expression> as TryClone>⟧.clone_gives source.expressions clone.expressions
        × ⟦<NamedExpressions as TryClone>⟧.clone_gives source.named_expressions clone.named_expressions
        × ⟦<Block as TryClone>⟧.clone_gives source.body clone.body
        × (clone.diagnostic_filter_leaf ≡ source.diagnostic_filter_leaf) };

    fn clone(&self) -> Result<Self, AllocError> {
        let (name, arguments, result) = try_clone_three(&self.name, &self.arguments, &self.result)?;
        let (local_variables, expressions, named_expressions) = try_clone_three(
            &self.local_variables,
            &self.expressions,
            &self.named_expressions,
        )?;
        let body = TryClone::clone(&self.body)?;
        Ok(Function {
            name,
            arguments,
            result,
            local_variables,
            expressions,
            named_expressions,
            body,
            diagnostic_filter_leaf: self.diagnostic_filter_leaf,
        })
    }
}

/// A function that a stage of a pipeline runs.
///
/// Each argument, and the result, has a binding, or is a structure whose members all have one.
#[derive(Debug, Drop)]
pub struct EntryPoint {
    /// The name by which a pipeline selects the entry point, which is unique among the entry points of its stage.
    pub name: String,
    pub stage: ShaderStage,
    /// The early depth test of a fragment stage, which specifies whether depth is tested before the stage runs.
    pub early_depth_test: Option<EarlyDepthTest>,
    /// The number of invocations of a workgroup in each dimension, for the stages that have workgroups.
    pub workgroup_size: [u32; 3],
    /// The expressions that replace these numbers once the pipeline is created, in the module's `global_expressions`.
    pub workgroup_size_overrides: Option<[Option<Handle<Expression>>; 3]>,
    pub function: Function,
    /// Information about the output of a mesh stage.
    pub mesh_info: Option<MeshStageInfo>,
    /// The variable that a task stage passes to its mesh stage.
    pub task_payload: Option<Handle<GlobalVariable>>,
    /// The variable that a ray passes to the stage that it runs.
    pub incoming_ray_payload: Option<Handle<GlobalVariable>>,
}

impl TryClone for EntryPoint {
    ghost clone_gives = { λ source clone.
        ⟦<String as TryClone>⟧.clone_gives source.name clone.name
        × ⟦<Function as TryClone>⟧.clone_gives source.function clone.function
        × ⟦<Option<MeshStageInfo> as TryClone>⟧.clone_gives source.mesh_info clone.mesh_info
        × (clone.stage ≡ source.stage)
        × (clone.early_depth_test ≡ source.early_depth_test)
        × (clone.workgroup_size ≡ source.workgroup_size)
        × (clone.workgroup_size_overrides ≡ source.workgroup_size_overrides)
        × (clone.task_payload ≡ source.task_payload)
        × (clone.incoming_ray_payload ≡ source.incoming_ray_payload) };

    fn clone(&self) -> Result<Self, AllocError> {
        Ok(EntryPoint {
            name: TryClone::clone(&self.name)?,
            stage: self.stage,
            early_depth_test: self.early_depth_test,
            workgroup_size: self.workgroup_size,
            workgroup_size_overrides: self.workgroup_size_overrides,
            function: TryClone::clone(&self.function)?,
            mesh_info: TryClone::clone(&self.mesh_info)?,
            task_payload: self.task_payload,
            incoming_ray_payload: self.incoming_ray_payload,
        })
    }
}

/// Information about the output of a mesh stage.
#[derive(Clone, Debug, PartialEq, Eq, Drop)]
pub struct MeshStageInfo {
    pub topology: MeshOutputTopology,
    /// The maximum number of vertices.
    pub max_vertices: u32,
    /// The expression that replaces `max_vertices` once the pipeline is created.
    pub max_vertices_override: Option<Handle<Expression>>,
    /// The maximum number of primitives.
    pub max_primitives: u32,
    /// The expression that replaces `max_primitives` once the pipeline is created.
    pub max_primitives_override: Option<Handle<Expression>>,
    /// The type of each vertex.
    pub vertex_output_type: Handle<Type>,
    /// The type of each primitive.
    pub primitive_output_type: Handle<Type>,
    /// The variable that contains the vertices, the primitives and their counts.
    pub output_variable: Handle<GlobalVariable>,
}

/// The types that the language itself names and that the module uses.
#[derive(Clone, Debug, Drop)]
pub struct SpecialTypes {
    /// WGSL's `RayDesc`, the structure that describes a ray and how it is traced. It is the type of the `descriptor`
    /// with which a ray query is initialized or a ray is traced, so a module that does either has it.
    pub ray_desc: Option<Handle<Type>>,
    /// WGSL's `RayIntersection`, the structure that describes what a ray hit. It is the type of
    /// `RayQueryGetIntersection`, so a module with such an expression has it.
    pub ray_intersection: Option<Handle<Type>>,
    /// The array of the three corners of the triangle that a ray hit. It is the type of `RayQueryVertexPositions`, so a
    /// module with such an expression has it.
    pub ray_vertex_return: Option<Handle<Type>>,
    /// The structure of the parameters with which a back end converts the planes of an
    /// [`External`](naga_kinds::ImageClass::External) image to colours: two conversion matrices, two transfer
    /// functions, two coordinate transformations, the size and the number of planes. A module with such an image has
    /// this type and `external_texture_transfer_function`.
    pub external_texture_params: Option<Handle<Type>>,
    /// The structure of a transfer function, which is four floats. `external_texture_params` has two members of this
    /// type.
    pub external_texture_transfer_function: Option<Handle<Type>>,
    /// The result types of `modf`, `frexp` and the atomic exchange that compares, each under the function and the
    /// operands for which it was created.
    pub predeclared_types: IndexMap<PredeclaredType, Handle<Type>>,
}

impl SpecialTypes {
    /// Creates a `SpecialTypes` without any types. Nothing is allocated.
    pub fn new(alloc: Global) -> Self
        ensures { HasNoSpecialTypes result }
    {
        SpecialTypes {
            ray_desc: None,
            ray_intersection: None,
            ray_vertex_return: None,
            external_texture_params: None,
            external_texture_transfer_function: None,
            predeclared_types: IndexMap::new(alloc),
        }
    }
}

/// The doc comments of a source on its declarations, as lists of lines.
#[derive(Debug, Drop)]
pub struct DocComments {
    pub types: IndexMap<Handle<Type>, Vec<String>>,
    /// The keys are the structure and the position of the member.
    pub struct_members: IndexMap<(Handle<Type>, usize), Vec<String>>,
    /// The keys are the positions of the entry points.
    pub entry_points: IndexMap<usize, Vec<String>>,
    pub functions: IndexMap<Handle<Function>, Vec<String>>,
    pub constants: IndexMap<Handle<Constant>, Vec<String>>,
    pub global_variables: IndexMap<Handle<GlobalVariable>, Vec<String>>,
    /// The comments before all declarations.
    pub module: Vec<String>,
}

impl DocComments {
    /// Creates a `DocComments` without any comments. Nothing is allocated.
    pub fn new(alloc: Global) -> Self
        ensures { HasNoComments result }
    {
        DocComments {
            types: IndexMap::new(alloc),
            struct_members: IndexMap::new(alloc),
            entry_points: IndexMap::new(alloc),
            functions: IndexMap::new(alloc),
            constants: IndexMap::new(alloc),
            global_variables: IndexMap::new(alloc),
            module: Vec::new(alloc),
        }
    }
}

/// The comments on declarations that have keys of type `K`.
type CommentsOn<K> = IndexMap<K, Vec<String>>;

impl Clone for DocComments {
    ghost is_clone = { λ source clone.
        ⟦<CommentsOn<Handle<Type>> as Clone>⟧.is_clone source.types clone.types
        × ⟦<CommentsOn<(Handle<Type>, usize)> as Clone>⟧.is_clone source.struct_members clone.struct_members
        × ⟦<CommentsOn<usize> as Clone>⟧.is_clone source.entry_points clone.entry_points
        × ⟦<CommentsOn<Handle<Function>> as Clone>⟧.is_clone source.functions clone.functions
        × ⟦<CommentsOn<Handle<Constant>> as Clone>⟧.is_clone source.constants clone.constants
        × ⟦<CommentsOn<Handle<GlobalVariable>> as Clone>⟧.is_clone source.global_variables clone.global_variables
        × ⟦<Vec<String> as Clone>⟧.is_clone source.«module» clone.«module» };

    fn clone(&self) -> Result<Self, AllocError> {
        let (types, struct_members, entry_points) = clone_three(
            &self.types,
            &self.struct_members,
            &self.entry_points,
        )?;
        let (functions, constants, global_variables) = clone_three(
            &self.functions,
            &self.constants,
            &self.global_variables,
        )?;
        let module = Clone::clone(&self.module)?;
        Ok(DocComments {
            types,
            struct_members,
            entry_points,
            functions,
            constants,
            global_variables,
            module,
        })
    }
}

/// A shader: functions, some of which are entry points, and everything that they use.
///
/// In a valid module, an element of an arena refers only to earlier elements of that arena. Types may refer to global
/// expressions, and global expressions to types: there is one order of both, with the elements of each arena in their
/// own order, in which each element refers only to earlier ones. This is a stronger condition than the absence of
/// cycles.
#[derive(Debug, Drop)]
pub struct Module {
    pub types: UniqueArena<Type>,
    pub special_types: SpecialTypes,
    pub constants: Arena<Constant>,
    pub overrides: Arena<Override>,
    pub global_variables: Arena<GlobalVariable>,
    /// The values of constants, overrides and global variables, and all expressions that they are made of.
    pub global_expressions: Arena<Expression>,
    /// The functions. Each function comes before the functions that call it.
    pub functions: Arena<Function>,
    pub entry_points: Vec<EntryPoint>,
    /// All diagnostic filters of the module. Each refers to the filter that encloses it.
    pub diagnostic_filters: Arena<DiagnosticFilterNode>,
    /// The innermost of the filters that apply to the whole module.
    pub diagnostic_filter_leaf: Option<Handle<DiagnosticFilterNode>>,
    pub doc_comments: Option<Box<DocComments>>,
}

impl Module {
    /// Creates a module without declarations. Nothing is allocated.
    pub fn new(alloc: Global) -> Self
        ensures { IsEmptyModule result }
    {
        Module {
            types: UniqueArena::new(alloc),
            special_types: SpecialTypes::new(alloc),
            constants: Arena::new(alloc),
            overrides: Arena::new(alloc),
            global_variables: Arena::new(alloc),
            global_expressions: Arena::new(alloc),
            functions: Arena::new(alloc),
            entry_points: Vec::new(alloc),
            diagnostic_filters: Arena::new(alloc),
            diagnostic_filter_leaf: None,
            doc_comments: None,
        }
    }

    /// Returns the context in which constant expressions are looked up.
    pub fn to_ctx(&self) -> GlobalCtx<'_>
        ensures types { result.types.now ≡ self.now.types }
        ensures constants { result.constants.now ≡ self.now.constants }
        ensures overrides { result.overrides.now ≡ self.now.overrides }
        ensures global_expressions { result.global_expressions.now ≡ self.now.global_expressions }
    {
        GlobalCtx {
            types: &self.types,
            constants: &self.constants,
            overrides: &self.overrides,
            global_expressions: &self.global_expressions,
        }
    }
}

impl TryClone for Module {
    ghost clone_gives = { λ source clone.
        ⟦<UniqueArena<Type> as TryClone>⟧.clone_gives source.types clone.types
        × ⟦<SpecialTypes as TryClone>⟧.clone_gives source.special_types clone.special_types
        × ⟦<Arena<Constant> as TryClone>⟧.clone_gives source.constants clone.constants
        × ⟦<Arena<Override> as TryClone>⟧.clone_gives source.overrides clone.overrides
        × ⟦<Arena<GlobalVariable> as TryClone>⟧.clone_gives source.global_variables clone.global_variables
        × ⟦<Arena<Expression> as TryClone>⟧.clone_gives source.global_expressions clone.global_expressions
        × ⟦<Arena<Function> as TryClone>⟧.clone_gives source.functions clone.functions
        × AllZip ⟦<EntryPoint as TryClone>⟧.clone_gives source.entry_points.items clone.entry_points.items
        × ⟦<Arena<DiagnosticFilterNode> as TryClone>⟧.clone_gives source.diagnostic_filters clone.diagnostic_filters
        × ⟦<Option<Box<DocComments>> as TryClone>⟧.clone_gives source.doc_comments clone.doc_comments
        × (clone.diagnostic_filter_leaf ≡ source.diagnostic_filter_leaf) };

    fn clone(&self) -> Result<Self, AllocError> {
        let alloc = *self.entry_points.allocator();
        let (types, special_types, doc_comments) = try_clone_three(
            &self.types,
            &self.special_types,
            &self.doc_comments,
        )?;
        let (constants, overrides, global_variables) = try_clone_three(
            &self.constants,
            &self.overrides,
            &self.global_variables,
        )?;
        let (global_expressions, functions, diagnostic_filters) = try_clone_three(
            &self.global_expressions,
            &self.functions,
            &self.diagnostic_filters,
        )?;
        let entry_points = clone_each(alloc, self.entry_points.as_slice())?;
        Ok(Module {
            types,
            special_types,
            constants,
            overrides,
            global_variables,
            global_expressions,
            functions,
            entry_points,
            diagnostic_filters,
            diagnostic_filter_leaf: self.diagnostic_filter_leaf,
            doc_comments,
        })
    }
}

/// Returns clones of three values, or `Err` if allocation fails. A clone that takes few steps is proved quickly.
fn clone_three<A: Clone, B: Clone, C: Clone>(
    first: &A,
    second: &B,
    third: &C,
) -> Result<(A, B, C), AllocError>
    ensures { IfOk result (λ clones. A.is_clone first.now clones.0
        × B.is_clone second.now clones.1 × C.is_clone third.now clones.2) }
{
    let first = Clone::clone(first)?;
    let second = Clone::clone(second)?;
    let third = Clone::clone(third)?;
    Ok((first, second, third))
}

/// Returns clones of three values that need not be `Clone`, or `Err` if allocation fails.
fn try_clone_three<A: TryClone + Drop, B: TryClone + Drop, C: TryClone + Drop>(
    first: &A,
    second: &B,
    third: &C,
) -> Result<(A, B, C), AllocError>
    ensures { IfOk result (λ clones. A.clone_gives first.now clones.0
        × B.clone_gives second.now clones.1 × C.clone_gives third.now clones.2) }
{
    let first = TryClone::clone(first)?;
    let second = TryClone::clone(second)?;
    let third = TryClone::clone(third)?;
    Ok((first, second, third))
}
