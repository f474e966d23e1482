//! Parts of what is read and taken: some fields of a function, an entry point, a module or its doc comments.
//!
//! A function that reads all fields of a large value would own those read before at each field that is missing, and its
//! proof would take minutes. So each part is read by a function of its own.
use indexmap::IndexMap;
use naga_arena::{Arena, Handle};
use naga_ir::{
    Block, Constant, DocComments, EntryPoint, Expression, Function, FunctionArgument,
    FunctionResult, GlobalVariable, LocalVariable, MeshStageInfo, NamedExpressions, Override,
    SpecialTypes, Type,
};
use naga_kinds::{DiagnosticFilterNode, EarlyDepthTest, ShaderStage};

/// The fields of a function that its callers need.
#[derive(Drop)]
pub(crate) struct Signature {
    pub name: Option<String>,
    pub arguments: Vec<FunctionArgument>,
    pub result: Option<FunctionResult>,
}

/// The other fields of a function.
pub(crate) struct Content {
    pub local_variables: Arena<LocalVariable>,
    pub expressions: Arena<Expression>,
    pub named_expressions: NamedExpressions,
    pub body: Block,
    pub diagnostic_filter_leaf: Option<Handle<DiagnosticFilterNode>>,
}

/// The fields of an entry point that say how it is invoked.
#[derive(Drop)]
pub(crate) struct Invocation {
    pub name: String,
    pub stage: ShaderStage,
    pub early_depth_test: Option<EarlyDepthTest>,
    pub workgroup_size: [u32; 3],
    pub workgroup_size_overrides: Option<[Option<Handle<Expression>>; 3]>,
}

/// The other fields of an entry point.
pub(crate) struct Work {
    pub function: Function,
    pub mesh_info: Option<MeshStageInfo>,
    pub task_payload: Option<Handle<GlobalVariable>>,
    pub incoming_ray_payload: Option<Handle<GlobalVariable>>,
}

/// The fields of doc comments before those of functions.
#[derive(Drop)]
pub(crate) struct FirstComments {
    pub types: IndexMap<Handle<Type>, Vec<String>>,
    pub struct_members: IndexMap<(Handle<Type>, usize), Vec<String>>,
    pub entry_points: IndexMap<usize, Vec<String>>,
}

/// The other fields of doc comments.
pub(crate) struct LastComments {
    pub functions: IndexMap<Handle<Function>, Vec<String>>,
    pub constants: IndexMap<Handle<Constant>, Vec<String>>,
    pub global_variables: IndexMap<Handle<GlobalVariable>, Vec<String>>,
    pub module: Vec<String>,
}

/// The fields of a module between its types and its functions.
#[derive(Drop)]
pub(crate) struct Declarations {
    pub special_types: SpecialTypes,
    pub constants: Arena<Constant>,
    pub overrides: Arena<Override>,
    pub global_variables: Arena<GlobalVariable>,
    pub global_expressions: Arena<Expression>,
}

/// The fields of a module from its functions on.
pub(crate) struct Definitions {
    pub functions: Arena<Function>,
    pub entry_points: Vec<EntryPoint>,
    pub diagnostic_filters: Arena<DiagnosticFilterNode>,
    pub diagnostic_filter_leaf: Option<Handle<DiagnosticFilterNode>>,
    pub doc_comments: Option<Box<DocComments>>,
}
