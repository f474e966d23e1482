// Made by tests/derive from the declarations of naga_kinds and naga_ir.
//! What naga_ir declares in module.rt.

use crate::derived::kind_leaves::{MESH_OUTPUT_TOPOLOGY, SHADER_STAGE};
use crate::derived::type_name::TypeName;
use crate::schema::Field;
use crate::schema::Presence::{Optional, Required};
use crate::tables::leaves::{HANDLE, MEMORY_DECORATIONS, SHORT, TEXT, WORD};

/// The fields of `Override`.
pub(crate) static OVERRIDE: [Field; 4] = [
    ("name", Optional, TEXT),
    ("id", Optional, SHORT),
    ("ty", Required, HANDLE),
    ("init", Optional, HANDLE),
];

/// The fields of `Constant`.
pub(crate) static CONSTANT: [Field; 3] = [
    ("name", Optional, TEXT),
    ("ty", Required, HANDLE),
    ("init", Required, HANDLE),
];

/// The fields of `GlobalVariable`.
pub(crate) static GLOBAL_VARIABLE: [Field; 6] = [
    ("name", Optional, TEXT),
    ("space", Required, TypeName::AddressSpace),
    ("binding", Optional, TypeName::ResourceBinding),
    ("ty", Required, HANDLE),
    ("init", Optional, HANDLE),
    ("memory_decorations", Required, MEMORY_DECORATIONS),
];

/// The fields of `LocalVariable`.
pub(crate) static LOCAL_VARIABLE: [Field; 3] = [
    ("name", Optional, TEXT),
    ("ty", Required, HANDLE),
    ("init", Optional, HANDLE),
];

/// The fields of `FunctionArgument`.
pub(crate) static FUNCTION_ARGUMENT: [Field; 3] = [
    ("name", Optional, TEXT),
    ("ty", Required, HANDLE),
    ("binding", Optional, TypeName::Binding),
];

/// The fields of `FunctionResult`.
pub(crate) static FUNCTION_RESULT: [Field; 2] = [
    ("ty", Required, HANDLE),
    ("binding", Optional, TypeName::Binding),
];

/// The fields of `Function`.
pub(crate) static FUNCTION: [Field; 8] = [
    ("name", Optional, TEXT),
    ("arguments", Required, TypeName::FunctionArguments),
    ("result", Optional, TypeName::FunctionResult),
    ("local_variables", Required, TypeName::LocalVariables),
    ("expressions", Required, TypeName::Expressions),
    ("named_expressions", Required, TypeName::NamedExpressions),
    ("body", Required, TypeName::Block),
    ("diagnostic_filter_leaf", Optional, HANDLE),
];

/// The fields of `EntryPoint`.
pub(crate) static ENTRY_POINT: [Field; 9] = [
    ("name", Required, TEXT),
    ("stage", Required, SHADER_STAGE),
    ("early_depth_test", Optional, TypeName::EarlyDepthTest),
    ("workgroup_size", Required, TypeName::WorkgroupSize),
    (
        "workgroup_size_overrides",
        Optional,
        TypeName::WorkgroupSizeOverrides,
    ),
    ("function", Required, TypeName::Function),
    ("mesh_info", Optional, TypeName::MeshStageInfo),
    ("task_payload", Optional, HANDLE),
    ("incoming_ray_payload", Optional, HANDLE),
];

/// The fields of `MeshStageInfo`.
pub(crate) static MESH_STAGE_INFO: [Field; 8] = [
    ("topology", Required, MESH_OUTPUT_TOPOLOGY),
    ("max_vertices", Required, WORD),
    ("max_vertices_override", Optional, HANDLE),
    ("max_primitives", Required, WORD),
    ("max_primitives_override", Optional, HANDLE),
    ("vertex_output_type", Required, HANDLE),
    ("primitive_output_type", Required, HANDLE),
    ("output_variable", Required, HANDLE),
];

/// The fields of `SpecialTypes`.
pub(crate) static SPECIAL_TYPES: [Field; 6] = [
    ("ray_desc", Optional, HANDLE),
    ("ray_intersection", Optional, HANDLE),
    ("ray_vertex_return", Optional, HANDLE),
    ("external_texture_params", Optional, HANDLE),
    ("external_texture_transfer_function", Optional, HANDLE),
    ("predeclared_types", Required, TypeName::EmptyMap),
];

/// The fields of `DocComments`.
pub(crate) static DOC_COMMENTS: [Field; 7] = [
    ("types", Required, TypeName::HandleComments),
    ("struct_members", Required, TypeName::EmptyMap),
    ("entry_points", Required, TypeName::PositionComments),
    ("functions", Required, TypeName::HandleComments),
    ("constants", Required, TypeName::HandleComments),
    ("global_variables", Required, TypeName::HandleComments),
    ("module", Required, TypeName::Lines),
];

/// The fields of `Module`.
pub(crate) static MODULE: [Field; 11] = [
    ("types", Required, TypeName::Types),
    ("special_types", Required, TypeName::SpecialTypes),
    ("constants", Required, TypeName::Constants),
    ("overrides", Required, TypeName::Overrides),
    ("global_variables", Required, TypeName::GlobalVariables),
    ("global_expressions", Required, TypeName::Expressions),
    ("functions", Required, TypeName::Functions),
    ("entry_points", Required, TypeName::EntryPoints),
    ("diagnostic_filters", Required, TypeName::DiagnosticFilters),
    ("diagnostic_filter_leaf", Optional, HANDLE),
    ("doc_comments", Optional, TypeName::DocComments),
];
