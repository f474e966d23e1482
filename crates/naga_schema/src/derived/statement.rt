// Made by tests/derive from the declarations of naga_kinds and naga_ir.
//! What naga_ir declares in statement.rt.

use crate::derived::kind_leaves::{COLLECTIVE_OPERATION, SUBGROUP_OPERATION};
use crate::derived::type_name::TypeName;
use crate::schema::Presence::{Optional, Required};
use crate::schema::{Field, Variant};
use crate::tables::leaves::{BARRIER, BOOLEAN, HANDLE};

/// The fields of `SwitchCase`.
pub(crate) static SWITCH_CASE: [Field; 3] = [
    ("value", Required, TypeName::SwitchValue),
    ("body", Required, TypeName::Block),
    ("fall_through", Required, BOOLEAN),
];

/// The fields of `RayQueryFunction::Initialize`.
pub(crate) static RAY_QUERY_FUNCTION_INITIALIZE: [Field; 2] = [
    ("acceleration_structure", Required, HANDLE),
    ("descriptor", Required, HANDLE),
];

/// The fields of `RayQueryFunction::Proceed`.
pub(crate) static RAY_QUERY_FUNCTION_PROCEED: [Field; 1] = [("result", Required, HANDLE)];

/// The fields of `RayQueryFunction::GenerateIntersection`.
pub(crate) static RAY_QUERY_FUNCTION_GENERATE_INTERSECTION: [Field; 1] = [(
    "hit_t", Required, HANDLE,
)];

/// The variants of `RayQueryFunction` that hold no value.
pub(crate) static RAY_QUERY_FUNCTION_NAMES: [&str; 2] = ["ConfirmIntersection", "Terminate"];

/// The variants of `RayQueryFunction` that hold a value.
pub(crate) static RAY_QUERY_FUNCTION_VARIANTS: [Variant; 3] = [
    ("Initialize", TypeName::RayQueryFunctionInitialize),
    ("Proceed", TypeName::RayQueryFunctionProceed),
    (
        "GenerateIntersection",
        TypeName::RayQueryFunctionGenerateIntersection,
    ),
];

/// The fields of `RayPipelineFunction::TraceRay`.
pub(crate) static RAY_PIPELINE_FUNCTION_TRACE_RAY: [Field; 3] = [
    ("acceleration_structure", Required, HANDLE),
    ("descriptor", Required, HANDLE),
    ("payload", Required, HANDLE),
];

/// The variants of `RayPipelineFunction` that hold no value.
pub(crate) static RAY_PIPELINE_FUNCTION_NAMES: [&str; 0] = [];

/// The variants of `RayPipelineFunction` that hold a value.
pub(crate) static RAY_PIPELINE_FUNCTION_VARIANTS: [Variant; 1] = [(
    "TraceRay",
    TypeName::RayPipelineFunctionTraceRay,
)];

/// The fields of `Statement::If`.
pub(crate) static STATEMENT_IF: [Field; 3] = [
    ("condition", Required, HANDLE),
    ("accept", Required, TypeName::Block),
    ("reject", Required, TypeName::Block),
];

/// The fields of `Statement::Switch`.
pub(crate) static STATEMENT_SWITCH: [Field; 2] = [
    ("selector", Required, HANDLE),
    ("cases", Required, TypeName::SwitchCases),
];

/// The fields of `Statement::Loop`.
pub(crate) static STATEMENT_LOOP: [Field; 3] = [
    ("body", Required, TypeName::Block),
    ("continuing", Required, TypeName::Block),
    ("break_if", Optional, HANDLE),
];

/// The fields of `Statement::Return`.
pub(crate) static STATEMENT_RETURN: [Field; 1] = [("value", Optional, HANDLE)];

/// The fields of `Statement::Store`.
pub(crate) static STATEMENT_STORE: [Field; 2] = [
    ("pointer", Required, HANDLE),
    ("value", Required, HANDLE),
];

/// The fields of `Statement::ImageStore`.
pub(crate) static STATEMENT_IMAGE_STORE: [Field; 4] = [
    ("image", Required, HANDLE),
    ("coordinate", Required, HANDLE),
    ("array_index", Optional, HANDLE),
    ("value", Required, HANDLE),
];

/// The fields of `Statement::Atomic`.
pub(crate) static STATEMENT_ATOMIC: [Field; 4] = [
    ("pointer", Required, HANDLE),
    ("fun", Required, TypeName::AtomicFunction),
    ("value", Required, HANDLE),
    ("result", Optional, HANDLE),
];

/// The fields of `Statement::ImageAtomic`.
pub(crate) static STATEMENT_IMAGE_ATOMIC: [Field; 5] = [
    ("image", Required, HANDLE),
    ("coordinate", Required, HANDLE),
    ("array_index", Optional, HANDLE),
    ("fun", Required, TypeName::AtomicFunction),
    ("value", Required, HANDLE),
];

/// The fields of `Statement::WorkGroupUniformLoad`.
pub(crate) static STATEMENT_WORK_GROUP_UNIFORM_LOAD: [Field; 2] = [
    ("pointer", Required, HANDLE),
    ("result", Required, HANDLE),
];

/// The fields of `Statement::Call`.
pub(crate) static STATEMENT_CALL: [Field; 3] = [
    ("function", Required, HANDLE),
    ("arguments", Required, TypeName::Handles),
    ("result", Optional, HANDLE),
];

/// The fields of `Statement::RayQuery`.
pub(crate) static STATEMENT_RAY_QUERY: [Field; 2] = [
    ("query", Required, HANDLE),
    ("fun", Required, TypeName::RayQueryFunction),
];

/// The fields of `Statement::SubgroupBallot`.
pub(crate) static STATEMENT_SUBGROUP_BALLOT: [Field; 2] = [
    ("result", Required, HANDLE),
    ("predicate", Optional, HANDLE),
];

/// The fields of `Statement::SubgroupGather`.
pub(crate) static STATEMENT_SUBGROUP_GATHER: [Field; 3] = [
    ("mode", Required, TypeName::GatherMode),
    ("argument", Required, HANDLE),
    ("result", Required, HANDLE),
];

/// The fields of `Statement::SubgroupCollectiveOperation`.
pub(crate) static STATEMENT_SUBGROUP_COLLECTIVE_OPERATION: [Field; 4] = [
    ("op", Required, SUBGROUP_OPERATION),
    ("collective_op", Required, COLLECTIVE_OPERATION),
    ("argument", Required, HANDLE),
    ("result", Required, HANDLE),
];

/// The fields of `Statement::CooperativeStore`.
pub(crate) static STATEMENT_COOPERATIVE_STORE: [Field; 2] = [
    ("target", Required, HANDLE),
    ("data", Required, TypeName::CooperativeData),
];

/// The variants of `Statement` that hold no value.
pub(crate) static STATEMENT_NAMES: [&str; 3] = ["Break", "Continue", "Kill"];

/// The variants of `Statement` that hold a value.
pub(crate) static STATEMENT_VARIANTS: [Variant; 20] = [
    ("Block", TypeName::Block),
    ("If", TypeName::StatementIf),
    ("Switch", TypeName::StatementSwitch),
    ("Loop", TypeName::StatementLoop),
    ("Emit", TypeName::Range),
    ("Return", TypeName::StatementReturn),
    ("ControlBarrier", BARRIER),
    ("MemoryBarrier", BARRIER),
    ("Store", TypeName::StatementStore),
    ("ImageStore", TypeName::StatementImageStore),
    ("Atomic", TypeName::StatementAtomic),
    ("ImageAtomic", TypeName::StatementImageAtomic),
    (
        "WorkGroupUniformLoad",
        TypeName::StatementWorkGroupUniformLoad,
    ),
    ("Call", TypeName::StatementCall),
    ("RayQuery", TypeName::StatementRayQuery),
    ("RayPipelineFunction", TypeName::RayPipelineFunction),
    ("SubgroupBallot", TypeName::StatementSubgroupBallot),
    ("SubgroupGather", TypeName::StatementSubgroupGather),
    (
        "SubgroupCollectiveOperation",
        TypeName::StatementSubgroupCollectiveOperation,
    ),
    ("CooperativeStore", TypeName::StatementCooperativeStore),
];
