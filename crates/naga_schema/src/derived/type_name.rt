// Made by tests/derive from the declarations of naga_kinds and naga_ir.
//! The types that have a JSON, and what the JSON of each consists of.
ghost use Rattle.std.specs.Prelude.{◌≡◌};
ghost use Rattle.naga_schema.specs.Shape.{shape_view};
ghost use Rattle.naga_schema.specs.derived.Types.{shape_of};

use crate::derived::kind::Kind;
use crate::derived::{expression, kinds, literal, module, statement, types};
use crate::leaf::Leaf;
use crate::schema::{Length, Schema};
use crate::tables::objects;

/// A type whose values have a JSON.
#[derive(Clone, Copy, Debug, PartialEq, Eq)]
pub enum TypeName {
    /// A value that contains no other value.
    Leaf(Leaf),
    /// What `AddressSpace::Storage` contains.
    AddressSpaceStorage,
    /// An `AddressSpace`.
    AddressSpace,
    /// What `Binding::Location` contains.
    BindingLocation,
    /// A `Binding`.
    Binding,
    /// A `ResourceBinding`.
    ResourceBinding,
    /// What `BuiltIn::Position` contains.
    BuiltInPosition,
    /// What `BuiltIn::Barycentric` contains.
    BuiltInBarycentric,
    /// A `BuiltIn`.
    BuiltIn,
    /// A `FilterableTriggeringRule`.
    TriggeringRule,
    /// A `DiagnosticFilter`.
    DiagnosticFilter,
    /// A `DiagnosticFilterNode`.
    DiagnosticFilterNode,
    /// What `EarlyDepthTest::Allow` contains.
    EarlyDepthTestAllow,
    /// An `EarlyDepthTest`.
    EarlyDepthTest,
    /// What `ImageClass::Sampled` contains.
    ImageClassSampled,
    /// What `ImageClass::Depth` contains.
    ImageClassDepth,
    /// What `ImageClass::Storage` contains.
    ImageClassStorage,
    /// An `ImageClass`.
    ImageClass,
    /// A `Scalar`.
    Scalar,
    /// A `SwitchValue`.
    SwitchValue,
    /// What `AtomicFunction::Exchange` contains.
    AtomicFunctionExchange,
    /// An `AtomicFunction`.
    AtomicFunction,
    /// What `SampleLevel::Gradient` contains.
    SampleLevelGradient,
    /// A `SampleLevel`.
    SampleLevel,
    /// What `ImageQuery::Size` contains.
    ImageQuerySize,
    /// An `ImageQuery`.
    ImageQuery,
    /// A `GatherMode`.
    GatherMode,
    /// A `CooperativeData`.
    CooperativeData,
    /// What `Expression::Compose` contains.
    ExpressionCompose,
    /// What `Expression::Access` contains.
    ExpressionAccess,
    /// What `Expression::AccessIndex` contains.
    ExpressionAccessIndex,
    /// What `Expression::Splat` contains.
    ExpressionSplat,
    /// What `Expression::Swizzle` contains.
    ExpressionSwizzle,
    /// What `Expression::Load` contains.
    ExpressionLoad,
    /// What `Expression::ImageSample` contains.
    ExpressionImageSample,
    /// What `Expression::ImageLoad` contains.
    ExpressionImageLoad,
    /// What `Expression::ImageQuery` contains.
    ExpressionImageQuery,
    /// What `Expression::Unary` contains.
    ExpressionUnary,
    /// What `Expression::Binary` contains.
    ExpressionBinary,
    /// What `Expression::Select` contains.
    ExpressionSelect,
    /// What `Expression::Derivative` contains.
    ExpressionDerivative,
    /// What `Expression::Relational` contains.
    ExpressionRelational,
    /// What `Expression::Math` contains.
    ExpressionMath,
    /// What `Expression::As` contains.
    ExpressionAs,
    /// What `Expression::AtomicResult` contains.
    ExpressionAtomicResult,
    /// What `Expression::WorkGroupUniformLoadResult` contains.
    ExpressionWorkGroupUniformLoadResult,
    /// What `Expression::RayQueryVertexPositions` contains.
    ExpressionRayQueryVertexPositions,
    /// What `Expression::RayQueryGetIntersection` contains.
    ExpressionRayQueryGetIntersection,
    /// What `Expression::SubgroupOperationResult` contains.
    ExpressionSubgroupOperationResult,
    /// What `Expression::CooperativeLoad` contains.
    ExpressionCooperativeLoad,
    /// What `Expression::CooperativeMultiplyAdd` contains.
    ExpressionCooperativeMultiplyAdd,
    /// An `Expression`.
    Expression,
    /// A `Literal`.
    Literal,
    /// An `Override`.
    Override,
    /// A `Constant`.
    Constant,
    /// A `GlobalVariable`.
    GlobalVariable,
    /// A `LocalVariable`.
    LocalVariable,
    /// A `FunctionArgument`.
    FunctionArgument,
    /// A `FunctionResult`.
    FunctionResult,
    /// A `Function`.
    Function,
    /// An `EntryPoint`.
    EntryPoint,
    /// A `MeshStageInfo`.
    MeshStageInfo,
    /// A `SpecialTypes`.
    SpecialTypes,
    /// A `DocComments`.
    DocComments,
    /// A `Module`.
    Module,
    /// A `SwitchCase`.
    SwitchCase,
    /// What `RayQueryFunction::Initialize` contains.
    RayQueryFunctionInitialize,
    /// What `RayQueryFunction::Proceed` contains.
    RayQueryFunctionProceed,
    /// What `RayQueryFunction::GenerateIntersection` contains.
    RayQueryFunctionGenerateIntersection,
    /// A `RayQueryFunction`.
    RayQueryFunction,
    /// What `RayPipelineFunction::TraceRay` contains.
    RayPipelineFunctionTraceRay,
    /// A `RayPipelineFunction`.
    RayPipelineFunction,
    /// What `Statement::If` contains.
    StatementIf,
    /// What `Statement::Switch` contains.
    StatementSwitch,
    /// What `Statement::Loop` contains.
    StatementLoop,
    /// What `Statement::Return` contains.
    StatementReturn,
    /// What `Statement::Store` contains.
    StatementStore,
    /// What `Statement::ImageStore` contains.
    StatementImageStore,
    /// What `Statement::Atomic` contains.
    StatementAtomic,
    /// What `Statement::ImageAtomic` contains.
    StatementImageAtomic,
    /// What `Statement::WorkGroupUniformLoad` contains.
    StatementWorkGroupUniformLoad,
    /// What `Statement::Call` contains.
    StatementCall,
    /// What `Statement::RayQuery` contains.
    StatementRayQuery,
    /// What `Statement::SubgroupBallot` contains.
    StatementSubgroupBallot,
    /// What `Statement::SubgroupGather` contains.
    StatementSubgroupGather,
    /// What `Statement::SubgroupCollectiveOperation` contains.
    StatementSubgroupCollectiveOperation,
    /// What `Statement::CooperativeStore` contains.
    StatementCooperativeStore,
    /// A `Statement`.
    Statement,
    /// An `ArraySize`.
    ArraySize,
    /// A `StructMember`.
    StructMember,
    /// A `Type`.
    NagaType,
    /// What `TypeInner::Vector` contains.
    TypeInnerVector,
    /// What `TypeInner::Matrix` contains.
    TypeInnerMatrix,
    /// What `TypeInner::CooperativeMatrix` contains.
    TypeInnerCooperativeMatrix,
    /// What `TypeInner::Pointer` contains.
    TypeInnerPointer,
    /// What `TypeInner::ValuePointer` contains.
    TypeInnerValuePointer,
    /// What `TypeInner::Array` contains.
    TypeInnerArray,
    /// What `TypeInner::Struct` contains.
    TypeInnerStruct,
    /// What `TypeInner::Image` contains.
    TypeInnerImage,
    /// What `TypeInner::Sampler` contains.
    TypeInnerSampler,
    /// What `TypeInner::AccelerationStructure` contains.
    TypeInnerAccelerationStructure,
    /// What `TypeInner::RayQuery` contains.
    TypeInnerRayQuery,
    /// What `TypeInner::BindingArray` contains.
    TypeInnerBindingArray,
    /// A `TypeInner`.
    TypeInner,
    /// A list of handles.
    Handles,
    /// The pattern of a swizzle.
    SwizzlePattern,
    /// A list of function arguments.
    FunctionArguments,
    /// An arena of local variables.
    LocalVariables,
    /// An arena of expressions.
    Expressions,
    /// The names of expressions.
    NamedExpressions,
    /// A `Block`.
    Block,
    /// The number of invocations of a workgroup in each dimension.
    WorkgroupSize,
    /// The expressions that replace the number of invocations.
    WorkgroupSizeOverrides,
    /// An object without members.
    EmptyMap,
    /// A map from handles to comments.
    HandleComments,
    /// A map from positions to comments.
    PositionComments,
    /// The lines of a comment.
    Lines,
    /// An arena of types.
    Types,
    /// An arena of constants.
    Constants,
    /// An arena of overrides.
    Overrides,
    /// An arena of global variables.
    GlobalVariables,
    /// An arena of functions.
    Functions,
    /// A list of entry points.
    EntryPoints,
    /// An arena of diagnostic filters.
    DiagnosticFilters,
    /// A list of switch cases.
    SwitchCases,
    /// A list of struct members.
    StructMembers,
    /// The two names of a rule of a user.
    RuleNames,
    /// A range of expressions.
    Range,
}

impl TypeName {
    /// Returns what the JSON of the type consists of.
    #[tactic(auto, unfolding(crate::specs::derived::Types::shape_of))]
    pub fn schema(self) -> Schema
        ensures { shape_view result ≡ shape_of self }
    {
        match self {
            TypeName::Leaf(leaf) => Schema::Leaf(leaf),
            TypeName::AddressSpaceStorage => Schema::Struct(&kinds::ADDRESS_SPACE_STORAGE),
            TypeName::AddressSpace => Schema::Enum(
                &kinds::ADDRESS_SPACE_NAMES,
                &kinds::ADDRESS_SPACE_VARIANTS,
            ),
            TypeName::BindingLocation => Schema::Struct(&kinds::BINDING_LOCATION),
            TypeName::Binding => Schema::Enum(&kinds::BINDING_NAMES, &kinds::BINDING_VARIANTS),
            TypeName::ResourceBinding => Schema::Struct(&kinds::RESOURCE_BINDING),
            TypeName::BuiltInPosition => Schema::Struct(&kinds::BUILT_IN_POSITION),
            TypeName::BuiltInBarycentric => Schema::Struct(&kinds::BUILT_IN_BARYCENTRIC),
            TypeName::BuiltIn => Schema::Enum(&kinds::BUILT_IN_NAMES, &kinds::BUILT_IN_VARIANTS),
            TypeName::TriggeringRule => Schema::Enum(
                &kinds::TRIGGERING_RULE_NAMES,
                &kinds::TRIGGERING_RULE_VARIANTS,
            ),
            TypeName::DiagnosticFilter => Schema::Struct(&kinds::DIAGNOSTIC_FILTER),
            TypeName::DiagnosticFilterNode => Schema::Struct(&kinds::DIAGNOSTIC_FILTER_NODE),
            TypeName::EarlyDepthTestAllow => Schema::Struct(&kinds::EARLY_DEPTH_TEST_ALLOW),
            TypeName::EarlyDepthTest => Schema::Enum(
                &kinds::EARLY_DEPTH_TEST_NAMES,
                &kinds::EARLY_DEPTH_TEST_VARIANTS,
            ),
            TypeName::ImageClassSampled => Schema::Struct(&kinds::IMAGE_CLASS_SAMPLED),
            TypeName::ImageClassDepth => Schema::Struct(&kinds::IMAGE_CLASS_DEPTH),
            TypeName::ImageClassStorage => Schema::Struct(&kinds::IMAGE_CLASS_STORAGE),
            TypeName::ImageClass => Schema::Enum(
                &kinds::IMAGE_CLASS_NAMES,
                &kinds::IMAGE_CLASS_VARIANTS,
            ),
            TypeName::Scalar => Schema::Struct(&kinds::SCALAR),
            TypeName::SwitchValue => Schema::Enum(
                &kinds::SWITCH_VALUE_NAMES,
                &kinds::SWITCH_VALUE_VARIANTS,
            ),
            TypeName::AtomicFunctionExchange => Schema::Struct(
                &expression::ATOMIC_FUNCTION_EXCHANGE,
            ),
            TypeName::AtomicFunction => Schema::Enum(
                &expression::ATOMIC_FUNCTION_NAMES,
                &expression::ATOMIC_FUNCTION_VARIANTS,
            ),
            TypeName::SampleLevelGradient => Schema::Struct(&expression::SAMPLE_LEVEL_GRADIENT),
            TypeName::SampleLevel => Schema::Enum(
                &expression::SAMPLE_LEVEL_NAMES,
                &expression::SAMPLE_LEVEL_VARIANTS,
            ),
            TypeName::ImageQuerySize => Schema::Struct(&expression::IMAGE_QUERY_SIZE),
            TypeName::ImageQuery => Schema::Enum(
                &expression::IMAGE_QUERY_NAMES,
                &expression::IMAGE_QUERY_VARIANTS,
            ),
            TypeName::GatherMode => Schema::Enum(
                &expression::GATHER_MODE_NAMES,
                &expression::GATHER_MODE_VARIANTS,
            ),
            TypeName::CooperativeData => Schema::Struct(&expression::COOPERATIVE_DATA),
            TypeName::ExpressionCompose => Schema::Struct(&expression::EXPRESSION_COMPOSE),
            TypeName::ExpressionAccess => Schema::Struct(&expression::EXPRESSION_ACCESS),
            TypeName::ExpressionAccessIndex => Schema::Struct(&expression::EXPRESSION_ACCESS_INDEX),
            TypeName::ExpressionSplat => Schema::Struct(&expression::EXPRESSION_SPLAT),
            TypeName::ExpressionSwizzle => Schema::Struct(&expression::EXPRESSION_SWIZZLE),
            TypeName::ExpressionLoad => Schema::Struct(&expression::EXPRESSION_LOAD),
            TypeName::ExpressionImageSample => Schema::Struct(&expression::EXPRESSION_IMAGE_SAMPLE),
            TypeName::ExpressionImageLoad => Schema::Struct(&expression::EXPRESSION_IMAGE_LOAD),
            TypeName::ExpressionImageQuery => Schema::Struct(&expression::EXPRESSION_IMAGE_QUERY),
            TypeName::ExpressionUnary => Schema::Struct(&expression::EXPRESSION_UNARY),
            TypeName::ExpressionBinary => Schema::Struct(&expression::EXPRESSION_BINARY),
            TypeName::ExpressionSelect => Schema::Struct(&expression::EXPRESSION_SELECT),
            TypeName::ExpressionDerivative => Schema::Struct(&expression::EXPRESSION_DERIVATIVE),
            TypeName::ExpressionRelational => Schema::Struct(&expression::EXPRESSION_RELATIONAL),
            TypeName::ExpressionMath => Schema::Struct(&expression::EXPRESSION_MATH),
            TypeName::ExpressionAs => Schema::Struct(&expression::EXPRESSION_AS),
            TypeName::ExpressionAtomicResult => Schema::Struct(
                &expression::EXPRESSION_ATOMIC_RESULT,
            ),
            TypeName::ExpressionWorkGroupUniformLoadResult => Schema::Struct(
                &expression::EXPRESSION_WORK_GROUP_UNIFORM_LOAD_RESULT,
            ),
            TypeName::ExpressionRayQueryVertexPositions => Schema::Struct(
                &expression::EXPRESSION_RAY_QUERY_VERTEX_POSITIONS,
            ),
            TypeName::ExpressionRayQueryGetIntersection => Schema::Struct(
                &expression::EXPRESSION_RAY_QUERY_GET_INTERSECTION,
            ),
            TypeName::ExpressionSubgroupOperationResult => Schema::Struct(
                &expression::EXPRESSION_SUBGROUP_OPERATION_RESULT,
            ),
            TypeName::ExpressionCooperativeLoad => Schema::Struct(
                &expression::EXPRESSION_COOPERATIVE_LOAD,
            ),
            TypeName::ExpressionCooperativeMultiplyAdd => Schema::Struct(
                &expression::EXPRESSION_COOPERATIVE_MULTIPLY_ADD,
            ),
            TypeName::Expression => Schema::Enum(
                &expression::EXPRESSION_NAMES,
                &expression::EXPRESSION_VARIANTS,
            ),
            TypeName::Literal => Schema::Enum(&literal::LITERAL_NAMES, &literal::LITERAL_VARIANTS),
            TypeName::Override => Schema::Struct(&module::OVERRIDE),
            TypeName::Constant => Schema::Struct(&module::CONSTANT),
            TypeName::GlobalVariable => Schema::Struct(&module::GLOBAL_VARIABLE),
            TypeName::LocalVariable => Schema::Struct(&module::LOCAL_VARIABLE),
            TypeName::FunctionArgument => Schema::Struct(&module::FUNCTION_ARGUMENT),
            TypeName::FunctionResult => Schema::Struct(&module::FUNCTION_RESULT),
            TypeName::Function => Schema::Struct(&module::FUNCTION),
            TypeName::EntryPoint => Schema::Struct(&module::ENTRY_POINT),
            TypeName::MeshStageInfo => Schema::Struct(&module::MESH_STAGE_INFO),
            TypeName::SpecialTypes => Schema::Struct(&module::SPECIAL_TYPES),
            TypeName::DocComments => Schema::Struct(&module::DOC_COMMENTS),
            TypeName::Module => Schema::Struct(&module::MODULE),
            TypeName::SwitchCase => Schema::Struct(&statement::SWITCH_CASE),
            TypeName::RayQueryFunctionInitialize => Schema::Struct(
                &statement::RAY_QUERY_FUNCTION_INITIALIZE,
            ),
            TypeName::RayQueryFunctionProceed => Schema::Struct(
                &statement::RAY_QUERY_FUNCTION_PROCEED,
            ),
            TypeName::RayQueryFunctionGenerateIntersection => Schema::Struct(
                &statement::RAY_QUERY_FUNCTION_GENERATE_INTERSECTION,
            ),
            TypeName::RayQueryFunction => Schema::Enum(
                &statement::RAY_QUERY_FUNCTION_NAMES,
                &statement::RAY_QUERY_FUNCTION_VARIANTS,
            ),
            TypeName::RayPipelineFunctionTraceRay => Schema::Struct(
                &statement::RAY_PIPELINE_FUNCTION_TRACE_RAY,
            ),
            TypeName::RayPipelineFunction => Schema::Enum(
                &statement::RAY_PIPELINE_FUNCTION_NAMES,
                &statement::RAY_PIPELINE_FUNCTION_VARIANTS,
            ),
            TypeName::StatementIf => Schema::Struct(&statement::STATEMENT_IF),
            TypeName::StatementSwitch => Schema::Struct(&statement::STATEMENT_SWITCH),
            TypeName::StatementLoop => Schema::Struct(&statement::STATEMENT_LOOP),
            TypeName::StatementReturn => Schema::Struct(&statement::STATEMENT_RETURN),
            TypeName::StatementStore => Schema::Struct(&statement::STATEMENT_STORE),
            TypeName::StatementImageStore => Schema::Struct(&statement::STATEMENT_IMAGE_STORE),
            TypeName::StatementAtomic => Schema::Struct(&statement::STATEMENT_ATOMIC),
            TypeName::StatementImageAtomic => Schema::Struct(&statement::STATEMENT_IMAGE_ATOMIC),
            TypeName::StatementWorkGroupUniformLoad => Schema::Struct(
                &statement::STATEMENT_WORK_GROUP_UNIFORM_LOAD,
            ),
            TypeName::StatementCall => Schema::Struct(&statement::STATEMENT_CALL),
            TypeName::StatementRayQuery => Schema::Struct(&statement::STATEMENT_RAY_QUERY),
            TypeName::StatementSubgroupBallot => Schema::Struct(
                &statement::STATEMENT_SUBGROUP_BALLOT,
            ),
            TypeName::StatementSubgroupGather => Schema::Struct(
                &statement::STATEMENT_SUBGROUP_GATHER,
            ),
            TypeName::StatementSubgroupCollectiveOperation => Schema::Struct(
                &statement::STATEMENT_SUBGROUP_COLLECTIVE_OPERATION,
            ),
            TypeName::StatementCooperativeStore => Schema::Struct(
                &statement::STATEMENT_COOPERATIVE_STORE,
            ),
            TypeName::Statement => Schema::Enum(
                &statement::STATEMENT_NAMES,
                &statement::STATEMENT_VARIANTS,
            ),
            TypeName::ArraySize => Schema::Enum(
                &types::ARRAY_SIZE_NAMES,
                &types::ARRAY_SIZE_VARIANTS,
            ),
            TypeName::StructMember => Schema::Struct(&types::STRUCT_MEMBER),
            TypeName::NagaType => Schema::Struct(&types::NAGA_TYPE),
            TypeName::TypeInnerVector => Schema::Struct(&types::TYPE_INNER_VECTOR),
            TypeName::TypeInnerMatrix => Schema::Struct(&types::TYPE_INNER_MATRIX),
            TypeName::TypeInnerCooperativeMatrix => Schema::Struct(
                &types::TYPE_INNER_COOPERATIVE_MATRIX,
            ),
            TypeName::TypeInnerPointer => Schema::Struct(&types::TYPE_INNER_POINTER),
            TypeName::TypeInnerValuePointer => Schema::Struct(&types::TYPE_INNER_VALUE_POINTER),
            TypeName::TypeInnerArray => Schema::Struct(&types::TYPE_INNER_ARRAY),
            TypeName::TypeInnerStruct => Schema::Struct(&types::TYPE_INNER_STRUCT),
            TypeName::TypeInnerImage => Schema::Struct(&types::TYPE_INNER_IMAGE),
            TypeName::TypeInnerSampler => Schema::Struct(&types::TYPE_INNER_SAMPLER),
            TypeName::TypeInnerAccelerationStructure => Schema::Struct(
                &types::TYPE_INNER_ACCELERATION_STRUCTURE,
            ),
            TypeName::TypeInnerRayQuery => Schema::Struct(&types::TYPE_INNER_RAY_QUERY),
            TypeName::TypeInnerBindingArray => Schema::Struct(&types::TYPE_INNER_BINDING_ARRAY),
            TypeName::TypeInner => Schema::Enum(
                &types::TYPE_INNER_NAMES,
                &types::TYPE_INNER_VARIANTS,
            ),
            TypeName::Handles => Schema::List(
                Length::Any,
                TypeName::Leaf(Leaf::Natural(0xffff_fffe)),
            ),
            TypeName::SwizzlePattern => Schema::List(
                Length::Exactly(4),
                TypeName::Leaf(Leaf::Kind(Kind::SwizzleComponent)),
            ),
            TypeName::FunctionArguments => Schema::List(Length::Any, TypeName::FunctionArgument),
            TypeName::LocalVariables => Schema::List(
                Length::AtMost(0xffff_ffff),
                TypeName::LocalVariable,
            ),
            TypeName::Expressions => Schema::List(
                Length::AtMost(0xffff_ffff),
                TypeName::Expression,
            ),
            TypeName::NamedExpressions => Schema::Map(0xffff_fffe, TypeName::Leaf(Leaf::Text)),
            TypeName::Block => Schema::Block(TypeName::Statement),
            TypeName::WorkgroupSize => Schema::List(
                Length::Exactly(3),
                TypeName::Leaf(Leaf::Natural(0xffff_ffff)),
            ),
            TypeName::WorkgroupSizeOverrides => Schema::List(
                Length::Exactly(3),
                TypeName::Leaf(Leaf::OptionalNatural(0xffff_fffe)),
            ),
            TypeName::EmptyMap => Schema::Struct(&objects::EMPTY_MAP),
            TypeName::HandleComments => Schema::Map(0xffff_fffe, TypeName::Lines),
            TypeName::PositionComments => Schema::Map(u64::MAX, TypeName::Lines),
            TypeName::Lines => Schema::List(Length::Any, TypeName::Leaf(Leaf::Text)),
            TypeName::Types => Schema::List(Length::AtMost(0xffff_ffff), TypeName::NagaType),
            TypeName::Constants => Schema::List(Length::AtMost(0xffff_ffff), TypeName::Constant),
            TypeName::Overrides => Schema::List(Length::AtMost(0xffff_ffff), TypeName::Override),
            TypeName::GlobalVariables => Schema::List(
                Length::AtMost(0xffff_ffff),
                TypeName::GlobalVariable,
            ),
            TypeName::Functions => Schema::List(Length::AtMost(0xffff_ffff), TypeName::Function),
            TypeName::EntryPoints => Schema::List(Length::Any, TypeName::EntryPoint),
            TypeName::DiagnosticFilters => Schema::List(
                Length::AtMost(0xffff_ffff),
                TypeName::DiagnosticFilterNode,
            ),
            TypeName::SwitchCases => Schema::List(Length::Any, TypeName::SwitchCase),
            TypeName::StructMembers => Schema::List(Length::Any, TypeName::StructMember),
            TypeName::RuleNames => Schema::List(Length::Exactly(2), TypeName::Leaf(Leaf::Text)),
            TypeName::Range => Schema::Range(&objects::RANGE),
        }
    }
}
