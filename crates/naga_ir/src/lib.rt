//! The shader IR: the representation that front ends produce, that back ends write out, and that everything in between
//! reads and changes.
//!
//! A [`Module`] declares types, constants, variables and functions, some of which are entry points. A function computes
//! values with [`Expression`]s, which have no side effects, and acts through [`Statement`]s. The statements are in
//! [`Block`]s, and some statements contain blocks, so that the body of a function is a tree. The expressions are in the
//! arena of the function, and refer to one another by handles.
//!
//! Each expression is evaluated at a known time. Literals, constants, overrides, zero values and global variables have
//! their values before the function runs. Arguments and pointers to local variables have their values when the function
//! is entered. The result of a statement has its value when that statement is executed. Every other expression is
//! evaluated when the one `Emit` that covers it is executed.
//!
//! An expression that has its value before any statement runs can be used in the whole function. An expression that an
//! `Emit` evaluates can be used by the later expressions of that `Emit`. It can also be used, like the result of a
//! statement, by the statements that follow in the same block, including the statements inside them. An expression that
//! is evaluated in the body of a loop can also be used in the `continuing` block of that loop, and an expression that
//! is evaluated in either of these blocks can be used in the `break_if` of that loop. A value that is needed anywhere
//! else must be stored in a local variable. The check of uses in `naga_flow` is stricter: there, a `continuing` block
//! and a `break_if` may use only what is evaluated on every path to them.
//!
//! A *constant expression* is a literal, a constant, a zero value of a type with a fixed size, or a `Compose`,
//! `Access`, `AccessIndex`, `Splat`, `Swizzle`, `Unary`, `Binary`, `Select`, `Relational`, `Math` or `As` of constant
//! expressions. It can be evaluated when the shader is translated. An *override expression* is like a constant
//! expression, but can also refer to overrides. It can be evaluated when the pipeline is created. The
//! `global_expressions` of a module are constant expressions and override expressions.
//!
//! In contracts, a block is a list of statements with their spans (`specs/Block.antt`), or the tree that it represents
//! (`specs/Tree.antt`, `specs/View.antt`).
//!
//! Only tested: debug texts, that all clones have the debug texts of their sources, and when expressions, overrides,
//! constants and global variables are equal.
//!
//! Not claimed: that any IR is valid, what an expression means, and that `cull` and `splice` of a block move each
//! statement once. These two take linear time and clone nothing.
#![tactic(auto)]

mod block;
mod chains;
mod const_value;
pub mod diagnostic_filter;
mod expression;
mod global_ctx;
mod glsl;
mod handle_kinds;
pub mod laws;
mod literal;
mod module;
mod statement;
mod types;
mod variants;

pub use block::{Block, BlockIntoIter, BlockIter, BlockSpanIter};
pub use chains::chains_precede;
pub use const_value::{ConstValueError, FromLiteral};
pub use expression::{
    AtomicFunction, CooperativeData, Expression, GatherMode, ImageQuery, SampleLevel,
};
pub use global_ctx::GlobalCtx;
pub use glsl::GlslUniformType;
pub use handle_kinds::{
    ConstantKind, ExpressionKind, FunctionKind, GlobalVariableKind, LocalVariableKind,
    OverrideKind, TypeKind,
};
pub use literal::{HashableLiteral, Literal};
pub use module::{
    Constant, DocComments, EntryPoint, Function, FunctionArgument, FunctionResult, GlobalVariable,
    LocalVariable, MeshStageInfo, Module, NamedExpressions, Override, RayTracingUses, SpecialTypes,
};
pub use statement::{Control, RayPipelineFunction, RayQueryFunction, Statement, SwitchCase};
pub use types::{ArraySize, IndexableLength, ResolveArraySizeError, StructMember, Type, TypeInner};

// The parts of the IR that contain no handle.
pub use naga_kinds::{
    ABSTRACT_WIDTH, AddFilterError, AddressSpace, BOOL_WIDTH, Barrier, BinaryOperator, Binding,
    BuiltIn, Bytes, CollectiveOperation, ConflictingDiagnosticRuleError, ConservativeDepth,
    CooperativeRole, CooperativeSize, DerivativeAxis, DerivativeControl, DiagnosticFilter,
    DiagnosticFilterNode, DiagnosticFilterNodeKind, Direction, EarlyDepthTest, EntryPointError,
    FilterableTriggeringRule, Flags, GlslScalar, GlslScalarKind, GlslVectorSize, ImageClass,
    ImageDimension, Interpolation, MathFunction, MemoryDecorations, MeshOutputTopology,
    PredeclaredType, RayFlag, RayQueryIntersection, RelationalFunction, ResourceBinding, Sampling,
    Scalar, ScalarKind, Severity, ShaderStage, ShouldConflictOnFullDuplicate,
    StandardFilterableTriggeringRule, StorageAccess, StorageFormat, SubgroupOperation, SwitchValue,
    SwizzleComponent, UnaryOperator, VectorSize,
};
