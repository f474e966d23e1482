//! The parts of the shader IR that refer to no other value in it: kinds and the tables of what they mean, sets of
//! flags, and the filters of diagnostics.
//!
//! Only tested: derived orders, debug texts, the discriminants of the enums, what a clone of a map of filters contains,
//! and that a report of the severity `Off` or `Error` does not call its handler.
#![tactic(auto)]

mod address_space;
mod binding;
mod builtin;
mod derived;
mod diagnostic_filter;
mod entry_point;
mod flags;
mod format;
mod glsl;
mod image;
pub mod laws;
mod math;
mod operator;
mod plain_kind;
mod ray_query;
mod scalar;
mod subgroup;
mod switch;

pub use address_space::AddressSpace;
pub use binding::{Binding, Interpolation, ResourceBinding, Sampling};
pub use bitflags::Flags;
pub use builtin::BuiltIn;
pub use diagnostic_filter::{
    AddFilterError, ConflictingDiagnosticRuleError, DiagnosticFilter, DiagnosticFilterMap,
    DiagnosticFilterNode, DiagnosticFilterNodeKind, FilterIntoIter, FilterSpans,
    FilterableTriggeringRule, Severity, ShouldConflictOnFullDuplicate,
    StandardFilterableTriggeringRule,
};
pub use entry_point::{
    ConservativeDepth, EarlyDepthTest, EntryPointError, MeshOutputTopology, ShaderStage,
};
pub use flags::{Barrier, MemoryDecorations, RayFlag, StorageAccess};
pub use format::StorageFormat;
pub use glsl::{GlslScalar, GlslScalarKind, GlslVectorSize};
pub use image::{ImageClass, ImageDimension};
pub use math::MathFunction;
pub use operator::{
    BinaryOperator, DerivativeAxis, DerivativeControl, RelationalFunction, SwizzleComponent,
    UnaryOperator,
};
pub use plain_kind::PlainKind;
pub use ray_query::RayQueryIntersection;
pub use scalar::{
    ABSTRACT_WIDTH, BOOL_WIDTH, Bytes, CooperativeRole, CooperativeSize, PredeclaredType, Scalar,
    ScalarKind, VectorSize,
};
pub use subgroup::{CollectiveOperation, Direction, SubgroupOperation};
pub use switch::SwitchValue;
