//! The diagnostic filters, in a module with naga's name for it.
pub use naga_kinds::{
    AddFilterError, ConflictingDiagnosticRuleError, DiagnosticFilter, DiagnosticFilterMap,
    DiagnosticFilterNode, DiagnosticFilterNodeKind, FilterIntoIter, FilterSpans,
    FilterableTriggeringRule, Severity, ShouldConflictOnFullDuplicate,
    StandardFilterableTriggeringRule,
};
