//! Tests of diagnostic filters: the order of their rules, and clones and texts of nodes and errors.
use super::{is_shown, rule};
use naga_arena::{Handle, KindName, Span, TryClone};
use naga_kinds::{
    AddFilterError, ConflictingDiagnosticRuleError, DiagnosticFilter, DiagnosticFilterNode,
    Severity,
};
use std::alloc::{AllocError, Global};
use std::test::Fail;

/// The names of rules, the rules in ascending order.
const RULES: &[&[&str]] = &[
    &[],
    &["derivative"],
    &["uniformity"],
    &["a", "rule"],
    &["a", "yard"],
    &["b", "rule"],
];

/// Returns whether the rule of the first names is less than that of the second ones.
fn is_less(alloc: Global, first: &[&str], second: &[&str]) -> bool {
    let Ok(first) = rule(alloc, first) else {
        return false;
    };
    let Ok(second) = rule(alloc, second) else {
        return false;
    };
    first < second
}

#[test]
fn rules_are_compared_by_kind_and_names(rt: HostRuntime) {
    for i in 1..RULES.len() {
        assert!(rt; is_less(rt.alloc(), RULES[i - 1], RULES[i]));
    }
}

/// Creates a node that has a parent.
fn node(alloc: Global) -> Result<DiagnosticFilterNode, AllocError> {
    let triggering_rule = rule(alloc, &["tool", "rule"])?;
    Ok(DiagnosticFilterNode {
        inner: DiagnosticFilter {
            new_severity: Severity::Warning,
            triggering_rule,
        },
        parent: Handle::<DiagnosticFilterNode>::from_usize(3),
    })
}

#[test]
fn a_clone_of_a_node_is_printed_with_its_parts(rt: HostRuntime) -> Result<(), Fail> {
    let alloc = rt.alloc();
    let source = node(alloc)?;
    let clone = TryClone::clone(&source)?;
    let text = "DiagnosticFilterNode { inner: DiagnosticFilter { new_severity: Warning, \
         triggering_rule: User(\"tool\", \"rule\") }, parent: Some([3]) }";
    assert!(rt; is_shown(alloc, &clone, text));
    assert!(rt; is_shown(alloc, &AddFilterError::Memory, "Memory"));
    assert!(rt; DiagnosticFilterNode::kind_name() == "DiagnosticFilterNode");
    Ok(())
}

#[test]
fn a_conflict_is_cloned_with_both_spans(rt: HostRuntime) -> Result<(), Fail> {
    let error = ConflictingDiagnosticRuleError {
        triggering_rule_spans: [Span::new(1, 2), Span::new(5, 6)],
    };
    let clone = Clone::clone(&error)?;
    assert!(rt; clone.triggering_rule_spans == error.triggering_rule_spans);
    Ok(())
}

/// Tests in which allocations may fail.
mod refusals {
    use super::*;

    #[test]
    fn a_clone_has_the_rule_of_its_source_or_wants_memory(rt: HostRuntime) {
        let Ok(source) = node(rt.alloc()) else { return };
        if let Ok(clone) = TryClone::clone(&source) {
            assert!(rt; clone.inner.triggering_rule == source.inner.triggering_rule);
        }
    }
}
