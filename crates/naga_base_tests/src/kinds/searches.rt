//! Tests of searches in trees of filters, and of the test that the parents of a tree precede their nodes.
use super::RULE;
use naga_arena::{Arena, ArenaError, Handle, Span};
use naga_kinds::{DiagnosticFilter, DiagnosticFilterNode, FilterableTriggeringRule, Severity};
use std::alloc::Global;
use std::test::Fail;

/// A node: the severity that it sets for the rule that WGSL defines, or `None` if it is for another rule; and the index
/// of its parent.
type Row = (Option<Severity>, Option<usize>);

/// Returns the handle of the node with this index, if there is an index.
fn at(index: Option<usize>) -> Option<Handle<DiagnosticFilterNode>> {
    Handle::<DiagnosticFilterNode>::from_usize(index?)
}

/// Creates the tree of these nodes.
fn tree(alloc: Global, rows: &[Row]) -> Result<Arena<DiagnosticFilterNode>, ArenaError> {
    let mut nodes = Arena::new(alloc);
    for (said, parent) in rows {
        let (new_severity, triggering_rule) = match said {
            Some(severity) => (*severity, FilterableTriggeringRule::Standard(RULE)),
            None => {
                let name = String::new(alloc);
                (Severity::Warning, FilterableTriggeringRule::Unknown(name))
            }
        };
        let inner = DiagnosticFilter {
            new_severity,
            triggering_rule,
        };
        let parent = at(*parent);
        nodes.append(DiagnosticFilterNode { inner, parent }, Span::UNDEFINED)?;
    }
    Ok(nodes)
}

/// Returns the result of a counted search from this leaf, if the leaf is in the arena and parents precede.
fn found(nodes: &Arena<DiagnosticFilterNode>, leaf: Option<usize>) -> Option<(Severity, u32)> {
    let leaf = at(leaf);
    if let Some(leaf) = leaf {
        nodes.check_contains_handle(leaf).ok()?;
    }
    if !DiagnosticFilterNode::parents_precede(nodes) {
        return None;
    }
    Some(DiagnosticFilterNode::search_counted(leaf, nodes, RULE))
}

/// Returns the result of a search from the first node without counting, if there is one and parents precede.
fn found_from_first(nodes: &Arena<DiagnosticFilterNode>) -> Option<Severity> {
    let leaf = at(Some(0))?;
    nodes.check_contains_handle(leaf).ok()?;
    if !DiagnosticFilterNode::parents_precede(nodes) {
        return None;
    }
    Some(DiagnosticFilterNode::search(Some(leaf), nodes, RULE))
}

#[test]
fn searches_end_at_the_first_filter_of_the_rule(rt: HostRuntime) -> Result<(), Fail> {
    let nodes = tree(
        rt.alloc(),
        &[
            (None, None),
            (Some(Severity::Off), Some(0)),
            (None, Some(1)),
            (Some(Severity::Info), Some(2)),
            (None, Some(3)),
            (None, Some(0)),
        ],
    )?;
    assert!(rt; matches!(found(&nodes, Some(4)), Some((Severity::Info, 2))));
    assert!(rt; matches!(found(&nodes, Some(2)), Some((Severity::Off, 2))));
    assert!(rt; matches!(found(&nodes, Some(5)), Some((Severity::Error, 2))));
    assert!(rt; matches!(found(&nodes, None), Some((Severity::Error, 0))));
    assert!(rt; matches!(found_from_first(&nodes), Some(Severity::Error)));
    Ok(())
}

/// Returns whether `parents_precede` is `false` for the tree of these nodes.
fn is_refused(alloc: Global, rows: &[Row]) -> bool {
    match tree(alloc, rows) {
        Ok(nodes) => !DiagnosticFilterNode::parents_precede(&nodes),
        Err(_) => false,
    }
}

#[test]
fn other_parents_are_refused(rt: HostRuntime) {
    let alloc = rt.alloc();
    // A node that is its own parent, two nodes that are each other's parent, and a parent just past the end.
    assert!(rt; is_refused(alloc, &[(None, Some(0))]));
    assert!(rt; is_refused(alloc, &[(None, Some(1)), (None, Some(0))]));
    assert!(rt; is_refused(alloc, &[(None, None), (None, Some(2))]));
}
