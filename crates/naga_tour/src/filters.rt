//! Diagnostic filters: those on one item, and those around it.
use anyhow::{Result, ensure};
use naga_proc::diagnostic_filter::{
    AddFilterError, DiagnosticFilter, DiagnosticFilterMap, DiagnosticFilterNode,
    FilterableTriggeringRule, Severity, ShouldConflictOnFullDuplicate,
    StandardFilterableTriggeringRule,
};
use naga_proc::{Arena, Handle, Level, Span};
use std::alloc::{AllocError, Global};

/// The rule that all filters are for.
const RULE: StandardFilterableTriggeringRule =
    StandardFilterableTriggeringRule::DerivativeUniformity;

/// Adds filters to a map, and searches a tree of filters.
pub fn filter(rt: &impl Print, alloc: Global) -> Result<()> {
    println!(rt; "Filters of the rule {RULE:?}: a map of filters, and a tree of nested filters")?;
    fill_map(rt, alloc)?;
    report(rt, Severity::Warning)?;
    report(rt, Severity::Error)?;
    let mut nodes = Arena::<DiagnosticFilterNode>::new(alloc);
    search_tree(rt, &mut nodes)
}

/// Adds filters to a map.
fn fill_map(rt: &impl Print, alloc: Global) -> Result<()> {
    let mut filters = DiagnosticFilterMap::new(alloc);
    add_each(rt, &mut filters)
}

/// Adds a filter, an equal one, and one with another severity.
fn add_each(rt: &impl Print, filters: &mut DiagnosticFilterMap) -> Result<()> {
    add(rt, filters, Severity::Info, Span::new(1, 2))?;
    add(rt, filters, Severity::Info, Span::new(3, 4))?;
    add(rt, filters, Severity::Off, Span::new(5, 6))
}

/// Returns a filter that sets this severity for the rule.
fn filter_by(new_severity: Severity) -> DiagnosticFilter {
    DiagnosticFilter {
        new_severity,
        triggering_rule: FilterableTriggeringRule::Standard(RULE),
    }
}

/// Adds a filter, and shows the outcome. The filters in the map are unchanged: an equal filter is accepted here, and
/// another severity is a conflict.
fn add(
    rt: &impl Print,
    filters: &mut DiagnosticFilterMap,
    severity: Severity,
    span: Span,
) -> Result<()> {
    let duplicates = ShouldConflictOnFullDuplicate::No;
    match filters.add(filter_by(severity), span, duplicates) {
        Ok(()) => println!(rt; "  {severity:?} is added.")?,
        Err(AddFilterError::Conflict(conflict)) => {
            let [first, second] = conflict.triggering_rule_spans;
            println!(rt;
                "  {severity:?} is not added: the filter at {}..{} conflicts with that at {}..{}.",
                second.start, second.end, first.start, first.end
            )?;
        }
        Err(AddFilterError::Memory) => return Err(AllocError.into()),
    }
    Ok(())
}

/// Reports a diagnostic of this severity, and shows at which level it is handled, or that it is returned as an error.
fn report(rt: &impl Print, severity: Severity) -> Result<()> {
    let mut handled = None;
    let outcome = severity.report_diag(RULE, |_rule, level: Level| handled = Some(level));
    println!(rt;
        "  A report of severity {severity:?} is handled at level {handled:?}, and returns {outcome:?}."
    )?;
    Ok(())
}

/// Builds a tree of a filter inside another, and searches it from each of them and from none.
fn search_tree(rt: &impl Print, nodes: &mut Arena<DiagnosticFilterNode>) -> Result<()> {
    let outer = put(nodes, Severity::Warning, None)?;
    let inner = put(nodes, Severity::Off, Some(outer))?;
    search(rt, nodes, Some(inner))?;
    search(rt, nodes, Some(outer))?;
    search(rt, nodes, None)
}

/// Appends a filter inside `parent`, or an outermost one if there is no parent.
fn put(
    nodes: &mut Arena<DiagnosticFilterNode>,
    severity: Severity,
    parent: Option<Handle<DiagnosticFilterNode>>,
) -> Result<Handle<DiagnosticFilterNode>> {
    let inner = filter_by(severity);
    let handle = nodes.append(DiagnosticFilterNode { inner, parent }, Span::UNDEFINED)?;
    Ok(handle)
}

/// Shows the severity of the rule at a leaf. The caller of `search` must ensure that the leaf is in the arena and that
/// parents precede their filters, so both are tested first.
fn search(
    rt: &impl Print,
    nodes: &Arena<DiagnosticFilterNode>,
    leaf: Option<Handle<DiagnosticFilterNode>>,
) -> Result<()> {
    if let Some(leaf) = leaf {
        nodes.check_contains_handle(leaf)?;
    }
    ensure!(
        DiagnosticFilterNode::parents_precede(nodes),
        "the parent of a filter does not precede it"
    );
    let severity = DiagnosticFilterNode::search(leaf, nodes, RULE);
    println!(rt; "  From {leaf:?} the severity is {severity:?}.")?;
    Ok(())
}
