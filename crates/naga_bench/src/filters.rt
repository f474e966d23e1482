//! Workloads on diagnostic filters.
use crate::fault::Fault;
use crate::item::{mixed, span};
use crate::sample::{Sample, now, since};
use naga_arena::{Arena, Handle};
use naga_ir::diagnostic_filter::{
    DiagnosticFilter, DiagnosticFilterMap, DiagnosticFilterNode, FilterableTriggeringRule,
    Severity, ShouldConflictOnFullDuplicate, StandardFilterableTriggeringRule,
};
use std::alloc::{AllocError, Global};

/// The rule whose severity is searched for.
const RULE: StandardFilterableTriggeringRule =
    StandardFilterableTriggeringRule::DerivativeUniformity;

/// The operation that is timed on filters.
#[derive(Clone, Copy)]
pub enum FilterWork {
    Add,
    Search,
}

impl FilterWork {
    /// Returns the name of the workload.
    pub fn name(self) -> &'static str {
        match self {
            FilterWork::Add => "filter_add",
            FilterWork::Search => "filter_search",
        }
    }
}

/// Times adding filters to a map, or a search in a tree of filters.
pub fn on_filters(rt: &HostRuntime, size: u32, work: FilterWork) -> Result<Sample, Fault> {
    match work {
        FilterWork::Add => on_adds(rt, size),
        FilterWork::Search => on_search(rt, size),
    }
}

/// Times adding filters to a map. For half of them, the map already has a filter for the same rule.
fn on_adds(rt: &HostRuntime, size: u32) -> Result<Sample, Fault> {
    let mut filters = Vec::new(rt.alloc());
    fill(rt.alloc(), &mut filters, size)?;
    let mut map = DiagnosticFilterMap::new(rt.alloc());
    let start = now(rt);
    let given = add(&mut map, filters);
    let time = since(rt, start);
    Sample::of(size, given, sum_of(&map), time)
}

/// Creates a filter for the rule that has this number as its name.
fn filter_of(alloc: Global, number: u32) -> Result<DiagnosticFilter, AllocError> {
    let name = format!(in alloc; "{number}")?;
    Ok(DiagnosticFilter {
        new_severity: Severity::Info,
        triggering_rule: FilterableTriggeringRule::Unknown(name),
    })
}

/// Appends `size` filters, two for each rule.
fn fill(alloc: Global, filters: &mut Vec<DiagnosticFilter>, size: u32) -> Result<(), AllocError> {
    for number in 0..size {
        let filter = filter_of(alloc, number / 2)?;
        filters.push(filter)?;
    }
    Ok(())
}

/// Adds each filter to a map.
fn add(map: &mut DiagnosticFilterMap, filters: Vec<DiagnosticFilter>) -> Result<u64, Fault> {
    let mut number = 0_u32;
    for filter in filters {
        let duplicates = ShouldConflictOnFullDuplicate::No;
        if map.add(filter, span(number), duplicates).is_err() {
            return Err(Fault::Memory);
        }
        number = number.wrapping_add(1);
    }
    Ok(0)
}

/// Returns a checksum of the spans of a map's filters.
fn sum_of(map: &DiagnosticFilterMap) -> u64 {
    let mut sum = 0;
    for span in map.spans() {
        sum = mixed(sum, span.start as u64);
    }
    sum
}

/// Times a search through `size` nested filters, of which only the last one that is visited is for the rule.
fn on_search(rt: &HostRuntime, size: u32) -> Result<Sample, Fault> {
    let mut nodes = Arena::<DiagnosticFilterNode>::new(rt.alloc());
    nest(rt.alloc(), &mut nodes, size)?;
    on_nodes(rt, size, &nodes)
}

/// Appends `size` nested filters, of which only the first and outermost one is for the rule.
fn nest(alloc: Global, nodes: &mut Arena<DiagnosticFilterNode>, size: u32) -> Result<(), Fault> {
    let mut parent = None;
    for _ in 0..size {
        let handle = nodes.append(node_in(alloc, parent), span(0))?;
        parent = Some(handle);
    }
    Ok(())
}

/// Creates a filter that is nested in another one, or the outermost filter.
fn node_in(alloc: Global, parent: Option<Handle<DiagnosticFilterNode>>) -> DiagnosticFilterNode {
    let triggering_rule = match parent {
        Some(_) => FilterableTriggeringRule::Unknown(String::new(alloc)),
        None => FilterableTriggeringRule::Standard(RULE),
    };
    let inner = DiagnosticFilter {
        new_severity: Severity::Warning,
        triggering_rule,
    };
    DiagnosticFilterNode { inner, parent }
}

/// Times a search that starts at the last filter. The caller of `search` must ensure that parents precede their
/// filters, so this is tested first.
fn on_nodes(
    rt: &HostRuntime,
    size: u32,
    nodes: &Arena<DiagnosticFilterNode>,
) -> Result<Sample, Fault> {
    let Some((leaf, _)) = nodes.iter().next_back() else {
        return Err(Fault::SetUp);
    };
    if !DiagnosticFilterNode::parents_precede(nodes) {
        return Err(Fault::SetUp);
    }
    let start = now(rt);
    let severity = DiagnosticFilterNode::search(Some(leaf), nodes, RULE);
    let time = since(rt, start);
    Sample::of(size, Ok(severity as u64), nodes.len() as u64, time)
}
