//! Tests of filter maps: adding filters, conflicts, iteration, clones, and allocations that fail.
use super::{RULE, rule};
use ShouldConflictOnFullDuplicate::{No, Yes};
use naga_arena::{Span, TryClone};
use naga_kinds::{
    AddFilterError, DiagnosticFilter, DiagnosticFilterMap, FilterableTriggeringRule, Severity,
    ShouldConflictOnFullDuplicate,
};
use std::alloc::Global;
use std::test::Fail;

/// Adds a filter for the rule that WGSL defines, and returns whether the result is a conflict of these two spans, or
/// `Ok` if there are none.
fn answers(
    map: &mut DiagnosticFilterMap,
    new_severity: Severity,
    span: Span,
    should_conflict_on_full_duplicate: ShouldConflictOnFullDuplicate,
    conflict: &[Span],
) -> bool {
    let filter = DiagnosticFilter {
        new_severity,
        triggering_rule: FilterableTriggeringRule::Standard(RULE),
    };
    match map.add(filter, span, should_conflict_on_full_duplicate) {
        Ok(()) => conflict.is_empty(),
        Err(AddFilterError::Conflict(error)) => error.triggering_rule_spans.as_slice() == conflict,
        Err(AddFilterError::Memory) => false,
    }
}

/// Adds a filter for a rule that WGSL does not define, and returns whether this succeeded.
fn is_added(map: &mut DiagnosticFilterMap, alloc: Global, name: &str, span: Span) -> bool {
    let Ok(triggering_rule) = rule(alloc, &[name]) else {
        return false;
    };
    let filter = DiagnosticFilter {
        new_severity: Severity::Warning,
        triggering_rule,
    };
    map.add(filter, span, No).is_ok()
}

/// Returns whether a map has a filter of severity `Error` and span `first` for the rule that WGSL defines: the severity
/// and the span stay, whatever is added for the rule.
fn keeps_error(map: &mut DiagnosticFilterMap, first: Span, second: Span) -> bool {
    answers(map, Severity::Error, second, No, &[])
        && answers(map, Severity::Error, second, Yes, &[first, second])
        && answers(map, Severity::Off, second, No, &[first, second])
}

/// Returns whether the spans of the filters are exactly these, in this order.
fn stand_at(map: &DiagnosticFilterMap, places: &[Span]) -> bool {
    let mut spans = map.spans();
    for place in places {
        match spans.next() {
            Some(span) if span == *place => {}
            _ => return false,
        }
    }
    spans.next().is_none() && map.is_empty() == places.is_empty()
}

#[test]
fn rules_stand_in_order_of_first_appearance(rt: HostRuntime) -> Result<(), Fail> {
    let alloc = rt.alloc();
    let mut map = DiagnosticFilterMap::new(alloc);
    for (name, start) in [("b", 1u32), ("a", 3), ("b", 5), ("c", 7)] {
        assert!(rt; is_added(&mut map, alloc, name, Span::new(start, start + 1)));
    }
    let clone = TryClone::clone(&map)?;
    assert!(rt; stand_at(&clone, &[Span::new(1, 2), Span::new(3, 4), Span::new(7, 8)]));
    assert!(rt; map.into_iter().len() == 3);
    Ok(())
}

/// Tests in which allocations may fail.
mod refusals {
    use super::*;

    #[test]
    fn a_rule_keeps_its_first_filter_and_takes_no_memory(rt: HostRuntime) {
        let mut map = DiagnosticFilterMap::new(rt.alloc());
        let (first, second) = (Span::new(1, 2), Span::new(3, 4));
        if !answers(&mut map, Severity::Error, first, No, &[]) {
            return;
        }
        assert!(rt; keeps_error(&mut map, first, second));
        assert!(rt; stand_at(&map, &[first]));
        if let Ok(mut clone) = TryClone::clone(&map) {
            assert!(rt; keeps_error(&mut clone, first, second));
        }
    }

    #[test]
    fn a_refused_add_leaves_the_map(rt: HostRuntime) {
        let alloc = rt.alloc();
        let mut map = DiagnosticFilterMap::new(alloc);
        let mut count = 0usize;
        // There are more rules than the first allocation has space for, so another allocation is needed.
        for name in ["a", "b", "c", "d", "e", "f", "g", "h", "i"] {
            let added = is_added(&mut map, alloc, name, Span::UNDEFINED);
            count = count.wrapping_add(usize::from(added));
        }
        assert!(rt; map.into_iter().len() == count);
    }
}
