//! [`DiagnosticFilter`]s, which set the severity of the reports of a rule for a part of a shader.
ghost use Rattle.std.specs.Prelude.{◌≡◌, ◌≤◌, ◌<◌, ◌+◌, ◌==◌, ◌⊎◌, ◌↔◌, ◌++◌, ◌∷◌, [], ℕ, IsTrue, OnErr, IfSome, Some, Err, codes, length, map};
ghost use Rattle.std.specs.Iterator.{UpTo, YieldsFirst, item_count};
ghost use Rattle.std.specs.Iterator.SizeHint.{IsWithinCount};
ghost use Rattle.std.specs.Map.{lookup};
ghost use Rattle.std.specs.Option.{ForSome};
ghost use Rattle.naga_kinds.specs.Filter.{Reports, default_of};
ghost use Rattle.naga_kinds.specs.FilterMap.{Answers, first_of_each};
ghost use Rattle.naga_kinds.specs.Search.{Finds, ParentsPrecede, is_rule};
ghost use Rattle.naga_kinds.specs.derived.Names.{severities};

use indexmap::IndexMap;
use indexmap::map::{self, Entry};
use log::Level;
use naga_arena::{Arena, Handle, KindName, Span};
use std::alloc::Global;
use std::iter::FusedIterator;
use std::marker::Model;

/// The severity of a report. Severities are ordered from the least to the greatest.
#[derive(Clone, Copy, Debug, PartialEq, Eq, PartialOrd, Ord, Hash)]
pub enum Severity {
    /// The report is not made.
    Off,
    /// The report is information.
    Info,
    /// The report is a warning.
    Warning,
    /// The report is an error: the shader is rejected.
    Error,
}

impl Severity {
    /// Reports `err` with this severity.
    ///
    /// `Off` makes no report and returns `Ok`. `Info` and `Warning` pass `err` and the log level, `Level::Info` or
    /// `Level::Warn`, to `log_handler`, and return `Ok`. `Error` returns `err`.
    ///
    /// If the severity is `Info` or `Warning`, the caller must ensure that `log_handler` can be called with `err` and
    /// that level.
    pub fn report_diag<E: Drop, F: FnOnce(E, Level) + Drop>(
        self,
        err: E,
        log_handler: F,
    ) -> Result<(), E>
        requires info { self ≡ Severity.Info → F.pre log_handler err Level.Info }
        requires warning { self ≡ Severity.Warning → F.pre log_handler err Level.Warn }
        ensures { Reports (λ level. F.post log_handler err level tt) self err result }
    {
        match self {
            Severity::Off => Ok(()),
            Severity::Info => {
                log_handler(err, Level::Info);
                Ok(())
            }
            Severity::Warning => {
                log_handler(err, Level::Warn);
                Ok(())
            }
            Severity::Error => Err(err),
        }
    }
}

/// A rule that a [`DiagnosticFilter`] can apply to.
#[derive(Clone, Debug, PartialEq, Eq, PartialOrd, Ord, Hash, Drop)]
pub enum FilterableTriggeringRule {
    /// A rule that WGSL defines.
    Standard(StandardFilterableTriggeringRule),
    /// A rule with a single name that WGSL does not define. It triggers no reports.
    Unknown(String),
    /// A rule of another tool, written as `tool.rule`: the name of the tool, then the name of the rule.
    ///
    /// Differs from naga: naga boxes the two names together.
    User(String, String),
}

impl FilterableTriggeringRule {
    /// Returns whether this is `rule`, a rule that WGSL defines.
    fn is_standard(&self, rule: StandardFilterableTriggeringRule) -> bool
        ensures { result ≡ is_rule rule self.now }
    {
        match self {
            FilterableTriggeringRule::Standard(own) => *own == rule,
            FilterableTriggeringRule::Unknown(_) | FilterableTriggeringRule::User(..) => false,
        }
    }
}

/// A rule that WGSL defines.
#[derive(Clone, Copy, Debug, PartialEq, Eq, PartialOrd, Ord, Hash)]
pub enum StandardFilterableTriggeringRule {
    /// `derivative_uniformity`: a derivative is computed where control flow may not be uniform.
    DerivativeUniformity,
}

impl StandardFilterableTriggeringRule {
    /// Returns the severity of the rule's reports if no filter changes it.
    pub fn default_severity(self) -> Severity
        ensures { result ≡ default_of self }
    {
        match self {
            StandardFilterableTriggeringRule::DerivativeUniformity => Severity::Error,
        }
    }
}

/// A filter that changes the severity of a rule's reports, within the construct that it is applied to.
#[derive(Clone, Debug, Drop)]
pub struct DiagnosticFilter {
    /// The new severity of the reports.
    pub new_severity: Severity,

    /// The rule whose reports get the new severity.
    pub triggering_rule: FilterableTriggeringRule,
}

/// The choice of whether a filter that exactly repeats another one is a conflict.
#[derive(Drop)]
pub enum ShouldConflictOnFullDuplicate {
    /// It is a conflict, as among the attributes of one item.
    Yes,
    /// It is not a conflict, as among the directives of a module.
    No,
}

/// The error returned when two filters on the same construct conflict.
///
/// They set different severities for the same rule, or the same severity where a repetition is not allowed.
#[derive(Clone, Debug, Drop)]
pub struct ConflictingDiagnosticRuleError {
    /// The spans of the two filters, the first filter first.
    pub triggering_rule_spans: [Span; 2],
}

/// The error returned when a filter could not be added to a map.
///
/// Differs from naga: naga's only error is the conflict.
#[derive(Debug, Drop)]
pub enum AddFilterError {
    /// The filter conflicts with one in the map.
    Conflict(ConflictingDiagnosticRuleError),
    /// An allocation failed.
    Memory,
}

/// The filters on one construct, at most one for each rule, each with its span.
///
/// In contracts, a map is the list of its pairs, in order of first appearance: a rule, with its severity and span. Two
/// rules are the same if `==` returns `true` for them.
#[derive(Clone, Debug, Drop)]
pub struct DiagnosticFilterMap(IndexMap<FilterableTriggeringRule, (Severity, Span)>);

impl Model for DiagnosticFilterMap {
    ghost use Rattle.std.specs.Prelude.{List};
    ghost use Rattle.naga_arena.specs.declared.span.Span.{Span as Place};
    ghost use Rattle.naga_kinds.specs.declared.diagnostic_filter.FilterableTriggeringRule.{FilterableTriggeringRule as Rule};
    ghost use Rattle.naga_kinds.specs.declared.diagnostic_filter.Severity.{Severity as Level};

    ghost Value = { List (Rule × (Level × Place)) };

    ghost view = { λ a. a.0.entries };
}

impl DiagnosticFilterMap {
    /// Creates an empty map.
    ///
    /// The map does not allocate until the first [`add`](Self::add).
    pub fn new(alloc: Global) -> Self
        ensures { result ≡ [] }
    {
        DiagnosticFilterMap(IndexMap::new(alloc))
    }

    /// Adds a filter with its span.
    ///
    /// If the map has no filter for the rule, the new filter is appended. Returns [`AddFilterError::Memory`] if
    /// allocation fails.
    ///
    /// If the map already has a filter for the rule, that filter keeps its severity and span, and nothing is allocated.
    /// Returns [`AddFilterError::Conflict`] if the two severities differ, or if full duplicates are a conflict.
    ///
    /// On error, the map is unchanged and `diagnostic_filter` is dropped.
    pub fn add(
        &mut self,
        diagnostic_filter: DiagnosticFilter,
        span: Span,
        should_conflict_on_full_duplicate: ShouldConflictOnFullDuplicate,
    ) -> Result<(), AddFilterError>
        ensures answers { Answers
            (lookup (⟦<FilterableTriggeringRule as PartialEq>⟧.eq diagnostic_filter.triggering_rule) self.old)
            (diagnostic_filter.new_severity, span) should_conflict_on_full_duplicate result }
        ensures added { (result ≡ Err AddFilterError.Memory) ⊎ (self.new
            ≡ first_of_each ⟦<FilterableTriggeringRule as PartialEq>⟧.eq
            (self.old ++ (diagnostic_filter.triggering_rule, (diagnostic_filter.new_severity, span)) ∷ [])) }
        ensures unchanged { OnErr result (self.new ≡ self.old) }
    {
        let DiagnosticFilter {
            new_severity,
            triggering_rule,
        } = diagnostic_filter;
        let Ok(entry) = self.0.entry(triggering_rule) else {
            return Err(AddFilterError::Memory);
        };
        let known = match entry {
            Entry::Occupied(known) => known,
            Entry::Vacant(new) => {
                new.insert((new_severity, span));
                return Ok(());
            }
        };
        let (first_severity, first_span) = *known.get();
        if let ShouldConflictOnFullDuplicate::No = should_conflict_on_full_duplicate
            && first_severity == new_severity
        {
            return Ok(());
        }
        Err(AddFilterError::Conflict(ConflictingDiagnosticRuleError {
            triggering_rule_spans: [first_span, span],
        }))
    }

    /// Returns whether the map has no filters.
    pub fn is_empty(&self) -> bool
        ensures { result ≡ (length self.now == 0) }
    {
        self.0.is_empty()
    }

    /// Returns an iterator over the spans of the filters, in order.
    pub fn spans(&self) -> FilterSpans<'_>
        ensures { result ≡ map (λ filter. filter.1.1) self.now }
    {
        FilterSpans(self.0.values())
    }
}

/// An iterator over the spans of the filters of a map.
///
/// In contracts, it is the list of the remaining spans.
#[derive(Drop)]
pub struct FilterSpans<'a>(map::Values<'a, FilterableTriggeringRule, (Severity, Span)>);

impl<'a> Model for FilterSpans<'a> {
    ghost use Rattle.std.specs.Prelude.{List, map};
    ghost use Rattle.naga_arena.specs.declared.span.Span.{Span as Place};

    ghost Value = { List Place };

    ghost view = { λ it. map (λ said. said.1) it.0 };
}

impl<'a> Iterator for FilterSpans<'a> {
    type Item = Span;

    ghost next_gives = { YieldsFirst (λ rest. rest) };

    ghost remaining = { item_count (λ rest. rest) };

    fn next(&mut self) -> Option<Span> {
        let (_, span) = *self.0.next()?;
        Some(span)
    }

    fn size_hint(&self) -> (usize, Option<usize>)
        ensures lower { IsWithinCount result.0 (item_count (λ rest. rest) self.now) }
        ensures upper { IfSome result.1 (UpTo (item_count (λ rest. rest) self.now)) }
        ensures value { result ≡ (length self.now, Some (length self.now)) }
    {
        let len = self.0.len();
        (len, Some(len))
    }
}

impl<'a> FusedIterator for FilterSpans<'a> {}

/// A double-ended iterator over the rules of a map, in order, each with its severity and span.
///
/// In contracts, it is the list of its remaining items.
pub type FilterIntoIter = map::IntoIter<FilterableTriggeringRule, (Severity, Span)>;

impl IntoIterator for DiagnosticFilterMap {
    type Item = (FilterableTriggeringRule, (Severity, Span));

    type IntoIter = FilterIntoIter;

    ghost into_iter_gives = { λ filters it. it ≡ filters };

    fn into_iter(self) -> FilterIntoIter {
        self.0.into_iter()
    }
}

/// A node in a tree of filters, which is stored in an arena.
///
/// The filters on an inner part of a shader have the filters around that part as their ancestors. A search goes from a
/// leaf to the root, and the first filter for the rule determines the severity. For example, if a module has the
/// filters `a` and `b`, one of its functions has `c` and `d`, and another function has `e`, then the nodes are
///
/// ```text
/// a <- b <- c <- d
///        <- e
/// ```
///
/// with `d` as the leaf for the first function, `e` for the second one and `b` for all other functions.
#[derive(Clone, Debug, Drop)]
pub struct DiagnosticFilterNode {
    /// The filter.
    pub inner: DiagnosticFilter,

    /// The node that a search visits next, or `None` for a root.
    pub parent: Option<Handle<DiagnosticFilterNode>>,
}

impl DiagnosticFilterNode {
    /// Returns the severity that the filters from the leaf `node` to the root set for a rule.
    ///
    /// This is the severity of the first filter for the rule. If there is no such filter, or no leaf, it is the
    /// [default severity](StandardFilterableTriggeringRule::default_severity) of the rule.
    ///
    /// The caller must ensure that the leaf is in the arena, which [`Arena::check_contains_handle`] tests, and that
    /// each parent precedes its node, which [`parents_precede`](Self::parents_precede) tests.
    ///
    /// Differs from naga: naga panics if a handle is not in the arena, and does not terminate on a cycle.
    pub fn search(
        node: Option<Handle<Self>>,
        arena: &Arena<Self>,
        triggering_rule: StandardFilterableTriggeringRule,
    ) -> Severity
        requires contained { ForSome node (λ leaf. leaf < length arena.now) }
        requires precede { ParentsPrecede arena.now }
        ensures { (count : ℕ) × Finds arena.now node triggering_rule (result, count) }
    {
        let (severity, _) = Self::search_counted(node, arena, triggering_rule);
        severity
    }

    /// Returns the severity that [`search`](Self::search) returns, and the number of nodes that the search looks at.
    ///
    /// The search looks at the nodes from the leaf to the first one with a filter for the rule, or to the root if there
    /// is no such node. The preconditions are those of `search`.
    pub fn search_counted(
        node: Option<Handle<Self>>,
        arena: &Arena<Self>,
        triggering_rule: StandardFilterableTriggeringRule,
    ) -> (Severity, u32)
        requires contained { ForSome node (λ leaf. leaf < length arena.now) }
        requires precede { ParentsPrecede arena.now }
        ensures finds { Finds arena.now node triggering_rule result }
        ensures bound { IfSome node (λ leaf. result.1 ≤ leaf + 1) }
    {
        let mut next = node;
        let mut looked_at = 0;
        'nodes: while let Some(handle) = next {
            let node = &arena[handle];
            looked_at += 1;
            if node.inner.triggering_rule.is_standard(triggering_rule) {
                return (node.inner.new_severity, looked_at);
            }
            next = node.parent;
        }
        (triggering_rule.default_severity(), looked_at)
    }

    /// Returns whether each parent has a lower index than its node.
    ///
    /// If so, no search enters a cycle or leaves the arena.
    pub fn parents_precede(arena: &Arena<Self>) -> bool
        ensures { IsTrue result ↔ ParentsPrecede arena.now }
    {
        for (handle, node) in arena.iter() {
            if let Some(parent) = node.parent
                && handle <= parent
            {
                return false;
            }
        }
        true
    }
}

/// The type that represents [`DiagnosticFilterNode`] in its handles.
#[derive(Clone, Copy)]
pub enum DiagnosticFilterNodeKind {}

impl KindName for DiagnosticFilterNode {
    type Kind = DiagnosticFilterNodeKind;

    const NAME: &'static str = "DiagnosticFilterNode";

    ghost name = { codes "DiagnosticFilterNode" };

    fn kind_name() -> &'static str {
        Self::NAME
    }
}
