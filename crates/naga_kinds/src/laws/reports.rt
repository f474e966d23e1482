//! Laws of reports and filters: a report, and the addition of a filter for a known rule, have only one possible result.
ghost use Rattle.std.specs.Prelude.{◌≡◌, Result, Some};
ghost use Rattle.naga_arena.specs.declared.span.Span.{Span as Place};
ghost use Rattle.naga_kinds.specs.Filter.{Reports};
ghost use Rattle.naga_kinds.specs.FilterMap.{Answers};

use crate::diagnostic_filter::{AddFilterError, Severity, ShouldConflictOnFullDuplicate};
use log::Level;

/// A report with a given severity has only one possible result. Information is handled at the level `Info`, and
/// warnings at the level `Warn`.
pub fn severity_has_one_report<E>()
    ensures one { (handled : Level) (severity : Severity) (error : E) (first second : Result (Unit {0}) E)
        → Reports (λ level. level ≡ handled) severity error first
        → Reports (λ level. level ≡ handled) severity error second
        → first ≡ second }
    ensures information { (handled : Level) (error : E) (result : Result (Unit {0}) E)
        → Reports (λ level. level ≡ handled) Severity.Info error result → handled ≡ Level.Info }
    ensures warning { (handled : Level) (error : E) (result : Result (Unit {0}) E)
        → Reports (λ level. level ≡ handled) Severity.Warning error result → handled ≡ Level.Warn }
{}

/// Adding a filter has only one possible result if the map already has a filter for the rule.
pub fn known_rule_has_one_answer()
    ensures { (known added : Severity × Place) (duplicate : ShouldConflictOnFullDuplicate)
        (first second : Result (Unit {0}) AddFilterError)
        → Answers (Some known) added duplicate first
        → Answers (Some known) added duplicate second
        → first ≡ second }
{}
