//! Tests of reports of each severity, and of the default severity of a rule.
use super::RULE;
use log::Level;
use naga_kinds::Severity;

/// Reports the error 7 with a severity, and returns the result and the error and level that were handled.
fn report(severity: Severity) -> (Result<(), u8>, Option<(u8, Level)>) {
    let mut handled = None;
    let result = severity.report_diag(7, |error: u8, level: Level| handled = Some((error, level)));
    (result, handled)
}

#[test]
fn reports_are_made_by_their_severity(rt: HostRuntime) {
    assert!(rt; matches!(report(Severity::Off), (Ok(()), None)));
    assert!(rt; matches!(report(Severity::Info), (Ok(()), Some((7, Level::Info)))));
    assert!(rt; matches!(report(Severity::Warning), (Ok(()), Some((7, Level::Warn)))));
    assert!(rt; matches!(report(Severity::Error), (Err(7), None)));
    assert!(rt; RULE.default_severity() == Severity::Error);
}
