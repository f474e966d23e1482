// Made by tests/derive from the declarations of naga_kinds and naga_ir.
//! Names and order of variants.
ghost use Rattle.naga_kinds.specs.derived.Names.{severities, severity_name, standard_filterable_triggering_rule_name, standard_filterable_triggering_rules};

use crate::diagnostic_filter::{Severity, StandardFilterableTriggeringRule};
use crate::plain_kind::PlainKind;

/// The variants of `Severity`, in the order of their declaration.
const SEVERITIES: &[Severity] = &[
    Severity::Off,
    Severity::Info,
    Severity::Warning,
    Severity::Error,
];

impl PlainKind for Severity {
    ghost name_of = { severity_name };

    ghost in_order = { severities };

    fn variants<'a>() -> &'a [Severity] {
        SEVERITIES
    }

    fn name(self) -> &'static str {
        match self {
            Severity::Off => "Off",
            Severity::Info => "Info",
            Severity::Warning => "Warning",
            Severity::Error => "Error",
        }
    }
}

/// The variants of `StandardFilterableTriggeringRule`, in the order of their declaration.
const STANDARD_FILTERABLE_TRIGGERING_RULES: &[StandardFilterableTriggeringRule] = &[
    StandardFilterableTriggeringRule::DerivativeUniformity,
];

impl PlainKind for StandardFilterableTriggeringRule {
    ghost name_of = { standard_filterable_triggering_rule_name };

    ghost in_order = { standard_filterable_triggering_rules };

    fn variants<'a>() -> &'a [StandardFilterableTriggeringRule] {
        STANDARD_FILTERABLE_TRIGGERING_RULES
    }

    fn name(self) -> &'static str {
        match self {
            StandardFilterableTriggeringRule::DerivativeUniformity => "DerivativeUniformity",
        }
    }
}
