//! Tests of the kinds, their order and their numbers, of the flags and their bits, and of the filters.
mod calls;
mod filter_maps;
mod filters;
mod flags;
mod kinds;
mod reports;
mod searches;

use naga_kinds::{FilterableTriggeringRule, StandardFilterableTriggeringRule};
use std::alloc::{AllocError, Global};
use std::fmt::Debug;

/// The rule that WGSL defines.
const RULE: StandardFilterableTriggeringRule =
    StandardFilterableTriggeringRule::DerivativeUniformity;

/// Creates a rule: the one that WGSL defines if there are no names, or else one of these names.
fn rule(alloc: Global, names: &[&str]) -> Result<FilterableTriggeringRule, AllocError> {
    match names {
        [] => Ok(FilterableTriggeringRule::Standard(RULE)),
        [name] => Ok(FilterableTriggeringRule::Unknown(name.to_string(alloc)?)),
        [tool, name, ..] => {
            let tool = tool.to_string(alloc)?;
            Ok(FilterableTriggeringRule::User(tool, name.to_string(alloc)?))
        }
    }
}

/// Returns whether the debug text of a value is `want`.
fn is_shown<T: Debug>(alloc: Global, value: &T, want: &str) -> bool {
    format!(in alloc; "{value:?}").is_ok_and(|text| text.as_str() == want)
}

/// Returns whether each value is less than the next one.
fn is_ascending<T: PartialOrd>(values: &[T]) -> bool {
    'values: for i in 1..values.len() {
        if !(values[i - 1] < values[i]) {
            return false;
        }
    }
    true
}
