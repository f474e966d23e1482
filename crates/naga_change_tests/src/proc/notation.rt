//! Texts of the notation, each with its answer or its error. `tests/rows/naga_shape` has more texts.
use naga_proc::{Rule, ShapeError, reshape, reshape_by, reshape_old};
use std::alloc::Global;

/// Returns whether a result is this answer.
fn is_answer(outcome: Result<String, ShapeError>, want: &str) -> bool {
    match outcome {
        Ok(answer) => answer.as_str() == want,
        Err(_) => false,
    }
}

#[test]
fn each_rule_has_a_call_of_its_own(rt: HostRuntime) {
    let (alloc, text) = (rt.alloc(), "s([p>]d[i{b}{}])");
    assert!(rt; is_answer(reshape_old(alloc, text), "s([p>]d[i{b}{r}])"));
    assert!(rt; is_answer(reshape_by(alloc, text, Rule::Old), "s([p>]d[i{b}{r}])"));
    assert!(rt; is_answer(reshape(alloc, text), "s([p>]d[i{b}{r}])r"));
    assert!(rt; reshape(alloc, "i{}").err() == Some(ShapeError::BadText { at: 3 }));
}

/// Allocations that fail while texts are closed.
mod refusals {
    use super::*;

    /// Texts that have an answer, each with its answers by the old rule and by the new one.
    const ANSWERED: &[(&str, &str, &str)] = &[
        ("", "r", "r"),
        ("i{k}{}", "i{k}{r}", "i{k}{r}"),
        ("w{p}{}l{c}{b}", "w{p}{}l{c}{b}r", "w{p}{}l{c}{b}r"),
        ("s(d[]d[>][{}])", "s(d[r]d[>][{r}])", "s(d[r]d[>][{r}])"),
        ("s([s()])", "s([s()])", "s([s()r])r"),
    ];

    /// Returns whether the result for a text is its answer by the rule, or the error `Memory`.
    fn answers_or_wants_memory(alloc: Global, rule: Rule, text: &str, want: &str) -> bool {
        match reshape_by(alloc, text, rule) {
            Ok(answer) => answer.as_str() == want,
            Err(error) => error == ShapeError::Memory,
        }
    }

    #[test]
    fn a_text_is_answered_or_wants_memory(rt: HostRuntime) {
        for (text, old, new) in ANSWERED {
            assert!(rt;
                answers_or_wants_memory(rt.alloc(), Rule::Old, text, old),
                "{text}"
            );
            assert!(rt;
                answers_or_wants_memory(rt.alloc(), Rule::New, text, new),
                "{text}"
            );
        }
    }
}
