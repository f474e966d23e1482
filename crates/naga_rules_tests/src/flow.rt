//! The checks of bodies, each on a body that passes and on one that does not.
use naga_fixtures::module_of;
use naga_flow::{
    Cause, InvalidUse, check_bodies, check_emitted, check_jumps, check_uses, jumps_are_structured,
};
use naga_ir::{Expression, Function, Module};
use naga_notation::read_block;
use naga_sets::HandleSet;
use std::alloc::{AllocError, Global};

/// A module with two functions that store the second expression in the third one, which is an access. Only the first
/// one evaluates the second expression before.
const MODULE: &str =
    r#"{"types":[],"special_types":{"predeclared_types":{}},"constants":[],"overrides":[],
"global_variables":[],"global_expressions":[],
"functions":[{"name":null,"arguments":[],"result":null,"local_variables":[],
"expressions":[{"FunctionArgument":0},{"Unary":{"op":"Negate","expr":0}},{"AccessIndex":{"base":0,"index":0}}],
"named_expressions":{},"body":[{"Emit":{"start":1,"end":2}},{"Store":{"pointer":2,"value":1}}],
"diagnostic_filter_leaf":null},
{"name":null,"arguments":[],"result":null,"local_variables":[],
"expressions":[{"FunctionArgument":0},{"Unary":{"op":"Negate","expr":0}},{"AccessIndex":{"base":0,"index":0}}],
"named_expressions":{},"body":[{"Store":{"pointer":2,"value":1}}],"diagnostic_filter_leaf":null}],
"entry_points":[],"diagnostic_filters":[],"diagnostic_filter_leaf":null,"doc_comments":null}"#;

/// Returns whether this is the text.
fn is_text(shown: Result<String, AllocError>, want: &str) -> bool {
    match shown {
        Ok(text) => text.as_str() == want,
        Err(_) => false,
    }
}

/// Returns whether the second function is found.
fn is_body_found(alloc: Global, module: &Module) -> bool {
    match check_bodies(alloc, module) {
        Ok(()) => false,
        Err(invalid) => is_text(
            invalid.to_string(alloc),
            "function 1: statement 0: expression 1 is used and may not have been evaluated",
        ),
    }
}

/// Returns whether a check found that an expression is not evaluated, with this text.
fn is_found(
    alloc: Global,
    function: &Function,
    outcome: Result<(), InvalidUse>,
    want: &str,
) -> bool {
    match outcome {
        Err(InvalidUse::Misuse(misuse)) => {
            misuse.cause == Cause::NotEvaluated
                && is_text(misuse.display(function).to_string(alloc), want)
        }
        _ => false,
    }
}

/// Returns whether the use of the second expression is found in the second of two functions only.
fn is_use_found(alloc: Global, module: &Module) -> bool {
    match module.functions.as_slice() {
        [passing, late] => {
            check_uses(alloc, passing).is_ok()
                && is_found(
                    alloc,
                    late,
                    check_uses(alloc, late),
                    "body[0]: expression 1 is used and may not have been evaluated",
                )
        }
        _ => false,
    }
}

/// Returns whether the access in the first function is found exactly if it is not among those that need no `Emit`.
fn is_access_found(alloc: Global, function: &Function) -> Result<bool, AllocError> {
    let mut at_use = HandleSet::<Expression>::for_arena(alloc, &function.expressions)?;
    let found = is_found(
        alloc,
        function,
        check_emitted(alloc, function, &at_use),
        "body[1]: expression 2 is used and may not have been evaluated",
    );
    for (handle, _) in function.expressions.iter() {
        at_use.insert(handle)?;
    }
    Ok(found && check_emitted(alloc, function, &at_use).is_ok())
}

/// Returns whether the access in the first function is found.
fn is_first_access_found(alloc: Global, module: &Module) -> bool {
    match module.functions.as_slice() {
        [passing, _] => matches!(is_access_found(alloc, passing), Ok(true)),
        _ => false,
    }
}

#[test]
fn misuses_are_found(rt: HostRuntime) {
    let Some(module) = module_of(rt.alloc(), MODULE) else {
        return assert!(rt; false);
    };
    assert!(rt; is_body_found(rt.alloc(), &module));
    assert!(rt; is_use_found(rt.alloc(), &module));
    assert!(rt; is_first_access_found(rt.alloc(), &module));
}

/// Returns whether the check of a body finds a misplaced jump that is displayed like this, or none if the text is
/// empty.
fn finds(alloc: Global, body: &str, want: &str) -> bool {
    let mut function = Function::new(alloc);
    match read_block(alloc, body.as_bytes()) {
        Ok(body) => function.body = body,
        Err(_) => return false,
    }
    let is_structured = jumps_are_structured(&function.body);
    match check_jumps(&function) {
        Ok(()) => is_structured && want.is_empty(),
        Err(fault) => !is_structured && is_text(fault.display(&function).to_string(alloc), want),
    }
}

#[test]
fn misplaced_jumps_are_found(rt: HostRuntime) {
    assert!(rt; finds(rt.alloc(), "l{bc}{}r", ""));
    assert!(rt;
        finds(
            rt.alloc(),
            "p{c}",
            "body[1].block[0]: a continue outside of a loop"
        )
    );
}

/// Allocations that fail while bodies are checked.
mod refusals {
    use super::*;

    /// Returns whether a check found nothing, or allocation failed.
    fn is_no_misuse(outcome: Result<(), InvalidUse>) -> bool {
        matches!(outcome, Ok(()) | Err(InvalidUse::Memory))
    }

    #[test]
    fn a_refused_allocation_is_no_misuse(rt: HostRuntime) {
        let Some(module) = module_of(rt.alloc(), MODULE) else {
            return;
        };
        if let Some(passing) = module.functions.as_slice().first() {
            assert!(rt; is_no_misuse(check_uses(rt.alloc(), passing)));
        }
    }
}
