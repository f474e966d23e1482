//! Tests of texts in WGSL.
mod literals;
mod refusals;
mod types;

use naga_compact::operands_precede;
use naga_fixtures::module_of;
use naga_ir::{Expression, Module};
use naga_sets::HandleSet;
use naga_wgsl::written_out;
use std::alloc::{AllocError, Global};

/// A module of a function that stores a sum of sums. Its expressions are an argument, a literal, a sum that is used twice,
/// two sums that are used once, a variable, its value, a sum that has a name, and a last sum.
const SUMS: &str =
    r#"{"types":[{"name":null,"inner":{"Scalar":{"kind":"Uint","width":4}}}],"special_types":{"predeclared_types":{}},"constants":[],"overrides":[],"global_variables":[{"name":"v","space":"Private","binding":null,"ty":0,"init":null,"memory_decorations":""}],"global_expressions":[],"functions":[{"name":"f","arguments":[{"name":"a","ty":0,"binding":null}],"result":null,"local_variables":[],"expressions":[{"FunctionArgument":0},{"Literal":{"U32":1}},{"Binary":{"op":"Add","left":0,"right":1}},{"Binary":{"op":"Add","left":2,"right":2}},{"Binary":{"op":"Add","left":3,"right":1}},{"GlobalVariable":0},{"Load":{"pointer":5}},{"Binary":{"op":"Add","left":4,"right":6}},{"Binary":{"op":"Add","left":7,"right":1}}],"named_expressions":{"7":"named"},"body":[{"Emit":{"start":2,"end":9}},{"Store":{"pointer":5,"value":8}}],"diagnostic_filter_leaf":null}],"entry_points":[],"diagnostic_filters":[],"diagnostic_filter_leaf":null,"doc_comments":null}"#;

/// The expressions of [`SUMS`] that a text writes out: those that are ready, and the sums that are used once and have no
/// name.
const WRITTEN: [usize; 6] = [0, 1, 3, 4, 5, 8];

/// Returns whether these are the members of a set.
fn has_members(members: &HandleSet<Expression>, expected: &[usize]) -> bool {
    let mut rest = expected;
    for handle in members.iter() {
        match rest.split_first() {
            Some((first, others)) if *first == handle.index() => rest = others,
            _ => return false,
        }
    }
    rest.is_empty()
}

/// Returns whether the text of the first function of a module writes these expressions out. Returns `None` if allocation
/// fails, or the module has no function.
fn first_writes_out(alloc: Global, module: &Module, expected: &[usize]) -> Option<bool> {
    let function = module.functions.as_slice().first()?;
    if !operands_precede(&function.expressions) {
        return Some(false);
    }
    match written_out(alloc, function) {
        Ok(written) => Some(has_members(&written, expected)),
        Err(AllocError) => None,
    }
}

/// Returns whether [`SUMS`] is written out as it should be, or `None` if allocation fails.
fn is_written_out(alloc: Global) -> Option<bool> {
    let module = module_of(alloc, SUMS)?;
    first_writes_out(alloc, &module, &WRITTEN)
}

#[test]
fn sums_that_are_used_once_are_written_out(rt: HostRuntime) {
    assert!(rt; is_written_out(rt.alloc()) == Some(true));
}
