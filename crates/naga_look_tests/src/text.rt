//! Tests of texts. `tests/rows/tables/naga_text` and `tests/rows/naga_opt` have the texts of modules.
mod pieces;
mod refusals;

use crate::compared::{NEW, OLD, SMALL, TEXT};
use naga_fixtures::module_of;
use naga_ir::Module;
use naga_text::{module_text, module_text_compared};
use std::alloc::{AllocError, Global};

/// The text of [`SMALL`].
const SMALL_TEXT: &str = "function 0 \"f\" {\n    break\n}\n";

/// Returns whether a text was made, and is the expected one, or `None` if an allocation failed.
fn is(made: Result<String, AllocError>, expected: &str) -> Option<bool> {
    match made {
        Ok(text) => Some(text.as_str() == expected),
        Err(AllocError) => None,
    }
}

/// Returns whether a module is [`SMALL`] by its text, also if it is compared with itself. Returns `None` if an
/// allocation failed.
fn is_small(alloc: Global, module: &Module) -> Option<bool> {
    let alone = is(module_text(alloc, module), SMALL_TEXT)?;
    let compared = is(module_text_compared(alloc, module, module), SMALL_TEXT)?;
    Some(alone && compared)
}

/// Returns whether [`SMALL`] has its text, or `None` if an allocation failed.
fn is_written(alloc: Global) -> Option<bool> {
    let module = module_of(alloc, SMALL)?;
    is_small(alloc, &module)
}

/// Returns whether [`NEW`] has its text if it is compared with an old module, or `None` if an allocation failed.
fn is_marked(alloc: Global, old: &Module) -> Option<bool> {
    let new = module_of(alloc, NEW)?;
    is(module_text_compared(alloc, old, &new), TEXT)
}

/// Returns whether [`NEW`] has its text if it is compared with [`OLD`], or `None` if an allocation failed.
fn is_compared(alloc: Global) -> Option<bool> {
    let old = module_of(alloc, OLD)?;
    is_marked(alloc, &old)
}

#[test]
fn modules_are_written(rt: HostRuntime) {
    assert!(rt; is_written(rt.alloc()) == Some(true));
    assert!(rt; is_compared(rt.alloc()) == Some(true));
}
