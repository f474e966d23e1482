//! Tests of the writer in which any allocation may fail. Each call must either succeed as usual, or report that it is
//! out of memory and leave what it was given unchanged.
use super::{nan_in_entry_point, nan_in_function, nan_in_module};
use crate::doubling::DOUBLING;
use naga_ir::Module;
use naga_json_read::{ReadError, read_module};
use naga_json_write::{WriteError, write_module};
use std::alloc::Global;

/// Returns whether a module is written after a text, or allocation failed and the text is unchanged.
fn is_appended_or_refused(alloc: Global, module: &Module) -> bool {
    let Ok(mut out) = String::from_str(alloc, "front") else {
        return true;
    };
    match write_module(&mut out, module) {
        Ok(()) => out.len() == 5 + DOUBLING.len(),
        Err(error) => error == WriteError::Memory && out.as_str() == "front",
    }
}

/// Returns whether a module is written into an empty text, or allocation failed and the text is empty.
fn is_written_or_refused(alloc: Global, module: &Module) -> bool {
    let mut out = String::new(alloc);
    match write_module(&mut out, module) {
        Ok(()) => out.as_str() == DOUBLING,
        Err(error) => error == WriteError::Memory && out.is_empty(),
    }
}

/// Returns whether a module is read and written, or allocation failed.
fn is_read_and_written_or_refused(alloc: Global) -> bool {
    match read_module(alloc, DOUBLING) {
        Ok(module) => {
            is_written_or_refused(alloc, &module) && is_appended_or_refused(alloc, &module)
        }
        Err(error) => error == ReadError::Memory,
    }
}

/// Returns whether a module was not made, or is reported as not finite.
fn is_not_finite(alloc: Global, module: Option<Module>) -> bool {
    let Some(module) = module else {
        return true;
    };
    let mut out = String::new(alloc);
    match write_module(&mut out, &module) {
        Ok(()) => false,
        Err(error) => error == WriteError::NotFinite,
    }
}

#[test]
fn modules_are_written_or_refused(rt: HostRuntime) {
    assert!(rt; is_read_and_written_or_refused(rt.alloc()));
}

#[test]
fn a_nan_is_reported_whether_or_not_an_allocation_fails(rt: HostRuntime) {
    let alloc = rt.alloc();
    assert!(rt; is_not_finite(alloc, nan_in_module(alloc)));
    assert!(rt; is_not_finite(alloc, nan_in_function(alloc)));
    assert!(rt; is_not_finite(alloc, nan_in_entry_point(alloc)));
}
