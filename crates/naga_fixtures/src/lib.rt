//! Modules for tests, each from its JSON.
#![tactic(auto)]

use naga_ir::Module;
use naga_json_read::read_module;
use std::alloc::Global;

/// Returns the module of a JSON text, or `None` if the text is not that of a module, or allocation fails.
pub fn module_of(alloc: Global, text: &str) -> Option<Module> {
    read_module(alloc, text).ok()
}
