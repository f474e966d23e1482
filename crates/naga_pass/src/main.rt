//! An example of a pass: a program that reads the JSON of a shader module, removes the statements that follow one that
//! diverges, and writes the JSON.
#![tactic(auto)]

use anyhow::Result;
use naga_json_read::read_module;
use naga_json_write::write_module;
use naga_proc::compact::cull_unreachable;
use naga_proc::ir::Module;
use std::alloc::Global;
use std::io;

/// Reads the JSON of a module from standard input, and writes the JSON of the new module to standard output.
fn main(rt: HostRuntime) -> Result<()> {
    let text = io::read_to_string(rt.alloc(), rt.stdin())?;
    let written = passed(rt.alloc(), &text)?;
    println!(rt; "{written}")?;
    Ok(())
}

/// Returns the JSON of the module that the pass makes of a text's module.
fn passed(alloc: Global, text: &str) -> Result<String> {
    let mut module = read_module(alloc, text)?;
    cull_all(&mut module)?;
    let mut written = String::new(alloc);
    write_module(&mut written, &module)?;
    Ok(written)
}

/// Removes the statements that follow one that diverges, in the bodies of all functions and entry points.
fn cull_all(module: &mut Module) -> Result<()> {
    for handle in module.functions.range_from(0) {
        module.functions.check_contains_handle(handle)?;
        cull_unreachable(&mut module.functions.get_mut(handle).body);
    }
    for entry_point in &mut module.entry_points {
        cull_unreachable(&mut entry_point.function.body);
    }
    Ok(())
}
