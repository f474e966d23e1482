//! A tour of this layer: a small fragment shader, built with public calls only, closed, run and queried.
//!
//! Start reading at `main`, next to what the program prints.
#![tactic(auto)]

mod closing;
mod declarations;
mod filters;
mod first;
mod marks;
mod passes;
mod questions;
mod runs;
mod scaled;
mod source;
mod tally;
mod texts;
mod vectors;

use anyhow::Result;
use naga_proc::ir::Module;
use std::alloc::Global;

/// Owns the module, which all following functions borrow.
fn main(rt: HostRuntime) -> Result<()> {
    let alloc = rt.alloc();
    let mut module = Module::new(alloc);
    tour(&rt, alloc, &mut module)
}

/// Goes through the steps of the tour, in order.
fn tour(rt: &impl Print, alloc: Global, module: &mut Module) -> Result<()> {
    first::close_first(rt, alloc)?;
    texts::show_texts(rt, alloc)?;
    marks::keep_marks(rt, alloc)?;
    show_source(rt)?;
    let declared = declarations::declare(rt, alloc, module)?;
    let scaled = scaled::add_scaled(rt, alloc, module, &declared)?;
    tally::add_tally(rt, alloc, module, &declared, scaled)?;
    runs::close_body(rt, alloc, module)?;
    closing::close_all(module)?;
    closing::show_bodies(rt, module)?;
    questions::ask(rt, alloc, module, &declared)?;
    vectors::flatten(rt, alloc)?;
    filters::filter(rt, alloc)?;
    passes::run_passes(rt, alloc)?;
    show_counts(rt, module)
}

/// Shows the text of the shader, to which the spans refer.
fn show_source(rt: &impl Print) -> Result<()> {
    println!(rt; "The shader, as a front end would read it:\n")?;
    println!(rt; "{}", source::text())?;
    Ok(())
}

/// Shows what the module contains at the end.
fn show_counts(rt: &impl Print, module: &Module) -> Result<()> {
    println!(rt; "The module contains")?;
    let counts = [
        ("types", module.types.len()),
        ("overrides", module.overrides.len()),
        ("constants", module.constants.len()),
        ("global variables", module.global_variables.len()),
        ("global expressions", module.global_expressions.len()),
        ("functions", module.functions.len()),
        ("entry points", module.entry_points.len()),
    ];
    for (name, count) in counts {
        println!(rt; "  {name}: {count}")?;
    }
    Ok(())
}
