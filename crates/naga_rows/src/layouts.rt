//! Layouts of types, and their faults.
use anyhow::Result;
use naga_ir::Module;
use naga_layouter::{Layouter, check_layouts, sizes_are_known};
use naga_valid::check_handles;
use std::alloc::Global;

/// Prints the answer to a question about layouts.
pub(crate) fn answer(
    rt: &impl Print,
    alloc: Global,
    question: &str,
    module: &Module,
) -> Result<()> {
    match question {
        "types" => show_layouts(rt, alloc, module),
        "check" => check(rt, alloc, module),
        _ => {
            println!(rt; "unknown question")?;
            Ok(())
        }
    }
}

/// Prints the size and the alignment of each type, with a semicolon after them, and the error of the first type that
/// has none.
fn show_layouts(rt: &impl Print, alloc: Global, module: &Module) -> Result<()> {
    let ctx = module.to_ctx();
    if !sizes_are_known(ctx) {
        println!(rt; "sizes are not known")?;
        return Ok(());
    }
    let mut layouter = Layouter::new(alloc);
    let updated = layouter.update(ctx);
    for layout in layouter.as_slice() {
        print!(rt; "{} {};", layout.size, layout.alignment)?;
    }
    match updated {
        Ok(()) => println!(rt; "")?,
        Err(error) => println!(rt; "{error}")?,
    }
    Ok(())
}

/// Prints the first fault of the layouts of a module, or `ok`.
fn check(rt: &impl Print, alloc: Global, module: &Module) -> Result<()> {
    if let Err(error) = check_handles(module) {
        println!(rt; "{error}")?;
        return Ok(());
    }
    match check_layouts(alloc, module) {
        Ok(()) => println!(rt; "ok")?,
        Err(invalid) => println!(rt; "{invalid}")?,
    }
    Ok(())
}
