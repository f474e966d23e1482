//! Closing every function of a module, and showing the statements of a body with their locations.
use crate::source::text;
use anyhow::Result;
use naga_proc::ensure_block_returns;
use naga_proc::ir::{Block, Module, Statement};

/// Closes the body of each function and of each entry point. A body that is already closed is unchanged.
pub fn close_all(module: &mut Module) -> Result<()> {
    for handle in module.functions.range_from(0) {
        module.functions.check_contains_handle(handle)?;
        ensure_block_returns(&mut module.functions.get_mut(handle).body)?;
    }
    for entry_point in &mut module.entry_points {
        ensure_block_returns(&mut entry_point.function.body)?;
    }
    Ok(())
}

/// Shows the bodies of all entry points.
pub fn show_bodies(rt: &impl Print, module: &Module) -> Result<()> {
    for entry_point in &module.entry_points {
        println!(rt;
            "Locations of the statements of {}, after closing",
            entry_point.name
        )?;
        show_places(rt, &entry_point.function.body)?;
        show_emits(rt, &entry_point.function.body)?;
    }
    Ok(())
}

/// Shows on which line each statement begins. A return that was inserted has no location.
fn show_places(rt: &impl Print, body: &Block) -> Result<()> {
    for (statement, span) in body.span_iter() {
        let plain = statement.is_plain();
        match span.location(text()) {
            Some(place) if span.is_defined() => {
                let (line, position) = (place.line_number, place.line_position);
                println!(rt; "  line {line}, position {position}, plain: {plain}")?;
            }
            _ => println!(rt; "  no location: {statement:?}")?,
        }
    }
    Ok(())
}

/// Shows the ranges that the statements of a body emit.
fn show_emits(rt: &impl Print, body: &Block) -> Result<()> {
    for statement in body {
        if let Statement::Emit(range) = statement {
            println!(rt; "  emitted: {range:?}")?;
        }
    }
    Ok(())
}
