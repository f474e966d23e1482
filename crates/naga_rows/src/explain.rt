//! Why a text is not JSON, or not the JSON of a module.
use anyhow::Result;
use json_fault::find_text_fault;
use naga_explain::message_of;
use naga_ir::Module;
use naga_json_read::{ReadError, read_module};
use std::alloc::Global;

/// Prints the answer to a question about a text that may not be the JSON of a module.
pub(crate) fn answer(rt: &impl Print, alloc: Global, question: &str, text: &str) -> Result<()> {
    match question {
        "text" => show_fault(rt, alloc, text),
        "error" => show_error(rt, alloc, text),
        "module" => explain(rt, alloc, text),
        _ => {
            println!(rt; "unknown question")?;
            Ok(())
        }
    }
}

/// Prints the fault of a text that is not JSON, or `ok`.
fn show_fault(rt: &impl Print, alloc: Global, text: &str) -> Result<()> {
    match find_text_fault(alloc, text)? {
        Some(fault) => println!(rt; "{fault}")?,
        None => println!(rt; "ok")?,
    }
    Ok(())
}

/// Prints `ok` for a module that was read.
fn show_read(rt: &impl Print, _module: &Module) -> Result<()> {
    println!(rt; "ok")?;
    Ok(())
}

/// Prints the error of a text that is not read as a module, or `ok`.
fn show_error(rt: &impl Print, alloc: Global, text: &str) -> Result<()> {
    match read_module(alloc, text) {
        Ok(module) => show_read(rt, &module),
        Err(error) => {
            println!(rt; "{error}")?;
            Ok(())
        }
    }
}

/// Prints the message for a text that is not read as a module for this reason.
fn show_message(rt: &impl Print, alloc: Global, text: &str, error: ReadError) -> Result<()> {
    let message = message_of(alloc, text, 0, error)?;
    println!(rt; "{message}")?;
    Ok(())
}

/// Prints the message for a text that is not read as a module, or `ok`.
fn explain(rt: &impl Print, alloc: Global, text: &str) -> Result<()> {
    match read_module(alloc, text) {
        Ok(module) => show_read(rt, &module),
        Err(error) => show_message(rt, alloc, text, error),
    }
}
