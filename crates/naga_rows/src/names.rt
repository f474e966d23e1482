//! Names of labels, and of what a module declares.
use anyhow::Result;
use naga_ir::Module;
use naga_namer::{Namer, ReservedNames, WGSL};
use std::alloc::Global;

/// A language with few words.
const FEW: ReservedNames<'static> = ReservedNames {
    keywords: &["M_PI_2", "if", "v1_", "member"],
    builtins: &["sin"],
    case_insensitive: &["pass"],
    prefixes: &["__", "_group", "gl_"],
};

/// Returns the words of a language: those of WGSL, or few.
fn language(question: &str) -> ReservedNames<'static> {
    match question {
        "wgsl" => WGSL,
        _ => FEW,
    }
}

/// Prints the answer to a question about labels: the base of one, or the names of some with semicolons between them, one
/// after another, in a language.
pub(crate) fn answer_labels(
    rt: &impl Print,
    alloc: Global,
    question: &str,
    text: &str,
) -> Result<()> {
    match question {
        "base" => show_base(rt, alloc, text),
        _ => show_names(rt, alloc, language(question), text),
    }
}

/// Prints the base of the names of a label.
fn show_base(rt: &impl Print, alloc: Global, label: &str) -> Result<()> {
    let namer = Namer::new(alloc, FEW);
    let base = namer.sanitize(label)?;
    println!(rt; "{base}")?;
    Ok(())
}

/// Prints the names of labels, with semicolons between them.
fn show_names(
    rt: &impl Print,
    alloc: Global,
    reserved: ReservedNames<'static>,
    labels: &str,
) -> Result<()> {
    let mut namer = Namer::new(alloc, reserved);
    for (position, label) in labels.split(';').enumerate() {
        let name = namer.call(label)?;
        print!(rt; "{}{name}", if position > 0 { ";" } else { "" })?;
    }
    println!(rt; "")?;
    Ok(())
}

/// Prints the names of what a module declares, in a language.
pub(crate) fn answer_module(
    rt: &impl Print,
    alloc: Global,
    question: &str,
    module: &Module,
) -> Result<()> {
    let mut namer = Namer::new(alloc, FEW);
    let names = namer.reset(module, language(question))?;
    println!(rt; "{names:?}")?;
    Ok(())
}
