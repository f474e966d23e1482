//! A program of the tests, which answers the questions of the tables in `tests/rows`.
//!
//! A line of its input is a subject, a question and a text: the JSON of a module, a body in the notation, the name of a
//! variant, or a text that may be none of these. It prints a line for each.
#![tactic(auto)]

mod bounds;
mod explain;
mod handles;
mod ir;
mod kinds;
mod layouts;
mod names;
mod notation;
mod number;
mod parts;
mod passes;
mod rules;
mod types;
mod wgsl;

use anyhow::Result;
use naga_ir::Module;
use naga_json_read::read_module;
use std::alloc::Global;
use std::io;

fn main(rt: HostRuntime) -> Result<()> {
    let text = io::read_to_string(rt.alloc(), rt.stdin())?;
    answer_all(&rt, rt.alloc(), &text)
}

/// Prints the answer to each line.
fn answer_all(rt: &impl Print, alloc: Global, text: &str) -> Result<()> {
    for line in text.lines() {
        answer_line(rt, alloc, line)?;
    }
    Ok(())
}

/// Prints the answer to a line.
fn answer_line(rt: &impl Print, alloc: Global, line: &str) -> Result<()> {
    let (subject, rest) = line.split_once(' ').unwrap_or((line, ""));
    let (question, text) = rest.split_once(' ').unwrap_or((rest, ""));
    match subject {
        "explain" => explain::answer(rt, alloc, question, text),
        "number" => number::answer(rt, alloc, text),
        "kinds" => kinds::answer(rt, question, text),
        "labels" => names::answer_labels(rt, alloc, question, text),
        "notation" => notation::answer(rt, alloc, question, text),
        "operators" => wgsl::answer_operators(rt, question, text),
        "passes" => passes::answer(rt, alloc, question, text),
        _ => answer_module(rt, alloc, subject, question, text),
    }
}

/// Prints the answer to a question about the module of a text.
fn answer_module(
    rt: &impl Print,
    alloc: Global,
    subject: &str,
    question: &str,
    text: &str,
) -> Result<()> {
    match read_module(alloc, text) {
        Ok(module) => answer(rt, alloc, subject, question, text, &module),
        Err(error) => {
            println!(rt; "unread: {error:?}")?;
            Ok(())
        }
    }
}

/// Prints the answer to a question about a module, whose text is `text`.
fn answer(
    rt: &impl Print,
    alloc: Global,
    subject: &str,
    question: &str,
    text: &str,
    module: &Module,
) -> Result<()> {
    match subject {
        "ir" => ir::answer(rt, alloc, question, module),
        "json" => parts::answer(rt, alloc, question, text, module),
        "types" => types::answer(rt, alloc, question, module),
        "bounds" => bounds::answer(rt, alloc, question, module),
        "names" => names::answer_module(rt, alloc, question, module),
        "layouts" => layouts::answer(rt, alloc, question, module),
        "rules" => rules::answer(rt, alloc, question, module),
        "wgsl" => wgsl::answer(rt, alloc, question, module),
        _ => {
            println!(rt; "unknown subject")?;
            Ok(())
        }
    }
}
