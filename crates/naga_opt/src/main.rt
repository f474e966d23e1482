//! A program that reads the JSON of a shader module, runs passes on it, and writes it, or shows it.
//!
//! Only tested: which files are read and written, that an output file is replaced at once, and the line for a terminal.
#![tactic(auto)]

mod answer;
mod arguments;
mod choices;
mod flag;
mod laws;
mod line;
mod program;
mod replacement;
mod report;
mod said;
mod streams;
mod task;
#[cfg(test)]
mod tests;
mod text;
mod usage;

use arguments::{arguments_after_name, command_of};
use naga_streams::Counted;
use program::run;
use std::env;
use std::io::Lock;
use std::process::ExitCode;
use streams::{Sink, Source};

fn main(rt: HostRuntime) -> ExitCode {
    let arguments = arguments_after_name(rt.alloc(), env::args(&rt));
    let command = command_of(rt.alloc(), arguments);
    let mut errors = rt.stderr().lock();
    let source = Source::of(&rt, &command);
    source.announce(&mut errors);
    let mut errors = Counted::new(errors);
    let mut input = Counted::new(source);
    let mut output = Counted::new(Sink::of(&rt, &command));
    let ended = run(rt.alloc(), &command, &mut input, &mut output, &mut errors);
    ended.exit_code()
}
