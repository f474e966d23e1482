//! A program that reads a block in a notation of one line, and writes it with its missing returns inserted.
#![tactic(auto)]

mod arguments;
mod laws;
mod line;
mod program;
mod report;
#[cfg(test)]
mod tests;

use arguments::arguments_after_name;
use naga_streams::Counted;
use program::{run, status_of};
use std::env;
use std::io::Lock;
use std::process::ExitCode;

fn main(rt: HostRuntime) -> ExitCode {
    let arguments = arguments_after_name(rt.alloc(), env::args(&rt));
    let mut input = Counted::new(rt.stdin().lock());
    let mut output = Counted::new(rt.stdout().lock());
    let mut errors = rt.stderr().lock();
    status_of(&run(rt.alloc(), arguments, &mut input, &mut output, &mut errors))
}
