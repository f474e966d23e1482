//! A program that times calls of the other crates on data of a known size.
//!
//! Without command-line arguments, the program runs each workload once on a small size. For each, it prints a line with
//! its name, the number of its operations, and a checksum of what they returned and what they left. With a name and a
//! number, it runs that workload that many times on its full size. The line then also has the least time, in hundredths
//! of a nanosecond per operation.
#![tactic(auto)]

mod arenas;
mod blocks;
mod bounds;
mod constants;
mod declarations;
mod fault;
mod filters;
mod flattening;
mod handles;
mod item;
mod kinds;
mod layouts;
mod names;
mod passes;
mod processing;
mod returns;
mod sample;
mod sets;
mod spans;
mod types;
mod unique_arenas;
mod uses;
mod workload;

use fault::Fault;
use sample::Sample;
use std::env;
use std::process::ExitCode;
use workload::Workload;

fn main(rt: HostRuntime) -> ExitCode {
    match bench(&rt) {
        Ok(()) => ExitCode::SUCCESS,
        Err(fault) => {
            let _ = rt.eprintln(fault.text());
            ExitCode::FAILURE
        }
    }
}

/// Runs the workloads that the command-line arguments select.
fn bench(rt: &HostRuntime) -> Result<(), Fault> {
    let words: Vec<String> = env::args(rt)?.skip(1).collect(rt.alloc())?;
    match words.as_slice() {
        [] => run_each(rt),
        [name, repeats] => {
            let workload = Workload::named(name.as_str()).ok_or(Fault::Arguments)?;
            let repeats = repeats.parse::<u32>().map_err(|_| Fault::Arguments)?;
            run_often(rt, workload, repeats)
        }
        _ => Err(Fault::Arguments),
    }
}

/// Runs each workload once, on its small size.
fn run_each(rt: &HostRuntime) -> Result<(), Fault> {
    for workload in Workload::ALL {
        let Sample {
            operations,
            checksum,
            ..
        } = workload.run(rt, workload.small_size())?;
        println!(rt; "{} {operations} {checksum}", workload.name())?;
    }
    Ok(())
}

/// Runs a workload `repeats` times, and at least once, on its full size.
fn run_often(rt: &HostRuntime, workload: Workload, repeats: u32) -> Result<(), Fault> {
    let mut least = workload.run(rt, workload.full_size())?;
    for _ in 1..repeats {
        least = least.quicker(workload.run(rt, workload.full_size())?);
    }
    let Sample {
        operations,
        checksum,
        ..
    } = least;
    let hundredths = least.hundredths_an_operation();
    println!(rt; "{} {operations} {checksum} {hundredths}", workload.name())?;
    Ok(())
}
