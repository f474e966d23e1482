//! Runs of blocks, each block given in its notation.
use naga_ir::{Block, Statement};
use naga_notation::read_block;
use naga_runs::{Ending, replay};
use std::alloc::Global;

/// Returns whether the run of a block, by two answers, meets one plain statement and slips out of a switch.
fn is_told(alloc: Global, block: &Block) -> bool {
    match replay(alloc, block, &[0, 1], 1) {
        Ok(told) => {
            told.trace.len() == 1
                && matches!(told.trace.last(), Some(Statement::MemoryBarrier(_)))
                && told.ending == Ending::Normal
                && told.used == 2
                && told.slipped
        }
        Err(_) => false,
    }
}

#[test]
fn runs_are_replayed(rt: HostRuntime) {
    let Ok(block) = read_block(rt.alloc(), b"s([p>][i{b}{}])") else {
        return assert!(rt; false);
    };
    assert!(rt; is_told(rt.alloc(), &block));
}

/// Allocations that fail while blocks are replayed.
mod refusals {
    use super::*;

    #[test]
    fn a_block_stays_and_can_be_replayed(rt: HostRuntime) {
        let alloc = rt.alloc();
        let Ok(block) = read_block(alloc, b"ppr") else {
            return;
        };
        match replay(alloc, &block, &[], 1) {
            Ok(told) => assert!(rt; told.trace.len() == 2),
            Err(_) => assert!(rt; block.len() == 3),
        }
    }

    /// Blocks with answers and a number of turns, by which their runs meet no plain statement.
    const QUIET: &[(&str, &[u32], u32)] = &[
        ("w{c}{b}", &[], 1),
        ("s(d[i{}{p}])", &[0, 1], 1),
        ("i{p}{}", &[], 1),
        ("l{p}{}", &[], 0),
    ];

    #[test]
    fn a_run_that_meets_nothing_asks_for_no_memory(rt: HostRuntime) {
        for (text, answers, turns) in QUIET {
            if let Ok(block) = read_block(rt.alloc(), text.as_bytes()) {
                assert!(rt;
                    replay(rt.alloc(), &block, answers, *turns).is_ok(),
                    "{text}"
                );
            }
        }
    }
}
