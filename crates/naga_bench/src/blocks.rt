//! Workloads on blocks of statements.
use crate::fault::Fault;
use crate::item::{mixed, span};
use crate::sample::{Sample, now, since};
use naga_ir::{Block, Statement};
use std::alloc::{AllocError, Global};

/// The operation that is timed on a block.
#[derive(Clone, Copy)]
pub enum BlockWork {
    Push,
    SpliceCull,
    Clone,
}

impl BlockWork {
    /// Returns the name of the workload.
    pub fn name(self) -> &'static str {
        match self {
            BlockWork::Push => "block_push",
            BlockWork::SpliceCull => "block_splice_cull",
            BlockWork::Clone => "block_clone",
        }
    }

    /// Runs the timed operation, on an empty block for `Push` and on a block of `size` statements otherwise.
    fn run(self, alloc: Global, block: &mut Block, size: u32) -> Result<u64, Fault> {
        match self {
            BlockWork::Push => push(block, size)?,
            BlockWork::SpliceCull => splice_cull(alloc, block)?,
            BlockWork::Clone => *block = block.clone()?,
        }
        Ok(0)
    }
}

/// Times an operation on a block.
pub fn on_block(rt: &HostRuntime, size: u32, work: BlockWork) -> Result<Sample, Fault> {
    let mut block = match work {
        BlockWork::Push => Block::new(rt.alloc()),
        _ => filled(rt.alloc(), size)?,
    };
    let start = now(rt);
    let given = work.run(rt.alloc(), &mut block, size);
    let time = since(rt, start);
    Sample::of(size, given, sum_of(&block), time)
}

/// Appends `size` statements to a block.
fn push(block: &mut Block, size: u32) -> Result<(), AllocError> {
    for number in 0..size {
        block.push(Statement::Kill, span(number))?;
    }
    Ok(())
}

/// Creates a block of `size` statements.
fn filled(alloc: Global, size: u32) -> Result<Block, AllocError> {
    let mut block = Block::new(alloc);
    push(&mut block, size)?;
    Ok(block)
}

/// Returns a checksum of the spans of a block's statements.
fn sum_of(block: &Block) -> u64 {
    let mut sum = 0;
    for (_, span) in block.span_iter() {
        sum = mixed(sum, span.start as u64);
    }
    sum
}

/// Replaces statements in the middle of a block, sixteen times.
fn splice_cull(alloc: Global, block: &mut Block) -> Result<(), AllocError> {
    for _ in 0..16 {
        exchange(alloc, block)?;
    }
    Ok(())
}

/// Removes four statements from the middle, or as many as there are, and inserts four others there.
fn exchange(alloc: Global, block: &mut Block) -> Result<(), AllocError> {
    let four = filled(alloc, 4)?;
    let middle = block.len() / 2;
    let end = block.len().min(middle.saturating_add(4));
    block.cull(middle..end);
    block.splice(middle..middle, four)
}
