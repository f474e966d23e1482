//! Workloads on passes.
use crate::fault::Fault;
use crate::handles::append;
use crate::item::span;
use crate::sample::{Sample, now, since};
use naga_arena::{Handle, Span};
use naga_ir::{Block, Expression, Function, Module, Statement};
use naga_proc::compact::{
    KeepUnused, compact, compact_function, cull_unreachable, operands_precede,
};
use naga_valid::check_handles;
use std::alloc::{AllocError, Global};

/// The call that is timed.
#[derive(Clone, Copy)]
pub enum PassWork {
    CompactFunction,
    Compact,
    Cull,
}

impl PassWork {
    /// Returns the name of the workload.
    pub fn name(self) -> &'static str {
        match self {
            PassWork::CompactFunction => "compact_function",
            PassWork::Compact => "compact",
            PassWork::Cull => "cull_unreachable",
        }
    }
}

/// Times a pass on a function of `size` expressions, alone or as the only one of a module, or on a block of `size` nested blocks.
pub fn on_pass(rt: &HostRuntime, size: u32, work: PassWork) -> Result<Sample, Fault> {
    match work {
        PassWork::CompactFunction => on_function(rt, size),
        PassWork::Compact => on_module(rt, size),
        PassWork::Cull => on_nest(rt, size),
    }
}

/// Times compacting a function, which keeps half of its expressions.
fn on_function(rt: &HostRuntime, size: u32) -> Result<Sample, Fault> {
    let mut function = Function::new(rt.alloc());
    fill(&mut function, size)?;
    if !operands_precede(&function.expressions) {
        return Err(Fault::SetUp);
    }
    let start = now(rt);
    let compacted = compact_function(rt.alloc(), &mut function);
    let time = since(rt, start);
    match compacted {
        Ok(_) => Sample::of(
            size,
            Ok(function.expressions.len() as u64),
            function.body.len() as u64,
            time,
        ),
        Err(_) => Err(Fault::Memory),
    }
}

/// Times compacting a module with one function, of which half of the expressions are kept.
fn on_module(rt: &HostRuntime, size: u32) -> Result<Sample, Fault> {
    let mut module = Module::new(rt.alloc());
    let mut function = Function::new(rt.alloc());
    fill(&mut function, size)?;
    module.functions.append(function, Span::UNDEFINED)?;
    if check_handles(&module).is_err() {
        return Err(Fault::SetUp);
    }
    let start = now(rt);
    let compacted = compact(rt.alloc(), &mut module, KeepUnused::Yes);
    let time = since(rt, start);
    match compacted {
        Ok(_) => Sample::of(size, Ok(module.functions.len() as u64), 0, time),
        Err(_) => Err(Fault::Memory),
    }
}

/// Appends `size` expressions, of which each one refers at most to the one before it, and every fourth one to none. Of
/// every second group of four, the body stores the last one.
fn fill(function: &mut Function, size: u32) -> Result<(), Fault> {
    append(&mut function.expressions, size)?;
    for number in 0..size {
        if number % 8 == 3 {
            let statement = store(number)?;
            function.body.push(statement, span(number))?;
        }
    }
    Ok(())
}

/// Returns a store of the expression of a number.
fn store(number: u32) -> Result<Statement, Fault> {
    let handle = Handle::<Expression>::from_usize(number as usize).ok_or(Fault::SetUp)?;
    Ok(Statement::Store {
        pointer: handle,
        value: handle,
    })
}

/// Times culling nested blocks. In each of them, one statement is never reached.
fn on_nest(rt: &HostRuntime, size: u32) -> Result<Sample, Fault> {
    let mut block = nest(rt.alloc(), size)?;
    let start = now(rt);
    cull_unreachable(&mut block);
    let time = since(rt, start);
    Sample::of(size, Ok(block.len() as u64), 0, time)
}

/// Returns a block with `depth` levels of nested blocks. Each level has a statement behind one that diverges.
pub fn nest(alloc: Global, depth: u32) -> Result<Block, AllocError> {
    let mut block = Block::new(alloc);
    block.push(Statement::Kill, Span::UNDEFINED)?;
    for _ in 0..depth {
        let inner = block;
        block = Block::new(alloc);
        block.push(Statement::Block(inner), Span::UNDEFINED)?;
        block.push(Statement::Kill, Span::UNDEFINED)?;
    }
    Ok(block)
}
