//! Workloads on the checks of bodies: that values are evaluated before they are used, and where jumps are allowed.
use crate::fault::Fault;
use crate::handles::append;
use crate::item::span;
use crate::passes::nest;
use crate::sample::{Sample, now, since};
use naga_arena::{Handle, Range};
use naga_ir::{Expression, Function, Statement};
use naga_proc::flow::{check_jumps, check_uses};

/// The body whose uses are checked.
#[derive(Clone, Copy)]
pub enum UsesWork {
    List,
    Nest,
    Chain,
    EmittedChain,
}

impl UsesWork {
    /// Returns the name of the workload.
    pub fn name(self) -> &'static str {
        match self {
            UsesWork::List => "check_uses",
            UsesWork::Nest => "check_uses_nest",
            UsesWork::Chain => "check_uses_chain",
            UsesWork::EmittedChain => "check_uses_emitted_chain",
        }
    }
}

/// The body whose jumps are checked.
#[derive(Clone, Copy)]
pub enum JumpsWork {
    List,
    Nest,
}

impl JumpsWork {
    /// Returns the name of the workload.
    pub fn name(self) -> &'static str {
        match self {
            JumpsWork::List => "check_jumps",
            JumpsWork::Nest => "check_jumps_nest",
        }
    }
}

/// Times the check of the uses in a body of `size` statements, of `size` nested blocks, or over a chain of `size` accesses.
pub fn on_uses(rt: &HostRuntime, size: u32, work: UsesWork) -> Result<Sample, Fault> {
    let mut function = Function::new(rt.alloc());
    match work {
        UsesWork::List => fill(&mut function, size)?,
        UsesWork::Nest => function.body = nest(rt.alloc(), size)?,
        UsesWork::Chain => fill_chain(&mut function, size, false)?,
        UsesWork::EmittedChain => fill_chain(&mut function, size, true)?,
    }
    let start = now(rt);
    let checked = check_uses(rt.alloc(), &function);
    let time = since(rt, start);
    match checked {
        Ok(()) => Sample::of(size, Ok(function.body.len() as u64), 0, time),
        Err(_) => Err(Fault::SetUp),
    }
}

/// Times the check of the jumps in a body of `size` statements, or of `size` nested blocks.
pub fn on_jumps(rt: &HostRuntime, size: u32, work: JumpsWork) -> Result<Sample, Fault> {
    let mut function = Function::new(rt.alloc());
    match work {
        JumpsWork::List => fill(&mut function, size)?,
        JumpsWork::Nest => function.body = nest(rt.alloc(), size)?,
    }
    let start = now(rt);
    let checked = check_jumps(&function);
    let time = since(rt, start);
    match checked {
        Ok(()) => Sample::of(size, Ok(function.body.len() as u64), 0, time),
        Err(_) => Err(Fault::SetUp),
    }
}

/// Appends a chain of `size` accesses to an argument, each over the one before, and stores each of them. If they are
/// emitted, each is evaluated before.
fn fill_chain(function: &mut Function, size: u32, is_emitted: bool) -> Result<(), Fault> {
    let mut base = function
        .expressions
        .append(Expression::FunctionArgument(0), span(0))?;
    for number in 0..size {
        let access = Expression::AccessIndex { base, index: 0 };
        base = function.expressions.append(access, span(number))?;
        if is_emitted {
            let emitted = Range::<Expression>::new_from_bounds(base, base);
            function.body.push(Statement::Emit(emitted), span(number))?;
        }
        let stored = Statement::Store {
            pointer: base,
            value: base,
        };
        function.body.push(stored, span(number))?;
    }
    Ok(())
}

/// Appends `size` statements to the body: by turns one that evaluates three expressions, and one that stores the last of
/// them.
fn fill(function: &mut Function, size: u32) -> Result<(), Fault> {
    append(&mut function.expressions, size.saturating_mul(2))?;
    for number in 0..size {
        let statement = if number % 2 == 0 {
            emit(number)?
        } else {
            store(number)?
        };
        function.body.push(statement, span(number))?;
    }
    Ok(())
}

/// Returns the handle of an expression.
pub fn handle(number: u32) -> Result<Handle<Expression>, Fault> {
    Handle::<Expression>::from_usize(number as usize).ok_or(Fault::SetUp)
}

/// Returns the statement of an even number, which evaluates three of its four expressions. The first one is a literal.
fn emit(number: u32) -> Result<Statement, Fault> {
    let first = handle(number.saturating_mul(2).saturating_add(1))?;
    let last = handle(number.saturating_mul(2).saturating_add(3))?;
    Ok(Statement::Emit(Range::<Expression>::new_from_bounds(first, last)))
}

/// Returns the statement of an odd number, which stores the last expression of the one before.
fn store(number: u32) -> Result<Statement, Fault> {
    let last = handle(number.saturating_mul(2).saturating_add(1))?;
    Ok(Statement::Store {
        pointer: last,
        value: last,
    })
}
