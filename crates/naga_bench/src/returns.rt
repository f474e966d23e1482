//! Workloads on inserting returns into blocks.
use crate::fault::Fault;
use crate::item::mixed;
use crate::sample::{Sample, now, since};
use naga_arena::{Handle, Span};
use naga_ir::{Block, Expression, Statement, SwitchCase, SwitchValue};
use naga_proc::{Rule, ensure_block_returns_by};
use std::alloc::{AllocError, Global};

/// The number of cases of the wide switch.
const CASES: u32 = 16;

/// The way in which blocks are nested, down to a given depth.
#[derive(Clone, Copy)]
pub enum Nesting {
    /// Each block contains one block.
    Chain,
    /// Each block contains a branch of two blocks.
    Tree,
    /// Each block contains a switch without an exit.
    Switches,
    /// Each block contains a switch with an exit.
    Exits,
    /// One switch, with a chain in each of its cases.
    Wide,
}

impl Nesting {
    /// Returns the name of the workload on these blocks.
    pub fn name(self, rule: Rule) -> &'static str {
        match (self, rule) {
            (Nesting::Chain, Rule::New) => "returns_on_chain",
            (Nesting::Chain, Rule::Old) => "returns_on_chain_old",
            (Nesting::Tree, Rule::New) => "returns_on_tree",
            (Nesting::Tree, Rule::Old) => "returns_on_tree_old",
            (Nesting::Switches, Rule::New) => "returns_on_switches",
            (Nesting::Switches, Rule::Old) => "returns_on_switches_old",
            (Nesting::Exits, Rule::New) => "returns_on_exits",
            (Nesting::Exits, Rule::Old) => "returns_on_exits_old",
            (Nesting::Wide, Rule::New) => "returns_on_wide_switch",
            (Nesting::Wide, Rule::Old) => "returns_on_wide_switch_old",
        }
    }

    /// Returns the number of operations on blocks of this depth.
    fn operations(self, depth: u32) -> u32 {
        match self {
            Nesting::Tree => 1_u32.checked_shl(depth).unwrap_or(0),
            Nesting::Wide => depth.saturating_mul(CASES),
            _ => depth,
        }
    }

    /// Returns a block with `depth` levels of nested blocks, of which the innermost are empty.
    fn block(self, alloc: Global, depth: u32) -> Result<Block, AllocError> {
        match self {
            Nesting::Wide => wide_switch(alloc, depth),
            _ => self.nest(alloc, depth),
        }
    }

    /// Returns a block with `depth` levels of nested blocks, each made by `around`.
    fn nest(self, alloc: Global, depth: u32) -> Result<Block, AllocError> {
        let mut block = Block::new(alloc);
        for _ in 0..depth {
            let last = self.around(alloc, block)?;
            block = Block::new(alloc);
            block.push(last, Span::UNDEFINED)?;
        }
        Ok(block)
    }

    /// Returns the statement that contains a block.
    fn around(self, alloc: Global, block: Block) -> Result<Statement, AllocError> {
        match self {
            Nesting::Chain | Nesting::Wide => Ok(Statement::Block(block)),
            Nesting::Tree => branched(block),
            Nesting::Switches => switched(alloc, SwitchValue::Default, block),
            Nesting::Exits => switched(alloc, SwitchValue::U32(0), block),
        }
    }
}

/// Returns a branch of a block and its clone.
fn branched(block: Block) -> Result<Statement, AllocError> {
    let accept = block.clone()?;
    Ok(Statement::If {
        condition: condition(),
        accept,
        reject: block,
    })
}

/// Returns a switch with one case. It has an exit unless that is the default case.
fn switched(alloc: Global, value: SwitchValue, body: Block) -> Result<Statement, AllocError> {
    let mut cases = Vec::new(alloc);
    cases.push(SwitchCase {
        value,
        body,
        fall_through: false,
    })?;
    Ok(Statement::Switch {
        selector: condition(),
        cases,
    })
}

/// Returns a block that contains a switch without an exit. Each of its `CASES` cases is a chain of `depth` blocks.
fn wide_switch(alloc: Global, depth: u32) -> Result<Block, AllocError> {
    let mut cases = Vec::new(alloc);
    for number in 0..CASES {
        let body = Nesting::Chain.nest(alloc, depth)?;
        cases.push(SwitchCase {
            value: value_of_case(number),
            body,
            fall_through: false,
        })?;
    }
    let mut block = Block::new(alloc);
    let last = Statement::Switch {
        selector: condition(),
        cases,
    };
    block.push(last, Span::UNDEFINED)?;
    Ok(block)
}

/// Returns the value of a case of the wide switch. The last case is the default.
fn value_of_case(number: u32) -> SwitchValue {
    if number < CASES - 1 {
        SwitchValue::U32(number)
    } else {
        SwitchValue::Default
    }
}

/// Returns the condition of every branch, which is also the selector of every switch.
pub fn condition() -> Handle<Expression> {
    Handle::<Expression>::from_usize(0).unwrap()
}

/// Times inserting returns into blocks.
pub fn on_returns(
    rt: &HostRuntime,
    size: u32,
    nesting: Nesting,
    rule: Rule,
) -> Result<Sample, Fault> {
    let mut block = nesting.block(rt.alloc(), size)?;
    let start = now(rt);
    let given = ensure_block_returns_by(&mut block, rule);
    let time = since(rt, start);
    let again = ensure_block_returns_by(&mut block, rule);
    let sum = mixed(given.is_ok() as u64, again.is_ok() as u64);
    Sample::of(nesting.operations(size), Ok(sum), block.len() as u64, time)
}
