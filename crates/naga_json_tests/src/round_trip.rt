//! Tests of modules that are read as they were written, and of modules that are not.
use naga_arena::{Handle, KindHandle, KindRange, Span};
use naga_ir::{
    Block, EntryPoint, Expression, ExpressionKind, Function, Module, ShaderStage, Statement,
    SwitchCase, SwitchValue,
};
use naga_json_round_trip::reads_back;
use std::alloc::{AllocError, Global};

/// The place of a block in a statement.
#[derive(Clone, Copy)]
enum Place {
    Block,
    Accept,
    Reject,
    Case,
    Body,
    Continuing,
}

/// Returns the first handle of an arena of expressions.
fn first() -> KindHandle<ExpressionKind> {
    Handle::<Expression>::at(0)
}

/// Returns a switch whose only case has this body.
fn switch(alloc: Global, body: Block) -> Result<Statement, AllocError> {
    let mut cases = Vec::new(alloc);
    cases.push(SwitchCase {
        value: SwitchValue::Default,
        body,
        fall_through: false,
    })?;
    Ok(Statement::Switch {
        selector: first(),
        cases,
    })
}

/// Returns a statement with this block at a place.
fn around(alloc: Global, place: Place, inner: Block) -> Result<Statement, AllocError> {
    match place {
        Place::Block => Ok(Statement::Block(inner)),
        Place::Accept => Ok(Statement::If {
            condition: first(),
            accept: inner,
            reject: Block::new(alloc),
        }),
        Place::Reject => Ok(Statement::If {
            condition: first(),
            accept: Block::new(alloc),
            reject: inner,
        }),
        Place::Case => switch(alloc, inner),
        Place::Body => Ok(Statement::Loop {
            body: inner,
            continuing: Block::new(alloc),
            break_if: None,
        }),
        Place::Continuing => Ok(Statement::Loop {
            body: Block::new(alloc),
            continuing: inner,
            break_if: None,
        }),
    }
}

/// Returns a block with this statement.
fn block_of(alloc: Global, statement: Statement) -> Result<Block, AllocError> {
    let mut block = Block::new(alloc);
    block.push(statement, Span::UNDEFINED)?;
    Ok(block)
}

/// Returns a block in which this number of blocks are nested in one another, itself included.
fn nested(alloc: Global, place: Place, depth: u32) -> Result<Block, AllocError> {
    let mut block = Block::new(alloc);
    'nesting: for _ in 1..depth {
        block = block_of(alloc, around(alloc, place, block)?)?;
    }
    Ok(block)
}

/// Returns a function with this body.
fn function_of(alloc: Global, body: Block) -> Function {
    let mut function = Function::new(alloc);
    function.body = body;
    function
}

/// Returns whether a module with a function of this body reads back as wanted.
fn function_is(alloc: Global, body: Block, want: bool) -> bool {
    let mut module = Module::new(alloc);
    let appended = module
        .functions
        .append(function_of(alloc, body), Span::UNDEFINED);
    appended.is_ok() && reads_back(&module) == want
}

/// Returns whether a module with an entry point of this body reads back as wanted.
fn entry_point_is(alloc: Global, body: Block, want: bool) -> bool {
    let mut module = Module::new(alloc);
    let pushed = module.entry_points.push(EntryPoint {
        name: String::new(alloc),
        stage: ShaderStage::Compute,
        early_depth_test: None,
        workgroup_size: [64, 1, 1],
        workgroup_size_overrides: None,
        function: function_of(alloc, body),
        mesh_info: None,
        task_payload: None,
        incoming_ray_payload: None,
    });
    pushed.is_ok() && reads_back(&module) == want
}

/// Numbers of blocks nested in one another, and whether they are read.
const DEPTHS: &[(u32, bool)] = &[
    (1, true),
    (2, true),
    (126, true),
    (127, true),
    (128, false),
    (200, false),
];

/// Returns whether functions and entry points with blocks nested at a place read back as wanted.
fn are_read(alloc: Global, place: Place) -> bool {
    'rows: for (depth, want) in DEPTHS {
        let (Ok(body), Ok(again)) = (nested(alloc, place, *depth), nested(alloc, place, *depth))
        else {
            return false;
        };
        if !function_is(alloc, body, *want) || !entry_point_is(alloc, again, *want) {
            return false;
        }
    }
    true
}

#[test]
fn at_most_127_nested_blocks_read_back(rt: HostRuntime) {
    let alloc = rt.alloc();
    assert!(rt; are_read(alloc, Place::Block));
    assert!(rt; are_read(alloc, Place::Accept));
    assert!(rt; are_read(alloc, Place::Reject));
}

#[test]
fn at_most_127_nested_blocks_read_back_in_switches_and_loops(rt: HostRuntime) {
    let alloc = rt.alloc();
    assert!(rt; are_read(alloc, Place::Case));
    assert!(rt; are_read(alloc, Place::Body));
    assert!(rt; are_read(alloc, Place::Continuing));
}

/// The indices of the first and the last expression of a range, and whether the range is read.
const RANGES: &[(usize, usize, bool)] = &[
    (0, 0, true),
    (3, 7, true),
    (5, 4, true),
    (5, 3, false),
    (9, 0, false),
    (4294967294, 4294967294, true),
];

/// Returns whether each range reads back as wanted.
fn ranges_are_read(alloc: Global) -> bool {
    'rows: for (first, last, want) in RANGES {
        if *first > 4294967294 || *last > 4294967294 {
            return false;
        }
        let range = KindRange::new_from_bounds(
            Handle::<Expression>::at(*first),
            Handle::<Expression>::at(*last),
        );
        let Ok(body) = block_of(alloc, Statement::Emit(range)) else {
            return false;
        };
        if !function_is(alloc, body, *want) {
            return false;
        }
    }
    true
}

#[test]
fn ranges_read_back_unless_they_start_later_than_they_end(rt: HostRuntime) {
    assert!(rt; ranges_are_read(rt.alloc()));
}

#[test]
fn a_module_without_declarations_reads_back(rt: HostRuntime) {
    assert!(rt; reads_back(&Module::new(rt.alloc())));
}
