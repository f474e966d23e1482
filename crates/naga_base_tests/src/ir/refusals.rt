//! Tests of blocks in which any allocation may fail. The state of the blocks is checked both if it succeeds and if it
//! fails.
use super::blocks::{block, is};
use naga_arena::Span;
use naga_ir::{Block, Statement};
use std::alloc::{AllocError, Global};

/// The text of a block of four statements, which must allocate before a fifth one is pushed.
const FOUR: &str = "p1..2 b3..4 k5..6 r7..8 ";

/// The text of that block with `c` at its end.
const FIVE: &str = "p1..2 b3..4 k5..6 r7..8 c9..10 ";

/// Returns the block of four statements.
fn four(alloc: Global) -> Result<Block, AllocError> {
    block(alloc, "pbkr", 1)
}

/// Returns whether `c` was appended to the four statements or, if allocation failed, the block is unchanged.
fn is_five_or_four(alloc: Global, given: Result<(), AllocError>, first: &Block) -> bool {
    match given {
        Ok(()) => is(alloc, first, FIVE),
        Err(AllocError) => is(alloc, first, FOUR),
    }
}

#[test]
fn a_refused_push_leaves_the_block(rt: HostRuntime) {
    let alloc = rt.alloc();
    let Ok(mut first) = four(alloc) else { return };
    let given = first.push(Statement::Continue, Span::new(9, 10));
    assert!(rt; is_five_or_four(alloc, given, &first));
}

#[test]
fn a_refused_extend_leaves_the_block(rt: HostRuntime) {
    let alloc = rt.alloc();
    let Ok(mut first) = four(alloc) else { return };
    let given = first.extend(Some((Statement::Continue, Span::new(9, 10))));
    assert!(rt; is_five_or_four(alloc, given, &first));
}

#[test]
fn what_adds_nothing_takes_no_memory_to_be_refused(rt: HostRuntime) {
    let alloc = rt.alloc();
    let Ok(mut first) = four(alloc) else { return };
    assert!(rt; first.extend(None).is_ok() && first.reserve(0).is_ok());
    assert!(rt; is(alloc, &first, FOUR));
}

/// Returns whether `c` is appended to the four statements or, if allocation fails, both blocks are unchanged.
fn appends_or_stays(alloc: Global, first: &mut Block, second: &mut Block) -> bool {
    match first.append(second) {
        Ok(()) => is(alloc, first, FIVE) && is(alloc, second, ""),
        Err(AllocError) => is(alloc, first, FOUR) && is(alloc, second, "c9..10 "),
    }
}

#[test]
fn a_refused_append_leaves_both_blocks(rt: HostRuntime) {
    let alloc = rt.alloc();
    let Ok(mut first) = four(alloc) else { return };
    let Ok(mut second) = block(alloc, "c", 9) else {
        return
    };
    assert!(rt; appends_or_stays(alloc, &mut first, &mut second));
}

/// Returns whether `k` and `r` replace the second statement of `p` and `b` or, if allocation fails, that block is
/// unchanged.
fn splices_or_stays(alloc: Global, first: &mut Block, second: Block) -> bool {
    if first.len() != 2 {
        return false;
    }
    match first.splice(1..2, second) {
        Ok(()) => is(alloc, first, "p1..2 k5..6 r7..8 "),
        Err(AllocError) => is(alloc, first, "p1..2 b3..4 "),
    }
}

#[test]
fn a_refused_splice_leaves_the_block(rt: HostRuntime) {
    let alloc = rt.alloc();
    let Ok(mut first) = block(alloc, "pb", 1) else {
        return
    };
    let Ok(second) = block(alloc, "kr", 5) else {
        return
    };
    assert!(rt; splices_or_stays(alloc, &mut first, second));
}

#[test]
fn a_refused_block_leaves_the_first(rt: HostRuntime) {
    let alloc = rt.alloc();
    let Ok(mut first) = four(alloc) else { return };
    let Ok(second) = block(alloc, "c", 9) else {
        return
    };
    let given = first.extend_block(second);
    assert!(rt; is_five_or_four(alloc, given, &first));
}

/// Reserves space for nine more statements in a block of one statement, and returns whether a statement can then be
/// pushed. If allocation fails, the block must be unchanged.
fn has_room_or_stays(alloc: Global, first: &mut Block) -> bool {
    match first.reserve(9) {
        // There is enough spare capacity, so neither of the two calls allocates.
        Ok(()) => {
            first.reserve(9).is_ok() && first.push(Statement::Kill, Span::UNDEFINED).is_ok()
        }
        Err(AllocError) => is(alloc, first, "p1..2 "),
    }
}

#[test]
fn a_refused_reserve_leaves_the_block_and_room_is_kept(rt: HostRuntime) {
    let alloc = rt.alloc();
    let Ok(mut first) = block(alloc, "p", 1) else {
        return;
    };
    assert!(rt; has_room_or_stays(alloc, &mut first));
    if let Ok(roomy) = Block::with_capacity(alloc, 4) {
        assert!(rt; roomy.is_empty());
    }
}

#[test]
fn a_vector_comes_back_where_its_block_is_refused(rt: HostRuntime) {
    let alloc = rt.alloc();
    let Ok(body) = vec![in alloc; Statement::Kill, Statement::Break] else {
        return;
    };
    match Block::from_vec(alloc, body) {
        Ok(block) => assert!(rt; is(alloc, &block, "k0..0 b0..0 ")),
        Err(body) => {
            assert!(rt; body.len() == 2);
            assert!(rt; matches!(body.get(0), Some(Statement::Kill)));
        }
    }
}
