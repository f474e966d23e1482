//! Tests of the methods of `Block` on small blocks. A block is written as the letters of its statements, each with its
//! span.
use naga_arena::Span;
use naga_ir::{Barrier, Block, Flags, Statement};
use std::alloc::{AllocError, Global};
use std::test::Fail;

/// Returns the statement that a letter represents.
fn statement(letter: char) -> Statement {
    match letter {
        'b' => Statement::Break,
        'c' => Statement::Continue,
        'r' => Statement::Return { value: None },
        'k' => Statement::Kill,
        _ => Statement::MemoryBarrier(Barrier::empty()),
    }
}

/// Returns the letter that represents a statement.
fn letter(statement: &Statement) -> char {
    match statement {
        Statement::Break => 'b',
        Statement::Continue => 'c',
        Statement::Return { value: None } => 'r',
        Statement::Kill => 'k',
        Statement::MemoryBarrier(_) => 'p',
        _ => '?',
    }
}

/// Returns the block with these letters. The first span starts at `first`: if that is 1, the spans are 1..2, 3..4 and
/// so on.
pub(super) fn block(alloc: Global, letters: &str, first: u32) -> Result<Block, AllocError> {
    let mut block = Block::new(alloc);
    let mut start = first;
    for c in letters.chars() {
        block.push(statement(c), Span::new(start, start.saturating_add(1)))?;
        start = start.saturating_add(2);
    }
    Ok(block)
}

/// Returns the letters of a block, each with its span.
fn shown(alloc: Global, block: &Block) -> Result<String, AllocError> {
    let mut text = String::with_capacity(alloc, 64)?;
    for (statement, span) in block.span_iter() {
        let Span { start, end } = *span;
        let c = letter(statement);
        write!(text, "{c}{start}..{end} ")?;
    }
    Ok(text)
}

/// Returns whether a block is written as `text`. Also returns `true` if allocating the text of the block fails.
pub(super) fn is(alloc: Global, block: &Block, text: &str) -> bool {
    match shown(alloc, block) {
        Ok(shown) => shown.as_str() == text,
        Err(AllocError) => true,
    }
}

/// Returns whether culling an empty range of `p`, `b` and `k` changes nothing, and culling the second position removes
/// `b` with its span.
fn is_culled(alloc: Global, first: &mut Block) -> bool {
    if first.len() != 3 {
        return false;
    }
    first.cull(0..0);
    if first.len() != 3 || !is(alloc, first, "p1..2 b3..4 k5..6 ") {
        return false;
    }
    first.cull(1..2);
    is(alloc, first, "p1..2 k5..6 ")
}

/// Returns whether splicing another block into a block of `p` and `k` replaces `p` with the statements and spans of the
/// other block.
fn is_spliced(alloc: Global, first: &mut Block, other: Block) -> bool {
    first.len() == 2 && first.splice(0..1, other).is_ok() && is(alloc, first, "r7..8 c9..10 k5..6 ")
}

#[test]
fn culled_and_spliced_statements_take_their_spans_along(rt: HostRuntime) -> Result<(), Fail> {
    let alloc = rt.alloc();
    let other = block(alloc, "rc", 7)?;
    let mut first = block(alloc, "pbk", 1)?;
    assert!(rt; is_culled(alloc, &mut first) && is_spliced(alloc, &mut first, other));
    Ok(())
}

/// Returns whether truncating a block of `p`, `b` and `k` to each of these lengths, one after another, leaves the text
/// beside it.
fn is_truncated(alloc: Global, block: &mut Block, rows: &[(usize, &str)]) -> bool {
    for (len, text) in rows {
        block.truncate(*len);
        if !is(alloc, block, text) {
            return false;
        }
    }
    true
}

#[test]
fn a_truncated_block_keeps_its_first_statements(rt: HostRuntime) -> Result<(), Fail> {
    let alloc = rt.alloc();
    let mut block = block(alloc, "pbk", 1)?;
    let rows = &[
        (5, "p1..2 b3..4 k5..6 "),
        (3, "p1..2 b3..4 k5..6 "),
        (2, "p1..2 b3..4 "),
        (0, ""),
    ];
    assert!(rt; is_truncated(alloc, &mut block, rows));
    Ok(())
}

/// Returns whether an empty block with spare capacity for one statement can be extended, by nothing and then by `p`.
fn extends(alloc: Global, first: &mut Block) -> bool {
    let statement = Some((statement('p'), Span::new(1, 2)));
    first.is_empty()
        && first.reserve(1).is_ok()
        && first.extend(None).is_ok()
        && first.extend(statement).is_ok()
        && is(alloc, first, "p1..2 ")
}

/// Returns whether the statements of two other blocks are appended to a block of `p`, and the block `third` is then
/// empty.
fn takes_both(alloc: Global, first: &mut Block, second: Block, third: &mut Block) -> bool {
    first.extend_block(second).is_ok()
        && first.append(third).is_ok()
        && is(alloc, first, "p1..2 k5..6 c7..8 r9..10 ")
        && third.is_empty()
}

#[test]
fn blocks_grow_at_their_end(rt: HostRuntime) -> Result<(), Fail> {
    let alloc = rt.alloc();
    let second = block(alloc, "k", 5)?;
    let mut third = block(alloc, "cr", 7)?;
    let mut first = Block::with_capacity(alloc, 1)?;
    assert!(rt; extends(alloc, &mut first) && takes_both(alloc, &mut first, second, &mut third));
    Ok(())
}

/// Returns whether there is a statement, and it has this letter.
fn has_letter(statement: Option<&Statement>, want: char) -> bool {
    match statement {
        Some(statement) => letter(statement) == want,
        None => false,
    }
}

/// Returns whether the second and the last of three statements can be read, and nothing can be read past the last one.
fn are_read(block: &mut Block) -> bool {
    has_letter(block.get(1), 'b')
        && has_letter(block.last(), 'k')
        && block.get(3).is_none()
        && block.get_mut(3).is_none()
        && block.get_span_mut(3).is_none()
}

/// Writes the third span, the first statement and the last statement, and returns whether the block shows the changes.
fn are_written(alloc: Global, block: &mut Block) -> bool {
    if let Some(span) = block.get_span_mut(2) {
        *span = Span::new(0, 1);
    }
    let shows_span = is(alloc, block, "p1..2 b3..4 k0..1 ");
    if let Some(statement) = block.get_mut(0) {
        *statement = Statement::Continue;
    }
    if let Some(statement) = block.last_mut() {
        *statement = Statement::Break;
    }
    shows_span && is(alloc, block, "c1..2 b3..4 b0..1 ")
}

#[test]
fn statements_and_spans_are_read_and_written_by_position(rt: HostRuntime) -> Result<(), Fail> {
    let alloc = rt.alloc();
    let mut block = block(alloc, "pbk", 1)?;
    assert!(rt; are_read(&mut block) && are_written(alloc, &mut block));
    Ok(())
}

/// Returns whether the last statement of a block is `k` with its span. Removes that statement.
fn is_popped(block: &mut Block) -> bool {
    match block.pop() {
        Some((statement, span)) => letter(&statement) == 'k' && span == Span::new(5, 6),
        None => false,
    }
}

/// Returns whether iterating over a block yields `p` and `b`, and nothing else.
fn is_walked(block: &Block) -> bool {
    let mut statements = block.into_iter();
    has_letter(statements.next(), 'p')
        && has_letter(statements.next(), 'b')
        && statements.next().is_none()
}

/// Returns whether the pairs that a block of `p` and `b` yields, one after another, make up the same block again.
fn gives_up(alloc: Global, block: Block) -> bool {
    let mut again = Block::new(alloc);
    for (statement, span) in block.span_into_iter() {
        if again.push(statement, span).is_err() {
            return false;
        }
    }
    is(alloc, &again, "p1..2 b3..4 ")
}

#[test]
fn a_block_gives_up_its_pairs(rt: HostRuntime) -> Result<(), Fail> {
    let alloc = rt.alloc();
    let mut block = block(alloc, "pbk", 1)?;
    assert!(rt; is_popped(&mut block) && is_walked(&block) && gives_up(alloc, block));
    Ok(())
}

/// Returns whether a vector of `k` and `b` becomes a block of the same statements, without spans.
fn becomes_block(alloc: Global, body: Vec<Statement>) -> bool {
    match Block::from_vec(alloc, body) {
        Ok(block) => is(alloc, &block, "k0..0 b0..0 "),
        Err(_) => false,
    }
}

#[test]
fn a_vector_becomes_a_block_without_spans(rt: HostRuntime) -> Result<(), Fail> {
    let alloc = rt.alloc();
    let body = vec![in alloc; Statement::Kill, Statement::Break]?;
    assert!(rt; becomes_block(alloc, body));
    Ok(())
}
