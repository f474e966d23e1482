//! Blocks, which are lists of statements, each with its span.
ghost use Rattle.std.specs.Prelude.{◌≡◌, ◌+◌, ◌-◌, ◌<◌, ◌≤◌, ◌↔◌, ◌==◌, ◌++◌, ◌∷◌, [], ℕ, length, IsOk, IsSome, OnOk, OnErr, IfOk, IfErr, IfSome, option_to_list, slice_get, take};
ghost use Rattle.std.specs.List.{remove_range, splice};
ghost use Rattle.std.specs.Option.{option_copied};
ghost use Rattle.std.specs.Borrow.{sem};
ghost use Rattle.naga_ir.specs.Block.{last_statement, pairs, statements, spans, room, with_undefined};
ghost use Rattle.naga_ir.specs.Lends.{LendsStatement, LendsSpan};

mod iter;

use crate::statement::Statement;
pub use iter::{BlockIntoIter, BlockIter, BlockSpanIter};
use naga_arena::Span;
use std::alloc::{AllocError, Global};
use std::ops::Range;

/// A list of statements, each with its span.
///
/// In contracts, a block is the list of its statements and spans (`pairs`), together with its spare capacity (`room`):
/// the number of pushes that cannot fail. Two blocks with the same list have the same meaning, whatever their spare
/// capacity.
#[cycle(statement)]
#[derive(Debug, Drop)]
pub struct Block {
    entries: Vec<(Statement, Span)>,
}

/// Clones the block. This allocates one vector, and whatever the clones of the statements allocate. Statements that
/// jump or store, as most statements do, are copied in place.
impl Clone for Block {
    ghost use Rattle.naga_ir.specs.Clones.{IsBlockClone};

    ghost is_clone = { IsBlockClone };

    #[cycle(statement)]
    fn clone(&self) -> Result<Self, AllocError> {
        let mut entries = Vec::with_capacity(*self.entries.allocator(), self.entries.len())?;
        'statements: for (statement, span) in &self.entries {
            let copy = match statement {
                Statement::Break => Statement::Break,
                Statement::Continue => Statement::Continue,
                Statement::Kill => Statement::Kill,
                Statement::Return { value } => Statement::Return { value: *value },
                Statement::Store { pointer, value } => Statement::Store {
                    pointer: *pointer,
                    value: *value,
                },
                _ => Clone::clone(statement)?,
            };
            entries.push_reserved((copy, *span));
        }
        Ok(Block { entries })
    }
}

impl Block {
    /// Creates an empty block. Nothing is allocated.
    pub fn new(alloc: Global) -> Self
        ensures { pairs result ≡ [] }
    {
        Block {
            entries: Vec::new(alloc),
        }
    }

    /// Creates a block of these statements, with undefined spans. If allocation fails, returns the statements as `Err`.
    pub fn from_vec(alloc: Global, body: Vec<Statement>) -> Result<Self, Vec<Statement>>
        ensures ok { IfOk result (λ block. pairs block ≡ with_undefined body.items) }
        ensures err { IfErr result (λ statements. statements ≡ body) }
        ensures succeeds { body.items ≡ [] → IsOk result }
    {
        let mut entries = match Vec::with_capacity(alloc, body.len()) {
            Ok(entries) => entries,
            Err(_) => return Err(body),
        };
        'statements: for statement in body {
            entries.push_reserved((statement, Span::UNDEFINED));
        }
        Ok(Block { entries })
    }

    /// Creates an empty block with spare capacity for `capacity` pushes. Returns `Err` if allocation fails.
    pub fn with_capacity(alloc: Global, capacity: usize) -> Result<Self, AllocError>
        ensures empty { IfOk result (λ block. pairs block ≡ []) }
        ensures room { IfOk result (λ block. capacity ≤ room block) }
        ensures succeeds { capacity ≡ 0 → IsOk result }
    {
        let entries = Vec::with_capacity(alloc, capacity)?;
        Ok(Block { entries })
    }

    /// Appends a statement with its span.
    ///
    /// Cannot fail if the block has spare capacity. If allocation fails, the block is unchanged and `statement` is
    /// dropped.
    pub fn push(&mut self, statement: Statement, span: Span) -> Result<(), AllocError>
        ensures ok { OnOk result (pairs self.new ≡ pairs self.old ++ (statement, span) ∷ []) }
        ensures err { OnErr result (pairs self.new ≡ pairs self.old) }
        ensures room { room self.old ≤ room self.new + 1 }
        ensures succeeds { 0 < room self.old → IsOk result }
    {
        self.entries.push((statement, span))?;
        Ok(())
    }

    /// Appends the statement of `item` with its span, if there is one. `None` allocates nothing. If allocation fails,
    /// the block is unchanged and the statement is dropped.
    pub fn extend(&mut self, item: Option<(Statement, Span)>) -> Result<(), AllocError>
        ensures ok { OnOk result (pairs self.new ≡ pairs self.old ++ option_to_list item) }
        ensures err { OnErr result (pairs self.new ≡ pairs self.old) }
        ensures room { room self.old ≤ room self.new + length (option_to_list item) }
        ensures succeeds { length (option_to_list item) ≤ room self.old → IsOk result }
    {
        if let Some((statement, span)) = item {
            self.push(statement, span)?;
        }
        Ok(())
    }

    /// Appends the statements of another block. If allocation fails, this block is unchanged and `other` is dropped.
    pub fn extend_block(&mut self, mut other: Self) -> Result<(), AllocError>
        ensures ok { OnOk result (pairs self.new ≡ pairs self.old ++ pairs other) }
        ensures err { OnErr result (pairs self.new ≡ pairs self.old) }
        ensures room { room self.old ≤ room self.new + length (pairs other) }
        ensures room_kept { OnErr result (room self.old ≤ room self.new) }
        ensures succeeds { length (pairs other) ≤ room self.old → IsOk result }
    {
        self.append(&mut other)
    }

    /// Moves the statements of another block to the end of this one, leaving the other block empty.
    ///
    /// The other block keeps its capacity: the space of the moved statements becomes spare capacity. If allocation
    /// fails, both blocks are unchanged.
    pub fn append(&mut self, other: &mut Self) -> Result<(), AllocError>
        ensures ok { OnOk result (pairs self.new ≡ pairs self.old ++ pairs other.old) }
        ensures emptied { OnOk result (pairs other.new ≡ []) }
        ensures err { OnErr result ((pairs self.new ≡ pairs self.old) × (pairs other.new ≡ pairs other.old)) }
        ensures room { room self.old ≤ room self.new + length (pairs other.old) }
        ensures room_kept { OnErr result (room self.old ≤ room self.new) }
        ensures emptied_room { OnOk result (room other.new ≡ room other.old + length (pairs other.old)) }
        ensures other_room { OnErr result (room other.new ≡ room other.old) }
        ensures succeeds { length (pairs other.old) ≤ room self.old → IsOk result }
    {
        self.entries.append(&mut other.entries)
    }

    /// Removes the statements at these positions.
    ///
    /// The caller must ensure that the start of `range` is at most its end, and its end at most the length of the
    /// block.
    pub fn cull(&mut self, range: Range<usize>)
        requires ordered { range.start ≤ range.end }
        requires within { range.end ≤ length (pairs self.old) }
        ensures removed { pairs self.new ≡ remove_range (pairs self.old) range.start range.end }
        ensures room { room self.new ≡ room self.old + (range.end - range.start) }
    {
        self.entries.drain(range);
    }

    /// Keeps the first `len` statements with their spans and drops the others, as `Vec::truncate` does.
    ///
    /// A block of at most `len` statements is unchanged. The space of the dropped statements becomes spare capacity.
    /// Differs from naga, whose blocks have no such method.
    pub fn truncate(&mut self, len: usize)
        ensures kept { pairs self.new ≡ take len (pairs self.old) }
        ensures room { room self.new ≡ room self.old + (length (pairs self.old) - len) }
    {
        self.entries.truncate(len);
    }

    /// Replaces the statements at these positions with the statements of another block, reusing their space.
    ///
    /// Cannot fail if the length of `other` is at most the number of replaced statements plus the spare capacity. If
    /// allocation fails, this block is unchanged and `other` is dropped.
    ///
    /// The caller must ensure that the start of `range` is at most its end, and its end at most the length of the
    /// block.
    pub fn splice(&mut self, range: Range<usize>, mut other: Self) -> Result<(), AllocError>
        requires ordered { range.start ≤ range.end }
        requires within { range.end ≤ length (pairs self.old) }
        ensures ok { OnOk result (pairs self.new ≡ splice (pairs self.old) range.start range.end (pairs other)) }
        ensures err { OnErr result (pairs self.new ≡ pairs self.old) }
        ensures room { OnOk result (room self.old + (range.end - range.start) ≤ room self.new + length (pairs other)) }
        ensures room_kept { OnErr result (room self.old ≤ room self.new) }
        ensures succeeds { length (pairs other) ≤ room self.old + (range.end - range.start) → IsOk result }
    {
        let start = range.start;
        let added = other.len();
        self.reserve(added.saturating_sub(range.end - start))?;
        self.cull(range);
        self.append(&mut other)?;
        self.entries[start..].rotate_right(added);
        Ok(())
    }

    /// Consumes the block, returning an iterator over its statements with their spans, from first to last.
    pub fn span_into_iter(self) -> BlockIntoIter
        ensures { result ≡ pairs self }
    {
        BlockIntoIter::new(self.entries)
    }

    /// Returns an iterator over references to the statements and their spans, from first to last.
    pub fn span_iter(&self) -> BlockSpanIter<'_>
        ensures { result ≡ pairs self.now }
    {
        BlockSpanIter::new(&self.entries)
    }

    /// Returns whether the block has no statements.
    pub fn is_empty(&self) -> bool
        ensures { result ≡ (length (pairs self.now) == 0) }
    {
        self.entries.is_empty()
    }

    /// Returns the number of statements.
    pub fn len(&self) -> usize
        ensures { result ≡ length (pairs self.now) }
    {
        self.entries.len()
    }

    /// Returns a reference to the statement at a position, or `None` if the position is past the last statement.
    pub fn get(&self, position: usize) -> Option<&Statement>
        ensures { option_copied result ≡ slice_get (statements self.now) position }
    {
        match self.entries.get(position) {
            Some(pair) => Some(&pair.0),
            None => None,
        }
    }

    /// Returns a reference to the last statement, or `None` if the block is empty.
    pub fn last(&self) -> Option<&Statement>
        ensures { option_copied result ≡ last_statement self.now }
    {
        match self.entries.last() {
            Some(pair) => Some(&pair.0),
            None => None,
        }
    }

    /// Returns a mutable reference to the statement at a position, or `None` if the position is past the last
    /// statement.
    ///
    /// Writing through the reference changes neither the span of the statement, nor the other statements, nor the spare
    /// capacity.
    pub fn get_mut(&mut self, position: usize) -> Option<&mut Statement>
        ensures* writes_back { sem 𝓛 (LendsStatement self.entry position result) }
        ensures some { IsSome result ↔ (position < length (pairs self.old)) }
        ensures value { IfSome result (λ statement. slice_get (statements self.old) position ≡ Some statement.now) }
    {
        let pair = self.entries.get_mut(position)?;
        Some(&mut pair.0)
    }

    /// Returns a mutable reference to the last statement, or `None` if the block is empty.
    ///
    /// Writing through the reference changes neither the span of the statement, nor the other statements, nor the spare
    /// capacity.
    pub fn last_mut(&mut self) -> Option<&mut Statement>
        ensures* writes_back { sem 𝓛 (LendsStatement self.entry (length (pairs self.old) - 1) result) }
        ensures some { IsSome result ↔ (0 < length (pairs self.old)) }
        ensures value { IfSome result (λ statement. last_statement self.old ≡ Some statement.now) }
    {
        let len = self.len();
        if len == 0 {
            return None;
        }
        self.get_mut(len - 1)
    }

    /// Returns a mutable reference to the span at a position, or `None` if the position is past the last statement.
    ///
    /// Writing through the reference changes neither the statement with this span, nor the other spans, nor the spare
    /// capacity.
    pub fn get_span_mut(&mut self, position: usize) -> Option<&mut Span>
        ensures* writes_back { sem 𝓛 (LendsSpan self.entry position result) }
        ensures some { IsSome result ↔ (position < length (pairs self.old)) }
        ensures value { IfSome result (λ span. slice_get (spans self.old) position ≡ Some span.now) }
    {
        let pair = self.entries.get_mut(position)?;
        Some(&mut pair.1)
    }

    /// Removes the last statement and returns it with its span, or returns `None` if the block is empty.
    ///
    /// The space of the removed statement becomes spare capacity.
    pub fn pop(&mut self) -> Option<(Statement, Span)>
        ensures pairs { pairs self.old ≡ pairs self.new ++ option_to_list result }
        ensures some { IsSome result ↔ (0 < length (pairs self.old)) }
        ensures room { room self.new ≡ room self.old + length (option_to_list result) }
    {
        self.entries.pop()
    }

    /// Reserves space for `additional` pushes, which then cannot fail.
    ///
    /// Nothing is allocated if there is already enough spare capacity. If allocation fails, the block is unchanged.
    pub fn reserve(&mut self, additional: usize) -> Result<(), AllocError>
        ensures unchanged { pairs self.new ≡ pairs self.old }
        ensures room { OnOk result (additional ≤ room self.new) }
        ensures room_kept { room self.old ≤ room self.new }
        ensures succeeds { additional ≤ room self.old → IsOk result }
    {
        self.entries.reserve(additional)
    }
}
