//! The iterators over a block: over its statements, over its statements with their spans, and over the statements and
//! spans that are moved out of it.
ghost use Rattle.std.specs.Prelude.{◌≡◌, IfSome, Some, length};
ghost use Rattle.std.specs.Iterator.{UpTo, YieldsFirstRef, YieldsFirstBy, YieldsFirst, YieldsLastRef, item_count};
ghost use Rattle.std.specs.Iterator.SizeHint.{IsWithinCount};

use super::Block;
use crate::statement::Statement;
use naga_arena::Span;
use std::iter::FusedIterator;
use std::marker::Model;
use std::vec;

/// An iterator over the statements of a block, from first to last.
///
/// In contracts, it is the list of its remaining items.
#[derive(Drop)]
pub struct BlockIter<'a> {
    entries: &'a [(Statement, Span)],
}

impl<'a> Model for BlockIter<'a> {
    ghost use Rattle.std.specs.Prelude.{List, map};
    ghost use Rattle.std.specs.Coded.{codes};
    ghost use Rattle.naga_ir.specs.contracts.statement.Statement as step;
    ghost use Rattle.naga_ir.specs.declared.statement.Statement.{Statement as Step};

    ghost Value = { List Step };

    ghost coded = { Prim.hlevel (codes, step.the_row.coded) };

    ghost view = { λ it. map (λ pair. pair.0) it.entries.now };
}

impl<'a> Iterator for BlockIter<'a> {
    type Item = &'a Statement;

    ghost next_gives = { YieldsFirstRef (λ rest. rest) };

    ghost remaining = { item_count (λ rest. rest) };

    fn next(&mut self) -> Option<&'a Statement> {
        let (first, rest) = self.entries.split_first()?;
        self.entries = rest;
        Some(&first.0)
    }

    fn size_hint(&self) -> (usize, Option<usize>)
        ensures lower { IsWithinCount result.0 (item_count (λ rest. rest) self.now) }
        ensures upper { IfSome result.1 (UpTo (item_count (λ rest. rest) self.now)) }
        ensures value { result ≡ (length self.now, Some (length self.now)) }
    {
        let len = self.entries.len();
        (len, Some(len))
    }
}

impl<'a> DoubleEndedIterator for BlockIter<'a> {
    ghost next_back_gives = { YieldsLastRef (λ rest. rest) };

    fn next_back(&mut self) -> Option<&'a Statement> {
        let (last, rest) = self.entries.split_last()?;
        self.entries = rest;
        Some(&last.0)
    }
}

impl<'a> ExactSizeIterator for BlockIter<'a> {
    fn len(&self) -> usize {
        self.entries.len()
    }
}

impl<'a> FusedIterator for BlockIter<'a> {}

/// An iterator over the statements of a block with their spans, from first to last.
///
/// In contracts, it is the list of its remaining items.
#[derive(Drop)]
pub struct BlockSpanIter<'a> {
    entries: &'a [(Statement, Span)],
}

impl<'a> Model for BlockSpanIter<'a> {
    ghost use Rattle.std.specs.Prelude.{List};
    ghost use Rattle.std.specs.Coded.{codes};
    ghost use Rattle.naga_ir.specs.contracts.statement.Statement as step;
    ghost use Rattle.naga_ir.specs.declared.statement.Statement.{Statement as Step};
    ghost use Rattle.naga_arena.specs.declared.span.Span.{Span as Place};

    ghost Value = { List (Step × Place) };

    ghost coded = { Prim.hlevel (codes, step.the_row.coded) };

    ghost view = { λ it. it.entries.now };
}

impl<'a> BlockSpanIter<'a> {
    pub(super) fn new(entries: &'a [(Statement, Span)]) -> Self
        ensures { result ≡ entries.now }
    {
        BlockSpanIter { entries }
    }
}

impl<'a> Iterator for BlockSpanIter<'a> {
    type Item = (&'a Statement, &'a Span);

    ghost next_gives = { YieldsFirstBy (λ item. (item.0.now, item.1.now)) (λ rest. rest) };

    ghost remaining = { item_count (λ rest. rest) };

    fn next(&mut self) -> Option<(&'a Statement, &'a Span)> {
        let (first, rest) = self.entries.split_first()?;
        self.entries = rest;
        Some((&first.0, &first.1))
    }

    fn size_hint(&self) -> (usize, Option<usize>)
        ensures lower { IsWithinCount result.0 (item_count (λ rest. rest) self.now) }
        ensures upper { IfSome result.1 (UpTo (item_count (λ rest. rest) self.now)) }
        ensures value { result ≡ (length self.now, Some (length self.now)) }
    {
        let len = self.entries.len();
        (len, Some(len))
    }
}

impl<'a> FusedIterator for BlockSpanIter<'a> {}

/// An iterator that owns the statements of a consumed block and their spans, and yields them from first to last.
///
/// In contracts, it is the list of its remaining items.
#[derive(Drop)]
pub struct BlockIntoIter {
    entries: vec::IntoIter<(Statement, Span)>,
}

impl Model for BlockIntoIter {
    ghost use Rattle.std.specs.Prelude.{List};
    ghost use Rattle.std.specs.Vec.Iter.{into_iter_items};
    ghost use Rattle.std.specs.Coded.{codes};
    ghost use Rattle.naga_ir.specs.contracts.statement.Statement as step;
    ghost use Rattle.naga_ir.specs.declared.statement.Statement.{Statement as Step};
    ghost use Rattle.naga_arena.specs.declared.span.Span.{Span as Place};

    ghost Value = { List (Step × Place) };

    ghost coded = { Prim.hlevel (codes, step.the_row.coded) };

    ghost view = { λ it. into_iter_items it.entries };
}

impl BlockIntoIter {
    ghost use Rattle.std.specs.Prelude.{◌≡◌};

    pub(super) fn new(entries: Vec<(Statement, Span)>) -> Self
        ensures { result ≡ entries.items }
    {
        BlockIntoIter {
            entries: entries.into_iter(),
        }
    }
}

impl Iterator for BlockIntoIter {
    type Item = (Statement, Span);

    ghost next_gives = { YieldsFirst (λ rest. rest) };

    ghost remaining = { item_count (λ rest. rest) };

    fn next(&mut self) -> Option<(Statement, Span)> {
        self.entries.next()
    }

    fn size_hint(&self) -> (usize, Option<usize>)
        ensures lower { IsWithinCount result.0 (item_count (λ rest. rest) self.now) }
        ensures upper { IfSome result.1 (UpTo (item_count (λ rest. rest) self.now)) }
        ensures value { result ≡ (length self.now, Some (length self.now)) }
    {
        let len = self.entries.len();
        (len, Some(len))
    }
}

impl FusedIterator for BlockIntoIter {}

impl<'a> IntoIterator for &'a Block {
    type Item = &'a Statement;

    type IntoIter = BlockIter<'a>;

    ghost use Rattle.std.specs.Prelude.{◌≡◌};
    ghost use Rattle.naga_ir.specs.Block.{statements};

    ghost into_iter_gives = { λ block it. it ≡ statements block.now };

    fn into_iter(self) -> BlockIter<'a> {
        BlockIter {
            entries: &self.entries,
        }
    }
}
