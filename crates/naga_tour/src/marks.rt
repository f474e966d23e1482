//! An arena of a user-defined type.
ghost use Rattle.std.specs.Prelude.{codes};

use anyhow::Result;
use naga_proc::arena::{KindName, TryClone};
use naga_proc::{Arena, Span};
use std::alloc::Global;

/// A note that a pass makes about a place in the source.
#[derive(Clone, Debug, Drop)]
pub struct Mark {
    pub depth: u32,
}

/// The kind that represents [`Mark`] in its handles.
#[derive(Clone, Copy)]
pub enum MarkKind {}

impl KindName for Mark {
    type Kind = MarkKind;

    const NAME: &'static str = "Mark";

    ghost name = { codes "Mark" };

    fn kind_name() -> &'static str {
        Self::NAME
    }
}

/// Appends two marks to an arena, clones it, and looks up a third one.
pub fn keep_marks(rt: &impl Print, alloc: Global) -> Result<()> {
    let mut marks = Arena::<Mark>::new(alloc);
    keep_in(rt, &mut marks)
}

/// Does this in an empty arena, which the caller owns.
fn keep_in(rt: &impl Print, marks: &mut Arena<Mark>) -> Result<()> {
    fill_marks(marks)?;
    let copy = TryClone::clone(&*marks)?;
    show_marks(rt, &copy)
}

/// Shows the marks of an arena.
fn show_marks(rt: &impl Print, marks: &Arena<Mark>) -> Result<()> {
    println!(rt;
        "Marks: an arena of a type that this program declares has {} elements",
        marks.len()
    )?;
    for (handle, mark) in marks.iter() {
        println!(rt; "  {handle:?}: {mark:?}")?;
    }
    show_missing(rt, marks)
}

/// Appends two marks.
fn fill_marks(marks: &mut Arena<Mark>) -> Result<()> {
    marks.append(Mark { depth: 1 }, Span::new(0, 3))?;
    marks.append(Mark { depth: 2 }, Span::UNDEFINED)?;
    Ok(())
}

/// Looks up a mark that is not in the arena, and shows the error, which contains the name of its kind.
fn show_missing(rt: &impl Print, marks: &Arena<Mark>) -> Result<()> {
    for handle in naga_proc::Range::<Mark>::up_to(3) {
        if let Err(error) = marks.try_get(handle) {
            println!(rt; "  {error}")?;
        }
    }
    Ok(())
}
