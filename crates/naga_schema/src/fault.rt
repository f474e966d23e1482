//! Faults, and the paths that lead to them.
ghost use Rattle.std.specs.Prelude.{◌≡◌, ◌∷◌, [], IfOk, Some, None, map, option_map, reverse};
ghost use Rattle.std.specs.Fmt.{DisplaysOnOk};
ghost use Rattle.naga_schema.specs.Messages.{first_step_text, path_text, step_text, steps_text};
ghost use Rattle.naga_schema.specs.Path.{blame_of, found_of, here, into_of, within};
ghost use Rattle.naga_schema.specs.Finds.{Finds};

use crate::mismatch::{Mismatch, Shown};
use std::alloc::{AllocError, Global};
use std::fmt;

/// A step of a path into a JSON value.
#[derive(Clone, Copy, Debug, PartialEq, Eq, Drop)]
pub enum Step<'a> {
    /// To the field with a name.
    Field(&'a str),
    /// To what the variant with a name holds.
    Variant(&'a str),
    /// To the item at a position.
    Item(usize),
    /// To the entry with a key.
    Entry(&'a str),
}

/// A cause, and the path to the value in which it is.
#[derive(Debug, Drop)]
pub struct Fault<'a> {
    /// The steps of the path, from the last to the first.
    pub(crate) steps: Vec<Step<'a>>,
    /// The reason why the value at the end of the path is none of its type.
    pub(crate) cause: Mismatch<'a>,
}

impl<'a> Fault<'a> {
    /// Returns the steps of the path, from the last to the first.
    pub fn steps(&self) -> &[Step<'a>]
        ensures { result.now ≡ self.now.steps.items }
    {
        &self.steps
    }

    /// Returns the reason why the value at the end of the path is none of its type.
    pub fn cause(&self) -> Mismatch<'a>
        ensures { result ≡ self.now.cause }
    {
        self.cause
    }
}

impl fmt::Display for Fault<'_> {
    ghost use Rattle.naga_schema.specs.Messages.{found_text};
    ghost use Rattle.naga_schema.specs.Path.{found_of};

    ghost output = { λ fault. found_text (found_of fault) };

    fn fmt<W: fmt::Write>(&self, f: &mut fmt::Formatter<W>) -> fmt::Result {
        write_path(f, &self.steps)?;
        write!(f, "{}", self.cause)
    }
}

/// Writes a path of these steps, from the last to the first, with a colon behind it if there is a step.
fn write_path<W: fmt::Write>(f: &mut fmt::Formatter<W>, steps: &[Step<'_>]) -> fmt::Result
    ensures { DisplaysOnOk W.write_str_gives f.old result
        (path_text (map into_of (reverse steps.now))) f.new }
{
    match steps.split_last() {
        Some((first, rest)) => {
            write_first_step(f, *first)?;
            write_steps(f, rest)?;
            f.write_str(": ")
        }
        None => Ok(()),
    }
}

/// Writes these steps behind another one, from the last to the first.
fn write_steps<W: fmt::Write>(f: &mut fmt::Formatter<W>, steps: &[Step<'_>]) -> fmt::Result
    ensures { DisplaysOnOk W.write_str_gives f.old result
        (steps_text (map into_of (reverse steps.now))) f.new }
{
    match steps.split_last() {
        Some((step, others)) => {
            write_step(f, *step)?;
            write_steps(f, others)
        }
        None => Ok(()),
    }
}

/// Writes the first step of a path.
fn write_first_step<W: fmt::Write>(f: &mut fmt::Formatter<W>, step: Step<'_>) -> fmt::Result
    ensures { DisplaysOnOk W.write_str_gives f.old result
        (first_step_text (into_of step.entry)) f.new }
{
    match step {
        Step::Field(name) | Step::Variant(name) => f.write_str(name),
        Step::Item(_) | Step::Entry(_) => write_step(f, step),
    }
}

/// Writes a step behind another one.
fn write_step<W: fmt::Write>(f: &mut fmt::Formatter<W>, step: Step<'_>) -> fmt::Result
    ensures { DisplaysOnOk W.write_str_gives f.old result (step_text (into_of step.entry)) f.new }
{
    match step {
        Step::Field(name) | Step::Variant(name) => write!(f, ".{name}"),
        Step::Item(position) => write!(f, "[{position}]"),
        Step::Entry(key) => write!(f, "[{}]", Shown(key)),
    }
}

/// What a search for a fault returns.
pub(crate) type Found<'a> = Result<Option<Fault<'a>>, AllocError>;

/// Returns a fault of a value by itself.
pub(crate) fn here<'a>(alloc: Global, cause: Mismatch<'a>) -> Found<'a>
    ensures { Finds result (here (blame_of cause.entry)) }
{
    Ok(Some(Fault {
        steps: Vec::new(alloc),
        cause,
    }))
}

/// Returns a fault in a part of a value as one of the whole value.
pub(crate) fn within<'a>(step: Step<'a>, found: Option<Fault<'a>>) -> Found<'a>
    ensures { Finds result (within (into_of step.entry) (option_map found_of found.entry)) }
{
    match found {
        None => Ok(None),
        Some(fault) => {
            let Fault { mut steps, cause } = fault;
            steps.push(step)?;
            Ok(Some(Fault { steps, cause }))
        }
    }
}
