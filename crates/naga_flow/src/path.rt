//! The path to a statement of a body.
ghost use Rattle.std.specs.Prelude.{◌≡◌, ◌<◌, ◌≤◌, IfSome, Some};
ghost use Rattle.std.specs.Fmt.{WritesOnOk};
ghost use Rattle.naga_ir.specs.View.{cases_of, node_of, tree_of};
ghost use Rattle.naga_flow.specs.Paths.{IsLower, counted, either, path_at, path_from, path_on, paths_in, paths_in_cases, paths_inside, step_text};

use naga_ir::{Block, Control, Statement, SwitchCase};
use std::fmt;

/// The path to a statement of a body, which is displayed as in `body[4].accept[1]`.
///
/// A step is the position of a statement in its block, or a block of a statement: `block`, `accept`, `reject`,
/// `cases[0].body`, `body` or `continuing`.
#[derive(Clone, Copy, Debug)]
pub struct StatementPath<'a> {
    body: &'a Block,
    statement: u64,
}

impl<'a> StatementPath<'a> {
    /// Returns the path to the statement with this number in `body`. A statement is read before the statements of its
    /// blocks, and these before what follows it; the first one has the number 0.
    ///
    /// If there is no such statement, the path is that of the body.
    pub fn new(body: &'a Block, statement: u64) -> Self
        ensures body { result.body.now ≡ body.now }
        ensures statement { result.statement ≡ statement }
    {
        StatementPath { body, statement }
    }
}

impl fmt::Display for StatementPath<'_> {
    ghost use Rattle.std.specs.Prelude.{Some};
    ghost use Rattle.naga_flow.specs.Paths.{path_text};

    ghost output = { λ path. Some (path_text (tree_of path.body.now) path.statement) };

    fn fmt<W: fmt::Write>(&self, f: &mut fmt::Formatter<W>) -> fmt::Result {
        f.write_str("body")?;
        write_path(f, self.body, self.statement)
    }
}

/// Writes the path from a block to the statement with this number. Writes nothing if there is no such statement.
fn write_path<W: fmt::Write>(f: &mut fmt::Formatter<W>, block: &Block, number: u64) -> fmt::Result
    ensures { WritesOnOk W.write_str_gives f.old result (path_at (paths_in (tree_of block.now)) number) f.new }
{
    let Some(place) = place_in_block(block, number) else {
        return Ok(());
    };
    write!(f, "[{}]", place.position)?;
    match place.inside {
        Some(inside) => {
            inside.step.write(f)?;
            write_path(f, inside.block, inside.number)
        }
        None => Ok(()),
    }
}

/// A statement of a block.
#[derive(Clone, Copy)]
struct Place<'a> {
    position: usize,
    /// The path on, unless it ends at this statement.
    inside: Option<Inside<'a>>,
}

/// A statement inside another one.
#[derive(Clone, Copy)]
struct Inside<'a> {
    step: Step,
    block: &'a Block,
    /// Its number in this block.
    number: u64,
}

/// A block of a statement.
#[derive(Clone, Copy)]
enum Step {
    Block,
    Accept,
    Reject,
    Case(usize),
    Body,
    Continuing,
}

impl Step {
    /// Writes a period and the name of the block.
    fn write<W: fmt::Write>(self, f: &mut fmt::Formatter<W>) -> fmt::Result
        ensures { WritesOnOk W.write_str_gives f.old result (step_text self) f.new }
    {
        match self {
            Step::Block => f.write_str(".block"),
            Step::Accept => f.write_str(".accept"),
            Step::Reject => f.write_str(".reject"),
            Step::Case(position) => write!(f, ".cases[{position}].body"),
            Step::Body => f.write_str(".body"),
            Step::Continuing => f.write_str(".continuing"),
        }
    }
}

/// Returns the statement of a block that has this number, or that contains it.
fn place_in_block(block: &Block, number: u64) -> Option<Place<'_>>
    ensures path { path_from result ≡ path_at (paths_in (tree_of block.now)) number }
    ensures lower { IsLower number result }
{
    let mut left = number;
    'statements: for position in 0..block.len() {
        let statement = block.get(position)?;
        if left == 0 {
            let inside = None;
            return Some(Place { position, inside });
        }
        left -= 1;
        let count = count_inside(statement);
        if left < count {
            let inside = place_in_statement(statement, left);
            return Some(Place { position, inside });
        }
        left -= count;
    }
    None
}

/// Returns the block of a statement that has the statement with this number.
fn place_in_statement(statement: &Statement, number: u64) -> Option<Inside<'_>>
    requires inside { number < counted (paths_inside (node_of statement.now)) }
    ensures path { path_on result ≡ path_at (paths_inside (node_of statement.now)) number }
    ensures lower { IfSome result (λ inside. inside.number ≤ number) }
{
    match statement.control() {
        Control::Block(block) => Some(Inside {
            step: Step::Block,
            block,
            number,
        }),
        Control::If { accept, reject, .. } => {
            Some(place_in_either((Step::Accept, Step::Reject), accept, reject, number))
        }
        Control::Switch { cases, .. } => place_in_cases(cases, number),
        Control::Loop {
            body,
            continuing,
            ..
        } => Some(place_in_either((Step::Body, Step::Continuing), body, continuing, number)),
        Control::Plain
        | Control::Break
        | Control::Continue
        | Control::Return { .. }
        | Control::Kill => None,
    }
}

/// Returns the one of two blocks, read one after the other, that has the statement with this number.
fn place_in_either<'a>(
    steps: (Step, Step),
    first: &'a Block,
    second: &'a Block,
    number: u64,
) -> Inside<'a>
    requires inside { number < counted (either steps (paths_in (tree_of first.now)) (paths_in (tree_of second.now))) }
    ensures path { path_on (Some result)
        ≡ path_at (either steps (paths_in (tree_of first.now)) (paths_in (tree_of second.now))) number }
    ensures lower { result.number ≤ number }
{
    let count = count_statements(first);
    if number < count {
        Inside {
            step: steps.0,
            block: first,
            number,
        }
    } else {
        Inside {
            step: steps.1,
            block: second,
            number: number - count,
        }
    }
}

/// Returns the body of a case that has the statement with this number.
fn place_in_cases(cases: &[SwitchCase], number: u64) -> Option<Inside<'_>>
    requires inside { number < counted (paths_in_cases 0 (cases_of cases.now)) }
    ensures path { path_on result ≡ path_at (paths_in_cases 0 (cases_of cases.now)) number }
    ensures lower { IfSome result (λ inside. inside.number ≤ number) }
{
    let mut left = number;
    'cases: for (position, case) in cases.iter().enumerate() {
        let count = count_statements(&case.body);
        if left < count {
            return Some(Inside {
                step: Step::Case(position),
                block: &case.body,
                number: left,
            });
        }
        left -= count;
    }
    None
}

/// Returns the number of statements of a block, including those in nested blocks, up to `u64::MAX`.
#[cycle(count)]
fn count_statements(block: &Block) -> u64
    ensures { result ≡ counted (paths_in (tree_of block.now)) }
{
    let mut count = 0u64;
    'statements: for statement in block {
        count = count
            .saturating_add(1)
            .saturating_add(count_inside(statement));
    }
    count
}

/// Returns the number of statements inside a statement, up to `u64::MAX`.
#[cycle(count)]
fn count_inside(statement: &Statement) -> u64
    ensures { result ≡ counted (paths_inside (node_of statement.now)) }
{
    match statement.control() {
        Control::Block(inner) => count_statements(inner),
        Control::If { accept, reject, .. } => {
            count_statements(accept).saturating_add(count_statements(reject))
        }
        Control::Switch { cases, .. } => count_in_cases(cases),
        Control::Loop {
            body,
            continuing,
            ..
        } => count_statements(body).saturating_add(count_statements(continuing)),
        Control::Plain
        | Control::Break
        | Control::Continue
        | Control::Return { .. }
        | Control::Kill => 0,
    }
}

/// Returns the number of statements in the bodies of cases, up to `u64::MAX`.
#[cycle(count)]
fn count_in_cases(cases: &[SwitchCase]) -> u64
    ensures { result ≡ counted (paths_in_cases 0 (cases_of cases.now)) }
{
    let mut count = 0u64;
    'cases: for case in cases {
        count = count.saturating_add(count_statements(&case.body));
    }
    count
}
