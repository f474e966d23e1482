//! The ends of a block that get a return, with the paths to them.
ghost use Rattle.std.specs.Prelude.{◌≡◌, ◌++◌, [], ◌∷◌, IfOk, codes};
ghost use Rattle.std.specs.Fmt.{decimal};
ghost use Rattle.naga_ir.specs.View.{cases_of, node_of, tree_of};
ghost use Rattle.naga_proc.specs.Closing.{follows_switch};
ghost use Rattle.naga_proc.specs.declared.terminator.rule.Rule.TheVariants.{New};
ghost use Rattle.naga_look.specs.OpenEnds.{AddsEnds, case_name, end_if, ends_at, ends_in_case, ends_in_cases, inner_path, missing_returns, open_ends};

use naga_ir::{Block, Control, Function, Statement, SwitchCase};
use naga_proc::has_exit;
use naga_text::Text;
use std::alloc::{AllocError, Global};

/// Returns the paths to the blocks of a function that get a return under [`Rule::New`](naga_proc::Rule::New), up to
/// `limit`.
pub(crate) fn missing_returns(
    alloc: Global,
    function: &Function,
    limit: usize,
) -> Result<Vec<Text>, AllocError>
    ensures { IfOk result (λ paths. paths.items ≡ missing_returns limit function.now) }
{
    let mut body = Text::new(alloc);
    body.push("body")?;
    let mut paths = Vec::new(alloc);
    push_ends(&mut paths, &body, limit, &function.body)?;
    Ok(paths)
}

/// Appends the path of each end of a block that gets a return, up to `limit`, each behind `before`. Returns how many more
/// there may be.
#[cycle(ends)]
fn push_ends(
    paths: &mut Vec<Text>,
    before: &Text,
    limit: usize,
    block: &Block,
) -> Result<usize, AllocError>
    ensures { IfOk result (AddsEnds before.now limit (open_ends New (tree_of block.now)) paths.old.items paths.new.items) }
{
    match block.last() {
        Some(last) => {
            let position = block.len().saturating_sub(1);
            push_ends_at(paths, before, limit, position, last)
        }
        None => push_end(paths, before, limit),
    }
}

/// Appends the paths of a block that ends in a statement, which is at this position.
#[cycle(ends)]
fn push_ends_at(
    paths: &mut Vec<Text>,
    before: &Text,
    limit: usize,
    position: usize,
    last: &Statement,
) -> Result<usize, AllocError>
    ensures { IfOk result (AddsEnds before.now limit (ends_at New position (node_of last.now)) paths.old.items paths.new.items) }
{
    match last.control() {
        Control::Plain => push_end(paths, before, limit),
        Control::Loop { .. } => push_end(paths, before, limit),
        Control::Block(inner) => {
            let inside = inner_path(before, position, "].block")?;
            push_ends(paths, &inside, limit, inner)
        }
        Control::If { accept, reject, .. } => {
            let accepted = inner_path(before, position, "].accept")?;
            let left = push_ends(paths, &accepted, limit, accept)?;
            let rejected = inner_path(before, position, "].reject")?;
            push_ends(paths, &rejected, left, reject)
        }
        Control::Switch { cases, .. } => {
            let left = push_ends_in_cases(paths, before, limit, position, cases)?;
            push_end_after(paths, before, left, cases)
        }
        Control::Break => Ok(limit),
        Control::Continue => Ok(limit),
        Control::Return { .. } => Ok(limit),
        Control::Kill => Ok(limit),
    }
}

/// Appends the paths of the bodies of cases that do not fall through.
#[cycle(ends)]
fn push_ends_in_cases(
    paths: &mut Vec<Text>,
    before: &Text,
    limit: usize,
    position: usize,
    cases: &[SwitchCase],
) -> Result<usize, AllocError>
    ensures { IfOk result (AddsEnds before.now limit (ends_in_cases New position 0 (cases_of cases.now)) paths.old.items paths.new.items) }
{
    let mut left = limit;
    'cases: for number in 0..cases.len() {
        left = push_ends_in_case(paths, before, left, position, number, &cases[number])?;
    }
    Ok(left)
}

/// Appends the paths of the body of a case with this number, and none if it falls through.
#[cycle(ends)]
fn push_ends_in_case(
    paths: &mut Vec<Text>,
    before: &Text,
    limit: usize,
    position: usize,
    number: usize,
    case: &SwitchCase,
) -> Result<usize, AllocError>
    ensures { IfOk result (AddsEnds before.now limit (ends_in_case New position (number, case.now)) paths.old.items paths.new.items) }
{
    if case.fall_through {
        return Ok(limit);
    }
    let inside = case_path(before, position, number)?;
    push_ends(paths, &inside, limit, &case.body)
}

/// Appends the path of a block that ends in a switch with these cases, if a return follows the switch.
fn push_end_after(
    paths: &mut Vec<Text>,
    before: &Text,
    limit: usize,
    cases: &[SwitchCase],
) -> Result<usize, AllocError>
    ensures { IfOk result (AddsEnds before.now limit (end_if (follows_switch New (cases_of cases.now))) paths.old.items paths.new.items) }
{
    if has_exit(cases) {
        push_end(paths, before, limit)
    } else {
        Ok(limit)
    }
}

/// Appends the path of a block.
fn push_end(paths: &mut Vec<Text>, before: &Text, limit: usize) -> Result<usize, AllocError>
    ensures { IfOk result (AddsEnds before.now limit ([] ∷ []) paths.old.items paths.new.items) }
{
    if limit == 0 {
        return Ok(0);
    }
    let path = before.copy()?;
    paths.push(path)?;
    Ok(limit - 1)
}

/// Returns a path with a position and the name of a block, which begins with `]`, appended.
fn inner_path(before: &Text, position: usize, name: &str) -> Result<Text, AllocError>
    ensures { IfOk result (λ path. path ≡ before.now ++ (codes "[" ++ (decimal position ++ name.now))) }
{
    let mut path = before.copy()?;
    path.push("[")?;
    path.push_number(position as u64)?;
    path.push(name)?;
    Ok(path)
}

/// Returns a path with the step to the body of a case appended.
fn case_path(before: &Text, position: usize, number: usize) -> Result<Text, AllocError>
    ensures { IfOk result (λ path. path ≡ before.now ++ inner_path position (case_name number)) }
{
    let mut path = inner_path(before, position, "].cases[")?;
    path.push_number(number as u64)?;
    path.push("].body")?;
    Ok(path)
}
