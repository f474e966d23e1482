//! The check of uses.
ghost use Rattle.std.specs.Prelude.{◌≡◌, ◌≤◌, IfOk, [], length};
ghost use Rattle.std.specs.FinSet as set;
ghost use Rattle.naga_ir.specs.Tree.{switch};
ghost use Rattle.naga_ir.specs.View.{cases_of, node_of, tree_of};
ghost use Rattle.naga_flow.specs.Misuses.{BlockMisuse, CasesMisuse, Judged, NodeMisuse};
ghost use Rattle.naga_flow.specs.Readings.{emitted_in, expressions_read, read_in};
ghost use Rattle.naga_flow.specs.Scopes.{BlockPasses, EvaluatedOnce};
ghost use Rattle.naga_flow.specs.Tracking.{known_of, scope_of};
ghost use Rattle.naga_flow.specs.Uses.{UsesKnown, expressions_in};
ghost use Rattle.naga_flow.specs.Walked.{EndsBranch, EndsLoop, HasKept, HasPassed, HasPassedCases, HasPassedInner, HasWalked, IfPassed, either_passed, passed_if};
ghost use Rattle.naga_flow.specs.Ways.{may_be_passed};

use crate::chains::Chains;
use crate::constant_chains::constant_chains;
use crate::invalid_use::InvalidUse;
use crate::known::Known;
use crate::plain::walk_plain;
use crate::reading::{require, require_present};
use crate::reads::{Reading, Reads};
use crate::walked::{Passed, Walked};
use crate::ways::Ways;
use naga_arena::{Handle, Span};
use naga_ir::{Block, Control, Expression, Function, Statement, SwitchCase};
use naga_runs::{has_default, last_falls};
use naga_sets::HandleSet;
use std::alloc::Global;

/// Checks that each expression of a function is evaluated before its value is used, whatever way control takes through
/// the body, that each `Emit` and each result is of an expression that gets its value by such a statement, and that no
/// expression is evaluated again in its scope.
///
/// What a block evaluates is known in the statements after it and in the blocks inside these. It is not known after the
/// block, except that a continuing block knows what the body of its loop evaluates for certain: by statements before
/// each one that contains a `Continue`, and before each one that control never reaches. If control never goes on after
/// the body, what the continuing block and the break condition use is not examined. An access chain that ends in a
/// variable, an argument or another expression that needs no `Emit` need not be evaluated where it is used, but its
/// indices must be.
///
/// The scope of what a block evaluates ends with the block; only the scope of what the body of a loop evaluates includes
/// the continuing block, also of what a `Continue` may skip.
///
/// Returns the first misuse, in the order in which the statements are read; the break condition of a loop is read after
/// its continuing block. Of an `Emit`, the expressions are tested one after another, each in this order: whether an
/// `Emit` evaluates it, whether its operands may be used, and whether it is in scope already. Returns
/// [`InvalidUse::Memory`] if allocation fails.
///
/// Differs from naga, as it documents `Statement::Loop`: there, a continuing block knows all that the body evaluates,
/// even what a `Continue` skips.
pub fn check_uses(alloc: Global, function: &Function) -> Result<(), InvalidUse>
    ensures { let expressions = expressions_in function.now.expressions in
        Judged result
        (λ _. UsesKnown expressions [] (tree_of function.now.body) × EvaluatedOnce [] (tree_of function.now.body))
        (λ misuse. BlockMisuse expressions 0 [] [] (tree_of function.now.body) misuse
        × ¬ BlockPasses expressions [] [] (tree_of function.now.body)) }
{
    check(alloc, function, Reads::Chains)
}

/// Checks a function as [`check_uses`] does, but demands that an access is evaluated by an `Emit` before it is used,
/// even if its chain ends in an expression that needs none. Only an access by a constant index that is in `at_use` need
/// not be, if its base need not be either.
///
/// Differs from naga: naga's validator demands an `Emit` of each access. This is so here if `at_use` is empty.
pub fn check_emitted(
    alloc: Global,
    function: &Function,
    at_use: &HandleSet<Expression>,
) -> Result<(), InvalidUse>
    ensures { let expressions = emitted_in (set.contains at_use.now.members) function.now.expressions in
        Judged result
        (λ _. UsesKnown expressions [] (tree_of function.now.body) × EvaluatedOnce [] (tree_of function.now.body))
        (λ misuse. BlockMisuse expressions 0 [] [] (tree_of function.now.body) misuse
        × ¬ BlockPasses expressions [] [] (tree_of function.now.body)) }
{
    match constant_chains(alloc, &function.expressions, at_use) {
        Ok(chains) => check(alloc, function, Reads::Emitted(&chains)),
        Err(_) => Err(InvalidUse::Memory),
    }
}

/// Checks the body of a function, of whose expressions uses read this.
fn check(alloc: Global, function: &Function, reads: Reads<'_>) -> Result<(), InvalidUse>
    ensures { let expressions = expressions_read function.now.expressions reads.entry in
        Judged result (λ _. BlockPasses expressions [] [] (tree_of function.now.body))
        (λ misuse. BlockMisuse expressions 0 [] [] (tree_of function.now.body) misuse
        × ¬ BlockPasses expressions [] [] (tree_of function.now.body)) }
{
    let mut known = match Known::new(alloc, &function.expressions) {
        Ok(known) => known,
        Err(_) => return Err(InvalidUse::Memory),
    };
    let chains = match Chains::of(alloc, &function.expressions) {
        Ok(chains) => chains,
        Err(_) => return Err(InvalidUse::Memory),
    };
    let expressions = &chains;
    let reading = Reading { expressions, reads };
    match walk_block(&mut known, &reading, 0, &function.body) {
        Ok(_) => Ok(()),
        Err(error) => Err(error),
    }
}

/// Walks over the statements of a block, after which what they evaluate is known. `number` is that of the first one.
#[cycle(uses)]
fn walk_block(
    known: &mut Known,
    reading: &Reading<'_>,
    number: u64,
    block: &Block,
) -> Result<Walked, InvalidUse>
    ensures { Judged result
        (λ walked. HasWalked (read_in reading.now) number known.old (tree_of block.now) walked known.new)
        (BlockMisuse (read_in reading.now) number (known_of known.old) (scope_of known.old) (tree_of block.now)) }
{
    let mut walked = Walked::start(number, known.len());
    'statements: for (statement, span) in block.span_iter() {
        match walk_statement(known, reading, walked.next, statement, *span) {
            Ok(passed) => walked = walked.followed(passed, known.len()),
            Err(error) => return Err(error),
        }
    }
    Ok(walked)
}

/// Walks over a block inside a statement, and forgets what it evaluates.
#[cycle(uses)]
fn walk_inner(
    known: &mut Known,
    reading: &Reading<'_>,
    number: u64,
    inner: &Block,
) -> Result<Passed, InvalidUse>
    ensures { Judged result
        (λ passed. HasPassedInner (read_in reading.now) number known.old (tree_of inner.now) passed known.new)
        (BlockMisuse (read_in reading.now) number (known_of known.old) (scope_of known.old) (tree_of inner.now)) }
{
    let outside = known.len();
    match walk_block(known, reading, number, inner) {
        Ok(walked) => {
            known.forget_from(outside);
            Ok(passed(walked.next, walked.ways))
        }
        Err(error) => Err(error),
    }
}

/// Walks over a statement and the statements inside it.
#[cycle(uses)]
fn walk_statement(
    known: &mut Known,
    reading: &Reading<'_>,
    number: u64,
    statement: &Statement,
    span: Span,
) -> Result<Passed, InvalidUse>
    ensures { Judged result
        (λ passed. HasPassed (read_in reading.now) number known.old (node_of statement.now) passed known.new)
        (NodeMisuse (read_in reading.now) number span (known_of known.old) (scope_of known.old) (node_of statement.now)) }
{
    let next = number.saturating_add(1);
    match statement.control() {
        Control::Plain => {
            let found = walk_plain(known, reading, statement, number, span);
            passed_if(found, next, Ways::only_off(true))
        }
        Control::Block(inner) => walk_inner(known, reading, next, inner),
        Control::If {
            condition,
            accept,
            reject,
        } => match require(known, reading, condition, number, span) {
            Ok(()) => {
                let accepted = walk_inner(known, reading, next, accept);
                walk_reject(known, reading, accepted, reject)
            }
            Err(error) => Err(error),
        },
        Control::Switch { selector, cases } => {
            walk_switch(known, reading, number, span, selector, cases)
        }
        Control::Loop {
            body,
            continuing,
            break_if,
        } => {
            let before = known.len();
            let repeated = walk_certain(known, reading, next, body);
            walk_continuing(
                known, reading, number, span, before, repeated, continuing, break_if,
            )
        }
        Control::Break => Ok(passed(next, Ways::of_break())),
        Control::Continue => Ok(passed(next, Ways::of_continue())),
        Control::Return { value } => {
            let found = require_present(known, reading, value, number, span);
            passed_if(found, next, Ways::only_off(false))
        }
        Control::Kill => Ok(passed(next, Ways::only_off(false))),
    }
}

/// Walks over the second of two blocks, one of which is run, after what was found of the first.
#[cycle(uses)]
fn walk_reject(
    known: &mut Known,
    reading: &Reading<'_>,
    accepted: Result<Passed, InvalidUse>,
    reject: &Block,
) -> Result<Passed, InvalidUse>
    ensures { IfPassed accepted result
        (λ accepted. EndsBranch (read_in reading.now) accepted known.old (tree_of reject.now) result known.new) }
{
    match accepted {
        Ok(accepted) => {
            let rejected = walk_inner(known, reading, accepted.next, reject);
            either_passed(accepted, rejected)
        }
        Err(error) => Err(error),
    }
}

/// Walks over the continuing block of a loop and checks its break condition, after what was found of its body, and
/// forgets what the loop evaluates.
#[cycle(uses)]
fn walk_continuing(
    known: &mut Known,
    reading: &Reading<'_>,
    number: u64,
    span: Span,
    before: usize,
    repeated: Result<Passed, InvalidUse>,
    continuing: &Block,
    break_if: Option<Handle<Expression>>,
) -> Result<Passed, InvalidUse>
    requires { IfOk repeated (λ _. before ≤ length known.old) }
    ensures { IfPassed repeated result
        (λ repeated. EndsLoop (read_in reading.now) number span before repeated known.old (tree_of continuing.now)
        break_if result known.new) }
{
    let repeated = match repeated {
        Ok(repeated) => repeated,
        Err(error) => return Err(error),
    };
    let reading = reading.where_reached(repeated.ways.may_go_on());
    let continued = match walk_certain(known, &reading, repeated.next, continuing) {
        Ok(continued) => continued,
        Err(error) => return Err(error),
    };
    match require_present(known, &reading, break_if, number, span) {
        Ok(()) => {
            known.forget_from(before);
            Ok(passed(continued.next, Ways::only_off(true)))
        }
        Err(error) => Err(error),
    }
}

/// Walks over a switch.
#[cycle(uses)]
fn walk_switch(
    known: &mut Known,
    reading: &Reading<'_>,
    number: u64,
    span: Span,
    selector: Handle<Expression>,
    cases: &[SwitchCase],
) -> Result<Passed, InvalidUse>
    ensures { let node = switch selector (cases_of cases.now) in
        Judged result (λ passed. HasPassed (read_in reading.now) number known.old node passed known.new)
        (NodeMisuse (read_in reading.now) number span (known_of known.old) (scope_of known.old) node) }
{
    match require(known, reading, selector, number, span) {
        Ok(()) => walk_cases(known, reading, number.saturating_add(1), cases),
        Err(error) => Err(error),
    }
}

/// Walks over the bodies of the cases of a switch.
#[cycle(uses)]
fn walk_cases(
    known: &mut Known,
    reading: &Reading<'_>,
    number: u64,
    cases: &[SwitchCase],
) -> Result<Passed, InvalidUse>
    ensures { Judged result
        (λ passed. HasPassedCases (read_in reading.now) number known.old (cases_of cases.now) passed known.new)
        (CasesMisuse (read_in reading.now) number (known_of known.old) (scope_of known.old) (cases_of cases.now)) }
{
    let mut next = number;
    let mut ways = Ways::only_off(false);
    'cases: for case in cases {
        match walk_inner(known, reading, next, &case.body) {
            Ok(body) => {
                next = body.next;
                ways = ways.either(body.ways.out_of_case(case.fall_through));
            }
            Err(error) => return Err(error),
        }
    }
    Ok(passed(next, Ways::only_off(may_be_passed(cases)).either(ways)))
}

/// Walks over a block of a loop. What it evaluates stays in scope, but only what it evaluates for certain stays known.
#[cycle(uses)]
fn walk_certain(
    known: &mut Known,
    reading: &Reading<'_>,
    number: u64,
    block: &Block,
) -> Result<Passed, InvalidUse>
    ensures { Judged result
        (λ passed. HasKept (read_in reading.now) number known.old (tree_of block.now) passed known.new)
        (BlockMisuse (read_in reading.now) number (known_of known.old) (scope_of known.old) (tree_of block.now)) }
{
    match walk_block(known, reading, number, block) {
        Ok(walked) => {
            known.doubt_from(walked.certain);
            Ok(passed(walked.next, walked.ways))
        }
        Err(error) => Err(error),
    }
}

/// Returns what was found of two blocks, one of which is run, by what was found of each.
fn either_passed(first: Passed, second: Result<Passed, InvalidUse>) -> Result<Passed, InvalidUse>
    ensures { result ≡ either_passed first second }
{
    match second {
        Ok(second) => Ok(passed(second.next, first.ways.either(second.ways))),
        Err(error) => Err(error),
    }
}

/// Returns what was found of a statement that passes, before the one with this number, or the error.
fn passed_if(found: Result<(), InvalidUse>, next: u64, ways: Ways) -> Result<Passed, InvalidUse>
    ensures { result ≡ passed_if found next ways }
{
    match found {
        Ok(()) => Ok(passed(next, ways)),
        Err(error) => Err(error),
    }
}

/// Returns what was found of a statement, before the one with this number.
fn passed(next: u64, ways: Ways) -> Passed
    ensures { result ≡ record { next = next; ways = ways } }
{
    Passed { next, ways }
}

/// Returns whether control may pass a switch without a `Break`: no case need be entered, or the last one falls through.
fn may_be_passed(cases: &[SwitchCase]) -> bool
    ensures { result ≡ may_be_passed (cases_of cases.now) }
{
    !has_default(cases) || last_falls(cases)
}
