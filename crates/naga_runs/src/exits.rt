//! Tests whether a switch has an exit, and whether it has a default case.
ghost use Rattle.std.specs.Prelude.{◌≡◌};
ghost use Rattle.naga_ir.specs.View.{cases_of, node_of, tree_of};
ghost use Rattle.naga_runs.specs.Exits.{a_case_breaks, breaks_out, has_default, has_exit, last_falls, node_breaks};
ghost use Rattle.naga_runs.specs.Runs.{values};

use naga_ir::{Block, Statement, SwitchCase};

/// Returns whether a switch with these cases has an exit.
///
/// It has one if there is no default case, so that the switch may enter no case; if the last case falls through; or if
/// a `Break` in one of the cases leaves the switch.
#[inline(always)]
pub fn has_exit(cases: &[SwitchCase]) -> bool
    ensures { result ≡ has_exit (cases_of cases.now) }
{
    !has_default(cases) || last_falls(cases) || a_case_breaks(cases)
}

/// Returns whether a switch with these cases has a default case, so that it enters one of them.
pub fn has_default(cases: &[SwitchCase]) -> bool
    ensures { result ≡ has_default (values (cases_of cases.now)) }
{
    for case in cases {
        if case.value.is_default() {
            return true;
        }
    }
    false
}

/// Returns whether the last case falls through.
pub fn last_falls(cases: &[SwitchCase]) -> bool
    ensures { result ≡ last_falls (cases_of cases.now) }
{
    match cases.last() {
        Some(case) => case.fall_through,
        None => false,
    }
}

/// Returns whether the body of some case contains a `Break` that is not in a loop or switch inside that body.
fn a_case_breaks(cases: &[SwitchCase]) -> bool
    ensures { result ≡ a_case_breaks (cases_of cases.now) }
{
    for case in cases {
        let leaves = breaks_out(&case.body);
        if leaves {
            return true;
        }
    }
    false
}

#[cycle(exits)]
fn breaks_out(block: &Block) -> bool
    ensures { result ≡ breaks_out (tree_of block.now) }
{
    for statement in block {
        if statement_breaks(statement) {
            return true;
        }
    }
    false
}

#[cycle(exits)]
fn statement_breaks(statement: &Statement) -> bool
    ensures { result ≡ node_breaks (node_of statement.now) }
{
    match statement {
        Statement::Block(inner) => breaks_out(inner),
        Statement::If { accept, reject, .. } => breaks_out(accept) || breaks_out(reject),
        Statement::Break => true,
        _ => false,
    }
}
