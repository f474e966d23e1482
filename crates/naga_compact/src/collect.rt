//! Collecting what parts of a module refer to.
ghost use Rattle.std.specs.Prelude.{◌≡◌};
ghost use Rattle.std.specs.List.{fold};
ghost use Rattle.naga_ir.specs.View.{cases_of, node_of, tree_of};
ghost use Rattle.naga_valid.specs.Statements.{references_of_cases, references_of_node, references_of_tree};

use naga_ir::{Block, Control, Statement, SwitchCase};
use naga_valid::{Refers, Visitor};
use std::convert::Infallible;
use std::ops::ControlFlow;

/// A visitor that never stops, and whose state after a reference depends on its state before and on the reference.
///
/// Differs from naga: naga has no such trait, nor functions that collect.
pub trait Collect: Visitor<Break = Infallible> {
    ghost use Rattle.std.specs.Prelude.{◌≡◌};
    ghost use Rattle.std.specs.declared.convert.Infallible.{Infallible as Never};
    ghost use Rattle.std.specs.declared.ops.ControlFlow.{ControlFlow as Answer};
    ghost use Rattle.std.specs.declared.ops.ControlFlow.TheVariants.{Continue};
    ghost use Rattle.naga_valid.specs.declared.reference.Reference.{Reference as ReferenceTo};

    ghost collected: { Self → ReferenceTo → Self };

    ghost never_stops: { (old new : Self) (to : ReferenceTo) (answer : Answer Never (Unit {0}))
        → Self.visits old to answer new → (answer ≡ Continue tt) × (new ≡ collected old to) };
}

/// Collects what a part of a module refers to.
pub fn collect_references<C: Collect, P: Refers>(collector: &mut C, part: &P)
    ensures { collector.new ≡ fold C.collected collector.old (P.references part.now) }
{
    match part.visit_references(collector) {
        ControlFlow::Continue(()) => {}
        ControlFlow::Break(never) => match never {},
    }
}

/// Collects what the statements of a block refer to, those in the blocks inside it, too.
///
/// The last statement is visited by the last call, so that a nest of last blocks uses no stack.
#[cycle(block)]
pub fn collect_block<C: Collect>(collector: &mut C, block: &Block)
    ensures { collector.new ≡ fold C.collected collector.old (references_of_tree (tree_of block.now)) }
{
    if block.is_empty() {
        return;
    }
    let last = block.len() - 1;
    'front: for position in 0..last {
        let Some(statement) = block.get(position) else {
            unreachable!()
        };
        collect_statement(collector, statement);
    }
    let Some(statement) = block.get(last) else {
        unreachable!()
    };
    collect_statement(collector, statement)
}

/// Collects what a statement refers to, those in the blocks inside it, too.
#[cycle(block)]
fn collect_statement<C: Collect>(collector: &mut C, statement: &Statement)
    ensures { collector.new ≡ fold C.collected collector.old (references_of_node (node_of statement.now)) }
{
    collect_references(collector, statement);
    match statement.control() {
        Control::Block(inner) => collect_block(collector, inner),
        Control::If { accept, reject, .. } => {
            collect_block(collector, accept);
            collect_block(collector, reject);
        }
        Control::Switch { cases, .. } => collect_cases(collector, cases),
        Control::Loop {
            body,
            continuing,
            ..
        } => {
            collect_block(collector, body);
            collect_block(collector, continuing);
        }
        Control::Plain => {}
        Control::Break => {}
        Control::Continue => {}
        Control::Return { .. } => {}
        Control::Kill => {}
    }
}

/// Collects what the bodies of cases refer to.
#[cycle(block)]
fn collect_cases<C: Collect>(collector: &mut C, cases: &[SwitchCase])
    ensures { collector.new ≡ fold C.collected collector.old (references_of_cases (cases_of cases.now)) }
{
    for case in cases {
        collect_block(collector, &case.body);
    }
}
