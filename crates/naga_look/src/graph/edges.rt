//! The edges of a graph.
ghost use Rattle.std.specs.Prelude.{◌≡◌, ◌++◌, OnOk, codes};
ghost use Rattle.naga_look.specs.Graph.{edge_text, edges_text, node_name, optional_edge};
ghost use Rattle.naga_valid.specs.Operands.{expression_of};

use crate::graph::cluster::{Cluster, push_node_name};
use naga_arena::Handle;
use naga_ir::Expression;
use naga_text::Text;
use naga_valid::{Reference, references_of};
use std::alloc::AllocError;

/// Appends an edge from an expression to each of its operands.
pub(crate) fn push_edges(
    text: &mut Text,
    place: Cluster,
    from: Handle<Expression>,
    expression: &Expression,
) -> Result<(), AllocError>
    ensures { OnOk result (text.new ≡ text.old ++ edges_text place from expression.now) }
{
    for reference in references_of(expression) {
        push_optional_edge(text, place, from, operand_of(reference))?;
    }
    Ok(())
}

/// Returns the expression to which a reference refers, or `None` if it does not refer to an expression.
fn operand_of(reference: Reference) -> Option<Handle<Expression>>
    ensures { result ≡ expression_of reference }
{
    match reference {
        Reference::Expression(handle) => Some(handle),
        Reference::Type(_) => None,
        Reference::Constant(_) => None,
        Reference::Override(_) => None,
        Reference::GlobalVariable(_) => None,
        Reference::GlobalExpression(_) => None,
        Reference::Expressions { .. } => None,
        Reference::LocalVariable(_) => None,
        Reference::Function(_) => None,
        Reference::DiagnosticFilter(_) => None,
    }
}

/// Appends an edge from an expression to another one, if there is one.
fn push_optional_edge(
    text: &mut Text,
    place: Cluster,
    from: Handle<Expression>,
    to: Option<Handle<Expression>>,
) -> Result<(), AllocError>
    ensures { OnOk result (text.new ≡ text.old ++ optional_edge place from to) }
{
    match to {
        Some(to) => push_edge(text, place, from, to),
        None => Ok(()),
    }
}

/// Appends an edge from an expression to another one.
fn push_edge(
    text: &mut Text,
    place: Cluster,
    from: Handle<Expression>,
    to: Handle<Expression>,
) -> Result<(), AllocError>
    ensures { OnOk result (text.new ≡ text.old ++ edge_text place from to) }
{
    text.push("        ")?;
    push_node_name(text, place, from.index())?;
    text.push(" -> ")?;
    push_node_name(text, place, to.index())?;
    text.push("\n")
}
