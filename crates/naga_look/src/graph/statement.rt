//! The nodes of statements, and the edges between them.
ghost use Rattle.std.specs.Prelude.{◌≡◌, ◌++◌, IfOk, OnOk, codes, option_copied, string_bytes};
ghost use Rattle.naga_ir.specs.View.{node_of, tree_of};
ghost use Rattle.naga_text.specs.Blocks.{unless_empty};
ghost use Rattle.naga_text.specs.Counterparts.{optional_tree};
ghost use Rattle.naga_look.specs.Graph.Flow.{arrow, case_label, edge_inward, edge_to, edge_to_case, fall_through_text, first_name, is_inserted_return, label_text, node_style, numbered, point_text, statement_node};
ghost use Rattle.naga_look.specs.Graph.Strings.{label_attribute};

use crate::graph::cluster::push_numbered;
use crate::graph::names::called_name;
use crate::graph::strings::push_label;
use naga_ir::{Block, Control, Module, Statement, SwitchCase};
use naga_text::{Text, is_inserted, push_action, push_case_name, push_found_name, push_references};
use std::alloc::AllocError;

/// Returns the identifier of what has this number in something with the identifier `name`.
pub(crate) fn numbered(name: &Text, number: usize) -> Result<Text, AllocError>
    ensures { IfOk result (λ longer. longer ≡ numbered name.now number) }
{
    let mut longer = name.copy()?;
    push_numbered(&mut longer, "_", number)?;
    Ok(longer)
}

/// Returns whether a statement at a position of a block is a return that is marked. `old` is the counterpart of the block.
pub(crate) fn is_inserted_return(
    old: Option<&Block>,
    position: usize,
    statement: &Statement,
) -> bool
    ensures { result
        ≡ is_inserted_return (optional_tree (option_copied old.entry)) position (node_of statement.now) }
{
    match statement.control() {
        Control::Return { .. } => is_inserted(old, position),
        Control::Plain => false,
        Control::Block(_) => false,
        Control::If { .. } => false,
        Control::Switch { .. } => false,
        Control::Loop { .. } => false,
        Control::Break => false,
        Control::Continue => false,
        Control::Kill => false,
    }
}

/// Appends the node of a statement with this identifier.
pub(crate) fn push_node(
    text: &mut Text,
    module: &Module,
    name: &Text,
    marked: bool,
    statement: &Statement,
) -> Result<(), AllocError>
    ensures { OnOk result (text.new ≡ text.old
        ++ statement_node «module».now name.now marked (node_of statement.now)) }
{
    let label = label_of(text, module, statement)?;
    push_labelled(text, name, marked, label.as_str())
}

/// Appends a node with this identifier and this label.
fn push_labelled(text: &mut Text, name: &Text, marked: bool, label: &str) -> Result<(), AllocError>
    ensures { OnOk result (text.new ≡ text.old ++ (codes "        " ++ (name.now ++ (codes " ["
        ++ (node_style marked ++ (label_attribute label.now ++ codes "]\n")))))) }
{
    text.push("        ")?;
    text.push_text(name)?;
    text.push(" [")?;
    text.push(node_style(marked))?;
    push_label(text, label)?;
    text.push("]\n")
}

/// Returns the style of the node of a statement.
fn node_style(marked: bool) -> &'static str
    ensures { result.now ≡ node_style marked }
{
    if marked {
        "style=\"rounded,filled\", color=darkgreen, fillcolor=palegreen, "
    } else {
        "style=rounded, "
    }
}

/// Returns the label of a statement.
fn label_of(text: &Text, module: &Module, statement: &Statement) -> Result<String, AllocError>
    ensures { IfOk result (λ label. string_bytes label ≡ label_text «module».now (node_of statement.now)) }
{
    let mut label = text.fresh();
    push_action(&mut label, statement)?;
    push_found_name(&mut label, called_name(module, statement))?;
    push_references(&mut label, statement)?;
    Ok(label.finish())
}

/// Appends an edge from a node to another one, without the end of its line.
fn push_arrow(text: &mut Text, from: &Text, to: &Text) -> Result<(), AllocError>
    ensures { OnOk result (text.new ≡ text.old ++ arrow from.now to.now) }
{
    text.push("        ")?;
    text.push_text(from)?;
    text.push(" -> ")?;
    text.push_text(to)
}

/// Appends the edge to the statement at a position of a block from the statement before it, if there is one.
pub(crate) fn push_edge_to(text: &mut Text, block: &Text, position: usize) -> Result<(), AllocError>
    ensures { OnOk result (text.new ≡ text.old ++ edge_to block.now position) }
{
    if position == 0 {
        return Ok(());
    }
    let from = numbered(block, position - 1)?;
    let to = numbered(block, position)?;
    push_arrow(text, &from, &to)?;
    text.push(" [style=bold]\n")
}

/// Appends an edge from a statement into a block in it.
fn push_edge_inward(text: &mut Text, from: &Text, to: &Text, label: &str) -> Result<(), AllocError>
    ensures { OnOk result (text.new ≡ text.old ++ edge_inward from.now to.now label.now) }
{
    push_arrow(text, from, to)?;
    text.push(" [style=dashed, ")?;
    push_label(text, label)?;
    text.push("]\n")
}

/// Appends the edge from a statement to the first statement of a block in it, if there is one.
pub(crate) fn push_edge_into(
    text: &mut Text,
    name: &Text,
    inner: &Text,
    label: &str,
    block: &Block,
) -> Result<(), AllocError>
    ensures { OnOk result (text.new ≡ text.old
        ++ unless_empty (tree_of block.now) (edge_inward name.now (numbered inner.now 0) label.now)) }
{
    if block.is_empty() {
        return Ok(());
    }
    let first = numbered(inner, 0)?;
    push_edge_inward(text, name, &first, label)
}

/// Appends the edge from a switch to a case, and the point that represents the body of the case if it is empty.
pub(crate) fn push_edge_to_case(
    text: &mut Text,
    name: &Text,
    inner: &Text,
    case: &SwitchCase,
) -> Result<(), AllocError>
    ensures { OnOk result (text.new ≡ text.old
        ++ edge_to_case name.now inner.now case.now.value (tree_of case.now.body) case.now.fall_through) }
{
    let label = case_label(text, case)?;
    let first = first_name(inner, &case.body)?;
    push_point(text, inner, &case.body)?;
    push_edge_inward(text, name, &first, label.as_str())
}

/// Returns the label of a case.
fn case_label(text: &Text, case: &SwitchCase) -> Result<String, AllocError>
    ensures { IfOk result (λ label. string_bytes label ≡ case_label case.now.value case.now.fall_through) }
{
    let mut label = text.fresh();
    push_case_name(&mut label, case.value)?;
    label.push(fall_through_text(case.fall_through))?;
    Ok(label.finish())
}

/// Returns what is appended to the value of a case.
fn fall_through_text(falls_through: bool) -> &'static str
    ensures { result.now ≡ fall_through_text falls_through }
{
    if falls_through { ", fall through" } else { "" }
}

/// Returns the identifier of the node at which control enters a block with this identifier.
fn first_name(name: &Text, block: &Block) -> Result<Text, AllocError>
    ensures { IfOk result (λ first. first ≡ first_name name.now (tree_of block.now)) }
{
    if block.is_empty() {
        return name.copy();
    }
    numbered(name, 0)
}

/// Appends the point that represents a block with this identifier if it is empty.
fn push_point(text: &mut Text, name: &Text, block: &Block) -> Result<(), AllocError>
    ensures { OnOk result (text.new ≡ text.old ++ point_text name.now (tree_of block.now)) }
{
    if !block.is_empty() {
        return Ok(());
    }
    text.push("        ")?;
    text.push_text(name)?;
    text.push(" [shape=point, height=0.1]\n")
}
