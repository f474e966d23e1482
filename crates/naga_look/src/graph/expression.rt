//! The nodes of expressions.
ghost use Rattle.std.specs.Prelude.{◌≡◌, ◌++◌, IfOk, OnOk, codes, flat_map, option_copied, string_bytes};
ghost use Rattle.std.specs.Fmt.{decimal};
ghost use Rattle.naga_text.specs.derived.Expression.{kind_text};
ghost use Rattle.naga_text.specs.Operands.{between};
ghost use Rattle.naga_text.specs.Words.{name_text, quoted};
ghost use Rattle.naga_look.specs.Graph.{expression_text, label_text, node_name, value_name};
ghost use Rattle.naga_look.specs.Graph.Strings.{label_attribute};
ghost use Rattle.naga_look.specs.Graph.Names.{referent_name};

use crate::graph::cluster::{Cluster, push_node_name, push_numbered};
use crate::graph::edges::push_edges;
use crate::graph::names::referent_name;
use crate::graph::strings::push_label;
use naga_arena::{ArenaIter, Handle};
use naga_ir::{Expression, Function, Module};
use naga_text::{Text, push_found_name, push_kind};
use naga_valid::Part;
use std::alloc::AllocError;

/// Appends the nodes of expressions of a function, each with the edges from it.
pub(crate) fn push_expressions(
    text: &mut Text,
    module: &Module,
    function: &Function,
    place: Cluster,
    expressions: ArenaIter<'_, Expression>,
) -> Result<(), AllocError>
    ensures { OnOk result (text.new ≡ text.old
        ++ flat_map (expression_text «module».now function.now place) expressions.entry) }
{
    for (handle, expression) in expressions {
        push_expression(text, module, function, place, handle, expression)?;
    }
    Ok(())
}

/// Appends the node of an expression, and the edges from it.
fn push_expression(
    text: &mut Text,
    module: &Module,
    function: &Function,
    place: Cluster,
    handle: Handle<Expression>,
    expression: &Expression,
) -> Result<(), AllocError>
    ensures { OnOk result (text.new ≡ text.old
        ++ expression_text «module».now function.now place (handle, expression.now)) }
{
    let label = label_of(text, module, function, handle, expression)?;
    push_node(text, place, handle, label.as_str())?;
    push_edges(text, place, handle, expression)
}

/// Appends the node of an expression with this label.
fn push_node(
    text: &mut Text,
    place: Cluster,
    handle: Handle<Expression>,
    label: &str,
) -> Result<(), AllocError>
    ensures { OnOk result (text.new ≡ text.old ++ (codes "        " ++ (node_name place handle
        ++ (codes " [" ++ (label_attribute label.now ++ codes "]\n"))))) }
{
    text.push("        ")?;
    push_node_name(text, place, handle.index())?;
    text.push(" [")?;
    push_label(text, label)?;
    text.push("]\n")
}

/// Returns the label of an expression.
fn label_of(
    text: &Text,
    module: &Module,
    function: &Function,
    handle: Handle<Expression>,
    expression: &Expression,
) -> Result<String, AllocError>
    ensures { IfOk result (λ label. string_bytes label
        ≡ label_text «module».now function.now handle expression.now) }
{
    let mut label = text.fresh();
    push_handle(&mut label, handle.index())?;
    push_value_name(&mut label, Part::Expression(handle).name(function))?;
    push_referent(&mut label, module, function, expression)?;
    Ok(label.finish())
}

/// Appends a handle in brackets.
fn push_handle(label: &mut Text, index: usize) -> Result<(), AllocError>
    ensures { OnOk result (label.new ≡ label.old ++ between (codes "[") index (codes "]")) }
{
    push_numbered(label, "[", index)?;
    label.push("]")
}

/// Appends the name that a function has for the value of an expression, if there is one.
fn push_value_name(label: &mut Text, name: Option<&str>) -> Result<(), AllocError>
    ensures { OnOk result (label.new ≡ label.old ++ value_name (option_copied name.entry)) }
{
    match name {
        Some(name) => push_present_name(label, name),
        None => Ok(()),
    }
}

/// Appends the name that a function has for the value of an expression.
fn push_present_name(label: &mut Text, name: &str) -> Result<(), AllocError>
    ensures { OnOk result (label.new ≡ label.old ++ (quoted name.now ++ codes " =")) }
{
    label.push_quoted(name)?;
    label.push(" =")
}

/// Appends the kind of an expression, and the name of what it refers to.
fn push_referent(
    label: &mut Text,
    module: &Module,
    function: &Function,
    expression: &Expression,
) -> Result<(), AllocError>
    ensures { OnOk result (label.new ≡ label.old ++ (codes " " ++ (kind_text expression.now
        ++ name_text (referent_name «module».now function.now expression.now)))) }
{
    label.push(" ")?;
    push_kind(label, expression)?;
    push_found_name(label, referent_name(module, function, expression))
}
