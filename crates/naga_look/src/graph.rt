//! The graph of a module as a text for Graphviz.
//!
//! There is a cluster for each function and each entry point, a node for each of its expressions, and an edge from an
//! expression to each of its operands. Beside these there is a node for each statement of its body, and edges for its
//! control flow.
ghost use Rattle.std.specs.Prelude.{◌≡◌, ◌++◌, IfOk, OnOk, flat_map, option_copied, string_bytes};
ghost use Rattle.std.specs.List.{enumerate_from};
ghost use Rattle.naga_ir.specs.View.{tree_of};
ghost use Rattle.naga_text.specs.Counterparts.{optional_tree};
ghost use Rattle.naga_text.specs.Readable.{IsReadable};
ghost use Rattle.naga_look.specs.Graph.{cluster_text, dot_after, entry_point_label, entry_point_text, function_label, function_text, module_dot, module_dot_compared};

mod cluster;
mod edges;
mod expression;
mod flow;
mod names;
mod statement;
mod strings;

use crate::graph::cluster::{Cluster, push_cluster_head, push_numbered};
use crate::graph::expression::push_expressions;
use crate::graph::flow::push_flow;
use naga_arena::{ArenaIter, Handle};
use naga_ir::{Block, EntryPoint, Function, Module};
use naga_text::{Text, body_before, entry_body_before};
use std::alloc::{AllocError, Global};

/// Returns the graph of a module as a text for Graphviz.
///
/// There is a cluster for each function and each entry point, labelled with its index and its name. In it, there is a box
/// for each expression, with thin edges to its operands. Its label is the handle, the name that `named_expressions` has for
/// its value, the kind, and the name of the constant, override, variable, argument or function to which it refers, as in
/// `[3] GlobalVariable "lights"`. Names that are not there are left out.
///
/// Beside the expressions there is a rounded box for each statement of the body. A bold edge without a label leads from a
/// statement to the next one of its block. A dashed edge leads to the first statement of each block in it. It is labelled
/// `block`, `accept`, `reject`, `body` or `continuing`, or with the case of a `switch`, as in `case 3u`, `default` or
/// `case 1, fall through`. The edge of a case whose body is empty leads to a point. Other empty blocks are left out.
///
/// Names are escaped as [`Text::push_escaped`](naga_text::Text::push_escaped) writes them, and a label shows its text exactly.
/// So the graph contains no control character other than the newlines at the ends of its lines, no line or paragraph
/// separator, and no mark that turns the direction of the text. The handles in the module need not be valid.
///
/// Returns `Err` if allocation fails.
///
/// Differs from naga: naga draws graphs in its program `naga` only, which this function does not follow.
pub fn module_dot(alloc: Global, module: &Module) -> Result<String, AllocError>
    ensures graph { IfOk result (λ text. string_bytes text ≡ module_dot «module».now) }
    ensures readable { IfOk result (λ text. IsReadable (string_bytes text)) }
{
    dot_after(alloc, None, module)
}

/// Returns the graph of a module as [`module_dot`] does, in which each return that an old module does not have at the same
/// place is green. These are the returns that [`module_text_compared`](naga_text::module_text_compared) marks.
///
/// A module that is compared with itself has no green return. The handles in the modules need not be valid.
///
/// Returns `Err` if allocation fails.
///
/// Differs from naga: naga has no such function.
pub fn module_dot_compared(alloc: Global, old: &Module, new: &Module) -> Result<String, AllocError>
    ensures graph { IfOk result (λ text. string_bytes text ≡ module_dot_compared old.now new.now) }
    ensures readable { IfOk result (λ text. IsReadable (string_bytes text)) }
{
    dot_after(alloc, Some(old), new)
}

/// Returns the graph of a module, with marks if there is an old module with which it is compared.
fn dot_after(alloc: Global, old: Option<&Module>, module: &Module) -> Result<String, AllocError>
    ensures graph { IfOk result (λ text. string_bytes text ≡ dot_after (option_copied old.entry) «module».now) }
    ensures readable { IfOk result (λ text. IsReadable (string_bytes text)) }
{
    let mut text = Text::new(alloc);
    push_module(&mut text, old, module)?;
    Ok(text.finish())
}

/// Appends the graph of a module, with marks if there is an old module.
fn push_module(text: &mut Text, old: Option<&Module>, module: &Module) -> Result<(), AllocError>
    ensures { OnOk result (text.new ≡ text.old ++ dot_after (option_copied old.entry) «module».now) }
{
    text.push(
        "digraph module {\n    ranksep=0.3\n    nodesep=0.15\n    node [shape=box, height=0.3, margin=\"0.1,0.02\"]\n",
    )?;
    push_functions(text, module, old, module.functions.iter())?;
    push_entry_points(text, module, old, &module.entry_points)?;
    text.push("}\n")
}

/// Appends the clusters of functions of a module.
fn push_functions(
    text: &mut Text,
    module: &Module,
    old: Option<&Module>,
    functions: ArenaIter<'_, Function>,
) -> Result<(), AllocError>
    ensures { OnOk result (text.new ≡ text.old
        ++ flat_map (function_text «module».now (option_copied old.entry)) functions.entry) }
{
    for (handle, function) in functions {
        push_function(text, module, old, handle, function)?;
    }
    Ok(())
}

/// Appends the cluster of a function of a module.
fn push_function(
    text: &mut Text,
    module: &Module,
    old: Option<&Module>,
    handle: Handle<Function>,
    function: &Function,
) -> Result<(), AllocError>
    ensures { OnOk result (text.new ≡ text.old
        ++ function_text «module».now (option_copied old.entry) (handle, function.now)) }
{
    let label = function_label(text, handle.index(), function)?;
    push_cluster(
        text,
        module,
        Cluster::Function(handle.index()),
        label.as_str(),
        body_before(old, handle, function),
        function,
    )
}

/// Returns the label of a function.
fn function_label(text: &Text, index: usize, function: &Function) -> Result<String, AllocError>
    ensures { IfOk result (λ label. string_bytes label ≡ function_label index function.now) }
{
    let mut label = text.fresh();
    push_numbered(&mut label, "function ", index)?;
    label.push_name(&function.name)?;
    Ok(label.finish())
}

/// Appends the clusters of entry points of a module.
fn push_entry_points(
    text: &mut Text,
    module: &Module,
    old: Option<&Module>,
    entry_points: &[EntryPoint],
) -> Result<(), AllocError>
    ensures { OnOk result (text.new ≡ text.old
        ++ flat_map (entry_point_text «module».now (option_copied old.entry)) (enumerate_from 0 entry_points.now)) }
{
    for (position, entry_point) in entry_points.iter().enumerate() {
        push_entry_point(text, module, old, position, entry_point)?;
    }
    Ok(())
}

/// Appends the cluster of an entry point of a module.
fn push_entry_point(
    text: &mut Text,
    module: &Module,
    old: Option<&Module>,
    position: usize,
    entry_point: &EntryPoint,
) -> Result<(), AllocError>
    ensures { OnOk result (text.new ≡ text.old
        ++ entry_point_text «module».now (option_copied old.entry) (position, entry_point.now)) }
{
    let label = entry_point_label(text, position, entry_point)?;
    push_cluster(
        text,
        module,
        Cluster::EntryPoint(position),
        label.as_str(),
        entry_body_before(old, position),
        &entry_point.function,
    )
}

/// Returns the label of an entry point.
fn entry_point_label(
    text: &Text,
    position: usize,
    entry_point: &EntryPoint,
) -> Result<String, AllocError>
    ensures { IfOk result (λ label. string_bytes label ≡ entry_point_label position entry_point.now) }
{
    let mut label = text.fresh();
    push_numbered(&mut label, "entry point ", position)?;
    label.push_quoted(entry_point.name.as_str())?;
    Ok(label.finish())
}

/// Appends the cluster of a function of a module with this label. If `old` is the counterpart of its body, returns that it
/// lacks are marked.
fn push_cluster(
    text: &mut Text,
    module: &Module,
    place: Cluster,
    label: &str,
    old: Option<&Block>,
    function: &Function,
) -> Result<(), AllocError>
    ensures { OnOk result (text.new ≡ text.old
        ++ cluster_text «module».now place label.now (optional_tree (option_copied old.entry)) function.now) }
{
    push_cluster_head(text, place, label)?;
    push_expressions(text, module, function, place, function.expressions.iter())?;
    push_flow(text, module, place, old, &function.body)?;
    text.push("    }\n")
}
