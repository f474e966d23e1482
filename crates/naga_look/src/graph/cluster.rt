//! The clusters of a graph, and the identifiers in them.
ghost use Rattle.std.specs.Prelude.{◌≡◌, ◌++◌, OnOk, codes};
ghost use Rattle.std.specs.Fmt.{decimal};
ghost use Rattle.naga_look.specs.Graph.{cluster_head, cluster_name, node_name};

use crate::graph::strings::push_label;
use naga_text::Text;
use std::alloc::AllocError;

/// What a cluster shows.
#[derive(Clone, Copy, Debug)]
pub(crate) enum Cluster {
    /// The function with this index.
    Function(usize),
    /// The entry point at this position.
    EntryPoint(usize),
}

/// Appends a text and a number.
pub(crate) fn push_numbered(text: &mut Text, name: &str, number: usize) -> Result<(), AllocError>
    ensures { OnOk result (text.new ≡ text.old ++ (name.now ++ decimal number)) }
{
    text.push(name)?;
    text.push_number(number as u64)
}

/// Appends the identifier of a cluster.
pub(crate) fn push_cluster_name(text: &mut Text, place: Cluster) -> Result<(), AllocError>
    ensures { OnOk result (text.new ≡ text.old ++ cluster_name place) }
{
    match place {
        Cluster::Function(index) => push_numbered(text, "function", index),
        Cluster::EntryPoint(position) => push_numbered(text, "entry", position),
    }
}

/// Appends the beginning of a cluster with this label.
pub(crate) fn push_cluster_head(
    text: &mut Text,
    place: Cluster,
    label: &str,
) -> Result<(), AllocError>
    ensures { OnOk result (text.new ≡ text.old ++ cluster_head place label.now) }
{
    text.push("    subgraph cluster_")?;
    push_cluster_name(text, place)?;
    text.push(" {\n        ")?;
    push_label(text, label)?;
    text.push("\n")
}

/// Appends the identifier of the node of an expression.
pub(crate) fn push_node_name(
    text: &mut Text,
    place: Cluster,
    index: usize,
) -> Result<(), AllocError>
    ensures { OnOk result (text.new ≡ text.old ++ node_name place index) }
{
    push_cluster_name(text, place)?;
    push_numbered(text, "_", index)
}
