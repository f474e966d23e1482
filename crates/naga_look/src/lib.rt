//! Looking at modules: the graph of a module, a report on its faults, and a summary.
//!
//! [`module_dot`] returns a module as a graph for Graphviz, and [`module_dot_compared`] marks what is new in it.
//! [`transform_json`] shows a module that is a text after passes, or returns its JSON, and what the passes did.
//! [`report`] is the report on a module, [`findings`] has what it finds as data, and [`summarize`] counts what a module contains. [`run_counted`] runs passes and
//! counts what they do. [`restrict_message`] is the message about a module that cannot be restricted.
//!
//! Only tested: how a report says why an expression has no type, and which argument a mathematical function lacks or does
//! not take.
#![tactic(auto)]

mod accesses;
mod emits;
mod ends;
mod faults;
mod finding;
mod graph;
mod heads;
pub mod laws;
mod layouts;
mod notes;
mod obstacle;
mod shown;
mod stats;
mod summary;
mod summary_text;
mod transform;
mod transform_error;
mod view;

pub use faults::report;
pub use finding::{Finding, FindingKind, FindingOwner, fault_count, findings, findings_json};
pub use graph::{module_dot, module_dot_compared};
pub use obstacle::restrict_message;
pub use shown::{Extent, Format, Shown, View};
pub use stats::{Account, Contents, Detail, PassCounts, counts_text, run_counted};
pub use summary::{Counts, Summary, summarize};
pub use transform::{Transformed, transform_json};
pub use transform_error::TransformError;
