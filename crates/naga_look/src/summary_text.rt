//! The summary of a module as text.
ghost use Rattle.std.specs.Prelude.{◌≡◌, ◌++◌, OnOk, codes};
ghost use Rattle.std.specs.Fmt.{decimal};
ghost use Rattle.naga_look.specs.SummaryText.{count_line, counted_lines, declared_lines, summary_lines, use_line, used_lines};

use crate::summary::{Counts, Summary};
use naga_text::Text;
use std::alloc::AllocError;

/// Appends a summary: a line for each number that is not 0, and for each kind of shader that the module uses.
pub(crate) fn push_summary(text: &mut Text, summary: &Summary) -> Result<(), AllocError>
    ensures { OnOk result (text.new ≡ text.old ++ summary_lines summary.now) }
{
    push_declared(text, summary)?;
    push_counted(text, summary.counts)?;
    push_used(text, summary)
}

/// Appends the numbers of declarations of a summary.
fn push_declared(text: &mut Text, summary: &Summary) -> Result<(), AllocError>
    ensures { OnOk result (text.new ≡ text.old ++ declared_lines summary.now) }
{
    push_count(text, "types", summary.types as u64)?;
    push_count(text, "functions", summary.functions as u64)?;
    push_count(text, "entry points", summary.entry_points as u64)
}

/// Appends the counts of a summary.
fn push_counted(text: &mut Text, counts: Counts) -> Result<(), AllocError>
    ensures { OnOk result (text.new ≡ text.old ++ counted_lines counts) }
{
    push_count(text, "statements", counts.statements)?;
    push_count(text, "missing returns", counts.open_tails)?;
    push_count(text, "missing returns (naga's rule)", counts.open_tails_old)
}

/// Appends the uses of a summary.
fn push_used(text: &mut Text, summary: &Summary) -> Result<(), AllocError>
    ensures { OnOk result (text.new ≡ text.old ++ used_lines summary.now) }
{
    push_use(text, "ray pipelines", summary.ray_pipelines)?;
    push_use(text, "ray queries", summary.ray_queries)?;
    push_use(text, "mesh shaders", summary.mesh_shaders)
}

/// Appends a line with a number, unless it is 0.
pub(crate) fn push_count(text: &mut Text, name: &str, number: u64) -> Result<(), AllocError>
    ensures { OnOk result (text.new ≡ text.old ++ count_line name.now number) }
{
    if number == 0 {
        Ok(())
    } else {
        push_number_line(text, name, number)
    }
}

/// Appends a line with a number.
fn push_number_line(text: &mut Text, name: &str, number: u64) -> Result<(), AllocError>
    ensures { OnOk result (text.new ≡ text.old ++ (name.now ++ (codes ": " ++ (decimal number ++ codes "\n")))) }
{
    text.push(name)?;
    text.push(": ")?;
    text.push_number(number)?;
    text.push("\n")
}

/// Appends a line that says what a module uses, if it does.
fn push_use(text: &mut Text, name: &str, is: bool) -> Result<(), AllocError>
    ensures { OnOk result (text.new ≡ text.old ++ use_line name.now is) }
{
    if is {
        push_use_line(text, name)
    } else {
        Ok(())
    }
}

/// Appends a line that says what a module uses.
fn push_use_line(text: &mut Text, name: &str) -> Result<(), AllocError>
    ensures { OnOk result (text.new ≡ text.old ++ (codes "uses " ++ (name.now ++ codes "\n"))) }
{
    text.push("uses ")?;
    text.push(name)?;
    text.push("\n")
}
