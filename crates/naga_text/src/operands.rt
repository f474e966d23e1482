//! The texts of what an expression or a statement refers to.
ghost use Rattle.std.specs.Prelude.{◌≡◌, ◌++◌, ◌∷◌, OnOk, codes, flat_map};
ghost use Rattle.std.specs.Fmt.{decimal};
ghost use Rattle.naga_text.specs.Operands.{reference_text, references_text};

use crate::text::Text;
use naga_valid::{Reference, Refers, Visitor};
use std::alloc::AllocError;
use std::ops::ControlFlow;

impl Visitor for Text {
    ghost use Rattle.naga_text.specs.Operands.{appends};

    type Break = AllocError;

    ghost visits = { appends };

    fn visit(&mut self, reference: Reference) -> ControlFlow<AllocError> {
        match push_reference(self, reference) {
            Ok(()) => ControlFlow::Continue(()),
            Err(error) => ControlFlow::Break(error),
        }
    }
}

/// Appends a space and a reference to a text.
fn push_reference(text: &mut Text, reference: Reference) -> Result<(), AllocError>
    ensures { OnOk result (text.new ≡ text.old ++ reference_text reference) }
{
    match reference {
        Reference::Type(handle) => push_element(text, " type ", handle.index(), ""),
        Reference::Constant(handle) => push_element(text, " constant ", handle.index(), ""),
        Reference::Override(handle) => push_element(text, " override ", handle.index(), ""),
        Reference::GlobalVariable(handle) => push_element(text, " global ", handle.index(), ""),
        Reference::GlobalExpression(handle) => push_element(text, " [", handle.index(), "]"),
        Reference::Expression(handle) => push_element(text, " [", handle.index(), "]"),
        Reference::Expressions { start, end } => push_range(text, start, end),
        Reference::LocalVariable(handle) => push_element(text, " local ", handle.index(), ""),
        Reference::Function(handle) => push_element(text, " function ", handle.index(), ""),
        Reference::DiagnosticFilter(handle) => push_element(text, " filter ", handle.index(), ""),
    }
}

/// Appends an index with a text before and after it.
pub(crate) fn push_element(
    text: &mut Text,
    before: &str,
    index: usize,
    after: &str,
) -> Result<(), AllocError>
    ensures { OnOk result (text.new ≡ text.old ++ (before.now ++ (decimal index ++ after.now))) }
{
    text.push(before)?;
    text.push_number(index as u64)?;
    text.push(after)
}

/// Appends a range in brackets.
fn push_range(text: &mut Text, start: u32, end: u32) -> Result<(), AllocError>
    ensures { OnOk result (text.new ≡ text.old ++ (codes " [" ++ (decimal start ++ (codes ".." ++ (decimal end ++ codes "]"))))) }
{
    text.push(" [")?;
    text.push_number(start as u64)?;
    text.push("..")?;
    text.push_number(end as u64)?;
    text.push("]")
}

/// Appends what a part of a module refers to, in declared order, with a space before each.
///
/// Returns `Err` if allocation fails. The text may then end with a part of this.
pub fn push_references<P: Refers>(text: &mut Text, part: &P) -> Result<(), AllocError>
    ensures { OnOk result (text.new ≡ text.old ++ references_text (P.references part.now)) }
{
    match part.visit_references(text) {
        ControlFlow::Continue(()) => Ok(()),
        ControlFlow::Break(error) => Err(error),
    }
}
