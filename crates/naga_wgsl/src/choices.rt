//! The expressions of a function that a text writes out where they are used.
ghost use Rattle.std.specs.Prelude.{◌≡◌, ◌↔◌, ◌<◌, IfOk, length, true, ℕ};
ghost use Rattle.std.specs.FinSet as set;
ghost use Rattle.std.specs.List.{Contains};
ghost use Rattle.indexmap.specs.IndexMap.{keys};
ghost use Rattle.naga_compact.specs.Marks.{puts};
ghost use Rattle.naga_compact.specs.Operands.{OperandsPrecede};
ghost use Rattle.naga_wgsl.specs.Choices.{AreChoicesIn, AreChosen, AreDepths, depth_at, depth_if, may_be_written_out, must_be_written_out};
ghost use Rattle.naga_wgsl.specs.WrittenOut.{AreWrittenOut, IsInOffset, offset_of, offsets_in};

use crate::chains::{access_chains, insert_if};
use crate::depths::greatest_depth;
use crate::pure::may_be_inline;
use crate::uses::Uses;
use naga_arena::{Arena, Handle};
use naga_compact::{Marks, mark_names, mark_reached};
use naga_ir::{Expression, Function, NamedExpressions};
use naga_sets::HandleSet;
use std::alloc::{AllocError, Global};

/// How many expressions a text may write one inside another before it names one.
const MAX_DEPTH: usize = 16;

/// Returns the expressions of a function that a text writes out wherever they are used. All others are named there.
///
/// Literals, constants, overrides, zero values, variables and arguments are written out, and access chains to these. So
/// is any other expression for which [`may_be_inline`] returns `true`, if it is used once, has no name of its own, and
/// has at most 16 expressions one inside another, itself included. So is the offset of a sample, with all that it is
/// computed from, however often it is used. A use is one by another expression of the function, or by a statement.
///
/// By [`written_texts_do_what_functions_do`](crate::laws::texts::written_texts_do_what_functions_do), the text does what
/// the function does.
///
/// The caller must ensure that each expression refers only to earlier ones, which `operands_precede` tests. Returns
/// `Err` if allocation fails.
pub fn written_out(alloc: Global, function: &Function) -> Result<HandleSet<Expression>, AllocError>
    requires { OperandsPrecede function.now.expressions }
    ensures { IfOk result (AreWrittenOut function.now) }
{
    let choices = Choices::of(alloc, function)?;
    choose(alloc, &choices)
}

/// What decides which expressions of a function are written out.
#[derive(Drop)]
pub(crate) struct Choices<'a> {
    expressions: &'a Arena<Expression>,
    /// The expressions that are evaluated where they are used.
    chains: HandleSet<Expression>,
    /// The expressions that are in the offset of a sample.
    in_offsets: HandleSet<Expression>,
    /// The expressions that have a name of their own.
    named: HandleSet<Expression>,
    uses: Uses,
}

impl<'a> Choices<'a> {
    /// Returns what decides about the expressions of a function. Returns `Err` if allocation fails.
    fn of(alloc: Global, function: &'a Function) -> Result<Self, AllocError>
        requires { OperandsPrecede function.now.expressions }
        ensures { IfOk result (AreChoicesIn function.now) }
    {
        let expressions = &function.expressions;
        let chains = access_chains(alloc, expressions)?;
        let in_offsets = in_offsets(alloc, expressions)?;
        let named = named(alloc, expressions, &function.named_expressions)?;
        let uses = Uses::of(alloc, function)?;
        Ok(Choices {
            expressions,
            chains,
            in_offsets,
            named,
            uses,
        })
    }

    /// Returns whether an expression is written out however many expressions it nests.
    fn must_be_written_out(&self, handle: Handle<Expression>) -> bool
        requires { handle < length self.now.expressions.now }
        ensures { result ≡ must_be_written_out self.now handle }
    {
        self.chains.contains(handle)
            || (self.in_offsets.contains(handle) && may_be_inline(&self.expressions[handle]))
    }

    /// Returns whether an expression is written out if it nests few enough expressions.
    fn may_be_written_out(&self, handle: Handle<Expression>) -> bool
        requires { handle < length self.now.expressions.now }
        ensures { result ≡ may_be_written_out self.now handle }
    {
        may_be_inline(&self.expressions[handle])
            && self.uses.is_used_once(handle)
            && !self.named.contains(handle)
    }

    /// Returns how many expressions are written one inside another where an expression is used, by the depths of those
    /// before it.
    fn depth(&self, depths: &[usize], handle: Handle<Expression>) -> usize
        requires precede { OperandsPrecede self.now.expressions.now }
        requires within { handle < length self.now.expressions.now }
        requires count { length depths.now ≡ handle }
        requires depths { AreDepths self.now depths.now }
        ensures { result ≡ depth_at self.now handle }
    {
        let nested = greatest_depth(depths, &self.expressions[handle]);
        let must = self.must_be_written_out(handle);
        let may = self.may_be_written_out(handle);
        depth_if(must, may, nested + 1)
    }
}

/// Returns the depth of an expression, or 0 if it is named.
fn depth_if(must: bool, may: bool, depth: usize) -> usize
    ensures { result ≡ depth_if must may depth }
{
    if must || (depth <= MAX_DEPTH && may) {
        depth
    } else {
        0
    }
}

/// Returns the expressions that are written out. Returns `Err` if allocation fails.
fn choose(alloc: Global, choices: &Choices<'_>) -> Result<HandleSet<Expression>, AllocError>
    requires { OperandsPrecede choices.now.expressions.now }
    ensures { IfOk result (AreChosen choices.now (length choices.now.expressions.now)) }
{
    let len = choices.expressions.len();
    let mut written = HandleSet::for_arena(alloc, choices.expressions)?;
    let mut depths = Vec::with_capacity(alloc, len)?;
    'expressions: for index in 0..len {
        let handle = Handle::<Expression>::at(index);
        let depth = choices.depth(depths.as_slice(), handle);
        depths.push(depth)?;
        let is_written = depth > 0;
        insert_if(&mut written, handle, is_written)?;
    }
    Ok(written)
}

/// Returns the expressions that are in the offset of a sample. Returns `Err` if allocation fails.
fn in_offsets(
    alloc: Global,
    expressions: &Arena<Expression>,
) -> Result<HandleSet<Expression>, AllocError>
    requires { OperandsPrecede expressions.now }
    ensures { IfOk result (λ found. (handle : ℕ) → (set.contains found.members handle ≡ true) ↔ IsInOffset expressions.now handle) }
{
    let none = HandleSet::for_arena(alloc, expressions)?;
    let mut marks = Marks::new(none);
    mark_offsets(&mut marks, expressions);
    mark_reached(expressions, &mut marks);
    Ok(marks.finish())
}

/// Marks the offsets of samples, as far as they are below the bound of the marks.
fn mark_offsets(marks: &mut Marks, expressions: &Arena<Expression>)
    ensures { marks.new ≡ puts marks.old (offsets_in expressions.now) }
{
    for (_, expression) in expressions.iter() {
        if let Some(offset) = offset_of(expression) {
            marks.insert(offset);
        }
    }
}

/// Returns the offset of a sample.
fn offset_of(expression: &Expression) -> Option<Handle<Expression>>
    ensures { result ≡ offset_of expression.now }
{
    match expression {
        Expression::ImageSample { offset, .. } => *offset,
        _ => None,
    }
}

/// Returns the expressions that have a name of their own. Returns `Err` if allocation fails.
fn named(
    alloc: Global,
    expressions: &Arena<Expression>,
    names: &NamedExpressions,
) -> Result<HandleSet<Expression>, AllocError>
    ensures { IfOk result (λ found. (handle : ℕ) → handle < length expressions.now
        → (set.contains found.members handle ≡ true) ↔ Contains (keys names.now) handle) }
{
    let none = HandleSet::for_arena(alloc, expressions)?;
    let mut marks = Marks::new(none);
    mark_names(&mut marks, names);
    Ok(marks.finish())
}
