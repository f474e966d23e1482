//! Visits of a few references.
ghost use Rattle.std.specs.Prelude.{◌≡◌, ◌∷◌, [], ◌++◌, map, option_to_list};
ghost use Rattle.std.specs.Option.{option_map};
ghost use Rattle.naga_valid.specs.declared.reference.Reference.{Reference as ReferenceTo};
ghost use Rattle.naga_valid.specs.declared.reference.Reference.TheVariants as reference;
ghost use Rattle.naga_valid.specs.Reference.{operands, present_then};
ghost use Rattle.naga_valid.specs.Visits.{IsWalk};

use crate::reference::{HasReference, Reference};
use crate::visitor::Visitor;
use naga_arena::{Handle, Range};
use naga_ir::Expression;
use std::ops::ControlFlow;

/// Visits nothing.
pub(crate) fn none<V: Visitor>(visitor: &mut V) -> ControlFlow<V::Break>
    ensures { IsWalk V.visits visitor.old [] result visitor.new }
{
    ControlFlow::Continue(())
}

/// Visits one reference.
#[inline(always)]
pub(crate) fn single<V: Visitor>(visitor: &mut V, reference: Reference) -> ControlFlow<V::Break>
    ensures { IsWalk V.visits visitor.old (reference ∷ []) result visitor.new }
{
    visitor.visit(reference)
}

/// Visits a reference if there is one.
pub(crate) fn optional<V: Visitor>(
    visitor: &mut V,
    reference: Option<Reference>,
) -> ControlFlow<V::Break>
    ensures { IsWalk V.visits visitor.old (option_to_list reference) result visitor.new }
{
    match reference {
        Some(reference) => single(visitor, reference),
        None => none(visitor),
    }
}

/// Visits two references.
#[inline(always)]
pub(crate) fn pair<V: Visitor>(
    visitor: &mut V,
    first: Reference,
    second: Reference,
) -> ControlFlow<V::Break>
    ensures { IsWalk V.visits visitor.old (first ∷ second ∷ []) result visitor.new }
{
    match visitor.visit(first) {
        ControlFlow::Continue(()) => single(visitor, second),
        ControlFlow::Break(stop) => ControlFlow::Break(stop),
    }
}

/// Visits a reference, and another one if there is one.
pub(crate) fn single_and<V: Visitor>(
    visitor: &mut V,
    first: Reference,
    second: Option<Reference>,
) -> ControlFlow<V::Break>
    ensures { IsWalk V.visits visitor.old (first ∷ option_to_list second) result visitor.new }
{
    match visitor.visit(first) {
        ControlFlow::Continue(()) => optional(visitor, second),
        ControlFlow::Break(stop) => ControlFlow::Break(stop),
    }
}

/// Visits one operand.
#[inline(always)]
pub(crate) fn one<V: Visitor>(visitor: &mut V, operand: Handle<Expression>) -> ControlFlow<V::Break>
    ensures { IsWalk V.visits visitor.old (operands (operand ∷ [])) result visitor.new }
{
    single(visitor, Reference::Expression(operand))
}

/// Visits two operands.
#[inline(always)]
pub(crate) fn two<V: Visitor>(
    visitor: &mut V,
    first: Handle<Expression>,
    second: Handle<Expression>,
) -> ControlFlow<V::Break>
    ensures { IsWalk V.visits visitor.old (operands (first ∷ second ∷ [])) result visitor.new }
{
    pair(
        visitor,
        Reference::Expression(first),
        Reference::Expression(second),
    )
}

/// Visits three operands.
#[inline(always)]
pub(crate) fn three<V: Visitor>(
    visitor: &mut V,
    first: Handle<Expression>,
    second: Handle<Expression>,
    third: Handle<Expression>,
) -> ControlFlow<V::Break>
    ensures { IsWalk V.visits visitor.old (operands (first ∷ second ∷ third ∷ [])) result visitor.new }
{
    match visitor.visit(Reference::Expression(first)) {
        ControlFlow::Continue(()) => two(visitor, second, third),
        ControlFlow::Break(stop) => ControlFlow::Break(stop),
    }
}

/// Visits what a value refers to, if there is one.
pub(crate) fn present<T: HasReference, V: Visitor>(
    visitor: &mut V,
    element: &Option<T>,
) -> ControlFlow<V::Break>
    ensures { IsWalk V.visits visitor.old (option_to_list (option_map T.reference element.now)) result visitor.new }
{
    match element {
        Some(element) => single(visitor, element.reference()),
        None => none(visitor),
    }
}

/// Visits what the elements of a list refer to that are present.
pub(crate) fn each_present<T: HasReference, V: Visitor>(
    visitor: &mut V,
    list: &[Option<T>],
) -> ControlFlow<V::Break>
    ensures { IsWalk V.visits visitor.old (present_then (map (option_map T.reference) list.now) []) result visitor.new }
{
    for element in list {
        match present(visitor, element) {
            ControlFlow::Continue(()) => {}
            ControlFlow::Break(stop) => return ControlFlow::Break(stop),
        }
    }
    ControlFlow::Continue(())
}

/// Visits an operand if there is one.
pub(crate) fn optional_operand<V: Visitor>(
    visitor: &mut V,
    operand: Option<Handle<Expression>>,
) -> ControlFlow<V::Break>
    ensures { IsWalk V.visits visitor.old (option_to_list (option_map reference.Expression operand)) result visitor.new }
{
    match operand {
        Some(operand) => one(visitor, operand),
        None => none(visitor),
    }
}

/// Visits the operands of a list, and another one if there is one.
pub(crate) fn each_and<V: Visitor>(
    visitor: &mut V,
    list: &[Handle<Expression>],
    operand: Option<Handle<Expression>>,
) -> ControlFlow<V::Break>
    ensures { IsWalk V.visits visitor.old
        (operands list.entry.now ++ option_to_list (option_map reference.Expression operand)) result visitor.new }
{
    match visitor.visit_each(list) {
        ControlFlow::Continue(()) => optional_operand(visitor, operand),
        ControlFlow::Break(stop) => ControlFlow::Break(stop),
    }
}

/// Visits a range of expressions as one reference.
pub(crate) fn whole_range<V: Visitor>(
    visitor: &mut V,
    range: &Range<Expression>,
) -> ControlFlow<V::Break>
    ensures { IsWalk V.visits visitor.old (reference.Expressions range.now.0 range.now.1 ∷ []) result visitor.new }
{
    let bounds = range.index_range();
    single(
        visitor,
        Reference::Expressions {
            start: bounds.start,
            end: bounds.end,
        },
    )
}

/// Returns the global expression with a handle, if there is a handle.
pub(crate) fn global(handle: Option<Handle<Expression>>) -> Option<Reference>
    ensures { result ≡ option_map reference.GlobalExpression handle }
{
    match handle {
        Some(handle) => Some(Reference::GlobalExpression(handle)),
        None => None,
    }
}
