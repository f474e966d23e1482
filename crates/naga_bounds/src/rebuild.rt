//! Building the arena in which accesses are clamped.
ghost use Rattle.std.specs.Prelude.{◌≡◌, ◌≤◌, ◌<◌, ◌+◌, ◌∷◌, ◌++◌, [], All, None, Some, length};
ghost use Rattle.std.specs.List.{zip};
ghost use Rattle.naga_arena.specs.Limits.{max_len};
ghost use Rattle.naga_kinds.specs.declared.math.MathFunction.TheVariants.{Min};
ghost use Rattle.naga_kinds.specs.declared.operator.BinaryOperator.TheVariants.{Subtract};
ghost use Rattle.naga_ir.specs.declared.expression.Expression.{Expression as Entry};
ghost use Rattle.naga_ir.specs.declared.expression.Expression.TheVariants.{Binary, Math};
ghost use Rattle.naga_bounds.specs.Plans.{IsShort, IsShortLength};
ghost use Rattle.naga_bounds.specs.Restricted.{conversion, front_count, front_len, front_of, front_of_index, front_of_length, fronts, group, groups, last_index, limit, literal, moving, new_len, operand, width, with_span};
ghost use Rattle.naga_bounds.specs.declared.change.Change.TheVariants.{Clamped};

use crate::building::Building;
use crate::change::{Change, Clamp, ClampedIndex, front_count_of_index};
use crate::length::Length;
use crate::plan::Plan;
use naga_arena::{Arena, Handle, Span};
use naga_compact::Rename;
use naga_ir::{BinaryOperator, Expression, Literal, MathFunction, ScalarKind};

/// Appends a literal of type `u32`.
fn push_literal(building: &mut Building, number: u32, span: Span)
    requires { length building.old.entries < building.old.capacity }
    ensures entries { building.new.entries ≡ building.old.entries ++ (literal number, span) ∷ [] }
    ensures capacity { building.new.capacity ≡ building.old.capacity }
{
    building.push(Expression::Literal(Literal::U32(number)), span);
}

/// Appends a difference, and returns its handle.
fn push_difference(
    building: &mut Building,
    left: Handle<Expression>,
    right: Handle<Expression>,
    span: Span,
) -> Handle<Expression>
    requires { length building.old.entries < building.old.capacity }
    ensures handle { result ≡ length building.old.entries }
    ensures entries { building.new.entries ≡ building.old.entries ++ (Binary Subtract left right, span) ∷ [] }
    ensures capacity { building.new.capacity ≡ building.old.capacity }
{
    let op = BinaryOperator::Subtract;
    building.push(Expression::Binary { op, left, right }, span)
}

/// Appends what is at the front for an index.
fn push_front_of_index(building: &mut Building, index: &ClampedIndex, span: Span)
    requires { length building.old.entries + length (front_of_index index.now) ≤ building.old.capacity }
    ensures entries { building.new.entries ≡ building.old.entries ++ with_span span (front_of_index index.now) }
    ensures capacity { building.new.capacity ≡ building.old.capacity }
{
    match index {
        ClampedIndex::Constant(number) => push_literal(building, *number, span),
        ClampedIndex::Unsigned(_) => {}
        ClampedIndex::Converted(_) => {}
    }
}

/// Appends what is at the front for a length.
fn push_front_of_length(building: &mut Building, long: &Length, span: Span)
    requires short { IsShortLength long.now }
    requires room { length building.old.entries + length (front_of_length long.now) ≤ building.old.capacity }
    ensures entries { building.new.entries ≡ building.old.entries ++ with_span span (front_of_length long.now) }
    ensures capacity { building.new.capacity ≡ building.old.capacity }
{
    match long {
        Length::Fixed(count) => push_literal(building, count.saturating_sub(1) as u32, span),
        Length::Overridden(size) => {
            push_literal(building, 1, span);
            building.push(Expression::Override(*size), span);
        }
        Length::Counted => push_literal(building, 1, span),
    }
}

/// Appends what is at the front for a change.
fn push_front(building: &mut Building, change: &Change, span: Span)
    requires short { IsShort change.now }
    requires room { length building.old.entries + front_count change.now ≤ building.old.capacity }
    ensures entries { building.new.entries ≡ building.old.entries ++ with_span span (front_of change.now) }
    ensures capacity { building.new.capacity ≡ building.old.capacity }
{
    match change {
        Change::Stays => {}
        Change::Clamped(clamp) => {
            push_front_of_index(building, &clamp.index, span);
            push_front_of_length(building, &clamp.length, span)
        }
    }
}

/// Appends what is at the front of the new arena.
pub(crate) fn push_fronts(building: &mut Building, plan: &Plan, old: &Arena<Expression>)
    requires all { length plan.now ≡ length old.now }
    requires short { All IsShort plan.now }
    requires room { length building.old.entries + front_len plan.now ≤ building.old.capacity }
    ensures entries { building.new.entries ≡ building.old.entries ++ fronts (zip plan.now old.now) }
    ensures capacity { building.new.capacity ≡ building.old.capacity }
{
    'expressions: for index in 0..old.len() {
        let handle = Handle::<Expression>::at(index);
        push_front(building, &plan.change(handle), old.get_span(handle));
    }
}

/// Appends the last index of a base if it is not at the front, and returns its handle. `front` is the first handle of what
/// the length has at the front.
fn push_last_index(
    building: &mut Building,
    plan: &Plan,
    clamp: &Clamp,
    front: usize,
    span: Span,
) -> Handle<Expression>
    requires at { front + 1 < max_len }
    requires room { length building.old.entries + length (last_index (moving plan.now) clamp.now.length clamp.now.base front (length building.old.entries)) ≤ building.old.capacity }
    ensures handle { result ≡ limit (moving plan.now) clamp.now.length front (length building.old.entries) }
    ensures entries { building.new.entries ≡ building.old.entries ++ with_span span
        (last_index (moving plan.now) clamp.now.length clamp.now.base front (length building.old.entries)) }
    ensures capacity { building.new.capacity ≡ building.old.capacity }
{
    let first = Handle::<Expression>::at(front);
    match clamp.length {
        Length::Fixed(_) => first,
        Length::Overridden(_) => {
            let size = Handle::<Expression>::at(front + 1);
            push_difference(building, size, first, span)
        }
        Length::Counted => {
            let array = plan.handle(clamp.base);
            let length = building.push(Expression::ArrayLength(array), span);
            push_difference(building, length, first, span)
        }
    }
}

/// Appends the conversion of an index if it needs one, and returns the handle of the index. `front` is the first handle of
/// what the clamp has at the front.
fn push_index(
    building: &mut Building,
    plan: &Plan,
    index: &ClampedIndex,
    front: usize,
    span: Span,
) -> Handle<Expression>
    requires at { front < max_len }
    requires room { length building.old.entries + length (conversion (moving plan.now) index.now) ≤ building.old.capacity }
    ensures handle { result ≡ operand (moving plan.now) index.now front (length building.old.entries) }
    ensures entries { building.new.entries ≡ building.old.entries ++ with_span span (conversion (moving plan.now) index.now) }
    ensures capacity { building.new.capacity ≡ building.old.capacity }
{
    match index {
        ClampedIndex::Constant(_) => Handle::<Expression>::at(front),
        ClampedIndex::Unsigned(index) => plan.handle(*index),
        ClampedIndex::Converted(index) => {
            let conversion = Expression::As {
                expr: plan.handle(*index),
                kind: ScalarKind::Uint,
                convert: Some(4),
            };
            building.push(conversion, span)
        }
    }
}

/// Appends the minimum of two numbers, and returns its handle.
fn push_minimum(
    building: &mut Building,
    index: Handle<Expression>,
    limit: Handle<Expression>,
    span: Span,
) -> Handle<Expression>
    requires { length building.old.entries < building.old.capacity }
    ensures handle { result ≡ length building.old.entries }
    ensures entries { building.new.entries ≡ building.old.entries ++ (Math Min index (Some limit) None None, span) ∷ [] }
    ensures capacity { building.new.capacity ≡ building.old.capacity }
{
    let minimum = Expression::Math {
        fun: MathFunction::Min,
        arg: index,
        arg1: Some(limit),
        arg2: None,
        arg3: None,
    };
    building.push(minimum, span)
}

/// Appends an access that is clamped, with what is inserted before it.
fn push_clamped(building: &mut Building, plan: &Plan, clamp: &Clamp, front: usize, span: Span)
    requires at { front + front_count (Clamped clamp.now) < max_len }
    requires room { length building.old.entries + width (Clamped clamp.now) ≤ building.old.capacity }
    ensures entries { (expression : Entry) → building.new.entries ≡ building.old.entries
        ++ group (moving plan.now) (Clamped clamp.now, (expression, span)) front (length building.old.entries) }
    ensures capacity { building.new.capacity ≡ building.old.capacity }
{
    let first = front + front_count_of_index(&clamp.index);
    let limit = push_last_index(building, plan, clamp, first, span);
    let index = push_index(building, plan, &clamp.index, front, span);
    let index = push_minimum(building, index, limit, span);
    let base = plan.handle(clamp.base);
    building.push(Expression::Access { base, index }, span);
}

/// Appends what is in the place of an expression.
fn push_group(
    building: &mut Building,
    plan: &Plan,
    change: &Change,
    front: usize,
    mut expression: Expression,
    span: Span,
)
    requires at { front + front_count change.now < max_len }
    requires room { length building.old.entries + width change.now ≤ building.old.capacity }
    ensures entries { building.new.entries ≡ building.old.entries
        ++ group (moving plan.now) (change.now, (expression, span)) front (length building.old.entries) }
    ensures capacity { building.new.capacity ≡ building.old.capacity }
{
    match change {
        Change::Stays => {
            expression.rename(plan);
            building.push(expression, span);
        }
        Change::Clamped(clamp) => push_clamped(building, plan, clamp, front, span),
    }
}

/// Moves the expressions of an arena to the new one, each with what is inserted before it.
pub(crate) fn push_groups(building: &mut Building, plan: &Plan, old: &mut Arena<Expression>)
    requires all { length plan.now ≡ length old.old }
    requires front { length building.old.entries ≡ front_len plan.now }
    requires room { new_len plan.now ≤ building.old.capacity }
    requires bound { new_len plan.now ≤ max_len }
    ensures entries { building.new.entries ≡ building.old.entries
        ++ groups (moving plan.now) (zip plan.now old.old) 0 (front_len plan.now) }
    ensures capacity { building.new.capacity ≡ building.old.capacity }
    ensures emptied { old.new ≡ [] }
{
    let mut front = 0;
    'expressions: for (handle, expression, span) in old.drain() {
        let change = plan.change(handle);
        push_group(building, plan, &change, front, expression, span);
        front += change.front_count();
    }
}
