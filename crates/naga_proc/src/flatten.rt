//! Flattens the components of a `Compose`, which may create a vector from vectors.
ghost use Rattle.std.specs.Prelude.{◌≡◌, ◌<◌, ◌≤◌, [], ◌∷◌, ◌+◌, length, max, min, replicate, IfSome, IfNone, IsSomeAnd, IsTrue, Some};
ghost use Rattle.std.specs.Iterator.{YieldsFirst, item_count, UpTo};
ghost use Rattle.std.specs.Iterator.SizeHint.{IsWithinCount};
ghost use Rattle.naga_proc.specs.Flatten.{CanFlatten, copies, copies_left, flattened, parts, size_at};

use naga_arena::{Arena, Handle, UniqueArena};
use naga_ir::{Expression, Type, TypeInner, VectorSize};
use std::iter::FusedIterator;
use std::marker::Model;

/// Returns an iterator over the individual components of the value that a `Compose` of type `ty` creates from
/// `components`.
///
/// A vector may be composed of vectors, as in `vec4(vec3(vec2(6, 7), 8), 9)`. If `ty` is a vector type, each component
/// that is a `Compose`, of whatever type, is replaced by its components, and this is done a second time on the result.
/// Then each `Splat` is replaced by its value, repeated as many times as its size. Of these, the iterator yields as
/// many as the vector has components, or fewer if there are no more. If `ty` is another type, the iterator yields
/// `components` unchanged.
///
/// The caller must ensure that `ty` is in `types`. If it is a vector type, the caller must also ensure that
/// `components`, and the components that replace them in the first and in the second step, are in `expressions`. It is
/// enough that `components` are in `expressions` and that [`chains_precede`](naga_ir::chains_precede) returns `true`.
///
/// Differs from naga: naga panics if a handle that it looks up is not there.
pub fn flatten_compose<'a>(
    ty: Handle<Type>,
    components: &'a [Handle<Expression>],
    expressions: &'a Arena<Expression>,
    types: &'a UniqueArena<Type>,
) -> FlattenCompose<'a>
    requires declared { ty < length types.now }
    requires within { CanFlatten types.now expressions.now ty components.now }
    ensures { result ≡ flattened types.now expressions.now ty components.now }
{
    let parts = match vector_size(types, ty) {
        Some(size) => Parts::Vector(VectorParts {
            opened: Opened {
                expressions,
                outer: components,
                middle: &[],
                inner: &[],
            },
            expressions,
            repeat: None,
            left: size,
        }),
        None => Parts::AsTheyAre(components),
    };
    FlattenCompose { parts }
}

/// Returns the number of components of a type, or `None` if it is not a vector type. Precondition: `ty` is in `types`.
fn vector_size(types: &UniqueArena<Type>, ty: Handle<Type>) -> Option<usize>
    requires { ty < length types.now }
    ensures { result ≡ size_at types.now ty }
{
    match &types[ty].inner {
        TypeInner::Vector { size, .. } => Some(*size as usize),
        _ => None,
    }
}

/// The iterator returned by [`flatten_compose`].
///
/// In contracts, it is the list of its remaining handles.
#[derive(Drop)]
pub struct FlattenCompose<'a> {
    parts: Parts<'a>,
}

/// The components, either unchanged or flattened for a vector.
#[derive(Drop)]
enum Parts<'a> {
    AsTheyAre(&'a [Handle<Expression>]),
    Vector(VectorParts<'a>),
}

impl<'a> Model for FlattenCompose<'a> {
    ghost use Rattle.std.specs.Prelude.{List, ℕ};
    ghost use Rattle.naga_proc.specs.Flatten.Coming.{to_come};

    ghost Value = { List ℕ };

    ghost view = { λ it. to_come it.parts };
}

impl<'a> Iterator for FlattenCompose<'a> {
    type Item = Handle<Expression>;

    ghost next_gives = { YieldsFirst (λ rest. rest) };

    ghost remaining = { item_count (λ rest. rest) };

    fn next(&mut self) -> Option<Handle<Expression>> {
        match &mut self.parts {
            Parts::AsTheyAre(components) => {
                let (first, rest) = components.split_first()?;
                *components = rest;
                Some(*first)
            }
            Parts::Vector(parts) => parts.next(),
        }
    }

    fn size_hint(&self) -> (usize, Option<usize>)
        ensures lower { IsWithinCount result.0 (item_count (λ rest. rest) self.now) }
        ensures upper { IfSome result.1 (UpTo (item_count (λ rest. rest) self.now)) }
        ensures exact { VectorSize.MAX < length self.now → result ≡ (length self.now, Some (length self.now)) }
        ensures known { IsSomeAnd result.1 (λ most. most ≤ max VectorSize.MAX (length self.now)) }
    {
        match &self.parts {
            Parts::AsTheyAre(components) => (components.len(), Some(components.len())),
            Parts::Vector(parts) => parts.size_hint(),
        }
    }
}

impl<'a> FusedIterator for FlattenCompose<'a> {}

/// A value that is yielded repeatedly.
#[derive(Clone, Copy)]
struct Repeat {
    value: Handle<Expression>,
    /// The number of copies that are left.
    left: usize,
}

/// The remaining components of a vector.
#[derive(Drop)]
struct VectorParts<'a> {
    opened: Opened<'a>,
    expressions: &'a Arena<Expression>,
    /// The last component that was yielded, with its copies that are left, or `None` before the first one.
    repeat: Option<Repeat>,
    /// The number of components of the vector that are left.
    left: usize,
}

impl<'a> Model for VectorParts<'a> {
    ghost use Rattle.std.specs.Prelude.{List, ℕ, take, ◌++◌, ◌≤◌};
    ghost use Rattle.naga_kinds.specs.declared.scalar.TheConstants.VectorSize.{MAX as max_size};
    ghost use Rattle.naga_proc.specs.Flatten.{AreIn, copies_left, spread};

    ghost Value = { List ℕ };

    ghost view = { λ it. take it.left (copies_left it.repeat ++ spread it.expressions.now it.opened) };

    ghost invariant = { λ it. AreIn it.expressions.now it.opened × (it.left ≤ max_size) };
}

impl<'a> VectorParts<'a> {
    /// Returns the next component, or `None` if there is none left.
    fn next(&mut self) -> Option<Handle<Expression>>
        ensures { YieldsFirst (λ rest. rest) self.old result self.new }
    {
        if self.left == 0 {
            return None;
        }
        if let Some(value) = next_copy(&mut self.repeat) {
            self.left -= 1;
            return Some(value);
        }
        let handle = self.opened.next()?;
        let Repeat { value, left } = repeat_at(self.expressions, handle);
        self.repeat = Some(Repeat { value, left });
        self.left -= 1;
        Some(value)
    }

    /// Returns a lower and an upper bound of the number of components that are left, as far as they are known without
    /// iterating.
    fn size_hint(&self) -> (usize, Option<usize>)
        ensures lower { result.0 ≤ length self.now }
        ensures upper { IfSome result.1 (λ most. length self.now ≤ most) }
        ensures small { length self.now ≤ VectorSize.MAX }
        ensures known { IsSomeAnd result.1 (λ most. most ≤ VectorSize.MAX) }
    {
        let least = held_at_least(self.left, held_copies(self.repeat), self.opened.at_least());
        if self.opened.is_done() {
            return (least, Some(least));
        }
        (least, Some(self.left))
    }
}

/// Returns the next copy of a repeated value, or `None` if there is none left.
fn next_copy(repeat: &mut Option<Repeat>) -> Option<Handle<Expression>>
    ensures { YieldsFirst copies_left repeat.old result repeat.new }
{
    match *repeat {
        Some(Repeat { value, left }) => {
            if left == 0 {
                return None;
            }
            *repeat = Some(Repeat {
                value,
                left: left - 1,
            });
            Some(value)
        }
        None => None,
    }
}

/// Returns the number of copies of a repeated value that are left.
fn held_copies(repeat: Option<Repeat>) -> usize
    ensures { result ≡ length (copies_left repeat) }
{
    match repeat {
        Some(Repeat { left, .. }) => left,
        None => 0,
    }
}

/// Returns a lower bound of the number of components that are left, if the vector has at most `left` more, and `copies`
/// copies and `handles` handles are already held.
fn held_at_least(left: usize, copies: usize, handles: usize) -> usize
    ensures { result ≡ min left (copies + handles) }
{
    left.min(copies.saturating_add(handles))
}

/// Returns the value of the `Splat` at `handle`, with its copies after the first one. For any other expression, returns
/// `handle` itself, with no more copies.
///
/// Precondition: `handle` is in `expressions`.
fn repeat_at(expressions: &Arena<Expression>, handle: Handle<Expression>) -> Repeat
    requires { handle < length expressions.now }
    ensures { copies expressions.now handle ≡ result.value ∷ replicate result.left result.value }
{
    match &expressions[handle] {
        Expression::Splat { size, value } => Repeat {
            value: *value,
            left: *size as usize - 1,
        },
        _ => Repeat {
            value: handle,
            left: 0,
        },
    }
}

/// Returns the components of the `Compose` at `handle`, or `None` if it is another expression.
///
/// Precondition: `handle` is in `expressions`.
fn components_at<'a>(
    expressions: &'a Arena<Expression>,
    handle: Handle<Expression>,
) -> Option<&'a [Handle<Expression>]>
    requires { handle < length expressions.now }
    ensures some { IfSome result (λ components. parts expressions.now handle ≡ components.now) }
    ensures none { IfNone result (parts expressions.now handle ≡ handle ∷ []) }
{
    match &expressions[handle] {
        Expression::Compose { components, .. } => Some(components.as_slice()),
        _ => None,
    }
}

/// The remaining handles of a list that is opened twice. Opening a list replaces each `Compose` in it by its
/// components.
///
/// In contracts, it is the list of these remaining handles.
#[derive(Drop)]
struct Opened<'a> {
    expressions: &'a Arena<Expression>,
    /// The handles that are still to be opened twice.
    outer: &'a [Handle<Expression>],
    /// The remaining components of the last `Compose` of `outer`, to be opened once.
    middle: &'a [Handle<Expression>],
    /// The remaining components of the last `Compose` of `middle`.
    inner: &'a [Handle<Expression>],
}

impl<'a> Model for Opened<'a> {
    ghost use Rattle.std.specs.Prelude.{List, ℕ};
    ghost use Rattle.naga_proc.specs.Flatten.{AreLevels, yielded};

    ghost Value = { List ℕ };

    ghost view = { λ it. yielded it.expressions.now it.inner.now it.middle.now it.outer.now };

    ghost invariant = { λ it. AreLevels it.expressions.now it.inner.now it.middle.now it.outer.now };
}

impl<'a> Opened<'a> {
    /// Returns the next handle, or `None` if there is none left.
    fn next(&mut self) -> Option<Handle<Expression>>
        ensures { YieldsFirst (λ rest. rest) self.old result self.new }
    {
        'open: loop {
            if let Some((first, rest)) = self.inner.split_first() {
                self.inner = rest;
                return Some(*first);
            }
            if let Some((first, rest)) = self.middle.split_first() {
                self.middle = rest;
                match components_at(self.expressions, *first) {
                    Some(components) => self.inner = components,
                    None => return Some(*first),
                }
            } else {
                let (first, rest) = self.outer.split_first()?;
                self.outer = rest;
                match components_at(self.expressions, *first) {
                    Some(components) => self.middle = components,
                    None => return Some(*first),
                }
            }
        }
    }

    /// Returns a lower bound of the number of handles that are left.
    fn at_least(&self) -> usize
        ensures { result ≤ length self.now }
    {
        self.inner.len()
    }

    /// Returns whether no handles are left, as far as this is known without opening any.
    fn is_done(&self) -> bool
        ensures { IsTrue result → self.now ≡ [] }
    {
        self.outer.is_empty() && self.middle.is_empty() && self.inner.is_empty()
    }
}
