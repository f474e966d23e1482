//! The types of all expressions of an arena.
ghost use Rattle.std.specs.Prelude.{◌≡◌, ◌++◌, [], ⊤, List, OnOk, IfErr, None, drop, length, option_copied, slice_get};
ghost use Rattle.naga_arena.specs.Arena.{values};
ghost use Rattle.naga_typifier.specs.Context.{context_of};
ghost use Rattle.naga_typifier.specs.Typing.{IsStopped, typing};
ghost use Rattle.naga_typifier.specs.declared.resolution.TypeResolution.{TypeResolution as Resolved};

use crate::context::{Known, ResolveContext};
use crate::resolution::TypeResolution;
use crate::resolve_error::ResolveError;
use naga_arena::{Arena, Handle};
use naga_ir::Expression;
use naga_sets::HandleVec;
use std::alloc::Global;
use std::error::Error;
use std::fmt;
use std::marker::Model;

/// Why a typifier did not grow to the end of an arena.
#[derive(Clone, Copy, Debug, PartialEq, Drop)]
pub enum GrowError {
    /// An expression has no type.
    NoType {
        /// The expression.
        expression: Handle<Expression>,
        /// Why it has no type.
        error: ResolveError,
    },
    /// Allocation fails.
    Memory,
}

impl fmt::Display for GrowError {
    fn fmt<W: fmt::Write>(&self, f: &mut fmt::Formatter<W>) -> fmt::Result {
        match self {
            GrowError::NoType { expression, error } => {
                let expression = expression.index();
                write!(f, "expression {expression} has no type: {error}")
            }
            GrowError::Memory => f.write_str("out of memory"),
        }
    }
}

impl Error for GrowError {}

/// The types of the first expressions of an arena.
///
/// In contracts, a typifier is the list of these types.
#[derive(Drop)]
pub struct Typifier {
    resolutions: HandleVec<Expression, TypeResolution>,
}

impl Model for Typifier {
    ghost use Rattle.std.specs.Prelude.{List};
    ghost use Rattle.naga_typifier.specs.declared.resolution.TypeResolution.{TypeResolution as Resolved};

    ghost Value = { List Resolved };

    ghost view = { λ t. t.resolutions };
}

impl Typifier {
    /// Creates a typifier without types. Nothing is allocated.
    pub fn new(alloc: Global) -> Self
        ensures { result ≡ [] }
    {
        Typifier {
            resolutions: HandleVec::new(alloc),
        }
    }

    /// Returns the type of an expression, or `None` if the typifier has not grown to it.
    pub fn get(&self, handle: Handle<Expression>) -> Option<&TypeResolution>
        ensures { option_copied result ≡ slice_get self.now handle }
    {
        self.resolutions.get(handle)
    }

    /// Removes all types. An arena whose expressions changed needs this before the typifier grows again.
    pub fn reset(&mut self)
        ensures { self.new ≡ [] }
    {
        self.resolutions.clear();
    }

    /// Finds the types of the expressions of an arena, from the first whose type is not known to the last.
    ///
    /// Each expression is resolved once, in order, so the time is linear in their number. Types that are already known
    /// are not found again: if the expressions before or the context changed since they were found, they are still
    /// those of the older arena, and [`reset`](Self::reset) is needed.
    ///
    /// Returns [`GrowError::NoType`] for the first expression that has no type, and [`GrowError::Memory`] if allocation
    /// fails. In both cases, the types of the expressions before are known, and growing again continues from there.
    pub fn grow(
        &mut self,
        expressions: &Arena<Expression>,
        ctx: &ResolveContext<'_>,
    ) -> Result<(), GrowError>
        ensures kept { (found : List Resolved) × (self.new ≡ self.old ++ found) }
        ensures continues { typing (context_of ctx.now) self.new (drop (length self.new) (values expressions.now))
            ≡ typing (context_of ctx.now) self.old (drop (length self.old) (values expressions.now)) }
        ensures all { OnOk result (typing (context_of ctx.now) self.old
            (drop (length self.old) (values expressions.now)) ≡ (self.new, None)) }
        ensures stopped { IfErr result (λ error. IsStopped (context_of ctx.now) self.old
            (drop (length self.old) (values expressions.now)) error self.new) }
    {
        grow(&mut self.resolutions, expressions, ctx)
    }
}

/// Appends the types of the expressions of an arena from the first whose type is not known, like
/// [`Typifier::grow`].
fn grow(
    known: &mut Known,
    expressions: &Arena<Expression>,
    ctx: &ResolveContext<'_>,
) -> Result<(), GrowError>
    ensures kept { (found : List Resolved) × (known.new ≡ known.old ++ found) }
    ensures continues { typing (context_of ctx.now) known.new (drop (length known.new) (values expressions.now))
        ≡ typing (context_of ctx.now) known.old (drop (length known.old) (values expressions.now)) }
    ensures all { OnOk result (typing (context_of ctx.now) known.old
        (drop (length known.old) (values expressions.now)) ≡ (known.new, None)) }
    ensures stopped { IfErr result (λ error. IsStopped (context_of ctx.now) known.old
        (drop (length known.old) (values expressions.now)) error known.new) }
{
    let start = known.len();
    'each: for index in start..expressions.len() {
        let expression = Handle::<Expression>::at(index);
        let ty = match ctx.resolve(&expressions[expression], known) {
            Ok(ty) => ty,
            Err(error) => return Err(GrowError::NoType { expression, error }),
        };
        if known.insert(expression, ty).is_err() {
            return Err(GrowError::Memory);
        }
    }
    Ok(())
}
