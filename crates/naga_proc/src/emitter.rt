//! The [`Emitter`], which collects appended expressions so that one statement emits them.
ghost use Rattle.std.specs.Prelude.{◌≡◌, ◌<◌, ◌≤◌, length, None, Some, is_some, IsSomeAnd, IfNone, IfSome};
ghost use Rattle.naga_proc.specs.Building.Emission.{emission};

use naga_arena::{Arena, Range, Span};
use naga_ir::{Expression, Statement};
use std::marker::Model;

/// An emitter, which collects the expressions that are appended to an arena while it is running, and emits them with
/// one statement.
///
/// In contracts, it is the length of the arena at the start while the emitter is running, and `None` while it is not.
#[derive(Debug, Drop)]
pub struct Emitter {
    start_len: Option<usize>,
}

impl Model for Emitter {
    ghost use Rattle.std.specs.Prelude.{ℕ, Option};

    ghost Value = { Option ℕ };

    ghost view = { λ e. e.start_len };
}

/// Creates an emitter that is not running.
impl Default for Emitter {
    ghost is_default = { λ emitter. emitter ≡ None };

    fn default() -> Self {
        Emitter { start_len: None }
    }
}

impl Emitter {
    /// Starts collecting the expressions that are appended to the arena from now on.
    ///
    /// The caller must ensure that the emitter is not running; [`is_running`](Self::is_running) tests it.
    ///
    /// Differs from naga: naga panics if the emitter is running.
    pub fn start(&mut self, arena: &Arena<Expression>)
        requires { self.old ≡ None }
        ensures { self.new ≡ Some (length arena.now) }
    {
        self.start_len = Some(arena.len());
    }

    /// Returns whether the emitter is running: it was started, and has not been finished since.
    pub fn is_running(&self) -> bool
        ensures { result ≡ is_some self.now }
    {
        self.start_len.is_some()
    }

    /// Stops the emitter, and returns the statement that emits the expressions appended since the start.
    ///
    /// The statement comes with the join of the spans of these expressions. Returns `None` if no expression was
    /// appended.
    ///
    /// The caller must ensure that the emitter is running, and that the arena is at least as long as it was at the
    /// start.
    ///
    /// Differs from naga: naga panics if these preconditions are not met.
    #[must_use]
    pub fn finish(&mut self, arena: &Arena<Expression>) -> Option<(Statement, Span)>
        requires { IsSomeAnd self.old (λ start. start ≤ length arena.now) }
        ensures emitted { IfSome self.old (λ start. result ≡ emission arena.now (start, length arena.now)) }
        ensures stopped { self.new ≡ None }
    {
        let range = self.take_range(arena)?;
        Some(emit(range, arena))
    }

    /// Stops the emitter, and returns the range of the expressions appended since the start, or `None` if it is empty.
    ///
    /// Preconditions: those of [`finish`](Self::finish).
    pub(crate) fn take_range(&mut self, arena: &Arena<Expression>) -> Option<Range<Expression>>
        requires { IsSomeAnd self.old (λ start. start ≤ length arena.now) }
        ensures range { IfSome result (λ range. (self.old ≡ Some range.0)
            × (range.0 < range.1) × (range.1 ≡ length arena.now)) }
        ensures empty { IfNone result (self.old ≡ Some (length arena.now)) }
        ensures stopped { self.new ≡ None }
    {
        let start_len = self.start_len.take().unwrap();
        if start_len == arena.len() {
            return None;
        }
        Some(arena.range_from(start_len))
    }
}

/// Returns the statement that emits a range of expressions, with the join of their spans.
///
/// Preconditions: the range is not empty, and it is in the arena.
pub(crate) fn emit(range: Range<Expression>, arena: &Arena<Expression>) -> (Statement, Span)
    requires filled { range.0 < range.1 }
    requires within { range.1 ≤ length arena.now }
    ensures { emission arena.now range ≡ Some result }
{
    let handles = Range::<Expression>::from_index_range(range.index_range(), arena);
    let spans = handles.map(|handle| arena.get_span(handle));
    (Statement::Emit(range), Span::total_span(spans))
}
