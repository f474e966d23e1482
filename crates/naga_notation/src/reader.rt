//! Reads the notation byte by byte. The unfinished blocks and statements are kept in a list, not on the call stack.
ghost use Rattle.std.specs.Prelude.{◌≡◌, ◌≤◌, ◌<◌, ◌↔◌, Some, IfOk, IfErr, IfSome, IsTrue, OnOk, false, true, option_and_then};
ghost use Rattle.std.specs.Option.{option_map};
ghost use Rattle.naga_ir.specs.Tree.{Cases, empty};
ghost use Rattle.naga_ir.specs.View.{node_of, tree_of};
ghost use Rattle.naga_notation.specs.Limits.{greatest_depth, most_bytes};
ghost use Rattle.naga_notation.specs.Outline.{Notation, case_count, value_after};
ghost use Rattle.naga_notation.specs.Refusal.{IsWithinLimits, Refused};
ghost use Rattle.naga_notation.specs.Reading.State.{nothing, awaiting, switching, depth_at};
ghost use Rattle.naga_notation.specs.Reading.Reader.{HasFewCases, Reaches, advanced, around, cases_at, grown, in_cases, is_case, numbered, part_of, place_of, reached_of, with_begun, with_part, with_place, with_statement};
ghost use Rattle.naga_notation.specs.Reading.{start, begun_by, after_sign, case_closed, case_ended, finished, sign_of};

use crate::error::{NotationError, ShapeError};
use crate::limits::{DEPTH_LIMIT, LENGTH_LIMIT};
use crate::sign::{Compound, Sign};
use naga_arena::{Handle, Span};
use naga_ir::{Block, Expression, Statement, SwitchCase, SwitchValue};
use std::alloc::{AllocError, Global};
use std::mem;

/// Returns the block of which `text` is the notation.
///
/// Fails with [`ShapeError::TooLong`] if the text has more than [`LENGTH_LIMIT`] bytes; this is checked before any byte
/// is read. Fails with [`ShapeError::BadText`] if the text is not a notation; the position is the end of its longest
/// prefix that can be continued to a notation. Fails with [`ShapeError::TooDeep`] if a block is deeper than
/// [`DEPTH_LIMIT`]; the position is that of its bracket. If both apply, the error is the one whose position comes
/// first. Fails with [`ShapeError::Memory`] if allocation fails.
pub fn read_block(alloc: Global, text: &[u8]) -> Result<Block, ShapeError>
    ensures notation { IfOk result (λ block. Notation text.now (tree_of block)) }
    ensures limits { IfOk result (λ _. IsWithinLimits text.now) }
    ensures refused { IfErr result (Refused text.now) }
{
    if text.len() > LENGTH_LIMIT {
        return Err(ShapeError::TooLong);
    }
    let mut reader = Reader::new(alloc);
    for (at, byte) in text.iter().enumerate() {
        match reader.read(*byte) {
            Ok(()) => {}
            Err(NotationError::Unexpected) => return Err(ShapeError::BadText { at }),
            Err(NotationError::Memory) => return Err(ShapeError::Memory),
        }
        if reader.is_too_deep() {
            return Err(ShapeError::TooDeep { at });
        }
    }
    match reader.finish() {
        Some(block) => Ok(block),
        None => Err(ShapeError::BadText { at: text.len() }),
    }
}

/// A block in braces in a statement, with what precedes it in the statement.
#[derive(Drop)]
pub enum Part {
    Block,
    Accept,
    Reject {
        accept: Block,
    },
    Body {
        break_if: Option<Handle<Expression>>,
    },
    Continuing {
        body: Block,
        break_if: Option<Handle<Expression>>,
    },
}

/// The place of an open block in its statement.
#[derive(Drop)]
pub enum Place {
    Part(Part),
    /// The block is the body of a case.
    Case {
        /// The cases before that one.
        before: Vec<SwitchCase>,
        value: SwitchValue,
    },
}

impl Place {
    fn is_case(&self) -> bool
        ensures { result ≡ is_case (place_of self.now) }
    {
        matches!(self, Place::Case { .. })
    }

    /// Sets the value of the next case. Fails with [`NotationError::Unexpected`] if this place is not in a list of cases.
    ///
    /// Precondition: the list has at most `LENGTH_LIMIT` cases.
    fn number_case(&mut self, is_default: bool) -> Result<(), NotationError>
        requires { cases_at (place_of self.old) ≤ most_bytes }
        ensures { Reaches result (Some (place_of self.new)) (numbered is_default (place_of self.old)) }
    {
        match self {
            Place::Part(_) => Err(NotationError::Unexpected),
            Place::Case { before, value } => {
                *value = value_after(before.len(), is_default);
                Ok(())
            }
        }
    }

    /// Appends a case to the list. Fails with [`NotationError::Unexpected`] if this place is not in a list of cases.
    fn push_case(&mut self, body: Block, fall_through: bool) -> Result<(), NotationError>
        ensures { Reaches result (Some (place_of self.new)) (grown fall_through (tree_of body) (place_of self.old)) }
    {
        match self {
            Place::Part(_) => Err(NotationError::Unexpected),
            Place::Case { before, value } => {
                before.push(SwitchCase {
                    value: *value,
                    body,
                    fall_through,
                })?;
                Ok(())
            }
        }
    }
}

/// An open block that contains the innermost one, or an open block that contains an open list of cases.
#[derive(Drop)]
pub struct Outer {
    /// Its statements so far.
    pub statements: Block,
    /// The place of the block or the list of cases that is open in the next statement.
    pub place: Place,
}

/// The construct that has begun after the last statement of the innermost block and has no open block of its own.
#[derive(Clone, Copy)]
pub enum Begun {
    Nothing,
    /// A statement of which a part comes next.
    Part,
    /// A switch without its list of cases.
    Switch,
    /// An open list of cases. The cases so far are kept in the last of the outer blocks, which is then the innermost
    /// block. This avoids moving them from case to case.
    Cases,
    /// An open list of cases, in which a default case comes next.
    DefaultCase,
    /// The end of the body of a case that falls through.
    FallThrough,
}

/// The state of reading a text.
#[derive(Drop)]
pub struct Reader {
    /// The open blocks that contain the innermost one, outermost first.
    pub outers: Vec<Outer>,
    /// The innermost block's statements so far. The value has no meaning while a list of cases is open.
    pub current: Block,
    /// The construct that has begun after these statements.
    pub begun: Begun,
    /// The part that comes next, if one does. It is a field of its own so that `begun` takes only one byte.
    pub part: Part,
}

/// Returns the handle that every expression of the notation has.
fn first_handle() -> Handle<Expression>
    ensures { result ≡ 0 }
{
    Handle::<Expression>::from_usize(0).unwrap()
}

/// Empties a block. A block that is empty already is not dropped.
#[tactic(auto, using(crate::proofs::ReachedOfLemmas::emptied))]
fn empty_block(block: &mut Block, alloc: Global)
    ensures { tree_of block.new ≡ empty }
{
    if block.is_empty() {
        return;
    }
    *block = Block::new(alloc);
}

/// Returns the value of a case that follows `count` other cases.
///
/// Precondition: `count` is at most `LENGTH_LIMIT`.
fn value_after(count: usize, is_default: bool) -> SwitchValue
    requires { count ≤ most_bytes }
    ensures { (cases : Cases) → case_count cases ≡ count → result ≡ value_after cases is_default }
{
    if is_default {
        return SwitchValue::Default;
    }
    SwitchValue::I32(count as i32)
}

impl Reader {
    /// Creates a reader that has read nothing.
    pub fn new(alloc: Global) -> Reader
        ensures { reached_of result ≡ Some start }
    {
        Reader {
            outers: Vec::new(alloc),
            current: Block::new(alloc),
            begun: Begun::Nothing,
            part: Part::Block,
        }
    }

    /// Returns whether the innermost block is deeper than `DEPTH_LIMIT`.
    pub fn is_too_deep(&self) -> bool
        ensures { IfSome (reached_of self.now) (λ reached. IsTrue result ↔ (greatest_depth < depth_at reached)) }
    {
        // Most blocks are at so small a depth that `begun` need not be checked.
        self.outers.len() > DEPTH_LIMIT && self.depth() > DEPTH_LIMIT
    }

    /// Returns the depth of the innermost block.
    fn depth(&self) -> usize
        ensures { IfSome (reached_of self.now) (λ reached. result ≡ depth_at reached) }
    {
        match self.begun {
            // The innermost block is in the last of the outer blocks.
            Begun::Cases | Begun::DefaultCase => self.outers.len().saturating_sub(1),
            _ => self.outers.len(),
        }
    }

    /// Reads one more byte. Fails with [`NotationError::Unexpected`] if it may not follow. On error, the reader is left in
    /// an unspecified state.
    ///
    /// Precondition: an open list of cases has at most `LENGTH_LIMIT` cases.
    pub fn read(&mut self, byte: u8) -> Result<(), NotationError>
        requires { HasFewCases (reached_of self.old) }
        ensures { Reaches result (reached_of self.new) (advanced (reached_of self.old) (sign_of byte)) }
    {
        // What has begun is asked first, so that LLVM makes one jump table of the byte's sign and its effect.
        match self.begun {
            Begun::Nothing => match Sign::of(byte) {
                Some(sign) => self.begin(sign),
                None => Err(NotationError::Unexpected),
            },
            Begun::Part => match Sign::of(byte) {
                Some(sign) => self.open_part(sign),
                None => Err(NotationError::Unexpected),
            },
            Begun::Switch => match Sign::of(byte) {
                Some(sign) => self.open_cases(sign),
                None => Err(NotationError::Unexpected),
            },
            Begun::Cases => match Sign::of(byte) {
                Some(sign) => self.list_on(sign),
                None => Err(NotationError::Unexpected),
            },
            Begun::DefaultCase => match Sign::of(byte) {
                Some(sign) => self.open_default(sign),
                None => Err(NotationError::Unexpected),
            },
            Begun::FallThrough => match Sign::of(byte) {
                Some(sign) => self.end_case(sign),
                None => Err(NotationError::Unexpected),
            },
        }
    }

    /// Returns the block that was read, or `None` if something is unfinished.
    pub fn finish(self) -> Option<Block>
        ensures { option_map tree_of result ≡ option_and_then finished (reached_of self) }
    {
        let Reader {
            outers,
            current,
            begun,
            ..
        } = self;
        match begun {
            Begun::Nothing if outers.is_empty() => Some(current),
            _ => None,
        }
    }

    /// Reads a sign where a statement may begin.
    fn begin(&mut self, sign: Sign) -> Result<(), NotationError>
        requires { self.old.begun ≡ Begun.Nothing }
        ensures { Reaches result (reached_of self.new) (after_sign (with_begun self.old nothing) (Some sign)) }
    {
        match sign {
            Sign::Statement(what) => {
                self.push(what.statement())?;
                Ok(())
            }
            Sign::Begin(what) => {
                self.begin_compound(what);
                Ok(())
            }
            Sign::Open => {
                self.open(Place::Part(Part::Block))?;
                Ok(())
            }
            Sign::Close => self.close(),
            Sign::FallThrough => self.fall_through(),
            Sign::CloseCase => self.close_case(false),
            Sign::OpenCases | Sign::CloseCases | Sign::DefaultCase | Sign::OpenCase => Err(
                NotationError::Unexpected,
            ),
        }
    }

    /// Begins a statement that contains blocks.
    fn begin_compound(&mut self, what: Compound)
        ensures { reached_of self.new ≡ Some (with_begun self.old (begun_by what)) }
    {
        match what {
            Compound::Switch => self.begun = Begun::Switch,
            Compound::If => self.await_part(Part::Accept),
            Compound::Loop => self.await_part(Part::Body { break_if: None }),
            Compound::BreakingLoop => self.await_part(Part::Body {
                break_if: Some(first_handle()),
            }),
        }
    }

    /// Sets the part that comes next. This is inlined into each caller, where most parts are a single byte.
    #[inline(always)]
    fn await_part(&mut self, part: Part)
        ensures { reached_of self.new ≡ Some (with_begun self.old (awaiting (part_of part))) }
    {
        self.part = part;
        self.begun = Begun::Part;
    }

    /// Reads a sign where a part has to open.
    fn open_part(&mut self, sign: Sign) -> Result<(), NotationError>
        ensures { Reaches result (reached_of self.new)
            (after_sign (with_begun self.old (awaiting (part_of self.old.part))) (Some sign)) }
    {
        match sign {
            Sign::Open => {
                let part = mem::replace(&mut self.part, Part::Block);
                self.begun = Begun::Nothing;
                self.open(Place::Part(part))?;
                Ok(())
            }
            _ => Err(NotationError::Unexpected),
        }
    }

    /// Reads a sign where a list of cases has to open.
    fn open_cases(&mut self, sign: Sign) -> Result<(), NotationError>
        ensures { Reaches result (reached_of self.new) (after_sign (with_begun self.old switching) (Some sign)) }
    {
        match sign {
            Sign::OpenCases => {
                let before = Vec::new(*self.outers.allocator());
                let value = SwitchValue::Default;
                self.begun = Begun::Cases;
                self.open(Place::Case { before, value })?;
                Ok(())
            }
            _ => Err(NotationError::Unexpected),
        }
    }

    /// Reads a sign where a case may begin.
    fn list_on(&mut self, sign: Sign) -> Result<(), NotationError>
        requires { HasFewCases (in_cases false (around self.old)) }
        ensures { Reaches result (reached_of self.new) (advanced (in_cases false (around self.old)) (Some sign)) }
    {
        match sign {
            Sign::OpenCase => self.open_case(false),
            Sign::DefaultCase => self.await_default(),
            Sign::CloseCases => self.close_cases(),
            _ => Err(NotationError::Unexpected),
        }
    }

    /// Reads a sign where a default case has to open.
    fn open_default(&mut self, sign: Sign) -> Result<(), NotationError>
        requires { HasFewCases (in_cases true (around self.old)) }
        ensures { Reaches result (reached_of self.new) (advanced (in_cases true (around self.old)) (Some sign)) }
    {
        match sign {
            Sign::OpenCase => self.open_case(true),
            _ => Err(NotationError::Unexpected),
        }
    }

    /// Reads a sign where a case that falls through has to close.
    fn end_case(&mut self, sign: Sign) -> Result<(), NotationError>
        ensures { Reaches result (reached_of self.new)
            (advanced (case_ended (around self.old) (tree_of self.old.current)) (Some sign)) }
    {
        match sign {
            Sign::CloseCase => self.close_case(true),
            _ => Err(NotationError::Unexpected),
        }
    }

    /// Opens the body of the next case. Fails if no list of cases is open.
    fn open_case(&mut self, is_default: bool) -> Result<(), NotationError>
        requires { HasFewCases (in_cases is_default (around self.old)) }
        ensures { Reaches result (reached_of self.new)
            (advanced (in_cases is_default (around self.old)) (Some Sign.OpenCase)) }
    {
        let alloc = *self.outers.allocator();
        let Some(outer) = self.outers.last_mut() else {
            return Err(NotationError::Unexpected);
        };
        outer.place.number_case(is_default)?;
        empty_block(&mut self.current, alloc);
        self.begun = Begun::Nothing;
        Ok(())
    }

    /// Marks the next case as the default one. Fails if no list of cases is open.
    fn await_default(&mut self) -> Result<(), NotationError>
        ensures { Reaches result (reached_of self.new)
            (advanced (in_cases false (around self.old)) (Some Sign.DefaultCase)) }
    {
        let Some(outer) = self.outers.last() else {
            return Err(NotationError::Unexpected);
        };
        if !outer.place.is_case() {
            return Err(NotationError::Unexpected);
        }
        self.begun = Begun::DefaultCase;
        Ok(())
    }

    /// Closes the list of cases and ends its switch. Fails if no list of cases is open.
    fn close_cases(&mut self) -> Result<(), NotationError>
        ensures { Reaches result (reached_of self.new)
            (advanced (in_cases false (around self.old)) (Some Sign.CloseCases)) }
    {
        let Some(Outer { statements, place }) = self.outers.pop() else {
            return Err(NotationError::Unexpected);
        };
        let Place::Case { before, .. } = place else {
            return Err(NotationError::Unexpected);
        };
        self.current = statements;
        self.begun = Begun::Nothing;
        self.push(Statement::Switch {
            selector: first_handle(),
            cases: before,
        })?;
        Ok(())
    }

    /// Appends a statement to the innermost block.
    #[tactic(auto, using(crate::proofs::ReachedOfLemmas::reached_of_pushes))]
    fn push(&mut self, statement: Statement) -> Result<(), AllocError>
        requires { self.old.begun ≡ Begun.Nothing }
        ensures { OnOk result (reached_of self.new ≡ Some (with_statement self.old (node_of statement))) }
    {
        self.current.push(statement, Span::UNDEFINED)
    }

    /// Opens a block at a place in the next statement of the innermost block.
    fn open(&mut self, place: Place) -> Result<(), AllocError>
        ensures { OnOk result (reached_of self.new ≡ with_place self.old (place_of place)) }
    {
        let alloc = *self.outers.allocator();
        let statements = mem::replace(&mut self.current, Block::new(alloc));
        self.outers.push(Outer { statements, place })?;
        Ok(())
    }

    /// Closes the innermost block. Fails if it is not a block in braces.
    #[tactic(auto, using(crate::proofs::ReachedOfLemmas::reached_of_pushes))]
    fn close(&mut self) -> Result<(), NotationError>
        requires { self.old.begun ≡ Begun.Nothing }
        ensures { Reaches result (reached_of self.new) (after_sign (with_begun self.old nothing) (Some Sign.Close)) }
    {
        let Some(Outer { statements, place }) = self.outers.pop() else {
            return Err(NotationError::Unexpected);
        };
        let inner = mem::replace(&mut self.current, statements);
        match place {
            Place::Part(part) => {
                self.end_part(part, inner)?;
                Ok(())
            }
            Place::Case { .. } => Err(NotationError::Unexpected),
        }
    }

    /// Continues or ends a statement after one of its parts.
    #[tactic(auto, using(crate::proofs::ReachedOfLemmas::reached_of_pushes))]
    fn end_part(&mut self, part: Part, inner: Block) -> Result<(), AllocError>
        requires { self.old.begun ≡ Begun.Nothing }
        ensures { OnOk result (reached_of self.new ≡ Some (with_part self.old (part_of part) (tree_of inner))) }
    {
        match part {
            Part::Block => self.push(Statement::Block(inner)),
            Part::Accept => {
                self.await_part(Part::Reject { accept: inner });
                Ok(())
            }
            Part::Reject { accept } => self.push(Statement::If {
                condition: first_handle(),
                accept,
                reject: inner,
            }),
            Part::Body { break_if } => {
                self.await_part(Part::Continuing {
                    body: inner,
                    break_if,
                });
                Ok(())
            }
            Part::Continuing { body, break_if } => self.push(Statement::Loop {
                body,
                continuing: inner,
                break_if,
            }),
        }
    }

    /// Ends the body of a case that falls through. Fails if the innermost block is not the body of a case.
    fn fall_through(&mut self) -> Result<(), NotationError>
        requires { self.old.begun ≡ Begun.Nothing }
        ensures { Reaches result (reached_of self.new) (case_ended (around self.old) (tree_of self.old.current)) }
    {
        let Some(outer) = self.outers.last() else {
            return Err(NotationError::Unexpected);
        };
        if !outer.place.is_case() {
            return Err(NotationError::Unexpected);
        }
        self.begun = Begun::FallThrough;
        Ok(())
    }

    /// Closes the body of a case. Fails if the innermost block is not the body of a case.
    fn close_case(&mut self, fall_through: bool) -> Result<(), NotationError>
        ensures { Reaches result (reached_of self.new)
            (case_closed fall_through (around self.old) (tree_of self.old.current)) }
    {
        let alloc = *self.outers.allocator();
        let Some(outer) = self.outers.last_mut() else {
            return Err(NotationError::Unexpected);
        };
        let body = mem::replace(&mut self.current, Block::new(alloc));
        outer.place.push_case(body, fall_through)?;
        self.begun = Begun::Cases;
        Ok(())
    }
}
