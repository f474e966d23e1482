//! The error for a handle that is not valid.
ghost use Rattle.std.specs.Prelude.{◌≡◌, ◌++◌, codes};
ghost use Rattle.std.specs.Fmt.{DisplaysOnOk, WritesOnOk};
ghost use Rattle.naga_valid.specs.Faults.{place_of_fault};
ghost use Rattle.naga_valid.specs.Messages.{forward_fault_text, invalid_text, late_callee_text, named_place_text, range_fault, range_fault_text};

use crate::place::Place;
use crate::reference::Reference;
use naga_arena::Handle;
use naga_ir::{Expression, Module, Override, Type};
use std::error::Error;
use std::fmt;

/// A handle, or a range of handles, of a module that is not valid.
///
/// Differs from naga: it contains the handle with its arena, and the part of the module that contains the handle.
#[derive(Clone, Copy, Debug, PartialEq, Eq, Drop)]
pub enum InvalidHandle {
    /// A handle is not in its arena.
    BadHandle {
        handle: Reference,
        /// The part of the module that contains the handle.
        place: Place,
    },
    /// The range of an `Emit` is inverted, or it ends after the last expression of the function.
    BadRange {
        /// The index of the first expression.
        start: u32,
        /// The index after the last expression.
        end: u32,
        /// The part of the module that contains the range.
        place: Place,
    },
    /// A handle is in its arena, but does not refer to an earlier element than the one that contains the handle.
    ForwardDependency {
        handle: Reference,
        /// The part of the module that contains the handle.
        place: Place,
    },
    /// A global expression refers to something other than a type, a constant, an override or a global expression.
    NotConstant {
        handle: Reference,
        /// The global expression that contains the handle.
        place: Place,
    },
    /// A global expression refers to a constant or an override whose `init` is not an earlier global expression.
    InitDependency {
        /// The global expression.
        expression: Handle<Expression>,
        /// The constant or the override.
        handle: Reference,
        /// The `init` of the constant or the override: `expression` or a later global expression.
        init: Handle<Expression>,
    },
    /// The size of a type is an override, and a global expression up to the `init` of this override refers to a type
    /// that is not an earlier one, or to a constant or an override of such a type.
    SizeDependency {
        /// The type whose size is an override.
        ty: Handle<Type>,
        /// A global expression that is not after the `init` of the override.
        expression: Handle<Expression>,
        /// The type to which the global expression refers, or the type of the constant or the override to which it
        /// refers: `ty` or a later type.
        depends_on: Handle<Type>,
    },
    /// The size of a type is an override whose type is not an earlier one.
    OverrideDependency {
        /// The type whose size is an override.
        ty: Handle<Type>,
        /// The override.
        size: Handle<Override>,
        /// The type of the override: `ty` or a later type.
        depends_on: Handle<Type>,
    },
}

impl InvalidHandle {
    /// Returns the part of the module that contains the handle or the range. For an `InitDependency`, it is the global
    /// expression. For a `SizeDependency` or an `OverrideDependency`, it is the type whose size is an override.
    pub fn place(&self) -> Place
        ensures { result ≡ place_of_fault self.now }
    {
        match self {
            InvalidHandle::BadHandle { place, .. } => *place,
            InvalidHandle::BadRange { place, .. } => *place,
            InvalidHandle::ForwardDependency { place, .. } => *place,
            InvalidHandle::NotConstant { place, .. } => *place,
            InvalidHandle::InitDependency { expression, .. } => Place::GlobalExpression(
                *expression,
            ),
            InvalidHandle::SizeDependency { ty, .. } => Place::Type(*ty),
            InvalidHandle::OverrideDependency { ty, .. } => Place::Type(*ty),
        }
    }

    /// Returns a value that displays this error with the names that `module` has for the place.
    pub fn display<'a>(&'a self, module: &'a Module) -> DisplayInvalidHandle<'a>
        ensures error { result.error.now ≡ self.now }
        ensures names { result.«module».now ≡ «module».now }
    {
        DisplayInvalidHandle {
            error: self,
            module,
        }
    }

    /// Writes the place of the error with the names that `module` has for it.
    fn write_place<W: fmt::Write>(&self, f: &mut fmt::Formatter<W>, module: &Module) -> fmt::Result
        ensures { DisplaysOnOk W.write_str_gives f.old result
            (named_place_text «module».now (place_of_fault self.now)) f.new }
    {
        self.place().write_named(f, module)
    }

    /// Writes a colon, a space and the error without its place, as they follow the place.
    pub fn write_after_place<W: fmt::Write>(&self, f: &mut fmt::Formatter<W>) -> fmt::Result
        ensures { WritesOnOk W.write_str_gives f.old result (codes ": " ++ invalid_text self.now) f.new }
    {
        f.write_str(": ")?;
        self.write_fault(f)
    }

    /// Writes the error without its place.
    fn write_fault<W: fmt::Write>(&self, f: &mut fmt::Formatter<W>) -> fmt::Result
        ensures { WritesOnOk W.write_str_gives f.old result (invalid_text self.now) f.new }
    {
        match self {
            InvalidHandle::BadHandle { handle, .. } => write!(f, "{handle} is not in its arena"),
            InvalidHandle::BadRange { start, end, .. } => write_range_fault(f, *start, *end),
            InvalidHandle::ForwardDependency { handle, place } => {
                write_forward_fault(f, handle, place)
            }
            InvalidHandle::NotConstant { handle, .. } => write!(f, "{handle} is not constant"),
            InvalidHandle::InitDependency { handle, init, .. } => {
                let init = init.index();
                write!(
                    f,
                    "the init of {handle} is global expression {init}, which does not come earlier"
                )
            }
            InvalidHandle::SizeDependency {
                expression,
                depends_on,
                ..
            } => {
                let (expression, ty) = (expression.index(), depends_on.index());
                write!(
                    f,
                    "its size comes after global expression {expression}, which depends on type {ty}"
                )
            }
            InvalidHandle::OverrideDependency {
                size,
                depends_on,
                ..
            } => {
                let (size, ty) = (size.index(), depends_on.index());
                write!(f, "its size is override {size}, which depends on type {ty}")
            }
        }
    }
}

/// Writes what is wrong with a range of expressions that is inverted or is not in its arena.
fn write_range_fault<W: fmt::Write>(f: &mut fmt::Formatter<W>, start: u32, end: u32) -> fmt::Result
    ensures { WritesOnOk W.write_str_gives f.old result (range_fault_text start end) f.new }
{
    let fault = range_fault(start, end);
    write!(f, "range {start}..{end} of expressions is {fault}")
}

/// Returns what is wrong with a range of expressions that is inverted or is not in its arena.
fn range_fault(start: u32, end: u32) -> &'static str
    ensures { result.now ≡ range_fault start end }
{
    if end < start {
        "inverted"
    } else {
        "not in its arena"
    }
}

/// Writes that a handle in a place is not one of an earlier element. For a call, it names the two functions.
fn write_forward_fault<W: fmt::Write>(
    f: &mut fmt::Formatter<W>,
    handle: &Reference,
    place: &Place,
) -> fmt::Result
    ensures { WritesOnOk W.write_str_gives f.old result (forward_fault_text handle.now place.now) f.new }
{
    match (handle, place) {
        (Reference::Function(callee), Place::Function(caller, _)) => {
            write_late_callee(f, callee.index(), caller.index())
        }
        _ => write!(f, "{handle} does not come earlier"),
    }
}

/// Writes that a function does not come before one that calls it.
fn write_late_callee<W: fmt::Write>(
    f: &mut fmt::Formatter<W>,
    callee: usize,
    caller: usize,
) -> fmt::Result
    ensures { WritesOnOk W.write_str_gives f.old result (late_callee_text callee caller) f.new }
{
    if callee == caller {
        f.write_str("the function calls itself")
    } else {
        write!(
            f,
            "function {callee} must come before function {caller}, which calls it"
        )
    }
}

impl fmt::Display for InvalidHandle {
    ghost use Rattle.std.specs.Prelude.{Some};
    ghost use Rattle.naga_valid.specs.Messages.{invalid_handle_text};

    ghost output = { λ invalid. Some (invalid_handle_text invalid) };

    fn fmt<W: fmt::Write>(&self, f: &mut fmt::Formatter<W>) -> fmt::Result {
        let place = self.place();
        write!(f, "{place}")?;
        self.write_after_place(f)
    }
}

impl Error for InvalidHandle {}

/// An error that is displayed with the names of a module. [`InvalidHandle::display`] returns it.
#[derive(Clone, Copy)]
pub struct DisplayInvalidHandle<'a> {
    error: &'a InvalidHandle,
    module: &'a Module,
}

impl<'a> fmt::Display for DisplayInvalidHandle<'a> {
    ghost use Rattle.naga_valid.specs.Messages.{named_invalid_handle_text};

    ghost output = { λ shown. named_invalid_handle_text shown.«module».now shown.error.now };

    fn fmt<W: fmt::Write>(&self, f: &mut fmt::Formatter<W>) -> fmt::Result {
        self.error.write_place(f, self.module)?;
        self.error.write_after_place(f)
    }
}
