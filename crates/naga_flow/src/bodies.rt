//! Both checks, of each body of a module.
ghost use Rattle.std.specs.Prelude.{IfErr, MatchResult, OnOk};
ghost use Rattle.std.specs.List.{All};
ghost use Rattle.naga_arena.specs.Arena.{values};
ghost use Rattle.naga_flow.specs.Bodies.{BodiesPass, BodyPasses, HasFault, IsFaultOf, IsFaultOfEntries, IsFaultOfFunctions, functions_of_entries};

use crate::invalid_use::{InvalidUse, Misuse};
use crate::jumps::check_jumps;
use crate::misplaced_jump::MisplacedJump;
use crate::uses::check_uses;
use naga_arena::{Arena, Handle};
use naga_ir::{EntryPoint, Function, Module};
use std::alloc::Global;
use std::error::Error;
use std::fmt;

/// Why a body does not pass.
#[derive(Clone, Copy, Debug, PartialEq, Drop)]
pub enum InvalidBody {
    /// Allocation fails.
    Memory,
    /// A jump is not allowed where it is.
    Jump(MisplacedJump),
    /// An expression is misused.
    Use(Misuse),
}

impl fmt::Display for InvalidBody {
    ghost use Rattle.std.specs.Prelude.{Some};
    ghost use Rattle.naga_flow.specs.Messages.{invalid_body_text};

    ghost output = { λ invalid. Some (invalid_body_text invalid) };

    fn fmt<W: fmt::Write>(&self, f: &mut fmt::Formatter<W>) -> fmt::Result {
        match self {
            InvalidBody::Memory => f.write_str("out of memory"),
            InvalidBody::Jump(fault) => write!(f, "{fault}"),
            InvalidBody::Use(misuse) => write!(f, "{misuse}"),
        }
    }
}

impl Error for InvalidBody {}

/// A function or an entry point of a module.
#[derive(Clone, Copy, Debug, PartialEq, Eq)]
pub enum BodyOwner {
    /// An element of `functions`.
    Function(Handle<Function>),
    /// The entry point at a position.
    EntryPoint(usize),
}

impl fmt::Display for BodyOwner {
    ghost use Rattle.std.specs.Prelude.{Some};
    ghost use Rattle.naga_flow.specs.Messages.{owner_text};

    ghost output = { λ owner. Some (owner_text owner) };

    fn fmt<W: fmt::Write>(&self, f: &mut fmt::Formatter<W>) -> fmt::Result {
        match self {
            BodyOwner::Function(handle) => handle.write_prefixed(f, "function "),
            BodyOwner::EntryPoint(position) => write!(f, "entry point {position}"),
        }
    }
}

/// The first body of a module that does not pass.
#[derive(Clone, Copy, Debug, PartialEq, Drop)]
pub struct InvalidBodies {
    /// The function or the entry point.
    pub owner: BodyOwner,
    /// Why its body does not pass.
    pub error: InvalidBody,
}

impl fmt::Display for InvalidBodies {
    ghost use Rattle.std.specs.Prelude.{Some};
    ghost use Rattle.naga_flow.specs.Messages.{invalid_bodies_text};

    ghost output = { λ invalid. Some (invalid_bodies_text invalid) };

    fn fmt<W: fmt::Write>(&self, f: &mut fmt::Formatter<W>) -> fmt::Result {
        write!(f, "{}: {}", self.owner, self.error)
    }
}

impl Error for InvalidBodies {}

/// Checks the body of each function and of each entry point of a module, by [`check_jumps`] and then by [`check_uses`].
///
/// Returns the first error with its function or entry point. The functions come before the entry points. By the law
/// [`a_body_with_a_fault_does_not_pass`](crate::laws::a_body_with_a_fault_does_not_pass), no other body has an error,
/// unless allocation fails.
pub fn check_bodies(alloc: Global, module: &Module) -> Result<(), InvalidBodies>
    ensures passes { OnOk result (BodiesPass «module».now) }
    ensures fault { IfErr result (λ invalid. IsFaultOf «module».now invalid.owner invalid.error) }
{
    if let Err(invalid) = check_functions(alloc, &module.functions) {
        return Err(invalid);
    }
    check_entry_points(alloc, module.entry_points.as_slice())
}

/// Checks the bodies of functions.
fn check_functions(alloc: Global, functions: &Arena<Function>) -> Result<(), InvalidBodies>
    ensures { MatchResult result (λ _. All BodyPasses (values functions.now))
        (λ invalid. IsFaultOfFunctions (values functions.now) invalid.owner invalid.error) }
{
    'functions: for index in 0..functions.len() {
        let handle = Handle::<Function>::at(index);
        if let Err(error) = check_body(alloc, &functions[handle]) {
            let owner = BodyOwner::Function(handle);
            return Err(InvalidBodies { owner, error });
        }
    }
    Ok(())
}

/// Checks the bodies of entry points.
fn check_entry_points(alloc: Global, entry_points: &[EntryPoint]) -> Result<(), InvalidBodies>
    ensures { MatchResult result (λ _. All BodyPasses (functions_of_entries entry_points.now))
        (λ invalid. IsFaultOfEntries (functions_of_entries entry_points.now) invalid.owner invalid.error) }
{
    'entry_points: for position in 0..entry_points.len() {
        if let Err(error) = check_body(alloc, &entry_points[position].function) {
            let owner = BodyOwner::EntryPoint(position);
            return Err(InvalidBodies { owner, error });
        }
    }
    Ok(())
}

/// Checks a body, first its jumps and then its uses.
pub fn check_body(alloc: Global, function: &Function) -> Result<(), InvalidBody>
    ensures passes { OnOk result (BodyPasses function.now) }
    ensures fault { IfErr result (HasFault function.now) }
{
    if let Err(misplaced) = check_jumps(function) {
        return Err(InvalidBody::Jump(misplaced));
    }
    match check_uses(alloc, function) {
        Ok(()) => Ok(()),
        Err(InvalidUse::Misuse(misuse)) => Err(InvalidBody::Use(misuse)),
        Err(InvalidUse::Memory) => Err(InvalidBody::Memory),
    }
}
