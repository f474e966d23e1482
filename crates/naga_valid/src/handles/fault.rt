//! A handle that is not valid, and the place where it was found.
ghost use Rattle.std.specs.Prelude.{◌≡◌, ◌↔◌, IsTrue};
ghost use Rattle.naga_valid.specs.Faults.{IsAtFault, IsGlobalExpression, IsOutside, arenas_at, place_of};
ghost use Rattle.naga_valid.specs.Valid.{IsConstant};

use super::order::is_constant;
use crate::invalid_handle::InvalidHandle;
use crate::limits::Limits;
use crate::place::{Part, Place};
use crate::reference::Reference;
use naga_arena::Handle;
use naga_ir::{Function, Module};

/// A handle that goes past the limits of the part of a module that contains it.
#[derive(Clone, Copy, Debug)]
pub(super) struct Fault {
    pub(super) reference: Reference,
    pub(super) place: Place,
}

impl Fault {
    /// Returns the error for this fault, which depends on whether the handle is in its arena, and in a global
    /// expression on whether it is constant.
    pub(super) fn in_module(&self, module: &Module) -> InvalidHandle
        requires { IsOutside «module».now self.now }
        ensures { IsAtFault «module».now result }
    {
        if self.is_not_constant() {
            return InvalidHandle::NotConstant {
                handle: self.reference,
                place: self.place,
            };
        }
        let arenas = arenas_at(module, &self.place);
        if arenas.allow(&self.reference) {
            return InvalidHandle::ForwardDependency {
                handle: self.reference,
                place: self.place,
            };
        }
        match &self.reference {
            Reference::Expressions { start, end } => InvalidHandle::BadRange {
                start: *start,
                end: *end,
                place: self.place,
            },
            _ => InvalidHandle::BadHandle {
                handle: self.reference,
                place: self.place,
            },
        }
    }

    /// Returns whether it is a reference of a global expression that is not constant.
    fn is_not_constant(&self) -> bool
        ensures { IsTrue result ↔ (IsGlobalExpression self.now.place × ¬ IsConstant self.now.reference) }
    {
        match &self.place {
            Place::GlobalExpression(_) => !is_constant(&self.reference),
            _ => false,
        }
    }
}

/// Returns the lengths of the arenas to which the handles of a part of a module refer.
fn arenas_at(module: &Module, place: &Place) -> Limits
    ensures { result ≡ arenas_at «module».now place.now }
{
    let limits = Limits::of_module(module);
    match place {
        Place::GlobalExpression(_) => Limits {
            expressions: module.global_expressions.len(),
            ..limits
        },
        Place::Function(handle, _) => match module.functions.try_get(*handle) {
            Ok(function) => limits.in_function(function),
            Err(_) => limits,
        },
        Place::EntryPointFunction(position, _) => match module.entry_points.get(*position) {
            Some(entry_point) => limits.in_function(&entry_point.function),
            None => limits,
        },
        _ => limits,
    }
}

/// The function or the entry point that contains a part.
#[derive(Clone, Copy, Debug)]
pub(super) enum Owner {
    Function(Handle<Function>),
    EntryPoint(usize),
}

impl Owner {
    /// Returns the place of a part of the function.
    pub(super) fn part(&self, part: Part) -> Place
        ensures { result ≡ place_of self.now part }
    {
        match self {
            Owner::Function(handle) => Place::Function(*handle, part),
            Owner::EntryPoint(position) => Place::EntryPointFunction(*position, part),
        }
    }
}
