//! The check of initial values.
ghost use Rattle.std.specs.Prelude.{◌≡◌, ◌<◌, ◌≤◌, MatchResult, Some, length, slice_get};
ghost use Rattle.std.specs.List.{All};
ghost use Rattle.naga_arena.specs.Limits.{max_len};
ghost use Rattle.naga_typing.specs.Faults.{IsFirstUnmetAt};
ghost use Rattle.naga_typing.specs.Initials.{constants_of, declaration_at, initials, locals_of, overrides_of, variables_of};
ghost use Rattle.naga_typing.specs.TypedFunctions.{FitsIn};

use crate::requirement::{Requirement, Source, of_type, of_type_if};
use crate::typed_function::TypedFunction;
use naga_arena::Handle;
use naga_ir::{Constant, GlobalVariable, LocalVariable, Override};
use std::fmt;

/// What has an initial value.
#[derive(Clone, Copy, Debug, PartialEq, Eq)]
pub enum Initialized {
    /// A constant, which has its value.
    Constant(Handle<Constant>),
    /// An override, which may have a default value.
    Override(Handle<Override>),
    /// A global variable.
    GlobalVariable(Handle<GlobalVariable>),
    /// A local variable.
    LocalVariable(Handle<LocalVariable>),
}

impl fmt::Display for Initialized {
    ghost use Rattle.std.specs.Prelude.{Some};
    ghost use Rattle.naga_typing.specs.Messages.{initialized_text};

    ghost output = { λ declared. Some (initialized_text declared) };

    fn fmt<W: fmt::Write>(&self, f: &mut fmt::Formatter<W>) -> fmt::Result {
        match self {
            Initialized::Constant(handle) => handle.write_prefixed(f, "constant "),
            Initialized::Override(handle) => handle.write_prefixed(f, "override "),
            Initialized::GlobalVariable(handle) => handle.write_prefixed(f, "global variable "),
            Initialized::LocalVariable(handle) => handle.write_prefixed(f, "local variable "),
        }
    }
}

/// Which declarations have initial values.
#[derive(Clone, Copy)]
pub(crate) enum DeclarationKind {
    Constant,
    Override,
    GlobalVariable,
    LocalVariable,
}

/// A declaration whose initial value has not the type declared.
#[derive(Clone, Copy)]
pub(crate) struct Misinitialized {
    /// The declaration.
    pub(crate) position: usize,
    /// What it requires and what is not met.
    pub(crate) requirement: Requirement,
}

/// Returns the declaration of this kind with this index.
pub(crate) fn declaration_at(kind: DeclarationKind, index: usize) -> Initialized
    requires { index < max_len }
    ensures { result ≡ declaration_at kind index }
{
    match kind {
        DeclarationKind::Constant => Initialized::Constant(Handle::<Constant>::at(index)),
        DeclarationKind::Override => Initialized::Override(Handle::<Override>::at(index)),
        DeclarationKind::GlobalVariable => {
            Initialized::GlobalVariable(Handle::<GlobalVariable>::at(index))
        }
        DeclarationKind::LocalVariable => {
            Initialized::LocalVariable(Handle::<LocalVariable>::at(index))
        }
    }
}

impl TypedFunction<'_> {
    /// Checks that the initial values of the declarations of this kind have the types declared: those of the module, and
    /// the variables of the function.
    ///
    /// Returns the first that has not.
    pub(crate) fn check_initials(&self, kind: DeclarationKind) -> Result<(), Misinitialized>
        ensures { MatchResult result
            (λ _. All (FitsIn self.now) (initials self.now.«module».now self.now.function.now kind))
            (λ found. (found.position < max_len) × IsFirstUnmetAt (FitsIn self.now)
            (initials self.now.«module».now self.now.function.now kind) found.position found.requirement) }
    {
        'declarations: for position in 0..self.count_of(kind) {
            if let Some(requirement) = self.unmet(&self.initial(kind, position)) {
                return Err(Misinitialized {
                    position,
                    requirement,
                });
            }
        }
        Ok(())
    }

    /// Returns the number of declarations of this kind.
    pub(crate) fn count_of(&self, kind: DeclarationKind) -> usize
        ensures value { result ≡ length (initials self.now.«module».now self.now.function.now kind) }
        ensures bound { result ≤ max_len }
    {
        match kind {
            DeclarationKind::Constant => self.module.constants.len(),
            DeclarationKind::Override => self.module.overrides.len(),
            DeclarationKind::GlobalVariable => self.module.global_variables.len(),
            DeclarationKind::LocalVariable => self.function.local_variables.len(),
        }
    }

    /// Returns what the declaration of this kind with this index requires of its initial value.
    pub(crate) fn initial(&self, kind: DeclarationKind, index: usize) -> Option<Requirement>
        requires within { index < length (initials self.now.«module».now self.now.function.now kind) }
        requires fits { index < max_len }
        ensures { slice_get (initials self.now.«module».now self.now.function.now kind) index ≡ Some result }
    {
        match kind {
            DeclarationKind::Constant => self.constant(index),
            DeclarationKind::Override => self.default_value(index),
            DeclarationKind::GlobalVariable => self.global_variable(index),
            DeclarationKind::LocalVariable => self.local_variable(index),
        }
    }

    /// Returns what a constant requires of its value.
    fn constant(&self, index: usize) -> Option<Requirement>
        requires within { index < length (constants_of self.now.«module».now) }
        requires fits { index < max_len }
        ensures { slice_get (constants_of self.now.«module».now) index ≡ Some result }
    {
        let handle = Handle::<Constant>::at(index);
        let declared = &self.module.constants[handle];
        of_type(Source::Declared(declared.ty), declared.init)
    }

    /// Returns what an override requires of its default value.
    fn default_value(&self, index: usize) -> Option<Requirement>
        requires within { index < length (overrides_of self.now.«module».now) }
        requires fits { index < max_len }
        ensures { slice_get (overrides_of self.now.«module».now) index ≡ Some result }
    {
        let handle = Handle::<Override>::at(index);
        let declared = &self.module.overrides[handle];
        of_type_if(Source::Declared(declared.ty), declared.init)
    }

    /// Returns what a global variable requires of its initial value.
    fn global_variable(&self, index: usize) -> Option<Requirement>
        requires within { index < length (variables_of self.now.«module».now) }
        requires fits { index < max_len }
        ensures { slice_get (variables_of self.now.«module».now) index ≡ Some result }
    {
        let handle = Handle::<GlobalVariable>::at(index);
        let declared = &self.module.global_variables[handle];
        of_type_if(Source::Declared(declared.ty), declared.init)
    }

    /// Returns what a local variable requires of its initial value.
    fn local_variable(&self, index: usize) -> Option<Requirement>
        requires within { index < length (locals_of self.now.function.now) }
        requires fits { index < max_len }
        ensures { slice_get (locals_of self.now.function.now) index ≡ Some result }
    {
        let handle = Handle::<LocalVariable>::at(index);
        let declared = &self.function.local_variables[handle];
        of_type_if(Source::Declared(declared.ty), declared.init)
    }
}
