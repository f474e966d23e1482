//! The keys of names.
ghost use Rattle.std.specs.Prelude.{◌≡◌};
ghost use Rattle.naga_namer.specs.Declarations.{argument_key, body_key, local_key};

use naga_arena::Handle;
use naga_ir::{Constant, Function, GlobalVariable, LocalVariable, Override, Type};

/// What has a name in a module.
///
/// Differs from naga: positions are of type `usize`. In naga that of an entry point is a `u16`, and others are `u32`.
#[derive(Clone, Copy, Debug, PartialEq, Eq, Hash)]
pub enum NameKey {
    Constant(Handle<Constant>),
    Override(Handle<Override>),
    GlobalVariable(Handle<GlobalVariable>),
    Type(Handle<Type>),
    /// The member at a position of a structure.
    StructMember(Handle<Type>, usize),
    Function(Handle<Function>),
    /// The argument at a position.
    FunctionArgument(Handle<Function>, usize),
    FunctionLocal(Handle<Function>, Handle<LocalVariable>),
    /// The entry point at a position.
    EntryPoint(usize),
    /// The argument at a position of an entry point.
    EntryPointArgument(usize, usize),
    EntryPointLocal(usize, Handle<LocalVariable>),
}

/// A function or an entry point, whose arguments and variables have keys.
#[derive(Clone, Copy)]
pub(crate) enum BodyKey {
    Function(Handle<Function>),
    EntryPoint(usize),
}

impl BodyKey {
    /// Returns the key of the function or the entry point itself.
    pub(crate) fn key(&self) -> NameKey
        ensures { result ≡ body_key self.now }
    {
        match self {
            BodyKey::Function(handle) => NameKey::Function(*handle),
            BodyKey::EntryPoint(index) => NameKey::EntryPoint(*index),
        }
    }

    /// Returns the key of the argument at a position.
    pub(crate) fn argument(&self, index: usize) -> NameKey
        ensures { result ≡ argument_key self.now index }
    {
        match self {
            BodyKey::Function(handle) => NameKey::FunctionArgument(*handle, index),
            BodyKey::EntryPoint(entry) => NameKey::EntryPointArgument(*entry, index),
        }
    }

    /// Returns the key of a local variable.
    pub(crate) fn local(&self, local: Handle<LocalVariable>) -> NameKey
        ensures { result ≡ local_key self.now local }
    {
        match self {
            BodyKey::Function(handle) => NameKey::FunctionLocal(*handle, local),
            BodyKey::EntryPoint(entry) => NameKey::EntryPointLocal(*entry, local),
        }
    }
}
