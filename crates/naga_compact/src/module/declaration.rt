//! The elements of a module that may be kept although nothing refers to them.
use super::abstract_types::is_abstract;
use naga_arena::{Handle, KindName, UniqueArena};
use naga_ir::{Constant, Function, GlobalVariable, Override, Type};
use naga_valid::Reference;

/// An element of a module that may be kept although nothing refers to it.
pub(super) trait Declaration: KindName {
    ghost use Rattle.std.specs.Prelude.{◌≡◌, ℕ, List, Bool};
    ghost use Rattle.naga_arena.specs.declared.span.Span.{Span};
    ghost use Rattle.naga_ir.specs.declared.types.«Type».{«Type» as NamedType};
    ghost use Rattle.naga_valid.specs.declared.reference.Reference.{Reference as ReferenceTo};

    ghost keeps: { List (NamedType × Span) → Self → Bool };

    ghost element: { ℕ → ReferenceTo };

    /// Returns whether the element is kept although nothing refers to it. It belongs to a module with these types.
    fn is_kept(&self, types: &UniqueArena<Type>) -> bool
        ensures { result ≡ keeps types.now self.now };

    /// Returns the element with this handle.
    fn element(handle: Handle<Self>) -> Reference
        ensures { result ≡ element handle };
}

impl Declaration for Type {
    ghost use Rattle.std.specs.Prelude.{◌≡◌, is_some};
    ghost use Rattle.naga_valid.specs.declared.reference.Reference.TheVariants as reference;

    ghost keeps = { λ types declared. is_some declared.name };

    ghost element = { reference.«Type» };

    fn is_kept(&self, _: &UniqueArena<Type>) -> bool {
        self.name.is_some()
    }

    fn element(handle: Handle<Self>) -> Reference
        ensures { result ≡ reference.«Type» handle }
    {
        Reference::Type(handle)
    }
}

impl Declaration for Constant {
    ghost use Rattle.std.specs.Prelude.{◌≡◌};
    ghost use Rattle.naga_valid.specs.declared.reference.Reference.TheVariants as reference;
    ghost use Rattle.naga_compact.specs.Module.Used.{is_named_concrete};

    ghost keeps = { is_named_concrete };

    ghost element = { reference.Constant };

    fn is_kept(&self, types: &UniqueArena<Type>) -> bool {
        self.name.is_some() && !is_abstract(types, self.ty)
    }

    fn element(handle: Handle<Self>) -> Reference
        ensures { result ≡ reference.Constant handle }
    {
        Reference::Constant(handle)
    }
}

impl Declaration for Override {
    ghost use Rattle.std.specs.Prelude.{◌≡◌, is_some};
    ghost use Rattle.naga_valid.specs.declared.reference.Reference.TheVariants as reference;

    ghost keeps = { λ types declared. is_some declared.name };

    ghost element = { reference.Override };

    fn is_kept(&self, _: &UniqueArena<Type>) -> bool {
        self.name.is_some()
    }

    fn element(handle: Handle<Self>) -> Reference
        ensures { result ≡ reference.Override handle }
    {
        Reference::Override(handle)
    }
}

impl Declaration for GlobalVariable {
    ghost use Rattle.std.specs.Prelude.{◌≡◌, true};
    ghost use Rattle.naga_valid.specs.declared.reference.Reference.TheVariants as reference;

    ghost keeps = { λ types declared. true };

    ghost element = { reference.GlobalVariable };

    fn is_kept(&self, _: &UniqueArena<Type>) -> bool {
        true
    }

    fn element(handle: Handle<Self>) -> Reference
        ensures { result ≡ reference.GlobalVariable handle }
    {
        Reference::GlobalVariable(handle)
    }
}

impl Declaration for Function {
    ghost use Rattle.std.specs.Prelude.{◌≡◌, true};
    ghost use Rattle.naga_valid.specs.declared.reference.Reference.TheVariants as reference;

    ghost keeps = { λ types declared. true };

    ghost element = { reference.Function };

    fn is_kept(&self, _: &UniqueArena<Type>) -> bool {
        true
    }

    fn element(handle: Handle<Self>) -> Reference
        ensures { result ≡ reference.Function handle }
    {
        Reference::Function(handle)
    }
}
