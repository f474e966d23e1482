//! Handles and ranges of handles, each with the arena to which it belongs.
ghost use Rattle.std.specs.Prelude.{◌≡◌};

use naga_arena::Handle;
use naga_ir::{
    Constant, DiagnosticFilterNode, Expression, Function, FunctionArgument, GlobalVariable,
    LocalVariable, Override, StructMember, Type,
};
use std::fmt;

/// A handle or a range of handles, with the arena to which it belongs.
///
/// Differs from naga: naga has no such type.
#[derive(Clone, Copy, Debug, PartialEq, Eq)]
pub enum Reference {
    /// An element of the module's `types`.
    Type(Handle<Type>),
    /// An element of the module's `constants`.
    Constant(Handle<Constant>),
    /// An element of the module's `overrides`.
    Override(Handle<Override>),
    /// An element of the module's `global_variables`.
    GlobalVariable(Handle<GlobalVariable>),
    /// An element of the module's `global_expressions`, in a declaration of the module.
    GlobalExpression(Handle<Expression>),
    /// An element of the arena of the expression that contains the handle, or of the `expressions` of the function that
    /// contains it.
    Expression(Handle<Expression>),
    /// The elements of the function's `expressions` that an `Emit` evaluates.
    Expressions {
        /// The index of the first element.
        start: u32,
        /// The index after the last element.
        end: u32,
    },
    /// An element of the function's `local_variables`.
    LocalVariable(Handle<LocalVariable>),
    /// An element of the module's `functions`.
    Function(Handle<Function>),
    /// An element of the module's `diagnostic_filters`.
    DiagnosticFilter(Handle<DiagnosticFilterNode>),
}

impl fmt::Display for Reference {
    ghost use Rattle.std.specs.Prelude.{Some};
    ghost use Rattle.naga_valid.specs.Messages.{reference_text};

    ghost output = { λ reference. Some (reference_text reference) };

    fn fmt<W: fmt::Write>(&self, f: &mut fmt::Formatter<W>) -> fmt::Result {
        match self {
            Reference::Type(handle) => handle.write_prefixed(f, "type "),
            Reference::Constant(handle) => handle.write_prefixed(f, "constant "),
            Reference::Override(handle) => handle.write_prefixed(f, "override "),
            Reference::GlobalVariable(handle) => handle.write_prefixed(f, "global variable "),
            Reference::GlobalExpression(handle) => handle.write_prefixed(f, "global expression "),
            Reference::Expression(handle) => handle.write_prefixed(f, "expression "),
            Reference::Expressions { start, end } => write!(f, "expressions {start}..{end}"),
            Reference::LocalVariable(handle) => handle.write_prefixed(f, "local variable "),
            Reference::Function(handle) => handle.write_prefixed(f, "function "),
            Reference::DiagnosticFilter(handle) => handle.write_prefixed(f, "diagnostic filter "),
        }
    }
}

/// A value that refers to exactly one thing.
pub trait HasReference {
    ghost use Rattle.naga_valid.specs.declared.reference.Reference.{Reference as ReferenceTo};

    ghost reference: { Self → ReferenceTo };

    /// Returns what it refers to.
    fn reference(&self) -> Reference
        ensures { result ≡ reference self.now };
}

impl HasReference for Handle<Expression> {
    ghost use Rattle.naga_valid.specs.declared.reference.Reference.TheVariants as reference_to;

    ghost reference = { reference_to.Expression };

    fn reference(&self) -> Reference {
        Reference::Expression(*self)
    }
}

impl HasReference for StructMember {
    ghost use Rattle.naga_valid.specs.declared.reference.Reference.TheVariants as reference_to;

    ghost reference = { λ member. reference_to.«Type» member.ty };

    fn reference(&self) -> Reference {
        Reference::Type(self.ty)
    }
}

impl HasReference for FunctionArgument {
    ghost use Rattle.naga_valid.specs.declared.reference.Reference.TheVariants as reference_to;

    ghost reference = { λ argument. reference_to.«Type» argument.ty };

    fn reference(&self) -> Reference {
        Reference::Type(self.ty)
    }
}

impl HasReference for Handle<Type> {
    ghost use Rattle.naga_valid.specs.declared.reference.Reference.TheVariants as reference_to;

    ghost reference = { reference_to.«Type» };

    fn reference(&self) -> Reference {
        Reference::Type(*self)
    }
}

impl HasReference for (Handle<Type>, usize) {
    ghost use Rattle.naga_valid.specs.declared.reference.Reference.TheVariants as reference_to;

    ghost reference = { λ key. reference_to.«Type» key.0 };

    fn reference(&self) -> Reference {
        Reference::Type(self.0)
    }
}

impl HasReference for Handle<Constant> {
    ghost use Rattle.naga_valid.specs.declared.reference.Reference.TheVariants as reference_to;

    ghost reference = { reference_to.Constant };

    fn reference(&self) -> Reference {
        Reference::Constant(*self)
    }
}

impl HasReference for Handle<GlobalVariable> {
    ghost use Rattle.naga_valid.specs.declared.reference.Reference.TheVariants as reference_to;

    ghost reference = { reference_to.GlobalVariable };

    fn reference(&self) -> Reference {
        Reference::GlobalVariable(*self)
    }
}

impl HasReference for Handle<Function> {
    ghost use Rattle.naga_valid.specs.declared.reference.Reference.TheVariants as reference_to;

    ghost reference = { reference_to.Function };

    fn reference(&self) -> Reference {
        Reference::Function(*self)
    }
}
