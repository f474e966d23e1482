//! Modules that use values at other types than they require.
ghost use Rattle.std.specs.Prelude.{◌≡◌};

use crate::found::FoundType;
use crate::initial::Initialized;
use crate::mismatch::TypeMismatch;
use crate::requirement::Requirement;
use naga_arena::Handle;
use naga_flow::BodyOwner;
use naga_ir::{Expression, Function};
use naga_typifier::ResolveError;
use std::error::Error;
use std::fmt;

/// A requirement that is not met, and the type that is found.
#[derive(Clone, Copy, Debug, PartialEq, Eq)]
pub struct Unmet {
    /// What is required.
    pub requirement: Requirement,
    /// The type of the operand that the requirement is about, or `None` if there is no such type.
    pub found: Option<FoundType>,
}

impl fmt::Display for Unmet {
    ghost use Rattle.naga_typing.specs.Messages.{unmet_text};

    ghost output = { λ unmet. unmet_text unmet };

    fn fmt<W: fmt::Write>(&self, f: &mut fmt::Formatter<W>) -> fmt::Result {
        match self.found {
            Some(found) => write!(f, "{}, found {found}", self.requirement),
            None => write!(f, "{}", self.requirement),
        }
    }
}

/// Why the types of expressions or of initial values are not those that are required.
#[derive(Clone, Copy, Debug, PartialEq, Drop)]
pub enum ValueFault {
    /// An expression has no type.
    NoType {
        /// The expression.
        expression: Handle<Expression>,
        /// Why it has no type.
        error: ResolveError,
    },
    /// An operand of an expression is not what is required.
    Operand {
        /// The expression.
        expression: Handle<Expression>,
        /// What it requires.
        unmet: Unmet,
    },
    /// An initial value has not the type declared.
    Initial {
        /// What has the initial value.
        declared: Initialized,
        /// What it requires.
        unmet: Unmet,
    },
}

impl fmt::Display for ValueFault {
    ghost use Rattle.naga_typing.specs.Messages.{value_fault_text};

    ghost output = { λ fault. value_fault_text fault };

    fn fmt<W: fmt::Write>(&self, f: &mut fmt::Formatter<W>) -> fmt::Result {
        match self {
            ValueFault::NoType { expression, error } => {
                expression.write_prefixed(f, "expression ")?;
                write!(f, " has no type: {error}")
            }
            ValueFault::Operand { expression, unmet } => {
                write!(f, "expression {}: {unmet}", expression.index())
            }
            ValueFault::Initial { declared, unmet } => write!(f, "{declared}: {unmet}"),
        }
    }
}

impl Error for ValueFault {}

/// Why the check of the types of values fails.
#[derive(Clone, Copy, Debug, PartialEq, Drop)]
pub enum InvalidValues {
    /// Allocation fails.
    Memory,
    /// An expression or an initial value is at fault.
    Fault(ValueFault),
}

impl fmt::Display for InvalidValues {
    ghost use Rattle.naga_typing.specs.Messages.{invalid_values_text};

    ghost output = { λ invalid. invalid_values_text invalid };

    fn fmt<W: fmt::Write>(&self, f: &mut fmt::Formatter<W>) -> fmt::Result {
        match self {
            InvalidValues::Memory => f.write_str("out of memory"),
            InvalidValues::Fault(fault) => write!(f, "{fault}"),
        }
    }
}

impl Error for InvalidValues {}

/// Why the types of a function are not those that are required.
#[derive(Clone, Copy, Debug, PartialEq, Drop)]
pub enum TypeFault {
    /// An expression or an initial value is at fault.
    Value(ValueFault),
    /// A statement uses a value of another type than it requires.
    Mismatch {
        /// The statement and what it requires.
        mismatch: TypeMismatch,
        /// The type of the operand that the requirement is about, or `None` if there is no such type.
        found: Option<FoundType>,
    },
}

impl fmt::Display for TypeFault {
    ghost use Rattle.naga_typing.specs.Messages.{type_fault_text};

    ghost output = { λ fault. type_fault_text fault };

    fn fmt<W: fmt::Write>(&self, f: &mut fmt::Formatter<W>) -> fmt::Result {
        match self {
            TypeFault::Value(fault) => write!(f, "{fault}"),
            TypeFault::Mismatch { mismatch, found } => match found {
                Some(found) => write!(f, "{mismatch}, found {found}"),
                None => write!(f, "{mismatch}"),
            },
        }
    }
}

impl Error for TypeFault {}

impl TypeFault {
    /// Returns a value that displays this fault with the path to the statement in the body of `function`, as in
    /// `body[4].accept[1]: expression 2 must be an i32 or a u32, found type 3 = f32`.
    pub fn display<'a>(&'a self, function: &'a Function) -> DisplayTypeFault<'a>
        ensures fault { result.fault.now ≡ self.now }
        ensures function { result.function.now ≡ function.now }
    {
        DisplayTypeFault {
            fault: self,
            function,
        }
    }
}

/// A [`TypeFault`] with the path to its statement.
#[derive(Clone, Copy)]
pub struct DisplayTypeFault<'a> {
    fault: &'a TypeFault,
    function: &'a Function,
}

impl fmt::Display for DisplayTypeFault<'_> {
    ghost use Rattle.naga_typing.specs.Messages.{placed_type_fault_text};

    ghost output = { λ shown. placed_type_fault_text shown.function.now shown.fault.now };

    fn fmt<W: fmt::Write>(&self, f: &mut fmt::Formatter<W>) -> fmt::Result {
        match self.fault {
            TypeFault::Value(fault) => write!(f, "{fault}"),
            TypeFault::Mismatch { mismatch, found } => {
                let mismatch = mismatch.display(self.function);
                match found {
                    Some(found) => write!(f, "{mismatch}, found {found}"),
                    None => write!(f, "{mismatch}"),
                }
            }
        }
    }
}

/// Why the check of the types of one function fails.
#[derive(Clone, Copy, Debug, PartialEq, Drop)]
pub enum InvalidFunction {
    /// Allocation fails.
    Memory,
    /// The types of the function are not those that are required.
    Fault(TypeFault),
}

impl fmt::Display for InvalidFunction {
    ghost use Rattle.naga_typing.specs.Messages.{invalid_function_text};

    ghost output = { λ invalid. invalid_function_text invalid };

    fn fmt<W: fmt::Write>(&self, f: &mut fmt::Formatter<W>) -> fmt::Result {
        match self {
            InvalidFunction::Memory => f.write_str("out of memory"),
            InvalidFunction::Fault(fault) => write!(f, "{fault}"),
        }
    }
}

impl Error for InvalidFunction {}

/// A function or an entry point of which the types are not those that are required.
#[derive(Clone, Copy, Debug, PartialEq, Drop)]
pub struct MistypedFunction {
    /// The function or the entry point.
    pub owner: BodyOwner,
    /// What is wrong with it.
    pub fault: TypeFault,
}

impl fmt::Display for MistypedFunction {
    ghost use Rattle.naga_typing.specs.Messages.{mistyped_function_text};

    ghost output = { λ mistyped. mistyped_function_text mistyped };

    fn fmt<W: fmt::Write>(&self, f: &mut fmt::Formatter<W>) -> fmt::Result {
        write!(f, "{}: {}", self.owner, self.fault)
    }
}

impl Error for MistypedFunction {}

/// Why the check of types fails.
#[derive(Clone, Copy, Debug, PartialEq, Drop)]
pub enum InvalidTypes {
    /// Allocation fails.
    Memory,
    /// A global expression, a constant, an override or a global variable is at fault.
    Declaration(ValueFault),
    /// The types of a function are not those that are required.
    Function(MistypedFunction),
}

impl fmt::Display for InvalidTypes {
    ghost use Rattle.naga_typing.specs.Messages.{invalid_types_text};

    ghost output = { λ invalid. invalid_types_text invalid };

    fn fmt<W: fmt::Write>(&self, f: &mut fmt::Formatter<W>) -> fmt::Result {
        match self {
            InvalidTypes::Memory => f.write_str("out of memory"),
            InvalidTypes::Declaration(fault) => match fault {
                ValueFault::Initial { .. } => write!(f, "{fault}"),
                _ => write!(f, "global {fault}"),
            },
            InvalidTypes::Function(mistyped) => write!(f, "{mistyped}"),
        }
    }
}

impl Error for InvalidTypes {}
