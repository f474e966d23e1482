//! Why an expression has no type.
use naga_arena::Handle;
use naga_ir::{
    Constant, Expression, Function, GlobalVariable, LocalVariable, MathFunction, Override, Type,
};
use naga_kinds::PlainKind;
use std::error::Error;
use std::fmt;

/// Why an expression has no type.
#[derive(Clone, Copy, Debug, PartialEq, Drop)]
pub enum ResolveError {
    /// The type of this operand is not known: the operand does not come before the expression.
    UnknownOperand(Handle<Expression>),
    /// The type of this operand, or the type to which it points, is not in the module.
    UnknownType {
        /// The operand.
        operand: Handle<Expression>,
        /// The type that is not in the module.
        ty: Handle<Type>,
    },
    /// The type of this operand has to be declared, but it is not.
    UndeclaredType(Handle<Expression>),
    /// The operand has no parts, or none that can be accessed in this way.
    InvalidBase(Handle<Expression>),
    /// The operand has parts, but none with this index.
    IndexOutOfBounds {
        /// The operand.
        base: Handle<Expression>,
        /// The index.
        index: u32,
    },
    /// The operand is not a scalar.
    InvalidScalar(Handle<Expression>),
    /// The operand is not a vector.
    InvalidVector(Handle<Expression>),
    /// The operand is neither a scalar nor a vector.
    InvalidComponents(Handle<Expression>),
    /// The operand is not a pointer through which such a value can be loaded.
    InvalidPointer(Handle<Expression>),
    /// The operand is not an image of a class that allows the operation.
    InvalidImage(Handle<Expression>),
    /// The operand is neither a scalar, a vector nor a matrix.
    InvalidFactor(Handle<Expression>),
    /// The sizes of the two factors do not fit together.
    IncompatibleFactors {
        /// The left factor.
        left: Handle<Expression>,
        /// The right factor.
        right: Handle<Expression>,
    },
    /// The function does not accept this argument.
    InvalidArgument {
        /// The function.
        fun: MathFunction,
        /// The argument.
        argument: Handle<Expression>,
    },
    /// The function has no second argument.
    MissingArgument(MathFunction),
    /// The constant is not in the module.
    UnknownConstant(Handle<Constant>),
    /// The override is not in the module.
    UnknownOverride(Handle<Override>),
    /// The global variable is not in the module.
    UnknownGlobalVariable(Handle<GlobalVariable>),
    /// The local variable is not in the function.
    UnknownLocalVariable(Handle<LocalVariable>),
    /// The function has no argument with this index.
    UnknownFunctionArgument(u32),
    /// The function is not in the module.
    UnknownFunction(Handle<Function>),
    /// The function returns nothing.
    FunctionReturnsVoid(Handle<Function>),
    /// The special type of the result is not in the module.
    MissingSpecialType,
    /// The special type of the results of the mathematical function is not in the module.
    MissingResult(MathFunction),
}

impl ResolveError {
    /// Returns the text of an error of one operand: the index of the operand, and what is wrong with it. Returns `None`
    /// for any other error.
    fn of_operand(&self) -> Option<(usize, &'static str)> {
        match self {
            ResolveError::UnknownOperand(operand) => Some((operand.index(), "has no known type")),
            ResolveError::UndeclaredType(operand) => {
                Some((operand.index(), "has a type that has to be declared"))
            }
            ResolveError::InvalidBase(operand) => Some((operand.index(), "has no such parts")),
            ResolveError::InvalidScalar(operand) => Some((operand.index(), "is not a scalar")),
            ResolveError::InvalidVector(operand) => Some((operand.index(), "is not a vector")),
            ResolveError::InvalidComponents(operand) => {
                Some((operand.index(), "is neither a scalar nor a vector"))
            }
            ResolveError::InvalidPointer(operand) => {
                Some((operand.index(), "is not a pointer to such a value"))
            }
            ResolveError::InvalidImage(operand) => Some((operand.index(), "is not such an image")),
            ResolveError::InvalidFactor(operand) => {
                Some((
                    operand.index(),
                    "is neither a scalar, a vector nor a matrix",
                ))
            }
            _ => None,
        }
    }

    /// Returns the text of an error of what an expression names: its kind, its index, and what is wrong with it.
    /// Returns `None` for any other error.
    fn of_name(&self) -> Option<(&'static str, usize, &'static str)> {
        match self {
            ResolveError::UnknownConstant(named) => {
                Some(("constant", named.index(), "is not in the module"))
            }
            ResolveError::UnknownOverride(named) => {
                Some(("override", named.index(), "is not in the module"))
            }
            ResolveError::UnknownGlobalVariable(named) => {
                Some(("global variable", named.index(), "is not in the module"))
            }
            ResolveError::UnknownLocalVariable(named) => {
                Some(("local variable", named.index(), "is not in the function"))
            }
            ResolveError::UnknownFunctionArgument(index) => {
                Some(("argument", *index as usize, "is not in the function"))
            }
            ResolveError::UnknownFunction(named) => {
                Some(("function", named.index(), "is not in the module"))
            }
            ResolveError::FunctionReturnsVoid(named) => {
                Some(("function", named.index(), "returns nothing"))
            }
            _ => None,
        }
    }
}

/// Formats the error with the indices of what it concerns, as in `operand 3 is not a vector`.
impl fmt::Display for ResolveError {
    fn fmt<W: fmt::Write>(&self, f: &mut fmt::Formatter<W>) -> fmt::Result {
        if let Some((operand, what)) = self.of_operand() {
            return write!(f, "operand {operand} {what}");
        }
        if let Some((kind, index, what)) = self.of_name() {
            return write!(f, "{kind} {index} {what}");
        }
        self.fmt_other(f)
    }
}

impl ResolveError {
    /// Formats an error of neither one operand nor one name.
    fn fmt_other<W: fmt::Write>(&self, f: &mut fmt::Formatter<W>) -> fmt::Result {
        match self {
            ResolveError::UnknownType { operand, ty } => {
                let (operand, ty) = (operand.index(), ty.index());
                write!(
                    f,
                    "operand {operand} has type {ty}, which is not in the module"
                )
            }
            ResolveError::IndexOutOfBounds { base, index } => {
                let base = base.index();
                write!(f, "operand {base} has no part with index {index}")
            }
            ResolveError::IncompatibleFactors { left, right } => {
                let (left, right) = (left.index(), right.index());
                write!(f, "operands {left} and {right} cannot be multiplied")
            }
            ResolveError::InvalidArgument { fun, argument } => {
                let (fun, argument) = (fun.name(), argument.index());
                write!(f, "{fun} does not accept operand {argument}")
            }
            ResolveError::MissingArgument(fun) => {
                let fun = fun.name();
                write!(f, "{fun} has no second argument")
            }
            ResolveError::MissingResult(fun) => {
                let fun = fun.name();
                write!(f, "the special type of the result of {fun} is missing")
            }
            _ => f.write_str("the special type of the result is missing"),
        }
    }
}

impl Error for ResolveError {}
