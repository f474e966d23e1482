//! Why an access may be out of bounds.
use naga_arena::Handle;
use naga_ir::Expression;
use std::fmt;

/// The index of an access.
#[derive(Clone, Copy)]
pub(crate) enum Position {
    /// An index that the access contains.
    Constant(u32),
    /// The value of an expression.
    Computed(Handle<Expression>),
}

/// Why an access may be out of bounds.
#[derive(Clone, Copy, Debug, PartialEq, Eq)]
pub enum Cause {
    /// The type of its base is not known.
    NoType,
    /// Its base has no parts, or nothing says how many.
    NoLength,
    /// Its base has no part with this constant index, or need not have one: only the first element of an array in a
    /// buffer, or of an array whose size is an override, is there in any case.
    Part(u32),
    /// Its index is this expression, which is neither a literal nor of a form that shows it to be below the length.
    Index(Handle<Expression>),
}

impl fmt::Display for Cause {
    ghost use Rattle.std.specs.Prelude.{Some};
    ghost use Rattle.naga_bounds.specs.Messages.{cause_text};

    ghost output = { λ cause. Some (cause_text cause) };

    fn fmt<W: fmt::Write>(&self, f: &mut fmt::Formatter<W>) -> fmt::Result {
        match self {
            Cause::NoType => f.write_str("has a base whose type is not known"),
            Cause::NoLength => f.write_str("has a base whose length is not known"),
            Cause::Part(index) => write!(f, "has the index {index}, which may be out of bounds"),
            Cause::Index(index) => write!(
                f,
                "has the index of expression {}, which may be out of bounds",
                index.index()
            ),
        }
    }
}
