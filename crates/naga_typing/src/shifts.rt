//! By what integers are shifted.
ghost use Rattle.std.specs.Prelude.{◌≡◌, ◌↔◌, IsTrue, option_and_then};
ghost use Rattle.naga_typifier.specs.Table.{the};
ghost use Rattle.naga_typing.specs.Kinds.{unsigned_size};
ghost use Rattle.naga_typing.specs.Requirements.{IsExpected};
ghost use Rattle.naga_typing.specs.TypedFunctions.{context_of, signature_of, types_of};
ghost use Rattle.naga_typing.specs.declared.requirement.Expected.TheVariants as expected;

use crate::kinds;
use crate::typed_function::TypedFunction;
use naga_arena::Handle;
use naga_ir::{Expression, VectorSize};

impl TypedFunction<'_> {
    /// Returns whether an operand is an unsigned integer for each component of another one.
    pub(crate) fn shifts(&self, operand: Handle<Expression>, left: Handle<Expression>) -> bool
        ensures { IsTrue result ↔ IsExpected (context_of self.now) (types_of self.now) (signature_of self.now)
            operand (expected.Shift left) }
    {
        let Some(shifted) = self.contents(left) else {
            return false;
        };
        match self.unsigned_size(operand) {
            Some(size) => is_same_size(size, kinds::size_in(shifted)),
            None => false,
        }
    }

    /// Returns the size of the vector of unsigned integers that an operand is, or `None` in place of a size for one of them.
    fn unsigned_size(&self, operand: Handle<Expression>) -> Option<Option<VectorSize>>
        ensures { result ≡ option_and_then unsigned_size (the (context_of self.now) (types_of self.now) operand) }
    {
        match self.contents(operand) {
            Some(inner) => kinds::unsigned_size(inner),
            None => None,
        }
    }
}

/// Returns whether two sizes are the same, of which each is `None` for a scalar.
fn is_same_size(first: Option<VectorSize>, second: Option<VectorSize>) -> bool
    ensures { IsTrue result ↔ (first ≡ second) }
{
    match (first, second) {
        (Some(size), Some(other)) => size == other,
        (None, None) => true,
        _ => false,
    }
}
