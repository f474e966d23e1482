//! Sizes of products of cooperative matrices, and ray queries that return vertices.
ghost use Rattle.std.specs.Prelude.{◌≡◌, ◌↔◌, IsTrue};
ghost use Rattle.naga_typing.specs.Requirements.{HaveProduct, SameSize, columns_at, is_vertex_query, passes, points_to_vertex_query, rows_at};
ghost use Rattle.naga_typing.specs.TypedFunctions.{context_of, signature_of, types_of};

use crate::rows;
use crate::typed_function::TypedFunction;
use naga_arena::Handle;
use naga_ir::{CooperativeSize, Expression, TypeInner};

impl TypedFunction<'_> {
    /// Returns the number of columns of the cooperative matrix that an operand is.
    fn columns_at(&self, operand: Handle<Expression>) -> Option<CooperativeSize>
        ensures { result ≡ columns_at (context_of self.now) (types_of self.now) (signature_of self.now) operand }
    {
        match self.contents(operand) {
            Some(inner) => rows::cooperative_columns(inner),
            None => None,
        }
    }

    /// Returns the number of rows of the cooperative matrix that an operand is.
    fn rows_at(&self, operand: Handle<Expression>) -> Option<CooperativeSize>
        ensures { result ≡ rows_at (context_of self.now) (types_of self.now) (signature_of self.now) operand }
    {
        match self.contents(operand) {
            Some(inner) => rows::cooperative_rows(inner),
            None => None,
        }
    }

    /// Returns whether two cooperative matrices have a product that has the size of a third one.
    pub(crate) fn have_product(
        &self,
        a: Handle<Expression>,
        b: Handle<Expression>,
        c: Handle<Expression>,
    ) -> bool
        ensures { IsTrue result ↔ HaveProduct (context_of self.now) (types_of self.now) (signature_of self.now) a b c }
    {
        is_same_size(self.columns_at(a), self.rows_at(b))
            && (is_same_size(self.rows_at(a), self.rows_at(c))
                && is_same_size(self.columns_at(b), self.columns_at(c)))
    }

    /// Returns whether this is a pointer to a ray query that returns the vertices that are hit.
    pub(crate) fn points_to_vertex_query(&self, inner: &TypeInner) -> bool
        ensures { result ≡ points_to_vertex_query (context_of self.now) inner.now }
    {
        let TypeInner::Pointer { base, .. } = inner else {
            return false;
        };
        match self.declared(*base) {
            Some(behind) => rows::is_vertex_query(behind),
            None => false,
        }
    }
}

/// Returns whether both sizes are present, and are the same.
fn is_same_size(first: Option<CooperativeSize>, second: Option<CooperativeSize>) -> bool
    ensures { IsTrue result ↔ SameSize first second }
{
    match (first, second) {
        (Some(size), Some(other)) => size == other,
        _ => false,
    }
}
