//! The check of the types of a body.
ghost use Rattle.std.specs.Prelude.{◌≡◌, ◌∷◌, MatchResult, slice_get};
ghost use Rattle.naga_ir.specs.View.{cases_of, node_of, tree_of};
ghost use Rattle.naga_typifier.specs.Context.{context_in};
ghost use Rattle.naga_typing.specs.Checks.{IsMismatchIn, Walks};
ghost use Rattle.naga_typing.specs.Requirements.{Fits};
ghost use Rattle.naga_typing.specs.Statements.{BodyIsTyped, statements, statements_inside, statements_of_cases};
ghost use Rattle.naga_typing.specs.TypedFunctions.{FitsIn, signature_in};

use crate::mismatch::TypeMismatch;
use crate::typed_function::TypedFunction;
use naga_arena::Span;
use naga_ir::{Block, Function, Module, Statement, SwitchCase};
use naga_typifier::Typifier;

/// Checks that the body of a function of a module uses each value at its type. The types of the expressions of the
/// function are those of the typifier.
///
/// Returns the first statement that does not, in the order in which they are read, with the first of its requirements
/// that is not met. The requirements of a statement come before those of the statements inside it. Allocates nothing,
/// and the time is linear in the size of the body.
pub fn check_body_types(
    module: &Module,
    function: &Function,
    types: &Typifier,
) -> Result<(), TypeMismatch>
    ensures { MatchResult result
        (λ _. BodyIsTyped (context_in «module».now function.now) (slice_get types.now) (signature_in «module».now function.now)
        (tree_of function.now.body))
        (IsMismatchIn (Fits (context_in «module».now function.now) (slice_get types.now) (signature_in «module».now function.now))
        (tree_of function.now.body)) }
{
    let typed = TypedFunction {
        module,
        function,
        known: types,
    };
    match typed.walk_block(&function.body, 0) {
        Ok(_) => Ok(()),
        Err(mismatch) => Err(mismatch),
    }
}

impl TypedFunction<'_> {
    /// Walks over the statements of a block, of which the first has this number, as far as they use values at their
    /// types. Returns the number of the statement that is read next.
    #[cycle(walk)]
    fn walk_block(&self, block: &Block, number: u64) -> Result<u64, TypeMismatch>
        ensures { Walks (FitsIn self.now) (statements (tree_of block.now)) number result }
    {
        let mut met = number;
        'statements: for (statement, span) in block.span_iter() {
            match self.walk_statement(statement, span, met) {
                Ok(after) => met = after,
                Err(mismatch) => return Err(mismatch),
            }
        }
        Ok(met)
    }

    /// Walks over a statement with this number and the statements inside it.
    #[cycle(walk)]
    fn walk_statement(
        &self,
        statement: &Statement,
        span: &Span,
        number: u64,
    ) -> Result<u64, TypeMismatch>
        ensures { Walks (FitsIn self.now) ((node_of statement.now, span.now) ∷ statements_inside (node_of statement.now))
            number result }
    {
        if let Err(requirement) = self.check_statement(statement) {
            return Err(TypeMismatch {
                statement: number,
                span: *span,
                requirement,
            });
        }
        let next = number.saturating_add(1);
        match statement {
            Statement::Block(inner) => self.walk_block(inner, next),
            Statement::If { accept, reject, .. } => match self.walk_block(accept, next) {
                Ok(after) => self.walk_block(reject, after),
                Err(mismatch) => Err(mismatch),
            },
            Statement::Switch { cases, .. } => self.walk_cases(cases.as_slice(), next),
            Statement::Loop {
                body,
                continuing,
                ..
            } => match self.walk_block(body, next) {
                Ok(after) => self.walk_block(continuing, after),
                Err(mismatch) => Err(mismatch),
            },
            _ => Ok(next),
        }
    }

    /// Walks over the bodies of the cases of a switch.
    #[cycle(walk)]
    fn walk_cases(&self, cases: &[SwitchCase], number: u64) -> Result<u64, TypeMismatch>
        ensures { Walks (FitsIn self.now) (statements_of_cases (cases_of cases.now)) number result }
    {
        let mut met = number;
        'cases: for case in cases {
            match self.walk_block(&case.body, met) {
                Ok(after) => met = after,
                Err(mismatch) => return Err(mismatch),
            }
        }
        Ok(met)
    }
}
