//! Searches for references that break a rule, in global expressions.
ghost use Rattle.std.specs.Prelude.{◌≤◌};
ghost use Rattle.naga_arena.specs.Arena.{max_len};
ghost use Rattle.naga_valid.specs.Expressions.{references_of_expression};
ghost use Rattle.naga_valid.specs.Faults.{FindsReference};
ghost use Rattle.naga_valid.specs.Limits.{FindsUnlike};

use crate::reference::Reference;
use crate::references::references_of;
use naga_arena::Handle;
use naga_ir::{Expression, Module};

/// A rule for the references of global expressions.
pub(super) trait Rule {
    ghost use Rattle.std.specs.Prelude.{◌↔◌, ℕ, IsTrue};
    ghost use Rattle.naga_ir.specs.declared.module.Module as the_module;
    ghost use Rattle.naga_valid.specs.declared.reference.Reference.{Reference as ReferenceTo};

    // The rule permits this reference of the global expression with this index.
    ghost Permits: { the_module.Module → Self → (expression : ℕ) → ReferenceTo → Type 0 };

    /// Returns whether the rule permits a reference of the global expression with this index.
    fn allows(&self, module: &Module, expression: usize, reference: &Reference) -> bool
        ensures { IsTrue result ↔ Permits «module».now self.now expression reference.now };
}

/// Returns the first global expression from `start` to before `end` with a reference that the rule does not permit, and
/// that reference.
///
/// Precondition: `end` is at most `u32::MAX`.
pub(super) fn first_unlike<R: Rule>(
    module: &Module,
    start: usize,
    end: usize,
    rule: &R,
) -> Option<(Handle<Expression>, Reference)>
    requires { «end» ≤ max_len }
    ensures { FindsReference (R.Permits «module».now rule.now) «module».now start «end» result }
{
    let expressions = module.global_expressions.as_slice();
    for index in start..end.min(expressions.len()) {
        if let Some(reference) = first_reference_unlike(module, index, &expressions[index], rule) {
            return Some((Handle::<Expression>::at(index), reference));
        }
    }
    None
}

/// Returns the first reference of the global expression with this index that the rule does not permit.
fn first_reference_unlike<R: Rule>(
    module: &Module,
    index: usize,
    expression: &Expression,
    rule: &R,
) -> Option<Reference>
    ensures { FindsUnlike (R.Permits «module».now rule.now index) (references_of_expression expression.now) result }
{
    for reference in references_of(expression) {
        if !rule.allows(module, index, &reference) {
            return Some(reference);
        }
    }
    None
}
