//! Visiting the elements to which functions refer.
ghost use Rattle.std.specs.Prelude.{◌≡◌};
ghost use Rattle.std.specs.List.{flat_map};
ghost use Rattle.naga_arena.specs.Arena.{values};
ghost use Rattle.naga_valid.specs.Declarations.{references_of_local_variable};
ghost use Rattle.naga_valid.specs.Expressions.{references_of_expression};
ghost use Rattle.naga_compact.specs.Module.References.{references_of_function};
ghost use Rattle.naga_compact.specs.Module.Visits.{visits};

use super::tracer::Tracer;
use crate::collect::{collect_block, collect_references};
use naga_arena::Arena;
use naga_ir::{Expression, Function, LocalVariable};

/// Visits the elements to which a function refers.
pub(super) fn visit_function(tracer: &mut Tracer, function: &Function)
    ensures { tracer.new ≡ visits tracer.old (references_of_function function.now) }
{
    collect_references(tracer, &function.arguments);
    collect_references(tracer, &function.result);
    visit_local_variables(tracer, &function.local_variables);
    visit_expressions(tracer, &function.expressions);
    collect_block(tracer, &function.body);
}

/// Visits the types of local variables.
fn visit_local_variables(tracer: &mut Tracer, variables: &Arena<LocalVariable>)
    ensures { tracer.new ≡ visits tracer.old (flat_map references_of_local_variable (values variables.now)) }
{
    let variables = variables.as_slice();
    for variable in variables {
        collect_references(tracer, variable);
    }
}

/// Visits the elements to which the expressions of a function refer.
fn visit_expressions(tracer: &mut Tracer, expressions: &Arena<Expression>)
    ensures { tracer.new ≡ visits tracer.old (flat_map references_of_expression (values expressions.now)) }
{
    let expressions = expressions.as_slice();
    for expression in expressions {
        collect_references(tracer, expression);
    }
}
