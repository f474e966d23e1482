//! Compacting the expressions of a function.
ghost use Rattle.std.specs.Prelude.{◌≡◌, IfOk, OnErr, length};
ghost use Rattle.indexmap.specs.IndexMap.{keys};
ghost use Rattle.naga_ir.specs.View.{tree_of};
ghost use Rattle.naga_sets.specs.HandleSet.{none_below};
ghost use Rattle.naga_compact.specs.Functions.{CompactsFunction, initial_values};
ghost use Rattle.naga_compact.specs.Kept.{new_index};
ghost use Rattle.naga_compact.specs.Marks.{puts};
ghost use Rattle.naga_compact.specs.Operands.{OperandsPrecede};
ghost use Rattle.naga_compact.specs.Renaming.{of_expressions};
ghost use Rattle.naga_compact.specs.Renaming.Runs.{RenamedRunsFit};

use crate::body::compact_body;
use crate::mark::Marks;
use crate::renaming::rename_values;
use crate::renumbering::{Renumbering, rename_keys};
use naga_arena::Arena;
use naga_ir::{Expression, Function, LocalVariable, NamedExpressions};
use naga_sets::HandleSet;
use std::alloc::{AllocError, Global};

/// Removes the expressions of a function that are not needed, and renames the handles of the others throughout the
/// function.
///
/// An expression is needed if it has a name, if it is the initial value of a local variable, if the body uses its
/// value, or if it is an operand of one that is needed. The range of an `Emit` uses no value. Expressions that are kept
/// stay in order, with their spans, and so do names and variables. Names of handles that are not in the arena are
/// removed. The returned `Renumbering` has the new handles.
///
/// Each run of the body is the same as before, except that it has the new handles. If allocation fails, the function is
/// unchanged.
///
/// The caller must ensure that each expression refers only to earlier ones, which `operands_precede` tests.
///
/// Differs from naga: naga compacts only whole modules.
pub fn compact_function(
    alloc: Global,
    function: &mut Function,
) -> Result<Renumbering<Expression>, AllocError>
    requires precede { OperandsPrecede function.old.expressions }
    ensures compacted { IfOk result (λ renumbering. CompactsFunction function.old renumbering function.new) }
    ensures runs { IfOk result (λ renumbering.
        RenamedRunsFit (of_expressions (new_index renumbering)) (tree_of function.old.body) (tree_of function.new.body)) }
    ensures unchanged { OnErr result (function.new ≡ function.old) }
{
    let needed = needed_outside_body(alloc, function)?;
    let names = NamedExpressions::with_capacity(alloc, function.named_expressions.len())?;
    let renumbering = compact_body(alloc, &mut function.expressions, &mut function.body, needed)?;
    rename_values(&mut function.local_variables, &renumbering);
    rename_keys(&mut function.named_expressions, names, &renumbering);
    Ok(renumbering)
}

/// Returns the set of the expressions that have a name or are the initial value of a variable, as far as they are in
/// the arena. Returns `Err` if allocation fails.
fn needed_outside_body(
    alloc: Global,
    function: &Function,
) -> Result<HandleSet<Expression>, AllocError>
    ensures { IfOk result (λ needed. needed
        ≡ puts (puts (none_below (length function.now.expressions)) (keys function.now.named_expressions))
        (initial_values function.now.local_variables)) }
{
    let none = HandleSet::<Expression>::for_arena(alloc, &function.expressions)?;
    let mut marks = Marks::new(none);
    mark_names(&mut marks, &function.named_expressions);
    mark_initial_values(&mut marks, &function.local_variables);
    Ok(marks.finish())
}

/// Marks the expressions that have a name, as far as they are below the bound of the marks.
///
/// Differs from naga: naga has no such function.
pub fn mark_names(marks: &mut Marks, names: &NamedExpressions)
    ensures { marks.new ≡ puts marks.old (keys names.now) }
{
    for handle in names.keys() {
        marks.insert(*handle);
    }
}

/// Marks the initial values of variables, as far as they are below the bound of the marks.
fn mark_initial_values(marks: &mut Marks, variables: &Arena<LocalVariable>)
    ensures { marks.new ≡ puts marks.old (initial_values variables.now) }
{
    for (_, variable) in variables.iter() {
        if let Some(init) = variable.init {
            marks.insert(init);
        }
    }
}
