//! The number of accesses that may be out of bounds.
ghost use Rattle.std.specs.Prelude.{◌≡◌, ◌++◌, IfOk, OnOk};
ghost use Rattle.naga_flow.specs.Bodies.{functions_of_entries};
ghost use Rattle.naga_look.specs.Accesses.{accesses_line, misfits_in, misfits_of, with_misfits};
ghost use Rattle.naga_look.specs.Summary.{saturating_sum};

use crate::summary_text::push_count;
use naga_bounds::misfit_count;
use naga_ir::{EntryPoint, Function, Module};
use naga_text::Text;
use std::alloc::{AllocError, Global};

/// Appends a line with the number of accesses that may be out of bounds, unless it is 0.
pub(crate) fn push_accesses(
    alloc: Global,
    text: &mut Text,
    module: &Module,
) -> Result<(), AllocError>
    ensures { OnOk result (text.new ≡ text.old ++ accesses_line «module».now) }
{
    let count = misfits_of(alloc, module)?;
    push_count(text, "accesses that may be out of bounds", count)
}

/// Returns the number of accesses of all functions and entry points that may be out of bounds.
fn misfits_of(alloc: Global, module: &Module) -> Result<u64, AllocError>
    ensures { IfOk result (λ count. count ≡ misfits_of «module».now) }
{
    let count = count_functions(alloc, module, module.functions.as_slice())?;
    count_entry_points(alloc, module, count, module.entry_points.as_slice())
}

/// Returns the number for functions of the module.
fn count_functions(
    alloc: Global,
    module: &Module,
    functions: &[Function],
) -> Result<u64, AllocError>
    ensures { IfOk result (λ count. count ≡ with_misfits «module».now 0 functions.now) }
{
    let mut total = 0;
    'functions: for function in functions {
        total = count_function(alloc, module, total, function)?;
    }
    Ok(total)
}

/// Returns a number with that of the entry points added.
fn count_entry_points(
    alloc: Global,
    module: &Module,
    counted: u64,
    entry_points: &[EntryPoint],
) -> Result<u64, AllocError>
    ensures { IfOk result
        (λ count. count ≡ with_misfits «module».now counted (functions_of_entries entry_points.now)) }
{
    let mut total = counted;
    'entry_points: for entry_point in entry_points {
        total = count_function(alloc, module, total, &entry_point.function)?;
    }
    Ok(total)
}

/// Returns a number with that of a function added.
fn count_function(
    alloc: Global,
    module: &Module,
    counted: u64,
    function: &Function,
) -> Result<u64, AllocError>
    ensures { IfOk result (λ count. count ≡ saturating_sum counted (misfits_in «module».now function.now)) }
{
    let count = misfit_count(alloc, module, function)?;
    Ok(counted.saturating_add(count as u64))
}
