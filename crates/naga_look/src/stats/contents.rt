//! The numbers of what passes can remove from a module.
ghost use Rattle.std.specs.Prelude.{◌≡◌, sum_by};
ghost use Rattle.naga_look.specs.Stats.{contents_of, entry_expression_count, expression_count, expressions_of};
ghost use Rattle.naga_look.specs.Summary.{saturating_sum};

use crate::summary::counts_of;
use naga_ir::{EntryPoint, Function, Module};

/// How much a module contains of what passes can remove. Each number stays at `u64::MAX` once it is reached.
#[derive(Clone, Copy, Debug, PartialEq, Eq)]
pub struct Contents {
    /// The number of statements of all functions and entry points, including those in nested blocks.
    pub statements: u64,
    /// The number of types.
    pub types: u64,
    /// The number of constants.
    pub constants: u64,
    /// The number of overrides.
    pub overrides: u64,
    /// The number of global variables.
    pub global_variables: u64,
    /// The number of global expressions.
    pub global_expressions: u64,
    /// The number of functions that are no entry points.
    pub functions: u64,
    /// The number of expressions of all functions and entry points.
    pub expressions: u64,
}

impl Contents {
    ghost use Rattle.naga_look.specs.Stats.{less};

    /// Returns each number less that of `other`, or 0 if it is not greater.
    pub(super) fn less(&self, other: &Contents) -> Contents
        ensures { result ≡ less self.now other.now }
    {
        Contents {
            statements: self.statements.saturating_sub(other.statements),
            types: self.types.saturating_sub(other.types),
            constants: self.constants.saturating_sub(other.constants),
            overrides: self.overrides.saturating_sub(other.overrides),
            global_variables: self.global_variables.saturating_sub(other.global_variables),
            global_expressions: self
                .global_expressions
                .saturating_sub(other.global_expressions),
            functions: self.functions.saturating_sub(other.functions),
            expressions: self.expressions.saturating_sub(other.expressions),
        }
    }
}

/// Returns how much a module contains of what passes can remove.
pub(super) fn contents_of(module: &Module) -> Contents
    ensures { result ≡ contents_of «module».now }
{
    Contents {
        statements: counts_of(module).statements,
        types: module.types.len() as u64,
        constants: module.constants.len() as u64,
        overrides: module.overrides.len() as u64,
        global_variables: module.global_variables.len() as u64,
        global_expressions: module.global_expressions.len() as u64,
        functions: module.functions.len() as u64,
        expressions: count_expressions(module),
    }
}

/// Returns the number of expressions of all functions and entry points.
fn count_expressions(module: &Module) -> u64
    ensures { result ≡ expressions_of «module».now }
{
    let in_functions = add_in_functions(0, module.functions.as_slice());
    add_in_entry_points(in_functions, module.entry_points.as_slice())
}

/// Adds the numbers of expressions of functions.
fn add_in_functions(counted: u64, functions: &[Function]) -> u64
    ensures { result ≡ saturating_sum counted (sum_by expression_count functions.now) }
{
    let mut total = counted;
    'functions: for function in functions {
        total = add_expressions(total, function);
    }
    total
}

/// Adds the numbers of expressions of entry points.
fn add_in_entry_points(counted: u64, entry_points: &[EntryPoint]) -> u64
    ensures { result ≡ saturating_sum counted (sum_by entry_expression_count entry_points.now) }
{
    let mut total = counted;
    'entry_points: for entry_point in entry_points {
        total = add_expressions(total, &entry_point.function);
    }
    total
}

/// Adds the number of expressions of a function.
fn add_expressions(counted: u64, function: &Function) -> u64
    ensures { result ≡ saturating_sum counted (expression_count function.now) }
{
    counted.saturating_add(function.expressions.len() as u64)
}
