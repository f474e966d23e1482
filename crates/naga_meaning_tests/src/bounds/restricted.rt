//! What becomes of modules that cannot be restricted as a whole, and of spans, which have no JSON.
use super::functions::{CLAMPED, FITS, OPEN, REFUSED, TYPES};
use crate::modules::{at, entry_point_text, module_text};
use naga_arena::{Handle, Span};
use naga_bounds::{Obstacle, restrict};
use naga_fixtures::module_of;
use naga_ir::{Expression, Function, LocalVariable, Module};
use naga_json_write::{WriteError, write_module};
use std::alloc::{AllocError, Global};

/// Functions and functions of entry points.
type Part = (&'static [&'static str], &'static [&'static str]);

/// Functions and functions of entry points, before and after, and why the module is refused.
const ROWS: &[(Part, Part, &str)] = &[
    (
        (&[OPEN, FITS], &[FITS, OPEN]),
        (&[CLAMPED, FITS], &[FITS, CLAMPED]),
        "",
    ),
    (
        (&[OPEN, REFUSED, OPEN], &[OPEN]),
        (&[CLAMPED, REFUSED, OPEN], &[OPEN]),
        "function 1: expression 2 has the index 4, which may be out of bounds, and cannot be clamped",
    ),
    (
        (&[OPEN], &[OPEN, REFUSED, OPEN]),
        (&[CLAMPED], &[CLAMPED, REFUSED, OPEN]),
        "entry point 1: expression 2 has the index 4, which may be out of bounds, and cannot be clamped",
    ),
];

/// Returns the table above.
fn rows() -> &'static [(Part, Part, &'static str)] {
    ROWS
}

/// Appends a text to a list.
fn push(list: &mut String, text: &str) -> Result<(), AllocError> {
    if !list.is_empty() {
        list.push_str(",")?;
    }
    list.push_str(text)
}

/// Returns the JSON of a module.
fn text_of(alloc: Global, part: Part) -> Result<String, AllocError> {
    let (mut functions, mut entry_points) = (String::new(alloc), String::new(alloc));
    for function in part.0 {
        push(&mut functions, function)?;
    }
    for function in part.1 {
        push(
            &mut entry_points,
            entry_point_text(alloc, function)?.as_str(),
        )?;
    }
    module_text(alloc, TYPES, functions.as_str(), entry_points.as_str())
}

/// Returns whether the JSON of a module is this.
fn is_written(alloc: Global, module: &Module, text: &str) -> bool {
    let mut written = String::new(alloc);
    write_module(&mut written, module).is_ok() && written.as_str() == text
}

/// Returns whether a module is restricted if the text is empty, or is refused for this reason.
fn is_restricted(alloc: Global, module: &mut Module, text: &str) -> bool {
    match restrict(alloc, module) {
        Ok(()) => text.is_empty(),
        Err(error) => error
            .to_string(alloc)
            .is_ok_and(|found| found.as_str() == text),
    }
}

/// Returns the module of a part, or `None` if allocation fails.
fn module_of_part(alloc: Global, part: Part) -> Option<Module> {
    let text = text_of(alloc, part).ok()?;
    module_of(alloc, text.as_str())
}

/// Returns whether a module becomes the other one.
fn becomes(alloc: Global, row: &(Part, Part, &str)) -> bool {
    let (Some(mut module), Ok(after)) = (module_of_part(alloc, row.0), text_of(alloc, row.1)) else {
        return false;
    };
    is_restricted(alloc, &mut module, row.2) && is_written(alloc, &module, after.as_str())
}

#[test]
fn functions_before_the_first_obstacle_are_restricted(rt: HostRuntime) {
    for (number, row) in rows().iter().enumerate() {
        assert!(rt; becomes(rt.alloc(), row), "row {number}");
    }
}

/// Returns the span of this byte.
fn byte(start: u32) -> Span {
    Span::new(start, start.saturating_add(1))
}

/// Returns the expression of an open access with this number.
fn open_access(number: u8) -> Expression {
    match number {
        0 => Expression::LocalVariable(at::<LocalVariable>(0)),
        1 => Expression::FunctionArgument(0),
        2 => Expression::Access {
            base: at::<Expression>(0),
            index: at::<Expression>(1),
        },
        _ => Expression::Load {
            pointer: at::<Expression>(2),
        },
    }
}

/// Gives a function the expressions of an open access, each with the span of the next byte. Returns whether this
/// succeeds.
fn put_spans(function: &mut Function) -> bool {
    function.expressions.clear();
    for number in 0..4u8 {
        let span = byte(u32::from(number));
        if function
            .expressions
            .append(open_access(number), span)
            .is_err()
        {
            return false;
        }
    }
    true
}

/// Returns whether the expressions of a function have the spans of these bytes.
fn are_at(function: &Function, starts: &[u32]) -> bool {
    for (index, start) in starts.iter().enumerate() {
        let Some(handle) = Handle::<Expression>::from_usize(index) else {
            return false;
        };
        if function.expressions.get_span(handle) != byte(*start) {
            return false;
        }
    }
    true
}

/// Gives the entry point of a module expressions with spans. Returns whether this succeeds.
fn put_spans_in(module: &mut Module) -> bool {
    match module.entry_points.get_mut(0) {
        Some(entry_point) => put_spans(&mut entry_point.function),
        None => false,
    }
}

/// Returns whether what is inserted has the span of its access.
fn has_spans(alloc: Global) -> bool {
    let Some(mut module) = module_of_part(alloc, (&[], &[OPEN])) else {
        return false;
    };
    if !put_spans_in(&mut module) || restrict(alloc, &mut module).is_err() {
        return false;
    }
    match module.entry_points.first() {
        Some(entry_point) => are_at(&entry_point.function, &[2, 0, 1, 2, 2, 3]),
        None => false,
    }
}

#[test]
fn what_is_inserted_has_spans(rt: HostRuntime) {
    assert!(rt; has_spans(rt.alloc()));
}

/// Tests in which allocations may fail.
mod refusals {
    use super::*;

    const BEFORE: Part = (&[OPEN], &[OPEN]);

    const AFTER: Part = (&[CLAMPED], &[CLAMPED]);

    /// The module if allocation fails in the entry point.
    const BETWEEN: Part = (&[CLAMPED], &[OPEN]);

    /// Returns whether a module has this JSON, or allocation fails.
    fn is_part(alloc: Global, module: &Module, part: Part) -> bool {
        let Ok(text) = text_of(alloc, part) else {
            return true;
        };
        let mut written = String::new(alloc);
        match write_module(&mut written, module) {
            Ok(()) => written.as_str() == text.as_str(),
            Err(error) => error == WriteError::Memory,
        }
    }

    /// Returns whether each function is as it was or restricted, as the result says.
    fn is_restricted_in_part(alloc: Global, module: &mut Module) -> bool {
        match restrict(alloc, module) {
            Ok(()) => is_part(alloc, module, AFTER),
            Err(error) => {
                error.obstacle == Obstacle::Memory
                    && (is_part(alloc, module, BEFORE) || is_part(alloc, module, BETWEEN))
            }
        }
    }

    #[test]
    fn a_refused_function_is_unchanged(rt: HostRuntime) {
        let Some(mut module) = module_of_part(rt.alloc(), BEFORE) else {
            return;
        };
        assert!(rt; is_restricted_in_part(rt.alloc(), &mut module));
    }
}
