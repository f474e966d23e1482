//! Tests of what writes a part of the text of a place or of an error.
use super::texts::are_shown;
use super::{first, module, second};
use naga_ir::{Expression, Function, Module, Type};
use naga_valid::{InvalidHandle, Part, Place, Reference};
use std::alloc::Global;
use std::fmt;

/// A part of the text of a place or of an error.
#[derive(Drop)]
enum Written<'a> {
    /// The element that a place is or is in.
    Element(Place),
    /// The same with its name.
    NamedElement(Place, &'a Module),
    /// The place with its names.
    Named(Place, &'a Module),
    /// An error behind its place.
    AfterPlace(InvalidHandle),
}

impl fmt::Display for Written<'_> {
    fn fmt<W: fmt::Write>(&self, f: &mut fmt::Formatter<W>) -> fmt::Result {
        match self {
            Written::Element(place) => place.write_element(f),
            Written::NamedElement(place, module) => place.write_named_element(f, module),
            Written::Named(place, module) => place.write_named(f, module),
            Written::AfterPlace(error) => error.write_after_place(f),
        }
    }
}

/// Returns an expression of the first function.
fn expression_place() -> Place {
    Place::Function(
        first::<Function>(),
        Part::Expression(second::<Expression>()),
    )
}

/// Returns an error whose place is that expression.
fn expression_error() -> InvalidHandle {
    InvalidHandle::NotConstant {
        handle: Reference::Type(first::<Type>()),
        place: expression_place(),
    }
}

/// Returns whether parts of the text of a place and of an error are written.
fn are_parts_written(alloc: Global, module: &Module) -> bool {
    let written = [
        Written::Element(expression_place()),
        Written::NamedElement(expression_place(), module),
        Written::Named(expression_place(), module),
        Written::AfterPlace(expression_error()),
    ];
    are_shown(
        alloc,
        &written,
        "function 0;function 0 \"shade\";function 0 \"shade\", expression 1 \"more\";: type 0 is not constant;",
    )
}

/// Returns whether a place in a function is in the function of this name, and a type in none.
fn has_function(module: &Module, name: &str) -> bool {
    if Place::Type(first::<Type>()).function(module).is_some() {
        return false;
    }
    match expression_place().function(module) {
        Some(function) => function.name.as_deref() == Some(name),
        None => false,
    }
}

#[test]
fn parts_of_texts_are_written(rt: HostRuntime) {
    let Some(module) = module(rt.alloc()) else {
        return assert!(rt; false);
    };
    assert!(rt; are_parts_written(rt.alloc(), &module));
    assert!(rt; has_function(&module, "shade"));
}
