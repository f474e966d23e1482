//! Tests of the handles that a part of a module contains, and of the handles of keys.
use super::{first, module, second};
use naga_ir::{Constant, Expression, Function, GlobalVariable, Module, Override, Type};
use naga_valid::{HasReference, Reference, References, Refers, references_of};

/// Returns whether an iterator has the length of a list, and yields exactly its handles.
fn are<P: Refers>(mut references: References<'_, P>, want: &[Reference]) -> bool {
    if references.len() != want.len() || references.size_hint().1 != Some(want.len()) {
        return false;
    }
    for name in want {
        if references.next() != Some(*name) {
            return false;
        }
    }
    references.next().is_none()
}

/// Returns whether a type and a statement have their handles.
fn are_of_parts(module: &Module) -> bool {
    let (Ok(array), [function]) = (
        module.types.get_handle(second::<Type>()),
        module.functions.as_slice(),
    ) else {
        return false;
    };
    let Some(store) = function.body.get(0) else {
        return false;
    };
    let light = Reference::Type(first::<Type>());
    let len = Reference::Override(first::<Override>());
    let pointer = Reference::Expression(first::<Expression>());
    let value = Reference::Expression(second::<Expression>());
    are(references_of(array), &[light, len]) && are(references_of(store), &[pointer, value])
}

#[test]
fn each_part_has_its_handles(rt: HostRuntime) {
    let Some(module) = module(rt.alloc()) else {
        return assert!(rt; false);
    };
    assert!(rt; are_of_parts(&module));
}

/// Returns whether this is the handle of a key.
fn is_of<T: HasReference>(key: &T, want: Reference) -> bool {
    key.reference() == want
}

#[test]
fn keys_have_one_handle(rt: HostRuntime) {
    let ty = second::<Type>();
    assert!(rt; is_of(&ty, Reference::Type(ty)));
    assert!(rt; is_of(&(ty, 7usize), Reference::Type(ty)));
    let constant = second::<Constant>();
    assert!(rt; is_of(&constant, Reference::Constant(constant)));
    let variable = second::<GlobalVariable>();
    assert!(rt; is_of(&variable, Reference::GlobalVariable(variable)));
    let function = second::<Function>();
    assert!(rt; is_of(&function, Reference::Function(function)));
}
