//! Types that refer to what the module does not have, which no JSON of a module does.
use super::at;
use naga_arena::{Handle, Span};
use naga_ir::{ArraySize, Module, Override, StructMember, Type, TypeInner};
use naga_layouter::{LayoutErrorInner, Layouter, sizes_are_known};
use std::alloc::Global;

/// Returns a module with a type, or `None` if allocation fails.
fn module_of_type(alloc: Global, inner: TypeInner) -> Option<Module> {
    let mut module = Module::new(alloc);
    let ty = Type { name: None, inner };
    module.types.insert(ty, Span::UNDEFINED).ok()?;
    Some(module)
}

/// Returns why the only type of a module has no layout, or `None` if it has one.
fn error_of(alloc: Global, module: &Module) -> Option<LayoutErrorInner> {
    let ctx = module.to_ctx();
    if !sizes_are_known(ctx) {
        return None;
    }
    let mut layouter = Layouter::new(alloc);
    match layouter.update(ctx) {
        Ok(()) => None,
        Err(error) => Some(error.inner),
    }
}

/// Returns an array of a size.
fn array(base: u8, size: ArraySize) -> TypeInner {
    TypeInner::Array {
        base: at(base),
        size,
        stride: 4,
    }
}

/// Returns whether an array whose elements have no type before it has no layout.
fn lacks_elements(alloc: Global, base: u8) -> bool {
    let Some(module) = module_of_type(alloc, array(base, ArraySize::Dynamic)) else {
        return false;
    };
    error_of(alloc, &module) == Some(LayoutErrorInner::InvalidArrayElementType(at(base)))
}

/// Returns a structure of one member, or `None` if allocation fails.
fn structure(alloc: Global, ty: u8) -> Option<TypeInner> {
    let mut members = Vec::new(alloc);
    let member = StructMember {
        name: None,
        ty: at(ty),
        binding: None,
        offset: 0,
    };
    members.push(member).ok()?;
    Some(TypeInner::Struct { members, span: 4 })
}

/// Returns whether a structure whose member has no type before it has no layout.
fn lacks_member(alloc: Global, ty: u8) -> bool {
    let Some(inner) = structure(alloc, ty) else {
        return false;
    };
    let Some(module) = module_of_type(alloc, inner) else {
        return false;
    };
    error_of(alloc, &module) == Some(LayoutErrorInner::InvalidStructMemberType(0, at(ty)))
}

/// Returns whether the size of an array with a missing override is not known.
fn lacks_override(alloc: Global) -> bool {
    let size = ArraySize::Pending(Handle::<Override>::at(0));
    match module_of_type(alloc, array(0, size)) {
        Some(module) => !sizes_are_known(module.to_ctx()),
        None => false,
    }
}

#[test]
fn types_come_before_those_that_consist_of_them(rt: HostRuntime) {
    assert!(rt; lacks_elements(rt.alloc(), 0) && lacks_elements(rt.alloc(), 7));
    assert!(rt; lacks_member(rt.alloc(), 0) && lacks_member(rt.alloc(), 7));
    assert!(rt; lacks_override(rt.alloc()));
}
