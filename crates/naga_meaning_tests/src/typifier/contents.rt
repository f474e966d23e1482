//! What is read from the contents of types.
use crate::modules::{at, module_with};
use naga_ir::{AddressSpace, Scalar, ScalarKind, Type, TypeInner};
use naga_typifier::{TypeInnerMethods, TypeResolution};
use std::alloc::Global;

/// Returns whether the contents of `f64` are read.
fn reads_scalar() -> bool {
    let inner = TypeInner::Scalar(Scalar::F64);
    inner.scalar() == Some(Scalar::F64)
        && inner.scalar_kind() == Some(ScalarKind::Float)
        && inner.size() == Some(8)
        && inner.components().is_none()
}

/// Returns whether the contents of a pointer are read.
fn reads_pointer() -> bool {
    let inner = TypeInner::Pointer {
        base: at::<Type>(0),
        space: AddressSpace::Uniform,
    };
    inner.pointer_space() == Some(AddressSpace::Uniform) && !inner.is_handle()
}

/// Returns whether the contents of a declared type are found, and none of a type that is not declared.
fn finds_contents(alloc: Global) -> bool {
    let Some(module) = module_with(
        alloc,
        r#"{"name":null,"inner":{"Sampler":{"comparison":false}}}"#,
        "",
        "",
    ) else {
        return false;
    };
    let sampler = TypeInner::Sampler { comparison: false };
    let declared = TypeResolution::Handle(at::<Type>(0));
    let missing = TypeResolution::Handle(at::<Type>(1));
    declared.get_inner(&module.types) == Some(&sampler)
        && missing.get_inner(&module.types).is_none()
}

#[test]
fn contents_are_read(rt: HostRuntime) {
    assert!(rt; reads_scalar());
    assert!(rt; reads_pointer());
    assert!(rt; finds_contents(rt.alloc()));
}
