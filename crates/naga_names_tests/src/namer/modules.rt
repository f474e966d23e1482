//! Names of what a module declares.
use super::{LANGUAGE, is_named};
use indexmap::IndexMap;
use naga_arena::{Handle, Span};
use naga_fixtures::module_of;
use naga_ir::{
    Constant, Expression, Function, GlobalVariable, LocalVariable, Module, Override, Type,
};
use naga_namer::{NameKey, Namer, WGSL};
use std::alloc::{AllocError, Global};

/// A type, a structure that an entry point returns, the entry point and a function with arguments and local variables, a
/// global variable, and a constant and an override without names.
const MODULE: &str =
    r#"{"types":[{"name":"Light","inner":{"Scalar":{"kind":"Uint","width":4}}},{"name":null,"inner":{"Struct":{"members":[{"name":"pass","ty":0,"binding":null,"offset":0},{"name":null,"ty":0,"binding":null,"offset":4}],"span":8}}}],"special_types":{"ray_desc":null,"ray_intersection":null,"ray_vertex_return":null,"external_texture_params":null,"external_texture_transfer_function":null,"predeclared_types":{}},"constants":[{"name":null,"ty":0,"init":0}],"overrides":[{"name":null,"id":null,"ty":0,"init":null}],"global_variables":[{"name":"Light","space":"Private","binding":null,"ty":0,"init":null,"memory_decorations":""}],"global_expressions":[{"ZeroValue":0}],"functions":[{"name":"shade","arguments":[{"name":"a","ty":0,"binding":null}],"result":null,"local_variables":[{"name":null,"ty":0,"init":null}],"expressions":[],"named_expressions":{},"body":[],"diagnostic_filter_leaf":null}],"entry_points":[{"name":"main","stage":"Vertex","early_depth_test":null,"workgroup_size":[0,0,0],"workgroup_size_overrides":null,"function":{"name":null,"arguments":[{"name":null,"ty":0,"binding":null}],"result":{"ty":1,"binding":null},"local_variables":[{"name":"a","ty":0,"init":null}],"expressions":[],"named_expressions":{},"body":[],"diagnostic_filter_leaf":null},"mesh_info":null,"task_payload":null,"incoming_ray_payload":null}],"diagnostic_filters":[],"diagnostic_filter_leaf":null,"doc_comments":null}"#;

/// Returns whether a key has this name.
fn has(names: &IndexMap<NameKey, String>, key: NameKey, expected: &str) -> bool {
    match names.get(&key) {
        Some(name) => name.as_str() == expected,
        None => false,
    }
}

/// Returns whether the types and the members have their names.
fn has_types(names: &IndexMap<NameKey, String>) -> bool {
    let (light, output) = (Handle::<Type>::at(0), Handle::<Type>::at(1));
    has(names, NameKey::Type(light), "Light")
        && has(names, NameKey::Type(output), "VertexOutput")
        && has(names, NameKey::StructMember(output, 0), "pass_")
        && has(names, NameKey::StructMember(output, 1), "member")
}

/// Returns whether the variable, the constant and the override have their names.
fn has_values(names: &IndexMap<NameKey, String>) -> bool {
    let variable = NameKey::GlobalVariable(Handle::<GlobalVariable>::at(0));
    let constant = NameKey::Constant(Handle::<Constant>::at(0));
    let length = NameKey::Override(Handle::<Override>::at(0));
    has(names, variable, "Light_1")
        && has(names, constant, "const_Light")
        && has(names, length, "override_Light")
}

/// Returns whether the entry point and the function have their names, and what is in them.
fn has_bodies(names: &IndexMap<NameKey, String>) -> bool {
    let (function, local) = (Handle::<Function>::at(0), Handle::<LocalVariable>::at(0));
    has(names, NameKey::EntryPoint(0), "main")
        && has(names, NameKey::EntryPointArgument(0, 0), "param")
        && has(names, NameKey::EntryPointLocal(0, local), "a")
        && has(names, NameKey::Function(function), "shade")
        && has(names, NameKey::FunctionArgument(function, 0), "a_1")
        && has(names, NameKey::FunctionLocal(function, local), "local")
}

/// Returns whether all that the module declares has its name, and nothing else has one.
fn has_all(names: &IndexMap<NameKey, String>) -> bool {
    has_types(names) && has_values(names) && has_bodies(names) && names.len() == 13
}

/// Returns whether the names of the module in WGSL are made, and the names that a namer gives afterwards differ from
/// them. If allocation fails, the namer goes on as before.
fn is_reset(namer: &mut Namer, module: &Module) -> bool {
    match namer.reset(module, WGSL) {
        Ok(names) => {
            has_all(&names) && is_named(namer, "Light", "Light_2") && is_named(namer, "gl", "gl")
        }
        Err(AllocError) => {
            is_named(namer, "Light", "Light_1") && is_named(namer, "gl", "gen_gl")
        }
    }
}

/// Returns whether a namer that gave a name is reset, or goes on.
fn is_reset_after_a_name(alloc: Global, module: &Module) -> bool {
    let mut namer = Namer::new(alloc, LANGUAGE);
    is_named(&mut namer, "Light", "Light") && is_reset(&mut namer, module)
}

#[test]
fn what_a_module_declares_has_names(rt: HostRuntime) {
    let Some(module) = module_of(rt.alloc(), MODULE) else {
        assert!(rt; false);
        return;
    };
    let mut namer = Namer::new(rt.alloc(), LANGUAGE);
    match namer.reset(&module, WGSL) {
        Ok(names) => assert!(rt; has_all(&names), "{names:?}"),
        Err(AllocError) => assert!(rt; false),
    }
}

/// Returns a module with a constant whose type is missing, or `None` if allocation fails.
fn module_without_types(alloc: Global) -> Option<Module> {
    let mut module = Module::new(alloc);
    let constant = Constant {
        name: None,
        ty: Handle::<Type>::at(0),
        init: Handle::<Expression>::at(0),
    };
    module.constants.append(constant, Span::UNDEFINED).ok()?;
    Some(module)
}

/// Returns whether a constant whose type is missing has a name.
fn names_constant_without_type(alloc: Global) -> bool {
    let Some(module) = module_without_types(alloc) else {
        return false;
    };
    let mut namer = Namer::new(alloc, LANGUAGE);
    match namer.reset(&module, LANGUAGE) {
        Ok(names) => {
            let constant = NameKey::Constant(Handle::<Constant>::at(0));
            has(&names, constant, "const")
        }
        Err(AllocError) => false,
    }
}

#[test]
fn a_constant_without_a_type_has_a_name(rt: HostRuntime) {
    assert!(rt; names_constant_without_type(rt.alloc()));
}

/// Resets in which an allocation may fail.
mod refusals {
    use super::*;

    #[test]
    fn a_refused_reset_keeps_the_names(rt: HostRuntime) {
        let Some(module) = module_of(rt.alloc(), MODULE) else {
            return;
        };
        assert!(rt; is_reset_after_a_name(rt.alloc(), &module));
    }
}
