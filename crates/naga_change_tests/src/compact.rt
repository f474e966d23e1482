//! Tests of `naga_compact`, grouped by what they call.
mod cull;
mod functions;
mod modules;
mod renaming;

use naga_arena::{Handle, KindName};
use naga_fixtures::module_of;
use naga_ir::Module;
use std::alloc::Global;
use std::fmt;

/// Returns the handle with this index.
fn nth<T: KindName>(index: u8) -> Handle<T> {
    Handle::<T>::at(index as usize)
}

/// Returns whether a value is formatted as `text`, or `None` if an allocation fails.
fn is_shown<T: fmt::Debug>(alloc: Global, value: &T, text: &str) -> Option<bool> {
    match format!(in alloc; "{value:?}") {
        Ok(shown) => Some(shown.as_str() == text),
        Err(_) => None,
    }
}

/// A module up to the name of its first constant.
const BEFORE_NAME: &str = r#"{"types":[{"name":null,"inner":{"Scalar":{"kind":"Uint","width":4}}},
{"name":null,"inner":{"Scalar":{"kind":"Sint","width":4}}},
{"name":null,"inner":{"Array":{"base":1,"size":{"Pending":1},"stride":4}}}],
"special_types":{"predeclared_types":{}},"constants":[{"name":"#;

/// The module after the name of its first constant.
const AFTER_NAME: &str = r#","ty":0,"init":0},{"name":null,"ty":1,"init":1}],
"overrides":[{"name":null,"id":null,"ty":0,"init":0},{"name":null,"id":null,"ty":1,"init":1}],
"global_variables":[{"name":null,"space":"Private","binding":null,"ty":0,"init":0,"memory_decorations":""},
{"name":null,"space":"Private","binding":null,"ty":1,"init":1,"memory_decorations":""}],
"global_expressions":[{"Literal":{"U32":1}},{"ZeroValue":1}],
"functions":[{"name":null,"arguments":[],"result":null,"local_variables":[],"expressions":[],
"named_expressions":{},"body":[],"diagnostic_filter_leaf":null},
{"name":null,"arguments":[],"result":null,"local_variables":[{"name":null,"ty":2,"init":null}],
"expressions":[{"Literal":{"U32":1}},{"GlobalVariable":1},{"Constant":1}],"named_expressions":{},
"body":[{"Store":{"pointer":1,"value":2}}],"diagnostic_filter_leaf":null}],
"entry_points":[{"name":"","stage":"Compute","early_depth_test":null,"workgroup_size":[1,1,1],
"workgroup_size_overrides":null,"function":{"name":null,"arguments":[],"result":null,"local_variables":[],
"expressions":[{"CallResult":1}],"named_expressions":{},"body":[{"Call":{"function":1,"arguments":[],"result":0}}],
"diagnostic_filter_leaf":null},"mesh_info":null,"task_payload":1,"incoming_ray_payload":null}],
"diagnostic_filters":[],"diagnostic_filter_leaf":null,"doc_comments":{"types":{"0":[],"1":[]},"struct_members":{},
"entry_points":{},"functions":{},"constants":{},"global_variables":{},"module":[]}}"#;

/// Returns a module in which the first element of each arena is not used, or `None` if an allocation fails. The JSON of
/// the name of the first constant is this one; if it is not null, the constant is kept, with its type and its initial
/// value.
fn module(alloc: Global, name: &str) -> Option<Module> {
    let (before, after) = (BEFORE_NAME, AFTER_NAME);
    match format!(in alloc; "{before}{name}{after}") {
        Ok(text) => module_of(alloc, text.as_str()),
        Err(_) => None,
    }
}
