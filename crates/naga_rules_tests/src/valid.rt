//! Tests of the handles of a module that has an element of each kind, and of the texts about them.
mod check;
mod dependencies;
mod references;
mod texts;
mod written;

use naga_arena::{Handle, KindName};
use naga_fixtures::module_of;
use naga_ir::Module;
use std::alloc::Global;

/// Returns the first handle of an arena.
fn first<T: KindName>() -> Handle<T> {
    Handle::<T>::at(0)
}

/// Returns the second handle of an arena.
fn second<T: KindName>() -> Handle<T> {
    Handle::<T>::at(1)
}

/// A module in which some elements have names, one of which has two lines.
const MODULE: &str = r#"{"types":[{"name":"Light","inner":{"Scalar":{"kind":"Uint","width":4}}},
{"name":null,"inner":{"Array":{"base":0,"size":{"Pending":0},"stride":4}}}],
"special_types":{"ray_vertex_return":1,"predeclared_types":{}},
"constants":[{"name":"SCALE","ty":0,"init":1}],
"overrides":[{"name":"LEN","id":null,"ty":0,"init":0}],
"global_variables":[{"name":"a\nb","space":"Private","binding":null,"ty":1,"init":0,"memory_decorations":""}],
"global_expressions":[{"Literal":{"U32":4}},{"ZeroValue":0}],
"functions":[{"name":"shade","arguments":[{"name":null,"ty":0,"binding":null}],"result":{"ty":1,"binding":null},
"local_variables":[],"expressions":[{"FunctionArgument":0},{"Load":{"pointer":0}}],
"named_expressions":{"1":"more"},"body":[{"Store":{"pointer":0,"value":1}}],"diagnostic_filter_leaf":null}],
"entry_points":[{"name":"main","stage":"Compute","early_depth_test":null,"workgroup_size":[1,1,1],
"workgroup_size_overrides":null,"function":{"name":null,"arguments":[],"result":null,
"local_variables":[{"name":"sum","ty":0,"init":null}],"expressions":[{"FunctionArgument":0},{"Load":{"pointer":0}}],
"named_expressions":{},"body":[],"diagnostic_filter_leaf":null},
"mesh_info":null,"task_payload":null,"incoming_ray_payload":null}],
"diagnostic_filters":[],"diagnostic_filter_leaf":null,"doc_comments":null}"#;

/// Returns the module, or `None` if an allocation fails.
fn module(alloc: Global) -> Option<Module> {
    module_of(alloc, MODULE)
}
