//! A module that several tests read and write.
use naga_arena::KindHandle;
use naga_ir::{DocComments, Function, Module};

/// A compute shader that doubles numbers, as naga writes it.
pub(crate) const DOUBLING: &str =
    r#"{"types":[{"name":null,"inner":{"Scalar":{"kind":"Uint","width":4}}},{"name":null,"inner":{"Vector":{"size":"Tri","scalar":{"kind":"Uint","width":4}}}},{"name":"Numbers","inner":{"Array":{"base":0,"size":"Dynamic","stride":4}}}],"special_types":{"ray_desc":null,"ray_intersection":null,"ray_vertex_return":null,"external_texture_params":null,"external_texture_transfer_function":null,"predeclared_types":{}},"constants":[{"name":"FACTOR","ty":0,"init":0}],"overrides":[],"global_variables":[{"name":"numbers","space":{"Storage":{"access":"LOAD | STORE"}},"binding":{"group":0,"binding":0},"ty":2,"init":null,"memory_decorations":""}],"global_expressions":[{"Literal":{"U32":2}}],"functions":[{"name":"double","arguments":[{"name":"index","ty":0,"binding":null}],"result":null,"local_variables":[],"expressions":[{"FunctionArgument":0},{"GlobalVariable":0},{"Constant":0},{"Literal":{"U32":0}},{"Access":{"base":1,"index":0}},{"Load":{"pointer":4}},{"Binary":{"op":"Equal","left":5,"right":3}},{"Binary":{"op":"Multiply","left":5,"right":2}}],"named_expressions":{"5":"number"},"body":[{"Emit":{"start":4,"end":7}},{"If":{"condition":6,"accept":[{"Return":{"value":null}}],"reject":[]}},{"Loop":{"body":[{"Switch":{"selector":5,"cases":[{"value":{"U32":1},"body":[],"fall_through":true},{"value":{"U32":2},"body":[{"Emit":{"start":7,"end":8}},{"Store":{"pointer":4,"value":7}},"Break"],"fall_through":false},{"value":"Default","body":["Continue"],"fall_through":false}]}},"Break"],"continuing":[],"break_if":null}},{"If":{"condition":6,"accept":["Kill"],"reject":[{"Block":[{"Store":{"pointer":4,"value":3}}]}]}}],"diagnostic_filter_leaf":null}],"entry_points":[{"name":"main","stage":"Compute","early_depth_test":null,"workgroup_size":[64,1,1],"workgroup_size_overrides":null,"function":{"name":null,"arguments":[{"name":"id","ty":1,"binding":{"BuiltIn":"GlobalInvocationId"}}],"result":null,"local_variables":[],"expressions":[{"FunctionArgument":0},{"AccessIndex":{"base":0,"index":0}}],"named_expressions":{},"body":[{"Emit":{"start":1,"end":2}},{"Call":{"function":0,"arguments":[1],"result":null}}],"diagnostic_filter_leaf":null},"mesh_info":null,"task_payload":null,"incoming_ray_payload":null}],"diagnostic_filters":[],"diagnostic_filter_leaf":null,"doc_comments":{"types":{"1":["a type","of two lines"],"0":[]},"struct_members":{},"entry_points":{"0":["main"]},"functions":{"0":["f"]},"constants":{"0":["c"]},"global_variables":{"0":["v"]},"module":["//! all"]}}"#;

/// Returns whether a function has a name and a number of expressions.
fn is_function(function: Option<&Function>, name: &str, expressions: usize) -> bool {
    match function {
        Some(function) => {
            function.name.as_deref() == Some(name) && function.expressions.len() == expressions
        }
        None => false,
    }
}

/// Returns whether the comments are those of the shader that doubles numbers.
fn are_doubling_comments(comments: &DocComments) -> bool {
    let Some(lines) = comments.types.get(&KindHandle::at(1)) else {
        return false;
    };
    lines.len() == 2
        && comments.types.len() == 2
        && comments.entry_points.len() == 1
        && comments.functions.len() == 1
        && comments.constants.len() == 1
        && comments.global_variables.len() == 1
        && comments.module.len() == 1
}

/// Returns whether this is the shader that doubles numbers.
pub(crate) fn is_doubling(module: &Module) -> bool {
    let counts = module.types.len() == 3
        && module.constants.len() == 1
        && module.overrides.len() == 0
        && module.global_variables.len() == 1
        && module.global_expressions.len() == 1
        && module.functions.len() == 1
        && module.entry_points.len() == 1;
    match &module.doc_comments {
        Some(comments) => {
            counts
                && are_doubling_comments(comments)
                && is_function(
                    module.functions.try_get(KindHandle::at(0)).ok(),
                    "double",
                    8,
                )
        }
        None => false,
    }
}
