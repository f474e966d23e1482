//! Modules whose texts and graphs are tested.

/// A module of a function whose body is a `break`.
pub(crate) const SMALL: &str =
    r#"{"types":[],"special_types":{"predeclared_types":{}},"constants":[],"overrides":[],"global_variables":[],"global_expressions":[],"functions":[{"name":"f","arguments":[],"result":null,"local_variables":[],"expressions":[],"named_expressions":{},"body":["Break"],"diagnostic_filter_leaf":null}],"entry_points":[],"diagnostic_filters":[],"diagnostic_filter_leaf":null}"#;

/// A module with declarations of many kinds. `tests/rows/naga_opt` has its text and its graph.
pub(crate) const SHADER: &str =
    r#"{"types":[{"name":null,"inner":{"Scalar":{"kind":"Uint","width":4}}},{"name":null,"inner":{"Vector":{"size":"Tri","scalar":{"kind":"Uint","width":4}}}},{"name":"Numbers","inner":{"Array":{"base":0,"size":"Dynamic","stride":4}}}],"special_types":{"ray_desc":null,"ray_intersection":null,"ray_vertex_return":null,"external_texture_params":null,"external_texture_transfer_function":null,"predeclared_types":{}},"constants":[{"name":"FACTOR","ty":0,"init":0}],"overrides":[],"global_variables":[{"name":"numbers","space":{"Storage":{"access":"LOAD | STORE"}},"binding":{"group":0,"binding":0},"ty":2,"init":null,"memory_decorations":""}],"global_expressions":[{"Literal":{"U32":2}}],"functions":[{"name":"double","arguments":[{"name":"index","ty":0,"binding":null}],"result":null,"local_variables":[],"expressions":[{"FunctionArgument":0},{"GlobalVariable":0},{"Constant":0},{"Literal":{"U32":0}},{"Access":{"base":1,"index":0}},{"Load":{"pointer":4}},{"Binary":{"op":"Equal","left":5,"right":3}},{"Binary":{"op":"Multiply","left":5,"right":2}}],"named_expressions":{"5":"number"},"body":[{"Emit":{"start":4,"end":7}},{"If":{"condition":6,"accept":[{"Return":{"value":null}}],"reject":[]}},{"Loop":{"body":[{"Switch":{"selector":5,"cases":[{"value":{"U32":1},"body":[],"fall_through":true},{"value":{"U32":2},"body":[{"Emit":{"start":7,"end":8}},{"Store":{"pointer":4,"value":7}},"Break"],"fall_through":false},{"value":"Default","body":["Continue"],"fall_through":false}]}},"Break"],"continuing":[],"break_if":null}},{"If":{"condition":6,"accept":["Kill"],"reject":[{"Block":[{"Store":{"pointer":4,"value":3}}]}]}}],"diagnostic_filter_leaf":null}],"entry_points":[{"name":"main","stage":"Compute","early_depth_test":null,"workgroup_size":[64,1,1],"workgroup_size_overrides":null,"function":{"name":null,"arguments":[{"name":"id","ty":1,"binding":{"BuiltIn":"GlobalInvocationId"}}],"result":null,"local_variables":[],"expressions":[{"FunctionArgument":0},{"AccessIndex":{"base":0,"index":0}}],"named_expressions":{},"body":[{"Emit":{"start":1,"end":2}},{"Call":{"function":0,"arguments":[1],"result":null}}],"diagnostic_filter_leaf":null},"mesh_info":null,"task_payload":null,"incoming_ray_payload":null}],"diagnostic_filters":[],"diagnostic_filter_leaf":null,"doc_comments":{"types":{"1":["a type","of two lines"],"0":[]},"struct_members":{},"entry_points":{"0":["main"]},"functions":{"0":["f"]},"constants":{"0":["c"]},"global_variables":{"0":["v"]},"module":["//! all"]}}"#;

/// A module that is compared with [`NEW`].
pub(crate) const OLD: &str =
    r#"{"types":[],"special_types":{"ray_desc":null,"ray_intersection":null,"ray_vertex_return":null,"external_texture_params":null,"external_texture_transfer_function":null,"predeclared_types":{}},"constants":[],"overrides":[],"global_variables":[],"global_expressions":[],"functions":[{"name":"f","arguments":[],"result":null,"local_variables":[],"expressions":[{"Literal":{"Bool":true}},{"Literal":{"I32":1}}],"named_expressions":{},"body":[{"If":{"condition":0,"accept":[{"Return":{"value":null}}],"reject":[]}},{"If":{"condition":0,"accept":[{"Block":[]}],"reject":[{"Switch":{"selector":1,"cases":[{"value":{"I32":1},"body":[],"fall_through":true},{"value":"Default","body":[{"Loop":{"body":["Break"],"continuing":[],"break_if":null}}],"fall_through":false}]}}]}}],"diagnostic_filter_leaf":null},{"name":"g","arguments":[],"result":null,"local_variables":[],"expressions":[{"Literal":{"Bool":true}},{"Literal":{"I32":1}}],"named_expressions":{},"body":[],"diagnostic_filter_leaf":null},{"name":null,"arguments":[],"result":null,"local_variables":[],"expressions":[{"Literal":{"Bool":true}},{"Literal":{"I32":1}}],"named_expressions":{},"body":["Kill"],"diagnostic_filter_leaf":null}],"entry_points":[{"name":"main","stage":"Compute","early_depth_test":null,"workgroup_size":[1,1,1],"workgroup_size_overrides":null,"function":{"name":null,"arguments":[],"result":null,"local_variables":[],"expressions":[{"Literal":{"Bool":true}},{"Literal":{"I32":1}}],"named_expressions":{},"body":[],"diagnostic_filter_leaf":null},"mesh_info":null,"task_payload":null,"incoming_ray_payload":null}],"diagnostic_filters":[],"diagnostic_filter_leaf":null,"doc_comments":null}"#;

/// A module that has a return at each end that control reaches in the first function of [`OLD`]. Its second function
/// has another name, its third one a return in place of a `kill`, and it has one more function.
pub(crate) const NEW: &str =
    r#"{"types":[],"special_types":{"ray_desc":null,"ray_intersection":null,"ray_vertex_return":null,"external_texture_params":null,"external_texture_transfer_function":null,"predeclared_types":{}},"constants":[],"overrides":[],"global_variables":[],"global_expressions":[],"functions":[{"name":"f","arguments":[],"result":null,"local_variables":[],"expressions":[{"Literal":{"Bool":true}},{"Literal":{"I32":1}}],"named_expressions":{},"body":[{"If":{"condition":0,"accept":[{"Return":{"value":null}}],"reject":[]}},{"If":{"condition":0,"accept":[{"Block":[{"Return":{"value":null}}]}],"reject":[{"Switch":{"selector":1,"cases":[{"value":{"I32":1},"body":[],"fall_through":true},{"value":"Default","body":[{"Loop":{"body":["Break"],"continuing":[],"break_if":null}},{"Return":{"value":null}}],"fall_through":false}]}}]}}],"diagnostic_filter_leaf":null},{"name":"h","arguments":[],"result":null,"local_variables":[],"expressions":[{"Literal":{"Bool":true}},{"Literal":{"I32":1}}],"named_expressions":{},"body":[{"Return":{"value":null}}],"diagnostic_filter_leaf":null},{"name":null,"arguments":[],"result":null,"local_variables":[],"expressions":[{"Literal":{"Bool":true}},{"Literal":{"I32":1}}],"named_expressions":{},"body":[{"Return":{"value":1}}],"diagnostic_filter_leaf":null},{"name":null,"arguments":[],"result":null,"local_variables":[],"expressions":[{"Literal":{"Bool":true}},{"Literal":{"I32":1}}],"named_expressions":{},"body":[{"Return":{"value":null}}],"diagnostic_filter_leaf":null}],"entry_points":[{"name":"main","stage":"Compute","early_depth_test":null,"workgroup_size":[1,1,1],"workgroup_size_overrides":null,"function":{"name":null,"arguments":[],"result":null,"local_variables":[],"expressions":[{"Literal":{"Bool":true}},{"Literal":{"I32":1}}],"named_expressions":{},"body":[{"Return":{"value":null}}],"diagnostic_filter_leaf":null},"mesh_info":null,"task_payload":null,"incoming_ray_payload":null}],"diagnostic_filters":[],"diagnostic_filter_leaf":null,"doc_comments":null}"#;

/// The text of [`NEW`], in which the returns are marked that [`OLD`] does not have.
pub(crate) const TEXT: &str = r#"function 0 "f" {
    [0]: bool = Literal Bool true
    [1]: i32 = Literal I32 1
    if [0] {
        return
    }
    if [0] {
        {
            return // inserted
        }
    } else {
        switch [1] {
            case 1 {
            } fall through
            default {
                loop {
                    break
                }
                return // inserted
            }
        }
    }
}
function 1 "h" {
    [0]: bool = Literal Bool true
    [1]: i32 = Literal I32 1
    return
}
function 2 {
    [0]: bool = Literal Bool true
    [1]: i32 = Literal I32 1
    return [1] // inserted
}
function 3 {
    [0]: bool = Literal Bool true
    [1]: i32 = Literal I32 1
    return
}
entry point 0 "main" Compute workgroup 1 1 1 {
    [0]: bool = Literal Bool true
    [1]: i32 = Literal I32 1
    return // inserted
}
"#;

/// The graph of [`NEW`], in which those returns are marked.
pub(crate) const GRAPH: &str = r#"digraph module {
    ranksep=0.3
    nodesep=0.15
    node [shape=box, height=0.3, margin="0.1,0.02"]
    subgraph cluster_function0 {
        label="function 0 \"f\""
        function0_0 [label="[0] Literal Bool true"]
        function0_1 [label="[1] Literal I32 1"]
        function0_body_0 [style=rounded, label="if [0]"]
        function0_body_0 -> function0_body_0_0_0 [style=dashed, label="accept"]
        function0_body_0_0_0 [style=rounded, label="return"]
        function0_body_0 -> function0_body_1 [style=bold]
        function0_body_1 [style=rounded, label="if [0]"]
        function0_body_1 -> function0_body_1_0_0 [style=dashed, label="accept"]
        function0_body_1_0_0 [style=rounded, label="block"]
        function0_body_1_0_0 -> function0_body_1_0_0_0_0 [style=dashed, label="block"]
        function0_body_1_0_0_0_0 [style="rounded,filled", color=darkgreen, fillcolor=palegreen, label="return"]
        function0_body_1 -> function0_body_1_1_0 [style=dashed, label="reject"]
        function0_body_1_1_0 [style=rounded, label="switch [1]"]
        function0_body_1_1_0_0 [shape=point, height=0.1]
        function0_body_1_1_0 -> function0_body_1_1_0_0 [style=dashed, label="case 1, fall through"]
        function0_body_1_1_0 -> function0_body_1_1_0_1_0 [style=dashed, label="default"]
        function0_body_1_1_0_1_0 [style=rounded, label="loop"]
        function0_body_1_1_0_1_0 -> function0_body_1_1_0_1_0_0_0 [style=dashed, label="body"]
        function0_body_1_1_0_1_0_0_0 [style=rounded, label="break"]
        function0_body_1_1_0_1_0 -> function0_body_1_1_0_1_1 [style=bold]
        function0_body_1_1_0_1_1 [style="rounded,filled", color=darkgreen, fillcolor=palegreen, label="return"]
    }
    subgraph cluster_function1 {
        label="function 1 \"h\""
        function1_0 [label="[0] Literal Bool true"]
        function1_1 [label="[1] Literal I32 1"]
        function1_body_0 [style=rounded, label="return"]
    }
    subgraph cluster_function2 {
        label="function 2"
        function2_0 [label="[0] Literal Bool true"]
        function2_1 [label="[1] Literal I32 1"]
        function2_body_0 [style="rounded,filled", color=darkgreen, fillcolor=palegreen, label="return [1]"]
    }
    subgraph cluster_function3 {
        label="function 3"
        function3_0 [label="[0] Literal Bool true"]
        function3_1 [label="[1] Literal I32 1"]
        function3_body_0 [style=rounded, label="return"]
    }
    subgraph cluster_entry0 {
        label="entry point 0 \"main\""
        entry0_0 [label="[0] Literal Bool true"]
        entry0_1 [label="[1] Literal I32 1"]
        entry0_body_0 [style="rounded,filled", color=darkgreen, fillcolor=palegreen, label="return"]
    }
}
"#;
