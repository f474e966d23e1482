//! Modules from the JSON of their types, functions and entry points.
use naga_arena::{Handle, KindName};
use naga_fixtures::module_of;
use naga_ir::Module;
use std::alloc::{AllocError, Global};

/// Returns the JSON of a module.
pub(crate) fn module_text(
    alloc: Global,
    types: &str,
    functions: &str,
    entry_points: &str,
) -> Result<String, AllocError> {
    format!(in alloc;
        "{{\"types\":[{types}],\"special_types\":{{\"ray_desc\":null,\"ray_intersection\":null,\"ray_vertex_return\":null,\"external_texture_params\":null,\"external_texture_transfer_function\":null,\"predeclared_types\":{{}}}},\"constants\":[],\"overrides\":[],\"global_variables\":[],\"global_expressions\":[],\"functions\":[{functions}],\"entry_points\":[{entry_points}],\"diagnostic_filters\":[],\"diagnostic_filter_leaf\":null,\"doc_comments\":null}}"
    )
}

/// Returns the JSON of an entry point with a function.
pub(crate) fn entry_point_text(alloc: Global, function: &str) -> Result<String, AllocError> {
    format!(in alloc;
        "{{\"name\":\"main\",\"stage\":\"Compute\",\"early_depth_test\":null,\"workgroup_size\":[1,1,1],\"workgroup_size_overrides\":null,\"function\":{function},\"mesh_info\":null,\"task_payload\":null,\"incoming_ray_payload\":null}}"
    )
}

/// Returns a module, or `None` if allocation fails.
pub(crate) fn module_with(
    alloc: Global,
    types: &str,
    functions: &str,
    entry_points: &str,
) -> Option<Module> {
    let text = module_text(alloc, types, functions, entry_points).ok()?;
    module_of(alloc, text.as_str())
}

/// Returns the handle with this number.
pub(crate) fn at<T: KindName>(number: u8) -> Handle<T> {
    Handle::<T>::at(usize::from(number))
}
