//! Layouts of types.
mod alignments;
mod checks;
mod layouts;
mod missing;
mod refusals;

use naga_arena::Handle;
use naga_fixtures::module_of;
use naga_ir::{Module, Type};
use std::alloc::{AllocError, Global};

/// A vector of three floats, an array of four of them, and a structure of a vector and of the array.
const TYPES: &str =
    r#"{"name":null,"inner":{"Vector":{"size":"Tri","scalar":{"kind":"Float","width":4}}}},{"name":null,"inner":{"Array":{"base":0,"size":{"Constant":4},"stride":16}}},{"name":null,"inner":{"Struct":{"members":[{"name":null,"ty":0,"binding":null,"offset":0},{"name":null,"ty":1,"binding":null,"offset":16}],"span":80}}}"#;

/// The same types, and one whose width is not a power of two.
const UNSOUND: &str =
    r#"{"name":null,"inner":{"Vector":{"size":"Tri","scalar":{"kind":"Float","width":4}}}},{"name":null,"inner":{"Array":{"base":0,"size":{"Constant":4},"stride":16}}},{"name":null,"inner":{"Struct":{"members":[{"name":null,"ty":0,"binding":null,"offset":0},{"name":null,"ty":1,"binding":null,"offset":16}],"span":80}}},{"name":null,"inner":{"Scalar":{"kind":"Float","width":3}}}"#;

/// Returns the JSON of a module with these types.
fn module_text(alloc: Global, types: &str) -> Result<String, AllocError> {
    format!(in alloc;
        "{{\"types\":[{types}],\"special_types\":{{\"ray_desc\":null,\"ray_intersection\":null,\"ray_vertex_return\":null,\"external_texture_params\":null,\"external_texture_transfer_function\":null,\"predeclared_types\":{{}}}},\"constants\":[],\"overrides\":[],\"global_variables\":[],\"global_expressions\":[],\"functions\":[],\"entry_points\":[],\"diagnostic_filters\":[],\"diagnostic_filter_leaf\":null,\"doc_comments\":null}}"
    )
}

/// Returns a module with these types, or `None` if allocation fails.
fn module_with(alloc: Global, types: &str) -> Option<Module> {
    let text = module_text(alloc, types).ok()?;
    module_of(alloc, text.as_str())
}

/// Returns the type with this number.
fn at(number: u8) -> Handle<Type> {
    Handle::<Type>::at(usize::from(number))
}
