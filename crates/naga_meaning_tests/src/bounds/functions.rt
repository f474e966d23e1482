//! Functions with an access to an array of four elements.

/// A number, and an array of four.
pub(super) const TYPES: &str =
    r#"{"name":null,"inner":{"Scalar":{"kind":"Uint","width":4}}},{"name":null,"inner":{"Array":{"base":0,"size":{"Constant":4},"stride":4}}}"#;

/// A function with an access that fits.
pub(super) const FITS: &str =
    r#"{"name":null,"arguments":[],"result":null,"local_variables":[{"name":null,"ty":1,"init":null}],"expressions":[{"LocalVariable":0},{"AccessIndex":{"base":0,"index":3}},{"Load":{"pointer":1}}],"named_expressions":{},"body":[{"Emit":{"start":1,"end":3}},{"Return":{"value":2}}],"diagnostic_filter_leaf":null}"#;

/// A function with an access by an argument.
pub(super) const OPEN: &str =
    r#"{"name":null,"arguments":[{"name":null,"ty":0,"binding":null}],"result":null,"local_variables":[{"name":null,"ty":1,"init":null}],"expressions":[{"LocalVariable":0},{"FunctionArgument":0},{"Access":{"base":0,"index":1}},{"Load":{"pointer":2}}],"named_expressions":{},"body":[{"Emit":{"start":2,"end":4}},{"Return":{"value":3}}],"diagnostic_filter_leaf":null}"#;

/// The function after the access is clamped.
pub(super) const CLAMPED: &str =
    r#"{"name":null,"arguments":[{"name":null,"ty":0,"binding":null}],"result":null,"local_variables":[{"name":null,"ty":1,"init":null}],"expressions":[{"Literal":{"U32":3}},{"LocalVariable":0},{"FunctionArgument":0},{"Math":{"fun":"Min","arg":2,"arg1":0,"arg2":null,"arg3":null}},{"Access":{"base":1,"index":3}},{"Load":{"pointer":4}}],"named_expressions":{},"body":[{"Emit":{"start":3,"end":6}},{"Return":{"value":5}}],"diagnostic_filter_leaf":null}"#;

/// A function with an access that cannot be clamped.
pub(super) const REFUSED: &str =
    r#"{"name":null,"arguments":[],"result":null,"local_variables":[{"name":null,"ty":1,"init":null}],"expressions":[{"LocalVariable":0},{"Literal":{"U32":4}},{"Access":{"base":0,"index":1}}],"named_expressions":{},"body":[{"Emit":{"start":2,"end":3}},{"Return":{"value":2}}],"diagnostic_filter_leaf":null}"#;
