//! Writing of JSON values.

/// Appends a value by its variant, as serde does: a variant without data is its name, one that holds a value is an object
/// with one member, and the fields of one that holds named fields are an object in turn.
///
/// Each row names a variant with its value or its fields, in the order of their declaration. Variants that are written in
/// another way stand after a semicolon.
macro_rules! write_variants {
    (
        $kind:ident, $value:expr, $out:expr;
        $($name:ident $(($held:ident))? $({ $($field:ident),* })?),+ $(,)?
        $(; $($part:pat => $written:expr,)+)?
    ) => {
        match $value {
            $($kind::$name $(($held))? $({ $($field),* })? =>
                $crate::write::write_variant!($out, $name $(($held))? $({ $($field),* })?),)+
            $($($part => $written,)+)?
        }
    };
}

/// Appends one variant.
macro_rules! write_variant {
    ($out:expr, $name:ident) => {
        $out.string(stringify!($name))
    };
    ($out:expr, $name:ident ($held:ident)) => {
        $crate::write::objects::write_holder($out, stringify!($name), $held)
    };
    ($out:expr, $name:ident { $($field:ident),* }) => {
        $crate::write::objects::write_struct_variant(
            $out,
            stringify!($name),
            &$crate::write::fields!($((stringify!($field), $field))*),
        )
    };
}

/// Appends a struct as an object of its fields, which are named in the order of their declaration.
macro_rules! write_struct {
    ($value:expr, $out:expr; $($field:ident),+ $(,)?) => {
        $crate::write::objects::write_object(
            $out,
            &$crate::write::fields!($((stringify!($field), &$value.$field))+),
        )
    };
}

/// The fields of an object, each as its name and its value.
macro_rules! fields {
    () => {
        ()
    };
    ($first:tt $($others:tt)*) => {
        ($first, $crate::write::fields!($($others)*))
    };
}

mod arenas;
mod block;
mod diagnostic_filter;
mod doc_comments;
mod entry_point;
mod expression;
mod finite;
mod flags;
mod function;
pub(crate) mod kinds;
mod lists;
mod literal;
mod maps;
mod module;
pub(crate) mod objects;
mod ranges;
mod special_types;
mod types;

pub(crate) use fields;
pub use module::write_module;
pub(crate) use write_struct;
pub(crate) use write_variant;
pub(crate) use write_variants;
