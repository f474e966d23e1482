//! Clones of enums whose variants are mostly plain data.

/// Returns a clone of an enum, or `Err` if allocation fails.
///
/// The arms of the `match` clone the variants that own memory. The fields of all other variants are copied, first of
/// those with one field that has no name. A derived implementation would clone each field by a call that may fail, and
/// would take long to prove.
macro_rules! clone_variants {
    (
        match $value:ident { $($owner:pat => $clone:expr,)* }
        $($of_one:ident($field:ident))*;
        $($variant:ident { $($name:ident),* })*
    ) => {
        match $value {
            $($owner => $clone,)*
            $(Self::$of_one($field) => Ok(Self::$of_one(*$field)),)*
            $(Self::$variant { $($name),* } => Ok(Self::$variant { $($name: *$name),* }),)*
        }
    };
}

pub(crate) use clone_variants;
