//! Objects that are read field by field.

/// Reads an object whose fields are named in the order of their declaration, and makes a value of them. The object has no
/// other fields, and none twice.
///
/// A field whose reading may need an allocation stands with the function that reads it, as `name: text_field(alloc)`.
#[macro_export]
macro_rules! read_struct {
    ($value:expr => $($made:ident)::+ { $($field:ident $(: $read:ident $(::<$held:ty>)? ($alloc:expr))?),+ $(,)? }) => {{
        let object = $crate::objects::fields($value, &[$(stringify!($field)),+])?;
        $(let $field = $crate::read_field!(object, $field $(, $read $(::<$held>)?, $alloc)?)?;)+
        Ok($($made)::+ { $($field),+ })
    }};
}

/// Reads a field of an object.
#[macro_export]
macro_rules! read_field {
    ($object:expr, $field:ident) => {
        $crate::parts::Field::read_field($object, stringify!($field))
    };
    ($object:expr, $field:ident, $read:ident $(::<$held:ty>)?, $alloc:expr) => {
        $read $(::<$held>)? ($alloc, $object, stringify!($field))
    };
}
