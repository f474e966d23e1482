//! Values that contain no other value.

use crate::derived::type_name::TypeName;
use crate::leaf::{FlagSet, Leaf};

pub(crate) const HANDLE: TypeName = TypeName::Leaf(Leaf::Natural(0xffff_fffe));

pub(crate) const OPTIONAL_HANDLE: TypeName = TypeName::Leaf(Leaf::OptionalNatural(0xffff_fffe));

pub(crate) const BYTE: TypeName = TypeName::Leaf(Leaf::Natural(0xff));

pub(crate) const SHORT: TypeName = TypeName::Leaf(Leaf::Natural(0xffff));

pub(crate) const WORD: TypeName = TypeName::Leaf(Leaf::Natural(0xffff_ffff));

pub(crate) const LONG: TypeName = TypeName::Leaf(Leaf::Natural(u64::MAX));

pub(crate) const NON_ZERO: TypeName = TypeName::Leaf(Leaf::NonZero);

pub(crate) const BOOLEAN: TypeName = TypeName::Leaf(Leaf::Boolean);

pub(crate) const TEXT: TypeName = TypeName::Leaf(Leaf::Text);

pub(crate) const STORAGE_ACCESS: TypeName = TypeName::Leaf(Leaf::Flags(FlagSet::StorageAccess));

pub(crate) const MEMORY_DECORATIONS: TypeName = TypeName::Leaf(Leaf::Flags(
    FlagSet::MemoryDecorations,
));

pub(crate) const BARRIER: TypeName = TypeName::Leaf(Leaf::Flags(FlagSet::Barrier));

pub(crate) const INTEGER_16: TypeName = TypeName::Leaf(Leaf::Integer16);

pub(crate) const INTEGER_32: TypeName = TypeName::Leaf(Leaf::Integer32);

pub(crate) const INTEGER_64: TypeName = TypeName::Leaf(Leaf::Integer64);

pub(crate) const FLOAT_32: TypeName = TypeName::Leaf(Leaf::Float32);

pub(crate) const FLOAT_64: TypeName = TypeName::Leaf(Leaf::Float64);
