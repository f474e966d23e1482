//! Sets of flags.
ghost use Rattle.naga_json.specs.FlagSets.{barrier_codec, memory_decorations_codec, storage_access_codec};

use super::InRange;
use bitflags::Flags;
use naga_kinds::{Barrier, MemoryDecorations, StorageAccess};

impl InRange for Barrier {
    ghost Fits = { barrier_codec.Fits };

    fn in_range(&self) {
        let _bits = self.bits();
    }
}

impl InRange for MemoryDecorations {
    ghost Fits = { memory_decorations_codec.Fits };

    fn in_range(&self) {
        let _bits = self.bits();
    }
}

impl InRange for StorageAccess {
    ghost Fits = { storage_access_codec.Fits };

    fn in_range(&self) {
        let _bits = self.bits();
    }
}
