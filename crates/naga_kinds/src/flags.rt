//! Sets of flags. Their operations are those of the trait [`Flags`], whose contracts describe a set by its bits.
ghost use Rattle.std.specs.Prelude.{⊤, ◌≡◌, [], ◌∷◌, codes};

use bitflags::{Flag, Flags};

/// The accesses that a shader may make to the contents of a storage buffer or a storage image.
#[derive(Clone, Copy, Debug, Default, PartialEq, Eq, PartialOrd, Ord, Hash)]
pub struct StorageAccess(u32);

impl StorageAccess {
    /// The contents may be read.
    pub const LOAD: StorageAccess = StorageAccess(0x1);

    /// The contents may be written.
    pub const STORE: StorageAccess = StorageAccess(0x2);

    /// The contents may be changed by atomic operations.
    pub const ATOMIC: StorageAccess = StorageAccess(0x4);
}

const STORAGE_ACCESSES: [Flag<StorageAccess>; 3] = [
    Flag {
        name: "LOAD",
        value: StorageAccess::LOAD,
    },
    Flag {
        name: "STORE",
        value: StorageAccess::STORE,
    },
    Flag {
        name: "ATOMIC",
        value: StorageAccess::ATOMIC,
    },
];

impl Flags for StorageAccess {
    type Bits = u32;

    ghost exact = { ⊤ };

    ghost table = { (codes "LOAD", 1) ∷ (codes "STORE", 2) ∷ (codes "ATOMIC", 4) ∷ [] };

    ghost set_of = { λ accesses. accesses.0 };

    fn flags<'a>() -> &'a [Flag<StorageAccess>] {
        &STORAGE_ACCESSES
    }

    fn bits(&self) -> u32 {
        self.0
    }

    fn from_bits_retain(bits: u32) -> StorageAccess {
        StorageAccess(bits)
    }
}

/// Decorations of a global variable, which state how other invocations and things outside the shader access its memory.
#[derive(Clone, Copy, Debug, Default, PartialEq, Eq, PartialOrd, Ord, Hash)]
pub struct MemoryDecorations(u8);

impl MemoryDecorations {
    /// Writes of one invocation are visible to the others without a barrier.
    pub const COHERENT: MemoryDecorations = MemoryDecorations(0x1);

    /// Something outside the shader may change the variable, so no read of it may be omitted.
    pub const VOLATILE: MemoryDecorations = MemoryDecorations(0x2);
}

const MEMORY_DECORATIONS: [Flag<MemoryDecorations>; 2] = [
    Flag {
        name: "COHERENT",
        value: MemoryDecorations::COHERENT,
    },
    Flag {
        name: "VOLATILE",
        value: MemoryDecorations::VOLATILE,
    },
];

impl Flags for MemoryDecorations {
    type Bits = u8;

    ghost exact = { ⊤ };

    ghost table = { (codes "COHERENT", 1) ∷ (codes "VOLATILE", 2) ∷ [] };

    ghost set_of = { λ decorations. decorations.0 };

    fn flags<'a>() -> &'a [Flag<MemoryDecorations>] {
        &MEMORY_DECORATIONS
    }

    fn bits(&self) -> u8 {
        self.0
    }

    fn from_bits_retain(bits: u8) -> MemoryDecorations {
        MemoryDecorations(bits)
    }
}

/// The accesses that a barrier orders, and the invocations that it waits for.
#[derive(Clone, Copy, Debug, Default, PartialEq, Eq)]
pub struct Barrier(u32);

impl Barrier {
    /// Accesses to variables in [`AddressSpace::Storage`](crate::AddressSpace::Storage).
    pub const STORAGE: Barrier = Barrier(0x1);

    /// Accesses to variables in [`AddressSpace::WorkGroup`](crate::AddressSpace::WorkGroup) and
    /// [`AddressSpace::TaskPayload`](crate::AddressSpace::TaskPayload).
    pub const WORK_GROUP: Barrier = Barrier(0x2);

    /// The invocations of a subgroup wait for one another.
    pub const SUB_GROUP: Barrier = Barrier(0x4);

    /// Accesses to textures within a workgroup.
    pub const TEXTURE: Barrier = Barrier(0x8);
}

const BARRIERS: [Flag<Barrier>; 4] = [
    Flag {
        name: "STORAGE",
        value: Barrier::STORAGE,
    },
    Flag {
        name: "WORK_GROUP",
        value: Barrier::WORK_GROUP,
    },
    Flag {
        name: "SUB_GROUP",
        value: Barrier::SUB_GROUP,
    },
    Flag {
        name: "TEXTURE",
        value: Barrier::TEXTURE,
    },
];

impl Flags for Barrier {
    type Bits = u32;

    ghost exact = { ⊤ };

    ghost table = { (codes "STORAGE", 1) ∷ (codes "WORK_GROUP", 2)
        ∷ (codes "SUB_GROUP", 4) ∷ (codes "TEXTURE", 8) ∷ [] };

    ghost set_of = { λ barriers. barriers.0 };

    fn flags<'a>() -> &'a [Flag<Barrier>] {
        &BARRIERS
    }

    fn bits(&self) -> u32 {
        self.0
    }

    fn from_bits_retain(bits: u32) -> Barrier {
        Barrier(bits)
    }
}

/// The ways in which a ray that is cast treats the geometry in its path. The bits are those of SPIR-V's ray flags.
#[derive(Clone, Copy, Debug, Default, PartialEq, Eq, PartialOrd, Ord, Hash)]
pub struct RayFlag(u32);

impl RayFlag {
    /// All geometry is treated as opaque.
    pub const FORCE_OPAQUE: RayFlag = RayFlag(0x1);

    /// All geometry is treated as not opaque.
    pub const FORCE_NO_OPAQUE: RayFlag = RayFlag(0x2);

    /// The ray ends at the first hit that is accepted.
    pub const TERMINATE_ON_FIRST_HIT: RayFlag = RayFlag(0x4);

    /// The closest-hit shader is not run.
    pub const SKIP_CLOSEST_HIT_SHADER: RayFlag = RayFlag(0x8);

    /// The ray ignores triangles whose back faces it.
    pub const CULL_BACK_FACING: RayFlag = RayFlag(0x10);

    /// The ray ignores triangles whose front faces it.
    pub const CULL_FRONT_FACING: RayFlag = RayFlag(0x20);

    /// The ray ignores opaque geometry.
    pub const CULL_OPAQUE: RayFlag = RayFlag(0x40);

    /// The ray ignores geometry that is not opaque.
    pub const CULL_NO_OPAQUE: RayFlag = RayFlag(0x80);

    /// The ray ignores triangles.
    pub const SKIP_TRIANGLES: RayFlag = RayFlag(0x100);

    /// The ray ignores axis-aligned boxes.
    pub const SKIP_AABBS: RayFlag = RayFlag(0x200);
}

const RAY_FLAGS: [Flag<RayFlag>; 10] = [
    Flag {
        name: "FORCE_OPAQUE",
        value: RayFlag::FORCE_OPAQUE,
    },
    Flag {
        name: "FORCE_NO_OPAQUE",
        value: RayFlag::FORCE_NO_OPAQUE,
    },
    Flag {
        name: "TERMINATE_ON_FIRST_HIT",
        value: RayFlag::TERMINATE_ON_FIRST_HIT,
    },
    Flag {
        name: "SKIP_CLOSEST_HIT_SHADER",
        value: RayFlag::SKIP_CLOSEST_HIT_SHADER,
    },
    Flag {
        name: "CULL_BACK_FACING",
        value: RayFlag::CULL_BACK_FACING,
    },
    Flag {
        name: "CULL_FRONT_FACING",
        value: RayFlag::CULL_FRONT_FACING,
    },
    Flag {
        name: "CULL_OPAQUE",
        value: RayFlag::CULL_OPAQUE,
    },
    Flag {
        name: "CULL_NO_OPAQUE",
        value: RayFlag::CULL_NO_OPAQUE,
    },
    Flag {
        name: "SKIP_TRIANGLES",
        value: RayFlag::SKIP_TRIANGLES,
    },
    Flag {
        name: "SKIP_AABBS",
        value: RayFlag::SKIP_AABBS,
    },
];

impl Flags for RayFlag {
    type Bits = u32;

    ghost exact = { ⊤ };

    ghost table = { (codes "FORCE_OPAQUE", 0x1) ∷ (codes "FORCE_NO_OPAQUE", 0x2)
        ∷ (codes "TERMINATE_ON_FIRST_HIT", 0x4) ∷ (codes "SKIP_CLOSEST_HIT_SHADER", 0x8)
        ∷ (codes "CULL_BACK_FACING", 0x10) ∷ (codes "CULL_FRONT_FACING", 0x20)
        ∷ (codes "CULL_OPAQUE", 0x40) ∷ (codes "CULL_NO_OPAQUE", 0x80)
        ∷ (codes "SKIP_TRIANGLES", 0x100) ∷ (codes "SKIP_AABBS", 0x200) ∷ [] };

    ghost set_of = { λ flags. flags.0 };

    fn flags<'a>() -> &'a [Flag<RayFlag>] {
        &RAY_FLAGS
    }

    fn bits(&self) -> u32 {
        self.0
    }

    fn from_bits_retain(bits: u32) -> RayFlag {
        RayFlag(bits)
    }
}
