//! The address spaces of variables.
ghost use Rattle.std.specs.Prelude.{◌≡◌, ◌↔◌, ◌⊎◌, IsTrue};
ghost use Rattle.naga_kinds.specs.AddressSpace.{access_of};

use crate::flags::StorageAccess;
use bitflags::Flags;

/// The address space of a variable, which determines where the variable is stored and which invocations share it.
#[derive(Clone, Copy, Debug, PartialEq, Eq, PartialOrd, Ord, Hash)]
pub enum AddressSpace {
    /// The memory of one function call.
    Function,
    /// The memory of one invocation of an entry point.
    Private,
    /// The memory of one workgroup, which its invocations share.
    WorkGroup,
    /// A uniform buffer.
    Uniform,
    /// A storage buffer.
    Storage {
        /// The accesses that the shader may make to the buffer.
        access: StorageAccess,
    },
    /// No memory: the variable represents a sampler, an image or a similar resource.
    Handle,
    /// The small block of bytes that is passed with each draw or dispatch. A module has at most one variable in this
    /// space.
    Immediate,
    /// The payload that a workgroup of a task shader passes to the mesh shaders that it starts.
    TaskPayload,
    /// The payload that an entry point passes along with a ray that it casts.
    RayPayload,
    /// The payload that came with the ray for which the entry point runs. An entry point refers to at most one variable
    /// in this space.
    IncomingRayPayload,
}

impl AddressSpace {
    /// Returns the accesses that a shader may make to a variable in this address space.
    ///
    /// These are the accesses that at least one stage may make. For example, only a task shader may store to its
    /// payload, but this method does not know the stage.
    pub fn access(self) -> StorageAccess
        ensures { result ≡ access_of self }
    {
        match self {
            AddressSpace::Function
            | AddressSpace::Private
            | AddressSpace::WorkGroup
            | AddressSpace::TaskPayload
            | AddressSpace::RayPayload
            | AddressSpace::IncomingRayPayload => StorageAccess::LOAD.union(StorageAccess::STORE),
            AddressSpace::Uniform | AddressSpace::Handle | AddressSpace::Immediate => {
                StorageAccess::LOAD
            }
            AddressSpace::Storage { access } => access,
        }
    }

    /// Returns whether the invocations of a workgroup share the variables in this address space.
    ///
    /// This is the case for the workgroup's own memory and for the payload of its task.
    pub fn is_workgroup_like(self) -> bool
        ensures { IsTrue result ↔ ((self ≡ AddressSpace.WorkGroup) ⊎ (self ≡ AddressSpace.TaskPayload)) }
    {
        matches!(self, AddressSpace::WorkGroup | AddressSpace::TaskPayload)
    }
}
