//! Tests of the flags: their bits and their order.
use super::is_shown;
use naga_kinds::{Barrier, Flags, MemoryDecorations, RayFlag, StorageAccess};

#[test]
fn each_flag_has_its_bit(rt: HostRuntime) {
    let accesses = [
        StorageAccess::LOAD.bits(),
        StorageAccess::STORE.bits(),
        StorageAccess::ATOMIC.bits(),
    ];
    assert!(rt; accesses == [1, 2, 4]);
    let decorations = [
        MemoryDecorations::COHERENT.bits(),
        MemoryDecorations::VOLATILE.bits(),
    ];
    assert!(rt; decorations == [1, 2]);
    let barriers = [
        Barrier::STORAGE.bits(),
        Barrier::WORK_GROUP.bits(),
        Barrier::SUB_GROUP.bits(),
        Barrier::TEXTURE.bits(),
    ];
    assert!(rt; barriers == [1, 2, 4, 8]);
}

#[test]
fn each_ray_flag_has_its_bit(rt: HostRuntime) {
    let flags = [
        RayFlag::FORCE_OPAQUE.bits(),
        RayFlag::FORCE_NO_OPAQUE.bits(),
        RayFlag::TERMINATE_ON_FIRST_HIT.bits(),
        RayFlag::SKIP_CLOSEST_HIT_SHADER.bits(),
        RayFlag::CULL_BACK_FACING.bits(),
        RayFlag::CULL_FRONT_FACING.bits(),
        RayFlag::CULL_OPAQUE.bits(),
        RayFlag::CULL_NO_OPAQUE.bits(),
        RayFlag::SKIP_TRIANGLES.bits(),
        RayFlag::SKIP_AABBS.bits(),
    ];
    assert!(rt; flags == [0x1, 0x2, 0x4, 0x8, 0x10, 0x20, 0x40, 0x80, 0x100, 0x200]);
}

#[test]
fn sets_of_flags_are_numbers(rt: HostRuntime) {
    assert!(rt; StorageAccess::from_bits(7).is_some() && StorageAccess::all().bits() == 7);
    assert!(rt; StorageAccess::from_bits(8).is_none());
    assert!(rt; StorageAccess::LOAD < StorageAccess::STORE);
    assert!(rt; MemoryDecorations::COHERENT < MemoryDecorations::VOLATILE);
    assert!(rt; RayFlag::SKIP_TRIANGLES < RayFlag::SKIP_AABBS);
    assert!(rt; StorageAccess::default().bits() == 0 && Barrier::default().bits() == 0);
    assert!(rt; MemoryDecorations::default().bits() == 0 && RayFlag::default().bits() == 0);
    assert!(rt; is_shown(rt.alloc(), &Barrier::TEXTURE, "Barrier(8)"));
}
