//! Workloads on the layouts of types.
ghost use Rattle.naga_valid.specs.Valid.{HandlesAreValid};

use crate::declarations::declare;
use crate::fault::Fault;
use crate::item::mixed;
use crate::sample::{Sample, now, since};
use naga_arena::Handle;
use naga_ir::{ArraySize, Module, Scalar, StructMember, Type, TypeInner, VectorSize};
use naga_layouter::laws::valid_modules_have_known_sizes;
use naga_layouter::{Layouter, TypeLayout, check_layouts};
use naga_valid::check_handles;
use std::alloc::{AllocError, Global};
use std::num::NonZeroU32;

/// The call that is timed.
#[derive(Clone, Copy)]
pub enum LayoutsWork {
    Update,
    Check,
}

impl LayoutsWork {
    /// Returns the name of the workload.
    pub fn name(self) -> &'static str {
        match self {
            LayoutsWork::Update => "layouter_update",
            LayoutsWork::Check => "check_layouts",
        }
    }
}

/// Times a call on the layouts of a module with `size` types besides two others.
pub fn on_layouts(rt: &HostRuntime, size: u32, work: LayoutsWork) -> Result<Sample, Fault> {
    let mut owner = Module::new(rt.alloc());
    fill(rt.alloc(), &mut owner, size)?;
    on_module(rt, &owner, size, work)
}

/// Times a call on the layouts of a module.
fn on_module(
    rt: &HostRuntime,
    owner: &Module,
    size: u32,
    work: LayoutsWork,
) -> Result<Sample, Fault> {
    if check_handles(owner).is_err() {
        return Err(Fault::SetUp);
    }
    match work {
        LayoutsWork::Update => on_update(rt, owner, size),
        LayoutsWork::Check => on_check(rt, owner, size),
    }
}

/// Times finding the layouts of all types.
fn on_update(rt: &HostRuntime, owner: &Module, size: u32) -> Result<Sample, Fault>
    requires { HandlesAreValid «owner».now }
{
    let gctx = owner.to_ctx();
    valid_modules_have_known_sizes(owner, gctx);
    let mut layouter = Layouter::new(rt.alloc());
    let start = now(rt);
    let updated = layouter.update(gctx);
    let time = since(rt, start);
    match updated {
        Ok(()) => Sample::of(size, Ok(sum_of(layouter.as_slice())), 0, time),
        Err(_) => Err(Fault::SetUp),
    }
}

/// Times checking the layouts.
fn on_check(rt: &HostRuntime, owner: &Module, size: u32) -> Result<Sample, Fault>
    requires { HandlesAreValid «owner».now }
{
    let start = now(rt);
    let checked = check_layouts(rt.alloc(), owner);
    let time = since(rt, start);
    match checked {
        Ok(()) => Sample::of(size, Ok(owner.types.len() as u64), 0, time),
        Err(_) => Err(Fault::SetUp),
    }
}

/// Returns a checksum of the sizes of layouts.
fn sum_of(layouts: &[TypeLayout]) -> u64 {
    let mut sum = 0;
    for layout in layouts {
        sum = mixed(sum, layout.size as u64);
    }
    sum
}

/// Adds a scalar and a vector, and `size` types: by turns an array of scalars, and a structure of a vector, a scalar and
/// the array before it.
fn fill(alloc: Global, owner: &mut Module, size: u32) -> Result<(), Fault> {
    let scalar = declare(owner, TypeInner::Scalar(Scalar::F32))?;
    let vector = TypeInner::Vector {
        size: VectorSize::Tri,
        scalar: Scalar::F32,
    };
    let vector = declare(owner, vector)?;
    let mut last = scalar;
    for number in 0..size {
        let inner = if number % 2 == 0 {
            array(scalar, number)?
        } else {
            structure(alloc, vector, scalar, last, number)?
        };
        last = declare(owner, inner)?;
    }
    Ok(())
}

/// Returns an array of so many groups of four scalars.
fn array(base: Handle<Type>, number: u32) -> Result<TypeInner, Fault> {
    let count = NonZeroU32::new(number.saturating_add(1).saturating_mul(4)).ok_or(Fault::SetUp)?;
    Ok(TypeInner::Array {
        base,
        size: ArraySize::Constant(count),
        stride: 4,
    })
}

/// Returns a structure of a vector, a scalar and the array of the number before.
fn structure(
    alloc: Global,
    vector: Handle<Type>,
    scalar: Handle<Type>,
    array: Handle<Type>,
    number: u32,
) -> Result<TypeInner, AllocError> {
    let mut members = Vec::with_capacity(alloc, 3)?;
    members.push(member(vector, 0))?;
    members.push(member(scalar, 12))?;
    members.push(member(array, 16))?;
    Ok(TypeInner::Struct {
        members,
        span: number.saturating_mul(16).saturating_add(16),
    })
}

/// Returns a member without a name.
fn member(ty: Handle<Type>, offset: u32) -> StructMember {
    StructMember {
        name: None,
        ty,
        binding: None,
        offset,
    }
}
