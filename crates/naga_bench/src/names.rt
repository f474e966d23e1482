//! Workloads on names.
use crate::fault::Fault;
use crate::item::mixed;
use crate::sample::{Sample, now, since};
use naga_arena::{Handle, Span};
use naga_ir::{
    Function, FunctionArgument, LocalVariable, Module, Scalar, StructMember, Type, TypeInner,
};
use naga_namer::{Namer, WGSL};
use std::alloc::{AllocError, Global};

/// The call that is timed.
#[derive(Clone, Copy)]
pub enum NamesWork {
    Call,
    Reset,
}

impl NamesWork {
    /// Returns the name of the workload.
    pub fn name(self) -> &'static str {
        match self {
            NamesWork::Call => "namer_call",
            NamesWork::Reset => "namer_reset",
        }
    }
}

/// Times names for `size` labels, or for a module with `size` declarations.
pub fn on_names(rt: &HostRuntime, size: u32, work: NamesWork) -> Result<Sample, Fault> {
    match work {
        NamesWork::Call => on_labels(rt, size),
        NamesWork::Reset => on_module(rt, size),
    }
}

/// Times a name for each of `size` labels, one after another.
fn on_labels(rt: &HostRuntime, size: u32) -> Result<Sample, Fault> {
    let labels = labels(rt.alloc(), size)?;
    let mut namer = Namer::new(rt.alloc(), WGSL);
    let start = now(rt);
    let given = name_each(&mut namer, labels.as_slice());
    let time = since(rt, start);
    Sample::of(size, given, labels.len() as u64, time)
}

/// Returns `size` labels. One of four is always the same, one is there 64 times, and two are there once.
fn labels(alloc: Global, size: u32) -> Result<Vec<String>, AllocError> {
    let mut labels = Vec::with_capacity(alloc, size as usize)?;
    for number in 0..size {
        labels.push(label(alloc, number)?)?;
    }
    Ok(labels)
}

/// Returns the label of a number.
fn label(alloc: Global, number: u32) -> Result<String, AllocError> {
    match number % 4 {
        0 => format!(in alloc; "value"),
        1 => format!(in alloc; "normal_{}", number / 256),
        2 => format!(in alloc; "position{number}"),
        _ => format!(in alloc; "array<vec{number},4>"),
    }
}

/// Names labels, and returns a checksum of the lengths of the names.
fn name_each(namer: &mut Namer<'_>, labels: &[String]) -> Result<u64, Fault> {
    let mut sum = 0;
    for label in labels {
        let name = namer.call(label.as_str())?;
        sum = mixed(sum, name.len() as u64);
    }
    Ok(sum)
}

/// Times names for all that a module declares, `size` declarations in groups of eight.
fn on_module(rt: &HostRuntime, size: u32) -> Result<Sample, Fault> {
    let mut owner = Module::new(rt.alloc());
    fill(rt.alloc(), &mut owner, size / 8)?;
    time_reset(rt, &owner, size)
}

/// Times names for all that a module declares.
fn time_reset(rt: &HostRuntime, owner: &Module, size: u32) -> Result<Sample, Fault> {
    let mut namer = Namer::new(rt.alloc(), WGSL);
    let start = now(rt);
    let names = namer.reset(owner, WGSL);
    let time = since(rt, start);
    let names = names?;
    let mut sum = 0;
    for name in names.values() {
        sum = mixed(sum, name.len() as u64);
    }
    Sample::of(size, Ok(sum), names.len() as u64, time)
}

/// Adds `count` groups of a structure with two members, and of a function with two arguments and two local variables.
fn fill(alloc: Global, owner: &mut Module, count: u32) -> Result<(), Fault> {
    let scalar = Type {
        name: None,
        inner: TypeInner::Scalar(Scalar::F32),
    };
    let base = owner.types.insert(scalar, Span::UNDEFINED)?;
    for number in 0..count {
        let name = format!(in alloc; "Vertex{number}")?;
        let inner = structure(alloc, base)?;
        let ty = Type {
            name: Some(name),
            inner,
        };
        let ty = owner.types.insert(ty, Span::UNDEFINED)?;
        add_function(alloc, owner, ty)?;
    }
    Ok(())
}

/// Returns a structure of two members of the same type, one of which has a name.
fn structure(alloc: Global, base: Handle<Type>) -> Result<TypeInner, AllocError> {
    let mut members = Vec::with_capacity(alloc, 2)?;
    members.push(member(Some(format!(in alloc; "x")?), base, 0))?;
    members.push(member(None, base, 4))?;
    Ok(TypeInner::Struct { members, span: 8 })
}

/// Returns a member.
fn member(name: Option<String>, ty: Handle<Type>, offset: u32) -> StructMember {
    StructMember {
        name,
        ty,
        binding: None,
        offset,
    }
}

/// Adds a function whose arguments and variables are of this type, the second ones without names.
fn add_function(alloc: Global, owner: &mut Module, ty: Handle<Type>) -> Result<(), Fault> {
    let mut function = Function::new(alloc);
    function.name = Some(format!(in alloc; "shade")?);
    add_argument(&mut function, Some(format!(in alloc; "vertex")?), ty)?;
    add_argument(&mut function, None, ty)?;
    add_local(&mut function, Some(format!(in alloc; "color")?), ty)?;
    add_local(&mut function, None, ty)?;
    owner.functions.append(function, Span::UNDEFINED)?;
    Ok(())
}

/// Adds an argument to a function.
fn add_argument(
    function: &mut Function,
    name: Option<String>,
    ty: Handle<Type>,
) -> Result<(), AllocError> {
    function.arguments.push(FunctionArgument {
        name,
        ty,
        binding: None,
    })?;
    Ok(())
}

/// Adds a local variable to a function.
fn add_local(function: &mut Function, name: Option<String>, ty: Handle<Type>) -> Result<(), Fault> {
    let variable = LocalVariable {
        name,
        ty,
        init: None,
    };
    function.local_variables.append(variable, Span::UNDEFINED)?;
    Ok(())
}
