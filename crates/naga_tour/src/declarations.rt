//! The declarations of the shader, which come before its functions.
use crate::source::{append, span_of};
use anyhow::Result;
use naga_proc::arena::ArenaError;
use naga_proc::ir::{
    AddressSpace, ArraySize, Constant, Expression, Flags, GlobalVariable, Literal,
    MemoryDecorations, Module, Override, ResourceBinding, Scalar, StorageAccess, Type, TypeInner,
};
use naga_proc::{Handle, Span};
use std::alloc::Global;

/// The declarations that the functions and the questions about the module refer to.
#[derive(Clone, Copy)]
pub struct Declared {
    pub uint: Handle<Type>,
    pub scale: Handle<Constant>,
    pub sums: Handle<GlobalVariable>,
    pub depths: Handle<GlobalVariable>,
}

/// Adds all declarations to the module, and returns the handles that are needed later. A declaration must come after
/// those that it refers to.
pub fn declare(rt: &impl Print, alloc: Global, module: &mut Module) -> Result<Declared> {
    println!(rt; "Declarations: arenas return handles, which are shown in brackets.")?;
    let uint = declare_uint(rt, module)?;
    let scale = declare_constant(rt, alloc, module, uint)?;
    let sums = declare_sums(rt, alloc, module, uint)?;
    let depths = declare_depths(rt, alloc, module, uint)?;
    Ok(Declared {
        uint,
        scale,
        sums,
        depths,
    })
}

/// Inserts the type `u32` twice. A unique arena returns the same handle again, and keeps the first span.
fn declare_uint(rt: &impl Print, module: &mut Module) -> Result<Handle<Type>> {
    let first = insert(module, uint(), "u32")?;
    let again = insert(module, uint(), "kind: u32")?;
    let Span { start, end } = module.types.get_span(again);
    println!(rt; "  The type u32 is {first:?}, with the span {start}..{end}.")?;
    println!(rt;
        "  Inserted again with another span, it is still {again:?}, with the span {start}..{end}."
    )?;
    Ok(first)
}

/// Returns the type `u32`, which has no name of its own.
fn uint() -> Type {
    Type {
        name: None,
        inner: TypeInner::Scalar(Scalar::U32),
    }
}

/// Inserts a type with the span of this part of the source.
fn insert(module: &mut Module, ty: Type, part: &str) -> Result<Handle<Type>, ArenaError> {
    module.types.insert(ty, span_of(part))
}

/// Declares the constant. Its value is a global expression, which is appended first.
fn declare_constant(
    rt: &impl Print,
    alloc: Global,
    module: &mut Module,
    ty: Handle<Type>,
) -> Result<Handle<Constant>> {
    let three = Expression::Literal(Literal::U32(3));
    let init = append(&mut module.global_expressions, three, "3")?;
    // Indexing by a handle requires that its element is in the arena, which the contract of `append` ensures.
    let value = &module.global_expressions[init];
    println!(rt; "  Global expression {init:?} is {value:?}.")?;
    let handle = add_constant(alloc, module, ty, init)?;
    println!(rt;
        "  The constant SCALE is {handle:?}. Its value is that of global expression {init:?}."
    )?;
    Ok(handle)
}

/// Adds the constant to the module.
fn add_constant(
    alloc: Global,
    module: &mut Module,
    ty: Handle<Type>,
    init: Handle<Expression>,
) -> Result<Handle<Constant>> {
    let name = Some(String::from_str(alloc, "SCALE")?);
    let declared = Constant { name, ty, init };
    let handle = module.constants.append(declared, span_of("SCALE"))?;
    Ok(handle)
}

/// Adds an override to the module. `init` is the value that it has if the pipeline provides none.
fn add_override(
    alloc: Global,
    module: &mut Module,
    name: &str,
    ty: Handle<Type>,
    init: Option<Handle<Expression>>,
) -> Result<Handle<Override>> {
    let declared = Override {
        name: Some(String::from_str(alloc, name)?),
        id: None,
        ty,
        init,
    };
    let handle = module.overrides.append(declared, span_of(name))?;
    Ok(handle)
}

/// Declares the buffer that the shader writes, with its type: an array whose length is an override that has a value.
fn declare_sums(
    rt: &impl Print,
    alloc: Global,
    module: &mut Module,
    base: Handle<Type>,
) -> Result<Handle<GlobalVariable>> {
    let four = Expression::Literal(Literal::U32(4));
    let init = append(&mut module.global_expressions, four, "4")?;
    let len = add_override(alloc, module, "LEN", base, Some(init))?;
    println!(rt;
        "  The override LEN is {len:?}. Its value is that of global expression {init:?}."
    )?;
    let ty = insert(module, array(base, len), "array<u32, LEN>")?;
    let access = StorageAccess::LOAD.union(StorageAccess::STORE);
    let binding = ResourceBinding {
        group: 0,
        binding: 0,
    };
    declare_variable(
        rt,
        alloc,
        module,
        "sums",
        AddressSpace::Storage { access },
        Some(binding),
        ty,
    )
}

/// Declares the variable that a workgroup shares, with its type: an array whose length is an override that has no value
/// yet.
fn declare_depths(
    rt: &impl Print,
    alloc: Global,
    module: &mut Module,
    base: Handle<Type>,
) -> Result<Handle<GlobalVariable>> {
    let depth = add_override(alloc, module, "DEPTH", base, None)?;
    println!(rt;
        "  The override DEPTH is {depth:?}. It has no value until the pipeline provides one."
    )?;
    let ty = insert(module, array(base, depth), "array<u32, DEPTH>")?;
    declare_variable(
        rt,
        alloc,
        module,
        "depths",
        AddressSpace::WorkGroup,
        None,
        ty,
    )
}

/// Returns the type of an array whose length is the value of an override.
fn array(base: Handle<Type>, length: Handle<Override>) -> Type {
    Type {
        name: None,
        inner: TypeInner::Array {
            base,
            size: ArraySize::Pending(length),
            stride: 4,
        },
    }
}

/// Adds a global variable to the module.
fn declare_variable(
    rt: &impl Print,
    alloc: Global,
    module: &mut Module,
    name: &str,
    space: AddressSpace,
    binding: Option<ResourceBinding>,
    ty: Handle<Type>,
) -> Result<Handle<GlobalVariable>> {
    let declared = GlobalVariable {
        name: Some(String::from_str(alloc, name)?),
        space,
        binding,
        ty,
        init: None,
        memory_decorations: MemoryDecorations::default(),
    };
    let handle = module.global_variables.append(declared, span_of(name))?;
    println!(rt; "  The global variable {name} is {handle:?}, of type {ty:?}.")?;
    Ok(handle)
}
