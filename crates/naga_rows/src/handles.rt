//! What the parts of a module refer to.
use anyhow::Result;
use naga_flow::BodyOwner;
use naga_ir::{EntryPoint, Function, Module};
use naga_valid::{Part, Place, Refers, references_of};

/// Prints each handle of a module, after the name of the part that has it, and with a semicolon after it.
pub(crate) fn show_handles(rt: &impl Print, module: &Module) -> Result<()> {
    show_types(rt, module)?;
    show(rt, module, &Place::SpecialTypes, &module.special_types)?;
    show_constants(rt, module)?;
    show_overrides(rt, module)?;
    show_global_variables(rt, module)?;
    show_filters(rt, module)?;
    show(
        rt,
        module,
        &Place::DiagnosticFilterLeaf,
        &module.diagnostic_filter_leaf,
    )?;
    show_functions(rt, module)?;
    show_entry_points(rt, module)?;
    println!(rt; "")?;
    Ok(())
}

/// Prints the handles of a part, which is at a place of a module.
fn show<P: Refers>(rt: &impl Print, module: &Module, place: &Place, part: &P) -> Result<()> {
    for reference in references_of(part) {
        print!(rt; "{}: {reference};", place.display(module))?;
    }
    Ok(())
}

/// Prints the handles of the types of a module.
fn show_types(rt: &impl Print, module: &Module) -> Result<()> {
    for (handle, ty) in module.types.iter() {
        show(rt, module, &Place::Type(handle), ty)?;
    }
    Ok(())
}

/// Prints the handles of the constants of a module.
fn show_constants(rt: &impl Print, module: &Module) -> Result<()> {
    for (handle, constant) in module.constants.iter() {
        show(rt, module, &Place::Constant(handle), constant)?;
    }
    Ok(())
}

/// Prints the handles of the overrides of a module.
fn show_overrides(rt: &impl Print, module: &Module) -> Result<()> {
    for (handle, declared) in module.overrides.iter() {
        show(rt, module, &Place::Override(handle), declared)?;
    }
    Ok(())
}

/// Prints the handles of the global variables of a module.
fn show_global_variables(rt: &impl Print, module: &Module) -> Result<()> {
    for (handle, variable) in module.global_variables.iter() {
        show(rt, module, &Place::GlobalVariable(handle), variable)?;
    }
    Ok(())
}

/// Prints the handles of the diagnostic filters of a module.
fn show_filters(rt: &impl Print, module: &Module) -> Result<()> {
    for (handle, filter) in module.diagnostic_filters.iter() {
        show(rt, module, &Place::DiagnosticFilter(handle), filter)?;
    }
    Ok(())
}

/// Prints the handles of the functions of a module.
fn show_functions(rt: &impl Print, module: &Module) -> Result<()> {
    for (handle, function) in module.functions.iter() {
        show_function(rt, module, &BodyOwner::Function(handle), function)?;
    }
    Ok(())
}

/// Prints the handles of the entry points of a module.
fn show_entry_points(rt: &impl Print, module: &Module) -> Result<()> {
    for (position, entry_point) in module.entry_points.iter().enumerate() {
        show_entry_point(rt, module, position, entry_point)?;
    }
    Ok(())
}

/// Prints the handles of an entry point.
fn show_entry_point(
    rt: &impl Print,
    module: &Module,
    position: usize,
    entry_point: &EntryPoint,
) -> Result<()> {
    let place = &Place::EntryPoint(position);
    if let Some(sizes) = &entry_point.workgroup_size_overrides {
        show(rt, module, place, sizes)?;
    }
    if let Some(mesh_info) = &entry_point.mesh_info {
        show(rt, module, place, mesh_info)?;
    }
    show(rt, module, place, &entry_point.task_payload)?;
    show(rt, module, place, &entry_point.incoming_ray_payload)?;
    let owner = BodyOwner::EntryPoint(position);
    show_function(rt, module, &owner, &entry_point.function)
}

/// Returns the place of a part of a function or of an entry point.
fn place_of(owner: &BodyOwner, part: Part) -> Place {
    match owner {
        BodyOwner::Function(handle) => Place::Function(*handle, part),
        BodyOwner::EntryPoint(position) => Place::EntryPointFunction(*position, part),
    }
}

/// Prints the handles of a function.
fn show_function(
    rt: &impl Print,
    module: &Module,
    owner: &BodyOwner,
    function: &Function,
) -> Result<()> {
    show(
        rt,
        module,
        &place_of(owner, Part::Arguments),
        &function.arguments,
    )?;
    show(rt, module, &place_of(owner, Part::Result), &function.result)?;
    show_variables(rt, module, owner, function)?;
    show_expressions(rt, module, owner, function)?;
    show_body(rt, module, owner, function)
}

/// Prints the handles of the local variables of a function.
fn show_variables(
    rt: &impl Print,
    module: &Module,
    owner: &BodyOwner,
    function: &Function,
) -> Result<()> {
    for (handle, variable) in function.local_variables.iter() {
        show(
            rt,
            module,
            &place_of(owner, Part::LocalVariable(handle)),
            variable,
        )?;
    }
    Ok(())
}

/// Prints the handles of the expressions of a function.
fn show_expressions(
    rt: &impl Print,
    module: &Module,
    owner: &BodyOwner,
    function: &Function,
) -> Result<()> {
    for (handle, expression) in function.expressions.iter() {
        show(
            rt,
            module,
            &place_of(owner, Part::Expression(handle)),
            expression,
        )?;
    }
    Ok(())
}

/// Prints the handles of the statements of a body, except for those inside other statements.
fn show_body(
    rt: &impl Print,
    module: &Module,
    owner: &BodyOwner,
    function: &Function,
) -> Result<()> {
    for statement in &function.body {
        show(rt, module, &place_of(owner, Part::Body), statement)?;
    }
    Ok(())
}
