//! Declarations in WGSL.
use super::type_names;
use anyhow::Result;
use naga_ir::{Expression, Module, StructMember, TypeInner};
use naga_layouter::{Layouter, TypeLayout, sizes_are_known};
use naga_text::Text;
use naga_wgsl::{
    ExpressionTexts, KnownTypes, Scope, Shape, TypeTexts, WriteError, write_constant,
    write_global_variable, write_override, write_struct,
};
use std::alloc::{AllocError, Global};

/// Prints the structures, the constants, the overrides and the variables of a module, or why one cannot be written, each
/// line with a bar after it.
pub(crate) fn show(rt: &impl Print, alloc: Global, module: &Module) -> Result<()> {
    let ctx = module.to_ctx();
    if !sizes_are_known(ctx) {
        println!(rt; "sizes are not known")?;
        return Ok(());
    }
    let mut layouter = Layouter::new(alloc);
    let _ = layouter.update(ctx);
    let names = type_names(alloc, &module.types)?;
    let texts = TypeTexts::new(alloc, &module.types, layouter.as_slice(), names.as_slice())?;
    show_structures(rt, alloc, module, layouter.as_slice(), &texts)?;
    show_values(rt, alloc, module, &texts)?;
    println!(rt; "")?;
    Ok(())
}

/// Prints the structures of a module.
fn show_structures(
    rt: &impl Print,
    alloc: Global,
    module: &Module,
    layouts: &[TypeLayout],
    texts: &TypeTexts,
) -> Result<()> {
    let known = KnownTypes {
        types: &module.types,
        layouts,
        texts,
    };
    for (handle, ty) in module.types.iter() {
        if let TypeInner::Struct { members, span } = &ty.inner {
            let mut text = Text::new(alloc);
            let names = member_names(alloc, members.as_slice())?;
            let written = write_struct(
                &mut text,
                &known,
                "S",
                names.as_slice(),
                handle,
                members.as_slice(),
                *span,
            );
            show_lines(rt, &text, written)?;
        }
    }
    Ok(())
}

/// Prints the lines of a text that was written, each with a bar after it, or why it was not, with a semicolon.
fn show_lines(rt: &impl Print, text: &Text, written: Result<(), WriteError>) -> Result<()> {
    match written {
        Ok(()) => {
            for line in text.as_str().lines() {
                print!(rt; "{line}|")?;
            }
        }
        Err(error) => print!(rt; "{error};")?,
    }
    Ok(())
}

/// Returns the names of members, up to the first that has none.
fn member_names(alloc: Global, members: &[StructMember]) -> Result<Vec<String>, AllocError> {
    let mut names = Vec::new(alloc);
    for member in members {
        match &member.name {
            Some(name) => names.push(name.clone()?)?,
            None => return Ok(names),
        }
    }
    Ok(names)
}

/// Prints the constants, the overrides and the variables of a module.
fn show_values(rt: &impl Print, alloc: Global, module: &Module, texts: &TypeTexts) -> Result<()> {
    let names = vec![in alloc; String::from_str(alloc, "c")?]?;
    let scope = Scope {
        types: texts,
        members: &[],
        constants: names.as_slice(),
        overrides: names.as_slice(),
        global_variables: names.as_slice(),
        arguments: names.as_slice(),
        local_variables: names.as_slice(),
    };
    let shapes = literal_shapes(alloc, module)?;
    let values = ExpressionTexts::new(
        alloc,
        &scope,
        shapes.as_slice(),
        &[],
        &module.global_expressions,
    )?;
    show_constants(rt, alloc, module, texts, &values)?;
    show_variables(rt, alloc, module, texts, &values)
}

/// Returns the shapes of the literals among the expressions of a module, and another one for all others.
fn literal_shapes(alloc: Global, module: &Module) -> Result<Vec<Shape>, AllocError> {
    let mut shapes = Vec::new(alloc);
    for (_, expression) in module.global_expressions.iter() {
        shapes.push(match expression {
            Expression::Literal(literal) => Shape::Scalar(literal.scalar()),
            _ => Shape::Other,
        })?;
    }
    Ok(shapes)
}

/// Prints the constants and the overrides of a module.
fn show_constants(
    rt: &impl Print,
    alloc: Global,
    module: &Module,
    texts: &TypeTexts,
    values: &ExpressionTexts,
) -> Result<()> {
    for (_, declared) in module.constants.iter() {
        let mut text = Text::new(alloc);
        let written = write_constant(&mut text, texts, values.as_slice(), "c", declared);
        show_lines(rt, &text, written)?;
    }
    for (_, declared) in module.overrides.iter() {
        let mut text = Text::new(alloc);
        let written = write_override(&mut text, texts, values.as_slice(), "o", declared);
        show_lines(rt, &text, written)?;
    }
    Ok(())
}

/// Prints the variables of a module.
fn show_variables(
    rt: &impl Print,
    alloc: Global,
    module: &Module,
    texts: &TypeTexts,
    values: &ExpressionTexts,
) -> Result<()> {
    for (_, declared) in module.global_variables.iter() {
        let mut text = Text::new(alloc);
        let written = write_global_variable(&mut text, texts, values.as_slice(), "v", declared);
        show_lines(rt, &text, written)?;
    }
    Ok(())
}
