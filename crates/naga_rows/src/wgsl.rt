//! Texts in WGSL.
mod declarations;

use anyhow::Result;
use naga_arena::{Handle, UniqueArena};
use naga_ir::{Expression, Literal, Module, Type, TypeInner};
use naga_kinds::{
    BinaryOperator, DerivativeAxis, DerivativeControl, MathFunction, PlainKind, RelationalFunction,
    UnaryOperator,
};
use naga_layouter::{Layouter, sizes_are_known};
use naga_text::Text;
use naga_wgsl::{
    TypeTexts, WriteError, binary_operator, derivative_function, math_function,
    relational_function, unary_operator, write_array, write_atomic, write_literal, write_matrix,
    write_pointer, write_scalar, write_space, write_type, write_vector,
};
use std::alloc::{AllocError, Global};

/// Prints the answer to a question about a module.
pub(crate) fn answer(
    rt: &impl Print,
    alloc: Global,
    question: &str,
    module: &Module,
) -> Result<()> {
    match question {
        "literals" => show_literals(rt, alloc, module),
        "types" => show_types(rt, alloc, module),
        "handles" => show_type_texts(rt, alloc, module),
        "declarations" => declarations::show(rt, alloc, module),
        "spaces" => show_spaces(rt, alloc, module),
        _ => {
            println!(rt; "unknown question")?;
            Ok(())
        }
    }
}

/// Prints the text of each literal among the expressions of a module, or why it has none, with a semicolon after it.
fn show_literals(rt: &impl Print, alloc: Global, module: &Module) -> Result<()> {
    for (_, expression) in module.global_expressions.iter() {
        if let Expression::Literal(literal) = expression {
            show_literal(rt, alloc, *literal)?;
        }
    }
    println!(rt; "")?;
    Ok(())
}

/// Prints the text of a literal, or why it has none, with a semicolon after it.
fn show_literal(rt: &impl Print, alloc: Global, literal: Literal) -> Result<()> {
    let mut text = Text::new(alloc);
    let written = write_literal(&mut text, literal);
    show_written(rt, &text, written)
}

/// Prints the text of each type of a module that consists of scalars or refers to such a type, or why it has none, with a
/// semicolon after it.
fn show_types(rt: &impl Print, alloc: Global, module: &Module) -> Result<()> {
    for (_, ty) in module.types.iter() {
        let mut text = Text::new(alloc);
        let written = write_referring(&mut text, &module.types, &ty.inner);
        show_written(rt, &text, written)?;
    }
    println!(rt; "")?;
    Ok(())
}

/// Appends the text of a type. The natural stride of an array is taken for 16.
fn write_referring(
    text: &mut Text,
    types: &UniqueArena<Type>,
    inner: &TypeInner,
) -> Result<(), WriteError> {
    match inner {
        TypeInner::Array { base, size, stride } => {
            let base = base_of(text, types, *base)?;
            write_array(text, base.as_str(), 16, *size, *stride)
        }
        TypeInner::Pointer { base, space } => {
            let base = base_of(text, types, *base)?;
            write_pointer(text, base.as_str(), *space)
        }
        _ => write_inner(text, inner),
    }
}

/// Returns the text of a type to which another one refers.
fn base_of(text: &Text, types: &UniqueArena<Type>, base: Handle<Type>) -> Result<Text, WriteError> {
    let mut written = text.fresh();
    if let Ok(ty) = types.get_handle(base) {
        write_inner(&mut written, &ty.inner)?;
    }
    Ok(written)
}

/// Appends the text of a type, or nothing if it does not consist of scalars.
fn write_inner(text: &mut Text, inner: &TypeInner) -> Result<(), WriteError> {
    match inner {
        TypeInner::Scalar(scalar) => write_scalar(text, *scalar),
        TypeInner::Vector { size, scalar } => write_vector(text, *size, *scalar),
        TypeInner::Matrix {
            columns,
            rows,
            scalar,
        } => write_matrix(text, *columns, *rows, *scalar),
        TypeInner::Atomic(scalar) => write_atomic(text, *scalar),
        _ => Ok(()),
    }
}

/// Prints the text of each type of a module by its handle, or why it has none, with a semicolon after it.
fn show_type_texts(rt: &impl Print, alloc: Global, module: &Module) -> Result<()> {
    let ctx = module.to_ctx();
    if !sizes_are_known(ctx) {
        println!(rt; "sizes are not known")?;
        return Ok(());
    }
    let mut layouter = Layouter::new(alloc);
    let _ = layouter.update(ctx);
    let names = type_names(alloc, &module.types)?;
    let texts = TypeTexts::new(alloc, &module.types, layouter.as_slice(), names.as_slice())?;
    for (handle, _) in module.types.iter() {
        let mut text = Text::new(alloc);
        let written = write_type(&mut text, &texts, handle);
        show_written(rt, &text, written)?;
    }
    println!(rt; "")?;
    Ok(())
}

/// Returns the names of types, up to the first that has none.
pub(crate) fn type_names(
    alloc: Global,
    types: &UniqueArena<Type>,
) -> Result<Vec<String>, AllocError> {
    let mut names = Vec::new(alloc);
    for (_, ty) in types.iter() {
        match &ty.name {
            Some(name) => names.push(name.clone()?)?,
            None => return Ok(names),
        }
    }
    Ok(names)
}

/// Prints the address space of each global variable of a module, or why it has none, with a semicolon after it.
fn show_spaces(rt: &impl Print, alloc: Global, module: &Module) -> Result<()> {
    for (_, variable) in module.global_variables.iter() {
        let mut text = Text::new(alloc);
        let written = write_space(&mut text, variable.space);
        show_written(rt, &text, written)?;
    }
    println!(rt; "")?;
    Ok(())
}

/// Prints a text that was written, or why it was not, with a semicolon after it.
fn show_written(rt: &impl Print, text: &Text, written: Result<(), WriteError>) -> Result<()> {
    match written {
        Ok(()) => print!(rt; "{};", text.as_str())?,
        Err(error) => print!(rt; "{error};")?,
    }
    Ok(())
}

/// Prints the text of an operator or a function with a name, or of a derivative with two names.
pub(crate) fn answer_operators(rt: &impl Print, question: &str, name: &str) -> Result<()> {
    let text = match question {
        "unary" => unary(name),
        "binary" => binary(name),
        "relational" => relational(name),
        "math" => mathematical(name),
        _ => derivative(name),
    };
    match text {
        Some(text) => println!(rt; "{text}")?,
        None => println!(rt; "none")?,
    }
    Ok(())
}

/// Returns the text of the unary operator of a name.
fn unary(name: &str) -> Option<&'static str> {
    let op = UnaryOperator::from_name(name)?;
    Some(unary_operator(op))
}

/// Returns the text of the binary operator of a name.
fn binary(name: &str) -> Option<&'static str> {
    let op = BinaryOperator::from_name(name)?;
    Some(binary_operator(op))
}

/// Returns the text of the relational function of a name.
fn relational(name: &str) -> Option<&'static str> {
    let function = RelationalFunction::from_name(name)?;
    relational_function(function)
}

/// Returns the text of the mathematical function of a name.
fn mathematical(name: &str) -> Option<&'static str> {
    let function = MathFunction::from_name(name)?;
    math_function(function)
}

/// Returns the text of a derivative, by the names of its axis and of its precision.
fn derivative(names: &str) -> Option<&'static str> {
    let (axis, control) = names.split_once(' ')?;
    let axis = DerivativeAxis::from_name(axis)?;
    let control = DerivativeControl::from_name(control)?;
    Some(derivative_function(axis, control))
}
