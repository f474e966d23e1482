//! Expressions, statements, types and declarations of a module, one by one, and what the base says of the whole module.
use anyhow::Result;
use naga_arena::{Arena, Handle, KindName, TryClone};
use naga_ir::{
    ArraySize, Binding, BuiltIn, ConstValueError, Control, Expression, Flags, Function,
    GlslUniformType, HashableLiteral, ImageClass, IndexableLength, Literal, Module, RayTracingUses,
    ResolveArraySizeError, Scalar, Statement, StructMember, SwitchCase, TypeInner,
};
use std::alloc::Global;
use std::fmt::Debug;

/// Prints the answer to a question about a module.
pub(crate) fn answer(
    rt: &impl Print,
    alloc: Global,
    question: &str,
    module: &Module,
) -> Result<()> {
    match question {
        "override" => show_last(rt, alloc, &module.overrides),
        "constant" => show_last(rt, alloc, &module.constants),
        "variable" => show_last(rt, alloc, &module.global_variables),
        "space" => show_space(rt, module),
        "mesh" => show_mesh(rt, module),
        "uses" => show_uses(rt, module),
        "length" => show_length(rt, module),
        "value" => show_value(rt, module),
        "literal" => show_literal(rt, module),
        _ => answer_last(rt, alloc, question, module),
    }
}

/// Prints that nothing answers a question.
fn show_nothing(rt: &impl Print) -> Result<()> {
    println!(rt; "nothing")?;
    Ok(())
}

/// Returns the first word if something is so, or else the second one.
fn either(is_so: bool, yes: &'static str, no: &'static str) -> &'static str {
    if is_so { yes } else { no }
}

/// Prints the answer to a question about the last type or the last function of a module.
fn answer_last(rt: &impl Print, alloc: Global, question: &str, module: &Module) -> Result<()> {
    match module.functions.as_slice().last() {
        Some(function) => answer_function(rt, alloc, question, module, function),
        None => match module.types.iter().last() {
            Some((_, ty)) => answer_type(rt, alloc, question, &ty.inner),
            None => show_nothing(rt),
        },
    }
}

/// Prints the answer to a question about a type.
fn answer_type(rt: &impl Print, alloc: Global, question: &str, inner: &TypeInner) -> Result<()> {
    match (question, inner) {
        ("type", _) => show_type(rt, alloc, inner),
        ("literals", TypeInner::Scalar(scalar)) => show_literals(rt, *scalar),
        ("image", TypeInner::Image { class, .. }) => show_class(rt, *class),
        ("order", TypeInner::Struct { members, .. }) => show_order(rt, members.as_slice()),
        _ => show_nothing(rt),
    }
}

/// Prints the answer to a question about a function.
fn answer_function(
    rt: &impl Print,
    alloc: Global,
    question: &str,
    module: &Module,
    function: &Function,
) -> Result<()> {
    match (question, function.body.last()) {
        ("expression", _) => show_expression(rt, alloc, &function.expressions),
        ("value_beside", _) => {
            println!(rt; "{:?}", literal_of_last(module, function))?;
            Ok(())
        }
        ("statement", Some(statement)) => show_statement(rt, alloc, statement),
        _ => show_nothing(rt),
    }
}

/// Prints the debug text of a value, and that of its clone if it is another one.
fn show_cloned<T: Debug + TryClone + Drop>(
    rt: &impl Print,
    alloc: Global,
    value: &T,
) -> Result<()> {
    let clone = TryClone::clone(value)?;
    let text = format!(in alloc; "{value:?}")?;
    let copied = format!(in alloc; "{clone:?}")?;
    print!(rt; "{text}")?;
    if text.as_str() != copied.as_str() {
        print!(rt; ", and its clone {copied}")?;
    }
    Ok(())
}

/// Prints the debug text of a value in a line, and what its clone has that is different.
fn show_equal<T: Debug + PartialEq + TryClone + Drop>(
    rt: &impl Print,
    alloc: Global,
    value: &T,
) -> Result<()> {
    show_cloned(rt, alloc, value)?;
    let clone = TryClone::clone(value)?;
    println!(rt;
        "{}",
        either(clone == *value, "", ", which is not equal to its clone")
    )?;
    Ok(())
}

/// Prints the handles of the elements of an arena that are equal to its last element, and the last element.
fn show_last<T: KindName + Debug + PartialEq + TryClone + Drop>(
    rt: &impl Print,
    alloc: Global,
    arena: &Arena<T>,
) -> Result<()> {
    let Some(last) = arena.as_slice().last() else {
        return show_nothing(rt);
    };
    for (handle, element) in arena.iter() {
        if *element == *last {
            print!(rt; "{handle:?}")?;
        }
    }
    print!(rt; ": ")?;
    show_equal(rt, alloc, last)
}

/// Prints when the last of some expressions has its value, the handles of those that are equal to it, and the
/// expression.
fn show_expression(rt: &impl Print, alloc: Global, expressions: &Arena<Expression>) -> Result<()> {
    let Some(last) = expressions.as_slice().last() else {
        return show_nothing(rt);
    };
    let time = match (last.needs_pre_emit(), last.is_dynamic_index()) {
        (true, false) => "translated",
        (true, true) => "entered",
        (false, true) => "later",
        (false, false) => "never",
    };
    print!(rt; "{time}, ")?;
    show_last(rt, alloc, expressions)
}

/// Returns the number of statements in the bodies of cases.
fn held_by_cases(cases: &[SwitchCase]) -> usize {
    let mut total = 0usize;
    for case in cases {
        total = total.saturating_add(case.body.len());
    }
    total
}

/// Returns the number of statements in the blocks that a statement contains.
fn held(statement: &Statement) -> usize {
    match statement.control() {
        Control::Block(block) => block.len(),
        Control::If { accept, reject, .. } => accept.len().saturating_add(reject.len()),
        Control::Switch { cases, .. } => held_by_cases(cases),
        Control::Loop {
            body,
            continuing,
            ..
        } => body.len().saturating_add(continuing.len()),
        Control::Plain
        | Control::Break
        | Control::Continue
        | Control::Return { .. }
        | Control::Kill => 0,
    }
}

/// Prints the number of statements in the blocks of a statement, whether it is plain, its effect on control flow, and the
/// statement.
fn show_statement(rt: &impl Print, alloc: Global, statement: &Statement) -> Result<()> {
    let plain = either(statement.is_plain(), "plain", "not plain");
    print!(rt; "{}, {plain}, ", held(statement))?;
    show_cloned(rt, alloc, &statement.control())?;
    print!(rt; ": ")?;
    show_cloned(rt, alloc, statement)?;
    println!(rt; "")?;
    Ok(())
}

/// Prints the GLSL uniform that a type converts to, if there is one, and the type.
fn show_type(rt: &impl Print, alloc: Global, inner: &TypeInner) -> Result<()> {
    print!(rt; "{:?}: ", GlslUniformType::try_from(inner).ok())?;
    show_equal(rt, alloc, inner)
}

/// Prints the literals of a scalar: zero, one, minus one, 1 and 255.
fn show_literals(rt: &impl Print, scalar: Scalar) -> Result<()> {
    let (zero, one) = (Literal::zero(scalar), Literal::one(scalar));
    print!(rt; "{zero:?}, {one:?}, {:?}, ", Literal::minus_one(scalar))?;
    println!(rt;
        "{:?}, {:?}",
        Literal::new(1, scalar),
        Literal::new(255, scalar)
    )?;
    Ok(())
}

/// Prints whether images of a class are multisampled, may have mipmaps, and are depth images.
fn show_class(rt: &impl Print, class: ImageClass) -> Result<()> {
    let (multisampled, mipmapped) = (class.is_multisampled(), class.is_mipmapped());
    println!(rt; "{multisampled}, {mipmapped}, {}", class.is_depth())?;
    Ok(())
}

/// Returns the built-in that a member has as its binding, if there is one.
fn built_in_of(member: &StructMember) -> Option<BuiltIn> {
    match &member.binding {
        Some(binding) => Binding::to_built_in(binding),
        None => None,
    }
}

/// Prints the built-ins of members, and whether each is less than the next one.
fn show_order(rt: &impl Print, members: &[StructMember]) -> Result<()> {
    let mut last = None;
    for member in members {
        let next = built_in_of(member);
        if let (Some(last), Some(next)) = (last, next) {
            print!(rt;
                "{last:?} {} {next:?}",
                either(last < next, "<", "is not less than")
            )?;
        }
        last = next;
    }
    println!(rt; "")?;
    Ok(())
}

/// Prints the bits of the accesses to the space of the last global variable, and whether a workgroup shares it.
fn show_space(rt: &impl Print, module: &Module) -> Result<()> {
    match module.global_variables.as_slice().last() {
        Some(variable) => {
            let (bits, space) = (variable.space.access().bits(), variable.space);
            println!(rt;
                "{bits}, {}",
                either(space.is_workgroup_like(), "shared", "own")
            )?;
        }
        None => println!(rt; "nothing")?,
    }
    Ok(())
}

/// Prints what the type of the first global variable says of a mesh, the overrides of its numbers, and the error.
fn show_mesh(rt: &impl Print, module: &Module) -> Result<()> {
    let Some((variable, _)) = module.global_variables.iter().next() else {
        return show_nothing(rt);
    };
    if !module.mesh_handles_in(variable) {
        return show_nothing(rt);
    }
    let (info, overrides, error) = module.analyze_mesh_shader_info(variable)?;
    print!(rt; "{info:?}, {overrides:?}, ")?;
    match error {
        Some(error) => println!(rt; "{error}")?,
        None => println!(rt; "ok")?,
    }
    Ok(())
}

/// Prints whether a module uses mesh shaders, and the kinds of ray tracing that it uses at any entry point, at each of
/// its entry points, and past the last one.
fn show_uses(rt: &impl Print, module: &Module) -> Result<()> {
    print!(rt; "{}", either(module.uses_mesh_shaders(), "mesh", "no mesh"))?;
    show_rays(rt, module.uses_ray_tracing(None))?;
    for position in 0..module.entry_points.len() {
        show_rays(rt, module.uses_ray_tracing(Some(position)))?;
    }
    show_rays(rt, module.uses_ray_tracing(Some(module.entry_points.len())))?;
    println!(rt; "")?;
    Ok(())
}

/// Prints kinds of ray tracing after a comma.
fn show_rays(rt: &impl Print, uses: RayTracingUses) -> Result<()> {
    let kinds = match (uses.pipelines, uses.queries) {
        (true, true) => "pipelines and queries",
        (true, false) => "pipelines",
        (false, true) => "queries",
        (false, false) => "no rays",
    };
    print!(rt; ", {kinds}")?;
    Ok(())
}

/// Returns the size of the last type of a module, if that is an array.
fn last_size(module: &Module) -> Option<ArraySize> {
    match module.types.iter().last() {
        Some((_, ty)) => match &ty.inner {
            TypeInner::Array { size, .. } => Some(*size),
            _ => None,
        },
        None => None,
    }
}

/// Returns what the size of the last type of a module resolves to.
fn length_of_last(module: &Module) -> Option<Result<IndexableLength, ResolveArraySizeError>> {
    let (ctx, size) = (module.to_ctx(), last_size(module)?);
    if let ArraySize::Pending(handle) = size
        && ctx.overrides.check_contains_handle(handle).is_err()
    {
        return None;
    }
    if !ctx.is_closed_over(ctx.global_expressions) {
        return None;
    }
    Some(size.resolve(ctx))
}

/// Prints what the size of the last type of a module resolves to.
fn show_length(rt: &impl Print, module: &Module) -> Result<()> {
    match length_of_last(module) {
        Some(Ok(length)) => println!(rt; "{length:?}")?,
        Some(Err(error)) => println!(rt; "{error}")?,
        None => println!(rt; "nothing")?,
    }
    Ok(())
}

/// Returns a global expression of a module, read as a number.
fn number_at(module: &Module, handle: Handle<Expression>) -> Option<Result<u32, ConstValueError>> {
    let ctx = module.to_ctx();
    if ctx
        .global_expressions
        .check_contains_handle(handle)
        .is_err()
        || !ctx.is_closed_over(ctx.global_expressions)
    {
        return None;
    }
    Some(ctx.get_const_val(handle))
}

/// Returns the last global expression of a module, read as a number.
fn number_of_last(module: &Module) -> Option<Result<u32, ConstValueError>> {
    match module.global_expressions.iter().last() {
        Some((handle, _)) => number_at(module, handle),
        None => None,
    }
}

/// Prints the last global expression of a module, read as a number.
fn show_value(rt: &impl Print, module: &Module) -> Result<()> {
    println!(rt; "{:?}", number_of_last(module))?;
    Ok(())
}

/// Returns the literal that is the value of an expression of a function.
fn literal_at(
    module: &Module,
    function: &Function,
    handle: Handle<Expression>,
) -> Option<Result<Literal, ConstValueError>> {
    let ctx = module.to_ctx();
    if function.expressions.check_contains_handle(handle).is_err()
        || !ctx.is_closed_over(&function.expressions)
    {
        return None;
    }
    Some(ctx.get_const_val_from(handle, &function.expressions))
}

/// Returns the literal that is the value of the last expression of a function.
fn literal_of_last(
    module: &Module,
    function: &Function,
) -> Option<Result<Literal, ConstValueError>> {
    match function.expressions.iter().last() {
        Some((handle, _)) => literal_at(module, function, handle),
        None => None,
    }
}

/// Prints the scalar of the last global expression of a module, if that is a literal, and what the literal is read as.
fn show_literal(rt: &impl Print, module: &Module) -> Result<()> {
    match module.global_expressions.as_slice().last() {
        Some(Expression::Literal(literal)) => show_types(rt, *literal),
        _ => show_nothing(rt),
    }
}

/// Prints the scalar of a literal, its kind, its width, the type, the literal with a hash that it converts to, and the
/// number and the boolean that it is.
fn show_types(rt: &impl Print, literal: Literal) -> Result<()> {
    let (kind, width) = (literal.scalar_kind(), literal.width());
    print!(rt;
        "{:?}, {kind:?}, {width}, {:?}, ",
        literal.scalar(),
        literal.ty_inner()
    )?;
    let (number, truth) = (u32::try_from(literal), bool::try_from(literal));
    println!(rt;
        "{:?}, {number:?}, {truth:?}",
        HashableLiteral::from(literal)
    )?;
    Ok(())
}
