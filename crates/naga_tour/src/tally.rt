//! The entry point `tally`, whose body is built statement by statement.
use crate::declarations::Declared;
use crate::source::{append, span_of};
use anyhow::{Result, bail};
use naga_proc::ir::{
    BinaryOperator, Binding, Block, EntryPoint, Expression, Function, FunctionArgument,
    Interpolation, Literal, Module, ShaderStage, Statement, SwitchCase, SwitchValue, Type,
};
use naga_proc::{Arena, Emitter, Handle};
use std::alloc::{AllocError, Global};

/// The expressions that the body computes with. Their values are available when the function is entered, so no `Emit`
/// covers them.
#[derive(Clone, Copy)]
struct Inputs {
    kind: Handle<Expression>,
    amount: Handle<Expression>,
    zero: Handle<Expression>,
    scale: Handle<Expression>,
    sums: Handle<Expression>,
}

/// Adds the entry point `tally` to the module, and builds its function, without a return at the end of the body.
pub fn add_tally(
    rt: &impl Print,
    alloc: Global,
    module: &mut Module,
    declared: &Declared,
    scaled: Handle<Function>,
) -> Result<()> {
    let name = String::from_str(alloc, "tally")?;
    module.entry_points.push(entry_point(alloc, name))?;
    match module.entry_points.last_mut() {
        Some(tally) => fill_tally(rt, alloc, &mut tally.function, declared, scaled),
        None => bail!("there is no entry point"),
    }
}

/// Returns an entry point with this name and an empty function, for the fragment stage.
fn entry_point(alloc: Global, name: String) -> EntryPoint {
    EntryPoint {
        name,
        stage: ShaderStage::Fragment,
        early_depth_test: None,
        workgroup_size: [0; 3],
        workgroup_size_overrides: None,
        function: Function::new(alloc),
        mesh_info: None,
        task_payload: None,
        incoming_ray_payload: None,
    }
}

/// Adds the arguments and the body to the function.
fn fill_tally(
    rt: &impl Print,
    alloc: Global,
    function: &mut Function,
    declared: &Declared,
    scaled: Handle<Function>,
) -> Result<()> {
    add_argument(alloc, function, declared.uint, "kind", 0)?;
    add_argument(alloc, function, declared.uint, "amount", 1)?;
    add_body(alloc, function, declared, scaled)?;
    let (expressions, statements) = (function.expressions.len(), function.body.len());
    println!(rt;
        "  The entry point tally has {expressions} expressions, and {statements} statements in its body."
    )?;
    Ok(())
}

/// Builds the body, statement by statement.
fn add_body(
    alloc: Global,
    function: &mut Function,
    declared: &Declared,
    scaled: Handle<Function>,
) -> Result<()> {
    let inputs = add_inputs(&mut function.expressions, declared)?;
    add_discard(alloc, function, &inputs)?;
    let more = add_call(alloc, function, &inputs, scaled)?;
    add_loop(alloc, function, &inputs, more)?;
    add_switch(alloc, function, &inputs, more)
}

/// Adds an argument, which the previous stage passes at this location.
fn add_argument(
    alloc: Global,
    function: &mut Function,
    ty: Handle<Type>,
    name: &str,
    location: u32,
) -> Result<()> {
    let name = Some(String::from_str(alloc, name)?);
    let binding = Some(flat(location));
    function
        .arguments
        .push(FunctionArgument { name, ty, binding })?;
    Ok(())
}

/// Returns the binding of a value that is not interpolated, at this location.
fn flat(location: u32) -> Binding {
    Binding::Location {
        location,
        interpolation: Some(Interpolation::Flat),
        sampling: None,
        blend_src: None,
        per_primitive: false,
    }
}

/// Appends the expressions that the body computes with. Each `append` returns a handle, or fails and changes nothing.
fn add_inputs(expressions: &mut Arena<Expression>, declared: &Declared) -> Result<Inputs> {
    let first = Expression::FunctionArgument(0);
    let kind = append(expressions, first, "kind: u32")?;
    let second = Expression::FunctionArgument(1);
    let amount = append(expressions, second, "amount: u32) {")?;
    let zero = Expression::Literal(Literal::U32(0));
    let zero = append(expressions, zero, "0 { discard")?;
    let scale = Expression::Constant(declared.scale);
    let scale = append(expressions, scale, "SCALE; }")?;
    let sums = Expression::GlobalVariable(declared.sums);
    let sums = append(expressions, sums, "sums[")?;
    Ok(Inputs {
        kind,
        amount,
        zero,
        scale,
        sums,
    })
}

/// Adds `if amount == 0 { discard; }`: an `Emit` of the comparison, and then the `If`.
fn add_discard(alloc: Global, function: &mut Function, inputs: &Inputs) -> Result<()> {
    let condition = add_comparison(&mut function.expressions, &mut function.body, inputs)?;
    let mut accept = Block::new(alloc);
    push(&mut accept, Statement::Kill, "discard;")?;
    let branch = Statement::If {
        condition,
        accept,
        reject: Block::new(alloc),
    };
    push(&mut function.body, branch, "if amount == 0 { discard; }")?;
    Ok(())
}

/// Appends the comparison for the `If`, adds its `Emit` to a block, and returns the condition.
fn add_comparison(
    expressions: &mut Arena<Expression>,
    block: &mut Block,
    inputs: &Inputs,
) -> Result<Handle<Expression>> {
    let mut emitter = Emitter::default();
    emitter.start(expressions);
    let (op, left, right) = (BinaryOperator::Equal, inputs.amount, inputs.zero);
    let comparison = Expression::Binary { op, left, right };
    let condition = append(expressions, comparison, "amount == 0")?;
    block.extend(emitter.finish(expressions))?;
    Ok(condition)
}

/// Adds `let more = scaled(amount);`. The result of the call is an expression, which the call itself evaluates.
fn add_call(
    alloc: Global,
    function: &mut Function,
    inputs: &Inputs,
    scaled: Handle<Function>,
) -> Result<Handle<Expression>> {
    let result = Expression::CallResult(scaled);
    let more = append(&mut function.expressions, result, "scaled(amount);")?;
    let call = Statement::Call {
        function: scaled,
        arguments: vec![in alloc; inputs.amount]?,
        result: Some(more),
    };
    push(&mut function.body, call, "scaled(amount);")?;
    Ok(more)
}

/// Adds the loop, after building its two blocks.
fn add_loop(
    alloc: Global,
    function: &mut Function,
    inputs: &Inputs,
    more: Handle<Expression>,
) -> Result<()> {
    let mut body = Block::new(alloc);
    let mut continuing = Block::new(alloc);
    let expressions = &mut function.expressions;
    let done = fill_loop(expressions, &mut body, &mut continuing, inputs, more)?;
    let repeat = Statement::Loop {
        body,
        continuing,
        break_if: Some(done),
    };
    push(&mut function.body, repeat, "loop")?;
    Ok(())
}

/// Fills the two blocks of the loop, and returns the condition for leaving it.
fn fill_loop(
    expressions: &mut Arena<Expression>,
    body: &mut Block,
    continuing: &mut Block,
    inputs: &Inputs,
    more: Handle<Expression>,
) -> Result<Handle<Expression>> {
    let pointer = add_sum(expressions, body, inputs, more)?;
    add_exit(expressions, continuing, inputs, pointer)
}

/// Adds `sums[kind] = sums[kind] + more;` to a block: one `Emit` of three expressions, and a `Store`. Returns the
/// pointer.
fn add_sum(
    expressions: &mut Arena<Expression>,
    block: &mut Block,
    inputs: &Inputs,
    more: Handle<Expression>,
) -> Result<Handle<Expression>> {
    let mut emitter = Emitter::default();
    emitter.start(expressions);
    let (base, index) = (inputs.sums, inputs.kind);
    let access = Expression::Access { base, index };
    let pointer = append(expressions, access, "sums[kind]")?;
    let left = append(expressions, Expression::Load { pointer }, "sums[kind] +")?;
    let (op, right) = (BinaryOperator::Add, more);
    let sum = Expression::Binary { op, left, right };
    let value = append(expressions, sum, "sums[kind] + more")?;
    block.extend(emitter.finish(expressions))?;
    let store = Statement::Store { pointer, value };
    push(block, store, "sums[kind] = sums[kind] + more;")?;
    Ok(pointer)
}

/// Appends the expressions for `break if`, adds their `Emit` to the continuing block, and returns the condition.
fn add_exit(
    expressions: &mut Arena<Expression>,
    block: &mut Block,
    inputs: &Inputs,
    pointer: Handle<Expression>,
) -> Result<Handle<Expression>> {
    let mut emitter = Emitter::default();
    emitter.start(expressions);
    let left = append(expressions, Expression::Load { pointer }, "sums[kind] >")?;
    let (op, right) = (BinaryOperator::Greater, inputs.scale);
    let comparison = Expression::Binary { op, left, right };
    let done = append(expressions, comparison, "sums[kind] > SCALE")?;
    block.extend(emitter.finish(expressions))?;
    Ok(done)
}

/// Adds the switch. Control falls off the end of the case for 0, and the default case is left by a `Break`.
fn add_switch(
    alloc: Global,
    function: &mut Function,
    inputs: &Inputs,
    more: Handle<Expression>,
) -> Result<()> {
    let mut cases = Vec::new(alloc);
    add_stored_case(alloc, &mut function.expressions, &mut cases, inputs, more)?;
    add_default_case(alloc, &mut cases)?;
    let selector = inputs.kind;
    push(
        &mut function.body,
        Statement::Switch { selector, cases },
        "switch kind",
    )?;
    Ok(())
}

/// Adds the case for 0, which stores.
fn add_stored_case(
    alloc: Global,
    expressions: &mut Arena<Expression>,
    cases: &mut Vec<SwitchCase>,
    inputs: &Inputs,
    more: Handle<Expression>,
) -> Result<()> {
    let mut body = Block::new(alloc);
    add_store(expressions, &mut body, inputs, more)?;
    cases.push(case(SwitchValue::U32(0), body))?;
    Ok(())
}

/// Adds the default case, which breaks.
fn add_default_case(alloc: Global, cases: &mut Vec<SwitchCase>) -> Result<()> {
    let mut body = Block::new(alloc);
    push(&mut body, Statement::Break, "break;")?;
    cases.push(case(SwitchValue::Default, body))?;
    Ok(())
}

/// Returns a case that does not fall through.
fn case(value: SwitchValue, body: Block) -> SwitchCase {
    SwitchCase {
        value,
        body,
        fall_through: false,
    }
}

/// Adds `sums[1] = more;` to a block.
fn add_store(
    expressions: &mut Arena<Expression>,
    block: &mut Block,
    inputs: &Inputs,
    value: Handle<Expression>,
) -> Result<()> {
    let mut emitter = Emitter::default();
    emitter.start(expressions);
    let (base, index) = (inputs.sums, 1);
    let access = Expression::AccessIndex { base, index };
    let pointer = append(expressions, access, "sums[1]")?;
    block.extend(emitter.finish(expressions))?;
    push(
        block,
        Statement::Store { pointer, value },
        "sums[1] = more;",
    )?;
    Ok(())
}

/// Appends a statement to a block, with the span of this part of the source.
fn push(block: &mut Block, statement: Statement, part: &str) -> Result<(), AllocError> {
    block.push(statement, span_of(part))
}
