//! The texts of functions and entry points.
ghost use Rattle.std.specs.Prelude.{◌≡◌, ◌++◌, OnOk, Some, codes, flat_map, option_copied, slice_get, string_bytes};
ghost use Rattle.std.specs.Option.{option_map};
ghost use Rattle.naga_ir.specs.View.{tree_of};
ghost use Rattle.naga_text.specs.Blocks.{tree_text};
ghost use Rattle.naga_text.specs.Counterparts.{optional_tree};
ghost use Rattle.naga_text.specs.Types.{optional_binding, type_text};
ghost use Rattle.std.specs.List.{enumerate_from};
ghost use Rattle.naga_arena.specs.Arena.{value_at, values};
ghost use Rattle.naga_text.specs.Module.{body_before, body_if_named, braced, entry_body, entry_body_before, entry_point_lines, expression_line, function_body, function_lines, numbers, result_line, signature_lines, stage_text};
ghost use Rattle.naga_text.specs.Expressions.{expression_text};
ghost use Rattle.naga_text.specs.Operands.{between};
ghost use Rattle.naga_text.specs.Resolved.{resolved_text, types_in};
ghost use Rattle.naga_text.specs.Words.{name_text, number, quoted};
ghost use Rattle.naga_valid.specs.ElementNames.{name_of_part};
ghost use Rattle.naga_valid.specs.declared.place.Part.TheVariants as part;

use crate::body::push_block;
use crate::element::{Element, push_arena, push_list};
use crate::expression::push_expression;
use crate::operands::{push_element, push_references};
use crate::resolved::{push_resolved, types_in};
use crate::text::Text;
use crate::types::{push_declared, push_typed};
use naga_arena::{Arena, Handle, UniqueArena};
use naga_ir::{
    Block, EntryPoint, Expression, Function, FunctionArgument, FunctionResult, LocalVariable,
    Module, Type,
};
use naga_kinds::PlainKind;
use naga_typifier::{TypeResolution, Typifier};
use naga_valid::Part;
use std::alloc::AllocError;

/// Appends the lines of functions, with marks if there is an old module.
pub(crate) fn push_functions(
    text: &mut Text,
    old: Option<&Module>,
    owner: &Module,
    functions: &Arena<Function>,
) -> Result<(), AllocError>
    ensures { OnOk result (text.new ≡ text.old
        ++ flat_map (function_lines (option_copied old.entry) owner.now) (enumerate_from 0 (values functions.now))) }
{
    for (handle, function) in functions.iter() {
        push_function(text, old, owner, handle, function)?;
    }
    Ok(())
}

/// Appends the lines of a function, with marks if there is an old module.
fn push_function(
    text: &mut Text,
    old: Option<&Module>,
    owner: &Module,
    handle: Handle<Function>,
    function: &Function,
) -> Result<(), AllocError>
    ensures { OnOk result (text.new ≡ text.old
        ++ function_lines (option_copied old.entry) owner.now (handle, function.now)) }
{
    push_declared(text, "function", handle.index(), &function.name)?;
    push_braced(text, body_before(old, handle, function), owner, function)
}

/// Returns the body of the old function with which a function is compared, or `None` if there is none.
pub fn body_before<'a>(
    old: Option<&'a Module>,
    handle: Handle<Function>,
    function: &Function,
) -> Option<&'a Block>
    ensures { optional_tree (option_copied result) ≡ body_before (option_copied old.entry) (handle, function.now) }
{
    match old {
        Some(module) => named_body(&module.functions, handle, &function.name),
        None => None,
    }
}

/// Returns the body of the function with this handle, if it is there and has this name.
fn named_body<'a>(
    functions: &'a Arena<Function>,
    handle: Handle<Function>,
    name: &Option<String>,
) -> Option<&'a Block>
    ensures { optional_tree (option_copied result) ≡ body_if_named name.now (value_at functions.now handle) }
{
    match functions.try_get(handle) {
        Ok(function) => body_if_named(function, name),
        Err(_) => None,
    }
}

/// Returns the body of a function, if it has this name.
fn body_if_named<'a>(function: &'a Function, name: &Option<String>) -> Option<&'a Block>
    ensures { optional_tree (option_copied result) ≡ body_if_named name.now (Some function.now) }
{
    if function.name == *name {
        Some(&function.body)
    } else {
        None
    }
}

/// Appends the lines of entry points, with marks if there is an old module.
pub(crate) fn push_entry_points(
    text: &mut Text,
    old: Option<&Module>,
    owner: &Module,
    entry_points: &[EntryPoint],
) -> Result<(), AllocError>
    ensures { OnOk result (text.new ≡ text.old
        ++ flat_map (entry_point_lines (option_copied old.entry) owner.now) (enumerate_from 0 entry_points.now)) }
{
    for (position, entry_point) in entry_points.iter().enumerate() {
        push_entry_point(text, old, owner, position, entry_point)?;
    }
    Ok(())
}

/// Appends the lines of an entry point, with marks if there is an old module.
fn push_entry_point(
    text: &mut Text,
    old: Option<&Module>,
    owner: &Module,
    position: usize,
    entry_point: &EntryPoint,
) -> Result<(), AllocError>
    ensures { OnOk result (text.new ≡ text.old
        ++ entry_point_lines (option_copied old.entry) owner.now (position, entry_point.now)) }
{
    push_entry_point_name(text, position, &entry_point.name)?;
    push_stage(text, entry_point)?;
    push_braced(
        text,
        entry_body_before(old, position),
        owner,
        &entry_point.function,
    )
}

/// Returns the body of the old entry point with which an entry point is compared, or `None` if there is none.
pub fn entry_body_before(old: Option<&Module>, position: usize) -> Option<&Block>
    ensures { optional_tree (option_copied result) ≡ entry_body_before (option_copied old.entry) position }
{
    match old {
        Some(module) => entry_body_at(&module.entry_points, position),
        None => None,
    }
}

/// Returns the body of the entry point at a position, or `None` if there is none.
fn entry_body_at(entry_points: &[EntryPoint], position: usize) -> Option<&Block>
    ensures { optional_tree (option_copied result) ≡ option_map entry_body (slice_get entry_points.now position) }
{
    match entry_points.get(position) {
        Some(entry_point) => Some(&entry_point.function.body),
        None => None,
    }
}

impl Element for FunctionArgument {
    ghost use Rattle.naga_text.specs.Module.{argument_line};

    ghost lines = { argument_line };

    fn push(&self, text: &mut Text, index: usize) -> Result<(), AllocError> {
        push_declared(text, "    argument", index, &self.name)?;
        push_typed(text, self.ty, &self.binding)?;
        text.push("\n")
    }
}

impl Element for LocalVariable {
    ghost use Rattle.naga_text.specs.Module.{local_line};

    ghost lines = { local_line };

    fn push(&self, text: &mut Text, index: usize) -> Result<(), AllocError> {
        push_declared(text, "    local", index, &self.name)?;
        push_references(text, self)?;
        text.push("\n")
    }
}

/// Appends the position of an entry point, and its name in quotes.
///
/// Returns `Err` if allocation fails.
pub fn push_entry_point_name(
    text: &mut Text,
    position: usize,
    name: &String,
) -> Result<(), AllocError>
    ensures { OnOk result (text.new ≡ text.old
        ++ (codes "entry point" ++ (number position ++ quoted (string_bytes name.now)))) }
{
    text.push("entry point")?;
    text.push_index(position)?;
    text.push_quoted(name.as_str())
}

/// Appends the stage of an entry point, and the size of its workgroups.
fn push_stage(text: &mut Text, entry_point: &EntryPoint) -> Result<(), AllocError>
    ensures { OnOk result (text.new ≡ text.old ++ stage_text entry_point.now) }
{
    text.push_word(entry_point.stage.name())?;
    text.push(" workgroup")?;
    push_numbers(text, &entry_point.workgroup_size)
}

/// Appends three numbers.
fn push_numbers(text: &mut Text, list: &[u32; 3]) -> Result<(), AllocError>
    ensures { OnOk result (text.new ≡ text.old ++ numbers list.now) }
{
    text.push_index(list[0] as usize)?;
    text.push_index(list[1] as usize)?;
    text.push_index(list[2] as usize)
}

/// Appends the lines of a function in braces. If `old` is the counterpart of its body, returns that it lacks are marked.
fn push_braced(
    text: &mut Text,
    old: Option<&Block>,
    owner: &Module,
    function: &Function,
) -> Result<(), AllocError>
    ensures { OnOk result (text.new ≡ text.old
        ++ braced (optional_tree (option_copied old.entry)) owner.now function.now) }
{
    text.push(" {\n")?;
    push_body(text, old, owner, function)?;
    text.push("}\n")
}

/// Appends the lines of a function.
fn push_body(
    text: &mut Text,
    old: Option<&Block>,
    owner: &Module,
    function: &Function,
) -> Result<(), AllocError>
    ensures { OnOk result (text.new ≡ text.old
        ++ function_body (optional_tree (option_copied old.entry)) owner.now function.now) }
{
    push_signature(text, function)?;
    push_expressions(text, owner, function)?;
    push_statements(text, old, function)
}

/// Appends the lines of a function's body.
fn push_statements(
    text: &mut Text,
    old: Option<&Block>,
    function: &Function,
) -> Result<(), AllocError>
    ensures { OnOk result (text.new ≡ text.old
        ++ tree_text (codes "    ") (optional_tree (option_copied old.entry)) (tree_of function.now.body)) }
{
    let margin = text.margin()?;
    push_block(text, &margin, old, &function.body)
}

/// Appends the lines of a function's arguments, result and local variables.
fn push_signature(text: &mut Text, function: &Function) -> Result<(), AllocError>
    ensures { OnOk result (text.new ≡ text.old ++ signature_lines function.now) }
{
    push_list(text, &function.arguments)?;
    push_result(text, &function.result)?;
    push_arena(text, &function.local_variables)
}

/// Appends the line of a result, if there is one.
fn push_result(text: &mut Text, declared: &Option<FunctionResult>) -> Result<(), AllocError>
    ensures { OnOk result (text.new ≡ text.old ++ result_line declared.now) }
{
    match declared {
        Some(declared) => push_present_result(text, declared),
        None => Ok(()),
    }
}

/// Appends the line of a result.
fn push_present_result(text: &mut Text, declared: &FunctionResult) -> Result<(), AllocError>
    ensures { OnOk result (text.new ≡ text.old ++ (codes "    result"
        ++ ((type_text declared.now.ty ++ optional_binding declared.now.binding) ++ codes "\n"))) }
{
    text.push("    result")?;
    push_typed(text, declared.ty, &declared.binding)?;
    text.push("\n")
}

/// Appends the lines of a function's expressions.
fn push_expressions(text: &mut Text, owner: &Module, function: &Function) -> Result<(), AllocError>
    ensures { OnOk result (text.new ≡ text.old
        ++ flat_map (expression_line owner.now.types (types_in owner.now function.now) function.now)
        (enumerate_from 0 (values function.now.expressions))) }
{
    let resolved = types_in(text.allocator(), owner, function)?;
    push_typed_expressions(text, &owner.types, &resolved, function)
}

/// Appends the lines of a function's expressions, of which these are the types.
fn push_typed_expressions(
    text: &mut Text,
    types: &UniqueArena<Type>,
    resolved: &Typifier,
    function: &Function,
) -> Result<(), AllocError>
    ensures { OnOk result (text.new ≡ text.old
        ++ flat_map (expression_line types.now resolved.now function.now)
        (enumerate_from 0 (values function.now.expressions))) }
{
    for (handle, expression) in function.expressions.iter() {
        push_expression_line(text, types, resolved, function, handle, expression)?;
    }
    Ok(())
}

/// Appends the line of an expression.
fn push_expression_line(
    text: &mut Text,
    types: &UniqueArena<Type>,
    resolved: &Typifier,
    function: &Function,
    handle: Handle<Expression>,
    expression: &Expression,
) -> Result<(), AllocError>
    ensures { OnOk result (text.new ≡ text.old
        ++ expression_line types.now resolved.now function.now (handle, expression.now)) }
{
    push_handle(text, function, handle)?;
    push_type(text, types, resolved.get(handle))?;
    push_definition(text, expression)
}

/// Appends a colon and the type of an expression, if it has one.
fn push_type(
    text: &mut Text,
    types: &UniqueArena<Type>,
    resolved: Option<&TypeResolution>,
) -> Result<(), AllocError>
    ensures { OnOk result (text.new ≡ text.old ++ (codes ":" ++ resolved_text types.now (option_copied resolved.entry))) }
{
    text.push(":")?;
    push_resolved(text, types, resolved)
}

/// Appends the definition of an expression.
fn push_definition(text: &mut Text, expression: &Expression) -> Result<(), AllocError>
    ensures { OnOk result (text.new ≡ text.old ++ (codes " = " ++ (expression_text expression.now ++ codes "\n"))) }
{
    text.push(" = ")?;
    push_expression(text, expression)?;
    text.push("\n")
}

/// Appends the handle of an expression, and its name if it has one.
fn push_handle(
    text: &mut Text,
    function: &Function,
    handle: Handle<Expression>,
) -> Result<(), AllocError>
    ensures { OnOk result (text.new ≡ text.old ++ (between (codes "    [") handle (codes "]")
        ++ name_text (name_of_part function.now (part.Expression handle)))) }
{
    push_element(text, "    [", handle.index(), "]")?;
    push_found_name(text, Part::Expression(handle).name(function))
}

/// Appends a space and a name in quotes, if there is one.
///
/// Returns `Err` if allocation fails. The text may then end with a part of this.
pub fn push_found_name(text: &mut Text, name: Option<&str>) -> Result<(), AllocError>
    ensures { OnOk result (text.new ≡ text.old ++ name_text (option_copied name.entry)) }
{
    match name {
        Some(name) => text.push_quoted(name),
        None => Ok(()),
    }
}
