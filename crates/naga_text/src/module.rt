//! The text of a module.
ghost use Rattle.std.specs.Prelude.{◌≡◌, ◌++◌, IfOk, OnOk, option_copied, string_bytes};
ghost use Rattle.naga_text.specs.Readable.{IsReadable};
ghost use Rattle.naga_text.specs.Module.{declaration_lines, definition_lines, module_text, module_text_compared, text_after};

use crate::element::{push_arena, push_types};
use crate::function::{push_entry_points, push_functions};
use crate::text::Text;
use naga_ir::Module;
use std::alloc::{AllocError, Global};

/// Returns a module as readable text: a line for each declaration, and the lines of each function.
///
/// Names are escaped as [`Text::push_escaped`] writes them. So the text contains no control character other than the
/// newlines at the ends of its lines, no line or paragraph separator, and no mark that turns the direction of the text.
///
/// Behind the handle of an expression is its type: the name of the type in quotes or, if it has none, WGSL's words for a
/// scalar, a vector, a matrix, an atomic or a pointer, and the handle of any other type. It is `?` from the first
/// expression of a function on that has no type.
///
/// The handles in the module need not be valid. Special types, diagnostic filters and doc comments are left out.
///
/// Returns `Err` if allocation fails.
pub fn module_text(alloc: Global, module: &Module) -> Result<String, AllocError>
    ensures text { IfOk result (λ text. string_bytes text ≡ module_text «module».now) }
    ensures readable { IfOk result (λ text. IsReadable (string_bytes text)) }
{
    text_after(alloc, None, module)
}

/// Returns a module as [`module_text`] does, with ` // inserted` after each return that an old module does not have at the
/// same place.
///
/// A function is compared with the old function that has the same handle, if the two have the same name, or none has one,
/// and an entry point with the old one at the same position. The place of a statement is its position in its block, and the
/// place of this block, which is its index among the blocks of the statement that contains it and the place of that
/// statement. A block without a counterpart at its place gets no marks. So a module that is compared with itself gets none,
/// and one that is compared with what it was before its blocks were closed gets one at each return that closing has
/// inserted.
///
/// The handles in the modules need not be valid.
///
/// Returns `Err` if allocation fails.
pub fn module_text_compared(alloc: Global, old: &Module, new: &Module) -> Result<String, AllocError>
    ensures text { IfOk result (λ text. string_bytes text ≡ module_text_compared old.now new.now) }
    ensures readable { IfOk result (λ text. IsReadable (string_bytes text)) }
{
    text_after(alloc, Some(old), new)
}

/// Returns a module as text, with marks if there is an old module with which it is compared.
fn text_after(alloc: Global, old: Option<&Module>, module: &Module) -> Result<String, AllocError>
    ensures text { IfOk result (λ text. string_bytes text ≡ text_after (option_copied old.entry) «module».now) }
    ensures readable { IfOk result (λ text. IsReadable (string_bytes text)) }
{
    let mut text = Text::new(alloc);
    push_module(&mut text, old, module)?;
    Ok(text.finish())
}

/// Appends the lines of a module.
fn push_module(text: &mut Text, old: Option<&Module>, module: &Module) -> Result<(), AllocError>
    ensures { OnOk result (text.new ≡ text.old ++ text_after (option_copied old.entry) «module».now) }
{
    push_declarations(text, module)?;
    push_definitions(text, old, module)
}

/// Appends the lines of the types, the constants, the overrides and the global variables.
fn push_declarations(text: &mut Text, module: &Module) -> Result<(), AllocError>
    ensures { OnOk result (text.new ≡ text.old ++ declaration_lines «module».now) }
{
    push_types(text, &module.types)?;
    push_arena(text, &module.constants)?;
    push_arena(text, &module.overrides)?;
    push_arena(text, &module.global_variables)
}

/// Appends the lines of the global expressions, the functions and the entry points.
fn push_definitions(
    text: &mut Text,
    old: Option<&Module>,
    module: &Module,
) -> Result<(), AllocError>
    ensures { OnOk result (text.new ≡ text.old ++ definition_lines (option_copied old.entry) «module».now) }
{
    push_arena(text, &module.global_expressions)?;
    push_functions(text, old, module, &module.functions)?;
    push_entry_points(text, old, module, &module.entry_points)
}
