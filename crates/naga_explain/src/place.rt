//! The place of an invalid handle, with the item that contains it.
ghost use Rattle.std.specs.Prelude.{◌≡◌, option_copied};
ghost use Rattle.std.specs.Fmt.{DisplaysOnOk, WritesOnOk};
ghost use Rattle.naga_explain.specs.Messages.{item_text, located_text, name_of_argument, owner_text, statement_text};
ghost use Rattle.naga_valid.specs.Messages.{name_text};

use crate::item::Item;
use naga_flow::StatementPath;
use naga_ir::{Function, Module};
use naga_valid::{Part, Place};
use std::fmt;

/// Writes a place with the names of a module, and with an item of it if there is one, as in
/// `function 1 "f", body[4].accept[1]`.
pub(crate) fn write_place<W: fmt::Write>(
    f: &mut fmt::Formatter<W>,
    place: &Place,
    item: Option<Item>,
    module: &Module,
) -> fmt::Result
    ensures { DisplaysOnOk W.write_str_gives f.old result (located_text «module».now place.now item) f.new }
{
    match item {
        Some(item) => {
            write_owner(f, place, module)?;
            write_item(f, item, place.function(module))
        }
        None => place.write_named(f, module),
    }
}

/// Writes the function or entry point that contains a place, with its name and a comma. Writes nothing for any other
/// place.
fn write_owner<W: fmt::Write>(
    f: &mut fmt::Formatter<W>,
    place: &Place,
    module: &Module,
) -> fmt::Result
    ensures { DisplaysOnOk W.write_str_gives f.old result (owner_text «module».now place.now) f.new }
{
    match place {
        Place::Function(_, _) | Place::EntryPointFunction(_, _) => {
            place.write_named_element(f, module)?;
            f.write_str(", ")
        }
        _ => Ok(()),
    }
}

/// Writes an item, with its name. `function` is the function that contains it, if it is an item of one.
fn write_item<W: fmt::Write>(
    f: &mut fmt::Formatter<W>,
    item: Item,
    function: Option<&Function>,
) -> fmt::Result
    ensures { DisplaysOnOk W.write_str_gives f.old result (item_text (option_copied function.entry) item) f.new }
{
    match item {
        Item::Statement(number) => write_path(f, number, function),
        Item::Argument(position) => {
            write!(f, "argument {position}")?;
            write_name(f, name_of_argument(position, function))
        }
        Item::NamedExpression(handle) => {
            handle.write_prefixed(f, "named expression ")?;
            match function {
                Some(function) => write_name(f, Part::Expression(handle).name(function)),
                None => Ok(()),
            }
        }
        Item::Comment(reference) => write!(f, "doc comment on {reference}"),
    }
}

/// Writes the path to the statement of a function with this number.
fn write_path<W: fmt::Write>(
    f: &mut fmt::Formatter<W>,
    number: u64,
    function: Option<&Function>,
) -> fmt::Result
    ensures { WritesOnOk W.write_str_gives f.old result (statement_text (option_copied function.entry) number) f.new }
{
    match function {
        Some(function) => {
            let path = StatementPath::new(&function.body, number);
            write!(f, "{path}")
        }
        None => f.write_str("body"),
    }
}

/// Returns the name of the argument of a function at a position.
fn name_of_argument(position: usize, function: Option<&Function>) -> Option<&str>
    ensures { option_copied result ≡ name_of_argument (option_copied function.entry) position }
{
    match function?.arguments.get(position) {
        Some(argument) => argument.name.as_deref(),
        None => None,
    }
}

/// Writes a space and a name in quotes, if there is a name.
fn write_name<W: fmt::Write>(f: &mut fmt::Formatter<W>, name: Option<&str>) -> fmt::Result
    ensures { DisplaysOnOk W.write_str_gives f.old result (name_text (option_copied name.entry)) f.new }
{
    match name {
        Some(name) => write!(f, " {name:?}"),
        None => Ok(()),
    }
}
