//! The texts of places, with and without the names of the elements.
ghost use Rattle.std.specs.Prelude.{◌≡◌, option_copied};
ghost use Rattle.std.specs.Fmt.{DisplaysOnOk, WritesOnOk};
ghost use Rattle.naga_valid.specs.Messages.{element_text, function_of_place, name_inside, name_text, named_element_text, named_place_text, part_of_place};

use super::{Part, Place};
use naga_ir::{Function, Module};
use std::fmt;

impl fmt::Display for Place {
    ghost use Rattle.std.specs.Prelude.{Some};
    ghost use Rattle.naga_valid.specs.Messages.{place_text};

    ghost output = { λ at. Some (place_text at) };

    fn fmt<W: fmt::Write>(&self, f: &mut fmt::Formatter<W>) -> fmt::Result {
        self.write_element(f)?;
        match self.part() {
            Some(part) => write!(f, ", {part}"),
            None => Ok(()),
        }
    }
}

impl Place {
    /// Returns a value that displays this place with the names that `module` has for it, each in quotes after the
    /// element that has it, as in `function 0 "shade", local variable 1 "sum"`.
    pub fn display<'a>(&'a self, module: &'a Module) -> DisplayPlace<'a>
        ensures place { result.place.now ≡ self.now }
        ensures names { result.«module».now ≡ «module».now }
    {
        DisplayPlace {
            place: self,
            module,
        }
    }

    /// Returns the part of a function that this place is.
    fn part(&self) -> Option<&Part>
        ensures { option_copied result ≡ part_of_place self.now }
    {
        match self {
            Place::Function(_, part) | Place::EntryPointFunction(_, part) => Some(part),
            _ => None,
        }
    }

    /// Returns the function of `module` that contains this place, or `None` if there is none.
    pub fn function<'a>(&self, module: &'a Module) -> Option<&'a Function>
        ensures { option_copied result ≡ function_of_place «module».now self.now }
    {
        match self {
            Place::Function(handle, _) => module.functions.try_get(*handle).ok(),
            Place::EntryPointFunction(position, _) => match module.entry_points.get(*position) {
                Some(entry_point) => Some(&entry_point.function),
                None => None,
            },
            _ => None,
        }
    }

    /// Writes this place without the part of a function.
    pub fn write_element<W: fmt::Write>(&self, f: &mut fmt::Formatter<W>) -> fmt::Result
        ensures { WritesOnOk W.write_str_gives f.old result (element_text self.now) f.new }
    {
        match self {
            Place::Type(handle) => handle.write_prefixed(f, "type "),
            Place::SpecialTypes => f.write_str("special types"),
            Place::Constant(handle) => handle.write_prefixed(f, "constant "),
            Place::Override(handle) => handle.write_prefixed(f, "override "),
            Place::GlobalVariable(handle) => handle.write_prefixed(f, "global variable "),
            Place::GlobalExpression(handle) => handle.write_prefixed(f, "global expression "),
            Place::Function(handle, _) => handle.write_prefixed(f, "function "),
            Place::EntryPoint(position) => write!(f, "entry point {position}"),
            Place::EntryPointFunction(position, _) => write!(f, "entry point {position}"),
            Place::DiagnosticFilter(handle) => handle.write_prefixed(f, "diagnostic filter "),
            Place::DiagnosticFilterLeaf => f.write_str("diagnostic filter leaf"),
            Place::TypeComments => f.write_str("doc comments on types"),
            Place::MemberComments => f.write_str("doc comments on members"),
            Place::FunctionComments => f.write_str("doc comments on functions"),
            Place::ConstantComments => f.write_str("doc comments on constants"),
            Place::GlobalVariableComments => f.write_str("doc comments on global variables"),
        }
    }

    /// Writes this place without the part of a function, with the name that `module` has for it.
    pub fn write_named_element<W: fmt::Write>(
        &self,
        f: &mut fmt::Formatter<W>,
        module: &Module,
    ) -> fmt::Result
        ensures { DisplaysOnOk W.write_str_gives f.old result (named_element_text «module».now self.now) f.new }
    {
        self.write_element(f)?;
        write_name(f, self.name(module))
    }

    /// Writes this place with the names that `module` has for it, as [`Place::display`] shows it.
    pub fn write_named<W: fmt::Write>(
        &self,
        f: &mut fmt::Formatter<W>,
        module: &Module,
    ) -> fmt::Result
        ensures { DisplaysOnOk W.write_str_gives f.old result (named_place_text «module».now self.now) f.new }
    {
        self.write_named_element(f, module)?;
        match self.part() {
            Some(part) => {
                write!(f, ", {part}")?;
                write_name(f, self.name_of(part, module))
            }
            None => Ok(()),
        }
    }

    /// Returns the name of the part of a function that this place is.
    fn name_of<'a>(&self, part: &Part, module: &'a Module) -> Option<&'a str>
        ensures { option_copied result ≡ name_inside (function_of_place «module».now self.now) part.now }
    {
        match self.function(module) {
            Some(function) => part.name(function),
            None => None,
        }
    }
}

/// A place that is displayed with the names of a module. [`Place::display`] returns it.
#[derive(Clone, Copy)]
pub struct DisplayPlace<'a> {
    place: &'a Place,
    module: &'a Module,
}

impl<'a> fmt::Display for DisplayPlace<'a> {
    ghost use Rattle.naga_valid.specs.Messages.{named_place_text};

    ghost output = { λ shown. named_place_text shown.«module».now shown.place.now };

    fn fmt<W: fmt::Write>(&self, f: &mut fmt::Formatter<W>) -> fmt::Result {
        self.place.write_named(f, self.module)
    }
}

/// Writes a space and a name in quotes, if there is a name.
fn write_name<W: fmt::Write>(f: &mut fmt::Formatter<W>, name: Option<&str>) -> fmt::Result
    ensures { DisplaysOnOk W.write_str_gives f.old result (name_text (option_copied name.entry)) f.new }
{
    match name {
        Some(name) => write!(f, " {name:?}"),
        None => Ok(()),
    }
}
