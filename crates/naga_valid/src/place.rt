//! The parts of a module that contain handles.
ghost use Rattle.std.specs.Prelude.{◌≡◌, option_copied, option_map, slice_get, string_bytes};
ghost use Rattle.naga_valid.specs.ElementNames.{name_of_part, name_of_place};

mod display;

pub use display::DisplayPlace;
use naga_arena::Handle;
use naga_ir::{
    Constant, DiagnosticFilterNode, Expression, Function, GlobalVariable, LocalVariable, Module,
    Override, Type,
};
use std::fmt;

/// A part of a module that contains handles.
#[derive(Clone, Copy, Debug, PartialEq, Eq)]
pub enum Place {
    /// An element of `types`.
    Type(Handle<Type>),
    /// The module's `special_types`.
    SpecialTypes,
    /// An element of `constants`.
    Constant(Handle<Constant>),
    /// An element of `overrides`.
    Override(Handle<Override>),
    /// An element of `global_variables`.
    GlobalVariable(Handle<GlobalVariable>),
    /// An element of `global_expressions`.
    GlobalExpression(Handle<Expression>),
    /// A part of an element of `functions`.
    Function(Handle<Function>, Part),
    /// The entry point at a position, without its function.
    EntryPoint(usize),
    /// A part of the function of the entry point at a position.
    EntryPointFunction(usize, Part),
    /// An element of `diagnostic_filters`.
    DiagnosticFilter(Handle<DiagnosticFilterNode>),
    /// The module's `diagnostic_filter_leaf`.
    DiagnosticFilterLeaf,
    /// The keys of the doc comments on types.
    TypeComments,
    /// The types in the keys of the doc comments on members of structures.
    MemberComments,
    /// The keys of the doc comments on functions.
    FunctionComments,
    /// The keys of the doc comments on constants.
    ConstantComments,
    /// The keys of the doc comments on global variables.
    GlobalVariableComments,
}

/// A part of a function that contains handles.
#[derive(Clone, Copy, Debug, PartialEq, Eq)]
pub enum Part {
    /// The types of the arguments.
    Arguments,
    /// The type of the result.
    Result,
    /// An element of `local_variables`.
    LocalVariable(Handle<LocalVariable>),
    /// An element of `expressions`.
    Expression(Handle<Expression>),
    /// The keys of `named_expressions`.
    NamedExpressions,
    /// The statements of the body, and those of the blocks inside them.
    Body,
    /// The function's `diagnostic_filter_leaf`.
    DiagnosticFilterLeaf,
}

impl Place {
    /// Returns the name of the element of `module` that this place is. For a place in a function or in an entry point,
    /// it is the name of that function or entry point.
    ///
    /// Returns `None` if the element is not in the module or has no name.
    pub fn name<'a>(&self, module: &'a Module) -> Option<&'a str>
        ensures { option_copied result ≡ name_of_place «module».now self.now }
    {
        match self {
            Place::Type(handle) => match module.types.get_handle(*handle) {
                Ok(ty) => return ty.name.as_deref(),
                Err(_) => return None,
            },
            Place::Constant(handle) => match module.constants.try_get(*handle) {
                Ok(constant) => return constant.name.as_deref(),
                Err(_) => return None,
            },
            Place::Override(handle) => match module.overrides.try_get(*handle) {
                Ok(declared) => return declared.name.as_deref(),
                Err(_) => return None,
            },
            Place::GlobalVariable(handle) => match module.global_variables.try_get(*handle) {
                Ok(variable) => return variable.name.as_deref(),
                Err(_) => return None,
            },
            Place::Function(handle, _) => match module.functions.try_get(*handle) {
                Ok(function) => return function.name.as_deref(),
                Err(_) => return None,
            },
            Place::EntryPoint(position) => return name_of_entry_point(module, *position),
            Place::EntryPointFunction(position, _) => {
                return name_of_entry_point(module, *position);
            }
            Place::SpecialTypes | Place::GlobalExpression(_) => return None,
            Place::DiagnosticFilter(_) | Place::DiagnosticFilterLeaf => return None,
            Place::TypeComments | Place::MemberComments | Place::FunctionComments => return None,
            Place::ConstantComments | Place::GlobalVariableComments => return None,
        }
    }
}

/// Returns the name of the entry point at a position, if there is one.
fn name_of_entry_point(module: &Module, position: usize) -> Option<&str>
    ensures { option_copied result
        ≡ option_map (λ entry. string_bytes entry.name) (slice_get «module».now.entry_points.items position) }
{
    match module.entry_points.get(position) {
        Some(entry_point) => Some(entry_point.name.as_str()),
        None => None,
    }
}

impl Part {
    /// Returns the name of the local variable that this part of `function` is, or the one that `named_expressions` has
    /// for the expression that it is.
    ///
    /// Returns `None` for any other part, and if the local variable is not there or there is no name.
    pub fn name<'a>(&self, function: &'a Function) -> Option<&'a str>
        ensures { option_copied result ≡ name_of_part function.now self.now }
    {
        match self {
            Part::LocalVariable(handle) => match function.local_variables.try_get(*handle) {
                Ok(variable) => return variable.name.as_deref(),
                Err(_) => return None,
            },
            Part::Expression(handle) => match function.named_expressions.get(handle) {
                Some(name) => return Some(name.as_str()),
                None => return None,
            },
            Part::Arguments | Part::Result | Part::NamedExpressions => return None,
            Part::Body | Part::DiagnosticFilterLeaf => return None,
        }
    }
}

impl fmt::Display for Part {
    ghost use Rattle.std.specs.Prelude.{Some};
    ghost use Rattle.naga_valid.specs.Messages.{part_text};

    ghost output = { λ part. Some (part_text part) };

    fn fmt<W: fmt::Write>(&self, f: &mut fmt::Formatter<W>) -> fmt::Result {
        match self {
            Part::Arguments => f.write_str("arguments"),
            Part::Result => f.write_str("result"),
            Part::LocalVariable(handle) => handle.write_prefixed(f, "local variable "),
            Part::Expression(handle) => handle.write_prefixed(f, "expression "),
            Part::NamedExpressions => f.write_str("named expressions"),
            Part::Body => f.write_str("body"),
            Part::DiagnosticFilterLeaf => f.write_str("diagnostic filter leaf"),
        }
    }
}
