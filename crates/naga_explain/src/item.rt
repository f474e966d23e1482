//! The item of a part of a module that contains the handle at fault.
ghost use Rattle.std.specs.Prelude.{◌≡◌};
ghost use Rattle.naga_explain.specs.Items.{IsItemAtFault, IsItemInPart, IsItemInPlace, argument_of_type, reference_at_fault};

use crate::statements::first_statement;
use naga_arena::Handle;
use naga_ir::{Expression, Function, Module, Type};
use naga_valid::{InvalidHandle, Part, Place, Reference};

/// An item of a [`Place`] that has several.
///
/// Differs from naga: naga has no such type.
#[derive(Clone, Copy, Debug, PartialEq, Eq, Drop)]
pub enum Item {
    /// The statement of a body with this number: that of the statements that are read before, up to `u64::MAX`. A
    /// statement is read before the statements of its blocks, and these before what follows it.
    Statement(u64),
    /// The argument at a position.
    Argument(usize),
    /// An expression as a key of `named_expressions`.
    NamedExpression(Handle<Expression>),
    /// The doc comment on an element.
    Comment(Reference),
}

/// Returns the first item that contains the handle or range at fault, of the place of the error.
///
/// Returns `None` if the place has no several items, or if no item contains it.
pub(crate) fn item_at_fault(module: &Module, error: &InvalidHandle) -> Option<Item>
    ensures { IsItemAtFault «module».now error.now result }
{
    match reference_at_fault(error) {
        Some(reference) => item_in_place(module, error.place(), reference),
        None => None,
    }
}

/// Returns the handle or range at fault, if it is in the place of the error itself.
pub(crate) fn reference_at_fault(error: &InvalidHandle) -> Option<Reference>
    ensures { result ≡ reference_at_fault error.now }
{
    match error {
        InvalidHandle::BadHandle { handle, .. } => Some(*handle),
        InvalidHandle::BadRange { start, end, .. } => Some(Reference::Expressions {
            start: *start,
            end: *end,
        }),
        InvalidHandle::ForwardDependency { handle, .. } => Some(*handle),
        InvalidHandle::NotConstant { .. }
        | InvalidHandle::InitDependency { .. }
        | InvalidHandle::SizeDependency { .. }
        | InvalidHandle::OverrideDependency { .. } => None,
    }
}

/// Returns the first item of a place that contains this handle or range.
fn item_in_place(module: &Module, place: Place, reference: Reference) -> Option<Item>
    ensures { IsItemInPlace «module».now place reference result }
{
    match place {
        Place::Function(handle, part) => match module.functions.try_get(handle) {
            Ok(function) => item_in_part(function, part, reference),
            Err(_) => None,
        },
        Place::EntryPointFunction(position, part) => match module.entry_points.get(position) {
            Some(entry_point) => item_in_part(&entry_point.function, part, reference),
            None => None,
        },
        Place::TypeComments | Place::FunctionComments => Some(Item::Comment(reference)),
        Place::ConstantComments | Place::GlobalVariableComments => Some(Item::Comment(reference)),
        Place::Type(_) | Place::SpecialTypes | Place::Constant(_) | Place::Override(_) => None,
        Place::GlobalVariable(_) | Place::GlobalExpression(_) | Place::EntryPoint(_) => None,
        Place::DiagnosticFilter(_) | Place::DiagnosticFilterLeaf | Place::MemberComments => None,
    }
}

/// Returns the first item of a part of a function that contains this handle or range.
fn item_in_part(function: &Function, part: Part, reference: Reference) -> Option<Item>
    ensures { IsItemInPart function.now part reference result }
{
    match part {
        Part::Body => match first_statement(&function.body, reference) {
            Some(number) => Some(Item::Statement(number)),
            None => None,
        },
        Part::Arguments => match reference {
            Reference::Type(ty) => match argument_of_type(function, ty) {
                Some(position) => Some(Item::Argument(position)),
                None => None,
            },
            _ => None,
        },
        Part::NamedExpressions => match reference {
            Reference::Expression(handle) => Some(Item::NamedExpression(handle)),
            _ => None,
        },
        Part::Result | Part::LocalVariable(_) | Part::Expression(_) => None,
        Part::DiagnosticFilterLeaf => None,
    }
}

/// Returns the position of the first argument of a function that has this type.
fn argument_of_type(function: &Function, ty: Handle<Type>) -> Option<usize>
    ensures { result ≡ argument_of_type function.now ty }
{
    function
        .arguments
        .iter()
        .position(|argument| argument.ty == ty)
}
