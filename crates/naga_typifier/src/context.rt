//! What the types of the expressions of a function depend on.
ghost use Rattle.std.specs.Prelude.{◌≡◌, option_copied, slice_get};
ghost use Rattle.naga_typifier.specs.Context.{context_of, inner_of};
ghost use Rattle.naga_typifier.specs.Table.{the};

use crate::resolution::{TypeResolution, inner_at};
use naga_arena::{Arena, Handle, UniqueArena};
use naga_ir::{
    AddressSpace, Constant, EntryPoint, Expression, Function, FunctionArgument, GlobalVariable,
    LocalVariable, Module, Override, SpecialTypes, Type, TypeInner,
};
use naga_sets::HandleVec;

/// The parts of a module and of a function on which the types of the function's expressions depend.
#[derive(Clone, Copy)]
pub struct ResolveContext<'a> {
    pub constants: &'a Arena<Constant>,
    pub overrides: &'a Arena<Override>,
    pub types: &'a UniqueArena<Type>,
    pub special_types: &'a SpecialTypes,
    pub global_vars: &'a Arena<GlobalVariable>,
    pub local_vars: &'a Arena<LocalVariable>,
    pub functions: &'a Arena<Function>,
    pub arguments: &'a [FunctionArgument],
}

/// The types of the first expressions of an arena.
pub(crate) type Known = HandleVec<Expression, TypeResolution>;

impl<'a> ResolveContext<'a> {
    /// Returns the context of the expressions of a function of a module.
    pub fn with_function(owner: &'a Module, function: &'a Function) -> Self
        ensures constants { result.constants.now ≡ owner.now.constants }
        ensures overrides { result.overrides.now ≡ owner.now.overrides }
        ensures types { result.types.now ≡ owner.now.types }
        ensures special_types { result.special_types.now ≡ owner.now.special_types }
        ensures global_vars { result.global_vars.now ≡ owner.now.global_variables }
        ensures local_vars { result.local_vars.now ≡ function.now.local_variables }
        ensures functions { result.functions.now ≡ owner.now.functions }
        ensures arguments { result.arguments.now ≡ function.now.arguments.items }
    {
        ResolveContext {
            constants: &owner.constants,
            overrides: &owner.overrides,
            types: &owner.types,
            special_types: &owner.special_types,
            global_vars: &owner.global_variables,
            local_vars: &function.local_variables,
            functions: &owner.functions,
            arguments: function.arguments.as_slice(),
        }
    }

    /// Returns the context of the expressions of an entry point of a module.
    pub fn with_entry_point(owner: &'a Module, entry_point: &'a EntryPoint) -> Self
        ensures constants { result.constants.now ≡ owner.now.constants }
        ensures overrides { result.overrides.now ≡ owner.now.overrides }
        ensures types { result.types.now ≡ owner.now.types }
        ensures special_types { result.special_types.now ≡ owner.now.special_types }
        ensures global_vars { result.global_vars.now ≡ owner.now.global_variables }
        ensures local_vars { result.local_vars.now ≡ entry_point.now.function.local_variables }
        ensures functions { result.functions.now ≡ owner.now.functions }
        ensures arguments { result.arguments.now ≡ entry_point.now.function.arguments.items }
    {
        Self::with_function(owner, &entry_point.function)
    }

    /// Returns the contents of the type with this handle, or `None` if it is not in the module.
    pub(crate) fn inner(&self, ty: Handle<Type>) -> Option<&TypeInner>
        ensures { option_copied result ≡ (context_of self.now).types ty }
    {
        inner_at(self.types, ty)
    }

    /// Returns the type of a constant, or `None` if it is not in the module.
    pub(crate) fn constant(&self, handle: Handle<Constant>) -> Option<Handle<Type>>
        ensures { result ≡ (context_of self.now).constants handle }
    {
        match self.constants.try_get(handle) {
            Ok(constant) => Some(constant.ty),
            Err(_) => None,
        }
    }

    /// Returns the type of an override, or `None` if it is not in the module.
    pub(crate) fn value_of_override(&self, handle: Handle<Override>) -> Option<Handle<Type>>
        ensures { result ≡ (context_of self.now).overrides handle }
    {
        match self.overrides.try_get(handle) {
            Ok(declared) => Some(declared.ty),
            Err(_) => None,
        }
    }

    /// Returns the space and the type of a global variable, or `None` if it is not in the module.
    pub(crate) fn global(
        &self,
        handle: Handle<GlobalVariable>,
    ) -> Option<(AddressSpace, Handle<Type>)>
        ensures { result ≡ (context_of self.now).globals handle }
    {
        match self.global_vars.try_get(handle) {
            Ok(variable) => Some((variable.space, variable.ty)),
            Err(_) => None,
        }
    }

    /// Returns the type of a local variable, or `None` if it is not in the function.
    pub(crate) fn local(&self, handle: Handle<LocalVariable>) -> Option<Handle<Type>>
        ensures { result ≡ (context_of self.now).locals handle }
    {
        match self.local_vars.try_get(handle) {
            Ok(variable) => Some(variable.ty),
            Err(_) => None,
        }
    }

    /// Returns the type of an argument, or `None` if the function has no such argument.
    pub(crate) fn argument(&self, index: u32) -> Option<Handle<Type>>
        ensures { result ≡ (context_of self.now).arguments index }
    {
        match self.arguments.get(index as usize) {
            Some(argument) => Some(argument.ty),
            None => None,
        }
    }

    /// Returns the type of the result of a function, if it returns one. Returns `None` if it is not in the module.
    pub(crate) fn result_of(&self, handle: Handle<Function>) -> Option<Option<Handle<Type>>>
        ensures { result ≡ (context_of self.now).results handle }
    {
        match self.functions.try_get(handle) {
            Ok(function) => match &function.result {
                Some(returned) => Some(Some(returned.ty)),
                None => Some(None),
            },
            Err(_) => None,
        }
    }

    /// Returns the contents of a type, or `None` if it is not in the module.
    pub(crate) fn contents<'b>(&'b self, ty: &'b TypeResolution) -> Option<&'b TypeInner>
        ensures { option_copied result ≡ inner_of (context_of self.now) ty.now }
    {
        match ty {
            TypeResolution::Handle(ty) => self.inner(*ty),
            TypeResolution::Value(inner) => Some(inner),
        }
    }

    /// Returns the contents of the type of an operand, or `None` if no type is known or it is not in the module.
    pub(crate) fn inner_at<'b>(
        &'b self,
        known: &'b Known,
        operand: Handle<Expression>,
    ) -> Option<&'b TypeInner>
        ensures { option_copied result ≡ the (context_of self.now) (slice_get known.now) operand }
    {
        self.contents(known.get(operand)?)
    }
}
