//! A function with the types of its expressions.
ghost use Rattle.std.specs.Prelude.{◌≡◌, option_copied, option_and_then, slice_get};
ghost use Rattle.std.specs.Option.{option_map};
ghost use Rattle.naga_typifier.specs.Math.{size_in};
ghost use Rattle.naga_typifier.specs.Rows.{handle, loaded, scalar_behind, scalar_in, sized};
ghost use Rattle.naga_typifier.specs.Table.{same, the};
ghost use Rattle.naga_typing.specs.Requirements.{atomic_at, atomic_behind, atomic_of, coordinate_size, dimension_of, exchange_result, sized_type, texel_at, wanted};
ghost use Rattle.naga_typing.specs.TypedFunctions.{context_of, signature_of, types_of};

use crate::form::contents_at;
use crate::requirement::Source;
use crate::{kinds, rows};
use naga_arena::Handle;
use naga_ir::{
    Expression, Function, Module, PredeclaredType, Scalar, SwitchValue, Type, TypeInner, VectorSize,
};
use naga_typifier::{TypeResolution, Typifier};

/// A function of a module, with the types of its expressions.
#[derive(Clone, Copy)]
pub(crate) struct TypedFunction<'a> {
    pub(crate) module: &'a Module,
    pub(crate) function: &'a Function,
    /// The types of the expressions of the function.
    pub(crate) known: &'a Typifier,
}

impl TypedFunction<'_> {
    /// Returns the contents of the type of an operand, or `None` if no type is known or it is not in the module.
    pub(crate) fn contents(&self, operand: Handle<Expression>) -> Option<&TypeInner>
        ensures { option_copied result ≡ the (context_of self.now) (types_of self.now) operand }
    {
        match self.known.get(operand) {
            Some(ty) => ty.get_inner(&self.module.types),
            None => None,
        }
    }

    /// Returns the contents of a declared type, or `None` if it is not in the module.
    pub(crate) fn declared(&self, ty: Handle<Type>) -> Option<&TypeInner>
        ensures { option_copied result ≡ (context_of self.now).types ty }
    {
        contents_at(&self.module.types, ty)
    }

    /// Returns the type of an operand.
    fn same(&self, operand: Handle<Expression>) -> Option<TypeResolution>
        ensures { result ≡ same (context_of self.now) (types_of self.now) operand }
    {
        match self.known.get(operand) {
            Some(ty) => ty.copied(),
            None => None,
        }
    }

    /// Returns the type of what is loaded through an operand, or `None` if it is no pointer.
    fn loaded_through(&self, pointer: Handle<Expression>) -> Option<TypeResolution>
        ensures { result ≡ option_and_then (loaded (context_of self.now))
            (the (context_of self.now) (types_of self.now) pointer) }
    {
        match self.contents(pointer) {
            Some(inner) => self.loaded(inner),
            None => None,
        }
    }

    /// Returns the type of what is loaded through a pointer, or `None` for any other type.
    pub(crate) fn loaded(&self, inner: &TypeInner) -> Option<TypeResolution>
        ensures { result ≡ loaded (context_of self.now) inner.now }
    {
        match inner {
            TypeInner::Pointer { base, .. } => match self.declared(*base) {
                Some(behind) => Some(rows::pointee(*base, behind)),
                None => None,
            },
            TypeInner::ValuePointer { size, scalar, .. } => {
                Some(rows::sized_type(*size, *scalar))
            }
            _ => None,
        }
    }

    /// Returns the scalar of the atomic to which an operand points.
    fn atomic_at(&self, pointer: Handle<Expression>) -> Option<Scalar>
        ensures { result ≡ atomic_at (context_of self.now) (types_of self.now) (signature_of self.now) pointer }
    {
        match self.contents(pointer) {
            Some(inner) => self.atomic_behind(inner),
            None => None,
        }
    }

    /// Returns the scalar of the atomic behind a pointer, or `None` for any other type.
    pub(crate) fn atomic_behind(&self, inner: &TypeInner) -> Option<Scalar>
        ensures { result ≡ atomic_behind (context_of self.now) inner.now }
    {
        let TypeInner::Pointer { base, .. } = inner else {
            return None;
        };
        match self.declared(*base) {
            Some(behind) => rows::atomic_of(behind),
            None => None,
        }
    }

    /// Returns the scalar behind a pointer, or `None` for any other type.
    pub(crate) fn scalar_behind(&self, inner: &TypeInner) -> Option<Scalar>
        ensures { result ≡ scalar_behind (context_of self.now) inner.now }
    {
        match inner {
            TypeInner::Pointer { base, .. } => match self.declared(*base) {
                Some(behind) => rows::scalar_in(behind),
                None => None,
            },
            TypeInner::ValuePointer { scalar, .. } => Some(*scalar),
            _ => None,
        }
    }

    /// Returns the scalar of the texels of an operand, or `None` if it is no storage image.
    fn texel_at(&self, image: Handle<Expression>) -> Option<Scalar>
        ensures { result ≡ texel_at (context_of self.now) (types_of self.now) (signature_of self.now) image }
    {
        match self.contents(image) {
            Some(inner) => rows::texel_scalar(inner),
            None => None,
        }
    }

    /// Returns the type of the argument of a function at a position.
    fn argument(&self, function: Handle<Function>, position: usize) -> Option<Handle<Type>>
        ensures { result ≡ option_and_then (λ types. slice_get types position) ((signature_of self.now).parameters function) }
    {
        match self.module.functions.try_get(function) {
            Ok(function) => match function.arguments.get(position) {
                Some(argument) => Some(argument.ty),
                None => None,
            },
            Err(_) => None,
        }
    }

    /// Returns the type of the result of the function.
    pub(crate) fn result(&self) -> Option<Handle<Type>>
        ensures { result ≡ (signature_of self.now).result }
    {
        match &self.function.result {
            Some(result) => Some(result.ty),
            None => None,
        }
    }

    /// Returns the predeclared type of the result of an exchange that compares scalars.
    fn exchange_result(&self, scalar: Scalar) -> Option<Handle<Type>>
        ensures { result ≡ exchange_result (context_of self.now) (types_of self.now) (signature_of self.now) scalar }
    {
        let key = PredeclaredType::AtomicCompareExchangeWeakResult(scalar);
        match self.module.special_types.predeclared_types.get(&key) {
            Some(ty) => Some(*ty),
            None => None,
        }
    }

    /// Returns the predeclared type of the result of an exchange that compares, of the atomic to which an operand
    /// points.
    fn exchange_result_at(&self, pointer: Handle<Expression>) -> Option<Handle<Type>>
        ensures { result ≡ option_and_then (exchange_result (context_of self.now) (types_of self.now) (signature_of self.now))
            (atomic_at (context_of self.now) (types_of self.now) (signature_of self.now) pointer) }
    {
        match self.atomic_at(pointer) {
            Some(scalar) => self.exchange_result(scalar),
            None => None,
        }
    }

    /// Returns the scalar of which an operand consists.
    pub(crate) fn entry(&self, operand: Handle<Expression>) -> Option<Scalar>
        ensures { result ≡ option_and_then scalar_in (the (context_of self.now) (types_of self.now) operand) }
    {
        match self.contents(operand) {
            Some(inner) => rows::scalar_in(inner),
            None => None,
        }
    }

    /// Returns the type of a scalar, or of as many of it as an operand has components.
    fn along(&self, operand: Handle<Expression>, scalar: Scalar) -> Option<TypeResolution>
        ensures { result ≡ option_map (λ what. sized_type (size_in what) scalar)
            (the (context_of self.now) (types_of self.now) operand) }
    {
        match self.contents(operand) {
            Some(inner) => Some(rows::sized_type(kinds::size_in(inner), scalar)),
            None => None,
        }
    }

    /// Returns the type of a coordinate of an image, of components that are this scalar.
    fn position(&self, image: Handle<Expression>, scalar: Scalar) -> Option<TypeResolution>
        ensures { result ≡ option_map (λ dim. sized_type (coordinate_size dim) scalar)
            (option_and_then dimension_of (the (context_of self.now) (types_of self.now) image)) }
    {
        let Some(inner) = self.contents(image) else {
            return None;
        };
        match rows::dimension_of(inner) {
            Some(dim) => Some(rows::sized_type(rows::coordinate_size(dim), scalar)),
            None => None,
        }
    }

    /// Returns the type that comes from a source, if there is one.
    pub(crate) fn wanted(&self, source: Source) -> Option<TypeResolution>
        ensures { result ≡ wanted (context_of self.now) (types_of self.now) (signature_of self.now) source }
    {
        match source {
            Source::Scalar(scalar) => Some(rows::sized_type(None, scalar)),
            Source::Case(value) => rows::sized_type_of(None, rows::case_scalar(value)),
            Source::Same(expression) => self.same(expression),
            Source::Loaded(pointer) => self.loaded_through(pointer),
            Source::AtomicScalar(pointer) => rows::sized_type_of(None, self.atomic_at(pointer)),
            Source::ExchangeResult(pointer) => rows::handle_of(self.exchange_result_at(pointer)),
            Source::Texel(image) => {
                rows::sized_type_of(Some(VectorSize::Quad), self.texel_at(image))
            }
            Source::Component(image) => rows::sized_type_of(None, self.texel_at(image)),
            Source::Argument(function, position) => {
                rows::handle_of(self.argument(function, position))
            }
            Source::RayDescription => rows::handle_of(self.module.special_types.ray_desc),
            Source::FunctionResult => rows::handle_of(self.result()),
            Source::Declared(ty) => Some(TypeResolution::Handle(ty)),
            Source::Entry(expression) => rows::sized_type_of(None, self.entry(expression)),
            Source::Along(expression, scalar) => self.along(expression, scalar),
            Source::Position(image, scalar) => self.position(image, scalar),
        }
    }
}
