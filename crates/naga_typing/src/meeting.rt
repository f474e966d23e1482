//! Whether a requirement is met.
ghost use Rattle.std.specs.Prelude.{◌≡◌, ◌↔◌, IsTrue, nat_lt, option_and_then};
ghost use Rattle.naga_kinds.specs.Math.{argument_count_of};
ghost use Rattle.naga_typifier.specs.Rows.{scalar_behind};
ghost use Rattle.naga_typifier.specs.Table.{the};
ghost use Rattle.naga_typing.specs.Requirements.{Has, HasFrom, IsExpected, IsIndex, IsLevel, is_of, layers_of, passes, points_to_dynamic_array, points_to_ray_query, scalar_in_cooperative};
ghost use Rattle.naga_typing.specs.TypedFunctions.{IsMetIn, context_of, signature_of, types_of};
ghost use Rattle.naga_typing.specs.declared.requirement.Expected.TheVariants as expected;
ghost use Rattle.naga_typing.specs.declared.requirement.Requirement.TheVariants as requirement;
ghost use Rattle.naga_typing.specs.declared.requirement.Source.TheVariants as source;

use crate::form::is_same_type;
use crate::requirement::{Expected, Kind, Requirement, Source};
use crate::typed_function::TypedFunction;
use crate::{composites, kinds, rows};
use naga_arena::Handle;
use naga_ir::{Expression, Function, MathFunction, Scalar, Type, TypeInner, VectorSize};
use naga_typifier::TypeResolution;

impl TypedFunction<'_> {
    /// Returns whether an operand has this type.
    pub(crate) fn has(&self, operand: Handle<Expression>, ty: &TypeResolution) -> bool
        ensures { IsTrue result ↔ Has (context_of self.now) (types_of self.now) (signature_of self.now) operand ty.now }
    {
        match self.known.get(operand) {
            Some(found) => is_same_type(&self.module.types, found, ty),
            None => false,
        }
    }

    /// Returns whether an operand is a scalar, or a vector of this size, of `i32` or `u32`.
    fn is_index(&self, size: Option<VectorSize>, operand: Handle<Expression>) -> bool
        ensures { IsTrue result ↔ IsIndex (context_of self.now) (types_of self.now) (signature_of self.now) size operand }
    {
        self.has(operand, &rows::sized_type(size, Scalar::I32))
            || self.has(operand, &rows::sized_type(size, Scalar::U32))
    }

    /// Returns whether an operand is of this kind.
    pub(crate) fn is_kind(&self, operand: Handle<Expression>, kind: Kind) -> bool
        ensures { result ≡ passes (is_of (context_of self.now) kind) (the (context_of self.now) (types_of self.now) operand) }
    {
        match self.contents(operand) {
            Some(inner) => self.is_of(inner, kind),
            None => false,
        }
    }

    /// Returns whether a declared type is of this kind.
    fn has_kind(&self, ty: Handle<Type>, kind: Kind) -> bool
        ensures { result ≡ passes (is_of (context_of self.now) kind) ((context_of self.now).types ty) }
    {
        match self.declared(ty) {
            Some(inner) => self.is_of(inner, kind),
            None => false,
        }
    }

    /// Returns whether the contents of a type are of this kind.
    fn is_of(&self, inner: &TypeInner, kind: Kind) -> bool
        ensures { result ≡ is_of (context_of self.now) kind inner.now }
    {
        match kind {
            Kind::Pointer => self.points_to_data(inner),
            Kind::AtomicPointer => self.atomic_behind(inner).is_some(),
            Kind::WorkGroupPointer => rows::points_into_work_group(inner),
            Kind::StorageImage => rows::texel_scalar(inner).is_some(),
            Kind::RayQueryPointer => self.points_to_ray_query(inner),
            Kind::AccelerationStructure => rows::is_acceleration_structure(inner),
            Kind::RayPayload => rows::points_to_ray_payload(inner),
            Kind::CooperativeMatrix => rows::scalar_in_cooperative(inner).is_some(),
            Kind::Single(scalars) => kinds::has_one_of(scalars, kinds::single(inner)),
            Kind::Components(scalars) => kinds::has_one_of(scalars, kinds::component(inner)),
            Kind::Entries(scalars) => kinds::has_one_of(scalars, rows::scalar_in(inner)),
            Kind::SampledImage => kinds::is_sampled_image(inner),
            Kind::DepthImage => kinds::is_depth_image(inner),
            Kind::Sampler(comparison) => kinds::is_sampler(comparison, inner),
            Kind::DynamicArrayPointer => self.points_to_dynamic_array(inner),
            Kind::VectorWith(count) => composites::has_components(count, kinds::size_in(inner)),
            Kind::Data => self.is_sized_data(inner),
            Kind::ExchangeResult => self.is_exchange_result(inner),
            Kind::Convertible(to) => kinds::converts(to, kinds::component(inner)),
            Kind::BitsOf(to) => kinds::has_bits_of(to, kinds::component(inner)),
            Kind::GatheredImage(position) => kinds::can_be_gathered(position, inner),
            Kind::TexelImage => kinds::has_coordinates(rows::dimension_of(inner)),
            Kind::VertexQueryPointer => self.points_to_vertex_query(inner),
            Kind::Summand => rows::is_summand(inner),
        }
    }

    /// Returns whether this is a pointer to an array of a dynamic size.
    fn points_to_dynamic_array(&self, inner: &TypeInner) -> bool
        ensures { result ≡ points_to_dynamic_array (context_of self.now) inner.now }
    {
        let TypeInner::Pointer { base, .. } = inner else {
            return false;
        };
        match self.declared(*base) {
            Some(behind) => kinds::is_dynamic_array(behind),
            None => false,
        }
    }

    /// Returns whether this is a pointer to a ray query.
    fn points_to_ray_query(&self, inner: &TypeInner) -> bool
        ensures { result ≡ points_to_ray_query (context_of self.now) inner.now }
    {
        let TypeInner::Pointer { base, .. } = inner else {
            return false;
        };
        match self.declared(*base) {
            Some(behind) => rows::is_ray_query(behind),
            None => false,
        }
    }

    /// Returns whether an operand has the type that comes from a source.
    fn has_type_of(&self, operand: Handle<Expression>, source: &Source) -> bool
        ensures { IsTrue result ↔ HasFrom (context_of self.now) (types_of self.now) (signature_of self.now)
            operand source.now }
    {
        match source {
            Source::Scalar(scalar) => self.has_scalar(operand, *scalar),
            Source::Loaded(pointer) => self.has_loaded(operand, *pointer),
            _ => self.has_wanted(operand, source),
        }
    }

    /// Returns whether an operand is this scalar.
    fn has_scalar(&self, operand: Handle<Expression>, scalar: Scalar) -> bool
        ensures { IsTrue result ↔ HasFrom (context_of self.now) (types_of self.now) (signature_of self.now)
            operand (source.Scalar scalar) }
    {
        self.has(operand, &rows::sized_type(None, scalar))
    }

    /// Returns whether an operand has the type of what is loaded through another one.
    fn has_loaded(&self, operand: Handle<Expression>, pointer: Handle<Expression>) -> bool
        ensures { IsTrue result ↔ HasFrom (context_of self.now) (types_of self.now) (signature_of self.now)
            operand (source.Loaded pointer) }
    {
        match self.contents(pointer) {
            Some(TypeInner::Pointer { base, .. }) => match self.declared(*base) {
                Some(behind) => self.has(operand, &rows::pointee(*base, behind)),
                None => false,
            },
            Some(TypeInner::ValuePointer { size, scalar, .. }) => {
                self.has(operand, &rows::sized_type(*size, *scalar))
            }
            _ => false,
        }
    }

    /// Returns whether an operand has the type that comes from a source, which is made first.
    fn has_wanted(&self, operand: Handle<Expression>, source: &Source) -> bool
        ensures { IsTrue result ↔ HasFrom (context_of self.now) (types_of self.now) (signature_of self.now)
            operand source.now }
    {
        match self.wanted(*source) {
            Some(ty) => self.has(operand, &ty),
            None => false,
        }
    }

    /// Returns whether an operand is a coordinate of an image.
    fn is_coordinate(&self, operand: Handle<Expression>, image: Handle<Expression>) -> bool
        ensures { IsTrue result ↔ IsExpected (context_of self.now) (types_of self.now) (signature_of self.now)
            operand (expected.Coordinate image) }
    {
        let Some(inner) = self.contents(image) else {
            return false;
        };
        match rows::dimension_of(inner) {
            Some(dim) => self.is_index(rows::coordinate_size(dim), operand),
            None => false,
        }
    }

    /// Returns the scalar of the cooperative matrix that an operand is.
    fn cooperative_scalar(&self, operand: Handle<Expression>) -> Option<Scalar>
        ensures { result ≡ option_and_then scalar_in_cooperative (the (context_of self.now) (types_of self.now) operand) }
    {
        match self.contents(operand) {
            Some(inner) => rows::scalar_in_cooperative(inner),
            None => None,
        }
    }

    /// Returns the scalar behind the pointer that an operand is.
    fn scalar_pointed(&self, operand: Handle<Expression>) -> Option<Scalar>
        ensures { result ≡ option_and_then (scalar_behind (context_of self.now)) (the (context_of self.now) (types_of self.now) operand) }
    {
        match self.contents(operand) {
            Some(inner) => self.scalar_behind(inner),
            None => None,
        }
    }

    /// Returns whether an operand points to the elements of a cooperative matrix.
    fn is_cooperative_data(&self, operand: Handle<Expression>, target: Handle<Expression>) -> bool
        ensures { IsTrue result ↔ IsExpected (context_of self.now) (types_of self.now) (signature_of self.now)
            operand (expected.CooperativeData target) }
    {
        match (
            self.cooperative_scalar(target),
            self.scalar_pointed(operand),
        ) {
            (Some(scalar), Some(behind)) => scalar == behind,
            _ => false,
        }
    }

    /// Returns whether an operand consists of the same scalar as another one.
    fn has_same_scalar(&self, operand: Handle<Expression>, other: Handle<Expression>) -> bool
        ensures { IsTrue result ↔ IsExpected (context_of self.now) (types_of self.now) (signature_of self.now)
            operand (expected.SameScalar other) }
    {
        match (self.entry(other), self.entry(operand)) {
            (Some(scalar), Some(found)) => scalar == found,
            _ => false,
        }
    }

    /// Returns whether an operand is a level of an image.
    fn is_level(&self, operand: Handle<Expression>, image: Handle<Expression>) -> bool
        ensures { IsTrue result ↔ IsExpected (context_of self.now) (types_of self.now) (signature_of self.now)
            operand (expected.Level image) }
    {
        let Some(inner) = self.contents(image) else {
            return false;
        };
        match kinds::class_of(inner) {
            Some(class) => self.is_level_of(class.is_depth(), operand),
            None => false,
        }
    }

    /// Returns whether an operand is a level of an image that has depths, or of another one.
    fn is_level_of(&self, of_depths: bool, operand: Handle<Expression>) -> bool
        ensures { IsTrue result ↔ IsLevel (context_of self.now) (types_of self.now) (signature_of self.now)
            of_depths operand }
    {
        if of_depths {
            self.is_index(None, operand)
        } else {
            self.has(operand, &rows::sized_type(None, Scalar::F32))
                || self.has(operand, &rows::sized_type(None, Scalar::F16))
        }
    }

    /// Returns whether an operand is what is expected.
    pub(crate) fn is_expected(&self, operand: Handle<Expression>, expected: &Expected) -> bool
        ensures { IsTrue result ↔ IsExpected (context_of self.now) (types_of self.now) (signature_of self.now) operand expected.now }
    {
        match expected {
            Expected::Kind(kind) => self.is_kind(operand, *kind),
            Expected::Type(source) => self.has_type_of(operand, source),
            Expected::Integer => self.is_index(None, operand),
            Expected::Coordinate(image) => self.is_coordinate(operand, *image),
            Expected::CooperativeData(target) => self.is_cooperative_data(operand, *target),
            Expected::Either(first, second) => {
                self.has_type_of(operand, first) || self.has_type_of(operand, second)
            }
            Expected::SameScalar(other) => self.has_same_scalar(operand, *other),
            Expected::Shift(left) => self.shifts(operand, *left),
            Expected::Level(image) => self.is_level(operand, *image),
            Expected::Component(ty, position) => self.is_component(operand, *ty, *position),
        }
    }

    /// Returns whether an image has array layers if and only if `has_index`.
    fn has_layers(&self, image: Handle<Expression>, has_index: bool) -> bool
        ensures { IsTrue result ↔ IsMetIn self.now (requirement.Layers image has_index) }
    {
        let Some(inner) = self.contents(image) else {
            return false;
        };
        match rows::layers_of(inner) {
            Some(arrayed) => arrayed == has_index,
            None => false,
        }
    }

    /// Returns whether each texel of an image has several samples if and only if `has_index`.
    fn has_samples(&self, image: Handle<Expression>, has_index: bool) -> bool
        ensures { IsTrue result ↔ IsMetIn self.now (requirement.Samples image has_index) }
    {
        let Some(inner) = self.contents(image) else {
            return false;
        };
        match kinds::samples_of(inner) {
            Some(multisampled) => multisampled == has_index,
            None => false,
        }
    }

    /// Returns whether an image has mipmap levels if and only if `has_level`.
    fn has_levels(&self, image: Handle<Expression>, has_level: bool) -> bool
        ensures { IsTrue result ↔ IsMetIn self.now (requirement.Levels image has_level) }
    {
        let Some(inner) = self.contents(image) else {
            return false;
        };
        match kinds::levels_of(inner) {
            Some(mipmapped) => mipmapped == has_level,
            None => false,
        }
    }

    /// Returns whether a function of the module takes this number of arguments.
    fn takes(&self, function: Handle<Function>, count: usize) -> bool
        ensures { IsTrue result ↔ IsMetIn self.now (requirement.ArgumentCount function count) }
    {
        match self.module.functions.try_get(function) {
            Ok(function) => function.arguments.len() == count,
            Err(_) => false,
        }
    }

    /// Returns whether a function of the module returns a value if and only if `has_result`.
    fn returns(&self, function: Handle<Function>, has_result: bool) -> bool
        ensures { IsTrue result ↔ IsMetIn self.now (requirement.CallResult function has_result) }
    {
        match self.module.functions.try_get(function) {
            Ok(function) => function.result.is_some() == has_result,
            Err(_) => false,
        }
    }

    /// Returns whether a requirement is met.
    pub(crate) fn meets(&self, requirement: &Requirement) -> bool
        ensures { IsTrue result ↔ IsMetIn self.now requirement.now }
    {
        match requirement {
            Requirement::Operand { operand, expected } => self.is_expected(*operand, expected),
            Requirement::Layers { image, has_index } => self.has_layers(*image, *has_index),
            Requirement::ArgumentCount { function, count } => self.takes(*function, *count),
            Requirement::CallResult {
                function,
                has_result,
            } => self.returns(*function, *has_result),
            Requirement::NoResult => self.result().is_none(),
            Requirement::Samples { image, has_index } => self.has_samples(*image, *has_index),
            Requirement::Levels { image, has_level } => self.has_levels(*image, *has_level),
            Requirement::MathArgument {
                fun,
                position,
                is_given,
            } => has_argument(*fun, *position, *is_given),
            Requirement::ComponentCount { ty, count } => self.takes_components(*ty, *count),
            Requirement::VectorEntries { ty, first } => self.is_filled(*ty, first),
            Requirement::Contents { ty, kind } => self.has_kind(*ty, *kind),
            Requirement::Product { a, b, c } => self.have_product(*a, *b, *c),
        }
    }
}

/// Returns whether a mathematical function has an argument at this position if and only if `is_given`.
fn has_argument(fun: MathFunction, position: usize, is_given: bool) -> bool
    ensures { IsTrue result ↔ (nat_lt position (argument_count_of fun) ≡ is_given) }
{
    (position < fun.argument_count()) == is_given
}
