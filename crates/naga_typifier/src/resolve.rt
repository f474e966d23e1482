//! The types of expressions, by their rules.
ghost use Rattle.std.specs.Prelude.{◌≡◌, IfErr, option_and_then, option_copied, slice_get};
ghost use Rattle.std.specs.Result.{result_ok};
ghost use Rattle.std.specs.Option.{option_map};
ghost use Rattle.naga_typifier.specs.Context.{context_of, inner_of};
ghost use Rattle.naga_typifier.specs.Rows.{handle};
ghost use Rattle.naga_typifier.specs.Faults.{fault_of};
ghost use Rattle.naga_typifier.specs.Table.{computed, optional, pointed, product_of, read_from, same, the, type_by, type_of, type_of_named};
ghost use Rattle.naga_typifier.specs.Math.{applied, rule_of};

use crate::context::{Known, ResolveContext};
use crate::math::{MathRule, applied};
use crate::resolution::TypeResolution;
use crate::resolve_error::ResolveError;
use crate::rules::{Named, Reading, Rule};
use crate::{images, rows};
use naga_arena::Handle;
use naga_ir::{AddressSpace, Expression, Function, MathFunction, Type, TypeInner};
use naga_sets::HandleVec;

/// Returns a declared type, if there is one.
fn declared(ty: Option<Handle<Type>>) -> Option<TypeResolution>
    ensures { result ≡ option_map handle ty }
{
    match ty {
        Some(ty) => Some(TypeResolution::Handle(ty)),
        None => None,
    }
}

/// Returns the type of a pointer to a variable, or that of the variable itself if it has no memory.
fn pointed(space: AddressSpace, ty: Handle<Type>) -> TypeResolution
    ensures { result ≡ pointed space ty }
{
    match space {
        AddressSpace::Handle => TypeResolution::Handle(ty),
        _ => TypeResolution::Value(TypeInner::Pointer { base: ty, space }),
    }
}

impl ResolveContext<'_> {
    /// Returns the type of an operand.
    fn same(&self, known: &Known, operand: Handle<Expression>) -> Option<TypeResolution>
        ensures { result ≡ same (context_of self.now) (slice_get known.now) operand }
    {
        known.get(operand)?.copied()
    }

    /// Returns the contents of the type of an operand that may be absent.
    fn optional<'b>(
        &'b self,
        known: &'b Known,
        operand: Option<Handle<Expression>>,
    ) -> Option<&'b TypeInner>
        ensures { option_copied result ≡ optional (context_of self.now) (slice_get known.now) operand }
    {
        match operand {
            Some(operand) => self.inner_at(known, operand),
            None => None,
        }
    }

    /// Returns the type of the product of two operands.
    fn product(
        &self,
        known: &Known,
        left: Handle<Expression>,
        right: Handle<Expression>,
    ) -> Option<TypeResolution>
        ensures { result ≡ product_of (context_of self.now) (slice_get known.now) left right }
    {
        let of_left = known.get(left)?;
        let of_right = known.get(right)?;
        let in_left = self.contents(of_left)?;
        let in_right = self.contents(of_right)?;
        rows::product(of_left, of_right, in_left, in_right)
    }

    /// Returns the type of the result of a mathematical function, for a first argument with this type.
    fn applied(
        &self,
        fun: MathFunction,
        argument: &TypeResolution,
        second: Option<&TypeInner>,
    ) -> Option<TypeResolution>
        ensures { result ≡ option_and_then
            (λ inner. applied (context_of self.now) (rule_of fun) argument.now inner (option_copied second.entry))
            (inner_of (context_of self.now) argument.now) }
    {
        let inner = self.contents(argument)?;
        applied(self, MathRule::of(fun), argument, inner, second)
    }

    /// Returns the type of the result of a mathematical function.
    fn computed(
        &self,
        known: &Known,
        fun: MathFunction,
        arg: Handle<Expression>,
        arg1: Option<Handle<Expression>>,
    ) -> Option<TypeResolution>
        ensures { result ≡ computed (context_of self.now) (slice_get known.now) fun arg arg1 }
    {
        let second = self.optional(known, arg1);
        self.applied(fun, known.get(arg)?, second)
    }

    /// Returns the type of the result of a function, or `None` if it returns nothing or is not in the module.
    fn returned(&self, function: Handle<Function>) -> Option<TypeResolution>
        ensures { result ≡ option_map handle (option_and_then (λ result. result)
            ((context_of self.now).results function)) }
    {
        declared(self.result_of(function)?)
    }

    /// Returns the type of what an expression names, or of a pointer to it.
    fn named(&self, named: Named) -> Option<TypeResolution>
        ensures { result ≡ type_of_named (context_of self.now) named }
    {
        match named {
            Named::Constant(constant) => declared(self.constant(constant)),
            Named::Override(named) => declared(self.value_of_override(named)),
            Named::Argument(index) => declared(self.argument(index)),
            Named::GlobalVariable(variable) => match self.global(variable) {
                Some((space, ty)) => Some(pointed(space, ty)),
                None => None,
            },
            Named::LocalVariable(variable) => match self.local(variable) {
                Some(ty) => Some(pointed(AddressSpace::Function, ty)),
                None => None,
            },
            Named::Result(function) => self.returned(function),
            Named::RayVertexReturn => declared(self.special_types.ray_vertex_return),
            Named::RayIntersection => declared(self.special_types.ray_intersection),
        }
    }

    /// Returns what is read from the contents of the type of an operand.
    fn read_from(&self, reading: Reading, inner: &TypeInner) -> Option<TypeResolution>
        ensures { result ≡ read_from (context_of self.now) reading inner.now }
    {
        match reading {
            Reading::Part(index) => rows::accessed(self, index, inner),
            Reading::Splat(size) => rows::splatted(size, inner),
            Reading::Swizzle(size) => rows::swizzled(size, inner),
            Reading::Load => rows::loaded(self, inner),
            Reading::Sample(gather) => images::sample(gather, images::class_of(inner)?),
            Reading::Texel => images::texel_of(inner),
            Reading::Size => images::size_of(inner),
            Reading::Truths => rows::compared(inner),
            Reading::Cast(kind, convert) => rows::converted(kind, convert, inner),
            Reading::Matrix(columns, rows, role) => rows::cooperative(
                self, columns, rows, role, inner,
            ),
        }
    }

    /// Returns what is read from the contents of the type of an operand, if these are known.
    fn read(
        &self,
        known: &Known,
        reading: Reading,
        operand: Handle<Expression>,
    ) -> Option<TypeResolution>
        ensures { result ≡ option_and_then (read_from (context_of self.now) reading)
            (the (context_of self.now) (slice_get known.now) operand) }
    {
        self.read_from(reading, self.inner_at(known, operand)?)
    }

    /// Returns the type of an expression with this rule, or `None` if it has none.
    fn type_by(&self, known: &Known, rule: Rule) -> Option<TypeResolution>
        ensures { result ≡ type_by (context_of self.now) (slice_get known.now) rule }
    {
        match rule {
            Rule::Fixed(size, scalar) => Some(TypeResolution::Value(rows::sized(size, scalar))),
            Rule::Declared(ty) => Some(TypeResolution::Handle(ty)),
            Rule::Named(named) => self.named(named),
            Rule::Like(operand) => self.same(known, operand),
            Rule::Read(reading, operand) => self.read(known, reading, operand),
            Rule::Product(left, right) => self.product(known, left, right),
            Rule::Math(fun, first, second) => self.computed(known, fun, first, second),
        }
    }

    /// Returns the type of an expression, from the types of the expressions before it.
    ///
    /// `known` has the types of the first expressions of the arena of `expression`. Nothing is allocated.
    ///
    /// Returns `Err` if the expression has no type, with the first operand at fault or with what is missing. The type
    /// of an expression can be a handle that is not in the module, if the expression or a declaration names it.
    pub fn resolve(
        &self,
        expression: &Expression,
        known: &HandleVec<Expression, TypeResolution>,
    ) -> Result<TypeResolution, ResolveError>
        ensures found { result_ok result ≡ type_of (context_of self.now) (slice_get known.now) expression.now }
        ensures fault { IfErr result
            (λ error. error ≡ fault_of (context_of self.now) (slice_get known.now) expression.now) }
    {
        match self.type_by(known, Rule::of(expression)) {
            Some(ty) => Ok(ty),
            None => Err(self.fault_by(known, Rule::of(expression))),
        }
    }
}
