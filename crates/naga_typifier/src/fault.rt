//! Why an expression that has no type has none.
ghost use Rattle.std.specs.Prelude.{◌≡◌, slice_get};
ghost use Rattle.naga_typifier.specs.Context.{context_of};
ghost use Rattle.naga_typifier.specs.Faults.{access_fault, argument_fault, behind, blamed, call_fault, contents_or, factor_fault, fault_by, fault_of_named, operand_of, part_fault, pointer_fault, product_fault, reading_fault, rejected, same_fault, second_fault};
ghost use Rattle.std.specs.Result.{result_map_both};

use crate::context::{Known, ResolveContext};
use crate::math::{MathResult, MathRule, accepted};
use crate::resolution::TypeResolution;
use crate::resolve_error::ResolveError;
use crate::rows::scalar_in;
use crate::rules::{Named, Reading, Rule};
use naga_arena::Handle;
use naga_ir::{Expression, Function, MathFunction, Scalar, Type, TypeInner};

/// Returns the error of a base that has no part at this index, which is `None` if it is computed.
fn part_fault(base: Handle<Expression>, index: Option<u32>, inner: &TypeInner) -> ResolveError
    ensures { result ≡ part_fault base index inner.now }
{
    match (index, inner) {
        (
            Some(index),
            TypeInner::Vector { .. } | TypeInner::Matrix { .. } | TypeInner::Struct { .. },
        ) => ResolveError::IndexOutOfBounds { base, index },
        _ => ResolveError::InvalidBase(base),
    }
}

/// Returns the error of two factors that have no product, where these are the scalars of which they consist.
fn factor_fault(
    left: Handle<Expression>,
    right: Handle<Expression>,
    of_left: Option<Scalar>,
    of_right: Option<Scalar>,
) -> ResolveError
    ensures { result ≡ factor_fault left right of_left of_right }
{
    match (of_left, of_right) {
        (None, _) => ResolveError::InvalidFactor(left),
        (Some(_), None) => ResolveError::InvalidFactor(right),
        (Some(_), Some(_)) => ResolveError::IncompatibleFactors { left, right },
    }
}

impl ResolveContext<'_> {
    /// Returns the contents behind a pointer, or the error if its base is not in the module.
    fn behind(
        &self,
        pointer: Handle<Expression>,
        base: Handle<Type>,
    ) -> Result<&TypeInner, ResolveError>
        ensures { result_map_both (λ inner. inner.now) (λ error. error) result
            ≡ behind (context_of self.now) pointer base }
    {
        match self.inner(base) {
            Some(inner) => Ok(inner),
            None => Err(ResolveError::UnknownType {
                operand: pointer,
                ty: base,
            }),
        }
    }

    /// Returns the contents of a type, or the error if the operand with this type names one that is not in the module.
    fn contents_or<'b>(
        &'b self,
        operand: Handle<Expression>,
        ty: &'b TypeResolution,
    ) -> Result<&'b TypeInner, ResolveError>
        ensures { result_map_both (λ inner. inner.now) (λ error. error) result
            ≡ contents_or (context_of self.now) operand ty.now }
    {
        match ty {
            TypeResolution::Handle(handle) => self.behind(operand, *handle),
            TypeResolution::Value(inner) => Ok(inner),
        }
    }

    /// Returns the contents of the type of an operand, or the error if it has none.
    fn operand<'b>(
        &'b self,
        known: &'b Known,
        operand: Handle<Expression>,
    ) -> Result<&'b TypeInner, ResolveError>
        ensures { result_map_both (λ inner. inner.now) (λ error. error) result
            ≡ operand_of (context_of self.now) (slice_get known.now) operand }
    {
        match known.get(operand) {
            Some(ty) => self.contents_or(operand, ty),
            None => Err(ResolveError::UnknownOperand(operand)),
        }
    }

    /// Returns the error of an operand, or this one if the contents of its type are known.
    fn rejected(
        &self,
        known: &Known,
        operand: Handle<Expression>,
        otherwise: ResolveError,
    ) -> ResolveError
        ensures { result ≡ rejected (context_of self.now) (slice_get known.now) operand otherwise }
    {
        match self.operand(known, operand) {
            Ok(_) => otherwise,
            Err(error) => error,
        }
    }

    /// Returns the error of an operand whose type has no copy.
    fn same_fault(&self, known: &Known, operand: Handle<Expression>) -> ResolveError
        ensures { result ≡ same_fault (context_of self.now) (slice_get known.now) operand }
    {
        match known.get(operand) {
            Some(_) => ResolveError::UndeclaredType(operand),
            None => ResolveError::UnknownOperand(operand),
        }
    }

    /// Returns the error of a base with these contents that has no part at this index.
    fn part_fault_behind(
        &self,
        base: Handle<Expression>,
        index: Option<u32>,
        inner: &TypeInner,
    ) -> ResolveError
        ensures { result ≡ access_fault (context_of self.now) base index inner.now }
    {
        match inner {
            TypeInner::Pointer { base: ty, .. } => match self.behind(base, *ty) {
                Ok(inner) => part_fault(base, index, inner),
                Err(error) => error,
            },
            TypeInner::ValuePointer {
                size: Some(size),
                scalar,
                ..
            } => {
                let vector = TypeInner::Vector {
                    size: *size,
                    scalar: *scalar,
                };
                part_fault(base, index, &vector)
            }
            _ => part_fault(base, index, inner),
        }
    }

    /// Returns the error of an operand with these contents, through which nothing is loaded.
    fn pointer_fault_of(&self, pointer: Handle<Expression>, inner: &TypeInner) -> ResolveError
        ensures { result ≡ pointer_fault (context_of self.now) pointer inner.now }
    {
        match inner {
            TypeInner::Pointer { base, .. } => match self.behind(pointer, *base) {
                Ok(_) => ResolveError::InvalidPointer(pointer),
                Err(error) => error,
            },
            _ => ResolveError::InvalidPointer(pointer),
        }
    }

    /// Returns the error of an operand with these contents, from which this is not read.
    fn reading_fault_of(
        &self,
        operand: Handle<Expression>,
        reading: Reading,
        inner: &TypeInner,
    ) -> ResolveError
        ensures { result ≡ reading_fault (context_of self.now) operand reading inner.now }
    {
        match reading {
            Reading::Part(index) => self.part_fault_behind(operand, index, inner),
            Reading::Splat(_) => ResolveError::InvalidScalar(operand),
            Reading::Swizzle(_) => ResolveError::InvalidVector(operand),
            Reading::Load | Reading::Matrix(_, _, _) => self.pointer_fault_of(operand, inner),
            Reading::Sample(_) | Reading::Texel | Reading::Size => {
                ResolveError::InvalidImage(operand)
            }
            Reading::Truths | Reading::Cast(_, _) => ResolveError::InvalidComponents(operand),
        }
    }

    /// Returns the error of an operand from which this is not read.
    fn reading_fault(
        &self,
        known: &Known,
        reading: Reading,
        operand: Handle<Expression>,
    ) -> ResolveError
        ensures { result ≡ blamed (operand_of (context_of self.now) (slice_get known.now) operand)
            (reading_fault (context_of self.now) operand reading) }
    {
        match self.operand(known, operand) {
            Ok(inner) => self.reading_fault_of(operand, reading, inner),
            Err(error) => error,
        }
    }

    /// Returns the error of two operands that have no product.
    fn product_fault(
        &self,
        known: &Known,
        left: Handle<Expression>,
        right: Handle<Expression>,
    ) -> ResolveError
        ensures { result ≡ product_fault (context_of self.now) (slice_get known.now) left right }
    {
        match self.operand(known, left) {
            Ok(in_left) => match self.operand(known, right) {
                Ok(in_right) => factor_fault(left, right, scalar_in(in_left), scalar_in(in_right)),
                Err(error) => error,
            },
            Err(error) => error,
        }
    }

    /// Returns the error of a second argument that is absent or not accepted.
    fn second_fault(
        &self,
        known: &Known,
        fun: MathFunction,
        second: Option<Handle<Expression>>,
    ) -> ResolveError
        ensures { result ≡ second_fault (context_of self.now) (slice_get known.now) fun second }
    {
        match second {
            Some(argument) => {
                let otherwise = ResolveError::InvalidArgument { fun, argument };
                self.rejected(known, argument, otherwise)
            }
            None => ResolveError::MissingArgument(fun),
        }
    }

    /// Returns the error of a first argument with these contents, or of the result if the argument is accepted.
    fn argument_fault(
        &self,
        known: &Known,
        fun: MathFunction,
        argument: Handle<Expression>,
        second: Option<Handle<Expression>>,
        inner: &TypeInner,
    ) -> ResolveError
        ensures { result ≡ argument_fault (context_of self.now) (slice_get known.now) fun argument second inner.now }
    {
        let rule = MathRule::of(fun);
        if accepted(rule, inner).is_none() {
            return ResolveError::InvalidArgument { fun, argument };
        }
        match rule.gives {
            MathResult::Outer => self.second_fault(known, fun, second),
            _ => ResolveError::MissingResult(fun),
        }
    }

    /// Returns the error of the arguments of a mathematical function, or of its result.
    fn math_fault(
        &self,
        known: &Known,
        fun: MathFunction,
        argument: Handle<Expression>,
        second: Option<Handle<Expression>>,
    ) -> ResolveError
        ensures { result ≡ blamed (operand_of (context_of self.now) (slice_get known.now) argument)
            (argument_fault (context_of self.now) (slice_get known.now) fun argument second) }
    {
        match self.operand(known, argument) {
            Ok(inner) => self.argument_fault(known, fun, argument, second, inner),
            Err(error) => error,
        }
    }

    /// Returns the error of a function that returns nothing, or that is not in the module.
    fn call_fault(&self, function: Handle<Function>) -> ResolveError
        ensures { result ≡ call_fault (context_of self.now) function }
    {
        match self.result_of(function) {
            Some(_) => ResolveError::FunctionReturnsVoid(function),
            None => ResolveError::UnknownFunction(function),
        }
    }

    /// Returns the error of what an expression names, which is not there or has no type.
    fn fault_of_named(&self, named: Named) -> ResolveError
        ensures { result ≡ fault_of_named (context_of self.now) named }
    {
        match named {
            Named::Constant(constant) => ResolveError::UnknownConstant(constant),
            Named::Override(named) => ResolveError::UnknownOverride(named),
            Named::Argument(index) => ResolveError::UnknownFunctionArgument(index),
            Named::GlobalVariable(global) => ResolveError::UnknownGlobalVariable(global),
            Named::LocalVariable(local) => ResolveError::UnknownLocalVariable(local),
            Named::Result(function) => self.call_fault(function),
            Named::RayVertexReturn | Named::RayIntersection => ResolveError::MissingSpecialType,
        }
    }

    /// Returns why an expression with this rule has no type, if it has none.
    pub(crate) fn fault_by(&self, known: &Known, rule: Rule) -> ResolveError
        ensures { result ≡ fault_by (context_of self.now) (slice_get known.now) rule }
    {
        match rule {
            // These have a type.
            Rule::Fixed(_, _) | Rule::Declared(_) => ResolveError::MissingSpecialType,
            Rule::Named(named) => self.fault_of_named(named),
            Rule::Like(operand) => self.same_fault(known, operand),
            Rule::Read(reading, operand) => self.reading_fault(known, reading, operand),
            Rule::Product(left, right) => self.product_fault(known, left, right),
            Rule::Math(fun, first, second) => self.math_fault(known, fun, first, second),
        }
    }
}
