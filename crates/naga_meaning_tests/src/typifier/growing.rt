//! Typifiers: growing in steps, errors, and resetting.
use crate::modules::{at, module_with};
use naga_arena::Span;
use naga_ir::{Expression, Function, Literal, Module, VectorSize};
use naga_typifier::{GrowError, ResolveContext, Typifier};
use std::alloc::{AllocError, Global};

const TYPES: &str =
    r#"{"name":null,"inner":{"Scalar":{"kind":"Float","width":4}}},{"name":null,"inner":{"Vector":{"size":"Tri","scalar":{"kind":"Float","width":4}}}}"#;

/// A product, the product and an expression without a type before another, and a single number.
const FUNCTIONS: &str = r#"
{"name":null,"arguments":[],"result":null,"local_variables":[],"expressions":[{"ZeroValue":1},{"Literal":{"F32":0.0}},{"Binary":{"op":"Multiply","left":1,"right":0}}],"named_expressions":{},"body":[],"diagnostic_filter_leaf":null},
{"name":null,"arguments":[],"result":null,"local_variables":[],"expressions":[{"ZeroValue":1},{"Literal":{"F32":0.0}},{"Binary":{"op":"Multiply","left":1,"right":0}},{"Load":{"pointer":1}},{"Literal":{"F32":0.0}}],"named_expressions":{},"body":[],"diagnostic_filter_leaf":null},
{"name":null,"arguments":[],"result":null,"local_variables":[],"expressions":[{"ZeroValue":0}],"named_expressions":{},"body":[],"diagnostic_filter_leaf":null}"#;

/// The types of the product and of the expressions after it.
const PRODUCT: &str =
    "Some(Handle([1])) Some(Value(Scalar(Scalar { kind: Float, width: 4 }))) Some(Handle([1])) None None ";

/// No types.
const NOTHING: &str = "None None None None None ";

/// The type of the single number.
const NUMBER: &str = "Some(Handle([0])) None None None None ";

/// Returns the debug text of the first five types of a typifier.
fn text_of(alloc: Global, types: &Typifier) -> Result<String, AllocError> {
    let mut text = String::new(alloc);
    for number in 0..5u8 {
        let ty = types.get(at::<Expression>(number));
        let part = format!(in alloc; "{ty:?} ")?;
        text.push_str(part.as_str())?;
    }
    Ok(text)
}

/// Returns whether a typifier has these types.
fn has(alloc: Global, types: &Typifier, text: &str) -> bool {
    text_of(alloc, types).is_ok_and(|found| found.as_str() == text)
}

/// Grows a typifier over a function of the module. Returns whether each expression has a type.
fn grows(module: &Module, number: u8, types: &mut Typifier) -> bool {
    let Ok(function) = module.functions.try_get(at::<Function>(number)) else {
        return false;
    };
    let ctx = ResolveContext::with_function(module, function);
    types.grow(&function.expressions, &ctx).is_ok()
}

/// Returns whether a typifier grows over the product, twice, and stops behind it, twice.
fn grows_and_stops(alloc: Global, module: &Module, types: &mut Typifier) -> bool {
    grows(module, 0, types)
        && has(alloc, types, PRODUCT)
        && grows(module, 0, types)
        && has(alloc, types, PRODUCT)
        && !grows(module, 1, types)
        && has(alloc, types, PRODUCT)
        && !grows(module, 1, types)
}

/// Returns whether a typifier keeps the types of an older arena until it is reset.
fn is_reset(alloc: Global, module: &Module, types: &mut Typifier) -> bool {
    if !grows(module, 2, types) || !has(alloc, types, PRODUCT) {
        return false;
    }
    types.reset();
    has(alloc, types, NOTHING) && grows(module, 2, types) && has(alloc, types, NUMBER)
}

/// Returns whether a new typifier grows, stops and is reset.
fn is_grown(alloc: Global) -> bool {
    let Some(module) = module_with(alloc, TYPES, FUNCTIONS, "") else {
        return false;
    };
    let mut types = Typifier::new(alloc);
    grows_and_stops(alloc, &module, &mut types) && is_reset(alloc, &module, &mut types)
}

#[test]
fn a_typifier_grows_with_its_arena(rt: HostRuntime) {
    assert!(rt; is_grown(rt.alloc()));
}

/// Tests in which allocations may fail.
mod refusals {
    use super::*;

    /// The number of expressions: more than the memory of one allocation has space for.
    const COUNT: u8 = 40;

    /// Appends an expression. Returns whether this succeeds.
    fn put(function: &mut Function, expression: Expression) -> bool {
        function
            .expressions
            .append(expression, Span::UNDEFINED)
            .is_ok()
    }

    /// Appends vectors, each a splat of a literal before it. Returns whether this succeeds.
    fn put_many(function: &mut Function) -> bool {
        if !put(function, Expression::Literal(Literal::F32(0))) {
            return false;
        }
        for _ in 1..COUNT {
            let splat = Expression::Splat {
                size: VectorSize::Bi,
                value: at::<Expression>(0),
            };
            if !put(function, splat) {
                return false;
            }
        }
        true
    }

    /// Returns how many types of first expressions a typifier has.
    fn count_types(types: &Typifier) -> u8 {
        for number in 0..COUNT {
            if types.get(at::<Expression>(number)).is_none() {
                return number;
            }
        }
        COUNT
    }

    /// Returns whether a typifier grows to the end, or keeps the types that it found before an allocation failed, and
    /// then grows to the end from there.
    fn grows_or_stays(module: &Module, function: &Function, types: &mut Typifier) -> bool {
        let ctx = ResolveContext::with_function(module, function);
        match types.grow(&function.expressions, &ctx) {
            Ok(()) => count_types(types) == COUNT,
            Err(GrowError::NoType { .. }) => false,
            Err(GrowError::Memory) => {
                count_types(types) < COUNT
                    && types.grow(&function.expressions, &ctx).is_ok()
                    && count_types(types) == COUNT
            }
        }
    }

    /// Returns whether a new typifier grows over many expressions or keeps its types, or an allocation fails before.
    fn is_grown_or_kept(alloc: Global) -> bool {
        let module = Module::new(alloc);
        let mut function = Function::new(alloc);
        let mut types = Typifier::new(alloc);
        !put_many(&mut function) || grows_or_stays(&module, &function, &mut types)
    }

    #[test]
    fn a_refused_growth_keeps_the_types(rt: HostRuntime) {
        assert!(rt; is_grown_or_kept(rt.alloc()));
    }
}
