//! Expressions that have no JSON, or whose operands have none: types that are not in the module, structures that are
//! not declared, operands without a known type, names of what is not there, and predeclared types.
use crate::modules::{at, entry_point_text, module_with};
use naga_arena::Handle;
use naga_ir::{
    AddressSpace, Constant, Expression, Function, GlobalVariable, LocalVariable, Module, Override,
    PredeclaredType, Scalar, StructMember, Type, TypeInner, VectorSize,
};
use naga_sets::HandleVec;
use naga_typifier::{GrowError, ResolveContext, ResolveError, TypeResolution};
use std::alloc::{AllocError, Global};
use std::fmt::Display;

/// A float, a vector of three floats, and a structure of both, which is predeclared.
const TYPES: &str = r#"
{"name":null,"inner":{"Scalar":{"kind":"Float","width":4}}},
{"name":null,"inner":{"Vector":{"size":"Tri","scalar":{"kind":"Float","width":4}}}},
{"name":null,"inner":{"Struct":{"members":[{"name":null,"ty":0,"binding":null,"offset":0},{"name":null,"ty":1,"binding":null,"offset":16}],"span":32}}}"#;

/// The operands, whose types are not those of these expressions, and of which the last has no known type.
const OPERANDS: &str =
    r#"{"ZeroValue":0},{"ZeroValue":0},{"ZeroValue":0},{"ZeroValue":0},{"ZeroValue":0},{"ZeroValue":0},{"ZeroValue":0}"#;

/// The number of operands.
const COUNT: usize = 7;

/// Expressions, and the type of each, or why it has none. Operand 0 has a type that is not in the module, 1 is a
/// pointer to it, 2 a structure that is not declared, 3 a float, 4 a vector of three floats, and 5 a sampler. The type
/// of 6 is not known.
const ROWS: &str = r#"{"AccessIndex":{"base":2,"index":1}} => Handle([1])
{"Access":{"base":1,"index":3}} => operand 1 has type 99, which is not in the module
{"AccessIndex":{"base":0,"index":0}} => operand 0 has type 99, which is not in the module
{"Access":{"base":6,"index":3}} => operand 6 has no known type
{"AccessIndex":{"base":6,"index":0}} => operand 6 has no known type
{"Splat":{"size":"Bi","value":6}} => operand 6 has no known type
{"Splat":{"size":"Bi","value":0}} => operand 0 has type 99, which is not in the module
{"Load":{"pointer":1}} => operand 1 has type 99, which is not in the module
{"Load":{"pointer":6}} => operand 6 has no known type
{"Unary":{"op":"Negate","expr":2}} => operand 2 has a type that has to be declared
{"Unary":{"op":"Negate","expr":6}} => operand 6 has no known type
{"Select":{"condition":3,"accept":6,"reject":3}} => operand 6 has no known type
{"Derivative":{"axis":"X","ctrl":"Fine","expr":6}} => operand 6 has no known type
{"CooperativeLoad":{"columns":"Eight","rows":"Sixteen","role":"B","data":{"pointer":1,"stride":3,"row_major":false}}} => operand 1 has type 99, which is not in the module
{"CooperativeMultiplyAdd":{"a":3,"b":4,"c":6}} => operand 6 has no known type
{"ImageLoad":{"image":6,"coordinate":4,"array_index":null,"sample":null,"level":null}} => operand 6 has no known type
{"ImageSample":{"image":0,"sampler":5,"gather":null,"coordinate":4,"array_index":null,"offset":null,"level":"Zero","depth_ref":null,"clamp_to_edge":false}} => operand 0 has type 99, which is not in the module
{"ImageQuery":{"image":6,"query":{"Size":{"level":null}}}} => operand 6 has no known type
{"Binary":{"op":"Multiply","left":6,"right":5}} => operand 6 has no known type
{"Binary":{"op":"Multiply","left":3,"right":6}} => operand 6 has no known type
{"Binary":{"op":"Multiply","left":3,"right":0}} => operand 0 has type 99, which is not in the module
{"Math":{"fun":"Outer","arg":4,"arg1":6,"arg2":null,"arg3":null}} => operand 6 has no known type
{"Math":{"fun":"Outer","arg":6,"arg1":4,"arg2":null,"arg3":null}} => operand 6 has no known type
{"Math":{"fun":"Outer","arg":0,"arg1":4,"arg2":null,"arg3":null}} => operand 0 has type 99, which is not in the module
{"Math":{"fun":"Modf","arg":3,"arg1":null,"arg2":null,"arg3":null}} => Handle([2])
{"Math":{"fun":"Frexp","arg":4,"arg1":null,"arg2":null,"arg3":null}} => Handle([2])"#;

/// Operators that keep the type of the left operand, and those that compare.
const OPERATORS: &str = r#"{"Binary":{"op":"Add","left":6,"right":3}} => operand 6 has no known type
{"Binary":{"op":"Add","left":2,"right":3}} => operand 2 has a type that has to be declared
{"Binary":{"op":"Subtract","left":6,"right":3}} => operand 6 has no known type
{"Binary":{"op":"Subtract","left":2,"right":3}} => operand 2 has a type that has to be declared
{"Binary":{"op":"Divide","left":6,"right":3}} => operand 6 has no known type
{"Binary":{"op":"Divide","left":2,"right":3}} => operand 2 has a type that has to be declared
{"Binary":{"op":"Modulo","left":6,"right":3}} => operand 6 has no known type
{"Binary":{"op":"Modulo","left":2,"right":3}} => operand 2 has a type that has to be declared
{"Binary":{"op":"And","left":6,"right":3}} => operand 6 has no known type
{"Binary":{"op":"And","left":2,"right":3}} => operand 2 has a type that has to be declared
{"Binary":{"op":"ExclusiveOr","left":6,"right":3}} => operand 6 has no known type
{"Binary":{"op":"ExclusiveOr","left":2,"right":3}} => operand 2 has a type that has to be declared
{"Binary":{"op":"InclusiveOr","left":6,"right":3}} => operand 6 has no known type
{"Binary":{"op":"InclusiveOr","left":2,"right":3}} => operand 2 has a type that has to be declared
{"Binary":{"op":"ShiftLeft","left":6,"right":3}} => operand 6 has no known type
{"Binary":{"op":"ShiftLeft","left":2,"right":3}} => operand 2 has a type that has to be declared
{"Binary":{"op":"ShiftRight","left":6,"right":3}} => operand 6 has no known type
{"Binary":{"op":"ShiftRight","left":2,"right":3}} => operand 2 has a type that has to be declared
{"Binary":{"op":"Equal","left":6,"right":3}} => operand 6 has no known type
{"Binary":{"op":"NotEqual","left":6,"right":3}} => operand 6 has no known type
{"Binary":{"op":"Less","left":6,"right":3}} => operand 6 has no known type
{"Binary":{"op":"LessEqual","left":6,"right":3}} => operand 6 has no known type
{"Binary":{"op":"Greater","left":6,"right":3}} => operand 6 has no known type
{"Binary":{"op":"GreaterEqual","left":6,"right":3}} => operand 6 has no known type
{"Binary":{"op":"LogicalAnd","left":6,"right":3}} => operand 6 has no known type
{"Binary":{"op":"LogicalOr","left":6,"right":3}} => operand 6 has no known type"#;

/// Returns the contents of a structure, or `None` if allocation fails.
fn structure(alloc: Global) -> Option<TypeInner> {
    let mut members = Vec::new(alloc);
    for number in [0u8, 1] {
        let member = StructMember {
            name: None,
            ty: at::<Type>(number),
            binding: None,
            offset: 16 * u32::from(number),
        };
        members.push(member).ok()?;
    }
    Some(TypeInner::Struct { members, span: 32 })
}

/// The types of operands, in the order of their expressions.
type Known = HandleVec<Expression, TypeResolution>;

/// Appends the type of the next operand. Returns `None` if allocation fails.
fn put(known: &mut Known, ty: TypeResolution) -> Option<()> {
    let next = Handle::<Expression>::from_usize(known.len())?;
    known.insert(next, ty).ok()
}

/// Returns the types of the operands that are known, or `None` if allocation fails.
fn known_types(alloc: Global) -> Option<Known> {
    let (scalar, size) = (Scalar::F32, VectorSize::Tri);
    let pointer = TypeInner::Pointer {
        base: at::<Type>(99),
        space: AddressSpace::Private,
    };
    let mut known = HandleVec::new(alloc);
    put(&mut known, TypeResolution::Handle(at::<Type>(99)))?;
    put(&mut known, TypeResolution::Value(pointer))?;
    put(&mut known, TypeResolution::Value(structure(alloc)?))?;
    put(&mut known, TypeResolution::Value(TypeInner::Scalar(scalar)))?;
    put(
        &mut known,
        TypeResolution::Value(TypeInner::Vector { size, scalar }),
    )?;
    let sampler = TypeInner::Sampler { comparison: false };
    put(&mut known, TypeResolution::Value(sampler))?;
    Some(known)
}

/// Returns the JSON of a function with the operands and the expressions of rows.
fn function_text(alloc: Global, rows: &str) -> Result<String, AllocError> {
    let mut expressions = String::from_str(alloc, OPERANDS)?;
    for row in rows.lines() {
        let (expression, _) = row.split_once(" => ").unwrap_or((row, ""));
        expressions.push_str(",")?;
        expressions.push_str(expression)?;
    }
    format!(in alloc;
        "{{\"name\":null,\"arguments\":[],\"result\":null,\"local_variables\":[],\"expressions\":[{expressions}],\"named_expressions\":{{}},\"body\":[],\"diagnostic_filter_leaf\":null}}"
    )
}

/// Declares what `modf` of a float and `frexp` of a vector return. Returns whether this succeeds.
fn predeclare(module: &mut Module) -> bool {
    let scalar = Scalar::F32;
    let size = Some(VectorSize::Tri);
    let types = &mut module.special_types.predeclared_types;
    let (modf, frexp) = (
        PredeclaredType::ModfResult { size: None, scalar },
        PredeclaredType::FrexpResult { size, scalar },
    );
    types.insert(modf, at::<Type>(2)).is_ok() && types.insert(frexp, at::<Type>(2)).is_ok()
}

/// Returns whether a text is that of a value.
fn shows<T: Display>(alloc: Global, value: &T, text: &str) -> bool {
    value
        .to_string(alloc)
        .is_ok_and(|found| found.as_str() == text)
}

/// Returns whether this is the type of an expression, or why it has none.
fn is_told(
    alloc: Global,
    ctx: &ResolveContext<'_>,
    known: &Known,
    expression: &Expression,
    text: &str,
) -> bool {
    match ctx.resolve(expression, known) {
        Ok(ty) => format!(in alloc; "{ty:?}").is_ok_and(|found| found.as_str() == text),
        Err(error) => shows(alloc, &error, text),
    }
}

/// Returns how many rows at the beginning are right.
fn count_right(
    alloc: Global,
    module: &Module,
    function: &Function,
    known: &Known,
    rows: &str,
) -> usize {
    let ctx = ResolveContext::with_function(module, function);
    for (number, row) in rows.lines().enumerate() {
        let (_, text) = row.split_once(" => ").unwrap_or((row, ""));
        let handle = Handle::<Expression>::from_usize(number.saturating_add(COUNT));
        match handle.and_then(|it| function.expressions.try_get(it).ok()) {
            Some(expression) if is_told(alloc, &ctx, known, expression, text) => {}
            _ => return number,
        }
    }
    rows.lines().count()
}

/// Returns how many rows at the beginning are right, or `None` if allocation fails.
fn count_rows(alloc: Global, rows: &str) -> Option<usize> {
    let function = function_text(alloc, rows).ok()?;
    let mut module = module_with(alloc, TYPES, function.as_str(), "")?;
    let known = known_types(alloc)?;
    if !predeclare(&mut module) {
        return None;
    }
    let function = module.functions.try_get(at::<Function>(0)).ok()?;
    Some(count_right(alloc, &module, function, &known, rows))
}

#[test]
fn operands_may_have_no_type(rt: HostRuntime) {
    let right = count_rows(rt.alloc(), ROWS);
    assert!(rt; right == Some(ROWS.lines().count()), "row {right:?}");
    let right = count_rows(rt.alloc(), OPERATORS);
    assert!(rt; right == Some(OPERATORS.lines().count()), "row {right:?}");
}

/// Returns whether this is told of an expression of an empty function.
fn is_alone(alloc: Global, expression: &Expression, text: &str) -> bool {
    let module = Module::new(alloc);
    let function = Function::new(alloc);
    let ctx = ResolveContext::with_function(&module, &function);
    is_told(alloc, &ctx, &HandleVec::new(alloc), expression, text)
}

/// Returns whether names of what is not in the module have no type.
fn tells_names(alloc: Global) -> bool {
    let constant = Expression::Constant(at::<Constant>(1));
    let size = Expression::Override(at::<Override>(1));
    let variable = Expression::GlobalVariable(at::<GlobalVariable>(2));
    is_alone(alloc, &constant, "constant 1 is not in the module")
        && is_alone(alloc, &size, "override 1 is not in the module")
        && is_alone(alloc, &variable, "global variable 2 is not in the module")
}

/// Returns whether names of what is not there have no type, and a value of a type that is not there has it.
fn tells_other_names(alloc: Global) -> bool {
    let variable = Expression::LocalVariable(at::<LocalVariable>(1));
    let called = Expression::CallResult(at::<Function>(2));
    let value = Expression::ZeroValue(at::<Type>(99));
    is_alone(alloc, &variable, "local variable 1 is not in the function")
        && is_alone(alloc, &called, "function 2 is not in the module")
        && is_alone(alloc, &value, "Handle([99])")
}

/// Returns whether errors of growing have texts.
fn tells_growth(alloc: Global) -> bool {
    let (expression, function) = (at::<Expression>(1), at::<Function>(2));
    let error = ResolveError::FunctionReturnsVoid(function);
    let stopped = GrowError::NoType { expression, error };
    shows(
        alloc,
        &stopped,
        "expression 1 has no type: function 2 returns nothing",
    ) && shows(alloc, &GrowError::Memory, "out of memory")
}

/// An entry point with an argument.
const FUNCTION: &str =
    r#"{"name":null,"arguments":[{"name":null,"ty":1,"binding":null}],"result":null,"local_variables":[],"expressions":[],"named_expressions":{},"body":[],"diagnostic_filter_leaf":null}"#;

/// Returns the module of the entry point, or `None` if allocation fails.
fn entry_point_module(alloc: Global) -> Option<Module> {
    let entry_point = entry_point_text(alloc, FUNCTION).ok()?;
    module_with(alloc, TYPES, "", entry_point.as_str())
}

/// Returns whether the argument of an entry point has its type.
fn tells_arguments(alloc: Global) -> bool {
    let Some(module) = entry_point_module(alloc) else {
        return false;
    };
    let Some(entry_point) = module.entry_points.first() else {
        return false;
    };
    let ctx = ResolveContext::with_entry_point(&module, entry_point);
    let known = HandleVec::new(alloc);
    is_told(
        alloc,
        &ctx,
        &known,
        &Expression::FunctionArgument(0),
        "Handle([1])",
    )
}

#[test]
fn names_are_found_or_not(rt: HostRuntime) {
    assert!(rt; tells_names(rt.alloc()));
    assert!(rt; tells_other_names(rt.alloc()));
    assert!(rt; tells_growth(rt.alloc()));
    assert!(rt; tells_arguments(rt.alloc()));
}
