//! Statements, an expression and a constant that have no JSON, or whose operands have none: expressions that are not in
//! the function, values of types that are not in the module, predeclared results, and functions that are not there.
use crate::modules::{at, module_with};
use naga_arena::Span;
use naga_ir::{
    AtomicFunction, Block, CollectiveOperation, Constant, Expression, Function, Literal, Module,
    PredeclaredType, Scalar, Statement, SubgroupOperation, Type,
};
use naga_typifier::{ResolveContext, Typifier};
use naga_typing::{check_body_types, check_types, faults_of_declarations};
use std::alloc::Global;
use std::fmt::Display;

/// A float, a number, a structure, which is the predeclared result of an exchange, an atomic, pointers to the atomic
/// and to the float, and a vector.
const TYPES: &str = r#"
{"name":null,"inner":{"Scalar":{"kind":"Float","width":4}}},
{"name":null,"inner":{"Scalar":{"kind":"Uint","width":4}}},
{"name":null,"inner":{"Struct":{"members":[{"name":null,"ty":0,"binding":null,"offset":0},{"name":null,"ty":0,"binding":null,"offset":4}],"span":8}}},
{"name":null,"inner":{"Atomic":{"kind":"Uint","width":4}}},
{"name":null,"inner":{"Pointer":{"base":3,"space":"WorkGroup"}}},
{"name":null,"inner":{"Pointer":{"base":0,"space":"Function"}}},
{"name":null,"inner":{"Vector":{"size":"Quad","scalar":{"kind":"Float","width":4}}}}"#;

/// The value of a type that is not in the module.
const UNDECLARED: u8 = 7;

/// An expression that is not in the function.
const ABSENT: u8 = 8;

/// A statement. A number is that of an expression.
#[derive(Clone, Copy)]
enum Step {
    /// A pointer and a value.
    Store(u8, u8),
    /// What is compared. The atomic, the new value and the result are always the same.
    Exchange(Option<u8>),
    /// An argument and a result.
    Collective(u8, u8),
    /// A call of a function that is not there.
    Call,
}

/// Statements, and what is said of them, or nothing if they pass.
const ROWS: &[(Step, &str)] = &[
    (
        Step::Store(ABSENT, 0),
        "body[0]: expression 8 must be a pointer to data of a known size",
    ),
    (
        Step::Store(UNDECLARED, 0),
        "body[0]: expression 7 must be a pointer to data of a known size",
    ),
    (
        Step::Store(4, ABSENT),
        "body[0]: expression 8 must be of the type behind expression 4",
    ),
    (
        Step::Store(4, UNDECLARED),
        "body[0]: expression 7 must be of the type behind expression 4",
    ),
    (Step::Exchange(Some(6)), ""),
    (
        Step::Exchange(Some(0)),
        "body[0]: expression 0 must be the scalar of the atomic behind expression 3",
    ),
    (
        Step::Exchange(None),
        "body[0]: expression 2 must be the scalar of the atomic behind expression 3",
    ),
    (
        Step::Collective(ABSENT, 0),
        "body[0]: expression 8 must be of the type of expression 0",
    ),
    (
        Step::Collective(0, ABSENT),
        "body[0]: expression 0 must be of the type of expression 8",
    ),
    (Step::Call, "body[0]: function 3 does not take 0 arguments"),
];

/// Returns the table above.
fn rows() -> &'static [(Step, &'static str)] {
    ROWS
}

/// Returns the statement of a step.
fn statement(alloc: Global, step: Step) -> Statement {
    match step {
        Step::Store(pointer, value) => Statement::Store {
            pointer: at::<Expression>(pointer),
            value: at::<Expression>(value),
        },
        Step::Exchange(compare) => Statement::Atomic {
            pointer: at::<Expression>(3),
            fun: AtomicFunction::Exchange {
                compare: compare.map(at::<Expression>),
            },
            value: at::<Expression>(1),
            result: Some(at::<Expression>(2)),
        },
        Step::Collective(argument, result) => Statement::SubgroupCollectiveOperation {
            op: SubgroupOperation::Add,
            collective_op: CollectiveOperation::Reduce,
            argument: at::<Expression>(argument),
            result: at::<Expression>(result),
        },
        Step::Call => Statement::Call {
            function: at::<Function>(3),
            arguments: Vec::new(alloc),
            result: None,
        },
    }
}

/// Declares the result of an exchange. Returns whether this succeeds.
fn predeclare(module: &mut Module) -> bool {
    let key = PredeclaredType::AtomicCompareExchangeWeakResult(Scalar::U32);
    module
        .special_types
        .predeclared_types
        .insert(key, at::<Type>(2))
        .is_ok()
}

/// Returns the module of all rows, or `None` if allocation fails.
fn module(alloc: Global) -> Option<Module> {
    let mut module = module_with(alloc, TYPES, "", "")?;
    if predeclare(&mut module) {
        Some(module)
    } else {
        None
    }
}

/// Appends an expression. Returns whether this succeeds.
fn put(function: &mut Function, expression: Expression) -> bool {
    function
        .expressions
        .append(expression, Span::UNDEFINED)
        .is_ok()
}

/// Appends values of these types, of which some have no zero value. Returns whether this succeeds.
fn put_values(function: &mut Function, types: &[u8]) -> bool {
    for ty in types {
        let ty = at::<Type>(*ty);
        if !put(function, Expression::SubgroupOperationResult { ty }) {
            return false;
        }
    }
    true
}

/// Appends a value of each type but the atomic, a literal, and a value of a type that is not in the module. Returns
/// whether this succeeds.
fn put_operands(function: &mut Function) -> bool {
    put_values(function, &[0, 1, 2, 4, 5, 6])
        && put(function, Expression::Literal(Literal::U32(0)))
        && put_values(function, &[99])
}

/// Returns whether this is the text of a fault.
fn shows<T: Display>(alloc: Global, fault: &T, text: &str) -> bool {
    fault
        .to_string(alloc)
        .is_ok_and(|found| found.as_str() == text)
}

/// Returns whether this is said of the body of a function, or nothing is said if the text is empty.
fn is_said(
    alloc: Global,
    module: &Module,
    function: &Function,
    types: &Typifier,
    text: &str,
) -> bool {
    match check_body_types(module, function, types) {
        Ok(()) => text.is_empty(),
        Err(mismatch) => shows(alloc, &mismatch.display(function), text),
    }
}

/// Gives a function the statement of a row. Returns whether what the row says is said of it.
fn is_right(
    alloc: Global,
    module: &Module,
    function: &mut Function,
    types: &Typifier,
    row: &(Step, &str),
) -> bool {
    let mut body = Block::new(alloc);
    if body.push(statement(alloc, row.0), Span::UNDEFINED).is_err() {
        return false;
    }
    function.body = body;
    is_said(alloc, module, function, types, row.1)
}

/// Returns how many rows at the beginning are right, with these types of the operands.
fn count_typed(alloc: Global, module: &Module, function: &mut Function, types: &Typifier) -> usize {
    for (number, row) in rows().iter().enumerate() {
        if !is_right(alloc, module, function, types, row) {
            return number;
        }
    }
    rows().len()
}

/// Finds the types of the operands. Returns whether this succeeds.
fn grow(types: &mut Typifier, module: &Module, function: &Function) -> bool {
    let ctx = ResolveContext::with_function(module, function);
    types.grow(&function.expressions, &ctx).is_ok()
}

/// Returns how many rows at the beginning are right, or `None` if allocation fails.
fn count_right(alloc: Global) -> Option<usize> {
    let module = module(alloc)?;
    let mut function = Function::new(alloc);
    let mut types = Typifier::new(alloc);
    if put_operands(&mut function) && grow(&mut types, &module, &function) {
        Some(count_typed(alloc, &module, &mut function, &types))
    } else {
        None
    }
}

#[test]
fn operands_may_be_missing(rt: HostRuntime) {
    let right = count_right(rt.alloc());
    assert!(rt; right == Some(rows().len()), "row {right:?}");
}

/// Returns whether this is said of a module.
fn is_invalid(alloc: Global, module: &Module, text: &str) -> bool {
    match check_types(alloc, module) {
        Ok(()) => false,
        Err(invalid) => shows(alloc, &invalid, text),
    }
}

/// Returns whether an access with an index of a type that is not in the module is found.
fn finds_index(alloc: Global) -> bool {
    let Some(mut module) = module(alloc) else {
        return false;
    };
    let mut function = Function::new(alloc);
    let access = Expression::Access {
        base: at::<Expression>(5),
        index: at::<Expression>(UNDECLARED),
    };
    let text =
        "function 0: expression 8: expression 7 must be a scalar of integers, found type 99, which is not declared";
    put_operands(&mut function)
        && put(&mut function, access)
        && module.functions.append(function, Span::UNDEFINED).is_ok()
        && is_invalid(alloc, &module, text)
}

/// Returns whether the only fault of the declarations of a module has this text.
fn has_fault(alloc: Global, module: &Module, text: &str) -> bool {
    match faults_of_declarations(alloc, module) {
        Ok(faults) => {
            faults.len() == 1
                && faults
                    .first()
                    .is_some_and(|fault| shows(alloc, fault, text))
        }
        Err(_) => false,
    }
}

/// Returns whether a constant whose initial value is not there is found, by both checks.
fn finds_initial_value(alloc: Global) -> bool {
    let Some(mut module) = module(alloc) else {
        return false;
    };
    let constant = Constant {
        name: None,
        ty: at::<Type>(0),
        init: at::<Expression>(99),
    };
    let text = "constant 0: expression 99 must be of the declared type, type 0";
    module.constants.append(constant, Span::UNDEFINED).is_ok()
        && is_invalid(alloc, &module, text)
        && has_fault(alloc, &module, text)
}

#[test]
fn what_is_missing_is_found(rt: HostRuntime) {
    assert!(rt; finds_index(rt.alloc()));
    assert!(rt; finds_initial_value(rt.alloc()));
}
