//! The texts of expressions, by their operands.
ghost use Rattle.std.specs.Prelude.{◌≡◌, ◌∷◌, ◌++◌, [], Ok, OnOk, codes};
ghost use Rattle.std.specs.Fmt.{decimal};
ghost use Rattle.std.specs.Option.{option_copied, option_to_list};
ghost use Rattle.naga_wgsl.specs.Forms.{cast_text, component_letter, component_name, element_text, form_text, letters, load_text, member_text, names_of, part_text, target_text};
ghost use Rattle.naga_wgsl.specs.Operators.{math_text};
ghost use Rattle.naga_wgsl.specs.Operations.{between, call_text, followed, named_call_text};
ghost use Rattle.naga_wgsl.specs.TypeTexts.{name_at, text_at};
ghost use Rattle.naga_wgsl.specs.Types.{name_or, size_text};
ghost use Rattle.naga_wgsl.specs.WriteError.{Attempts, Writes};
ghost use Rattle.naga_wgsl.specs.declared.write_error.Cause.TheVariants.{Function, Part};

use crate::literal::write_literal;
use crate::operation::{write_access, write_between, write_call, write_infix, write_prefix};
use crate::operator::{
    binary_operator, derivative_function, math_function, relational_function, unary_operator,
};
use crate::scope::{Scope, Shape};
use crate::type_texts::{TypeTexts, text_at, write_name};
use crate::types::{write_matrix, write_scalar, write_vector};
use crate::write_error::{Cause, WriteError};
use naga_arena::Handle;
use naga_ir::{Expression, Type};
use naga_kinds::{Bytes, MathFunction, Scalar, ScalarKind, SwizzleComponent, VectorSize};
use naga_text::Text;
use std::alloc::AllocError;

/// Appends an expression, given the texts of the expressions before it.
///
/// `shape` is that of the first operand of an access by a constant index, a load or a conversion; for a pointer, it is the
/// shape of what it points to. The text of a pointer is that of the place to which it points. Each text is in parentheses,
/// or it is a name, a literal or a call, or a part of one of these, so that it can be an operand.
///
/// Returns `Err` if the expression has no text, or allocation fails. A part of the text may then have been appended.
// One line for each variant.
#[rattlefmt::skip]
#[tactic(auto, using(crate::proofs::AttemptsLemmas::attempts_written))]
pub fn write_form(
    text: &mut Text,
    scope: &Scope<'_>,
    known: &[Result<Text, Cause>],
    shape: Shape,
    expression: &Expression,
) -> Result<(), WriteError>
    ensures { Attempts (form_text scope.now known.now shape expression.now) text.old text.new result }
{
    match expression {
        Expression::Literal(literal) => write_literal(text, *literal),
        Expression::Constant(handle) => write_name(text, scope.constants, handle.index()),
        Expression::Override(handle) => write_name(text, scope.overrides, handle.index()),
        Expression::ZeroValue(ty) => write_zero(text, scope.types, *ty),
        Expression::Compose { ty, components } => write_compose(text, scope.types, known, *ty, components.as_slice()),
        Expression::Access { base, index } => write_access(text, known, *base, *index),
        Expression::AccessIndex { base, index } => write_part(text, scope.members, known, *base, shape, *index),
        Expression::Splat { size, value } => write_splat(text, known, *size, *value),
        Expression::Swizzle { size, vector, pattern } => write_swizzle(text, known, *size, *vector, pattern),
        Expression::FunctionArgument(index) => write_name(text, scope.arguments, *index as usize),
        Expression::GlobalVariable(handle) => write_name(text, scope.global_variables, handle.index()),
        Expression::LocalVariable(handle) => write_name(text, scope.local_variables, handle.index()),
        Expression::Load { pointer } => write_load(text, known, shape, *pointer),
        Expression::ImageSample { .. } => Err(WriteError::Inexpressible(Cause::ImageUse)),
        Expression::ImageLoad { .. } => Err(WriteError::Inexpressible(Cause::ImageUse)),
        Expression::ImageQuery { .. } => Err(WriteError::Inexpressible(Cause::ImageUse)),
        Expression::Unary { op, expr } => write_prefix(text, known, unary_operator(*op), *expr),
        Expression::Binary { op, left, right } => write_infix(text, known, *left, binary_operator(*op), *right),
        Expression::Select { condition, accept, reject } => write_call(text, known, "select", &[*reject, *accept, *condition]),
        Expression::Derivative { axis, ctrl, expr } => write_call(text, known, derivative_function(*axis, *ctrl), &[*expr]),
        Expression::Relational { fun, argument } => write_function(text, known, relational_function(*fun), &[*argument]),
        Expression::Math { fun, arg, arg1, arg2, arg3 } => write_math(text, known, *fun, *arg, *arg1, *arg2, *arg3),
        Expression::As { expr, kind, convert } => write_cast(text, known, shape, *expr, *kind, *convert),
        Expression::CallResult(_) => Err(WriteError::Inexpressible(Cause::Unnamed)),
        Expression::AtomicResult { .. } => Err(WriteError::Inexpressible(Cause::Unnamed)),
        Expression::WorkGroupUniformLoadResult { .. } => Err(WriteError::Inexpressible(Cause::Unnamed)),
        Expression::ArrayLength(array) => write_between(text, known, "arrayLength(&", *array, ")"),
        Expression::RayQueryVertexPositions { .. } => Err(WriteError::Inexpressible(Cause::RayTracing)),
        Expression::RayQueryProceedResult => Err(WriteError::Inexpressible(Cause::RayTracing)),
        Expression::RayQueryGetIntersection { .. } => Err(WriteError::Inexpressible(Cause::RayTracing)),
        Expression::SubgroupBallotResult => Err(WriteError::Inexpressible(Cause::Unnamed)),
        Expression::SubgroupOperationResult { .. } => Err(WriteError::Inexpressible(Cause::Unnamed)),
        Expression::CooperativeLoad { .. } => Err(WriteError::Inexpressible(Cause::CooperativeMatrix)),
        Expression::CooperativeMultiplyAdd { .. } => Err(WriteError::Inexpressible(Cause::CooperativeMatrix)),
    }
}

/// Appends the zero value of a type. Returns `Err` if the type has no text, or allocation fails.
fn write_zero(text: &mut Text, types: &TypeTexts, ty: Handle<Type>) -> Result<(), WriteError>
    ensures { Writes (between [] (text_at types.now ty) (codes "()")) text.old text.new result }
{
    match types.get(ty) {
        Ok(name) => {
            text.push(name)?;
            text.push("()")?;
            Ok(())
        }
        Err(cause) => Err(WriteError::Inexpressible(cause)),
    }
}

/// Appends a value of a type, made of its components. Returns `Err` if the type or a component has no text, or allocation
/// fails.
fn write_compose(
    text: &mut Text,
    types: &TypeTexts,
    known: &[Result<Text, Cause>],
    ty: Handle<Type>,
    components: &[Handle<Expression>],
) -> Result<(), WriteError>
    ensures { Attempts (named_call_text known.now (text_at types.now ty) components.now) text.old text.new result }
{
    match types.get(ty) {
        Ok(name) => write_call(text, known, name, components),
        Err(cause) => Err(WriteError::Inexpressible(cause)),
    }
}

/// Appends the part with an index of an operand that has a shape. Returns `Err` if the operand has no text or no such part,
/// or allocation fails.
fn write_part(
    text: &mut Text,
    members: &[Vec<String>],
    known: &[Result<Text, Cause>],
    base: Handle<Expression>,
    shape: Shape,
    index: u32,
) -> Result<(), WriteError>
    ensures { Writes (followed (text_at known.now base) (part_text members.now shape index)) text.old text.new result }
{
    match text_at(known, base.index()) {
        Ok(base) => write_part_of(text, members, base, shape, index),
        Err(cause) => Err(WriteError::Inexpressible(cause)),
    }
}

/// Appends the part with an index of an operand that has a text and a shape. Returns `Err` if it has no such part, or
/// allocation fails.
fn write_part_of(
    text: &mut Text,
    members: &[Vec<String>],
    base: &str,
    shape: Shape,
    index: u32,
) -> Result<(), WriteError>
    ensures { Writes (followed (Ok base.now) (part_text members.now shape index)) text.old text.new result }
{
    match shape {
        Shape::Scalar(_) => Err(WriteError::Inexpressible(Cause::Part)),
        Shape::Vector { .. } => write_component(text, base, index),
        Shape::Matrix { .. } => write_element(text, base, index),
        Shape::Atomic => Err(WriteError::Inexpressible(Cause::Part)),
        Shape::Array => write_element(text, base, index),
        Shape::Struct(handle) => write_member(text, members, base, handle, index),
        Shape::Other => Err(WriteError::Inexpressible(Cause::Part)),
    }
}

/// Appends a component of a vector. Returns `Err` if there is none with this index, or allocation fails.
fn write_component(text: &mut Text, base: &str, index: u32) -> Result<(), WriteError>
    ensures { Writes (followed (Ok base.now) (name_or Part (component_name index))) text.old text.new result }
{
    match component_name(index) {
        Some(name) => {
            text.push(base)?;
            text.push(name)?;
            Ok(())
        }
        None => Err(WriteError::Inexpressible(Cause::Part)),
    }
}

/// Returns what selects the component with an index, or `None` if there is none.
fn component_name(index: u32) -> Option<&'static str>
    ensures { option_copied result ≡ component_name index }
{
    match index {
        0 => Some(".x"),
        1 => Some(".y"),
        2 => Some(".z"),
        3 => Some(".w"),
        _ => None,
    }
}

/// Appends an element by a constant index. Returns `Err` if allocation fails.
fn write_element(text: &mut Text, base: &str, index: u32) -> Result<(), WriteError>
    ensures { Writes (Ok (base.now ++ element_text index)) text.old text.new result }
{
    text.push(base)?;
    text.push("[")?;
    text.push_number(u64::from(index))?;
    text.push("]")?;
    Ok(())
}

/// Appends a member of a structure. Returns `Err` if it has no name, or allocation fails.
fn write_member(
    text: &mut Text,
    members: &[Vec<String>],
    base: &str,
    handle: Handle<Type>,
    index: u32,
) -> Result<(), WriteError>
    ensures { Writes (followed (Ok base.now) (member_text (name_at (names_of members.now handle) index))) text.old
        text.new result }
{
    match members.get(handle.index()) {
        Some(names) => write_member_of(text, names.as_slice(), base, index),
        None => Err(WriteError::Inexpressible(Cause::Name)),
    }
}

/// Appends a member by the names of all of them. Returns `Err` if it has no name, or allocation fails.
fn write_member_of(
    text: &mut Text,
    names: &[String],
    base: &str,
    index: u32,
) -> Result<(), WriteError>
    ensures { Writes (followed (Ok base.now) (member_text (name_at names.now index))) text.old text.new result }
{
    match names.get(index as usize) {
        Some(name) => {
            text.push(base)?;
            text.push(".")?;
            text.push(name.as_str())?;
            Ok(())
        }
        None => Err(WriteError::Inexpressible(Cause::Name)),
    }
}

/// Appends a vector all of whose components are a value. Returns `Err` if the value has no text, or allocation fails.
fn write_splat(
    text: &mut Text,
    known: &[Result<Text, Cause>],
    size: VectorSize,
    value: Handle<Expression>,
) -> Result<(), WriteError>
    ensures { Attempts (call_text known.now (codes "vec" ++ size_text size) (value ∷ [])) text.old text.new result }
{
    write_call(text, known, vector_name(size), &[value])
}

/// Returns the name of the vectors of a size.
fn vector_name(size: VectorSize) -> &'static str
    ensures { result.now ≡ codes "vec" ++ size_text size }
{
    match size {
        VectorSize::Bi => "vec2",
        VectorSize::Tri => "vec3",
        VectorSize::Quad => "vec4",
    }
}

/// Appends the components of a vector that a pattern selects. Returns `Err` if the vector has no text, or allocation fails.
fn write_swizzle(
    text: &mut Text,
    known: &[Result<Text, Cause>],
    size: VectorSize,
    vector: Handle<Expression>,
    pattern: &[SwizzleComponent; 4],
) -> Result<(), WriteError>
    ensures { Writes (followed (text_at known.now vector) (Ok (codes "." ++ letters size pattern.now))) text.old
        text.new result }
{
    match text_at(known, vector.index()) {
        Ok(vector) => {
            text.push(vector)?;
            text.push(".")?;
            push_letters(text, size, pattern)?;
            Ok(())
        }
        Err(cause) => Err(WriteError::Inexpressible(cause)),
    }
}

/// Appends the components that a pattern selects. Returns `Err` if allocation fails.
fn push_letters(
    text: &mut Text,
    size: VectorSize,
    pattern: &[SwizzleComponent; 4],
) -> Result<(), AllocError>
    ensures { OnOk result (text.new ≡ text.old ++ letters size pattern.now) }
{
    text.push(component_letter(pattern[0]))?;
    text.push(component_letter(pattern[1]))?;
    match size {
        VectorSize::Bi => Ok(()),
        VectorSize::Tri => text.push(component_letter(pattern[2])),
        VectorSize::Quad => {
            text.push(component_letter(pattern[2]))?;
            text.push(component_letter(pattern[3]))
        }
    }
}

/// Returns the letter of a component.
fn component_letter(component: SwizzleComponent) -> &'static str
    ensures { result.now ≡ component_letter component }
{
    match component {
        SwizzleComponent::X => "x",
        SwizzleComponent::Y => "y",
        SwizzleComponent::Z => "z",
        SwizzleComponent::W => "w",
    }
}

/// Appends the value at a place that has a shape. Returns `Err` if the place has no text, or allocation fails.
fn write_load(
    text: &mut Text,
    known: &[Result<Text, Cause>],
    shape: Shape,
    pointer: Handle<Expression>,
) -> Result<(), WriteError>
    ensures { Writes (load_text shape (text_at known.now pointer)) text.old text.new result }
{
    match shape {
        Shape::Atomic => write_between(text, known, "atomicLoad(&", pointer, ")"),
        _ => write_same(text, known, pointer),
    }
}

/// Appends the text of an operand. Returns `Err` if it has none, or allocation fails.
fn write_same(
    text: &mut Text,
    known: &[Result<Text, Cause>],
    operand: Handle<Expression>,
) -> Result<(), WriteError>
    ensures { Writes (text_at known.now operand) text.old text.new result }
{
    match text_at(known, operand.index()) {
        Ok(found) => {
            text.push(found)?;
            Ok(())
        }
        Err(cause) => Err(WriteError::Inexpressible(cause)),
    }
}

/// Appends a call of a function that has a name. Returns `Err` if it has none, an operand has no text, or allocation fails.
fn write_function(
    text: &mut Text,
    known: &[Result<Text, Cause>],
    name: Option<&'static str>,
    operands: &[Handle<Expression>],
) -> Result<(), WriteError>
    ensures { Attempts (named_call_text known.now (name_or Function (option_copied name.entry)) operands.now)
        text.old text.new result }
{
    match name {
        Some(name) => write_call(text, known, name, operands),
        None => Err(WriteError::Inexpressible(Cause::Function)),
    }
}

/// Appends a call of a mathematical function. Returns `Err` if WGSL does not have it, an operand has no text, or allocation
/// fails.
fn write_math(
    text: &mut Text,
    known: &[Result<Text, Cause>],
    fun: MathFunction,
    arg: Handle<Expression>,
    arg1: Option<Handle<Expression>>,
    arg2: Option<Handle<Expression>>,
    arg3: Option<Handle<Expression>>,
) -> Result<(), WriteError>
    ensures { Attempts (named_call_text known.now (name_or Function (math_text fun))
        (arg ∷ (option_to_list arg1 ++ (option_to_list arg2 ++ option_to_list arg3)))) text.old text.new result }
{
    let name = math_function(fun);
    match (arg1, arg2, arg3) {
        (None, None, None) => write_function(text, known, name, &[arg]),
        (Some(a), None, None) | (None, Some(a), None) | (None, None, Some(a)) => {
            write_function(text, known, name, &[arg, a])
        }
        (Some(a), Some(b), None) | (Some(a), None, Some(b)) | (None, Some(a), Some(b)) => {
            write_function(text, known, name, &[arg, a, b])
        }
        (Some(a), Some(b), Some(c)) => write_function(text, known, name, &[arg, a, b, c]),
    }
}

/// Appends a value that is converted, or whose bits are kept if there is no width. Returns `Err` if WGSL has no such
/// conversion, the operand has no text, or allocation fails.
fn write_cast(
    text: &mut Text,
    known: &[Result<Text, Cause>],
    shape: Shape,
    expr: Handle<Expression>,
    kind: ScalarKind,
    convert: Option<Bytes>,
) -> Result<(), WriteError>
    ensures { Attempts (cast_text (target_text shape kind convert) (text_at known.now expr) convert) text.old
        text.new result }
{
    let mut target = text.fresh();
    match write_target(&mut target, shape, kind, convert) {
        Ok(()) => write_cast_to(text, known, target.as_str(), expr, convert),
        Err(error) => Err(error),
    }
}

/// Appends the type to which a value that has a shape is converted. Returns `Err` if WGSL has no such conversion, or
/// allocation fails.
fn write_target(
    text: &mut Text,
    shape: Shape,
    kind: ScalarKind,
    convert: Option<Bytes>,
) -> Result<(), WriteError>
    ensures { Writes (target_text shape kind convert) text.old text.new result }
{
    match shape {
        Shape::Scalar(scalar) => {
            let width = convert.unwrap_or(scalar.width);
            write_scalar(text, Scalar { kind, width })
        }
        Shape::Vector { size, scalar } => {
            let width = convert.unwrap_or(scalar.width);
            write_vector(text, size, Scalar { kind, width })
        }
        Shape::Matrix { columns, rows, .. } => match convert {
            Some(width) => write_matrix(text, columns, rows, Scalar { kind, width }),
            None => Err(WriteError::Inexpressible(Cause::Cast)),
        },
        Shape::Atomic | Shape::Array | Shape::Struct(_) | Shape::Other => {
            Err(WriteError::Inexpressible(Cause::Cast))
        }
    }
}

/// Appends a value that is converted to a type with a text, or whose bits are kept if there is no width. Returns `Err` if
/// the operand has no text, or allocation fails.
fn write_cast_to(
    text: &mut Text,
    known: &[Result<Text, Cause>],
    target: &str,
    expr: Handle<Expression>,
    convert: Option<Bytes>,
) -> Result<(), WriteError>
    ensures { Writes (cast_text (Ok target.now) (text_at known.now expr) convert) text.old text.new result }
{
    match (text_at(known, expr.index()), convert) {
        (Ok(operand), Some(_)) => {
            push_converted(text, target, operand)?;
            Ok(())
        }
        (Ok(operand), None) => {
            push_bits(text, target, operand)?;
            Ok(())
        }
        (Err(cause), _) => Err(WriteError::Inexpressible(cause)),
    }
}

/// Appends a value that is converted to a type. Returns `Err` if allocation fails.
fn push_converted(text: &mut Text, target: &str, operand: &str) -> Result<(), AllocError>
    ensures { OnOk result (text.new ≡ text.old ++ ((target.now ++ codes "(") ++ (operand.now ++ codes ")"))) }
{
    text.push(target)?;
    text.push("(")?;
    text.push(operand)?;
    text.push(")")
}

/// Appends a value of a type that has the bits of another value. Returns `Err` if allocation fails.
fn push_bits(text: &mut Text, target: &str, operand: &str) -> Result<(), AllocError>
    ensures { OnOk result (text.new ≡ text.old ++ ((codes "bitcast<" ++ (target.now ++ codes ">(")) ++ (operand.now
        ++ codes ")"))) }
{
    text.push("bitcast<")?;
    text.push(target)?;
    text.push(">(")?;
    text.push(operand)?;
    text.push(")")
}
