// Made by tests/derive from the declarations of naga_kinds and naga_ir.
//! Appends the texts of the enums of `expression`.
ghost use Rattle.std.specs.Prelude.{codes, is_some, OnOk, ◌++◌, ◌≡◌};
ghost use Rattle.std.specs.Option.{option_map};
ghost use Rattle.naga_text.specs.Literals.{literal_text};
ghost use Rattle.naga_text.specs.Parts.{pattern_text};
ghost use Rattle.naga_text.specs.Words.{flag, optional_name, optional_number, word};
ghost use Rattle.naga_kinds.specs.derived.Names.{cooperative_role_name, cooperative_size_name, derivative_axis_name, derivative_control_name, scalar_kind_name, swizzle_component_name, vector_size_name};
ghost use Rattle.naga_text.specs.derived.Expression.{atomic_function_text, gather_mode_text, image_query_text, kind_text, sample_level_text};

use crate::literal::push_value;
use crate::parts::push_pattern;
use crate::pieces::{
    push_flagged, push_kind_name, push_named_kind, push_numbered, push_optional_kind,
    push_optional_number, push_presence,
};
use crate::text::Text;
use naga_arena::Handle;
use naga_ir::{
    AtomicFunction, Bytes, CooperativeRole, CooperativeSize, DerivativeAxis, DerivativeControl,
    Expression, GatherMode, ImageQuery, Literal, SampleLevel, ScalarKind, SwizzleComponent,
    VectorSize,
};
use std::alloc::AllocError;

/// Appends an `AtomicFunction`, with a space before it.
///
/// Returns `Err` if allocation fails. The text may then end with a part of this.
// One line for each variant.
#[rattlefmt::skip]
pub(crate) fn push_atomic_function(text: &mut Text, atomic_function: &AtomicFunction) -> Result<(), AllocError>
    ensures { OnOk result (text.new ≡ text.old ++ atomic_function_text atomic_function.now) }
{
    match atomic_function {
        AtomicFunction::Add => text.push(" Add"),
        AtomicFunction::Subtract => text.push(" Subtract"),
        AtomicFunction::And => text.push(" And"),
        AtomicFunction::ExclusiveOr => text.push(" ExclusiveOr"),
        AtomicFunction::InclusiveOr => text.push(" InclusiveOr"),
        AtomicFunction::Min => text.push(" Min"),
        AtomicFunction::Max => text.push(" Max"),
        AtomicFunction::Exchange { .. } => text.push(" Exchange"),
    }
}

/// Appends a `SampleLevel`, with a space before it.
///
/// Returns `Err` if allocation fails. The text may then end with a part of this.
// One line for each variant.
#[rattlefmt::skip]
pub(crate) fn push_sample_level(text: &mut Text, sample_level: &SampleLevel) -> Result<(), AllocError>
    ensures { OnOk result (text.new ≡ text.old ++ sample_level_text sample_level.now) }
{
    match sample_level {
        SampleLevel::Auto => text.push(" Auto"),
        SampleLevel::Zero => text.push(" Zero"),
        SampleLevel::Exact(_) => text.push(" Exact"),
        SampleLevel::Bias(_) => text.push(" Bias"),
        SampleLevel::Gradient { .. } => text.push(" Gradient"),
    }
}

/// Appends an `ImageQuery`, with a space before it.
///
/// Returns `Err` if allocation fails. The text may then end with a part of this.
// One line for each variant.
#[rattlefmt::skip]
pub(crate) fn push_image_query(text: &mut Text, image_query: &ImageQuery) -> Result<(), AllocError>
    ensures { OnOk result (text.new ≡ text.old ++ image_query_text image_query.now) }
{
    match image_query {
        ImageQuery::Size { .. } => text.push(" Size"),
        ImageQuery::NumLevels => text.push(" NumLevels"),
        ImageQuery::NumLayers => text.push(" NumLayers"),
        ImageQuery::NumSamples => text.push(" NumSamples"),
    }
}

/// Appends a `GatherMode`, with a space before it.
///
/// Returns `Err` if allocation fails. The text may then end with a part of this.
// One line for each variant.
#[rattlefmt::skip]
pub(crate) fn push_gather_mode(text: &mut Text, gather_mode: &GatherMode) -> Result<(), AllocError>
    ensures { OnOk result (text.new ≡ text.old ++ gather_mode_text gather_mode.now) }
{
    match gather_mode {
        GatherMode::BroadcastFirst => text.push(" BroadcastFirst"),
        GatherMode::Broadcast(_) => text.push(" Broadcast"),
        GatherMode::Shuffle(_) => text.push(" Shuffle"),
        GatherMode::ShuffleDown(_) => text.push(" ShuffleDown"),
        GatherMode::ShuffleUp(_) => text.push(" ShuffleUp"),
        GatherMode::ShuffleXor(_) => text.push(" ShuffleXor"),
        GatherMode::QuadBroadcast(_) => text.push(" QuadBroadcast"),
        GatherMode::QuadSwap(direction) => push_named_kind(text, " QuadSwap", *direction),
    }
}

/// Appends the name of a variant, its fields that are not handles, and the names of the optional handles that are present.
///
/// Returns `Err` if allocation fails. The text may then end with a part of this.
// One line for each variant.
#[rattlefmt::skip]
pub fn push_kind(text: &mut Text, expression: &Expression) -> Result<(), AllocError>
    ensures { OnOk result (text.new ≡ text.old ++ kind_text expression.now) }
{
    match expression {
        Expression::Literal(literal) => push_expression_literal(text, *literal),
        Expression::Constant(_) => text.push("Constant"),
        Expression::Override(_) => text.push("Override"),
        Expression::ZeroValue(_) => text.push("ZeroValue"),
        Expression::Compose { .. } => text.push("Compose"),
        Expression::Access { .. } => text.push("Access"),
        Expression::AccessIndex { index, .. } => push_numbered(text, "AccessIndex", *index),
        Expression::Splat { size, .. } => push_named_kind(text, "Splat", *size),
        Expression::Swizzle { size, pattern, .. } => push_expression_swizzle(text, *size, pattern),
        Expression::FunctionArgument(value) => push_numbered(text, "FunctionArgument", *value),
        Expression::GlobalVariable(_) => text.push("GlobalVariable"),
        Expression::LocalVariable(_) => text.push("LocalVariable"),
        Expression::Load { .. } => text.push("Load"),
        Expression::ImageSample { gather, array_index, offset, level, depth_ref, clamp_to_edge, .. } =>
            push_expression_image_sample(text, *gather, *array_index, *offset, level, *depth_ref, *clamp_to_edge),
        Expression::ImageLoad { array_index, sample, level, .. } =>
            push_expression_image_load(text, *array_index, *sample, *level),
        Expression::ImageQuery { query, .. } => push_expression_image_query(text, query),
        Expression::Unary { op, .. } => push_named_kind(text, "Unary", *op),
        Expression::Binary { op, .. } => push_named_kind(text, "Binary", *op),
        Expression::Select { .. } => text.push("Select"),
        Expression::Derivative { axis, ctrl, .. } => push_expression_derivative(text, *axis, *ctrl),
        Expression::Relational { fun, .. } => push_named_kind(text, "Relational", *fun),
        Expression::Math { fun, .. } => push_named_kind(text, "Math", *fun),
        Expression::As { kind, convert, .. } => push_expression_as(text, *kind, *convert),
        Expression::CallResult(_) => text.push("CallResult"),
        Expression::AtomicResult { comparison, .. } => push_flagged(text, "AtomicResult", *comparison, "comparison"),
        Expression::WorkGroupUniformLoadResult { .. } => text.push("WorkGroupUniformLoadResult"),
        Expression::ArrayLength(_) => text.push("ArrayLength"),
        Expression::RayQueryVertexPositions { committed, .. } =>
            push_flagged(text, "RayQueryVertexPositions", *committed, "committed"),
        Expression::RayQueryProceedResult => text.push("RayQueryProceedResult"),
        Expression::RayQueryGetIntersection { committed, .. } =>
            push_flagged(text, "RayQueryGetIntersection", *committed, "committed"),
        Expression::SubgroupBallotResult => text.push("SubgroupBallotResult"),
        Expression::SubgroupOperationResult { .. } => text.push("SubgroupOperationResult"),
        Expression::CooperativeLoad { columns, rows, role, data } =>
            push_expression_cooperative_load(text, *columns, *rows, *role, data.row_major),
        Expression::CooperativeMultiplyAdd { .. } => text.push("CooperativeMultiplyAdd"),
    }
}

/// Appends the text of an `Expression::Literal`.
fn push_expression_literal(text: &mut Text, literal: Literal) -> Result<(), AllocError>
    ensures { OnOk result (text.new ≡ text.old ++ (codes "Literal" ++ word (literal_text literal))) }
{
    text.push("Literal")?;
    push_value(text, literal)
}

/// Appends the text of an `Expression::Swizzle`.
fn push_expression_swizzle(
    text: &mut Text,
    size: VectorSize,
    pattern: &[SwizzleComponent; 4],
) -> Result<(), AllocError>
    ensures { OnOk result (text.new ≡ text.old
        ++ (codes "Swizzle" ++ (word (vector_size_name size) ++ word (pattern_text pattern.now)))) }
{
    text.push("Swizzle")?;
    push_kind_name(text, size)?;
    push_pattern(text, pattern)
}

/// Appends the text of an `Expression::ImageSample`.
fn push_expression_image_sample(
    text: &mut Text,
    gather: Option<SwizzleComponent>,
    array_index: Option<Handle<Expression>>,
    offset: Option<Handle<Expression>>,
    level: &SampleLevel,
    depth_ref: Option<Handle<Expression>>,
    clamp_to_edge: bool,
) -> Result<(), AllocError>
    ensures { OnOk result (text.new ≡ text.old
        ++ (codes "ImageSample" ++ (optional_name (codes "gather") (option_map swizzle_component_name gather)
        ++ (flag (is_some array_index) (codes "array_index") ++ (flag (is_some offset) (codes "offset")
        ++ (sample_level_text level.now ++ (flag (is_some depth_ref) (codes "depth_ref")
        ++ flag clamp_to_edge (codes "clamp_to_edge")))))))) }
{
    text.push("ImageSample")?;
    push_optional_kind(text, "gather", gather)?;
    push_presence(text, array_index, "array_index")?;
    push_presence(text, offset, "offset")?;
    push_sample_level(text, level)?;
    push_presence(text, depth_ref, "depth_ref")?;
    text.push_flag(clamp_to_edge, "clamp_to_edge")
}

/// Appends the text of an `Expression::ImageLoad`.
fn push_expression_image_load(
    text: &mut Text,
    array_index: Option<Handle<Expression>>,
    sample: Option<Handle<Expression>>,
    level: Option<Handle<Expression>>,
) -> Result<(), AllocError>
    ensures { OnOk result (text.new ≡ text.old
        ++ (codes "ImageLoad" ++ (flag (is_some array_index) (codes "array_index")
        ++ (flag (is_some sample) (codes "sample") ++ flag (is_some level) (codes "level"))))) }
{
    text.push("ImageLoad")?;
    push_presence(text, array_index, "array_index")?;
    push_presence(text, sample, "sample")?;
    push_presence(text, level, "level")
}

/// Appends the text of an `Expression::ImageQuery`.
fn push_expression_image_query(text: &mut Text, query: &ImageQuery) -> Result<(), AllocError>
    ensures { OnOk result (text.new ≡ text.old ++ (codes "ImageQuery" ++ image_query_text query.now)) }
{
    text.push("ImageQuery")?;
    push_image_query(text, query)
}

/// Appends the text of an `Expression::Derivative`.
fn push_expression_derivative(
    text: &mut Text,
    axis: DerivativeAxis,
    ctrl: DerivativeControl,
) -> Result<(), AllocError>
    ensures { OnOk result (text.new ≡ text.old
        ++ (codes "Derivative" ++ (word (derivative_axis_name axis) ++ word (derivative_control_name ctrl)))) }
{
    text.push("Derivative")?;
    push_kind_name(text, axis)?;
    push_kind_name(text, ctrl)
}

/// Appends the text of an `Expression::As`.
fn push_expression_as(
    text: &mut Text,
    kind: ScalarKind,
    convert: Option<Bytes>,
) -> Result<(), AllocError>
    ensures { OnOk result (text.new ≡ text.old
        ++ (codes "As" ++ (word (scalar_kind_name kind) ++ optional_number convert))) }
{
    text.push("As")?;
    push_kind_name(text, kind)?;
    push_optional_number(text, convert)
}

/// Appends the text of an `Expression::CooperativeLoad`.
fn push_expression_cooperative_load(
    text: &mut Text,
    columns: CooperativeSize,
    rows: CooperativeSize,
    role: CooperativeRole,
    row_major: bool,
) -> Result<(), AllocError>
    ensures { OnOk result (text.new ≡ text.old
        ++ (codes "CooperativeLoad" ++ (word (cooperative_size_name columns) ++ (word (cooperative_size_name rows)
        ++ (word (cooperative_role_name role) ++ flag row_major (codes "row_major")))))) }
{
    text.push("CooperativeLoad")?;
    push_kind_name(text, columns)?;
    push_kind_name(text, rows)?;
    push_kind_name(text, role)?;
    text.push_flag(row_major, "row_major")
}
