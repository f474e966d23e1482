// Made by tests/derive from the declarations of naga_kinds and naga_ir.
//! Readers of what naga_kinds and naga_ir declare, by the trait `FromJson`.
ghost use Rattle.naga_ir.specs.Types.{inner_of, member_of};
ghost use Rattle.naga_json.specs.Declarations.{constant_value, function_argument_value, global_variable_value, local_variable_value, override_value};
ghost use Rattle.naga_json.specs.Expression.{value_of};
ghost use Rattle.naga_json.specs.derived.Expression.{expression_form};
ghost use Rattle.naga_json.specs.derived.Literal.{literal_form};
ghost use Rattle.naga_json.specs.derived.Module.{constant_codec, function_argument_codec, global_variable_codec, local_variable_codec, override_codec};
ghost use Rattle.naga_json.specs.derived.Types.{struct_member_codec, type_inner_codec};

use crate::read::lists::{FromJson, Plain};
use json::Value;
use naga_ir::{
    ArraySize, AtomicFunction, Constant, CooperativeData, Expression, FunctionArgument,
    FunctionResult, GatherMode, GlobalVariable, ImageQuery, Literal, LocalVariable, MeshStageInfo,
    Override, RayPipelineFunction, RayQueryFunction, SampleLevel, StructMember, TypeInner,
};
use naga_json_expressions::read_expression;
use naga_json_types::{
    read_constant, read_function_argument, read_global_variable, read_local_variable,
    read_override, read_struct_member, read_type_inner,
};
use naga_json_values::{Cause, read_literal};
use naga_kinds::{
    AddressSpace, BinaryOperator, Binding, BuiltIn, CollectiveOperation, ConservativeDepth,
    CooperativeRole, CooperativeSize, DerivativeAxis, DerivativeControl, Direction, EarlyDepthTest,
    ImageClass, ImageDimension, Interpolation, MathFunction, MeshOutputTopology,
    RelationalFunction, ResourceBinding, Sampling, Scalar, ScalarKind, Severity, ShaderStage,
    StandardFilterableTriggeringRule, StorageFormat, SubgroupOperation, SwitchValue,
    SwizzleComponent, UnaryOperator, VectorSize,
};
use std::alloc::Global;

impl FromJson for Expression {
    ghost use Rattle.naga_json.specs.Expression.{ExpressionValue};

    ghost Meaning = { ExpressionValue };

    ghost value_of = { value_of };

    ghost meaning = { expression_form.decode };

    fn from_json(alloc: Global, value: &Value<'_>) -> Result<Self, Cause> {
        read_expression(alloc, value)
    }
}

impl FromJson for Literal {
    ghost use Rattle.naga_ir.specs.declared.literal.Literal.{Literal};

    ghost Meaning = { Literal };

    ghost value_of = { λ value. value };

    ghost meaning = { literal_form.decode };

    #[tactic(auto, using(naga_json_values::proofs::ReadsLemmas::reads_itself))]
    fn from_json(_alloc: Global, value: &Value<'_>) -> Result<Self, Cause> {
        read_literal(value)
    }
}

impl FromJson for Override {
    ghost use Rattle.naga_json.specs.Declarations.{OverrideValue};

    ghost Meaning = { OverrideValue };

    ghost value_of = { override_value };

    ghost meaning = { override_codec.decode };

    fn from_json(alloc: Global, value: &Value<'_>) -> Result<Self, Cause> {
        read_override(alloc, value)
    }
}

impl FromJson for Constant {
    ghost use Rattle.naga_json.specs.Declarations.{ConstantValue};

    ghost Meaning = { ConstantValue };

    ghost value_of = { constant_value };

    ghost meaning = { constant_codec.decode };

    fn from_json(alloc: Global, value: &Value<'_>) -> Result<Self, Cause> {
        read_constant(alloc, value)
    }
}

impl FromJson for GlobalVariable {
    ghost use Rattle.naga_json.specs.Declarations.{GlobalVariableValue};

    ghost Meaning = { GlobalVariableValue };

    ghost value_of = { global_variable_value };

    ghost meaning = { global_variable_codec.decode };

    fn from_json(alloc: Global, value: &Value<'_>) -> Result<Self, Cause> {
        read_global_variable(alloc, value)
    }
}

impl FromJson for LocalVariable {
    ghost use Rattle.naga_json.specs.Declarations.{LocalVariableValue};

    ghost Meaning = { LocalVariableValue };

    ghost value_of = { local_variable_value };

    ghost meaning = { local_variable_codec.decode };

    fn from_json(alloc: Global, value: &Value<'_>) -> Result<Self, Cause> {
        read_local_variable(alloc, value)
    }
}

impl FromJson for FunctionArgument {
    ghost use Rattle.naga_json.specs.Declarations.{FunctionArgumentValue};

    ghost Meaning = { FunctionArgumentValue };

    ghost value_of = { function_argument_value };

    ghost meaning = { function_argument_codec.decode };

    fn from_json(alloc: Global, value: &Value<'_>) -> Result<Self, Cause> {
        read_function_argument(alloc, value)
    }
}

impl FromJson for StructMember {
    ghost use Rattle.naga_ir.specs.Types.{Member};

    ghost Meaning = { Member };

    ghost value_of = { member_of };

    ghost meaning = { struct_member_codec.decode };

    fn from_json(alloc: Global, value: &Value<'_>) -> Result<Self, Cause> {
        read_struct_member(alloc, value)
    }
}

impl FromJson for TypeInner {
    ghost use Rattle.naga_ir.specs.Types.{Inner};

    ghost Meaning = { Inner };

    ghost value_of = { inner_of };

    ghost meaning = { type_inner_codec.decode };

    fn from_json(alloc: Global, value: &Value<'_>) -> Result<Self, Cause> {
        read_type_inner(alloc, value)
    }
}

impl Plain for AddressSpace {}

impl Plain for Binding {}

impl Plain for ResourceBinding {}

impl Plain for BuiltIn {}

impl Plain for EarlyDepthTest {}

impl Plain for ImageClass {}

impl Plain for Scalar {}

impl Plain for SwitchValue {}

impl Plain for AtomicFunction {}

impl Plain for SampleLevel {}

impl Plain for ImageQuery {}

impl Plain for GatherMode {}

impl Plain for CooperativeData {}

impl Plain for FunctionResult {}

impl Plain for MeshStageInfo {}

impl Plain for RayQueryFunction {}

impl Plain for RayPipelineFunction {}

impl Plain for ArraySize {}

impl Plain for Interpolation {}

impl Plain for Sampling {}

impl Plain for Severity {}

impl Plain for StandardFilterableTriggeringRule {}

impl Plain for ShaderStage {}

impl Plain for ConservativeDepth {}

impl Plain for MeshOutputTopology {}

impl Plain for StorageFormat {}

impl Plain for ImageDimension {}

impl Plain for MathFunction {}

impl Plain for UnaryOperator {}

impl Plain for BinaryOperator {}

impl Plain for DerivativeControl {}

impl Plain for DerivativeAxis {}

impl Plain for RelationalFunction {}

impl Plain for SwizzleComponent {}

impl Plain for VectorSize {}

impl Plain for CooperativeSize {}

impl Plain for ScalarKind {}

impl Plain for CooperativeRole {}

impl Plain for Direction {}

impl Plain for SubgroupOperation {}

impl Plain for CollectiveOperation {}
