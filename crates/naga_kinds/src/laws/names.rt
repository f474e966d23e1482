//! Laws of names: each variant of a plain kind is found by its name, so the names are distinct, and none is missing.
ghost use Rattle.naga_kinds.specs.Names.{IsFirstOfItsName};
ghost use Rattle.naga_kinds.specs.derived.Names.{binary_operator_name, binary_operators, collective_operation_name, collective_operations, conservative_depth_name, conservative_depths, cooperative_role_name, cooperative_roles, cooperative_size_name, cooperative_sizes, derivative_axes, derivative_axis_name, derivative_control_name, derivative_controls, direction_name, directions, image_dimension_name, image_dimensions, interpolation_name, interpolations, math_function_name, math_functions, mesh_output_topologies, mesh_output_topology_name, relational_function_name, relational_functions, sampling_name, samplings, scalar_kind_name, scalar_kinds, severities, severity_name, shader_stage_name, shader_stages, standard_filterable_triggering_rule_name, standard_filterable_triggering_rules, storage_format_name, storage_formats, subgroup_operation_name, subgroup_operations, swizzle_component_name, swizzle_components, unary_operator_name, unary_operators, vector_size_name, vector_sizes};

use crate::binding::{Interpolation, Sampling};
use crate::diagnostic_filter::{Severity, StandardFilterableTriggeringRule};
use crate::entry_point::{ConservativeDepth, MeshOutputTopology, ShaderStage};
use crate::format::StorageFormat;
use crate::image::ImageDimension;
use crate::math::MathFunction;
use crate::operator::{
    BinaryOperator, DerivativeAxis, DerivativeControl, RelationalFunction, SwizzleComponent,
    UnaryOperator,
};
use crate::scalar::{CooperativeRole, CooperativeSize, ScalarKind, VectorSize};
use crate::subgroup::{CollectiveOperation, Direction, SubgroupOperation};

/// Each scalar kind, vector size, cooperative size and cooperative role is found by its name.
pub fn scalars_and_sizes_are_found_by_name(
    scalar: ScalarKind,
    size: VectorSize,
    cooperative_size: CooperativeSize,
    role: CooperativeRole,
)
    ensures scalar { IsFirstOfItsName scalar_kind_name scalar_kinds scalar }
    ensures size { IsFirstOfItsName vector_size_name vector_sizes size }
    ensures cooperative_size { IsFirstOfItsName cooperative_size_name cooperative_sizes cooperative_size }
    ensures role { IsFirstOfItsName cooperative_role_name cooperative_roles role }
{}

/// Each operator, and each axis and precision of a derivative, is found by its name.
pub fn operators_are_found_by_name(
    unary: UnaryOperator,
    binary: BinaryOperator,
    axis: DerivativeAxis,
    control: DerivativeControl,
)
    ensures unary { IsFirstOfItsName unary_operator_name unary_operators unary }
    ensures binary { IsFirstOfItsName binary_operator_name binary_operators binary }
    ensures axis { IsFirstOfItsName derivative_axis_name derivative_axes axis }
    ensures control { IsFirstOfItsName derivative_control_name derivative_controls control }
{}

/// Each mathematical or relational function, and each component of a vector, is found by its name.
pub fn functions_and_components_are_found_by_name(
    mathematical: MathFunction,
    relational: RelationalFunction,
    component: SwizzleComponent,
)
    ensures mathematical { IsFirstOfItsName math_function_name math_functions mathematical }
    ensures relational { IsFirstOfItsName relational_function_name relational_functions relational }
    ensures component { IsFirstOfItsName swizzle_component_name swizzle_components component }
{}

/// Each format and dimension of images, mode of interpolation and position of sampling is found by its name.
pub fn images_and_bindings_are_found_by_name(
    format: StorageFormat,
    dimension: ImageDimension,
    interpolation: Interpolation,
    sampling: Sampling,
)
    ensures format { IsFirstOfItsName storage_format_name storage_formats format }
    ensures dimension { IsFirstOfItsName image_dimension_name image_dimensions dimension }
    ensures interpolation { IsFirstOfItsName interpolation_name interpolations interpolation }
    ensures sampling { IsFirstOfItsName sampling_name samplings sampling }
{}

/// Each direction in a quad, operation of subgroups and collective operation is found by its name.
pub fn subgroups_are_found_by_name(
    direction: Direction,
    operation: SubgroupOperation,
    collective: CollectiveOperation,
)
    ensures direction { IsFirstOfItsName direction_name directions direction }
    ensures operation { IsFirstOfItsName subgroup_operation_name subgroup_operations operation }
    ensures collective { IsFirstOfItsName collective_operation_name collective_operations collective }
{}

/// Each stage, conservative depth and topology of a mesh output is found by its name.
pub fn entry_points_are_found_by_name(
    stage: ShaderStage,
    depth: ConservativeDepth,
    topology: MeshOutputTopology,
)
    ensures stage { IsFirstOfItsName shader_stage_name shader_stages stage }
    ensures depth { IsFirstOfItsName conservative_depth_name conservative_depths depth }
    ensures topology { IsFirstOfItsName mesh_output_topology_name mesh_output_topologies topology }
{}

/// Each severity, and each rule that WGSL defines, is found by its name.
pub fn reports_are_found_by_name(severity: Severity, rule: StandardFilterableTriggeringRule)
    ensures severity { IsFirstOfItsName severity_name severities severity }
    ensures rule { IsFirstOfItsName standard_filterable_triggering_rule_name standard_filterable_triggering_rules rule }
{}
