//! Laws of equality: two kinds are equal if and only if they are identical in all of their fields.
ghost use Rattle.naga_kinds.specs.Equality.{DecidesEquality};

use crate::address_space::AddressSpace;
use crate::binding::{Interpolation, ResourceBinding, Sampling};
use crate::builtin::BuiltIn;
use crate::diagnostic_filter::{Severity, StandardFilterableTriggeringRule};
use crate::entry_point::{
    ConservativeDepth, EarlyDepthTest, EntryPointError, MeshOutputTopology, ShaderStage,
};
use crate::format::StorageFormat;
use crate::glsl::{GlslScalar, GlslScalarKind, GlslVectorSize};
use crate::image::{ImageClass, ImageDimension};
use crate::math::MathFunction;
use crate::operator::{
    BinaryOperator, DerivativeAxis, DerivativeControl, RelationalFunction, SwizzleComponent,
    UnaryOperator,
};
use crate::ray_query::RayQueryIntersection;
use crate::scalar::{CooperativeRole, CooperativeSize, Scalar, ScalarKind, VectorSize};
use crate::subgroup::{CollectiveOperation, Direction, SubgroupOperation};
use crate::switch::SwitchValue;

/// Two scalars, scalar kinds, vector sizes, cooperative sizes or cooperative roles are equal if and only if they are
/// identical.
pub fn scalars_and_sizes_are_equal_field_by_field(
    scalars: (Scalar, Scalar),
    kinds: (ScalarKind, ScalarKind),
    sizes: (VectorSize, VectorSize),
    cooperative_sizes: (CooperativeSize, CooperativeSize),
    roles: (CooperativeRole, CooperativeRole),
)
    ensures scalars { DecidesEquality ⟦<Scalar as PartialEq>⟧.eq scalars }
    ensures kinds { DecidesEquality ⟦<ScalarKind as PartialEq>⟧.eq kinds }
    ensures sizes { DecidesEquality ⟦<VectorSize as PartialEq>⟧.eq sizes }
    ensures cooperative_sizes { DecidesEquality ⟦<CooperativeSize as PartialEq>⟧.eq cooperative_sizes }
    ensures roles { DecidesEquality ⟦<CooperativeRole as PartialEq>⟧.eq roles }
{}

/// Two scalars, scalar kinds or sizes of GLSL uniforms are equal if and only if they are identical.
pub fn parts_of_uniforms_are_equal_field_by_field(
    scalars: (GlslScalar, GlslScalar),
    kinds: (GlslScalarKind, GlslScalarKind),
    sizes: (GlslVectorSize, GlslVectorSize),
)
    ensures scalars { DecidesEquality ⟦<GlslScalar as PartialEq>⟧.eq scalars }
    ensures kinds { DecidesEquality ⟦<GlslScalarKind as PartialEq>⟧.eq kinds }
    ensures sizes { DecidesEquality ⟦<GlslVectorSize as PartialEq>⟧.eq sizes }
{}

/// Two dimensions, classes or formats of images, or two address spaces, are equal if and only if they are identical.
pub fn images_and_spaces_are_equal_field_by_field(
    dimensions: (ImageDimension, ImageDimension),
    classes: (ImageClass, ImageClass),
    formats: (StorageFormat, StorageFormat),
    spaces: (AddressSpace, AddressSpace),
)
    ensures dimensions { DecidesEquality ⟦<ImageDimension as PartialEq>⟧.eq dimensions }
    ensures classes { DecidesEquality ⟦<ImageClass as PartialEq>⟧.eq classes }
    ensures formats { DecidesEquality ⟦<StorageFormat as PartialEq>⟧.eq formats }
    ensures spaces { DecidesEquality ⟦<AddressSpace as PartialEq>⟧.eq spaces }
{}

/// Two operators, functions, derivative options or swizzle components are equal if and only if they are identical.
pub fn operators_and_functions_are_equal_field_by_field(
    unary: (UnaryOperator, UnaryOperator),
    binary: (BinaryOperator, BinaryOperator),
    relational: (RelationalFunction, RelationalFunction),
    mathematical: (MathFunction, MathFunction),
    controls: (DerivativeControl, DerivativeControl),
    axes: (DerivativeAxis, DerivativeAxis),
    components: (SwizzleComponent, SwizzleComponent),
)
    ensures unary { DecidesEquality ⟦<UnaryOperator as PartialEq>⟧.eq unary }
    ensures binary { DecidesEquality ⟦<BinaryOperator as PartialEq>⟧.eq binary }
    ensures relational { DecidesEquality ⟦<RelationalFunction as PartialEq>⟧.eq relational }
    ensures mathematical { DecidesEquality ⟦<MathFunction as PartialEq>⟧.eq mathematical }
    ensures controls { DecidesEquality ⟦<DerivativeControl as PartialEq>⟧.eq controls }
    ensures axes { DecidesEquality ⟦<DerivativeAxis as PartialEq>⟧.eq axes }
    ensures components { DecidesEquality ⟦<SwizzleComponent as PartialEq>⟧.eq components }
{}

/// Two stages, depth tests, topologies or errors of entry points are equal if and only if they are identical.
pub fn kinds_of_entry_points_are_equal_field_by_field(
    stages: (ShaderStage, ShaderStage),
    tests: (EarlyDepthTest, EarlyDepthTest),
    depths: (ConservativeDepth, ConservativeDepth),
    topologies: (MeshOutputTopology, MeshOutputTopology),
    errors: (EntryPointError, EntryPointError),
)
    ensures stages { DecidesEquality ⟦<ShaderStage as PartialEq>⟧.eq stages }
    ensures tests { DecidesEquality ⟦<EarlyDepthTest as PartialEq>⟧.eq tests }
    ensures depths { DecidesEquality ⟦<ConservativeDepth as PartialEq>⟧.eq depths }
    ensures topologies { DecidesEquality ⟦<MeshOutputTopology as PartialEq>⟧.eq topologies }
    ensures errors { DecidesEquality ⟦<EntryPointError as PartialEq>⟧.eq errors }
{}

/// Two resource bindings, built-ins, interpolations or samplings are equal if and only if they are identical.
pub fn places_of_values_are_equal_field_by_field(
    resources: (ResourceBinding, ResourceBinding),
    built_ins: (BuiltIn, BuiltIn),
    interpolations: (Interpolation, Interpolation),
    samplings: (Sampling, Sampling),
)
    ensures resources { DecidesEquality ⟦<ResourceBinding as PartialEq>⟧.eq resources }
    ensures built_ins { DecidesEquality ⟦<BuiltIn as PartialEq>⟧.eq built_ins }
    ensures interpolations { DecidesEquality ⟦<Interpolation as PartialEq>⟧.eq interpolations }
    ensures samplings { DecidesEquality ⟦<Sampling as PartialEq>⟧.eq samplings }
{}

/// Two directions or operations of subgroups, ray intersections or switch values are equal if and only if they are
/// identical.
pub fn operations_of_groups_and_rays_are_equal_field_by_field(
    directions: (Direction, Direction),
    operations: (SubgroupOperation, SubgroupOperation),
    collective: (CollectiveOperation, CollectiveOperation),
    intersections: (RayQueryIntersection, RayQueryIntersection),
    values: (SwitchValue, SwitchValue),
)
    ensures directions { DecidesEquality ⟦<Direction as PartialEq>⟧.eq directions }
    ensures operations { DecidesEquality ⟦<SubgroupOperation as PartialEq>⟧.eq operations }
    ensures collective { DecidesEquality ⟦<CollectiveOperation as PartialEq>⟧.eq collective }
    ensures intersections { DecidesEquality ⟦<RayQueryIntersection as PartialEq>⟧.eq intersections }
    ensures values { DecidesEquality ⟦<SwitchValue as PartialEq>⟧.eq values }
{}

/// Two severities, or two rules that WGSL defines, are equal if and only if they are identical.
pub fn severities_and_standard_rules_are_equal_field_by_field(
    severities: (Severity, Severity),
    rules: (
        StandardFilterableTriggeringRule,
        StandardFilterableTriggeringRule,
    ),
)
    ensures severities { DecidesEquality ⟦<Severity as PartialEq>⟧.eq severities }
    ensures rules { DecidesEquality ⟦<StandardFilterableTriggeringRule as PartialEq>⟧.eq rules }
{}
