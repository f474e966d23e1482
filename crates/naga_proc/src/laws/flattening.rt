//! Laws of flattening.
ghost use Rattle.std.specs.Prelude.{◌≡◌, ◌<◌, ℕ, List, None, Some, Contains, length, slice_get, take};
ghost use Rattle.naga_arena.specs.Arena.{value_at};
ghost use Rattle.naga_arena.specs.declared.span.Span.{Span};
ghost use Rattle.naga_ir.specs.Chain.{ChainsPrecede};
ghost use Rattle.naga_proc.specs.Flatten.{AreIn, CanFlatten, compose_at, flattened, size_at, splat_at};
ghost use Rattle.naga_proc.specs.Flatten.Leaves.{HasLeaves, HaveLeaves, NestsNarrower};
ghost use Rattle.naga_ir.specs.declared.types.«Type».{«Type» as DeclaredType};
ghost use Rattle.naga_valid.specs.Valid.{HandlesAreValid};

use naga_arena::Handle;
use naga_ir::{EntryPoint, Expression, Function, Module, Type};

/// If the chains of an arena precede (`ChainsPrecede`) and the components are in the arena, everything that flattening
/// looks up is there.
pub fn preceding_chains_can_be_flattened()
    ensures { (types : List (DeclaredType × Span)) (arena : List (Expression × Span)) (ty : ℕ) (components : List ℕ)
        → ChainsPrecede arena → AreIn arena components → CanFlatten types arena ty components }
{}

/// A handle has at most one list of leaves, and so does a list of handles.
pub fn leaves_are_unique()
    ensures of_one { (arena : List (Expression × Span)) (handle : ℕ) (leaves others : List ℕ)
        → HasLeaves arena handle leaves → HasLeaves arena handle others → leaves ≡ others }
    ensures of_some { (arena : List (Expression × Span)) (handles leaves others : List ℕ)
        → HaveLeaves arena handles leaves → HaveLeaves arena handles others → leaves ≡ others }
{}

/// If vectors of vectors nest narrower (`NestsNarrower`), the components of a vector's `Compose` have leaves, and
/// flattening results in these leaves, truncated to the size of the vector.
pub fn flattening_gives_the_leaves()
    ensures { (types : List (DeclaredType × Span)) (arena : List (Expression × Span))
        (ty size : ℕ) (components : List ℕ)
        → size_at types ty ≡ Some size → NestsNarrower types arena ty components
        → (leaves : List ℕ) × HaveLeaves arena components leaves
        × (flattened types arena ty components ≡ take size leaves) }
{}

/// Vectors of vectors nest narrower if two conditions hold for the components. Each component that is a `Compose` has a
/// vector type with fewer components than the type around it, and its own components nest narrower in its own type.
/// Each component that is a `Splat` has a value that is neither a `Compose` nor a `Splat`.
pub fn components_that_nest_narrower_do_so_together()
    ensures { (types : List (DeclaredType × Span)) (arena : List (Expression × Span)) (ty : ℕ) (components : List ℕ)
        → ((handle : ℕ) (compose : ℕ × List ℕ) → Contains components handle → compose_at arena handle ≡ Some compose
        → NestsNarrower types arena compose.0 compose.1
        × (few : ℕ) × (many : ℕ) × (size_at types compose.0 ≡ Some few) × (size_at types ty ≡ Some many) × (few < many))
        → ((handle : ℕ) (splat : ℕ × ℕ) → Contains components handle → splat_at arena handle ≡ Some splat
        → (compose_at arena splat.1 ≡ None) × (splat_at arena splat.1 ≡ None))
        → NestsNarrower types arena ty components }
{}

/// In a valid module, each `Compose` of the global expressions can be flattened.
///
/// Preconditions: the module is valid, and `handle` refers to a `Compose` of this type with these components.
pub fn global_compose_can_be_flattened(
    module: &Module,
    handle: Handle<Expression>,
    ty: Handle<Type>,
    components: &[Handle<Expression>],
)
    requires valid { HandlesAreValid «module».now }
    requires found { compose_at «module».now.global_expressions handle ≡ Some (ty, components.now) }
    ensures ty { ty < length «module».now.types }
    ensures components { CanFlatten «module».now.types «module».now.global_expressions ty components.now }
{}

/// In a valid module, each `Compose` of a function can be flattened.
///
/// Preconditions: the module is valid, `function` is its function with the handle `owner`, and `handle` refers to a
/// `Compose` of this type with these components.
pub fn compose_of_function_can_be_flattened(
    module: &Module,
    owner: Handle<Function>,
    function: &Function,
    handle: Handle<Expression>,
    ty: Handle<Type>,
    components: &[Handle<Expression>],
)
    requires valid { HandlesAreValid «module».now }
    requires owner { value_at «module».now.functions owner ≡ Some function.now }
    requires found { compose_at function.now.expressions handle ≡ Some (ty, components.now) }
    ensures ty { ty < length «module».now.types }
    ensures components { CanFlatten «module».now.types function.now.expressions ty components.now }
{}

/// In a valid module, each `Compose` of an entry point can be flattened.
///
/// Preconditions: the module is valid, `entry` is its entry point at this position, and `handle` refers to a `Compose`
/// of this type with these components.
pub fn compose_of_entry_point_can_be_flattened(
    module: &Module,
    position: usize,
    entry: &EntryPoint,
    handle: Handle<Expression>,
    ty: Handle<Type>,
    components: &[Handle<Expression>],
)
    requires valid { HandlesAreValid «module».now }
    requires owner { slice_get «module».now.entry_points.items position ≡ Some entry.now }
    requires found { compose_at entry.now.function.expressions handle ≡ Some (ty, components.now) }
    ensures ty { ty < length «module».now.types }
    ensures components { CanFlatten «module».now.types entry.now.function.expressions ty components.now }
{}
