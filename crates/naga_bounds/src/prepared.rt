//! What is allocated for a function before it changes.
ghost use Rattle.std.specs.Prelude.{◌≡◌, ◌≤◌, All, IfErr, IfOk, MatchResult, OnOk, length};
ghost use Rattle.naga_arena.specs.Limits.{max_len};
ghost use Rattle.naga_bounds.specs.Changes.{AreChanges, counts_by};
ghost use Rattle.naga_bounds.specs.Modules.{typed_in};
ghost use Rattle.naga_bounds.specs.Plans.{IsShort};
ghost use Rattle.naga_bounds.specs.Prepared.{IsPrepared, IsReady};
ghost use Rattle.naga_bounds.specs.Restricted.{IsChanged, new_len};
ghost use Rattle.naga_bounds.specs.RestrictedModules.{IsEmitted, IsObstacle, IsTyped, IsUnplanned};

use crate::accesses::Accesses;
use crate::building::Building;
use crate::plan::Plan;
use crate::rebuild::{push_fronts, push_groups};
use crate::restrict_error::Obstacle;
use naga_arena::Arena;
use naga_compact::{rename_block, rename_keys, rename_values};
use naga_flow::InvalidUse;
use naga_ir::{Function, Module, NamedExpressions, Override};
use std::alloc::Global;

/// The changes of a function, with the memory that they need.
#[derive(Drop)]
pub(crate) struct Prepared {
    plan: Plan,
    building: Building,
    names: NamedExpressions,
}

/// Prepares the changes of a function, or returns `None` if each access of it fits.
pub(crate) fn prepare(
    alloc: Global,
    module: &Module,
    function: &Function,
) -> Result<Option<Prepared>, Obstacle>
    ensures { MatchResult result (IsPrepared «module».now function.now) (IsObstacle «module».now function.now) }
{
    let accesses = match judged(alloc, module, function) {
        Ok(accesses) => accesses,
        Err(obstacle) => return Err(obstacle),
    };
    if accesses.all_fit() {
        return Ok(None);
    }
    match clamped(alloc, &accesses, &module.overrides, function) {
        Ok(prepared) => Ok(Some(prepared)),
        Err(obstacle) => Err(obstacle),
    }
}

/// Prepares the changes of a function of which some access does not fit.
fn clamped(
    alloc: Global,
    accesses: &Accesses<'_>,
    overrides: &Arena<Override>,
    function: &Function,
) -> Result<Prepared, Obstacle>
    requires { accesses.now.arena ≡ function.now.expressions }
    ensures changes { IfOk result (λ prepared.
        AreChanges (counts_by overrides.now accesses.now.types) accesses.now prepared.plan) }
    ensures ready { IfOk result (IsReady function.now) }
    ensures error { IfErr result (IsUnplanned (counts_by overrides.now accesses.now.types) accesses.now) }
{
    match planned(alloc, accesses, overrides) {
        Ok(plan) => with_memory(alloc, plan, function),
        Err(obstacle) => Err(obstacle),
    }
}

/// Returns the accesses of a function whose expressions have types and whose body passes the check of uses.
fn judged<'a>(
    alloc: Global,
    module: &'a Module,
    function: &'a Function,
) -> Result<Accesses<'a>, Obstacle>
    ensures value { IfOk result (λ accesses. accesses ≡ typed_in «module».now function.now) }
    ensures typed { OnOk result (IsTyped «module».now function.now) }
    ensures emitted { OnOk result (IsEmitted «module».now function.now) }
    ensures error { IfErr result (IsObstacle «module».now function.now) }
{
    let accesses = match Accesses::typed(alloc, module, function) {
        Ok(accesses) => accesses,
        Err(obstacle) => return Err(obstacle),
    };
    match accesses.check_emitted(alloc, function) {
        Ok(()) => Ok(accesses),
        Err(InvalidUse::Misuse(misuse)) => Err(Obstacle::NotEmitted(misuse)),
        Err(InvalidUse::Memory) => Err(Obstacle::Memory),
    }
}

/// Returns the changes of the expressions of a function.
fn planned(
    alloc: Global,
    accesses: &Accesses<'_>,
    overrides: &Arena<Override>,
) -> Result<Plan, Obstacle>
    ensures changes { IfOk result (AreChanges (counts_by overrides.now accesses.now.types) accesses.now) }
    ensures short { IfOk result (All IsShort) }
    ensures bound { IfOk result (λ plan. new_len plan ≤ max_len) }
    ensures error { IfErr result (IsUnplanned (counts_by overrides.now accesses.now.types) accesses.now) }
{
    match accesses.changes(alloc, overrides) {
        Ok(changes) => Plan::new(alloc, changes),
        Err(obstacle) => Err(obstacle),
    }
}

/// Allocates what the changes of a function need.
fn with_memory(alloc: Global, plan: Plan, function: &Function) -> Result<Prepared, Obstacle>
    requires all { length plan ≡ length function.now.expressions }
    requires short { All IsShort plan }
    ensures plan { IfOk result (λ prepared. prepared.plan ≡ plan) }
    ensures ready { IfOk result (IsReady function.now) }
    ensures error { IfErr result (λ obstacle. obstacle ≡ Obstacle.Memory) }
{
    let Ok(building) = Building::with_capacity(alloc, plan.new_len()) else {
        return Err(Obstacle::Memory);
    };
    match NamedExpressions::with_capacity(alloc, function.named_expressions.len()) {
        Ok(names) => Ok(Prepared {
            plan,
            building,
            names,
        }),
        Err(_) => Err(Obstacle::Memory),
    }
}

impl Prepared {
    /// Changes the function. Nothing is allocated.
    pub(crate) fn apply(self, function: &mut Function)
        requires { IsReady function.old self }
        ensures { IsChanged self.plan function.old function.new }
    {
        let Prepared {
            plan,
            mut building,
            names,
        } = self;
        push_fronts(&mut building, &plan, &function.expressions);
        push_groups(&mut building, &plan, &mut function.expressions);
        function.expressions = building.finish();
        rename_keys(&mut function.named_expressions, names, &plan);
        rename_values(&mut function.local_variables, &plan);
        rename_block(&mut function.body, &plan);
    }
}
