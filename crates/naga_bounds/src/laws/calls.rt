//! What fits stays in bounds with calls, too, and clamping keeps the outcomes of executions with calls.
ghost use Rattle.naga_bounds.specs.CalledOutcomes.{RestrictingKeepsCallers, RestrictingKeepsOutcomesWithCalls};
ghost use Rattle.naga_bounds.specs.Calls.{CalledLengthsStay, FittingStaysInBoundsWithCalls};
ghost use Rattle.naga_bounds.specs.ModuleOutcomes.{RestrictedModulesComputeTheSame, RestrictedModulesStayInBounds};

use super::restricting_keeps_outcomes;

/// No call changes how long arrays are, whatever functions are called, if no other statement does.
pub fn called_lengths_stay<Thing, Value, State>()
    ensures { CalledLengthsStay Thing Value State }
{}

/// In a function whose accesses fit, no execution accesses an element that is not there, where calls have the meanings of
/// the functions that are called. If the accesses of each function of a module fit, this holds in each call, down to any
/// depth.
pub fn fitting_stays_in_bounds_with_calls<Thing, Value, State>()
    ensures { FittingStaysInBoundsWithCalls Thing Value State }
{}

/// An execution that was in bounds with all its calls, down to any depth, has the same outcome after the accesses of its
/// function, or of functions that it calls, were clamped. Any of these functions may stay as it is.
pub fn restricting_keeps_outcomes_with_calls<Thing, Value, State>()
    ensures clamped { RestrictingKeepsOutcomesWithCalls Thing Value State }
    ensures callers { RestrictingKeepsCallers Thing Value State }
{
    restricting_keeps_outcomes::<Thing, Value, State>();
}

/// In a module that [`restrict`](crate::restrict) has changed, with calls of the functions of the module, each
/// function and each entry point computes what it computed, where it was in bounds with all its calls, and none
/// accesses an element that is not there.
pub fn restricted_modules<Thing, Value, State>()
    ensures same { RestrictedModulesComputeTheSame Thing Value State }
    ensures in_bounds { RestrictedModulesStayInBounds Thing Value State }
{
    restricting_keeps_outcomes::<Thing, Value, State>();
}
