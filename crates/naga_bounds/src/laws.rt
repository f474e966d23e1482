//! No execution of a function whose accesses fit is out of bounds. All accesses fit after they were clamped, which keeps
//! what the checks of jumps and of uses say, and the outcomes of executions that were in bounds.
ghost use Rattle.std.specs.Prelude.{⊤};
ghost use Rattle.naga_bounds.specs.Calls.{CallsKeepLengths};
ghost use Rattle.naga_bounds.specs.Laws.{FittingStaysInBounds};
ghost use Rattle.naga_bounds.specs.Model.{nothing_known, number, plain_calls, remembering, unsigned_number};
ghost use Rattle.naga_bounds.specs.Respects.{HasElements, HaveShortLengths, LengthsStay, RespectsClamps, RespectsIndices};
ghost use Rattle.naga_bounds.specs.RestrictedLaws.{RestrictedFits, RestrictedIsTyped, RestrictedIsWithin, RestrictedModuleIsTyped, RestrictedOperandsPrecede, RestrictedStaysInBounds, RestrictingKeepsJumps, RestrictingKeepsOutcomes, RestrictingKeepsTypes, RestrictingKeepsUses, RestrictingTwice};

pub mod calls;
pub mod examples;
pub mod parts;
pub mod unfit;

/// There is an interpretation that respects indices and clamps, in which arrays have elements, are not too long, and
/// keep their lengths, also in calls. Statements store to a variable that loads read. The length of an array differs
/// from start to start, and past its end an access by a computed index differs from one by a constant index.
pub fn laws_hold_somewhere()
    ensures indices { RespectsIndices nothing_known remembering number unsigned_number }
    ensures clamps { RespectsClamps nothing_known remembering number unsigned_number }
    ensures elements { HasElements nothing_known remembering number (λ handle. ⊤) }
    ensures short { HaveShortLengths nothing_known remembering number (λ handle. ⊤) }
    ensures lengths { LengthsStay nothing_known remembering number }
    ensures calls { CallsKeepLengths nothing_known remembering number plain_calls }
{}

/// In a function whose accesses fit, no execution accesses an element that is not there. What the function uses must have
/// been evaluated, as `check_emitted` of naga_flow has it with the set of accesses by constant indices below fixed lengths.
pub fn fitting_stays_in_bounds<Thing, Value, State>()
    ensures { FittingStaysInBounds Thing Value State }
{}

/// After the accesses of a function were clamped, each of its expressions has a type, and those that it had before have
/// the types that they had.
pub fn restricting_keeps_types()
    ensures { RestrictingKeepsTypes }
{}

/// A function that passes the check of types still passes it after its accesses were clamped, and a module after it was
/// restricted.
pub fn restricted_is_typed()
    ensures functions { RestrictedIsTyped }
    ensures modules { RestrictedModuleIsTyped }
{}

/// Each access of a function whose accesses were clamped fits.
pub fn restricted_fits()
    ensures { RestrictedFits }
{}

/// Each expression of a function whose accesses were clamped refers only to earlier ones, if that was so before.
pub fn restricted_operands_precede()
    ensures { RestrictedOperandsPrecede }
{}

/// The handles of a function whose accesses were clamped are valid if they were before.
pub fn restricted_is_within()
    ensures { RestrictedIsWithin }
{}

/// Clamping the accesses of a function changes no jump, so each jump is allowed where it is if it was before.
pub fn restricting_keeps_jumps()
    ensures { RestrictingKeepsJumps }
{}

/// Whatever a function uses is evaluated before, and nothing again in its scope, after its accesses were clamped too.
pub fn restricting_keeps_uses()
    ensures { RestrictingKeepsUses }
{}

/// A function that was restricted passes both checks of [`restrict`](crate::restrict) again, and restricting it again
/// changes nothing.
pub fn restricting_twice()
    ensures { RestrictingTwice }
{}

/// In a function that was restricted, no execution accesses an element that is not there.
pub fn restricted_stays_in_bounds<Thing, Value, State>()
    ensures { RestrictedStaysInBounds Thing Value State }
{}

/// An execution that was in bounds has the same outcome after the accesses of its function were clamped, if the accesses
/// that initial values need fitted.
pub fn restricting_keeps_outcomes<Thing, Value, State>()
    ensures { RestrictingKeepsOutcomes Thing Value State }
{}
