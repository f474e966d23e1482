//! Meanings of small bodies, computed: before and after passes.
ghost use Rattle.std.specs.Prelude.{◌≡◌, ◌-◌, ◌^◌, ◌∷◌, ℕ, [], None, Some, Vec, false};
ghost use Rattle.std.specs.declared.alloc.Global.{Global};
ghost use Rattle.naga_ir.specs.Tree.{jump, kill, return};
ghost use Rattle.naga_ir.specs.declared.statement.Statement as statement;
ghost use Rattle.naga_runs.specs.declared.run.Ending.{Ending};
ghost use Rattle.naga_compact.specs.Culling.{culled};
ghost use Rattle.naga_proc.specs.Closing.{closed};
ghost use Rattle.naga_proc.specs.declared.terminator.rule.Rule.{Rule};
ghost use Rattle.naga_meaning.specs.Examples.{adding, adding_and_calling, apart, body_without, branching, branching_expressions, caller, calling, closed_function, compacted_branching_expressions, compacted_looping_expressions, computed, endless, kills_if, left_by, looping, looping_expressions, nothing_known, one_statement, stored_apart};

/// Meanings differ: a statement counts, and a body goes where the value of a condition says.
pub fn meanings_differ()
    ensures counted { (left_by 0 (one_statement (statement.Store 0 0))).state ≡ 1 }
    ensures taken { (left_by 1 (kills_if 0)).ending ≡ Ending.Kill }
    ensures passed { (left_by 0 (kills_if 0)).ending ≡ Ending.Normal }
{}

/// A body with a branch, from a variable that is 3 and from one that is 7, as it is, culled, closed and compacted.
/// Only closing changes the outcome, and only in that the body returns where it fell off the end.
pub fn a_branch_is_computed()
    ensures accepted { computed branching_expressions branching 3
        ≡ record { state = 2; ending = Ending.Return None; slipped = false; returned = None } }
    ensures rejected { computed branching_expressions branching 7
        ≡ record { state = 2 ^ 32 - 1; ending = Ending.Normal; slipped = false; returned = None } }
    ensures culled { computed branching_expressions (culled branching) 3
        ≡ record { state = 2; ending = Ending.Return None; slipped = false; returned = None } }
    ensures closed { computed branching_expressions (closed Rule.New branching) 7
        ≡ record { state = 2 ^ 32 - 1; ending = Ending.Return None; slipped = false; returned = None } }
    ensures compacted { computed compacted_branching_expressions (body_without 5 branching) 3
        ≡ record { state = 2; ending = Ending.Return None; slipped = false; returned = None } }
{}

/// A body with a loop that uses the result of an atomic operation, from a variable that is 2, as it is, culled,
/// closed and compacted. From 1, the loop would make a fifth turn, and is cut off.
pub fn a_loop_is_computed()
    ensures returned { computed looping_expressions looping 2
        ≡ record { state = 6; ending = Ending.Return (Some 0); slipped = false; returned = Some 6 } }
    ensures cut { computed looping_expressions looping 1
        ≡ record { state = 5; ending = Ending.Cut; slipped = false; returned = None } }
    ensures culled { computed looping_expressions (culled looping) 2
        ≡ record { state = 6; ending = Ending.Return (Some 0); slipped = false; returned = Some 6 } }
    ensures closed { computed looping_expressions (closed Rule.New looping) 2
        ≡ record { state = 6; ending = Ending.Return (Some 0); slipped = false; returned = Some 6 } }
    ensures compacted { computed compacted_looping_expressions (body_without 4 looping) 2
        ≡ record { state = 6; ending = Ending.Return (Some 0); slipped = false; returned = Some 6 } }
{}

/// A call is what the function that is called does: its result is the value that was returned. If the function kills
/// the invocation or is cut off, so is its caller, and no statement after the call is done. If it is closed by either
/// rule, the caller has the same outcome. Calls in the function are done, too, down to the depth.
pub fn calls_are_computed()
    ensures returned { (arguments : Vec ℕ Global)
        → calling (adding (jump (return (Some 3)) ∷ [])) 1 (caller arguments) 3
        ≡ record { state = 8; ending = Ending.Return (Some 0); slipped = false; returned = Some 4 } }
    ensures killed { (arguments : Vec ℕ Global)
        → calling (adding (jump kill ∷ [])) 1 (caller arguments) 3
        ≡ record { state = 4; ending = Ending.Kill; slipped = false; returned = None } }
    ensures cut_off { (arguments : Vec ℕ Global)
        → calling (adding (endless ∷ [])) 1 (caller arguments) 3
        ≡ record { state = 4; ending = Ending.Cut; slipped = false; returned = None } }
    ensures fallen { (arguments : Vec ℕ Global)
        → calling (adding []) 1 (caller arguments) 3
        ≡ record { state = 0; ending = Ending.Return (Some 0); slipped = false; returned = Some 0 } }
    ensures closed { (arguments : Vec ℕ Global) (rule : Rule)
        → calling (closed_function rule (adding [])) 1 (caller arguments) 3
        ≡ record { state = 0; ending = Ending.Return (Some 0); slipped = false; returned = Some 0 } }
    ensures recursive { (arguments : Vec ℕ Global)
        → calling (adding_and_calling arguments) 2 (adding_and_calling arguments) 3
        ≡ record { state = 6; ending = Ending.Return (Some 0); slipped = false; returned = Some 4 } }
{}

/// Two global variables are two places, whether or not their declarations are equal, if their handles represent two:
/// what is stored in the first is not loaded from the second. If both represent one place, it is.
pub fn equal_variables_are_two()
    ensures apart { stored_apart apart (1, 2)
        ≡ record { state = (5, 2); ending = Ending.Return (Some 0); slipped = false; returned = Some 2 } }
    ensures one { stored_apart nothing_known (1, 2)
        ≡ record { state = (5, 2); ending = Ending.Return (Some 0); slipped = false; returned = Some 5 } }
{}
