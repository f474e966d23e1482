//! Switches that enter the case that has the number of their selector, so that the numbers of cases matter.
//!
//! `specs/Switches.antt` says which interpretations choose so.
ghost use Rattle.std.specs.Prelude.{◌≡◌, ◌≢◌, ◌++◌, ◌∷◌, ℕ, [], List, false, length, pos};
ghost use Rattle.std.specs.List.{Contains};
ghost use Rattle.naga_kinds.specs.declared.switch.SwitchValue.{SwitchValue};
ghost use Rattle.naga_kinds.specs.declared.switch.SwitchValue.TheVariants.{Default, I32, U32};
ghost use Rattle.naga_ir.specs.Tree.{Cases, Tree, case, switch};
ghost use Rattle.naga_runs.specs.Runs.{entered, first_default, values};
ghost use Rattle.naga_meaning.specs.Examples.{numbers, switched, ten, thirty, twenty};
ghost use Rattle.naga_meaning.specs.Machine.{cases_do, node_does};
ghost use Rattle.naga_meaning.specs.Switches.{EntersByNumber, case_of};
ghost use Rattle.naga_meaning.specs.Values.{Code, Interpretation, Parts, World, machine, value};

/// The first case with the number of the selector is entered, and if no case has it, the first default, or no case if there
/// is none.
pub fn cases_are_found_by_number()
    ensures found { (number : SwitchValue) (before after : List SwitchValue) → number ≢ Default
        → ¬ Contains before number
        → entered (before ++ number ∷ after) (case_of number (before ++ number ∷ after)) ≡ length before }
    ensures other { (number : SwitchValue) (cases : List SwitchValue) → ¬ Contains cases number
        → entered cases (case_of number cases) ≡ first_default cases }
{}

/// By an interpretation that chooses by number, a switch does what its cases do from that case on. There is such an
/// interpretation.
pub fn switches_enter_by_number<Shape, Action, Value, State>()
    ensures done { (parts : Parts Action) (by : Interpretation Shape Action Value State) (code : Code Shape)
        (number_of : Value → SwitchValue) → EntersByNumber number_of by
        → (turns selector : ℕ) (cases : Cases) (world : World Value State)
        → node_does (machine parts by code) turns (switch selector cases) world
        ≡ cases_do (machine parts by code) turns cases
        (entered (values cases) (case_of (number_of (value by code world selector)) (values cases))) world }
    ensures somewhere { EntersByNumber U32 numbers }
{}

/// By such an interpretation, two cases that do not fall through may change places.
pub fn cases_may_change_places<Shape, Action, Value, State>()
    ensures { (parts : Parts Action) (by : Interpretation Shape Action Value State) (code : Code Shape)
        (number_of : Value → SwitchValue) → EntersByNumber number_of by
        → (turns selector : ℕ) (first second : SwitchValue) → first ≢ second
        → (body other : Tree) (others : Cases) (world : World Value State)
        → node_does (machine parts by code) turns
        (switch selector (case second other false (case first body false others))) world
        ≡ node_does (machine parts by code) turns
        (switch selector (case first body false (case second other false others))) world }
{}

/// By numbers of 32 bits, a switch on a variable that is 1 enters the case 1, and enters neither the case 2 nor the case of
/// the signed number 1.
pub fn numbers_of_cases_matter()
    ensures one { switched ((U32 1, ten) ∷ (Default, twenty) ∷ []) 1 ≡ 10 }
    ensures two { switched ((U32 2, ten) ∷ (Default, twenty) ∷ []) 1 ≡ 20 }
    ensures signed { switched ((I32 (pos 1), ten) ∷ (Default, twenty) ∷ []) 1 ≡ 20 }
    ensures no_case { switched ((U32 2, ten) ∷ []) 1 ≡ 1 }
    ensures later { switched ((U32 2, ten) ∷ (Default, twenty) ∷ (U32 1, thirty) ∷ []) 1 ≡ 30 }
{}
