//! Laws of the errors with which the program may end.
ghost use Rattle.std.specs.Prelude.{◌≡◌, ◌⊎◌, ℕ, IsUtf8, List, Option, Result, Some, String, Vec};
ghost use Rattle.std.specs.declared.alloc.Global.{Global};
ghost use Rattle.naga_notation.specs.declared.error.ShapeError.TheVariants.{Memory};
ghost use Rattle.naga_proc.specs.Reshape.{Reshapes};
ghost use Rattle.naga_proc.specs.declared.terminator.rule.Rule.{Rule};
ghost use Rattle.naga_shape.specs.Arguments.{GivesRule};
ghost use Rattle.naga_shape.specs.Lines.{line_of};
ghost use Rattle.naga_shape.specs.Program.{MayEndWith};
ghost use Rattle.naga_shape.specs.declared.line.ShapeFault.TheVariants.{Shape, Input, Output};
ghost use Rattle.naga_shape.specs.declared.report.ProgramFault.{ProgramFault};
ghost use Rattle.naga_shape.specs.declared.report.ProgramFault.TheVariants.{UnexpectedArgument, Line};

/// If the arguments select no rule or could not be obtained, the program may end with one error only, whatever the
/// input is.
pub fn arguments_without_a_rule_have_one_fault()
    ensures { (arguments : Result (Vec (String Global) Global) ProgramFault) (input input' : Option (List ℕ))
        (fault other : ProgramFault)
        → ((rule : Rule) → ¬ GivesRule arguments rule)
        → MayEndWith arguments input fault → MayEndWith arguments input' other → fault ≡ other }
{}

/// If the arguments select a rule, none of them is unexpected.
pub fn arguments_with_a_rule_are_expected()
    ensures { (arguments : Result (Vec (String Global) Global) ProgramFault) (rule : Rule) (input : Option (List ℕ))
        → GivesRule arguments rule → ¬ MayEndWith arguments input UnexpectedArgument }
{}

/// If the arguments select a rule and the line has an answer, the program may end with an error only because an
/// allocation, a read or a write failed.
pub fn answered_line_fails_only_by_memory_or_streams()
    ensures { (arguments : Result (Vec (String Global) Global) ProgramFault) (rule : Rule) (bytes answer : List ℕ)
        (fault : ProgramFault)
        → GivesRule arguments rule → IsUtf8 (line_of bytes) → Reshapes rule (line_of bytes) answer
        → MayEndWith arguments (Some bytes) fault
        → (fault ≡ Line (Shape Memory)) ⊎ (fault ≡ Line Input) ⊎ (fault ≡ Line Output) }
{}
