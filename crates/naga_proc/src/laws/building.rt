//! Laws of building: the order of the emitted ranges, the handles in them, and the commands that are rejected.
ghost use Rattle.std.specs.Prelude.{◌≡◌, ℕ, ◌<◌, ◌≤◌, ◌⊎◌, ◌↔◌, List, [], ◌∷◌, ◌++◌, Some, All, AllPairs, Contains, length, take, true};
ghost use Rattle.naga_arena.specs.Arena.{max_len};
ghost use Rattle.naga_arena.specs.declared.span.Span.{Span};
ghost use Rattle.naga_ir.specs.declared.expression.Expression.{Expression};
ghost use Rattle.naga_ir.specs.declared.statement.Statement.TheVariants.{Emit};
ghost use Rattle.naga_proc.specs.Building.{appended, emitted, is_running, IsCovered, IsInTurn, Refused};
ghost use Rattle.naga_proc.specs.Building.Emission.{emission};
ghost use Rattle.naga_proc.specs.declared.builder.BuildCommand.{BuildCommand};
ghost use Rattle.naga_proc.specs.declared.builder.BuildCommand.TheVariants.{Append, Finish};
ghost use Rattle.naga_proc.specs.declared.builder.BuildError.TheVariants.{AlreadyRunning, Full, NotRunning};

/// Emitted ranges are in ascending order and have no handle in common. None of them is empty, and all are in the arena.
pub fn emitted_ranges_are_in_order()
    ensures ascending { (commands : List BuildCommand) → IsInTurn commands (length commands)
        → AllPairs (λ earlier later. earlier.1 ≤ later.0) (emitted commands) }
    ensures filled { (commands : List BuildCommand) → IsInTurn commands (length commands)
        → All (λ range. range.0 < range.1) (emitted commands) }
    ensures within { (commands : List BuildCommand) → IsInTurn commands (length commands)
        → All (λ range. range.1 ≤ length (appended commands)) (emitted commands) }
{}

/// A handle is in an emitted range if and only if its `Append` is between a `Start` and the `Finish` that belongs to
/// it: the emitter is running there, and a `Finish` follows.
pub fn what_is_appended_between_start_and_finish_is_emitted()
    ensures { (before after : List BuildCommand) (expression : Expression) (span : Span)
        → IsInTurn (before ++ Append expression span ∷ after) (length (before ++ Append expression span ∷ after))
        → IsCovered (emitted (before ++ Append expression span ∷ after)) (length (appended before))
        ↔ ((is_running before ≡ true) × Contains after Finish) }
{}

/// If an emitter returns a range and is started again on an arena that is at least as long as the end of that range,
/// the next range begins at or after that end.
pub fn ranges_of_one_emitter_are_in_order()
    ensures { (first last : List (Expression × Span)) (start later : ℕ)
        (earlier_range later_range : ℕ × ℕ) (earlier_span later_span : Span)
        → emission first (start, length first) ≡ Some (Emit earlier_range, earlier_span)
        → earlier_range.1 ≤ later
        → emission last (later, length last) ≡ Some (Emit later_range, later_span)
        → earlier_range.1 ≤ later_range.0 }
{}

/// At most one command is the first out of turn, and only one of the two errors applies to it. If the commands can also
/// be rejected because the arena is full, the `Append` for which there is no handle left is before that command.
pub fn commands_are_out_of_turn_at_one_position()
    ensures starts { (commands : List BuildCommand) (position other : ℕ)
        → Refused commands (AlreadyRunning position) → Refused commands (AlreadyRunning other) → position ≡ other }
    ensures finishes { (commands : List BuildCommand) (position other : ℕ)
        → Refused commands (NotRunning position) → Refused commands (NotRunning other) → position ≡ other }
    ensures either { (commands : List BuildCommand) (position other : ℕ)
        → Refused commands (AlreadyRunning position) → ¬ Refused commands (NotRunning other) }
    ensures full { (commands : List BuildCommand) (position : ℕ) → Refused commands Full
        → Refused commands (AlreadyRunning position) ⊎ Refused commands (NotRunning position)
        → max_len < length (appended (take position commands)) }
{}
