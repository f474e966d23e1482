//! Culling and closing keep that a module is typed.
ghost use Rattle.std.specs.Prelude.{◌≡◌, ℕ, None, Option};
ghost use Rattle.naga_ir.specs.Tree.{Tree};
ghost use Rattle.naga_ir.specs.declared.module.Module.{Module};
ghost use Rattle.naga_compact.specs.Culling.{culled};
ghost use Rattle.naga_proc.specs.Bodies.{ChangesBodies, ClosesBodies};
ghost use Rattle.naga_proc.specs.Closing.{closed};
ghost use Rattle.naga_proc.specs.declared.terminator.rule.Rule.{Rule};
ghost use Rattle.naga_typifier.specs.Context.{Context};
ghost use Rattle.naga_typifier.specs.declared.resolution.TypeResolution.{TypeResolution as Resolved};
ghost use Rattle.naga_typing.specs.Closed.{ClosesWithoutResult};
ghost use Rattle.naga_typing.specs.Requirements.{Signature};
ghost use Rattle.naga_typing.specs.Statements.{BodyIsTyped};
ghost use Rattle.naga_typing.specs.TypedModules.{ModuleIsTyped};

/// Culling the bodies of a module keeps that it is typed.
pub fn culling_keeps_typed_modules()
    ensures { (old new : Module) → ChangesBodies (λ before after. after ≡ culled before) old new
        → ModuleIsTyped old → ModuleIsTyped new }
{}

/// Closing the bodies of a module, by either rule, keeps that it is typed, if each function that gets a return has no
/// result.
pub fn closing_keeps_typed_modules()
    ensures { (rule : Rule) (old new : Module) → ClosesBodies rule old new → ClosesWithoutResult rule old
        → ModuleIsTyped old → ModuleIsTyped new }
{}

/// A closed body that uses its values at their types, in a function that has a result, is the body itself: where a
/// return was inserted, the closed body does not pass.
pub fn typed_closed_bodies_got_no_return()
    ensures { (ctx : Context) (known : ℕ → Option Resolved) (signature : Signature) → ¬ (signature.result ≡ None)
        → (rule : Rule) (body : Tree) → BodyIsTyped ctx known signature (closed rule body) → closed rule body ≡ body }
{}
