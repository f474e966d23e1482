//! Culling and closing keep types.
ghost use Rattle.std.specs.Prelude.{◌≡◌, ℕ, List, None, Option};
ghost use Rattle.std.specs.List.{AllByRecursion};
ghost use Rattle.naga_flow.specs.Events.{events};
ghost use Rattle.naga_ir.specs.Tree.{Tree};
ghost use Rattle.naga_ir.specs.declared.block.Block.{Block};
ghost use Rattle.naga_ir.specs.declared.module.Function.{Function};
ghost use Rattle.naga_ir.specs.declared.module.Module.{Module};
ghost use Rattle.naga_runs.specs.Runs.{BlockRuns, Run};
ghost use Rattle.naga_compact.specs.Culling.{culled};
ghost use Rattle.naga_proc.specs.Bodies.{ClosesBodies};
ghost use Rattle.naga_proc.specs.Closing.{closed};
ghost use Rattle.naga_proc.specs.declared.terminator.rule.Rule.{Rule};
ghost use Rattle.naga_typifier.specs.Context.{Context};
ghost use Rattle.naga_typifier.specs.declared.resolution.TypeResolution.{TypeResolution as Resolved};
ghost use Rattle.naga_typing.specs.Functions.{HasTypes};
ghost use Rattle.naga_typing.specs.Modules.{HaveSameTypes};
ghost use Rattle.naga_typing.specs.Runs.{EventIsTyped};
ghost use Rattle.naga_typing.specs.Requirements.{Signature};
ghost use Rattle.naga_typing.specs.Statements.{BodyIsTyped};

/// A function with another body, as culling and closing leave it, has the types of its expressions.
pub fn types_do_not_depend_on_bodies()
    ensures { (whole : Module) (inside : Function) (body : Block) (types : ℕ → Option Resolved)
        → HasTypes whole inside types → HasTypes whole (record inside { body = body }) types }
{}

/// Closing the bodies of a module, by either rule, keeps the types of the expressions of each function and of each
/// entry point.
pub fn closing_a_module_keeps_types()
    ensures { (rule : Rule) (old new : Module) → ClosesBodies rule old new → HaveSameTypes old new }
{}

/// A culled body uses its values at their types, if the body does.
pub fn culling_keeps_typed_bodies()
    ensures { (ctx : Context) (known : ℕ → Option Resolved) (signature : Signature) (body : Tree)
        → BodyIsTyped ctx known signature body → BodyIsTyped ctx known signature (culled body) }
{}

/// A closed body uses its values at their types, if the body does and the function returns nothing.
pub fn closing_keeps_typed_bodies()
    ensures { (ctx : Context) (known : ℕ → Option Resolved) (signature : Signature) → signature.result ≡ None
        → (rule : Rule) (body : Tree)
        → BodyIsTyped ctx known signature body → BodyIsTyped ctx known signature (closed rule body) }
{}

/// Each event of each run of a body that uses its values at their types uses its values at their types.
pub fn runs_use_types()
    ensures { (ctx : Context) (known : ℕ → Option Resolved) (signature : Signature) (body : Tree)
        → BodyIsTyped ctx known signature body → (turns : ℕ) (answers : List ℕ) (run : Run)
        → (of_body : BlockRuns turns body answers run)
        → AllByRecursion (EventIsTyped ctx known signature) (events of_body) }
{}
