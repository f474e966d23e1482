//! Renaming and compaction keep that requirements are met.
ghost use Rattle.std.specs.Prelude.{◌≡◌, ℕ, All, Bool, Option, map};
ghost use Rattle.naga_ir.specs.Tree.{Node, Tree};
ghost use Rattle.naga_ir.specs.declared.expression.Expression.{Expression};
ghost use Rattle.naga_valid.specs.Expressions.{references_of_expression};
ghost use Rattle.naga_valid.specs.Statements.{references_of_tree};
ghost use Rattle.naga_compact.specs.Renaming.{Renaming};
ghost use Rattle.naga_compact.specs.Renaming.Blocks.{rename_node, rename_tree};
ghost use Rattle.naga_compact.specs.derived.Renaming.{rename_expression};
ghost use Rattle.naga_typifier.specs.Context.{Context};
ghost use Rattle.naga_typifier.specs.declared.resolution.TypeResolution.{TypeResolution as Resolved};
ghost use Rattle.naga_typing.specs.Expressions.{ExpressionFits, required_by_expression};
ghost use Rattle.naga_typing.specs.Renamed.{RenamesContext, TypesAreKept};
ghost use Rattle.naga_typing.specs.RenamedRequirements.{NameIsRenamed, RenamesSignature, SlotNames, rename_slot};
ghost use Rattle.naga_typing.specs.Requirements.{Fits, Signature};
ghost use Rattle.naga_typing.specs.Statements.{BodyIsTyped, required_by};
ghost use Rattle.naga_typing.specs.declared.requirement.Requirement.{Requirement};

/// A renamed requirement is met where the requirement is, if the operands that it names have their types, renamed, and
/// the functions that it names have theirs.
pub fn renamed_requirements_are_met()
    ensures { (r : Renaming) (kept : ℕ → Bool) (ctx new : Context)
        → RenamesContext r kept ctx new → TypesAreKept kept ctx
        → (signature after : Signature) → RenamesSignature r kept signature after
        → (known found : ℕ → Option Resolved) (slot : Option Requirement)
        → SlotNames (NameIsRenamed r kept signature after ctx new known found) slot
        → Fits ctx known signature slot → Fits new found after (rename_slot r slot) }
{}

/// What a renamed expression requires is what the expression requires, renamed, and the same holds of statements.
pub fn requirements_commute_with_renaming()
    ensures expressions { (r : Renaming) (expression : Expression)
        → required_by_expression (rename_expression r expression)
        ≡ map (rename_slot r) (required_by_expression expression) }
    ensures statements { (r : Renaming) (node : Node)
        → required_by (rename_node r node) ≡ map (rename_slot r) (required_by node) }
{}

/// A renamed expression has operands as it requires, and a renamed body uses each value at its type, where the old ones
/// do, if what they refer to has its type, renamed.
pub fn renaming_keeps_typed_bodies()
    ensures expressions { (r : Renaming) (kept : ℕ → Bool) (ctx new : Context)
        → RenamesContext r kept ctx new → TypesAreKept kept ctx
        → (signature after : Signature) → RenamesSignature r kept signature after
        → (known found : ℕ → Option Resolved) (expression : Expression)
        → All (NameIsRenamed r kept signature after ctx new known found) (references_of_expression expression)
        → ExpressionFits (Fits ctx known signature) expression
        → ExpressionFits (Fits new found after) (rename_expression r expression) }
    ensures bodies { (r : Renaming) (kept : ℕ → Bool) (ctx new : Context)
        → RenamesContext r kept ctx new → TypesAreKept kept ctx
        → (signature after : Signature) → RenamesSignature r kept signature after
        → (known found : ℕ → Option Resolved) (body : Tree)
        → All (NameIsRenamed r kept signature after ctx new known found) (references_of_tree body)
        → BodyIsTyped ctx known signature body → BodyIsTyped new found after (rename_tree r body) }
{}
