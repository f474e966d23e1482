//! Renaming keeps types.
ghost use Rattle.std.specs.Prelude.{◌≡◌, ℕ, Bool, IfSome, Option, true};
ghost use Rattle.std.specs.Option.{option_map};
ghost use Rattle.naga_ir.specs.declared.expression.Expression.{Expression};
ghost use Rattle.naga_compact.specs.Renaming.{Renaming};
ghost use Rattle.naga_compact.specs.derived.Renaming.{rename_expression};
ghost use Rattle.naga_typifier.specs.Context.{Context};
ghost use Rattle.naga_typifier.specs.Table.{type_of};
ghost use Rattle.naga_typifier.specs.declared.resolution.TypeResolution.{TypeResolution as Resolved};
ghost use Rattle.naga_typing.specs.Arenas.{AreTypes, IsCompacted};
ghost use Rattle.naga_typing.specs.Forms.{form};
ghost use Rattle.naga_typing.specs.Operands.{Depends};
ghost use Rattle.naga_typing.specs.Renamed.{HasRenamed, IsClosed, IsKept, NamesAreKept, NamesAreRenamed, RenamesContext, TypesAreKept, rename_resolution};
ghost use Rattle.naga_typing.specs.RenamedRequirements.{rename_form};

/// A renamed expression has its type, renamed, if the operands on which its type depends have theirs.
pub fn types_commute_with_renaming()
    ensures { (r : Renaming) (kept : ℕ → Bool) (ctx new : Context)
        → RenamesContext r kept ctx new → IsClosed kept ctx
        → (known after : ℕ → Option Resolved) (expression : Expression)
        → NamesAreRenamed r ctx new expression → Depends (HasRenamed r kept known after) expression
        → type_of new after (rename_expression r expression)
        ≡ option_map (rename_resolution r) (type_of ctx known expression) }
{}

/// The type of an expression is kept, if the types are kept of the operands on which it depends, and of what the
/// expression names.
pub fn results_are_kept()
    ensures { (kept : ℕ → Bool) (ctx : Context) → TypesAreKept kept ctx
        → (known : ℕ → Option Resolved) (expression : Expression) → NamesAreKept kept ctx expression
        → Depends (λ operand. IfSome (known operand) (IsKept kept)) expression
        → IfSome (type_of ctx known expression) (IsKept kept) }
{}

/// Where expressions are dropped on which no other type depends, and the others renamed, each of these has its type,
/// renamed.
pub fn renaming_an_arena_keeps_types()
    ensures { (r : Renaming) (kept stays : ℕ → Bool) (ctx new : Context)
        → RenamesContext r kept ctx new → TypesAreKept kept ctx
        → (old renamed : ℕ → Option Expression) → IsCompacted r kept stays ctx new old renamed
        → (types after : ℕ → Option Resolved) → AreTypes ctx old types → AreTypes new renamed after
        → (handle : ℕ) → stays handle ≡ true → HasRenamed r kept types after handle }
{}

/// The form of a renamed type is the renamed form, so two types that are the same stay so.
pub fn forms_commute_with_renaming()
    ensures { (r : Renaming) (kept : ℕ → Bool) (ctx new : Context)
        → RenamesContext r kept ctx new → IsClosed kept ctx → (ty : Resolved) → IsKept kept ty
        → form new.types (rename_resolution r ty) ≡ rename_form r (form ctx.types ty) }
{}
