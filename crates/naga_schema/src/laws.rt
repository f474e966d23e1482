//! The laws of schemas: the JSONs that the schema of a type accepts are those that naga_json's codec of the type reads.
ghost use Rattle.std.specs.Prelude.{◌≡◌, ℕ, is_some};
ghost use Rattle.json.specs.Json.{Json};
ghost use Rattle.naga_json.specs.Block.{block_within, statement_codec};
ghost use Rattle.naga_json.specs.declared.nesting.TheConstants.{MAX_NESTING};
ghost use Rattle.naga_json.specs.derived.Module.{constant_codec, override_codec, global_variable_codec};
ghost use Rattle.naga_json.specs.DiagnosticFilter.{node_codec};
ghost use Rattle.naga_json.specs.DocComments.{doc_comments_codec};
ghost use Rattle.naga_json.specs.EntryPoint.{entry_point_form};
ghost use Rattle.naga_json.specs.derived.Expression.{expression_form};
ghost use Rattle.naga_json.specs.Function.{function_form};
ghost use Rattle.naga_json.specs.Module.{module_form};
ghost use Rattle.naga_json.specs.SpecialTypes.{special_types_codec};
ghost use Rattle.naga_json.specs.Types.{type_codec};
ghost use Rattle.naga_schema.specs.Fault.{accepts};
ghost use Rattle.naga_schema.specs.declared.derived.type_name.TypeName.TheVariants as type_name;

/// A JSON has no fault as one of a module exactly if it represents a module.
#[tactic(auto, using(crate::proofs::LawsLemmas::module_law))]
pub fn modules_without_a_fault_are_read()
    ensures { (j : Json) → accepts j MAX_NESTING type_name.Module ≡ is_some (module_form.decode j) }
{}

/// The JSONs of functions and entry points without a fault are those that are read.
#[tactic(auto, using(crate::proofs::LawsLemmas::function_laws))]
pub fn functions_without_a_fault_are_read()
    ensures function { (j : Json) → accepts j MAX_NESTING type_name.Function ≡ is_some (function_form.decode j) }
    ensures entry_point { (j : Json)
        → accepts j MAX_NESTING type_name.EntryPoint ≡ is_some (entry_point_form.decode j) }
{}

/// The JSONs of blocks without a fault are those that are read, at each depth.
#[tactic(auto, using(crate::proofs::LawsLemmas::block_law))]
pub fn blocks_without_a_fault_are_read()
    ensures { (j : Json) (depth : ℕ) → accepts j depth type_name.Block ≡ is_some ((block_within depth).decode j) }
{}

/// The JSONs of types, expressions and declarations without a fault are those that are read.
#[tactic(auto, using(crate::proofs::LawsLemmas::declaration_laws))]
pub fn declarations_without_a_fault_are_read()
    ensures named { (j : Json) (depth : ℕ) → accepts j depth type_name.NagaType ≡ is_some (type_codec.decode j) }
    ensures expression { (j : Json) (depth : ℕ)
        → accepts j depth type_name.Expression ≡ is_some (expression_form.decode j) }
    ensures special_types { (j : Json) (depth : ℕ)
        → accepts j depth type_name.SpecialTypes ≡ is_some (special_types_codec.decode j) }
    ensures constant { (j : Json) (depth : ℕ)
        → accepts j depth type_name.Constant ≡ is_some (constant_codec.decode j) }
    ensures override_value { (j : Json) (depth : ℕ)
        → accepts j depth type_name.Override ≡ is_some (override_codec.decode j) }
    ensures global_variable { (j : Json) (depth : ℕ)
        → accepts j depth type_name.GlobalVariable ≡ is_some (global_variable_codec.decode j) }
    ensures node { (j : Json) (depth : ℕ)
        → accepts j depth type_name.DiagnosticFilterNode ≡ is_some (node_codec.decode j) }
    ensures doc_comments { (j : Json) (depth : ℕ)
        → accepts j depth type_name.DocComments ≡ is_some (doc_comments_codec.decode j) }
{}
