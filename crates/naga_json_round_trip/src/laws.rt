//! Laws of modules that are written and read again. [`reads_back`](crate::reads_back) returns whether their premise
//! `ModuleFits` holds.
ghost use Rattle.std.specs.Prelude.{◌≡◌, ◌≤◌, Option, Some, Result, Ok, IfOk};
ghost use Rattle.json.specs.Json.{Json};
ghost use Rattle.json.specs.Print.{print};
ghost use Rattle.json.specs.Tree.{depth, json_tokens};
ghost use Rattle.naga_ir.specs.declared.module.Module.{Module};
ghost use Rattle.naga_json.specs.Module.{module_form, module_in_text, module_value};
ghost use Rattle.naga_json.specs.Text.{document};
ghost use Rattle.naga_json.specs.declared.nesting.TheConstants.{MAX_NESTING};
ghost use Rattle.naga_json.specs.Unspanned.{unspanned_module};
ghost use Rattle.naga_json_read.specs.Module.{ReadsModule};
ghost use Rattle.naga_json_read.specs.declared.read_error.ReadError.{ReadError};
ghost use Rattle.naga_json_write.specs.Module.{IsModuleJson};
ghost use Rattle.naga_json_round_trip.specs.Module.{ModuleFits};

/// The JSON of a module represents this module, with undefined spans.
pub fn json_represents_its_module()
    ensures { (whole : Module) (j : Json) → ModuleFits whole → IsModuleJson whole j
        → module_form.decode j ≡ Some (unspanned_module (module_value whole)) }
{}

/// The text that is written for a module is read as this module, with undefined spans, if the lists and objects of the
/// text are nested at most 127 deep.
pub fn round_trip()
    ensures { (whole : Module) (j : Json) → ModuleFits whole → IsModuleJson whole j → depth j ≤ MAX_NESTING
        → module_in_text (print (json_tokens j)) ≡ Some (unspanned_module (module_value whole)) }
{}

/// What [`read_module`](naga_json_read::read_module) returns for this text is this module, with undefined spans, if it
/// returns a module.
///
/// It returns none if two types of the module are equal, if a handle is not valid, or if an allocation fails.
pub fn module_that_is_read_again_is_the_same()
    ensures { (whole : Module) (j : Json) (result : Result Module ReadError) → ModuleFits whole → IsModuleJson whole j
        → depth j ≤ MAX_NESTING → ReadsModule result (document (print (json_tokens j)))
        → IfOk result (λ again. module_value again ≡ unspanned_module (module_value whole)) }
{}

/// A module that [`read_module`](naga_json_read::read_module) returned is one for which [`reads_back`](crate::reads_back)
/// returns `true`.
pub fn module_that_was_read_reads_back()
    ensures { (whole : Module) (text : Option Json) → ReadsModule (Ok whole) text → ModuleFits whole }
{}
