//! Faults of modules.
ghost use Rattle.std.specs.Prelude.{◌≡◌, not, is_some, IfOk, IfSome};
ghost use Rattle.json.specs.Value.{value_view};
ghost use Rattle.naga_json.specs.Module.{module_form};
ghost use Rattle.naga_schema.specs.Fault.{fault};
ghost use Rattle.naga_schema.specs.Finds.{Finds};
ghost use Rattle.naga_schema.specs.Leads.{LeadsToFault};
ghost use Rattle.naga_json.specs.declared.nesting.TheConstants.{MAX_NESTING};
ghost use Rattle.naga_schema.specs.Path.{found_of};
ghost use Rattle.naga_schema.specs.declared.derived.type_name.TypeName.TheVariants as type_name;

use crate::derived::type_name::TypeName;
use crate::fault::Fault;
use crate::find::find_fault;
use json::Value;
use std::alloc::{AllocError, Global};

/// Returns the first fault of a value as the JSON of a module, or `None` if it is that of a module.
pub fn find_module_fault<'a>(
    alloc: Global,
    value: &Value<'a>,
) -> Result<Option<Fault<'a>>, AllocError>
    ensures first { Finds result (fault (value_view value.now) MAX_NESTING type_name.Module) }
    ensures leads { IfOk result (λ found. IfSome found (λ one. LeadsToFault (value_view value.now) (found_of one))) }
    ensures read { IfOk result (λ found. is_some found ≡ not (is_some (module_form.decode (value_view value.now)))) }
{
    find_fault(alloc, value, TypeName::Module)
}
