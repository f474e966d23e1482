//! What references lead to: types, and global expressions that are inits.
ghost use Rattle.std.specs.Prelude.{◌≡◌};
ghost use Rattle.naga_valid.specs.Valid.{init_of_reference, type_of_reference};

use crate::reference::Reference;
use naga_arena::Handle;
use naga_ir::{Expression, Module, Type};

/// Returns the type that is referred to, or the type of the constant or the override that is.
pub(super) fn type_of_reference(module: &Module, reference: &Reference) -> Option<Handle<Type>>
    ensures { result ≡ type_of_reference «module».now reference.now }
{
    match reference {
        Reference::Type(handle) => Some(*handle),
        Reference::Constant(handle) => match module.constants.try_get(*handle) {
            Ok(constant) => Some(constant.ty),
            Err(_) => None,
        },
        Reference::Override(handle) => match module.overrides.try_get(*handle) {
            Ok(declared) => Some(declared.ty),
            Err(_) => None,
        },
        _ => None,
    }
}

/// Returns the `init` of the constant or the override that is referred to, if it has one.
pub(super) fn init_of_reference(
    module: &Module,
    reference: &Reference,
) -> Option<Handle<Expression>>
    ensures { result ≡ init_of_reference «module».now reference.now }
{
    match reference {
        Reference::Constant(handle) => match module.constants.try_get(*handle) {
            Ok(constant) => Some(constant.init),
            Err(_) => None,
        },
        Reference::Override(handle) => match module.overrides.try_get(*handle) {
            Ok(declared) => declared.init,
            Err(_) => None,
        },
        _ => None,
    }
}
