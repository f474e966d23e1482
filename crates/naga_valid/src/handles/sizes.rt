//! The check of the sizes that are overrides, by which types could depend on themselves.
ghost use Rattle.std.specs.Prelude.{◌≡◌, ◌↔◌, ◌<◌, ◌≤◌, ℕ, IfErr, IfOk, IsOk, MatchOption, Some};
ghost use Rattle.naga_valid.specs.Declarations.{pending_of};
ghost use Rattle.naga_valid.specs.Faults.{IsAtFault};
ghost use Rattle.naga_valid.specs.Valid.{IsBeforeType, RefersBefore, SizePrecedes, init_of_size, override_of_size, size_of_type, type_of_reference};

use super::rule::{Rule, first_unlike};
use super::targets::{init_of_reference, type_of_reference};
use crate::invalid_handle::InvalidHandle;
use crate::reference::Reference;
use naga_arena::Handle;
use naga_ir::{ArraySize, Expression, Module, Override, Type, TypeInner};

/// The rule that a global expression refers only to earlier types than this one, and to constants and overrides of such
/// types.
#[derive(Clone, Copy)]
struct BeforeType {
    ty: Handle<Type>,
}

impl Rule for BeforeType {
    ghost use Rattle.naga_valid.specs.Valid.{IsBeforeType};

    ghost Permits = { λ whole it _ to. IsBeforeType whole it.ty to };

    fn allows(&self, module: &Module, _expression: usize, reference: &Reference) -> bool {
        match type_of_reference(module, reference) {
            Some(other) => other.index() < self.ty.index(),
            None => true,
        }
    }
}

/// Checks that, where the size of a type is an override, the type of the override is an earlier one, and all global
/// expressions up to its `init` refer only to earlier types, and to constants and overrides of such types.
///
/// The types are visited in ascending order. A global expression that was tested for a type need not be tested for a
/// later one.
pub(super) fn check_sizes(module: &Module) -> Result<(), InvalidHandle>
    ensures valid { IsOk result ↔ ((ty : ℕ) → SizePrecedes «module».now ty) }
    ensures fault { IfErr result (IsAtFault «module».now) }
{
    let mut tested = 0;
    for index in 0..module.types.len() {
        match check_size(module, Handle::<Type>::at(index), tested) {
            Ok(next) => tested = next,
            Err(error) => return Err(error),
        }
    }
    Ok(())
}

/// Checks the size of a type, and returns how many global expressions are now known to refer only to types before `ty`.
///
/// Precondition: the first `tested` global expressions do.
fn check_size(module: &Module, ty: Handle<Type>, tested: usize) -> Result<usize, InvalidHandle>
    requires { (expression : ℕ) → expression < tested → RefersBefore «module».now ty expression }
    ensures precedes { IfOk result (λ _. SizePrecedes «module».now ty) }
    ensures tested { IfOk result (λ next. (expression : ℕ) → expression < next → RefersBefore «module».now ty expression) }
    ensures fault { IfErr result (λ error. IsAtFault «module».now error × ¬ SizePrecedes «module».now ty) }
{
    let Some(size) = size_of_type(module, ty) else {
        return Ok(tested);
    };
    if let Some(depends_on) = type_from(module, ty, &Reference::Override(size)) {
        return Err(InvalidHandle::OverrideDependency {
            ty,
            size,
            depends_on,
        });
    }
    match init_of_reference(module, &Reference::Override(size)) {
        Some(init) => check_init(module, ty, init, tested),
        None => Ok(tested),
    }
}

/// Returns the type that a reference leads to, if it is `ty` or a later type.
fn type_from(module: &Module, ty: Handle<Type>, reference: &Reference) -> Option<Handle<Type>>
    ensures { MatchOption result (IsBeforeType «module».now ty reference.now)
        (λ later. (type_of_reference «module».now reference.now ≡ Some later) × (ty ≤ later)) }
{
    match type_of_reference(module, reference) {
        Some(later) if later.index() >= ty.index() => Some(later),
        _ => None,
    }
}

/// Checks the global expressions up to the `init` of the override of the size of a type. Returns how many global
/// expressions are now known to refer only to types before `ty`.
///
/// Preconditions: the first `tested` global expressions do, and `init` is the `init` of the override.
fn check_init(
    module: &Module,
    ty: Handle<Type>,
    init: Handle<Expression>,
    tested: usize,
) -> Result<usize, InvalidHandle>
    requires tested { (expression : ℕ) → expression < tested → RefersBefore «module».now ty expression }
    requires init { init_of_size «module».now ty ≡ Some init }
    ensures past { IfOk result (λ next. init < next) }
    ensures tested { IfOk result (λ next. (expression : ℕ) → expression < next → RefersBefore «module».now ty expression) }
    ensures fault { IfErr result (λ error. IsAtFault «module».now error × ¬ SizePrecedes «module».now ty) }
{
    let end = init.index() + 1;
    let Some(found) = first_unlike(module, tested, end, &BeforeType { ty }) else {
        return Ok(tested.max(end));
    };
    let Some(depends_on) = type_of_reference(module, &found.1) else {
        unreachable!()
    };
    Err(InvalidHandle::SizeDependency {
        ty,
        expression: found.0,
        depends_on,
    })
}

/// Returns the override of the size of a type, if the size is that of an override.
fn size_of_type(module: &Module, ty: Handle<Type>) -> Option<Handle<Override>>
    ensures { result ≡ size_of_type «module».now ty }
{
    match module.types.get_handle(ty) {
        Ok(ty) => override_of_size(&ty.inner),
        Err(_) => None,
    }
}

/// Returns the override of the size of a type, if the size is that of an override.
fn override_of_size(inner: &TypeInner) -> Option<Handle<Override>>
    ensures { result ≡ override_of_size inner.now }
{
    match inner {
        TypeInner::Array { size, .. } => pending_of(size),
        TypeInner::BindingArray { size, .. } => pending_of(size),
        _ => None,
    }
}

/// Returns the override of a size, if the size is that of an override.
fn pending_of(size: &ArraySize) -> Option<Handle<Override>>
    ensures { result ≡ pending_of size.now }
{
    match size {
        ArraySize::Constant(_) | ArraySize::Dynamic => None,
        ArraySize::Pending(handle) => Some(*handle),
    }
}
