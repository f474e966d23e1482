//! Tests of clones of whole modules and of blocks, also when allocations fail. In the module, each field differs from
//! the others of its type, and each list has at least two elements. A clone must have the same debug text, which contains
//! each field.
use super::blocks::block;
use super::everything::EVERYTHING;
use super::queries::{Query, ask};
use super::{are_shown_alike, at};
use naga_arena::{KindName, Span, TryClone};
use naga_ir::{
    Block, Constant, DocComments, Expression, Function, GlobalVariable, LocalVariable, Module,
    Override, PredeclaredType, Scalar, SpecialTypes, Statement, Type,
};
use std::alloc::{AllocError, Global};

/// Returns whether the kinds of declarations have their names.
fn have_names() -> bool {
    Type::kind_name() == "Type"
        && Constant::kind_name() == "Constant"
        && Override::kind_name() == "Override"
        && GlobalVariable::kind_name() == "GlobalVariable"
        && LocalVariable::kind_name() == "LocalVariable"
        && Expression::kind_name() == "Expression"
        && Function::kind_name() == "Function"
}

#[test]
fn kinds_have_their_names(rt: HostRuntime) {
    assert!(rt; have_names());
}

/// Returns whether special types and comments that were made anew are empty.
fn are_empty(special: &SpecialTypes, comments: &DocComments) -> bool {
    special.ray_desc.is_none()
        && special.predeclared_types.is_empty()
        && comments.types.is_empty()
        && comments.module.is_empty()
}

#[test]
fn special_types_and_comments_are_made_empty(rt: HostRuntime) {
    let alloc = rt.alloc();
    assert!(rt; are_empty(&SpecialTypes::new(alloc), &DocComments::new(alloc)));
}

/// Returns whether the full module uses mesh shaders, and ray queries but no pipelines at any of its entry points.
pub(super) fn are_used(module: &Module) -> bool {
    let uses = module.uses_ray_tracing(None);
    module.uses_mesh_shaders() && uses.queries && !uses.pipelines
}

#[test]
fn a_module_uses_mesh_shaders_and_ray_queries(rt: HostRuntime) {
    assert!(rt; ask(rt.alloc(), EVERYTHING, Query::Uses) == Some(true));
}

/// Adds a comment on each of two members of structures, and returns whether this succeeded.
fn comment_on_members(alloc: Global, comments: &mut DocComments) -> bool {
    let Ok(line) = String::from_str(alloc, "line13") else {
        return false;
    };
    let Ok(lines) = vec![in alloc; line] else {
        return false;
    };
    let (first, second) = ((at::<Type>(1), 7), (at::<Type>(2), 8));
    comments.struct_members.insert(first, lines).is_ok()
        && comments
            .struct_members
            .insert(second, Vec::new(alloc))
            .is_ok()
}

/// Adds what has no JSON, a predeclared type and comments on members, and returns whether this succeeded.
fn complete(alloc: Global, module: &mut Module) -> bool {
    let predeclared = PredeclaredType::AtomicCompareExchangeWeakResult(Scalar::U32);
    let types = &mut module.special_types.predeclared_types;
    if types.insert(predeclared, at::<Type>(6)).is_err() {
        return false;
    }
    match &mut module.doc_comments {
        Some(comments) => comment_on_members(alloc, comments),
        None => false,
    }
}

/// Returns whether each list of a module has its elements, and there are comments.
fn is_full(module: &Module) -> bool {
    module.types.len() == 7
        && module.special_types.predeclared_types.len() == 1
        && module.constants.len() == 2
        && module.overrides.len() == 2
        && module.global_variables.len() == 3
        && module.global_expressions.len() == 6
        && module.functions.len() == 2
        && module.entry_points.len() == 2
        && module.diagnostic_filters.len() == 2
        && module.doc_comments.is_some()
}

/// Returns whether a module is shown as its clone is, and both are full, or `None` if an allocation fails.
fn is_same(alloc: Global, module: &Module, clone: &Module) -> Option<bool> {
    let is_alike = are_shown_alike(alloc, module, clone)?;
    Some(is_alike && is_full(module) && is_full(clone))
}

/// Returns whether a full module is shown as its clone is, or `None` if an allocation fails and the module is still
/// full.
pub(super) fn is_cloned_whole(alloc: Global, module: &mut Module) -> Option<bool> {
    if !complete(alloc, module) {
        return None;
    }
    match TryClone::clone(module) {
        Ok(clone) => is_same(alloc, module, &clone),
        Err(AllocError) if is_full(module) => None,
        Err(AllocError) => Some(false),
    }
}

#[test]
fn a_clone_of_a_module_has_all_fields_and_elements(rt: HostRuntime) {
    assert!(rt; ask(rt.alloc(), EVERYTHING, Query::IsCloned) == Some(true));
}

/// Returns a block of two statements, the last of which is a block of two statements.
fn nest(alloc: Global) -> Result<Block, AllocError> {
    let inner = block(alloc, "pb", 1)?;
    let mut outer = block(alloc, "p", 5)?;
    outer.push(Statement::Block(inner), Span::new(7, 8))?;
    Ok(outer)
}

/// Returns whether a block has two statements, the last of which is a block of two statements.
fn is_nest(outer: &Block) -> bool {
    outer.len() == 2 && matches!(outer.last(), Some(Statement::Block(inner)) if inner.len() == 2)
}

/// Tests in which allocations may fail.
mod refusals {
    use super::*;

    #[test]
    fn a_refused_clone_leaves_the_module(rt: HostRuntime) {
        assert!(rt; ask(rt.alloc(), EVERYTHING, Query::IsCloned) != Some(false));
    }

    #[test]
    fn a_refused_clone_leaves_the_block(rt: HostRuntime) {
        let Ok(outer) = nest(rt.alloc()) else { return };
        if let Ok(clone) = TryClone::clone(&outer) {
            assert!(rt; is_nest(&clone));
        }
        assert!(rt; is_nest(&outer));
    }
}
