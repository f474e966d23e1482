//! Renaming the handles that the keys of doc comments contain.
ghost use Rattle.std.specs.Prelude.{OnOk, option_to_list};
ghost use Rattle.std.specs.List.{AllZip};
ghost use Rattle.naga_compact.specs.Module.Compaction.{RenamesComments};

use super::ModuleRenumbering;
use crate::renumbering::{RenameKey, Renumbering, try_rename_keys};
use naga_arena::Handle;
use naga_ir::{DocComments, Type};
use std::alloc::{AllocError, Global};

/// The key of a comment on a member of a structure.
type MemberKey = (Handle<Type>, usize);

impl RenameKey<MemberKey> for Renumbering<Type> {
    ghost use Rattle.std.proofs.Common.{rules};
    ghost use Rattle.std.specs.FinSet.{contains};
    ghost use Rattle.naga_compact.specs.Kept.{new_index};

    ghost keeps_key = { λ renumbering key. contains renumbering.members key.0 };

    ghost renamed_key = { λ renumbering key. (new_index renumbering key.0, key.1) };

    ghost decides = { λ a b. Prim.search rules };

    fn new_key(&self, key: &MemberKey) -> Option<MemberKey> {
        if self.keeps(key.0) {
            Some((self.handle(key.0), key.1))
        } else {
            None
        }
    }
}

/// Renames the handles that the keys of doc comments contain, if there are doc comments. Comments on elements that are
/// not kept are removed. Returns `Err` if allocation fails.
pub(crate) fn rename_optional_comments(
    alloc: Global,
    comments: &mut Option<Box<DocComments>>,
    renumbering: &ModuleRenumbering,
) -> Result<(), AllocError>
    ensures { OnOk result (AllZip (λ before after. RenamesComments renumbering.now before.value after.value)
        (option_to_list comments.old) (option_to_list comments.new)) }
{
    match comments {
        Some(comments) => rename_doc_comments(alloc, comments, renumbering),
        None => Ok(()),
    }
}

/// Renames the handles that the keys of doc comments contain. Comments on elements that are not kept are removed. The
/// others are in order. Returns `Err` if allocation fails.
fn rename_doc_comments(
    alloc: Global,
    comments: &mut DocComments,
    renumbering: &ModuleRenumbering,
) -> Result<(), AllocError>
    ensures { OnOk result (RenamesComments renumbering.now comments.old comments.new) }
{
    try_rename_keys(alloc, &mut comments.types, &renumbering.types)?;
    try_rename_keys(alloc, &mut comments.struct_members, &renumbering.types)?;
    try_rename_keys(alloc, &mut comments.functions, &renumbering.functions)?;
    try_rename_keys(alloc, &mut comments.constants, &renumbering.constants)?;
    try_rename_keys(
        alloc,
        &mut comments.global_variables,
        &renumbering.global_variables,
    )
}
