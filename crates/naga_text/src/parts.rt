//! The texts of parts of expressions, statements and types that do not follow from the declarations.
ghost use Rattle.std.specs.Prelude.{◌≡◌, ◌++◌, OnOk};
ghost use Rattle.naga_text.specs.Parts.{access_text, barrier_text, loop_words, pattern_text};
ghost use Rattle.naga_text.specs.Words.{word};

use crate::text::Text;
use naga_arena::Handle;
use naga_ir::{Barrier, Expression, Flags, StorageAccess, SwizzleComponent};
use naga_kinds::PlainKind;
use std::alloc::AllocError;

/// Appends the components that a swizzle selects.
pub(crate) fn push_pattern(
    text: &mut Text,
    pattern: &[SwizzleComponent; 4],
) -> Result<(), AllocError>
    ensures { OnOk result (text.new ≡ text.old ++ word (pattern_text pattern.now)) }
{
    text.push(" ")?;
    text.push(pattern[0].name())?;
    text.push(pattern[1].name())?;
    text.push(pattern[2].name())?;
    text.push(pattern[3].name())
}

/// Appends the kinds of memory for which a barrier is.
pub(crate) fn push_barrier(text: &mut Text, barrier: Barrier) -> Result<(), AllocError>
    ensures { OnOk result (text.new ≡ text.old ++ barrier_text barrier) }
{
    text.push_flag(barrier.contains(Barrier::STORAGE), "storage")?;
    text.push_flag(barrier.contains(Barrier::WORK_GROUP), "work_group")?;
    text.push_flag(barrier.contains(Barrier::SUB_GROUP), "sub_group")?;
    text.push_flag(barrier.contains(Barrier::TEXTURE), "texture")
}

/// Appends the action of a loop, which says whether a condition ends it.
pub(crate) fn push_loop(
    text: &mut Text,
    break_if: Option<Handle<Expression>>,
) -> Result<(), AllocError>
    ensures { OnOk result (text.new ≡ text.old ++ loop_words break_if) }
{
    match break_if {
        Some(_) => text.push("loop break if"),
        None => text.push("loop"),
    }
}

/// Appends the accesses that a shader may make.
pub(crate) fn push_access(text: &mut Text, access: StorageAccess) -> Result<(), AllocError>
    ensures { OnOk result (text.new ≡ text.old ++ access_text access) }
{
    text.push_flag(access.contains(StorageAccess::LOAD), "load")?;
    text.push_flag(access.contains(StorageAccess::STORE), "store")?;
    text.push_flag(access.contains(StorageAccess::ATOMIC), "atomic")
}
