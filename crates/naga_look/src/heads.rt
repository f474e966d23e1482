//! What the lines of a report on a function begin with.
ghost use Rattle.std.specs.Prelude.{◌≡◌, IfOk};
ghost use Rattle.naga_text.specs.Readable.{IsPlain};
ghost use Rattle.naga_look.specs.Report.{headed_entry_point, headed_function};

use naga_ir::{EntryPoint, Function};
use naga_text::{Text, push_declared, push_entry_point_name};
use std::alloc::AllocError;

/// Returns the position of a function, and its name if it has one. The text allocates as another one does.
pub(crate) fn function_head(
    text: &Text,
    index: usize,
    function: &Function,
) -> Result<Text, AllocError>
    ensures head { IfOk result (λ head. head ≡ (headed_function (index, function.now)).head) }
    ensures plain { IfOk result (λ head. IsPlain head) }
{
    let mut head = text.fresh();
    push_declared(&mut head, "function", index, &function.name)?;
    Ok(head)
}

/// Returns the position and the name of an entry point. The text allocates as another one does.
pub(crate) fn entry_point_head(
    text: &Text,
    position: usize,
    entry_point: &EntryPoint,
) -> Result<Text, AllocError>
    ensures head { IfOk result (λ head. head ≡ (headed_entry_point (position, entry_point.now)).head) }
    ensures plain { IfOk result (λ head. IsPlain head) }
{
    let mut head = text.fresh();
    push_entry_point_name(&mut head, position, &entry_point.name)?;
    Ok(head)
}
