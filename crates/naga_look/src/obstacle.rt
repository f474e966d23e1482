//! The message about a module that cannot be restricted.
ghost use Rattle.std.specs.Prelude.{◌≡◌, IfOk, IfSome, codes, string_bytes};
ghost use Rattle.naga_bounds.specs.Messages.{restrict_error_text};
ghost use Rattle.naga_look.specs.Report.{headed_entry_point, headed_function};
ghost use Rattle.naga_look.specs.RestrictMessage.{IsObstacleMessage, IsRestrictMessage, IsSaidOfObstacle, IsUnplacedMessage};

use crate::heads::{entry_point_head, function_head};
use naga_arena::Handle;
use naga_bounds::{Obstacle, RestrictError};
use naga_flow::BodyOwner;
use naga_ir::{EntryPoint, Function, Module};
use naga_text::Text;
use std::alloc::{AllocError, Global};

/// Returns the message about a module that cannot be restricted: the function, with its name, and why.
///
/// The module is the one that [`restrict`](naga_bounds::restrict) left with this error. The message names a statement by
/// its path, as a report does, as in
/// `restrict: function 0 "shade": body[0].block[1]: expression 2 is used and may not have been evaluated`. If the module has no
/// such function, the message has its number alone.
///
/// Returns `Err` if allocation fails.
///
/// Differs from naga: naga has no such function.
pub fn restrict_message(
    alloc: Global,
    module: &Module,
    error: &RestrictError,
) -> Result<String, AllocError>
    ensures { IfOk result (λ message. IsRestrictMessage «module».now error.now (string_bytes message)) }
{
    match error.owner {
        BodyOwner::Function(handle) => match module.functions.try_get(handle) {
            Ok(function) => function_message(alloc, handle, function, &error.obstacle),
            Err(_) => unplaced_message(alloc, error),
        },
        BodyOwner::EntryPoint(position) => match module.entry_points.as_slice().get(position) {
            Some(entry_point) => {
                entry_point_message(alloc, position, entry_point, &error.obstacle)
            }
            None => unplaced_message(alloc, error),
        },
    }
}

/// Returns the message about a function.
fn function_message(
    alloc: Global,
    handle: Handle<Function>,
    function: &Function,
    obstacle: &Obstacle,
) -> Result<String, AllocError>
    ensures { IfOk result (λ message.
        IsObstacleMessage (headed_function (handle, function.now)) obstacle.now (string_bytes message)) }
{
    let head = function_head(&Text::new(alloc), handle.index(), function)?;
    obstacle_message(alloc, &head, function, obstacle)
}

/// Returns the message about an entry point.
fn entry_point_message(
    alloc: Global,
    position: usize,
    entry_point: &EntryPoint,
    obstacle: &Obstacle,
) -> Result<String, AllocError>
    ensures { IfOk result (λ message.
        IsObstacleMessage (headed_entry_point (position, entry_point.now)) obstacle.now (string_bytes message)) }
{
    let head = entry_point_head(&Text::new(alloc), position, entry_point)?;
    obstacle_message(alloc, &head, &entry_point.function, obstacle)
}

/// Returns the message about a function that is named by `head`.
fn obstacle_message(
    alloc: Global,
    head: &Text,
    function: &Function,
    obstacle: &Obstacle,
) -> Result<String, AllocError>
    ensures { IfOk result (λ message.
        IsObstacleMessage (record { head = head.now; whole = function.now }) obstacle.now (string_bytes message)) }
{
    let said = said_of(alloc, function, obstacle)?;
    let mut text = Text::new(alloc);
    text.push("restrict: ")?;
    text.push_text(head)?;
    text.push(": ")?;
    text.push_visible(said.as_str())?;
    Ok(text.finish())
}

/// Returns why the accesses of a function cannot be clamped, with the path to the statement at fault if there is one.
fn said_of(alloc: Global, function: &Function, obstacle: &Obstacle) -> Result<String, AllocError>
    ensures { IfOk result (λ said. IsSaidOfObstacle function.now obstacle.now (string_bytes said)) }
{
    match obstacle {
        Obstacle::NotEmitted(misuse) => format!(in alloc; "{}", misuse.display(function)),
        _ => format!(in alloc; "{obstacle}"),
    }
}

/// Returns the message about a function that the module does not have.
fn unplaced_message(alloc: Global, error: &RestrictError) -> Result<String, AllocError>
    ensures { IfOk result (λ message. IsUnplacedMessage error.now (string_bytes message)) }
{
    format!(in alloc; "restrict: {error}")
}
