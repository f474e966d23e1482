//! What passes make of a module that is a text, and what they do.
ghost use Rattle.std.specs.Prelude.{IfErr, IfOk, None, Some};
ghost use Rattle.naga_json_write.specs.Module.{IsReason};
ghost use Rattle.naga_look.specs.Transform.{IsAccountOf, IsAnswerAfter, IsAnswerOf, IsErrorOfPass, IsJson, IsShownAfter, MayFailAfter, MayFailToAnswer};

use crate::obstacle::restrict_message;
use crate::shown::{Shown, View};
use crate::stats::{Account, Detail, run_counted};
use crate::transform_error::TransformError;
use crate::view::show_module;
use naga_ir::Module;
use naga_json_read::read_module;
use naga_json_write::{WriteError, write_module};
use naga_passes::{Pass, PassFault};
use std::alloc::{AllocError, Global};

/// What passes made of a module, and what they did.
#[derive(Debug, Drop)]
pub struct Transformed {
    /// What is shown of the module, or its JSON.
    pub shown: Shown,
    /// What the passes did.
    pub account: Account,
}

/// Reads a module from a text, runs passes on it in this order, and shows it, or returns its JSON if `view` is `None`.
///
/// The text is read as by [`read_module`](naga_json_read::read_module), and the module is written as by
/// [`write_module`](naga_json_write::write_module). The passes run as by [`run_counted`], whose account comes with the
/// answer.
///
/// Returns `Err` if the text is not the JSON of a module or a handle of the module is not valid
/// ([`TransformError::Read`]), if the accesses of a function cannot be clamped where they are to be
/// ([`TransformError::Restrict`]), if there is no view and the module that the passes made has no JSON or one that is nested
/// too deep ([`TransformError::Write`]), or if an allocation fails ([`TransformError::Memory`]).
///
/// Differs from naga: naga has no such function.
pub fn transform_json(
    alloc: Global,
    text: &str,
    passes: &[Pass],
    detail: Detail,
    view: Option<View>,
) -> Result<Transformed, TransformError>
    ensures shown { IfOk result (λ made. IsAnswerAfter passes.now view text.now made.shown) }
    ensures account { IfOk result (λ made. IsAccountOf detail passes.now text.now made.account) }
    ensures fault { IfErr result (MayFailAfter passes.now view text.now) }
{
    let mut module = read_module(alloc, text)?;
    match run_counted(alloc, &mut module, passes, detail) {
        Ok(account) => {
            let shown = answer(alloc, text, passes, &module, view)?;
            Ok(Transformed { shown, account })
        }
        Err(error) => Err(error_of_pass(alloc, &module, error.fault)),
    }
}

/// Returns the error of a pass that stopped for this reason, and left this module.
fn error_of_pass(alloc: Global, module: &Module, fault: PassFault) -> TransformError
    ensures { IsErrorOfPass «module».now fault result }
{
    match fault {
        PassFault::Memory => TransformError::Memory,
        PassFault::Restrict(error) => match restrict_message(alloc, module, &error) {
            Ok(message) => TransformError::Restrict(message),
            Err(AllocError) => TransformError::Memory,
        },
    }
}

/// Shows a module, which passes made of one that the text represents, or returns its JSON.
fn answer(
    alloc: Global,
    text: &str,
    passes: &[Pass],
    module: &Module,
    view: Option<View>,
) -> Result<Shown, TransformError>
    ensures answers { IfOk result (IsAnswerOf passes.now view text.now «module».now) }
    ensures fault { IfErr result (MayFailToAnswer view text.now «module».now) }
{
    match view {
        Some(view) => show(alloc, text, passes, module, view),
        None => {
            let shown = json(alloc, module)?;
            Ok(shown)
        }
    }
}

/// Shows a module, which passes made of one that the text represents.
fn show(
    alloc: Global,
    text: &str,
    passes: &[Pass],
    module: &Module,
    view: View,
) -> Result<Shown, TransformError>
    ensures shown { IfOk result (IsShownAfter passes.now view text.now «module».now) }
    ensures fault { IfErr result (MayFailToAnswer (Some view) text.now «module».now) }
{
    if passes.is_empty() || !view.compares() {
        let shown = show_module(alloc, module, module, view)?;
        return Ok(shown);
    }
    // The module that was read is gone. That the text represents another one is known only if the text is read again: no
    // contract says that a clone of a module is equal to it.
    let old = read_module(alloc, text)?;
    let compared = show_module(alloc, &old, module, view)?;
    Ok(compared)
}

/// Returns the JSON of a module.
fn json(alloc: Global, module: &Module) -> Result<Shown, WriteError>
    ensures json { IfOk result (IsJson «module».now) }
    ensures reason { IfErr result (IsReason «module».now) }
{
    let mut text = String::new(alloc);
    write_module(&mut text, module)?;
    Ok(Shown { text, faults: 0 })
}
