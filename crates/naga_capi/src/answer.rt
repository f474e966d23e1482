//! The answers to texts.
ghost use Rattle.std.specs.Prelude.{◌≡◌, IfErr, IfOk};
ghost use Rattle.std.specs.Str.{IsUtf8};
ghost use Rattle.naga_passes.specs.Names.{Lists};
ghost use Rattle.naga_capi.specs.Answer.{Checks, IsFailureOf, IsOutcome, MayFailToList, Runs, Shows};
ghost use Rattle.naga_capi.specs.declared.failure.Failure.TheVariants.{NotUtf8};

use crate::failure::{Failure, fault_of_read};
use naga_explain::message_of;
use naga_json_read::ReadError;
use naga_look::{Detail, Extent, Format, Shown, TransformError, View, transform_json};
use naga_passes::{NamesError, Pass, passes_from_names};
use std::alloc::{AllocError, Global};

/// Runs the passes that a list names on the module that a text contains. Returns the JSON of the new module.
pub(crate) fn run(alloc: Global, text: &[u8], names: &[u8]) -> Result<String, Failure>
    ensures { Runs text.now names.now result }
{
    let passes = passes_in(alloc, names)?;
    match answer(alloc, text, passes.as_slice(), None) {
        Ok(shown) => Ok(shown.text),
        Err(failure) => Err(failure),
    }
}

/// Returns the module that a text contains as readable text.
pub(crate) fn show(alloc: Global, text: &[u8]) -> Result<String, Failure>
    ensures { Shows text.now result }
{
    let shown = answer(alloc, text, &[], Some(View::Text))?;
    Ok(shown.text)
}

/// Checks the module that a text contains. Returns the report, and the number of faults.
pub(crate) fn check(alloc: Global, text: &[u8]) -> Result<Shown, Failure>
    ensures { Checks text.now result }
{
    let report = View::Report(Extent::Short, Format::Lines);
    answer(alloc, text, &[], Some(report))
}

/// Returns the passes that a list names.
fn passes_in(alloc: Global, names: &[u8]) -> Result<Vec<Pass>, Failure>
    ensures listed { IfOk result (λ passes. Lists passes.items names.now) }
    ensures fault { IfErr result (MayFailToList names.now) }
{
    let names = text_in(names)?;
    match passes_from_names(alloc, names) {
        Ok(passes) => Ok(passes),
        Err(NamesError::Memory) => Err(Failure::Memory),
        Err(NamesError::Unknown(name)) => Err(Failure::UnknownPass(name)),
    }
}

/// Runs passes on the module that a text contains, and shows it, or returns its JSON if there is no view.
fn answer(alloc: Global, text: &[u8], passes: &[Pass], view: Option<View>) -> Result<Shown, Failure>
    ensures { IsOutcome passes.now view text.now result }
{
    let text = text_in(text)?;
    match transform_json(alloc, text, passes, Detail::Nothing, view) {
        Ok(made) => Ok(made.shown),
        Err(error) => Err(failure_of(alloc, text, error)),
    }
}

/// Returns the failure for a text that has no answer for this reason.
fn failure_of(alloc: Global, text: &str, error: TransformError) -> Failure
    ensures { IsFailureOf text.now error result }
{
    match error {
        TransformError::Read(reason) => unread(alloc, text, reason),
        TransformError::Restrict(message) => Failure::Unrestricted(message),
        TransformError::Write(reason) => Failure::Unwritten(reason),
        TransformError::Memory => Failure::Memory,
    }
}

/// Returns the failure for a text that was not read, for this reason.
fn unread(alloc: Global, text: &str, reason: ReadError) -> Failure
    ensures { IsFailureOf text.now (TransformError.Read reason) result }
{
    let fault = fault_of_read(&reason);
    match message_of(alloc, text, 0, reason) {
        Ok(message) => Failure::Unread(fault, message),
        Err(AllocError) => Failure::Memory,
    }
}

/// Returns some bytes as a text.
fn text_in(bytes: &[u8]) -> Result<&str, Failure>
    ensures text { IfOk result (λ text. (text.now ≡ bytes.now) × IsUtf8 bytes.now) }
    ensures fault { IfErr result (λ failure. (failure ≡ NotUtf8) × ¬ IsUtf8 bytes.now) }
{
    match std::str::from_utf8(bytes) {
        Ok(text) => Ok(text),
        Err(_) => Err(Failure::NotUtf8),
    }
}
