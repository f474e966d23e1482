//! Lists of names of passes.
ghost use Rattle.std.specs.Prelude.{◌≡◌, ◌<◌, ◌∷◌, IfErr, IfOk, IfSome, length};
ghost use Rattle.naga_passes.specs.Names.{IsErrorOf, IsFault, Lists, names_in, names_left};

use crate::pass::Pass;
use std::alloc::Global;
use thiserror::Error;

/// The list of the names of all passes.
pub const PASS_NAMES: &str = "cull, close, close-naga, compact, compact-keep-unused, restrict";

/// The reason why a list of names of passes was not read.
#[derive(Debug, PartialEq, Eq, Drop, Error)]
pub enum NamesError {
    /// An allocation failed.
    #[error("out of memory")]
    Memory,
    /// No pass has this name. Each name before it is that of a pass.
    #[error("unknown pass: {0} (passes: {names})", names = PASS_NAMES)]
    Unknown(String),
}

/// Returns the passes whose names are listed in a text, with commas between them, as in `cull, close`. White space
/// around a name does not count.
///
/// Returns `Err` if a name is not that of a pass ([`NamesError::Unknown`], with the first such name), or if an
/// allocation fails ([`NamesError::Memory`]). The empty text is one empty name, which is not that of a pass.
///
/// Differs from naga: naga has no such function.
pub fn passes_from_names(alloc: Global, names: &str) -> Result<Vec<Pass>, NamesError>
    ensures listed { IfOk result (λ passes. Lists passes.items names.now) }
    ensures fault { IfErr result (IsFault names.now) }
{
    let mut passes = Vec::new(alloc);
    let mut rest = Some(names);
    while let Some(list) = rest {
        let (name, others) = first_name(list);
        let Some(pass) = Pass::from_name(name) else {
            return Err(unknown_name(alloc, name));
        };
        if passes.push(pass).is_err() {
            return Err(NamesError::Memory);
        }
        rest = others;
    }
    Ok(passes)
}

/// Returns the first name of a list, without the white space around it, and the list after its comma if there is one.
fn first_name(list: &str) -> (&str, Option<&str>)
    ensures names { names_in list.now ≡ result.0.now ∷ names_left result.1 }
    ensures shorter { IfSome result.1 (λ others. length others.now < length list.now) }
{
    match list.split_once(',') {
        Some((name, others)) => (name.trim(), Some(others)),
        None => (list.trim(), None),
    }
}

/// Returns the error of a name that is not that of a pass.
fn unknown_name(alloc: Global, name: &str) -> NamesError
    ensures { IsErrorOf name.now result }
{
    match String::from_str(alloc, name) {
        Ok(name) => NamesError::Unknown(name),
        Err(_) => NamesError::Memory,
    }
}
