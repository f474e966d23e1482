//! The answer to the text of a module.
ghost use Rattle.std.specs.Prelude.{IfErr, IfOk, string_bytes};
ghost use Rattle.naga_opt.specs.Answer.{IsAnswer, IsEnded, MayHaveNoAnswer};
ghost use Rattle.naga_opt.specs.Said.{IsSaid};
ghost use Rattle.naga_opt.specs.Task.{chosen_of};

use crate::said::said_of;
use crate::task::Task;
use naga_look::{Shown, TransformError, Transformed, View, transform_json};
use std::alloc::{AllocError, Global};

/// The answer to a text.
#[derive(Debug, Drop)]
pub struct TextAnswer {
    /// What is written to the output. It ends in a newline unless it is empty.
    pub shown: Shown,
    /// What is to be said of the passes on standard error: whole lines, or nothing.
    pub said: String,
}

/// Returns the answer to a text for a task.
pub fn answer(alloc: Global, text: &str, task: &Task) -> Result<TextAnswer, TransformError>
    ensures answer { IfOk result (λ made. IsAnswer (chosen_of task.now) text.now made.shown) }
    ensures said { IfOk result (λ made. IsSaid (chosen_of task.now) text.now (string_bytes made.said)) }
    ensures fault { IfErr result (MayHaveNoAnswer (chosen_of task.now) text.now) }
{
    let Transformed { shown, account } = transform_json(
        alloc,
        text,
        task.passes(),
        task.detail(),
        task.view,
    )?;
    let said = said_of(alloc, &account)?;
    let whole = ended(shown, task.view)?;
    Ok(TextAnswer { shown: whole, said })
}

/// Returns what is shown, with a newline at its end if it is JSON.
fn ended(shown: Shown, view: Option<View>) -> Result<Shown, AllocError>
    ensures { IfOk result (IsEnded view shown) }
{
    match view {
        Some(_) => Ok(shown),
        None => {
            let Shown { mut text, faults } = shown;
            text.push_str("\n")?;
            Ok(Shown { text, faults })
        }
    }
}
