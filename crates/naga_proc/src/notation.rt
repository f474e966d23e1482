//! Closing blocks that are given in their notation, as lines of text.
ghost use Rattle.std.specs.Prelude.{ℕ, List, IfOk, IfErr, string_bytes};
ghost use Rattle.naga_notation.specs.Refusal.{Refused};
ghost use Rattle.naga_proc.specs.Reshape.{IsAnswerOrMemory, Reshapes};
ghost use Rattle.naga_proc.specs.declared.terminator.rule.Rule.{Rule};

use crate::terminator::{Rule, ensure_block_returns_by};
use naga_notation::{ShapeError, read_block, write_block};
use std::alloc::Global;

/// Reads a block from its notation, closes it as [`ensure_block_returns`](crate::ensure_block_returns) does, and
/// returns the notation of the closed block.
///
/// Errors: a text that is not a notation is rejected at the end of its longest prefix that begins one, and a block that
/// is too deep is rejected at its bracket, whichever comes first. The returned text may be longer than
/// [`LENGTH_LIMIT`](crate::LENGTH_LIMIT).
pub fn reshape(alloc: Global, text: &str) -> Result<String, ShapeError>
    ensures closed { IfOk result (λ answer. Reshapes Rule.New text.now (string_bytes answer)) }
    ensures refused { IfErr result (Refused text.now) }

    // If the text has an answer, the result is that answer, or the error is `Memory`.
    ensures only { (answer : List ℕ) → Reshapes Rule.New text.now answer → IsAnswerOrMemory result answer }
{
    reshape_by(alloc, text, Rule::New)
}

/// Reads a block from its notation, closes it as [`ensure_block_returns_old`](crate::ensure_block_returns_old) does,
/// and returns the notation of the closed block.
///
/// This rejects the texts that [`reshape`] rejects. Calling `reshape` on the returned text returns the same as calling
/// it on `text`, unless the returned text is longer than [`LENGTH_LIMIT`](crate::LENGTH_LIMIT).
pub fn reshape_old(alloc: Global, text: &str) -> Result<String, ShapeError>
    ensures closed { IfOk result (λ answer. Reshapes Rule.Old text.now (string_bytes answer)) }
    ensures refused { IfErr result (Refused text.now) }
    ensures only { (answer : List ℕ) → Reshapes Rule.Old text.now answer → IsAnswerOrMemory result answer }
{
    reshape_by(alloc, text, Rule::Old)
}

/// Reads a block from its notation, closes it by `rule`, and returns the notation of the closed block.
///
/// [`reshape`] is this call with [`Rule::New`], and [`reshape_old`] is this call with [`Rule::Old`]. The block is
/// closed as [`ensure_block_returns_by`] does. Both rules reject the same texts, as described at [`reshape`]. The
/// returned text may be longer than [`LENGTH_LIMIT`](crate::LENGTH_LIMIT).
///
/// Differs from naga: naga has no such function.
pub fn reshape_by(alloc: Global, text: &str, rule: Rule) -> Result<String, ShapeError>
    ensures closed { IfOk result (λ answer. Reshapes rule text.now (string_bytes answer)) }
    ensures refused { IfErr result (Refused text.now) }
    ensures only { (answer : List ℕ) → Reshapes rule text.now answer → IsAnswerOrMemory result answer }
{
    let mut block = read_block(alloc, text.as_bytes())?;
    ensure_block_returns_by(&mut block, rule)?;
    let mut answer = String::new(alloc);
    write_block(&mut answer, &block)?;
    Ok(answer)
}
