//! What the program says of passes on standard error.
ghost use Rattle.std.specs.Prelude.{◌≡◌, IfOk, flat_map, map, string_bytes};
ghost use Rattle.naga_opt.specs.Messages.{named_line};
ghost use Rattle.naga_opt.specs.Said.{account_text, named_lines};

use naga_look::{Account, counts_text};
use std::alloc::{AllocError, Global};

/// Returns what is to be said of what passes did, each line after the name of the program: a line for each pass whose
/// counts the account has, and then the notes.
pub fn said_of(alloc: Global, account: &Account) -> Result<String, AllocError>
    ensures { IfOk result (λ said. string_bytes said ≡ named_lines (account_text account.now)) }
{
    let mut text = counts_text(alloc, account.counts.as_slice())?;
    text.push_str(account.notes.as_str())?;
    named_lines(alloc, text.as_str())
}

/// Returns the lines of a text, each after the name of the program.
fn named_lines(alloc: Global, text: &str) -> Result<String, AllocError>
    ensures { IfOk result (λ named. string_bytes named ≡ named_lines text.now) }
{
    let lines: Vec<&str> = text.lines().collect(alloc)?;
    joined(alloc, lines.as_slice())
}

/// Returns lines as a text, each after the name of the program.
fn joined(alloc: Global, lines: &[&str]) -> Result<String, AllocError>
    ensures { IfOk result (λ named. string_bytes named ≡ flat_map (λ line. named_line line.now) lines.now) }
{
    let mut named = String::new(alloc);
    'lines: for line in lines {
        writeln!(named, "naga_opt: {line}")?;
    }
    Ok(named)
}
