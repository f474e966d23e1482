//! What passes did, as text.
ghost use Rattle.std.specs.Prelude.{◌≡◌, ◌++◌, IfOk, OnOk, map, string_bytes};
ghost use Rattle.naga_look.specs.StatsText.{body_phrases, change_phrases, changes_text, counts_line, counts_text, declaration_phrases, listed, phrase, removed_phrases};

use super::PassCounts;
use super::contents::Contents;
use std::alloc::{AllocError, Global};

/// Returns a line for each pass: its name, what it removed, and how many returns and expressions it inserted.
///
/// Numbers that are 0 are left out, as in `compact: 1 type, 4 expressions removed`. The line of a pass that changed
/// nothing is its name and `nothing`.
///
/// Returns `Err` if allocation fails.
///
/// Differs from naga: naga has no such function.
pub fn counts_text(alloc: Global, counts: &[PassCounts]) -> Result<String, AllocError>
    ensures { IfOk result (λ text. string_bytes text ≡ counts_text counts.now) }
{
    let mut text = String::new(alloc);
    'passes: for pass in counts {
        push_line(alloc, &mut text, pass)?;
    }
    Ok(text)
}

/// Appends the line of a pass.
fn push_line(alloc: Global, text: &mut String, counts: &PassCounts) -> Result<(), AllocError>
    ensures { OnOk result (string_bytes text.new ≡ string_bytes text.old ++ counts_line counts.now) }
{
    let name = counts.pass.name();
    let changes = changes(alloc, counts)?;
    writeln!(text, "{name}: {changes}")
}

/// Returns what a pass changed.
fn changes(alloc: Global, counts: &PassCounts) -> Result<String, AllocError>
    ensures { IfOk result (λ text. string_bytes text ≡ changes_text (change_phrases counts.now)) }
{
    let mut phrases = removed(alloc, &counts.removed)?;
    push_phrase(
        alloc,
        &mut phrases,
        counts.returns_inserted,
        "return inserted",
        "returns inserted",
    )?;
    push_phrase(
        alloc,
        &mut phrases,
        counts.expressions_inserted,
        "expression inserted",
        "expressions inserted",
    )?;
    changes_text(alloc, phrases.as_slice())
}

/// Returns changes as text.
fn changes_text(alloc: Global, phrases: &[String]) -> Result<String, AllocError>
    ensures { IfOk result (λ text. string_bytes text ≡ changes_text (map string_bytes phrases.now)) }
{
    if phrases.is_empty() {
        return String::from_str(alloc, "nothing");
    }
    phrases.join(alloc, ", ")
}

/// Returns what was removed: nothing, or one phrase.
fn removed(alloc: Global, removed: &Contents) -> Result<Vec<String>, AllocError>
    ensures { IfOk result (λ phrases. map string_bytes phrases.items
        ≡ removed_phrases (declaration_phrases removed.now ++ body_phrases removed.now)) }
{
    let mut phrases = Vec::new(alloc);
    push_declarations(alloc, &mut phrases, removed)?;
    push_bodies(alloc, &mut phrases, removed)?;
    one_phrase(alloc, phrases.as_slice())
}

/// Returns one phrase for what was removed, if it is not nothing.
fn one_phrase(alloc: Global, phrases: &[String]) -> Result<Vec<String>, AllocError>
    ensures { IfOk result (λ whole. map string_bytes whole.items ≡ removed_phrases (map string_bytes phrases.now)) }
{
    let mut whole = Vec::new(alloc);
    if phrases.is_empty() {
        return Ok(whole);
    }
    let listed = phrases.join(alloc, ", ")?;
    whole.push(format!(in alloc; "{listed} removed")?)?;
    Ok(whole)
}

/// Appends the phrases of the declarations other than functions.
fn push_declarations(
    alloc: Global,
    phrases: &mut Vec<String>,
    removed: &Contents,
) -> Result<(), AllocError>
    ensures { OnOk result (map string_bytes phrases.new.items
        ≡ map string_bytes phrases.old.items ++ declaration_phrases removed.now) }
{
    push_phrase(alloc, phrases, removed.types, "type", "types")?;
    push_phrase(alloc, phrases, removed.constants, "constant", "constants")?;
    push_phrase(alloc, phrases, removed.overrides, "override", "overrides")?;
    push_phrase(
        alloc,
        phrases,
        removed.global_variables,
        "global variable",
        "global variables",
    )?;
    push_phrase(
        alloc,
        phrases,
        removed.global_expressions,
        "global expression",
        "global expressions",
    )
}

/// Appends the phrases of statements, functions and their expressions.
fn push_bodies(
    alloc: Global,
    phrases: &mut Vec<String>,
    removed: &Contents,
) -> Result<(), AllocError>
    ensures { OnOk result (map string_bytes phrases.new.items
        ≡ map string_bytes phrases.old.items ++ body_phrases removed.now) }
{
    push_phrase(
        alloc,
        phrases,
        removed.statements,
        "statement",
        "statements",
    )?;
    push_phrase(alloc, phrases, removed.functions, "function", "functions")?;
    push_phrase(
        alloc,
        phrases,
        removed.expressions,
        "expression",
        "expressions",
    )
}

/// Appends a number and what it counts, unless the number is 0.
fn push_phrase(
    alloc: Global,
    phrases: &mut Vec<String>,
    count: u64,
    one: &str,
    many: &str,
) -> Result<(), AllocError>
    ensures { OnOk result (map string_bytes phrases.new.items
        ≡ map string_bytes phrases.old.items ++ phrase count one.now many.now) }
{
    if count == 0 {
        return Ok(());
    }
    let counted = if count == 1 { one } else { many };
    phrases.push(format!(in alloc; "{count} {counted}")?)?;
    Ok(())
}
