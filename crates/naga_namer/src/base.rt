//! The base of a name: what is made of a label, to which a number may be added.
ghost use Rattle.std.specs.Prelude.{◌≡◌, ◌∷◌, ◌++◌, ◌-◌, ◌^◌, [], false, IfOk, OnOk, chars, fold, map, string_bytes};
ghost use Rattle.std.specs.Fmt.{digits, format_spec, padded_integral};
ghost use Rattle.naga_namer.specs.Bases.{appended, base_of, begin_alike, cleaned, code_digits, code_text, generated, last_or, may_have_prefix, separated, separates, trimmed, underscore, underscored};

use std::alloc::{AllocError, Global};

/// The byte of `_`.
const UNDERSCORE: u8 = b'_';

/// Returns the base of the names of a label, for a language with these reserved prefixes.
///
/// Returns `Err` if allocation fails.
pub(crate) fn base_of(alloc: Global, prefixes: &[&str], label: &str) -> Result<String, AllocError>
    ensures { IfOk result
        (λ base. string_bytes base ≡ base_of (map (λ prefix. prefix.now) prefixes.now) label.now) }
{
    let base = cleaned(alloc, label)?;
    if may_have_prefix(prefixes, base.as_str()) {
        generated(alloc, base.as_str())
    } else {
        Ok(base)
    }
}

/// Returns what a label becomes before the prefixes are considered.
fn cleaned(alloc: Global, label: &str) -> Result<String, AllocError>
    ensures { IfOk result (λ base. string_bytes base ≡ cleaned label.now) }
{
    let mut base = String::with_capacity(alloc, label.len())?;
    push_characters(&mut base, label)?;
    trim(&mut base);
    if base.is_empty() {
        base.push_str("unnamed")?;
    }
    Ok(base)
}

/// Appends the characters of a label to an empty base.
fn push_characters(base: &mut String, label: &str) -> Result<(), AllocError>
    ensures { OnOk result (string_bytes base.new ≡ fold appended (string_bytes base.old) (chars label.now)) }
{
    for c in label.chars() {
        push_character(base, c)?;
    }
    Ok(())
}

/// Appends a character of a label. Most are letters and digits that are not at the beginning.
#[tactic(auto, using(crate::proofs::AppendedLemmas::appended_plain))]
fn push_character(base: &mut String, c: char) -> Result<(), AllocError>
    ensures { OnOk result (string_bytes base.new ≡ appended (string_bytes base.old) c) }
{
    if !base.is_empty() && c.is_ascii_alphanumeric() {
        return base.push(c);
    }
    push_any(base, c)
}

/// Appends any character of a label.
fn push_any(base: &mut String, c: char) -> Result<(), AllocError>
    ensures { OnOk result (string_bytes base.new ≡ appended (string_bytes base.old) c) }
{
    if base.is_empty() && c.is_numeric() {
        return Ok(());
    }
    if separates(c) {
        return push_underscore(base);
    }
    if c.is_ascii_alphanumeric() {
        return base.push(c);
    }
    push_code(base, c)
}

/// Appends `_`, unless the base ends in one.
fn push_underscore(base: &mut String) -> Result<(), AllocError>
    ensures { OnOk result (string_bytes base.new ≡ underscored (string_bytes base.old)) }
{
    if last_or(0, base.as_str()) == UNDERSCORE {
        return Ok(());
    }
    base.push_str("_")
}

/// Appends the code of a character that has no place in an identifier.
fn push_code(base: &mut String, c: char) -> Result<(), AllocError>
    ensures { OnOk result (string_bytes base.new ≡ separated (string_bytes base.old) ++ code_text c) }
{
    if last_or(UNDERSCORE, base.as_str()) != UNDERSCORE {
        base.push_str("_")?;
    }
    base.push_str("u")?;
    push_code_digits(base, c)?;
    base.push_str("_")
}

/// Appends the code of a character, in at least four hexadecimal digits.
#[tactic(auto, using(crate::proofs::CodeDigitsLemmas::padded_code))]
fn push_code_digits(base: &mut String, c: char) -> Result<(), AllocError>
    ensures { OnOk result (string_bytes base.new ≡ string_bytes base.old ++ code_digits c) }
{
    push_padded(base, c as u32)
}

/// Appends a number, in at least four hexadecimal digits.
fn push_padded(base: &mut String, code: u32) -> Result<(), AllocError>
    ensures { OnOk result (string_bytes base.new ≡ string_bytes base.old
        ++ padded_integral (format_spec 32 0 4 4 (2 ^ 64 - 1)) false [] (digits 16 false code)) }
{
    write!(base, "{code:04x}")
}

/// Returns whether a character becomes `_`.
fn separates(c: char) -> bool
    ensures { result ≡ separates c }
{
    c == '_' || c == ':' || c == '<' || c == '>' || c == ','
}

/// Removes the `_` at the end of a base, if there is one.
fn trim(base: &mut String)
    ensures { string_bytes base.new ≡ trimmed (string_bytes base.old) }
{
    if last_or(0, base.as_str()) == UNDERSCORE {
        base.pop();
    }
}

/// Returns the last byte of a text, or `default` if the text is empty.
pub(crate) fn last_or(default: u8, text: &str) -> u8
    ensures { result ≡ last_or default text.now }
{
    let bytes = text.as_bytes();
    if bytes.is_empty() {
        default
    } else {
        bytes[bytes.len() - 1]
    }
}

/// Returns whether a name of this base could begin with one of the prefixes.
fn may_have_prefix(prefixes: &[&str], base: &str) -> bool
    ensures { result ≡ may_have_prefix (map (λ prefix. prefix.now) prefixes.now) base.now }
{
    for prefix in prefixes {
        if may_begin(prefix, base) {
            return true;
        }
    }
    false
}

/// Returns whether a prefix and a base with `_` are the same up to the end of the shorter one.
#[tactic(auto, using(crate::proofs::BeginsLemmas::begins_short))]
fn may_begin(prefix: &str, base: &str) -> bool
    ensures { result ≡ begin_alike prefix.now (base.now ++ underscore ∷ []) }
{
    if prefix.len() <= base.len() {
        return begin_alike(prefix, base);
    }
    begin_alike(prefix, base) && prefix.as_bytes()[base.len()] == UNDERSCORE
}

/// Returns whether two texts are the same up to the end of the shorter one.
fn begin_alike(a: &str, b: &str) -> bool
    ensures { result ≡ begin_alike a.now b.now }
{
    let (a, b) = (a.as_bytes(), b.as_bytes());
    let shared = a.len().min(b.len());
    a[..shared] == b[..shared]
}

/// Returns the base behind `gen` and one `_`.
fn generated(alloc: Global, base: &str) -> Result<String, AllocError>
    ensures { IfOk result (λ name. string_bytes name ≡ generated base.now) }
{
    let bytes = base.as_bytes();
    if !bytes.is_empty() && bytes[0] == UNDERSCORE {
        return format!(in alloc; "gen{base}");
    }
    format!(in alloc; "gen_{base}")
}
