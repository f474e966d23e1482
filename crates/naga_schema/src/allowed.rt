//! The names that are allowed in place of one that is not.
ghost use Rattle.std.specs.Prelude.{◌≡◌, ◌≤◌, drop, length, map, option_map, slice_get, Some};
ghost use Rattle.std.specs.Fmt.{DisplaysOnOk};
ghost use Rattle.naga_schema.specs.Messages.{allowed_text, more_text};
ghost use Rattle.naga_schema.specs.Path.{allowed_names};
ghost use Rattle.naga_schema.specs.Shape.{field_names, field_view, variant_names, variant_view};

use crate::derived::kind::Kind;
use crate::schema::{Field, Variant};
use std::fmt;

/// The names that are allowed.
#[derive(Clone, Copy, Debug, PartialEq, Eq)]
pub enum Allowed {
    /// Those of the variants of a kind.
    Kind(Kind),
    /// Those of the variants of an enum: first of those that hold no value, and then of those that hold one.
    Variants(&'static [&'static str], &'static [Variant]),
    /// Those of the fields of a struct.
    Fields(&'static [Field]),
}

impl Allowed {
    /// Returns the name at a position, in the order of declaration, or `None` if there are no more names than that.
    pub fn name(&self, position: usize) -> Option<&'static str>
        ensures { option_map (λ name. name.now) result ≡ slice_get (allowed_names self.now) position }
    {
        match self {
            Allowed::Kind(kind) => kind.name(position),
            Allowed::Variants(names, variants) => variant_at(names, variants, position),
            Allowed::Fields(fields) => field_at(fields, position),
        }
    }
}

/// Returns the name of the variant of an enum at a position.
fn variant_at(
    names: &'static [&'static str],
    variants: &'static [Variant],
    position: usize,
) -> Option<&'static str>
    ensures { option_map (λ name. name.now) result
        ≡ slice_get (variant_names (map (λ name. name.now) names.now) (map variant_view variants.now)) position }
{
    if position < names.len() {
        return plain_at(names, position);
    }
    holder_at(variants, position - names.len())
}

/// Returns the name of the variant that holds no value at a position.
#[tactic(auto, using(crate::proofs::AllowedLemmas::mapped))]
fn plain_at(names: &'static [&'static str], position: usize) -> Option<&'static str>
    ensures { option_map (λ name. name.now) result ≡ slice_get (map (λ name. name.now) names.now) position }
{
    match names.get(position) {
        Some(name) => Some(*name),
        None => None,
    }
}

/// Returns the name of the variant that holds a value at a position.
#[tactic(auto, using(crate::proofs::AllowedLemmas::mapped))]
fn holder_at(variants: &'static [Variant], position: usize) -> Option<&'static str>
    ensures { option_map (λ name. name.now) result
        ≡ slice_get (map (λ variant. variant.0) (map variant_view variants.now)) position }
{
    match variants.get(position) {
        Some(variant) => Some(variant.0),
        None => None,
    }
}

/// Returns the name of the field at a position.
#[tactic(auto, using(crate::proofs::AllowedLemmas::mapped))]
fn field_at(fields: &'static [Field], position: usize) -> Option<&'static str>
    ensures { option_map (λ name. name.now) result ≡ slice_get (field_names (map field_view fields.now)) position }
{
    match fields.get(position) {
        Some(field) => Some(field.0),
        None => None,
    }
}

/// The greatest number of names that are shown.
const SHOWN: usize = 8;

/// Writes the names that are allowed, if they are few, as in `, expected Fine, Coarse or None`.
pub(crate) fn write_allowed<W: fmt::Write>(
    f: &mut fmt::Formatter<W>,
    allowed: &Allowed,
) -> fmt::Result
    ensures { DisplaysOnOk W.write_str_gives f.old result (Some (allowed_text (allowed_names allowed.now))) f.new }
{
    if allowed.name(SHOWN).is_some() {
        return Ok(());
    }
    match allowed.name(0) {
        Some(name) => {
            write!(f, ", expected {name}")?;
            write_more(f, allowed, 1)
        }
        None => Ok(()),
    }
}

/// Writes the names that are allowed, which are few, from a position on, behind another one.
fn write_more<W: fmt::Write>(
    f: &mut fmt::Formatter<W>,
    allowed: &Allowed,
    position: usize,
) -> fmt::Result
    requires { length (allowed_names allowed.now) ≤ 8 }
    ensures { DisplaysOnOk W.write_str_gives f.old result
        (Some (more_text (drop position (allowed_names allowed.now)))) f.new }
{
    match allowed.name(position) {
        None => Ok(()),
        Some(name) => {
            if allowed.name(position + 1).is_none() {
                return write!(f, " or {name}");
            }
            write!(f, ", {name}")?;
            write_more(f, allowed, position + 1)
        }
    }
}
