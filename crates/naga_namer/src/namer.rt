//! Names for labels.
ghost use Rattle.std.specs.Prelude.{◌≡◌, ◌+◌, ◌<◌, ◌^◌, ◌++◌, ◌∷◌, [], ℕ, List, if◌then◌else◌, IfOk, OnErr, OnOk, string_bytes};
ghost use Rattle.std.specs.Fmt.{decimal};
ghost use Rattle.std.specs.Str.{bytes_eq};
ghost use Rattle.indexmap.specs.IndexMap.{keys};
ghost use Rattle.naga_namer.specs.Bases.{base_of, underscore};
ghost use Rattle.naga_namer.specs.Declarations.{keys_of_module};
ghost use Rattle.naga_namer.specs.Languages.{reserved_in};
ghost use Rattle.naga_namer.specs.ModuleNames.{NamesModule};
ghost use Rattle.naga_namer.specs.Names.{IsFirstFree, GetsName, Naming, is_marked, is_reserved, label_or, name_of, unused};
ghost use Rattle.naga_namer.specs.Namers.{naming};
ghost use Rattle.naga_namer.specs.Reserved.{reserved_by};

use crate::base::{base_of, last_or};
use crate::language::Language;
use crate::name_key::NameKey;
use crate::reserved::ReservedNames;
use crate::reset::name_module;
use indexmap::IndexMap;
use naga_ir::Module;
use std::alloc::{AllocError, Global};
use std::collections::HashMap;

/// The bytes that `_` and most numbers take.
const NUMBER_ROOM: usize = 8;

/// Gives names to labels: identifiers of a language, each different from all others.
///
/// A label that is such an identifier is its own name, if no earlier one had it.
#[derive(Drop)]
pub struct Namer<'a> {
    alloc: Global,
    language: Language<'a>,
    /// The number from which the next name of a base is numbered. A base without a name is not there.
    counts: HashMap<String, u64>,
}

impl<'a> Namer<'a> {
    /// Creates a namer that has given no names. Nothing is allocated.
    pub fn new(alloc: Global, reserved: ReservedNames<'a>) -> Self
        ensures { naming result ≡ record { reserved = reserved_by reserved.entry; counts = unused } }
    {
        Namer::of(alloc, Language::new(reserved))
    }

    /// Returns a namer for the same language that has given no names, for a scope of its own such as the members of a
    /// structure. Nothing is allocated.
    ///
    /// Differs from naga: naga calls a closure with this namer, whose names it sets aside and then puts back.
    pub fn namespace(&self) -> Namer<'a>
        ensures { naming result ≡ record { reserved = (naming self.now).reserved; counts = unused } }
    {
        Namer::of(self.alloc, self.language)
    }

    /// Creates a namer for a language that has given no names.
    fn of(alloc: Global, language: Language<'a>) -> Self
        ensures { naming result ≡ record { reserved = reserved_in language.entry; counts = unused } }
    {
        Namer {
            alloc,
            language,
            counts: HashMap::new(alloc),
        }
    }

    /// Returns the base of the names of a label.
    ///
    /// Returns `Err` if allocation fails.
    pub fn sanitize(&self, label: &str) -> Result<String, AllocError>
        ensures { IfOk result (λ base. string_bytes base ≡ base_of (naming self.now).reserved.prefixes label.now) }
    {
        base_of(self.alloc, self.language.prefixes, label)
    }

    /// Returns a name for a label.
    ///
    /// Returns `Err` if allocation fails, or if all numbers of the base are used. The namer is then unchanged.
    #[tactic(auto, using(crate::proofs::GetsNameLemmas::gets_name))]
    pub fn call(&mut self, label: &str) -> Result<String, AllocError>
        ensures named { IfOk result (λ name.
            GetsName (naming self.old).reserved (naming self.old).counts label.now (string_bytes name) (naming self.new).counts) }
        ensures reserved { (naming self.new).reserved ≡ (naming self.old).reserved }
        ensures unchanged { OnErr result (naming self.new ≡ naming self.old) }
    {
        let base = self.sanitize(label)?;
        let start = self.start_of(base.as_str());
        let FreeName { name, number } = first_free(
            self.alloc,
            &self.language,
            base.as_str(),
            start,
        )?;
        self.count(base, number + 1)?;
        Ok(name)
    }

    /// Names all that a module declares, in a language, and forgets the names before.
    ///
    /// The members of each structure are in a scope of their own, so two structures may have members of the same name.
    /// All else is in one scope, which the namer keeps: the names that [`call`](Self::call) gives afterwards differ
    /// from these.
    ///
    /// What has no name in the module gets a label that says what it is, such as `param` for an argument.
    ///
    /// Returns `Err` as `call` does. The namer is then unchanged.
    ///
    /// Differs from naga: the names are returned, and not added to a map.
    pub fn reset(
        &mut self,
        module: &Module,
        reserved: ReservedNames<'a>,
    ) -> Result<IndexMap<NameKey, String>, AllocError>
        ensures named { IfOk result (λ names. NamesModule (reserved_by reserved.entry) «module».now names.entries
            (naming self.new).counts) }
        ensures keys { IfOk result (λ names. keys names ≡ keys_of_module «module».now) }
        ensures reserved { OnOk result ((naming self.new).reserved ≡ reserved_by reserved.entry) }
        ensures unchanged { OnErr result (naming self.new ≡ naming self.old) }
    {
        let mut scope = Namer::new(self.alloc, reserved);
        let names = name_module(self.alloc, &mut scope, module)?;
        *self = scope;
        Ok(names)
    }

    /// Returns the number from which the next name of a base is numbered.
    fn start_of(&self, base: &str) -> u64
        ensures { result ≡ (naming self.now).counts base.now }
    {
        self.counts.get(base).copied().unwrap_or(0)
    }

    /// Numbers the next name of a base from `start` on.
    ///
    /// Returns `Err` if allocation fails. The namer is then unchanged.
    fn count(&mut self, base: String, start: u64) -> Result<(), AllocError>
        ensures counted { OnOk result ((other : List ℕ) → (naming self.new).counts other
            ≡ (if bytes_eq (string_bytes base) other then start else (naming self.old).counts other)) }
        ensures reserved { (naming self.new).reserved ≡ (naming self.old).reserved }
        ensures unchanged { OnErr result (naming self.new ≡ naming self.old) }
    {
        self.counts.insert(base, start)?;
        Ok(())
    }

    /// Returns a name for a label, or for `fallback` if there is no label.
    ///
    /// Returns `Err` as [`call`](Self::call) does.
    pub fn call_or(&mut self, label: &Option<String>, fallback: &str) -> Result<String, AllocError>
        ensures named { IfOk result (λ name. GetsName (naming self.old).reserved (naming self.old).counts
            (label_or fallback.now label.now) (string_bytes name) (naming self.new).counts) }
        ensures reserved { (naming self.new).reserved ≡ (naming self.old).reserved }
        ensures unchanged { OnErr result (naming self.new ≡ naming self.old) }
    {
        match label {
            Some(given) => self.call(given.as_str()),
            None => self.call(fallback),
        }
    }
}

/// A name that is not reserved, and its number.
#[derive(Drop)]
struct FreeName {
    name: String,
    number: u64,
}

/// Returns the first name of a base, from the number `start` on, that is not reserved.
///
/// Returns `Err` if allocation fails, or if there is no such name.
fn first_free(
    alloc: Global,
    language: &Language,
    base: &str,
    start: u64,
) -> Result<FreeName, AllocError>
    ensures free { IfOk result (λ free. IsFirstFree (reserved_in language.now) base.now start free.number) }
    ensures name { IfOk result
        (λ free. string_bytes free.name ≡ name_of (reserved_in language.now) base.now free.number) }
    ensures small { IfOk result (λ free. free.number + 1 < 2 ^ 64) }
{
    'numbers: for number in start..u64::MAX {
        let Candidate { name, is_reserved } = candidate_of(alloc, language, base, number)?;
        if !is_reserved {
            return Ok(FreeName { name, number });
        }
    }
    Err(AllocError)
}

/// A name, and whether it is reserved.
#[derive(Drop)]
struct Candidate {
    name: String,
    is_reserved: bool,
}

/// Returns the name of a base with a number, and whether it is reserved.
fn candidate_of(
    alloc: Global,
    language: &Language,
    base: &str,
    number: u64,
) -> Result<Candidate, AllocError>
    ensures name { IfOk result
        (λ found. string_bytes found.name ≡ name_of (reserved_in language.now) base.now number) }
    ensures reserved { IfOk result (λ found. found.is_reserved
        ≡ is_reserved (reserved_in language.now) (name_of (reserved_in language.now) base.now number)) }
{
    if number > 0 {
        let name = numbered(alloc, base, number)?;
        return Ok(tested(language, name));
    }
    if is_marked(language, base) {
        let name = marked(alloc, base)?;
        return Ok(tested(language, name));
    }
    // A base that is not marked is not reserved.
    let name = String::from_str(alloc, base)?;
    Ok(Candidate {
        name,
        is_reserved: false,
    })
}

/// Returns a name, and whether it is reserved.
fn tested(language: &Language, name: String) -> Candidate
    ensures name { result.name ≡ name }
    ensures reserved { result.is_reserved ≡ is_reserved (reserved_in language.now) (string_bytes name) }
{
    let is_reserved = language.reserves(name.as_str());
    Candidate { name, is_reserved }
}

/// Returns a base, `_` and a number.
fn numbered(alloc: Global, base: &str, number: u64) -> Result<String, AllocError>
    ensures { IfOk result (λ name. string_bytes name ≡ base.now ++ underscore ∷ decimal number) }
{
    let mut name = String::with_capacity(alloc, base.len().saturating_add(NUMBER_ROOM))?;
    write!(name, "{base}_{number}")?;
    Ok(name)
}

/// Returns a base and `_`.
fn marked(alloc: Global, base: &str) -> Result<String, AllocError>
    ensures { IfOk result (λ name. string_bytes name ≡ base.now ++ underscore ∷ []) }
{
    let mut name = String::with_capacity(alloc, base.len().saturating_add(1))?;
    write!(name, "{base}_")?;
    Ok(name)
}

/// Returns whether a base is no name by itself.
fn is_marked(language: &Language, base: &str) -> bool
    ensures { result ≡ is_marked (reserved_in language.now) base.now }
{
    last_or(b'_', base).is_ascii_digit() || language.reserves(base)
}
