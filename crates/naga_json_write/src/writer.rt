//! A writer of tokens that counts how deep arrays and objects are nested.
ghost use Rattle.std.specs.Prelude.{◌≡◌, ◌++◌, ◌∷◌, [], ℕ, List, OnOk, OnErr, Some, is_some};
ghost use Rattle.std.specs.Float.{float_is_finite};
ghost use Rattle.std.specs.Fmt.{decimal, signed_decimal};
ghost use Rattle.std.specs.Bool.{IsTrue};
ghost use Rattle.fast_float.specs.Parse.{parse_float};
ghost use Rattle.ryu.specs.Plain.{IsPlainNumber};
ghost use Rattle.json.specs.Token.{begin_array, begin_object, boolean, end_array, end_object, key, null, number, string};
ghost use Rattle.json.specs.Print.{print};
ghost use Rattle.json.specs.Lex.{tokens};
ghost use Rattle.std.specs.Str.{IsUtf8};
ghost use Rattle.naga_json_write.specs.Nesting.{one_less as with_one_less, one_more as with_one_more, levels_after};

use naga_json::MAX_NESTING;
use ryu::Float;
use std::alloc::{AllocError, Global};
use std::marker::Model;

/// A writer of JSON, token by token, that counts how deep arrays and objects are nested.
///
/// It is the writer of the crate `json` with a count, so that a text that is nested too deep is found without reading it
/// again.
#[derive(Drop)]
pub struct Writer {
    tokens: json::Writer,
    // How many arrays and objects have begun and not ended, or `None` once there were more than 127.
    levels: Option<usize>,
}

impl Model for Writer {
    ghost use Rattle.json.specs.Written.{Written};
    ghost use Rattle.std.specs.Prelude.{◌≡◌};
    ghost use Rattle.naga_json_write.specs.Nesting.{levels_after};

    ghost Value = { Written };

    ghost view = { λ writer. writer.tokens };

    ghost invariant = { λ writer. levels_after writer.tokens.tokens ≡ writer.levels };
}

/// Returns how many arrays and objects have begun and not ended when one more has begun.
fn one_more(levels: Option<usize>) -> Option<usize>
    ensures { result ≡ with_one_more levels }
{
    match levels {
        Some(count) => if count < MAX_NESTING {
            Some(count + 1)
        } else {
            None
        },
        None => None,
    }
}

/// Returns how many arrays and objects have begun and not ended when one of them has ended.
fn one_less(levels: Option<usize>) -> Option<usize>
    ensures { result ≡ with_one_less levels }
{
    match levels {
        Some(count) => Some(count.saturating_sub(1)),
        None => None,
    }
}

#[tactic(auto, using(crate::proofs::NestingLemmas::levels_push))]
impl Writer {
    ghost use Rattle.json.specs.Written.{Writes};

    /// Returns a writer that writes after these bytes.
    pub fn new(out: Vec<u8>) -> Writer
        ensures before { result.before ≡ out.items }
        ensures tokens { result.tokens ≡ [] }
    {
        Writer {
            tokens: json::Writer::new(out),
            levels: Some(0),
        }
    }

    /// Returns the bytes before the tokens, and the text of the tokens.
    pub fn into_inner(self) -> Vec<u8>
        ensures items { result.items ≡ self.before ++ print self.tokens }
        ensures reads_back { tokens (print self.tokens) ≡ self.tokens }
        ensures utf8 { IsUtf8 (print self.tokens) }
    {
        self.tokens.into_inner()
    }

    /// Returns whether arrays and objects were never nested more than 127 deep.
    pub fn is_shallow(&self) -> bool
        ensures { result ≡ is_some (levels_after self.now.tokens) }
    {
        self.levels.is_some()
    }

    /// Appends the beginning of an object.
    #[inline]
    pub fn begin_object(&mut self) -> Result<(), AllocError>
        ensures { Writes result self.old self.new begin_object }
    {
        self.tokens.begin_object()?;
        self.levels = one_more(self.levels);
        Ok(())
    }

    /// Appends the end of an object.
    #[inline]
    pub fn end_object(&mut self) -> Result<(), AllocError>
        ensures { Writes result self.old self.new end_object }
    {
        self.tokens.end_object()?;
        self.levels = one_less(self.levels);
        Ok(())
    }

    /// Appends the beginning of an array.
    #[inline]
    pub fn begin_array(&mut self) -> Result<(), AllocError>
        ensures { Writes result self.old self.new begin_array }
    {
        self.tokens.begin_array()?;
        self.levels = one_more(self.levels);
        Ok(())
    }

    /// Appends the end of an array.
    #[inline]
    pub fn end_array(&mut self) -> Result<(), AllocError>
        ensures { Writes result self.old self.new end_array }
    {
        self.tokens.end_array()?;
        self.levels = one_less(self.levels);
        Ok(())
    }

    /// Appends the name of a member.
    #[inline]
    pub fn key(&mut self, name: &str) -> Result<(), AllocError>
        ensures { Writes result self.old self.new (key name.now) }
    {
        self.tokens.key(name)
    }

    /// Appends a string.
    #[inline]
    pub fn string(&mut self, text: &str) -> Result<(), AllocError>
        ensures { Writes result self.old self.new (string text.now) }
    {
        self.tokens.string(text)
    }

    /// Appends a number.
    #[inline]
    pub fn u64(&mut self, n: u64) -> Result<(), AllocError>
        ensures { Writes result self.old self.new (number (decimal n)) }
    {
        self.tokens.u64(n)
    }

    /// Appends an integer.
    #[inline]
    pub fn i64(&mut self, n: i64) -> Result<(), AllocError>
        ensures { Writes result self.old self.new (number (signed_decimal n)) }
    {
        self.tokens.i64(n)
    }

    /// Appends a float that is finite.
    #[inline]
    pub(crate) fn float<F: Float>(&mut self, x: F) -> Result<(), AllocError>
        requires { IsTrue (float_is_finite (F.value x)) }
        ensures before { self.new.before ≡ self.old.before }
        ensures plain { OnOk result ((s : List ℕ)
            × (self.new.tokens ≡ self.old.tokens ++ number s ∷ []) × IsPlainNumber s
            × (parse_float F.format s ≡ Some (F.value x))) }
        ensures err { OnErr result (self.new.tokens ≡ self.old.tokens) }
    {
        self.tokens.float(x)
    }

    /// Appends a boolean.
    #[inline]
    pub fn boolean(&mut self, b: bool) -> Result<(), AllocError>
        ensures { Writes result self.old self.new (boolean b) }
    {
        self.tokens.boolean(b)
    }

    /// Appends null.
    #[inline]
    pub fn null(&mut self) -> Result<(), AllocError>
        ensures { Writes result self.old self.new null }
    {
        self.tokens.null()
    }
}
