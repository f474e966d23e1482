//! A reader of tokens that counts how deep lists and objects are nested.
ghost use Rattle.std.specs.Prelude.{◌≡◌, ◌∷◌, [], Some, None, IfOk, IfSome, MatchOption};
ghost use Rattle.std.specs.Bool.{MatchBool};
ghost use Rattle.json.specs.Json.{after_end_array};
ghost use Rattle.json.specs.Lex.{tokens};
ghost use Rattle.json.specs.Reads.{token_of};
ghost use Rattle.json.specs.Value.{value_view};
ghost use Rattle.naga_json_tokens.specs.Levels.{shallow};
ghost use Rattle.naga_json_tokens.specs.Takes.{json_before};

use json::{Scratch, Token, Value};
use naga_json::MAX_NESTING;
use std::alloc::{AllocError, Global};
use std::marker::Model;

/// A reader of the tokens of a text. A list or an object that is nested too deep has a bad token.
#[derive(Drop)]
pub struct Reader<'a> {
    inner: json::Reader<'a>,
    // How many lists and objects have begun and not ended.
    levels: usize,
}

impl<'a> Model for Reader<'a> {
    ghost use Rattle.std.specs.Prelude.{List};
    ghost use Rattle.json.specs.Token.{Token as AnyToken};
    ghost use Rattle.naga_json_tokens.specs.Levels.{shallow};

    ghost Value = { List AnyToken };

    ghost view = { λ reader. shallow reader.levels reader.inner };
}

impl<'a> Reader<'a> {
    /// Returns a reader of the tokens of a text.
    pub fn new(text: &'a str, scratch: &'a mut Scratch<Global>) -> Result<Reader<'a>, AllocError>
        ensures { IfOk result (λ reader. reader ≡ shallow 0 (tokens text.now)) }
    {
        let inner = json::Reader::new(text, scratch)?;
        Ok(Reader { inner, levels: 0 })
    }

    /// Returns the next token, or `None` after the last one.
    #[inline(always)]
    pub fn next(&mut self) -> Option<Token<'a>>
        ensures { MatchOption result ((self.old ≡ []) × (self.new ≡ []))
            (λ token. self.old ≡ token_of token ∷ self.new) }
    {
        let token = self.inner.next()?;
        match token {
            Token::BeginArray | Token::BeginObject => {
                if self.levels >= MAX_NESTING {
                    return Some(Token::Bad);
                }
                self.levels += 1;
            }
            Token::EndArray | Token::EndObject => self.levels = self.levels.saturating_sub(1),
            _ => {}
        }
        Some(token)
    }

    /// Takes the bracket that ends a list, if it is next.
    #[inline(always)]
    pub fn take_end_array(&mut self) -> bool
        ensures { MatchBool result (after_end_array self.old ≡ Some self.new)
            ((after_end_array self.old ≡ None) × (self.new ≡ self.old)) }
    {
        if !self.inner.take_end_array() {
            return false;
        }
        self.levels = self.levels.saturating_sub(1);
        true
    }

    /// Takes a value as a tree.
    pub fn take_tree(&mut self, alloc: Global) -> Option<Value<'a>>
        ensures { IfSome result (λ value. self.old ≡ json_before (value_view value) self.new) }
    {
        let room = MAX_NESTING.saturating_sub(self.levels);
        let Ok(value) = Value::read(alloc, &mut self.inner, room) else {
            return None;
        };
        Some(value)
    }
}
