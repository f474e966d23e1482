//! Tokens.
ghost use Rattle.std.specs.Prelude.{◌≡◌, ◌∷◌, IfSome};
ghost use Rattle.json.specs.Token.{begin_array, begin_object, end_array, end_object, key};
ghost use Rattle.json.specs.Value.{value_view};
ghost use Rattle.naga_json_tokens.specs.Takes.{json_before};

use crate::reader::Reader;
use json::{Token, Value};

/// Takes the beginning of an object.
pub fn take_begin(reader: &mut Reader<'_>) -> Option<()>
    ensures { IfSome result (λ _. reader.old ≡ begin_object ∷ reader.new) }
{
    match reader.next()? {
        Token::BeginObject => Some(()),
        _ => None,
    }
}

/// Takes the end of an object.
pub fn take_end(reader: &mut Reader<'_>) -> Option<()>
    ensures { IfSome result (λ _. reader.old ≡ end_object ∷ reader.new) }
{
    match reader.next()? {
        Token::EndObject => Some(()),
        _ => None,
    }
}

/// Takes the name of a member.
pub fn take_name<'a>(reader: &mut Reader<'a>) -> Option<&'a str>
    ensures { IfSome result (λ name. reader.old ≡ key name.now ∷ reader.new) }
{
    match reader.next()? {
        Token::Key(name) => Some(name),
        _ => None,
    }
}

/// Takes the name of a member, if it is this name.
// Inlined, so that the name is a constant where names are compared.
#[inline(always)]
pub fn take_key(reader: &mut Reader<'_>, name: &str) -> Option<()>
    ensures { IfSome result (λ _. reader.old ≡ key name.now ∷ reader.new) }
{
    if take_name(reader)? == name {
        Some(())
    } else {
        None
    }
}

/// Takes a value that is neither a list nor an object.
#[inline(always)]
pub(crate) fn take_scalar<'a>(reader: &mut Reader<'a>) -> Option<Value<'a>>
    ensures { IfSome result (λ value. reader.old ≡ json_before (value_view value) reader.new) }
{
    match reader.next()? {
        Token::Number(text) => Some(Value::Number(text)),
        Token::String(text) => Some(Value::String(text)),
        Token::Bool(value) => Some(Value::Bool(value)),
        Token::Null => Some(Value::Null),
        _ => None,
    }
}

/// Takes the beginning of a list.
pub fn take_begin_list(reader: &mut Reader<'_>) -> Option<()>
    ensures { IfSome result (λ _. reader.old ≡ begin_array ∷ reader.new) }
{
    match reader.next()? {
        Token::BeginArray => Some(()),
        _ => None,
    }
}

/// Takes the end of a list.
pub(crate) fn take_end_list(reader: &mut Reader<'_>) -> Option<()>
    ensures { IfSome result (λ _. reader.old ≡ end_array ∷ reader.new) }
{
    match reader.next()? {
        Token::EndArray => Some(()),
        _ => None,
    }
}
