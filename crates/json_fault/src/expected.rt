//! What is expected where a text stops being JSON.
ghost use Rattle.std.specs.Prelude.{◌≡◌};
ghost use Rattle.json_fault.specs.Messages.{expected_text};

use std::fmt;

/// What a text has to go on with to be JSON, or what it must not have.
#[derive(Clone, Copy, Debug, PartialEq, Eq, Drop)]
pub enum Expected {
    /// A value.
    Value,
    /// A value, or the end of the list.
    ValueOrEnd,
    /// A comma, or the end of the list.
    CommaOrListEnd,
    /// A key.
    Key,
    /// A key, or the end of the object.
    KeyOrEnd,
    /// A colon.
    Colon,
    /// A comma, or the end of the object.
    CommaOrObjectEnd,
    /// Nothing more.
    TextEnd,
    /// The quote that ends a string.
    Quote,
    /// What follows a backslash.
    Escape,
    /// A hexadecimal digit of an escape.
    HexDigit,
    /// The second half of a surrogate pair.
    LowSurrogate,
    /// A digit of a number.
    Digit,
    /// The rest of `true`.
    True,
    /// The rest of `false`.
    False,
    /// The rest of `null`.
    Null,
    /// A control character in a string is written as an escape.
    NoControlCharacter,
    /// The second half of a surrogate pair has its first half before it.
    NoLowSurrogate,
    /// A number other than 0 does not begin with 0.
    NoLeadingZero,
    /// There is no byte order mark at the start.
    NoByteOrderMark,
    /// Lists and objects are nested at most 127 deep.
    NoDeeperNesting,
}

impl Expected {
    /// Returns what is said where this was expected.
    fn as_str(self) -> &'static str
        ensures { result.now ≡ expected_text self }
    {
        match self {
            Expected::Value => "expected a value",
            Expected::ValueOrEnd => "expected a value or \"]\"",
            Expected::CommaOrListEnd => "expected a comma or \"]\"",
            Expected::Key => "expected a key",
            Expected::KeyOrEnd => "expected a key or \"}\"",
            Expected::Colon => "expected a colon",
            Expected::CommaOrObjectEnd => "expected a comma or \"}\"",
            Expected::TextEnd => "expected the end of the text",
            Expected::Quote => "expected a closing quote",
            Expected::Escape => "expected one of the characters \"\\/bfnrtu after a backslash",
            Expected::HexDigit => "expected a hexadecimal digit",
            Expected::LowSurrogate => "expected the second half of a surrogate pair",
            Expected::Digit => "expected a digit",
            Expected::True => "expected the rest of \"true\"",
            Expected::False => "expected the rest of \"false\"",
            Expected::Null => "expected the rest of \"null\"",
            Expected::NoControlCharacter => "a control character in a string is not escaped",
            Expected::NoLowSurrogate => "the second half of a surrogate pair has no first half",
            Expected::NoLeadingZero => "a number begins with a 0 too many",
            Expected::NoByteOrderMark => "a byte order mark is not allowed",
            Expected::NoDeeperNesting => "lists and objects are nested more than 127 deep",
        }
    }
}

impl fmt::Display for Expected {
    ghost use Rattle.std.specs.Prelude.{Some};
    ghost use Rattle.json_fault.specs.Messages.{expected_text};

    ghost output = { λ expected. Some (expected_text expected) };

    fn fmt<W: fmt::Write>(&self, f: &mut fmt::Formatter<W>) -> fmt::Result {
        f.write_str(self.as_str())
    }
}
