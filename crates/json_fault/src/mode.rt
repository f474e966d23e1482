//! The states of the automaton that reads a text.

/// A list or an object around a byte.
#[derive(Clone, Copy, Debug, PartialEq, Eq, Drop)]
pub(crate) enum Frame {
    /// A list.
    List,
    /// An object.
    Object,
}

/// A literal that is no number.
#[derive(Clone, Copy, Debug, PartialEq, Eq, Drop)]
pub(crate) enum Word {
    /// `true`.
    True,
    /// `false`.
    False,
    /// `null`.
    Null,
}

/// What a number has had so far.
#[derive(Clone, Copy, Debug, PartialEq, Eq, Drop)]
pub(crate) enum Number {
    /// Its sign.
    Minus,
    /// A whole part of 0.
    Zero,
    /// Digits of its whole part.
    Whole,
    /// Its dot.
    Dot,
    /// Digits after the dot.
    Fraction,
    /// The letter of its exponent.
    Letter,
    /// The sign of its exponent.
    Sign,
    /// Digits of its exponent.
    Exponent,
}

/// What a string has had so far, from its last whole character on.
#[derive(Clone, Copy, Debug, PartialEq, Eq, Drop)]
pub(crate) enum Within {
    /// Nothing.
    Plain,
    /// A backslash.
    Backslash,
    /// `\u`.
    Unit,
    /// `\ud`, with which surrogates begin.
    UnitD,
    /// `\u` and a digit other than `d`.
    Unit1,
    /// `\u` and two digits that do not begin a surrogate.
    Unit2,
    /// `\u` and three digits that do not begin a surrogate.
    Unit3,
    /// `\u` and two digits that begin the first half of a pair.
    High2,
    /// `\u` and three digits that begin the first half of a pair.
    High3,
    /// The first half of a pair.
    High,
    /// The first half of a pair, and a backslash.
    HighBackslash,
    /// The first half of a pair, and `\u`.
    Low,
    /// The first half of a pair, and `\ud`.
    LowD,
}

/// What a text has had so far, in the innermost list or object.
#[derive(Clone, Copy, Debug, PartialEq, Eq, Drop)]
pub(crate) enum Mode {
    /// All before a value.
    Value,
    /// The bracket of a list.
    FirstItem,
    /// The brace of an object.
    FirstKey,
    /// A comma in an object.
    Key,
    /// A key.
    Colon,
    /// A value.
    After,
    /// A part of a key.
    InKey(Within),
    /// A part of a string.
    InString(Within),
    /// A part of a number.
    InNumber(Number),
    /// As many letters of a literal.
    InWord(Word, usize),
}

/// What a byte does.
#[derive(Clone, Copy, Debug, PartialEq, Eq, Drop)]
pub(crate) enum Step {
    /// It leads to this mode.
    To(Mode),
    /// It opens a list or an object.
    Open(Frame),
    /// It closes the innermost list or object.
    Close,
}
