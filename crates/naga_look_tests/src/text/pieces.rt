//! The pieces of texts: names, numbers, and the texts of single expressions and statements.
use super::is;
use naga_ir::{Barrier, Expression, Flags, Literal, Statement};
use naga_text::{Text, push_declared, push_expression, push_kind, push_statement};
use std::alloc::{AllocError, Global};

/// A text, and what is written of it.
pub(super) type Row = (&'static str, &'static str);

/// Names in which a newline is escaped.
pub(super) const NAMES: &[Row] = &[
    ("\0\t\r\n", r"\0\t\r\n"),
    (
        "A\u{1b}[31mred\"\nfunction 9 \"fake\" {",
        r#"A\u{1b}[31mred\"\nfunction 9 \"fake\" {"#,
    ),
];

/// Messages, and what is written of them.
pub(super) const MESSAGES: &[Row] = &[
    (
        "body[0]: \"größe\" it's a\\b",
        "body[0]: \"größe\" it's a\\b",
    ),
    (
        "\u{1b}[31m\"\0\t\r\n\u{85}\u{2028}\u{202e}",
        r#"\u{1b}[31m"\0\t\r\n\u{85}\u{2028}\u{202e}"#,
    ),
];

/// Returns a name as it is written.
pub(super) fn escaped(alloc: Global, name: &str) -> Result<String, AllocError> {
    let mut text = Text::new(alloc);
    text.push_escaped(name)?;
    Ok(text.finish())
}

/// Returns a message as it is written.
pub(super) fn visible(alloc: Global, message: &str) -> Result<String, AllocError> {
    let mut text = Text::new(alloc);
    text.push_visible(message)?;
    Ok(text.finish())
}

#[test]
fn names_are_escaped(rt: HostRuntime) {
    for (name, written) in NAMES {
        assert!(rt;
            is(escaped(rt.alloc(), name), written) == Some(true),
            "{written}"
        );
    }
}

#[test]
fn messages_are_visible(rt: HostRuntime) {
    for (message, written) in MESSAGES {
        assert!(rt;
            is(visible(rt.alloc(), message), written) == Some(true),
            "{written}"
        );
    }
}

/// Appends the texts of an expression, and of another one without what it refers to.
fn push_expressions(text: &mut Text) -> Result<(), AllocError> {
    push_expression(text, &Expression::Literal(Literal::U32(2)))?;
    text.push(", ")?;
    push_kind(text, &Expression::FunctionArgument(3))
}

/// Appends the texts of statements.
fn push_statements(text: &mut Text) -> Result<(), AllocError> {
    let barrier = Barrier::STORAGE.union(Barrier::TEXTURE);
    push_statement(text, &Statement::Kill)?;
    text.push(", ")?;
    push_statement(text, &Statement::MemoryBarrier(barrier))
}

/// Appends numbers.
fn push_numbers(text: &mut Text) -> Result<(), AllocError> {
    text.push_number(7)?;
    text.push_index(2)?;
    text.push(" ")?;
    text.push_integer(-7)?;
    text.push(" ")?;
    text.push_hexadecimal(255)
}

/// Appends words.
fn push_words(text: &mut Text) -> Result<(), AllocError> {
    text.push_word("then")?;
    text.push_flag(true, "set")?;
    text.push_flag(false, "unset")?;
    text.push_quoted("a\"b")?;
    text.push_name(&None)
}

/// Returns the texts of expressions and statements.
fn parts(alloc: Global) -> Result<String, AllocError> {
    let mut text = Text::new(alloc);
    push_expressions(&mut text)?;
    text.push(", ")?;
    push_statements(&mut text)?;
    Ok(text.finish())
}

/// Returns the texts of numbers and words.
fn words(alloc: Global) -> Result<String, AllocError> {
    let mut text = Text::new(alloc);
    push_numbers(&mut text)?;
    push_words(&mut text)?;
    Ok(text.finish())
}

/// Appends what is declared with a name to an empty text, and a mark if it is still empty.
fn push_once(text: &mut Text, name: &Option<String>) -> Result<(), AllocError> {
    if text.is_empty() {
        push_declared(text, "function", 7, name)?;
    }
    if text.is_empty() {
        text.push("!")?;
    }
    Ok(())
}

/// Returns the text of what is declared with a name.
fn declared_as(alloc: Global, name: &Option<String>) -> Result<String, AllocError> {
    let mut text = Text::new(alloc);
    push_once(&mut text, name)?;
    Ok(text.finish())
}

/// Returns the text of what is declared with a name that has a newline.
fn declared(alloc: Global) -> Result<String, AllocError> {
    let name = Some("c\n".to_string(alloc)?);
    declared_as(alloc, &name)
}

#[test]
fn pieces_are_written(rt: HostRuntime) {
    assert!(rt;
        is(
            parts(rt.alloc()),
            "Literal U32 2, FunctionArgument 3, kill, memory_barrier storage texture"
        ) == Some(true)
    );
    assert!(rt; is(words(rt.alloc()), "7 2 -7 ff then set \"a\\\"b\"") == Some(true));
    assert!(rt; is(declared(rt.alloc()), "function 7 \"c\\n\"") == Some(true));
}
