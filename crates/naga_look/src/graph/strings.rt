//! The strings of a graph.
ghost use Rattle.std.specs.Prelude.{◌≡◌, ◌++◌, OnOk, codes, encode_utf8, flat_map};
ghost use Rattle.naga_look.specs.Graph.Strings.{dot_byte, dot_escaped, label_attribute};

use naga_text::Text;
use std::alloc::AllocError;

/// Appends a label that shows a text.
pub(crate) fn push_label(text: &mut Text, shown: &str) -> Result<(), AllocError>
    ensures { OnOk result (text.new ≡ text.old ++ label_attribute shown.now) }
{
    text.push("label=\"")?;
    push_shown(text, shown)?;
    text.push("\"")
}

/// Appends what is between the quotes of a string that shows a text.
fn push_shown(text: &mut Text, shown: &str) -> Result<(), AllocError>
    ensures { OnOk result (text.new ≡ text.old ++ dot_escaped shown.now) }
{
    for character in shown.chars() {
        push_character(text, character)?;
    }
    Ok(())
}

/// Appends a character of a string.
fn push_character(text: &mut Text, character: char) -> Result<(), AllocError>
    ensures { OnOk result (text.new ≡ text.old ++ flat_map dot_byte (encode_utf8 character)) }
{
    if character == '"' {
        text.push("\\\"")
    } else if character == '\\' {
        text.push("\\\\")
    } else if character == '&' {
        // Graphviz takes what begins with an ampersand for a character of HTML.
        text.push("&amp;")
    } else {
        text.push_character(character)
    }
}
