//! The characters that show nothing by themselves.
ghost use Rattle.std.specs.Prelude.{◌≡◌};
ghost use Rattle.naga_text.specs.Escapes.{is_ignorable, is_in};

/// The first and the last character of each range of Unicode's `Default_Ignorable_Code_Point`.
///
/// Unicode reserves the ranges for such characters, those that are not assigned yet too.
const IGNORABLE: &[(char, char)] = &[
    ('\u{ad}', '\u{ad}'),
    ('\u{34f}', '\u{34f}'),
    ('\u{61c}', '\u{61c}'),
    ('\u{115f}', '\u{1160}'),
    ('\u{17b4}', '\u{17b5}'),
    ('\u{180b}', '\u{180f}'),
    ('\u{200b}', '\u{200f}'),
    ('\u{202a}', '\u{202e}'),
    ('\u{2060}', '\u{206f}'),
    ('\u{3164}', '\u{3164}'),
    ('\u{fe00}', '\u{fe0f}'),
    ('\u{feff}', '\u{feff}'),
    ('\u{ffa0}', '\u{ffa0}'),
    ('\u{fff0}', '\u{fff8}'),
    ('\u{1bca0}', '\u{1bca3}'),
    ('\u{1d173}', '\u{1d17a}'),
    ('\u{e0000}', '\u{e0fff}'),
];

/// Returns whether a character shows nothing by itself.
pub(crate) fn is_ignorable(c: char) -> bool
    ensures { result ≡ is_ignorable c }
{
    is_in(IGNORABLE, c)
}

/// Returns whether a character is in one of the ranges of a table.
fn is_in(table: &[(char, char)], c: char) -> bool
    ensures { result ≡ is_in table.now c }
{
    'rows: for range in table {
        if (range.0..=range.1).contains(&c) {
            return true;
        }
    }
    false
}
