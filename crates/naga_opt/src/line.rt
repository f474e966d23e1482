//! Lines on standard error.
ghost use Rattle.std.specs.Prelude.{◌<◌, IsTrue};
ghost use Rattle.std.specs.Io.KnownBytes.{Appends};
ghost use Rattle.naga_streams.specs.Counted.{failed_calls, max_count, stream_of};
ghost use Rattle.naga_text.specs.Escapes.{escaped, in_quotes};
ghost use Rattle.naga_opt.specs.Messages.{CountsUnsaid, PrintsParts, part_text, parts_line};

use naga_streams::Counted;
use naga_text::escaped_character;
use std::io::Write;

/// A part of a line.
#[derive(Clone, Copy, Debug)]
pub enum Part<'a> {
    /// A text, which is written as it is.
    Plain(&'a str),
    /// An argument or the name of a file, which is escaped and written in quotes.
    Quoted(&'a str),
}

/// Writes a line: the name of the program, and then these parts one after another.
///
/// Returns whether the whole line was written. It is not only if a call of `errors` fails, which is the last one then.
pub fn print_line<W: Write>(parts: &[Part<'_>], errors: &mut Counted<W>) -> bool
    requires { failed_calls errors.old < max_count }
    ensures said { IsTrue result → PrintsParts parts.now (W.contents (stream_of errors.old))
        (W.contents (stream_of errors.new)) }
    ensures failed { CountsUnsaid result (failed_calls errors.old) (failed_calls errors.new) }
{
    print_text("naga_opt: ", errors) && print_parts(parts, errors)
}

/// Writes these parts one after another, and a newline. Returns whether all was written.
fn print_parts<W: Write>(parts: &[Part<'_>], errors: &mut Counted<W>) -> bool
    requires { failed_calls errors.old < max_count }
    ensures said { IsTrue result → Appends (W.contents (stream_of errors.old)) (W.contents (stream_of errors.new))
        (parts_line parts.now) }
    ensures failed { CountsUnsaid result (failed_calls errors.old) (failed_calls errors.new) }
{
    match parts.split_first() {
        Some((first, rest)) => print_part(first, errors) && print_parts(rest, errors),
        None => print_text("\n", errors),
    }
}

/// Writes a part. Returns whether it was written.
pub fn print_part<W: Write>(part: &Part<'_>, errors: &mut Counted<W>) -> bool
    requires { failed_calls errors.old < max_count }
    ensures said { IsTrue result → Appends (W.contents (stream_of errors.old)) (W.contents (stream_of errors.new))
        (part_text part.now) }
    ensures failed { CountsUnsaid result (failed_calls errors.old) (failed_calls errors.new) }
{
    match part {
        Part::Plain(text) => print_text(text, errors),
        Part::Quoted(name) => print_quoted(name, errors),
    }
}

/// Writes a name in quotes, in which it is escaped. Returns whether it was written.
fn print_quoted<W: Write>(name: &str, errors: &mut Counted<W>) -> bool
    requires { failed_calls errors.old < max_count }
    ensures said { IsTrue result → Appends (W.contents (stream_of errors.old)) (W.contents (stream_of errors.new))
        (in_quotes name.now) }
    ensures failed { CountsUnsaid result (failed_calls errors.old) (failed_calls errors.new) }
{
    print_text("\"", errors) && print_escaped(name, errors) && print_text("\"", errors)
}

/// Writes the characters of a name, escaped. Returns whether all were written.
fn print_escaped<W: Write>(name: &str, errors: &mut Counted<W>) -> bool
    requires { failed_calls errors.old < max_count }
    ensures said { IsTrue result → Appends (W.contents (stream_of errors.old)) (W.contents (stream_of errors.new))
        (escaped name.now) }
    ensures failed { CountsUnsaid result (failed_calls errors.old) (failed_calls errors.new) }
{
    'characters: for c in name.chars() {
        if !print_text(escaped_character(c).as_str(), errors) {
            return false;
        }
    }
    true
}

/// Writes a text. Returns whether it was written.
pub fn print_text<W: Write>(text: &str, errors: &mut Counted<W>) -> bool
    requires { failed_calls errors.old < max_count }
    ensures said { IsTrue result
        → Appends (W.contents (stream_of errors.old)) (W.contents (stream_of errors.new)) text.now }
    ensures failed { CountsUnsaid result (failed_calls errors.old) (failed_calls errors.new) }
{
    errors.write_all(text.as_bytes()).is_ok()
}
