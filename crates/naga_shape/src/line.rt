//! Reads a line, closes its block and writes the closed line.
ghost use Rattle.std.specs.Prelude.{◌≡◌, ◌≢◌, ◌<◌, ◌≤◌, ◌⊎◌, ◌+◌, ◌-◌, ◌↔◌, ◌++◌, ◌∷◌, [], List, ℕ, length, IfOk, IfErr, OnOk, IfSome, IsTrue, string_bytes};
ghost use Rattle.std.specs.Bool.{OnTrue};
ghost use Rattle.std.specs.Io.KnownBytes.{Keeps, Appends};
ghost use Rattle.naga_notation.specs.Limits.{most_bytes};
ghost use Rattle.naga_proc.specs.Reshape.{Reshapes};
ghost use Rattle.naga_shape.specs.Faults.{MayFault, WritesAnswer, IsInput, IsOutput};
ghost use Rattle.naga_shape.specs.Lines.{line_of, IsLine, ReadsPart, TakesPart};
ghost use Rattle.naga_streams.specs.Counted.{stream_of, failed_calls, is_flushed, max_count};
ghost use Rattle.naga_arena.specs.Location.{newline};

use memchr::memchr;
use naga_proc::{LENGTH_LIMIT, Rule, ShapeError, reshape_by};
use naga_streams::Counted;
use std::alloc::{AllocError, Global};
use std::io::{Read, Write};

/// The byte that ends a line.
const NEWLINE: u8 = b'\n';

/// The maximum number of bytes that one read requests.
const CHUNK_LEN: usize = 4_096;

/// The error returned when the answer to a line could not be written.
#[derive(Clone, Copy, Debug, PartialEq, Eq)]
pub enum ShapeFault {
    /// The line has no answer, or an allocation failed.
    Shape(ShapeError),
    /// The line is not UTF-8.
    NotUtf8,
    /// A call of the reader failed.
    Input,
    /// A call of the writer failed. Part of the answer may have been written.
    Output,
}

impl From<ShapeError> for ShapeFault {
    ghost use Rattle.naga_shape.specs.declared.line.ShapeFault.TheVariants.{Shape};

    ghost from_gives = { λ error fault. fault ≡ Shape error };

    fn from(error: ShapeError) -> ShapeFault {
        ShapeFault::Shape(error)
    }
}

impl From<AllocError> for ShapeFault {
    ghost use Rattle.naga_notation.specs.declared.error.ShapeError.TheVariants.{Memory};
    ghost use Rattle.naga_shape.specs.declared.line.ShapeFault.TheVariants.{Shape};

    ghost from_gives = { λ _ fault. fault ≡ Shape Memory };

    fn from(_error: AllocError) -> ShapeFault {
        ShapeFault::Shape(ShapeError::Memory)
    }
}

/// Reads a line, writes its answer under the rule and a newline, and flushes the output.
///
/// The line ends at the first newline or at the end of the input. No byte after the 65,537th is requested, and bytes
/// read after a newline are dropped. The function returns at the first call that fails. On error, nothing was written,
/// except that part of the answer may have been written if the error is [`ShapeFault::Output`].
pub fn shape<R: Read, W: Write>(
    alloc: Global,
    input: &mut Counted<R>,
    output: &mut Counted<W>,
    rule: Rule,
) -> Result<(), ShapeFault>
    requires input_counts { failed_calls input.old < max_count }
    requires output_counts { failed_calls output.old < max_count }

    // If the remaining bytes of the reader are known, the line is the one with which they begin.
    ensures written { OnOk result (WritesAnswer rule (R.remaining (stream_of input.old))
        (W.contents (stream_of output.old)) (W.contents (stream_of output.new))) }
    ensures fault { IfErr result (λ fault.
        IfSome (R.remaining (stream_of input.old)) (λ bytes. MayFault (line_of bytes) fault)) }
    ensures unwritten { IfErr result (λ fault. fault ≢ ShapeFault.Output
        → Keeps (W.contents (stream_of output.old)) (W.contents (stream_of output.new))) }

    ensures input_failed { failed_calls input.old < failed_calls input.new ↔ IsInput result }
    ensures input_once { failed_calls input.new ≤ failed_calls input.old + 1 }
    ensures output_failed { failed_calls output.old < failed_calls output.new ↔ IsOutput result }
    ensures output_once { failed_calls output.new ≤ failed_calls output.old + 1 }

    // The flush comes after the last write.
    ensures flushed { OnOk result (IsTrue (is_flushed output.new)) }
{
    let line = read_line(alloc, input)?;
    let Ok(text) = str::from_utf8(&line) else {
        return Err(ShapeFault::NotUtf8);
    };
    let answer = answer_line(alloc, text, rule)?;
    write_line(output, answer.as_bytes())
}

/// Reads a line, returning the bytes before the first newline, or all bytes if there is no newline.
fn read_line<R: Read>(alloc: Global, input: &mut Counted<R>) -> Result<Vec<u8>, ShapeFault>
    requires { failed_calls input.old < max_count }
    ensures line { IfOk result (λ line. IsLine (R.remaining (stream_of input.old)) line.items) }
    ensures short { IfOk result (λ line. length line.items ≤ most_bytes) }
    ensures fault { IfErr result (λ fault.
        IfSome (R.remaining (stream_of input.old)) (λ bytes. MayFault (line_of bytes) fault)) }
    ensures input_failed { failed_calls input.old < failed_calls input.new ↔ IsInput result }
    ensures input_once { failed_calls input.new ≤ failed_calls input.old + 1 }
    ensures not_output { ¬ IsOutput result }
{
    let mut line = Vec::new(alloc);
    let mut chunk = [0u8; CHUNK_LEN];
    'line: while line.len() <= LENGTH_LIMIT {
        if read_part(input, &mut chunk, &mut line)? {
            return Ok(line);
        }
    }
    Err(ShapeFault::Shape(ShapeError::TooLong))
}

/// Reads more bytes into `chunk`, appends those of the line to `line`, and returns whether the line has ended.
fn read_part<R: Read>(
    input: &mut Counted<R>,
    chunk: &mut [u8; CHUNK_LEN],
    line: &mut Vec<u8>,
) -> Result<bool, ShapeFault>
    requires input_counts { failed_calls input.old < max_count }
    requires short { length line.old.items ≤ most_bytes }
    ensures part { IfOk result (λ ended. (part : List ℕ) × (line.new.items ≡ line.old.items ++ part)
        × ReadsPart ended (R.remaining (stream_of input.old)) (R.remaining (stream_of input.new)) part) }
    ensures short { IfOk result (λ ended. OnTrue ended (length line.new.items ≤ most_bytes)) }
    ensures fault { IfErr result (λ fault. (text : List ℕ) → MayFault text fault) }
    ensures input_failed { (failed_calls input.new ≡ failed_calls input.old × ¬ IsInput result)
        ⊎ (failed_calls input.new ≡ failed_calls input.old + 1 × IsInput result) }
    ensures not_output { ¬ IsOutput result }
{
    let room = CHUNK_LEN.min(LENGTH_LIMIT + 1 - line.len());
    match input.read(&mut chunk[..room]) {
        Ok(0) => Ok(true),
        Ok(count) => take_part(&chunk[..count], line),
        Err(_) => Err(ShapeFault::Input),
    }
}

/// Appends the bytes of the chunk that belong to the line, and returns whether the line ends in the chunk.
fn take_part(chunk: &[u8], line: &mut Vec<u8>) -> Result<bool, ShapeFault>
    ensures part { IfOk result (λ ended. (part : List ℕ)
        × (line.new.items ≡ line.old.items ++ part) × TakesPart ended chunk.now part) }
    ensures fault { IfErr result (λ fault. fault ≡ ShapeFault.Shape ShapeError.Memory) }
{
    match memchr(NEWLINE, chunk) {
        Some(end) => {
            line.extend_from_slice(&chunk[..end])?;
            Ok(true)
        }
        None => {
            line.extend_from_slice(chunk)?;
            Ok(false)
        }
    }
}

/// Returns the answer to a text under the rule, followed by a newline.
fn answer_line(alloc: Global, text: &str, rule: Rule) -> Result<String, ShapeFault>
    ensures answer { IfOk result (λ line. (answer : List ℕ)
        × Reshapes rule text.now answer × (string_bytes line ≡ answer ++ newline ∷ [])) }
    ensures fault { IfErr result (λ fault. MayFault text.now fault) }
    // If the text has an answer, writing this answer may still fail.
    ensures unwritten { OnOk result (MayFault text.now ShapeFault.Output) }
    ensures not_input { ¬ IsInput result }
    ensures not_output { ¬ IsOutput result }
{
    let mut line = reshape_by(alloc, text, rule)?;
    line.push_str("\n")?;
    Ok(line)
}

/// Writes the whole line and flushes the output.
fn write_line<W: Write>(output: &mut Counted<W>, line: &[u8]) -> Result<(), ShapeFault>
    requires { failed_calls output.old < max_count }
    ensures written { OnOk result
        (Appends (W.contents (stream_of output.old)) (W.contents (stream_of output.new)) line.now) }
    ensures fault { IfErr result (λ fault. fault ≡ ShapeFault.Output) }
    ensures output_failed { failed_calls output.old < failed_calls output.new ↔ IsOutput result }
    ensures output_once { failed_calls output.new ≤ failed_calls output.old + 1 }
    ensures flushed { OnOk result (IsTrue (is_flushed output.new)) }
{
    if output.write_all(line).is_err() || output.flush().is_err() {
        return Err(ShapeFault::Output);
    }
    Ok(())
}
