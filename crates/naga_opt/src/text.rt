//! Reading an input to its end, and writing an answer.
ghost use Rattle.std.specs.Prelude.{◌≡◌, ◌<◌, ◌≤◌, ◌+◌, ◌↔◌, ◌++◌, ◌⊎◌, List, ℕ, IfErr, IfOk, IsTrue, OnOk};
ghost use Rattle.std.specs.Io.KnownBytes.{Appends};
ghost use Rattle.naga_streams.specs.Counted.{failed_calls, is_flushed, max_count, stream_of};
ghost use Rattle.naga_opt.specs.Input.{IsInput, IsKnown, IsOutput, IsOutputFault, IsStreamError, ReadsPart, without_mark};

use crate::report::ProgramFault;
use naga_streams::Counted;
use std::alloc::Global;
use std::io::{Read, Write};

/// The maximum number of bytes that one read requests.
const CHUNK_LEN: usize = 16_384;

/// The byte order mark in UTF-8.
const MARK: &[u8] = &[0xef, 0xbb, 0xbf];

/// Returns the bytes without the byte order mark, if they begin with one.
pub fn without_mark(bytes: &[u8]) -> &[u8]
    ensures { result.now ≡ without_mark bytes.now }
{
    match bytes.strip_prefix(MARK) {
        Some(rest) => rest,
        None => bytes,
    }
}

/// Reads all bytes of the input.
///
/// The function returns at the first call that fails.
pub fn read_bytes<R: Read>(alloc: Global, input: &mut Counted<R>) -> Result<Vec<u8>, ProgramFault>
    requires { failed_calls input.old < max_count }
    ensures bytes { IfOk result (λ bytes. IsKnown (R.remaining (stream_of input.old)) bytes.items) }
    ensures fault { IfErr result IsStreamError }
    ensures input_failed { failed_calls input.old < failed_calls input.new ↔ IsInput result }
    ensures input_once { failed_calls input.new ≤ failed_calls input.old + 1 }
    ensures not_output { ¬ IsOutput result }
{
    let mut bytes = Vec::new(alloc);
    let mut chunk = [0u8; CHUNK_LEN];
    'bytes: loop {
        if read_part(input, &mut chunk, &mut bytes)? {
            return Ok(bytes);
        }
    }
}

/// Reads more bytes into `chunk`, appends them to `bytes`, and returns whether the input has ended.
fn read_part<R: Read>(
    input: &mut Counted<R>,
    chunk: &mut [u8; CHUNK_LEN],
    bytes: &mut Vec<u8>,
) -> Result<bool, ProgramFault>
    requires { failed_calls input.old < max_count }
    ensures part { IfOk result (λ ended. (part : List ℕ) × (bytes.new.items ≡ bytes.old.items ++ part)
        × ReadsPart ended (R.remaining (stream_of input.old)) (R.remaining (stream_of input.new)) part) }
    ensures fault { IfErr result IsStreamError }
    ensures input_failed { (failed_calls input.new ≡ failed_calls input.old × ¬ IsInput result)
        ⊎ (failed_calls input.new ≡ failed_calls input.old + 1 × IsInput result) }
    ensures not_output { ¬ IsOutput result }
{
    match input.read(&mut *chunk) {
        Ok(0) => Ok(true),
        Ok(count) => {
            if bytes.extend_from_slice(&chunk[..count]).is_err() {
                return Err(ProgramFault::Memory);
            }
            Ok(false)
        }
        Err(error) => Err(ProgramFault::Input(error)),
    }
}

/// Writes all bytes and flushes the output.
pub fn write_bytes<W: Write>(output: &mut Counted<W>, bytes: &[u8]) -> Result<(), ProgramFault>
    requires { failed_calls output.old < max_count }
    ensures written { OnOk result
        (Appends (W.contents (stream_of output.old)) (W.contents (stream_of output.new)) bytes.now) }
    ensures fault { IfErr result IsOutputFault }
    ensures output_failed { failed_calls output.old < failed_calls output.new ↔ IsOutput result }
    ensures output_once { failed_calls output.new ≤ failed_calls output.old + 1 }
    ensures flushed { OnOk result (IsTrue (is_flushed output.new)) }
{
    if let Err(error) = output.write_all(bytes) {
        return Err(ProgramFault::Output(error));
    }
    match output.flush() {
        Ok(()) => Ok(()),
        Err(error) => Err(ProgramFault::Output(error)),
    }
}
