//! The reasons why a call has no answer, and their messages.
ghost use Rattle.std.specs.Prelude.{◌≡◌, IfOk, string_bytes};
ghost use Rattle.naga_passes.specs.Names.{unknown_text};
ghost use Rattle.naga_text.specs.Escapes.{in_quotes};
ghost use Rattle.naga_capi.specs.Failure.{EndsWith, HasMessage, fault_of, fault_of_read};

use crate::buffer::write_cut;
use crate::fault::Fault;
use naga_json_read::ReadError;
use naga_json_write::WriteError;
use naga_passes::PASS_NAMES;
use naga_text::Text;
use std::alloc::{AllocError, Global};

/// The reason why a call has no answer.
#[derive(Debug, Drop)]
pub enum Failure {
    /// This name in the list of passes is not that of a pass.
    UnknownPass(String),
    /// The text or the list of passes is not UTF-8.
    NotUtf8,
    /// The text was not read as a module, which is this fault. The message has its place, and the reason.
    Unread(Fault, String),
    /// The accesses of a function cannot be clamped. The message names the function, and has the reason.
    Unrestricted(String),
    /// The new module was not written, for this reason, which is not [`WriteError::Memory`].
    Unwritten(WriteError),
    /// An allocation failed.
    Memory,
}

impl Failure {
    /// Returns the fault whose code says this.
    pub(crate) fn fault(&self) -> Fault
        ensures { result ≡ fault_of self.now }
    {
        match self {
            Failure::UnknownPass(_) => Fault::UnknownPass,
            Failure::NotUtf8 => Fault::NotUtf8,
            Failure::Unread(fault, _) => *fault,
            Failure::Unrestricted(_) => Fault::NotRestricted,
            Failure::Unwritten(_) => Fault::NoJson,
            Failure::Memory => Fault::OutOfMemory,
        }
    }

    /// Returns the message that the program `naga_opt` prints in this case, without the program's name.
    fn message(self, alloc: Global) -> Result<String, AllocError>
        ensures { IfOk result (λ message. HasMessage self (string_bytes message)) }
    {
        match self {
            Failure::UnknownPass(name) => unknown_pass(alloc, name.as_str()),
            Failure::NotUtf8 => String::from_str(alloc, "not UTF-8"),
            Failure::Unread(_, message) => Ok(message),
            Failure::Unrestricted(message) => Ok(message),
            Failure::Unwritten(error) => String::from_str(alloc, error.as_str()),
            Failure::Memory => String::from_str(alloc, OUT_OF_MEMORY),
        }
    }
}

/// Returns the message about a name that is not that of a pass.
///
/// The name is in quotes, and is escaped.
fn unknown_pass(alloc: Global, name: &str) -> Result<String, AllocError>
    ensures { IfOk result (λ message. string_bytes message ≡ unknown_text (in_quotes name.now)) }
{
    let quoted = in_quotes(alloc, name)?;
    format!(in alloc; "unknown pass: {quoted} (passes: {PASS_NAMES})")
}

/// Returns a name in quotes, in which it is escaped.
fn in_quotes(alloc: Global, name: &str) -> Result<String, AllocError>
    ensures { IfOk result (λ quoted. string_bytes quoted ≡ in_quotes name.now) }
{
    let mut text = Text::new(alloc);
    text.push("\"")?;
    text.push_escaped(name)?;
    text.push("\"")?;
    Ok(text.finish())
}

/// The message if an allocation failed.
const OUT_OF_MEMORY: &str = "out of memory";

/// Returns the fault of an error of reading.
pub(crate) fn fault_of_read(error: &ReadError) -> Fault
    ensures { result ≡ fault_of_read error.now }
{
    match error {
        ReadError::Memory => Fault::OutOfMemory,
        ReadError::Text { .. } => Fault::NotJson,
        ReadError::Value(_) => Fault::NotAModule,
        ReadError::Handle(_) => Fault::InvalidHandle,
    }
}

/// Ends a call without an answer: writes the message into a buffer, cut after the last whole character that fits, and
/// returns the code.
///
/// If an allocation for the message fails, the call ends as if that had been the failure.
pub(crate) fn end_with(alloc: Global, failure: Failure, buffer: &mut [u8]) -> isize
    ensures { EndsWith failure result buffer.old buffer.new }
{
    let fault = failure.fault();
    match failure.message(alloc) {
        Ok(message) => {
            write_cut(message.as_str(), buffer);
            fault.code()
        }
        Err(AllocError) => {
            write_cut(OUT_OF_MEMORY, buffer);
            Fault::OutOfMemory.code()
        }
    }
}
