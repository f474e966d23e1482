//! The search for the first fault of a text.
ghost use Rattle.std.specs.Prelude.{◌≡◌, nat_eq, true, IfOk, IfSome, IsSome, MatchOption};
ghost use Rattle.std.specs.List.{starts_with};
ghost use Rattle.json_fault.specs.Document.{document};
ghost use Rattle.json_fault.specs.Fault.{byte_order_mark, IsTextFault};

use crate::automaton::{advance, may_end, step};
use crate::expectation::{expected, reason};
use crate::expected::Expected;
use crate::fault::TextFault;
use crate::mode::{Frame, Mode};
use std::alloc::{AllocError, Global};

/// Returns the first fault of a text that is not JSON, or whose lists and objects are nested more than 127 deep.
///
/// Returns `None` if the text is JSON whose lists and objects are nested no deeper, and `Err` if an allocation fails.
/// Only the stack of the lists and objects around a byte is allocated.
pub fn find_text_fault(alloc: Global, text: &str) -> Result<Option<TextFault>, AllocError>
    // There is no fault exactly if the text is JSON. Else no text goes on with the byte at fault.
    ensures first { IfOk result (λ found. MatchOption found (IsSome (document text.now)) (IsTextFault text.now)) }

    // A byte order mark at the start is reported as one.
    ensures mark { IfOk result (λ found. IfSome found
        (λ fault. starts_with nat_eq text.now byte_order_mark ≡ true
        → (fault.offset ≡ 0) × (fault.expected ≡ Expected.NoByteOrderMark))) }
{
    let bytes = text.as_bytes();
    let mut frames: Vec<Frame> = Vec::new(alloc);
    let mut mode = Mode::Value;
    'bytes: for offset in 0..bytes.len() {
        match step(mode, &frames, bytes[offset]) {
            Some(next) => mode = advance(&mut frames, next)?,
            None => {
                let expected = reason(bytes, offset, mode, &frames);
                return Ok(Some(TextFault::new(offset, false, expected)));
            }
        }
    }
    if may_end(mode, &frames) {
        return Ok(None);
    }
    let expected = expected(mode, &frames);
    Ok(Some(TextFault::new(bytes.len(), true, expected)))
}
