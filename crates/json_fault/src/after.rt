//! What follows a value.
ghost use Rattle.std.specs.Prelude.{◌≡◌, reverse, slice_get};
ghost use Rattle.json.specs.Word.{is_space};
ghost use Rattle.json_fault.specs.Rest.{IsReached};
ghost use Rattle.json_fault.specs.Steps.{Steps};

use crate::mode::{Frame, Mode, Step};

/// Returns `true` if a byte is a space.
pub(crate) fn is_space(byte: u8) -> bool
    ensures { result ≡ is_space byte }
{
    (byte == b' ') | (byte == b'\t') | (byte == b'\n') | (byte == b'\r')
}

/// Returns the innermost list or object.
pub(crate) fn innermost(frames: &[Frame]) -> Option<Frame>
    ensures { result ≡ slice_get (reverse frames.now) 0 }
{
    match frames.last() {
        Some(frame) => Some(*frame),
        None => None,
    }
}

/// Returns what a byte does after a value.
pub(crate) fn after(frames: &[Frame], byte: u8) -> Option<Step>
    requires { IsReached Mode.After (reverse frames.now) }
    ensures { Steps Mode.After (reverse frames.now) byte result }
{
    if is_space(byte) {
        return Some(Step::To(Mode::After));
    }
    match innermost(frames) {
        None => None,
        Some(Frame::List) => {
            if byte == b',' {
                return Some(Step::To(Mode::Value));
            }
            if byte == b']' {
                return Some(Step::Close);
            }
            None
        }
        Some(Frame::Object) => {
            if byte == b',' {
                return Some(Step::To(Mode::Key));
            }
            if byte == b'}' {
                return Some(Step::Close);
            }
            None
        }
    }
}
