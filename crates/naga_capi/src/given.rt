//! Texts that are given to a caller.
ghost use Rattle.std.specs.Prelude.{◌≡◌, pos, length, string_bytes};

/// A text that a call has given to its caller: in C a pointer to its first byte, and then its length.
///
/// The memory of the text is the caller's. The library neither reads nor writes it again, and does not free it.
///
/// Differs from naga: naga has no such type.
#[repr(C)]
#[derive(Drop)]
pub struct Answer {
    /// The text.
    pub text: &'static [u8],
}

/// Gives a text to a caller. Returns its length.
pub(crate) fn give(text: String, answer: &mut Answer) -> isize
    ensures length { result ≡ pos (length (string_bytes text)) }
    ensures given { answer.new.text.now ≡ string_bytes text }
{
    let text = text.into_bytes().leak();
    let length = text.len();
    answer.text = text;
    length as isize
}
