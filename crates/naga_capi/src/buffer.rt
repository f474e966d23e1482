//! Writing texts into the buffers of a caller.
ghost use Rattle.std.specs.Prelude.{◌≡◌, pos, length};
ghost use Rattle.naga_capi.specs.Buffer.{IsCut, WritesCut, written};

/// Returns the longest prefix of whole characters of a text that has at most `limit` bytes.
fn cut(text: &str, limit: usize) -> &str
    ensures { IsCut limit text.now result.now }
{
    let (front, _) = text.split_at(text.floor_char_boundary(limit));
    front
}

/// Writes a text into the first bytes of a buffer, if it has enough. Returns the length of the text.
pub(crate) fn write_whole(text: &str, out: &mut [u8]) -> isize
    ensures length { result ≡ pos (length text.now) }
    ensures written { out.new ≡ written text.now out.old }
{
    let length = text.len();
    if length <= out.len() {
        out[..length].copy_from_slice(text.as_bytes());
    }
    length as isize
}

/// Writes a text into the first bytes of a buffer, cut after the last whole character for which it has enough.
pub(crate) fn write_cut(text: &str, buffer: &mut [u8])
    ensures { WritesCut text.now buffer.old buffer.new }
{
    let front = cut(text, buffer.len());
    buffer[..front.len()].copy_from_slice(front.as_bytes());
}
