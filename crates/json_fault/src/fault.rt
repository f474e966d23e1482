//! The first fault of a text that is not JSON.
ghost use Rattle.std.specs.Prelude.{◌≡◌};
ghost use Rattle.std.specs.Fmt.{WritesOnOk};
ghost use Rattle.json_fault.specs.Messages.{reason_text};

use crate::expected::Expected;
use std::fmt;

/// The place at which a text stops being JSON, and what was expected there.
#[derive(Clone, Copy, Debug, PartialEq, Eq, Drop)]
pub struct TextFault {
    /// The number of bytes before the fault.
    offset: usize,
    /// Whether the fault is that the text ends.
    is_at_end: bool,
    /// What was expected.
    expected: Expected,
}

impl TextFault {
    /// Returns a fault.
    pub(crate) fn new(offset: usize, is_at_end: bool, expected: Expected) -> TextFault
        ensures { result ≡ record { offset = offset; is_at_end = is_at_end; expected = expected } }
    {
        TextFault {
            offset,
            is_at_end,
            expected,
        }
    }

    /// Returns the number of bytes before the byte at fault, or the length of the text if its end is at fault.
    pub fn offset(&self) -> usize
        ensures { result ≡ self.now.offset }
    {
        self.offset
    }

    /// Returns what was expected.
    pub fn expected(&self) -> Expected
        ensures { result ≡ self.now.expected }
    {
        self.expected
    }

    /// Writes the fault without its place, as in `the text ends, expected a value`.
    pub fn write_reason<W: fmt::Write>(&self, f: &mut fmt::Formatter<W>) -> fmt::Result
        ensures { WritesOnOk W.write_str_gives f.old result (reason_text self.now) f.new }
    {
        if self.is_at_end {
            f.write_str("the text ends, ")?;
        }
        write!(f, "{}", self.expected)
    }
}

impl fmt::Display for TextFault {
    ghost use Rattle.std.specs.Prelude.{Some};
    ghost use Rattle.json_fault.specs.Messages.{fault_text};

    ghost output = { λ fault. Some (fault_text fault) };

    fn fmt<W: fmt::Write>(&self, f: &mut fmt::Formatter<W>) -> fmt::Result {
        write!(f, "invalid JSON at byte {}: ", self.offset)?;
        self.write_reason(f)
    }
}
