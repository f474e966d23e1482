//! [`NonMaxU32`], a `u32` that is never `u32::MAX`.
ghost use Rattle.std.specs.Prelude.{◌≡◌, ◌<◌, ◌+◌, ◌↔◌, Some, IsNone, IfSome};
ghost use Rattle.std.specs.Fmt.{decimal, styled_decimal};
ghost use Rattle.naga_arena.specs.Limits.{max_index, max_len};

use std::fmt;
use std::marker::Model;

/// A number from 0 to `u32::MAX - 1`.
///
/// A handle contains its index as a `NonMaxU32`, so an arena has at most `u32::MAX` elements.
#[derive(Clone, Copy, PartialEq, Eq, PartialOrd, Ord, Hash)]
pub struct NonMaxU32 {
    number: u32,
}

impl Model for NonMaxU32 {
    ghost use Rattle.std.specs.Prelude.{ℕ, ◌<◌};
    ghost use Rattle.naga_arena.specs.Limits.{max_len};

    ghost Value = { ℕ };

    ghost view = { λ n. n.number };

    ghost invariant = { λ n. n.number < max_len };

    ghost inverse = { λ n. record { number = n } };
}

impl NonMaxU32 {
    /// Creates a `NonMaxU32` with this value, or returns `None` if `n` is `u32::MAX`.
    pub fn new(n: u32) -> Option<Self>
        ensures none { IsNone result ↔ (max_index < n) }
        ensures value { IfSome result (λ number. number ≡ n) }
    {
        if n == u32::MAX {
            return None;
        }
        Some(NonMaxU32 { number: n })
    }

    /// Returns the number as a `u32`.
    pub fn get(self) -> u32
        ensures value { result ≡ self }
        ensures bound { result < max_len }
    {
        self.number
    }

    /// Returns the sum of this number and `n`, or `None` if it is greater than `u32::MAX - 1`.
    pub fn checked_add(self, n: u32) -> Option<Self>
        ensures none { IsNone result ↔ (max_index < self + n) }
        ensures value { IfSome result (λ sum. sum ≡ self + n) }
    {
        Self::new(self.number.checked_add(n)?)
    }

    /// Creates a `NonMaxU32` with this value, without checking it.
    ///
    /// Precondition: `n` is not `u32::MAX`.
    pub(crate) fn at(n: u32) -> Self
        requires { n < max_len }
        ensures { result ≡ n }
    {
        NonMaxU32 { number: n }
    }
}

impl fmt::Debug for NonMaxU32 {
    ghost debug_output = { λ n. Some (decimal n) };

    fn fmt<W: fmt::Write>(&self, f: &mut fmt::Formatter<W>) -> fmt::Result {
        fmt::Debug::fmt(&self.number, f)
    }
}

impl fmt::Display for NonMaxU32 {
    ghost output = { λ n. Some (decimal n) };

    ghost styled_output = { λ n spec. Some (styled_decimal spec n) };

    fn fmt<W: fmt::Write>(&self, f: &mut fmt::Formatter<W>) -> fmt::Result {
        fmt::Display::fmt(&self.number, f)
    }
}
