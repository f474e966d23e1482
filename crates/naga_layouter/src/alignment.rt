//! Powers of two of which addresses are multiples.
ghost use Rattle.std.specs.Prelude.{◌≡◌, ◌+◌, ◌*◌, ◌^◌, ◌%◌, ◌==◌, ◌<◌, IfSome, IfNone, ℕ, ◌≢◌};
ghost use Rattle.std.proofs.Common.{max};
ghost use Rattle.naga_layouter.specs.Alignment.{alignment_of_side, alignment_of_size, alignment_of_width, rounded_up};

use naga_kinds::{Bytes, CooperativeSize, VectorSize};
use std::fmt;
use std::marker::Model;
use std::ops::Mul;

/// A power of two below `2 ^ 32`, of which the addresses of the values of a type are multiples.
///
/// In contracts, an alignment is its exponent.
#[derive(Clone, Copy, PartialEq, Eq, PartialOrd, Ord, Hash)]
pub struct Alignment {
    exponent: u32,
}

impl Model for Alignment {
    ghost use Rattle.std.specs.Prelude.{ℕ, ◌<◌};

    ghost Value = { ℕ };

    ghost view = { λ a. a.exponent };

    ghost inverse = { λ n. record { exponent = n } };

    ghost invariant = { λ a. a.exponent < 32 };
}

impl Alignment {
    /// The alignment 1, of which each number is a multiple.
    pub const ONE: Self = Alignment { exponent: 0 };

    /// The alignment 2.
    pub const TWO: Self = Alignment { exponent: 1 };

    /// The alignment 4.
    pub const FOUR: Self = Alignment { exponent: 2 };

    /// The alignment 8.
    pub const EIGHT: Self = Alignment { exponent: 3 };

    /// The alignment 16.
    pub const SIXTEEN: Self = Alignment { exponent: 4 };

    /// The least alignment of the elements of arrays and of structures in uniform buffers.
    pub const MIN_UNIFORM: Self = Alignment::SIXTEEN;

    /// Returns the alignment that is this number, or `None` if the number is not a power of two.
    pub fn new(n: u32) -> Option<Self>
        ensures some { IfSome result (λ alignment. n ≡ 2 ^ alignment) }
        ensures none { IfNone result ((k : ℕ) → k < 32 → n ≢ 2 ^ k) }
    {
        'each: for exponent in 0u32..32 {
            if 1u32 << exponent == n {
                return Some(Alignment { exponent });
            }
        }
        None
    }

    /// Returns the alignment of scalars of this width, or `None` if the width is not a power of two.
    ///
    /// Differs from naga: naga returns the alignment itself, and panics if there is none.
    pub fn from_width(width: Bytes) -> Option<Self>
        ensures { result ≡ alignment_of_width width }
    {
        let exponent = match width {
            1 => 0,
            2 => 1,
            4 => 2,
            8 => 3,
            16 => 4,
            32 => 5,
            64 => 6,
            128 => 7,
            _ => return None,
        };
        Some(Alignment { exponent })
    }

    /// Returns the number.
    ///
    /// Differs from naga: naga has no such call.
    pub fn get(self) -> u32
        ensures { result ≡ 2 ^ self }
    {
        1u32 << self.exponent
    }

    /// Returns whether a number is a multiple of the alignment.
    pub fn is_aligned(&self, n: u32) -> bool
        ensures { result ≡ (n % 2 ^ self.now == 0) }
    {
        n % self.get() == 0
    }

    /// Returns the least multiple of the alignment that is not below a number.
    ///
    /// The caller must ensure that this multiple is below `2 ^ 32`.
    ///
    /// Differs from naga: naga wraps, or panics in a debug build.
    pub fn round_up(&self, n: u32) -> u32
        requires { rounded_up self.now n < 2 ^ 32 }
        ensures { result ≡ rounded_up self.now n }
    {
        n.div_ceil(self.get()) * self.get()
    }

    /// Returns the greater of two alignments.
    pub(crate) fn greater(self, other: Self) -> Self
        ensures { result ≡ max self other }
    {
        if self.exponent < other.exponent {
            other
        } else {
            self
        }
    }
}

/// The product must be below `2 ^ 32`. Differs from naga: naga wraps, or panics in a debug build.
impl Mul for Alignment {
    type Output = Alignment;

    ghost can_mul = { λ a b. a + b < 32 };

    ghost mul_gives = { λ a b product. product ≡ a + b };

    fn mul(self, other: Self) -> Self {
        Alignment {
            exponent: self.exponent + other.exponent,
        }
    }
}

/// The product must be below `2 ^ 32`. Differs from naga: naga wraps, or panics in a debug build.
impl Mul<u32> for Alignment {
    type Output = u32;

    ghost can_mul = { λ a n. 2 ^ a * n < 2 ^ 32 };

    ghost mul_gives = { λ a n product. product ≡ 2 ^ a * n };

    fn mul(self, n: u32) -> u32 {
        self.get() * n
    }
}

/// Converts to the factor by which the alignment of a vector exceeds that of its scalars.
impl From<VectorSize> for Alignment {
    ghost from_gives = { λ size alignment. alignment ≡ alignment_of_size size };

    fn from(size: VectorSize) -> Self {
        match size {
            VectorSize::Bi => Alignment::TWO,
            VectorSize::Tri | VectorSize::Quad => Alignment::FOUR,
        }
    }
}

/// Converts to the factor by which the alignment of a cooperative matrix with so many rows exceeds that of its scalars.
impl From<CooperativeSize> for Alignment {
    ghost from_gives = { λ size alignment. alignment ≡ alignment_of_side size };

    fn from(size: CooperativeSize) -> Self {
        match size {
            CooperativeSize::Eight => Alignment::EIGHT,
            CooperativeSize::Sixteen => Alignment::SIXTEEN,
        }
    }
}

/// Formats the number.
impl fmt::Display for Alignment {
    fn fmt<W: fmt::Write>(&self, f: &mut fmt::Formatter<W>) -> fmt::Result {
        let number = self.get();
        write!(f, "{number}")
    }
}

/// Formats the number with the name of the type, as in `Alignment(4)`.
impl fmt::Debug for Alignment {
    fn fmt<W: fmt::Write>(&self, f: &mut fmt::Formatter<W>) -> fmt::Result {
        let number = self.get();
        write!(f, "Alignment({number})")
    }
}
