//! Laws about the bits of literals.
ghost use Rattle.std.specs.Prelude.{◌*◌, ◌^◌, ◌<◌, ◌≤◌};
ghost use Rattle.naga_ir.specs.Literal.{highest_bit};

/// The position of a byte's highest bit is the exponent of the greatest power of two that is at most the byte.
///
/// Precondition: the byte is not 0.
pub fn highest_bit_is_of_the_greatest_power(byte: u8)
    requires { 0 < byte }
    ensures within { 2 ^ highest_bit byte ≤ byte }
    ensures greatest { byte < 2 * 2 ^ highest_bit byte }
{}
