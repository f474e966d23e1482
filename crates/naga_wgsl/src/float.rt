//! The texts of floats.
ghost use Rattle.std.specs.Prelude.{◌≡◌, ◌++◌, ◌<◌, ◌≤◌, ◌^◌, OnOk};
ghost use Rattle.naga_wgsl.specs.Floats.{float_text, fraction_digits, fraction_text, hexadecimal_text, is_finite, magnitude_text, parts_of_16, parts_of_32, parts_of_64, power_text, scaled_text, sign_text};

use naga_text::Text;
use std::alloc::AllocError;

/// The parts of a float.
#[derive(Clone, Copy)]
pub(crate) struct FloatParts {
    is_negative: bool,
    /// The exponent, with its bias.
    exponent: u32,
    /// The fraction, extended to 52 bits by zeros behind it.
    fraction: u64,
}

impl FloatParts {
    /// Returns the parts of a float of 16 bits.
    pub(crate) fn of_16(bits: u16) -> Self
        ensures { result ≡ parts_of_16 bits }
    {
        FloatParts {
            is_negative: bits >= 0x8000,
            exponent: u32::from(bits / 0x400 % 0x20),
            fraction: u64::from(bits % 0x400) * 0x400_0000_0000,
        }
    }

    /// Returns the parts of a float of 32 bits.
    pub(crate) fn of_32(bits: u32) -> Self
        ensures { result ≡ parts_of_32 bits }
    {
        FloatParts {
            is_negative: bits >= 0x8000_0000,
            exponent: bits / 0x80_0000 % 0x100,
            fraction: u64::from(bits % 0x80_0000) * 0x2000_0000,
        }
    }

    /// Returns the parts of a float of 64 bits.
    pub(crate) fn of_64(bits: u64) -> Self
        ensures { result ≡ parts_of_64 bits }
    {
        FloatParts {
            is_negative: bits >= 0x8000_0000_0000_0000,
            exponent: (bits / 0x10_0000_0000_0000 % 0x800) as u32,
            fraction: bits % 0x10_0000_0000_0000,
        }
    }

    /// Returns whether the float is neither infinite nor a NaN, by the bias of its exponent.
    pub(crate) fn is_finite(self, bias: u32) -> bool
        requires { bias < 2 ^ 30 }
        ensures { result ≡ is_finite bias self }
    {
        self.exponent != 2 * bias + 1
    }
}

/// Appends a finite float, with the suffix of its type. Returns `Err` if allocation fails.
pub(crate) fn push_float(
    text: &mut Text,
    bias: u32,
    parts: FloatParts,
    suffix: &str,
) -> Result<(), AllocError>
    requires { parts.fraction < 2 ^ 52 }
    ensures { OnOk result (text.new ≡ text.old ++ float_text bias parts suffix.now) }
{
    push_sign(text, parts.is_negative)?;
    push_magnitude(text, bias, parts.exponent, parts.fraction)?;
    text.push(suffix)
}

/// Appends the sign of a number, if it is negative.
fn push_sign(text: &mut Text, is_negative: bool) -> Result<(), AllocError>
    ensures { OnOk result (text.new ≡ text.old ++ sign_text is_negative) }
{
    if is_negative { text.push("-") } else { Ok(()) }
}

/// Appends a float without its sign.
fn push_magnitude(
    text: &mut Text,
    bias: u32,
    exponent: u32,
    fraction: u64,
) -> Result<(), AllocError>
    requires { fraction < 2 ^ 52 }
    ensures { OnOk result (text.new ≡ text.old ++ magnitude_text bias exponent fraction) }
{
    if exponent == 0 && fraction == 0 {
        text.push("0.0")
    } else {
        push_hexadecimal(text, bias, exponent, fraction)
    }
}

/// Appends a float that is not 0.
fn push_hexadecimal(
    text: &mut Text,
    bias: u32,
    exponent: u32,
    fraction: u64,
) -> Result<(), AllocError>
    requires { fraction < 2 ^ 52 }
    ensures { OnOk result (text.new ≡ text.old ++ hexadecimal_text bias exponent fraction) }
{
    if exponent == 0 {
        push_scaled(text, bias, 1, fraction, "0")
    } else {
        push_scaled(text, bias, exponent, fraction, "1")
    }
}

/// Appends the digits of a float, the first of which is given, and their power of two.
fn push_scaled(
    text: &mut Text,
    bias: u32,
    exponent: u32,
    fraction: u64,
    first: &str,
) -> Result<(), AllocError>
    requires { fraction < 2 ^ 52 }
    ensures { OnOk result (text.new ≡ text.old ++ scaled_text bias exponent fraction first.now) }
{
    text.push("0x")?;
    text.push(first)?;
    push_fraction(text, fraction)?;
    text.push("p")?;
    push_power(text, bias, exponent)
}

/// Appends a fraction of 52 bits, after its point, if it is not 0.
fn push_fraction(text: &mut Text, fraction: u64) -> Result<(), AllocError>
    requires { fraction < 2 ^ 52 }
    ensures { OnOk result (text.new ≡ text.old ++ fraction_text fraction) }
{
    if fraction == 0 {
        Ok(())
    } else {
        text.push(".")?;
        push_fraction_digits(text, fraction)
    }
}

/// Appends the hexadecimal digits of a fraction of 52 bits, up to the last one that is not 0.
fn push_fraction_digits(text: &mut Text, fraction: u64) -> Result<(), AllocError>
    requires { fraction < 2 ^ 52 }
    ensures { OnOk result (text.new ≡ text.old ++ fraction_digits fraction) }
{
    let mut rest = fraction;
    let mut unit = 0x1_0000_0000_0000;
    'digits: while rest > 0 {
        text.push_hexadecimal(rest / unit)?;
        rest %= unit;
        unit /= 16;
    }
    Ok(())
}

/// Appends the power of two by which the digits are multiplied.
fn push_power(text: &mut Text, bias: u32, exponent: u32) -> Result<(), AllocError>
    ensures { OnOk result (text.new ≡ text.old ++ power_text bias exponent) }
{
    if exponent >= bias {
        text.push_number(u64::from(exponent - bias))
    } else {
        text.push("-")?;
        text.push_number(u64::from(bias - exponent))
    }
}
