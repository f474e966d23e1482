//! The integers that a JSON number is.
use anyhow::Result;
use json::{Scratch, Value};
use naga_json::numbers;
use std::alloc::Global;

/// Prints which integers a JSON number is.
pub(crate) fn answer(rt: &impl Print, alloc: Global, text: &str) -> Result<()> {
    let mut scratch = Scratch::new(alloc);
    match Value::parse(alloc, text, &mut scratch) {
        Ok(value) => show_ranges(rt, &value),
        Err(_) => {
            println!(rt; "no JSON")?;
            Ok(())
        }
    }
}

/// Prints whether a number is a natural number of 8, 16, 32 and 64 bits, and an integer of 16, 32 and 64 bits.
fn show_ranges(rt: &impl Print, value: &Value<'_>) -> Result<()> {
    let naturals = [
        numbers::byte(value).is_some(),
        numbers::short(value).is_some(),
        numbers::word(value).is_some(),
        numbers::natural(value).is_some(),
    ];
    let integers = [
        numbers::integer_16(value).is_some(),
        numbers::integer_32(value).is_some(),
        numbers::integer(value).is_some(),
    ];
    println!(rt; "{naturals:?} {integers:?}")?;
    Ok(())
}
