ghost use Rattle.std.specs.Prelude.{◌≡◌, ◌++◌, IfOk, if◌then◌else◌, Some, None, vec_items, decimal, OnOk};
ghost use Rattle.std.specs.Option.{option_map};
ghost use Rattle.notation.specs.Numerals.{number_in, numbers_in, all_short};

use crate::text::push_shown;
use crate::words::Words;
use std::alloc::{AllocError, Global};

// Not `parse`, which takes a sign too.
/// The number that a word of decimal digits says; none where it has another byte, or none, or the number takes more than 64 bits.
pub fn read_number(word: &[u8]) -> Option<u64>
    ensures { result ≡ number_in word.now }
{
    if word.is_empty() {
        return None;
    }
    let mut value = 0u64;
    for digit in word {
        if !digit.is_ascii_digit() {
            return None;
        }
        value = value
            .checked_mul(10)?
            .checked_add(u64::from(*digit - b'0'))?;
    }
    Some(value)
}

/// The numbers that the words of a line say; none where a word says none.
pub fn read_numbers(heap: Global, line: &[u8]) -> Result<Option<Vec<u64>>, AllocError>
    ensures { IfOk result (λ o. option_map vec_items o ≡ numbers_in line.now) }
{
    let mut numbers = Vec::new(heap);
    for word in Words(line) {
        let Some(number) = read_number(word) else {
            return Ok(None);
        };
        numbers.push(number)?;
    }
    Ok(Some(numbers))
}

// A loop of its own: one for both it and `read_numbers` would take an iterator and a closure, and be no shorter.
/// The same numbers in 16 bits; none where one of them does not fit.
pub fn shorten(heap: Global, numbers: &[u64]) -> Result<Option<Vec<u16>>, AllocError>
    ensures { IfOk result (λ o. option_map vec_items o ≡ (if all_short numbers.now then Some numbers.now else None)) }
{
    let mut units = Vec::new(heap);
    for number in numbers {
        let Ok(unit) = u16::try_from(*number) else {
            return Ok(None);
        };
        units.push(unit)?;
    }
    Ok(Some(units))
}

/// Appends a number to a text, in decimal digits.
pub fn push_number(text: &mut Vec<u8>, value: u64) -> Result<(), AllocError>
    ensures { OnOk result (text.new.items ≡ text.old.items ++ decimal value) }
{
    push_shown(text, &value)
}
