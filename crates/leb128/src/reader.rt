ghost use Rattle.std.specs.Prelude.{◌≡◌, ◌+◌, ◌*◌, ◌%◌, ◌<◌, ◌≤◌, length, drop, IfOk, if◌then◌else◌, nat_lt};
ghost use Rattle.leb128.specs.Fields.{max_len, limit};
ghost use Rattle.leb128.specs.Reading.{Read, Reads, reading, answer, number_at};

use crate::fault::{NumberCause, NumberFault};
use crate::field::NumberField;

/// Adds a byte's digit, which counts `weight`, to a number, where the sum stays below a limit.
fn add_digit(value: u64, weight: u64, b: u8, below: u64) -> Option<u64>
    ensures { let sum = value + (b % 128) * weight in result ≡ (if nat_lt sum below then Some sum else None) }
{
    // In 128 bits, since `checked_mul` and `checked_add` take twice the instructions.
    let sum = u128::from(value) + u128::from(b % 128) * u128::from(weight);
    if sum < u128::from(below) {
        Some(sum as u64)
    } else {
        None
    }
}

/// Reads the number that bytes begin with, within what its field allows.
fn read_front(bytes: &[u8], field: NumberField) -> Result<(u64, usize), NumberCause>
    ensures value { result ≡ reading (max_len field) (limit field) bytes.now }
    ensures within { IfOk result (λ p. (p.1 ≤ length bytes.now) × (p.0 < limit field)) }
{
    let (most, limit) = (field.max_len(), field.limit());
    let mut value = 0;
    let mut weight = 1;
    for (n, &b) in bytes.iter().enumerate() {
        value = add_digit(value, weight, b, limit).ok_or(NumberCause::Large)?;
        if b < 128 {
            return Ok((value, n + 1));
        }
        if n + 1 == most {
            return Err(NumberCause::Large);
        }
        weight *= 128;
    }
    Err(NumberCause::Ends)
}

// A place beside the bytes, since it may lie past their end, which a slice that begins there could not say.
/// Reads a number from a place on, within what its field allows: its value, and how many bytes it took.
pub fn read_number(bytes: &[u8], at: usize, field: NumberField) -> Result<(u64, usize), NumberFault>
    ensures value { result ≡ number_at field bytes.now at }
    ensures told { (q : Read) × (Reads (max_len field) (limit field) (drop at bytes.now) q) × (result ≡ answer at q) }
    ensures only { (q : Read) → Reads (max_len field) (limit field) (drop at bytes.now) q → result ≡ answer at q }
    ensures within { IfOk result (λ p. (at + p.1 ≤ length bytes.now) × (p.0 < limit field)) }
{
    bytes
        .get(at..)
        .ok_or(NumberCause::Ends)
        .and_then(|rest| read_front(rest, field))
        .map_err(|cause| NumberFault { cause, offset: at })
}
