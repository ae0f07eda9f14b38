ghost use Rattle.std.specs.Prelude.{◌≡◌, ℕ, ◌<◌, true, List, ◌++◌, IfOk, OnOk, slice_index};
ghost use Rattle.std.specs.List.{list_all};
ghost use Rattle.notation.specs.Hex.{is_hex_digit, nibble, is_hex, bytes_in, digit_of, hex_of};

use std::alloc::{AllocError, Global};

// 0 and no None: who reads digits has tested first that they are such (`is_hex`).
/// What a hexadecimal digit says, and 0 of another byte.
fn nibble_of(c: u8) -> u8
    ensures value { result ≡ nibble c }
    ensures bound { result < 16 }
{
    match c {
        b'0'..=b'9' => c - b'0',
        b'A'..=b'F' => c - b'A' + 10,
        b'a'..=b'f' => c - b'a' + 10,
        _ => 0,
    }
}

fn all_digits(word: &[u8]) -> bool
    ensures { result ≡ list_all is_hex_digit word.now }
{
    word.iter().all(|c| c.is_ascii_hexdigit())
}

/// Whether a word is pairs of hexadecimal digits and nothing else. Bytes written as digits are such, and are read back.
pub fn is_hex(word: &[u8]) -> bool
    ensures value { result ≡ is_hex word.now }
    ensures back { (bs : List ℕ) → ((i : ℕ) → slice_index bs i < 256) → (is_hex (hex_of bs) ≡ true) × (bytes_in (hex_of bs) ≡ bs) }
{
    word.len() % 2 == 0 && all_digits(word)
}

/// The bytes that pairs of hexadecimal digits say.
pub fn read_hex(heap: Global, word: &[u8]) -> Result<Vec<u8>, AllocError>
    ensures { IfOk result (λ v. v.items ≡ bytes_in word.now) }
{
    let (pairs, _) = word.as_chunks::<2>();
    pairs
        .iter()
        .map(|[high, low]| nibble_of(*high) * 16 + nibble_of(*low))
        .collect(heap)
}

/// The digit of a number below 16, in capitals.
fn hex_digit(n: u8) -> u8
    requires { n < 16 }
    ensures { result ≡ digit_of n }
{
    if n < 10 { b'0' + n } else { b'A' + (n - 10) }
}

/// Appends bytes to a text as pairs of hexadecimal digits.
pub fn push_hex(text: &mut Vec<u8>, bytes: &[u8]) -> Result<(), AllocError>
    ensures { OnOk result (text.new.items ≡ text.old.items ++ hex_of bytes.now) }
{
    // Tried as a `Display` that writes `{byte:02X}` in its loop: the bound that std's lemma on that text asks stayed open there.
    for byte in bytes {
        text.extend_from_slice(&[hex_digit(*byte / 16), hex_digit(*byte % 16)])?;
    }
    Ok(())
}
