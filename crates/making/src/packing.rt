// Packing 16-bit units, four to a word, the first in the low bits.
ghost use Rattle.std.specs.Prelude.{◌≡◌, ℕ, ◌+◌, ◌*◌, ◌<◌, ◌≤◌, length, slice_index};
ghost use Rattle.content.specs.Runs.{slot};
ghost use Rattle.making.specs.Packed.{packed_at, packed, words_of, surrogates};

// Whether one of the units is D800 to DFFF.
pub(crate) fn has_surrogate(units: &[u16]) -> bool
    ensures { result ≡ surrogates units.now }
{
    units.iter().any(|unit| (0xD800..0xE000).contains(unit))
}

// The unit at `i`, 0 past the end.
fn unit_or_zero(units: &[u16], i: usize) -> u64
    ensures value { result ≡ slice_index units.now i }
    ensures small { result < 65536 }
{
    units.get(i).map_or(0, |unit| u64::from(*unit))
}

/// The word of the four units from 4 · `k` on, 0 for each that there is not.
/// Read back, its bits from 16 · j on are the unit at 4 · `k` + j.
pub fn packed_word(units: &[u16], k: u32) -> u64
    ensures value { result ≡ packed_at units.now (4 * k) }
    ensures back { (j : ℕ) → j < 4 → slot result j ≡ slice_index units.now (4 * k + j) }
{
    let at = 4 * k as usize;
    let [a, b, c, d] = [at, at + 1, at + 2, at + 3].map(|i| unit_or_zero(units, i));
    a + b * 0x1_0000 + c * 0x1_0000_0000 + d * 0x1_0000_0000_0000
}

// Writes the words that the units take, packed.
pub(crate) fn pack(units: &[u16], words: &mut [u64])
    requires few { length units.now ≤ 65536 }
    requires room { length words.old ≡ words_of (length units.now) }
    ensures { words.new ≡ packed units.now }
{
    for (k, word) in words.iter_mut().enumerate() {
        *word = packed_word(units, k as u32);
    }
}
