ghost use Rattle.std.specs.Prelude.{◌≡◌, ◌+◌, ◌<◌, ◌≤◌, ◌++◌, length, MatchResult};
ghost use Rattle.leb128.specs.Leb128.{uleb};
ghost use Rattle.leb128.specs.Buffers.{written};

use crate::fault::NoRoom;

/// How many bytes the shortest form of a number takes.
pub fn number_len(value: u64) -> usize
    ensures count { result ≡ length (uleb value) }
    ensures bound { result ≤ 10 }
{
    // By the ranges, since a walk down the number takes a step for each byte.
    match value {
        0..=0x7F => 1,
        0x80..=0x3FFF => 2,
        0x4000..=0x1F_FFFF => 3,
        0x20_0000..=0xFFF_FFFF => 4,
        0x1000_0000..=0x7_FFFF_FFFF => 5,
        0x8_0000_0000..=0x3FF_FFFF_FFFF => 6,
        0x400_0000_0000..=0x1_FFFF_FFFF_FFFF => 7,
        0x2_0000_0000_0000..=0xFF_FFFF_FFFF_FFFF => 8,
        0x100_0000_0000_0000..=0x7FFF_FFFF_FFFF_FFFF => 9,
        0x8000_0000_0000_0000..=0xFFFF_FFFF_FFFF_FFFF => 10,
    }
}

/// Writes the shortest form of a number over a part that it fills.
#[tactic(auto, using(crate::proofs::Leb128Laws::uleb_last))]
fn put_number(part: &mut [u8], value: u64)
    requires { length part.old ≡ length (uleb value) }
    ensures { part.new ≡ uleb value }
{
    let mut rest = value;
    if let Some((last, front)) = part.split_last_mut() {
        for b in front {
            *b = (rest % 128 + 128) as u8;
            rest /= 128;
        }
        *last = rest as u8;
    }
}

// A place beside the bytes, since it may lie past their end, which a slice that begins there could not say.
/// Writes the shortest form of a number into a buffer from a place on, and says how many bytes it took; or nothing, where it does not fit.
pub fn write_number(buf: &mut [u8], at: usize, value: u64) -> Result<usize, NoRoom>
    ensures { MatchResult result (λ n. (n ≡ length (uleb value)) × (at + n ≤ length buf.old) × (buf.new ≡ written buf.old at (uleb value))) (λ _. (length buf.old < at + length (uleb value)) × (buf.new ≡ buf.old)) }
{
    let len = number_len(value);
    if at > buf.len() || buf.len() - at < len {
        return Err(NoRoom);
    }
    put_number(&mut buf[at..at + len], value);
    Ok(len)
}
