// A text run is consecutive 16-bit units, four to a word, the first in the low bits.
ghost use Rattle.content.specs.Runs.{slot, code_unit};
ghost use Rattle.content.specs.RunsLemmas.{text_lies};
ghost use Rattle.std.proofs.Common.{lit<};

use crate::run::{Run, Slots};

/// The 16-bit units from place `from` up to, and not including, place `to`.
/// Places count units, so that the unit at place p is the bits from 16 · (p mod 4) on of word p / 4.
pub type TextRun = Run<4>;

/// A word is four units of 16 bits.
impl Slots<4> for u64 {
    ghost unit_at = { code_unit };

    ghost in_slot = { slot };

    ghost some = { lit< tt };

    ghost lies = { text_lies };

    fn slot(self, place: u32) -> u64 {
        self >> (16 * (place % 4)) & 0xffff
    }
}
