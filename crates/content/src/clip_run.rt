// A clip run is consecutive words, each of them a unit.
ghost use Rattle.content.specs.Runs.{word_at};
ghost use Rattle.content.specs.RunsLemmas.{word_lies};
ghost use Rattle.std.proofs.Common.{lit<};

use crate::run::{Run, Slots};

/// The words from place `from` up to, and not including, place `to`.
pub type ClipRun = Run<1>;

/// A word is one unit.
impl Slots<1> for u64 {
    ghost unit_at = { word_at };

    ghost in_slot = { λ w _. w };

    ghost some = { lit< tt };

    ghost lies = { word_lies };

    fn slot(self, _place: u32) -> u64 {
        self
    }
}
