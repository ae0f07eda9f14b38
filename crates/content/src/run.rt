// A run is consecutive units that lie in words, as many to a word as it has slots.
ghost use Rattle.std.specs.Prelude.{◌≡◌, ℕ, ◌+◌, ◌-◌, ◌/◌, ◌%◌, ◌<◌, true, List, length, slice_index_or, refl};
ghost use Rattle.std.proofs.lemmas.List.FromFn.{length-map-range_with_len};
ghost use Rattle.content.specs.Runs.{run, run_reach};
ghost use Rattle.content.specs.RunsLemmas.{place_word, reach_part, run_steady, run_joins};
ghost use Rattle.std.proofs.Common.{arith, rules};

use crate::content::Content;

/// A word with `N` slots, in each of which a unit lies.
pub trait Slots<const N: u32>: Copy {
    // The unit at a place of a table of words.
    ghost unit_at: { List Self → ℕ → ℕ };

    // The unit in a slot of a word.
    ghost in_slot: { Self → ℕ → ℕ };

    // A word has a slot.
    ghost some: { 0 < N };

    // Places count the slots of one word after those of another.
    ghost lies: { (t : List Self) (i : ℕ) (w : Self) → i / N < length t → unit_at t i ≡ in_slot (slice_index_or t (i / N) w) (i % N) };

    /// The unit at `place`, if it lies in this word: that of the slot `place` mod `N`.
    fn slot(self, place: u32) -> u64
        ensures { result ≡ in_slot self (place % N) };
}

/// The units from place `from` up to, and not including, place `to`; none where `to` is not above `from`.
/// Places count units, `N` to a word.
#[derive(Clone, Copy, PartialEq, Eq, Debug)]
pub struct Run<const N: u32> {
    pub from: u32,
    pub to: u32,
}

impl<const N: u32> Content for Run<N>
where
    u64: Slots<N>,
{
    ghost size = { λ c. c.to - c.from };

    ghost counts = { λ _. true };

    ghost reach = { λ c. run_reach c.from c.to ((c.to - 1) / N + 1) };

    ghost units = { λ t c. run (⟦<u64 as Slots<N>>⟧.unit_at t) c.from c.to };

    ghost fore = { λ k c. record { from = c.from; to = c.from + k } };

    ghost rear = { λ k c. record { from = c.from + k; to = c.to } };

    ghost sized = { λ t c h. length-map-range_with_len (⟦<u64 as Slots<N>>⟧.unit_at t) c.from (c.to - c.from) };

    ghost steady = { λ t u c h.
        let slots = ⟦<u64 as Slots<N>>⟧ in
        run_steady slots.unit_at slots.in_slot N slots.some slots.lies t u c.from c.to h };

    ghost halves = { λ k c low high.
        let slots = ⟦<u64 as Slots<N>>⟧ in
        let last = place_word N (c.from + k - 1) c.to slots.some (omega arith) in
        record {
          front = Prim.search rules;
          sums = Prim.search rules;
          left_counts = refl;
          right_counts = refl;
          left_reach = reach_part c.from (c.from + k) ((c.from + k - 1) / N + 1) ((c.to - 1) / N + 1) c.from c.to (omega arith) (omega arith);
          right_reach = Prim.search rules;
          joins = λ t h. run_joins (slots.unit_at t) c.from c.to k high;
        } };

    fn len(&self) -> u32 {
        self.to.saturating_sub(self.from)
    }

    fn countable(&self) -> bool {
        true
    }

    fn fits(&self, used: u32) -> bool {
        self.from >= self.to || (self.to - 1) / N < used
    }

    fn unit(&self, words: &[u64], offset: u32) -> Option<u64> {
        if offset >= self.len() || ((self.to - 1) / N) as usize >= words.len() {
            return None;
        }
        let at = self.from + offset;
        Some(words[(at / N) as usize].slot(at))
    }

    fn cut(&self, k: u32) -> (Run<N>, Run<N>) {
        let at = self.from + k;
        (Run { to: at, ..*self }, Run { from: at, ..*self })
    }
}
