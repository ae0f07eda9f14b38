// An echo is one unit, again and again, held in the content itself.
ghost use Rattle.std.specs.Prelude.{◌≡◌, ◌+◌, ◌-◌, ◌<◌, true, false, [], replicate, refl};
ghost use Rattle.std.proofs.lemmas.List.{length-replicate, replicate-append-replicate};
ghost use Rattle.std.proofs.Common.{ap, ◌∙◌, arith, rules};

use content::content::Content;
use making::make::{Made, Make};
use making::refusal::{Refusal, judge};

/// The countable unit `unit`, as often as `times` says.
// Much as a gap, and no form of it: this kind shows that a kind can be written that `content` does not know.
#[derive(Clone, Copy, PartialEq, Eq, Debug)]
pub struct Echo {
    pub unit: u64,
    pub times: u32,
}

impl Content for Echo {
    ghost size = { λ c. c.times };

    ghost counts = { λ _. true };

    ghost reach = { λ _. 0 };

    ghost units = { λ _ c. replicate c.times c.unit };

    ghost fore = { λ k c. record { unit = c.unit; times = k } };

    ghost rear = { λ k c. record { unit = c.unit; times = c.times - k } };

    ghost sized = { λ t c h. length-replicate c.times c.unit };

    ghost steady = { Prim.search rules };

    ghost halves = { λ k c low high.
        let lt : k < c.times = high in
        let whole : k + (c.times - k) ≡ c.times = omega arith in
        record {
          front = refl;
          sums = whole;
          left_counts = refl;
          right_counts = refl;
          left_reach = omega arith;
          right_reach = omega arith;
          joins = λ t h. replicate-append-replicate k (c.times - k) c.unit ∙ ap (λ n. replicate n c.unit) whole;
        } };

    fn len(&self) -> u32 {
        self.times
    }

    fn countable(&self) -> bool {
        true
    }

    fn fits(&self, _used: u32) -> bool {
        true
    }

    fn unit(&self, _words: &[u64], offset: u32) -> Option<u64> {
        (offset < self.times).then_some(self.unit)
    }

    fn cut(&self, k: u32) -> (Echo, Echo) {
        (
            Echo { times: k, ..*self },
            Echo {
                times: self.times - k,
                ..*self
            },
        )
    }
}

/// An echo from its unit and how often it comes.
impl Make<(u64, u32)> for Echo {
    ghost asks = { λ r. record { counts = true; units = replicate r.1 r.0; faulty = false; spent = λ _. [] } };

    fn make(recipe: (u64, u32), words: &mut [u64], used: u32) -> Result<Made<Echo>, Refusal> {
        let (unit, times) = recipe;
        judge(times as usize, false, 0, words.len(), used)?;
        Ok(Made {
            content: Echo { unit, times },
            used,
        })
    }
}
