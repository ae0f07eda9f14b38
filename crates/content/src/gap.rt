// A gap is units that are not countable, each of them 0, and holds no word.
ghost use Rattle.std.specs.Prelude.{◌≡◌, ◌+◌, ◌-◌, ◌<◌, false, replicate, refl};
ghost use Rattle.std.proofs.lemmas.List.{length-replicate, replicate-append-replicate};
ghost use Rattle.std.proofs.Common.{ap, ◌∙◌, arith, rules};

use crate::content::Content;

/// As many uncountable units 0 as `len` says.
#[derive(Clone, Copy, PartialEq, Eq, Debug)]
pub struct Gap {
    pub len: u32,
}

impl Content for Gap {
    ghost size = { λ c. c.len };

    ghost counts = { λ _. false };

    ghost reach = { λ _. 0 };

    ghost units = { λ _ c. replicate c.len 0 };

    ghost fore = { λ k _. record { len = k } };

    ghost rear = { λ k c. record { len = c.len - k } };

    ghost sized = { λ t c h. length-replicate c.len 0 };

    ghost steady = { Prim.search rules };

    ghost halves = { λ k c low high.
        let lt : k < c.len = high in
        let whole : k + (c.len - k) ≡ c.len = omega arith in
        record {
          front = refl;
          sums = whole;
          left_counts = refl;
          right_counts = refl;
          left_reach = omega arith;
          right_reach = omega arith;
          joins = λ t h. replicate-append-replicate k (c.len - k) 0 ∙ ap (λ n. replicate n 0) whole;
        } };

    fn len(&self) -> u32 {
        self.len
    }

    fn countable(&self) -> bool {
        false
    }

    fn fits(&self, _used: u32) -> bool {
        true
    }

    fn unit(&self, _words: &[u64], offset: u32) -> Option<u64> {
        (offset < self.len).then_some(0)
    }

    fn cut(&self, k: u32) -> (Gap, Gap) {
        (Gap { len: k }, Gap { len: self.len - k })
    }
}
