// A mark is one unit that is not countable, and holds no word.
ghost use Rattle.std.specs.Prelude.{◌≡◌, false, [], ◌∷◌};
ghost use Rattle.std.proofs.Common.{rules};

use crate::content::Content;

/// One uncountable unit.
#[derive(Clone, Copy, PartialEq, Eq, Debug)]
pub struct Mark {
    pub unit: u64,
}

impl Content for Mark {
    ghost size = { λ _. 1 };

    ghost counts = { λ _. false };

    ghost reach = { λ _. 0 };

    ghost units = { λ _ c. c.unit ∷ [] };

    ghost fore = { λ _ c. c };

    ghost rear = { λ _ c. c };

    ghost sized = { Prim.search rules };

    ghost steady = { Prim.search rules };

    ghost halves = { Prim.search rules };

    fn len(&self) -> u32 {
        1
    }

    fn countable(&self) -> bool {
        false
    }

    fn fits(&self, _used: u32) -> bool {
        true
    }

    fn unit(&self, _words: &[u64], offset: u32) -> Option<u64> {
        (offset == 0).then_some(self.unit)
    }

    // No k lies between 0 and the length 1, so that this asks nothing: at any k each piece is the mark itself.
    fn cut(&self, _k: u32) -> (Mark, Mark)
        ensures first { result.0 ≡ self.now }
        ensures others { result.1 ≡ self.now }
    {
        (*self, *self)
    }
}
