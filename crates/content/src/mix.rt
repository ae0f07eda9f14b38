// A mix holds a content of one of two kinds, and means what that content means.
ghost use Rattle.content.specs.Either.{either, fill};
ghost use Rattle.content.specs.declared.mix.Mix.TheVariants.{One, Other};
ghost use Rattle.std.proofs.Common.{rules};

use crate::content::Content;

// No `Result` and no `Either`, though of their shape: the one would call a content of the other kind an error, and the other says no more.
/// A content of the one kind or of the other.
#[derive(Clone, Copy, PartialEq, Eq, Debug)]
pub enum Mix<A, B> {
    One(A),
    Other(B),
}

// Five matches: each method asks the part's own method of that name, so that none can stand for another.
impl<A: Content, B: Content> Content for Mix<A, B> {
    ghost size = { either A.Content.size B.Content.size };

    ghost counts = { either A.Content.counts B.Content.counts };

    ghost reach = { either A.Content.reach B.Content.reach };

    ghost units = { λ t. either (A.Content.units t) (B.Content.units t) };

    ghost fore = { λ k. fill (A.Content.fore k) (B.Content.fore k) };

    ghost rear = { λ k. fill (A.Content.rear k) (B.Content.rear k) };

    ghost sized = { Prim.search rules };

    ghost steady = { Prim.search rules };

    ghost halves = { λ k.
        elim [
          | One a ↦
              λ low high.
              let h = A.Content.halves k a low high in
              record { front = h.front; sums = h.sums; left_counts = h.left_counts; right_counts = h.right_counts; left_reach = h.left_reach; right_reach = h.right_reach; joins = h.joins }
          | Other b ↦
              λ low high.
              let h = B.Content.halves k b low high in
              record { front = h.front; sums = h.sums; left_counts = h.left_counts; right_counts = h.right_counts; left_reach = h.left_reach; right_reach = h.right_reach; joins = h.joins }
        ] };

    fn len(&self) -> u32 {
        match self {
            Mix::One(a) => a.len(),
            Mix::Other(b) => b.len(),
        }
    }

    fn countable(&self) -> bool {
        match self {
            Mix::One(a) => a.countable(),
            Mix::Other(b) => b.countable(),
        }
    }

    fn fits(&self, used: u32) -> bool {
        match self {
            Mix::One(a) => a.fits(used),
            Mix::Other(b) => b.fits(used),
        }
    }

    fn unit(&self, words: &[u64], offset: u32) -> Option<u64> {
        match self {
            Mix::One(a) => a.unit(words, offset),
            Mix::Other(b) => b.unit(words, offset),
        }
    }

    fn cut(&self, k: u32) -> (Mix<A, B>, Mix<A, B>) {
        match self {
            Mix::One(a) => {
                let (l, r) = a.cut(k);
                (Mix::One(l), Mix::One(r))
            }
            Mix::Other(b) => {
                let (l, r) = b.cut(k);
                (Mix::Other(l), Mix::Other(r))
            }
        }
    }
}
