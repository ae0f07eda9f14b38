// A content kind: what its contents mean, and the laws that hold of them.
ghost use Rattle.std.specs.Prelude.{◌≡◌, ℕ, ◌<◌, ◌≤◌, Bool, List, ◌++◌, length, nat_le};
ghost use Rattle.content.specs.Meaning.{told, Halves};

/// A content means a length, a yes or no, a reach and, over a table of words that it fits, its units.
/// It fits a table whose used words are no fewer than its reach. None of its calls changes anything.
pub trait Content: Copy {
    // How many units it has.
    ghost size: { Self → ℕ };

    // Whether its units are countable.
    ghost counts: { Self → Bool };

    // The place after the last word that it lies in, 0 if it lies in none.
    ghost reach: { Self → ℕ };

    // Its units over the used words.
    ghost units: { List ℕ → Self → List ℕ };

    // The first piece of a cut at an offset.
    ghost fore: { ℕ → Self → Self };

    // The other piece of that cut.
    ghost rear: { ℕ → Self → Self };

    /// How many units it has.
    fn len(&self) -> u32
        ensures { result ≡ size self.now };

    /// Whether its units are countable.
    fn countable(&self) -> bool
        ensures { result ≡ counts self.now };

    /// Whether it lies within the first `used` words.
    fn fits(&self, used: u32) -> bool
        ensures { result ≡ nat_le (reach self.now) used };

    /// The unit at `offset`, where `words` are the used words; nothing past the last unit or if it does not fit them.
    fn unit(&self, words: &[u64], offset: u32) -> Option<u64>
        ensures { result ≡ told (nat_le (reach self.now) (length words.now)) (size self.now) (units words.now self.now) offset };

    /// The first `k` units, and the others.
    fn cut(&self, k: u32) -> (Self, Self)
        requires positive { 0 < k }
        requires below { k < size self.now }
        ensures first { result.0 ≡ fore k self.now }
        ensures others { result.1 ≡ rear k self.now };

    // A content that fits has as many units as its length says.
    ghost sized: { (t : List ℕ) (c : Self) → reach c ≤ length t → length (units t c) ≡ size c };

    // Appended words change no unit of a content that fits. It still fits, since its reach is its own.
    ghost steady: { (t u : List ℕ) (c : Self) → reach c ≤ length t → units (t ++ u) c ≡ units t c };

    // A cut between two units splits the content exactly.
    ghost halves: { (k : ℕ) (c : Self) → 0 < k → k < size c → Halves size counts reach units k c (fore k c) (rear k c) };
}
