ghost use Rattle.std.specs.Prelude.{◌≡◌, ℕ, ◌^◌, ◌<◌, ◌≤◌, List, [], ◌∷◌, ◌++◌, length, drop};
ghost use Rattle.std.specs.Option.{option_map_or};
ghost use Rattle.leb128.specs.Leb128.{uleb};

use leb128::writer::{number_len, write_number};

/// What is written as bytes.
pub(crate) trait Encode {
    /// The bytes that are written for it.
    ghost bytes: { Self → List ℕ };

    /// How many bytes it takes.
    fn encoded_len(&self) -> usize
        requires { length (bytes self.now) < 2 ^ 64 }
        ensures { result ≡ length (bytes self.now) };

    /// Writes it to the front of a buffer that holds it, and says how many bytes it took.
    fn put(&self, part: &mut [u8]) -> usize
        requires { length (bytes self.now) ≤ length part.old }
        ensures count { result ≡ length (bytes self.now) }
        ensures bytes { part.new ≡ bytes self.now ++ drop (length (bytes self.now)) part.old };
}

/// A byte as it is.
impl Encode for u8 {
    ghost bytes = { λ b. b ∷ [] };

    fn encoded_len(&self) -> usize {
        1
    }

    fn put(&self, part: &mut [u8]) -> usize {
        part[0] = *self;
        1
    }
}

/// A number in its shortest form.
impl Encode for u64 {
    ghost bytes = { uleb };

    fn encoded_len(&self) -> usize {
        number_len(*self)
    }

    fn put(&self, part: &mut [u8]) -> usize {
        write_number(part, 0, *self).unwrap()
    }
}

/// Bytes as they are.
impl Encode for &[u8] {
    ghost bytes = { λ bs. bs.now };

    fn encoded_len(&self) -> usize {
        self.len()
    }

    fn put(&self, part: &mut [u8]) -> usize {
        let n = self.len();
        part[..n].copy_from_slice(*self);
        n
    }
}

/// One thing, and then another.
impl<A: Encode, B: Encode> Encode for (A, B) {
    ghost bytes = { λ p. A.bytes p.0 ++ B.bytes p.1 };

    fn encoded_len(&self) -> usize {
        self.0.encoded_len() + self.1.encoded_len()
    }

    fn put(&self, part: &mut [u8]) -> usize {
        let n = self.0.put(part);
        n + self.1.put(&mut part[n..])
    }
}

/// A thing, or no byte where there is none.
impl<T: Encode> Encode for Option<T> {
    ghost bytes = { λ o. option_map_or T.bytes o [] };

    fn encoded_len(&self) -> usize {
        match self {
            Some(x) => x.encoded_len(),
            None => 0,
        }
    }

    fn put(&self, part: &mut [u8]) -> usize {
        match self {
            Some(x) => x.put(part),
            None => 0,
        }
    }
}
