ghost use Rattle.std.specs.Prelude.{[], ◌∷◌, ◌++◌, Some, decimal};

use std::fmt;

/// A client and a clock. Any 64-bit client may stand here: whether it is below 2^53 is told where an id is written, read or inserted.
#[derive(Clone, Copy, PartialEq, Eq, Debug)]
pub struct Id {
    pub client: u64,
    pub clock: u32,
}

/// An id as people write it: `1:4` is clock 4 of client 1.
impl fmt::Display for Id {
    ghost output = { λ id. Some (decimal id.client ++ 0x3A ∷ decimal id.clock) };

    fn fmt<W: fmt::Write>(&self, f: &mut fmt::Formatter<W>) -> fmt::Result {
        let client = self.client;
        let clock = self.clock;
        write!(f, "{client}:{clock}")
    }
}
