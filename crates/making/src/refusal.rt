// Why a making is refused.
ghost use Rattle.std.specs.Prelude.{◌≡◌};
ghost use Rattle.making.specs.Verdicts.{refusal_number, refused, verdict};

// The most units that one making takes.
const MOST_UNITS: usize = 65_536;

// The most words of a table that are ever used.
const MOST_WORDS: usize = 65_536;

/// Why nothing was made.
#[derive(Clone, Copy, PartialEq, Eq, Debug)]
pub enum Refusal {
    /// Length 0 or above 65,536.
    LengthOutside,
    /// A text unit D800 to DFFF.
    SurrogateUnit,
    /// Too few free words.
    TooFewWords,
}

impl Refusal {
    // A method, and no `From<Refusal> for u8`: where it is called, `number()` says what the byte is, and `into()` would not.
    /// The number that stands for it: 6, 9 or 8.
    pub fn number(&self) -> u8
        ensures { result ≡ refusal_number self.now }
    {
        match self {
            Refusal::LengthOutside => 6,
            Refusal::SurrogateUnit => 9,
            Refusal::TooFewWords => 8,
        }
    }
}

/// Whether `units` units, with a `faulty` one among them or none, that take `words` words, may be made
/// in a table of `len` words of which `used` are used: the length is tested first, then the units, then the room.
// A length and a count, and no table: nothing is read of it, and what has no words is judged over none.
// A flag for the units, and no check that answers by itself: theirs is the test between the other two.
pub fn judge(units: usize, faulty: bool, words: usize, len: usize, used: u32) -> Result<(), Refusal>
    ensures { refused result ≡ verdict units faulty words len used }
{
    if units == 0 || units > MOST_UNITS {
        return Err(Refusal::LengthOutside);
    }
    if faulty {
        return Err(Refusal::SurrogateUnit);
    }
    if len.min(MOST_WORDS).saturating_sub(used as usize) < words {
        return Err(Refusal::TooFewWords);
    }
    Ok(())
}
