ghost use Rattle.std.specs.Prelude.{◌≡◌};
ghost use Rattle.leb128.specs.Fields.{max_len, limit};

/// What a number stands for; it decides how many bytes the number may take, and which values it may have.
#[derive(Clone, Copy, PartialEq, Eq, Debug)]
pub enum NumberField {
    Client,
    Clock,
    Count,
}

impl NumberField {
    // Two tables, and none of pairs: a caller of the one would take each pair apart.
    /// How many bytes the number may take.
    pub fn max_len(self) -> usize
        ensures { result ≡ max_len self }
    {
        match self {
            NumberField::Client => 10,
            NumberField::Clock => 5,
            NumberField::Count => 5,
        }
    }

    /// The number is below this limit.
    pub fn limit(self) -> u64
        ensures { result ≡ limit self }
    {
        match self {
            NumberField::Client => 0x20_0000_0000_0000,
            NumberField::Clock => 0x1_0000_0000,
            NumberField::Count => 0x1_0000_0000,
        }
    }
}
