ghost use Rattle.std.specs.Prelude.{◌≡◌};
ghost use Rattle.leb128.specs.Told.{number_cause, no_room};

/// Why a number is not read.
#[derive(Clone, Copy, PartialEq, Eq, Debug)]
pub enum NumberCause {
    /// The bytes end inside the number.
    Ends,
    /// The number is too long, or not below its limit.
    Large,
}

impl NumberCause {
    // A method, and no `From<NumberCause> for u8`: where it is called, `number()` says what the byte is, and `into()` would not.
    /// The refusal's number.
    pub fn number(self) -> u8
        ensures { result ≡ number_cause self }
    {
        match self {
            NumberCause::Ends => 17,
            NumberCause::Large => 18,
        }
    }
}

/// A number that is not read, and the offset where it begins.
#[derive(Clone, Copy, PartialEq, Eq, Debug)]
pub struct NumberFault {
    pub cause: NumberCause,
    pub offset: usize,
}

/// The buffer is too short from that place on.
#[derive(Clone, Copy, PartialEq, Eq, Debug)]
pub struct NoRoom;

impl NoRoom {
    // A method, and no `From<NoRoom> for u8`: where it is called, `number()` says what the byte is, and `into()` would not.
    /// The refusal's number.
    pub fn number(self) -> u8
        ensures { result ≡ no_room }
    {
        20
    }
}
