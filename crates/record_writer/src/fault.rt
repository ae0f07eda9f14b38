ghost use Rattle.std.specs.Prelude.{◌≡◌};
ghost use Rattle.record_writer.specs.Told.{write_fault};

/// Why a source is not written.
#[derive(Clone, Copy, PartialEq, Eq, Debug)]
pub enum WriteFault {
    /// A name is empty, too long, or has a byte that is not printable.
    Name,
    /// A client of 2^53 or more.
    Client,
    /// The buffer is too short from that place on.
    Room,
}

impl WriteFault {
    // A method, and no `From<WriteFault> for u8`: where it is called, `number()` says what the byte is, and `into()` would not.
    /// The refusal's number.
    pub fn number(self) -> u8
        ensures { result ≡ write_fault self }
    {
        match self {
            WriteFault::Name => 1,
            WriteFault::Client => 4,
            WriteFault::Room => 20,
        }
    }
}
