ghost use Rattle.std.specs.Prelude.{◌≡◌};
ghost use Rattle.record.specs.Told.{record_cause, record_number, record_offset, record_layer};
ghost use Rattle.record.specs.declared.fault.RecordFault.TheVariants.{Number};

use leb128::fault::NumberFault;

/// Why a record is not read, besides its numbers.
#[derive(Clone, Copy, PartialEq, Eq, Debug)]
pub enum RecordCause {
    /// The record ends inside a name or before a lone byte.
    Ends,
    /// A name is empty, too long, or has a byte that is not printable.
    Name,
    /// The first byte is not that of a weak link.
    Kind,
}

impl RecordCause {
    // A method, and no `From<RecordCause> for u8`: where it is called, `number()` says what the byte is, and `into()` would not.
    /// The refusal's number.
    pub fn number(self) -> u8
        ensures { result ≡ record_cause self }
    {
        match self {
            RecordCause::Ends => 17,
            RecordCause::Name => 1,
            RecordCause::Kind => 21,
        }
    }
}

/// A record that is not read: a number's fault whole, or one of its own with the offset where the name (that is, its count) or the lone byte begins.
#[derive(Clone, Copy, PartialEq, Eq, Debug)]
pub enum RecordFault {
    Number(NumberFault),
    Own(RecordCause, usize),
}

impl From<NumberFault> for RecordFault {
    ghost from_gives = { λ e r. r ≡ Number e };

    fn from(e: NumberFault) -> RecordFault {
        RecordFault::Number(e)
    }
}

/// The layer that tells a fault.
#[derive(Clone, Copy, PartialEq, Eq, Debug)]
pub enum Layer {
    Number,
    Record,
}

impl RecordFault {
    // A method, and no `From<RecordFault> for u8`: where it is called, `number()` says what the byte is, and `into()` would not.
    /// The refusal's number.
    pub fn number(self) -> u8
        ensures { result ≡ record_number self }
    {
        match self {
            RecordFault::Number(f) => f.cause.number(),
            RecordFault::Own(cause, _) => cause.number(),
        }
    }

    /// The offset where what failed begins.
    pub fn offset(self) -> usize
        ensures { result ≡ record_offset self }
    {
        match self {
            RecordFault::Number(f) => f.offset,
            RecordFault::Own(_, offset) => offset,
        }
    }

    /// The layer that tells it.
    pub fn layer(self) -> Layer
        ensures { result ≡ record_layer self }
    {
        match self {
            RecordFault::Number(_) => Layer::Number,
            RecordFault::Own(_, _) => Layer::Record,
        }
    }
}
