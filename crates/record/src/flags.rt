ghost use Rattle.std.specs.Prelude.{◌≡◌};
ghost use Rattle.source.specs.Meaning.{sticks_after};
ghost use Rattle.record.specs.Flagged.{form_of, FlagsOf};

use source::sticky_index::Assoc;

/// How a scope is written: as an anchor, or open on a nested list or on a root list.
#[derive(Clone, Copy)]
pub(crate) enum Form {
    Anchor,
    Nested,
    Root,
}

impl Form {
    fn of(opened: bool, named: bool) -> Form
        ensures { result ≡ form_of opened named }
    {
        match (opened, named) {
            (false, _) => Form::Anchor,
            (true, false) => Form::Nested,
            (true, true) => Form::Root,
        }
    }
}

// A function, and no `From<bool>`: `Assoc::from(true)` would not say that true is After.
fn assoc_of(after: bool) -> Assoc
    ensures { sticks_after result ≡ after }
{
    if after { Assoc::After } else { Assoc::Before }
}

/// What a flag byte says of its record.
#[derive(Clone, Copy)]
pub(crate) struct Flags {
    pub start: Form,
    pub start_assoc: Assoc,
    /// None where the end's scope is the start's.
    pub end: Option<Form>,
    pub end_assoc: Assoc,
}

impl From<u8> for Flags {
    ghost from_gives = { FlagsOf };

    fn from(byte: u8) -> Flags {
        let many = byte & 0x01 != 0;
        let end_open = byte & 0x10 != 0;
        let named = byte & 0x20 != 0;
        Flags {
            start: Form::of(byte & 0x08 != 0, named),
            start_assoc: assoc_of(byte & 0x02 != 0),
            end: (end_open || many).then_some(Form::of(end_open, named)),
            end_assoc: assoc_of(byte & 0x04 != 0),
        }
    }
}
