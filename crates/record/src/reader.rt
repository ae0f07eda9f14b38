ghost use Rattle.std.specs.Prelude.{◌≡◌, ℕ, ◌+◌, ◌-◌, ◌<◌, ◌≤◌, true, List, ◌++◌, length, IfOk, Ok, Err, MatchResult};
ghost use Rattle.source.specs.Meaning.{Side, scope_of, id_of, start_of, end_of};
ghost use Rattle.leb128.specs.Fields.{limit};
ghost use Rattle.leb128.specs.Reading.{number_at};
ghost use Rattle.record.specs.Flagged.{opens, names};
ghost use Rattle.record.specs.Decoding.{id_at, name_at, scope_at, fields, decode};
ghost use Rattle.record.specs.Forms.{RecordForm};
ghost use Rattle.record.specs.Settled.{settled, last_record, SettledAt};

use crate::fault::{RecordCause, RecordFault};
use crate::flags::{Flags, Form};
use crate::name::take_name;
use leb128::fault::NumberFault;
use leb128::field::NumberField;
use leb128::reader::read_number;
use source::id::Id;
use source::sticky_index::{IndexScope, StickyIndex};
use source::weak::LinkSource;

/// Bytes that are read one piece after another, and the place where the next piece begins.
#[derive(Drop)]
struct Reader<'a> {
    bytes: &'a [u8],
    at: usize,
    ghost within: { at ≤ length bytes.now },
}

impl<'a> Reader<'a> {
    ghost use Rattle.record.specs.Cursor.{Takes};

    /// Takes a number.
    fn number(&mut self, field: NumberField) -> Result<u64, NumberFault>
        ensures same { self.new.bytes ≡ self.old.bytes }
        ensures read { MatchResult result (λ v. (number_at field self.old.bytes.now self.old.at ≡ Ok (v, self.new.at - self.old.at)) × (self.old.at ≤ self.new.at) × (v < limit field)) (λ e. number_at field self.old.bytes.now self.old.at ≡ Err e) }
    {
        let (value, n) = read_number(self.bytes, self.at, field)?;
        self.at += n;
        Ok(value)
    }

    /// Takes an id: a client and a clock.
    fn id(&mut self) -> Result<Id, NumberFault>
        ensures { Takes id_of id_at self.old result self.new }
    {
        let client = self.number(NumberField::Client)?;
        let clock = self.number(NumberField::Clock)?;
        Ok(Id {
            client,
            clock: clock as u32,
        })
    }

    /// Takes a name, its byte count first.
    fn name(&mut self) -> Result<&'a [u8], RecordFault>
        ensures { Takes (λ name. name.now) name_at self.old result self.new }
    {
        let start = self.at;
        let count = self.number(NumberField::Count)? as usize;
        let rest = &self.bytes[self.at..];
        let name = take_name(rest, count).map_err(|cause| RecordFault::Own(cause, start))?;
        self.at += count;
        Ok(name)
    }

    /// Takes a scope of a form: an anchor, or open by root name or by nested list.
    fn scope(&mut self, form: Form) -> Result<IndexScope<'a>, RecordFault>
        ensures { Takes scope_of (scope_at (opens form) (names form)) self.old result self.new }
    {
        match form {
            Form::Anchor => Ok(IndexScope::Relative(self.id()?)),
            Form::Nested => Ok(IndexScope::Nested(self.id()?)),
            Form::Root => Ok(IndexScope::Root(self.name()?)),
        }
    }
}

/// Reads byte by byte what `decode` says.
fn read_record<'a>(bytes: &'a [u8]) -> Result<(LinkSource<'a>, usize), RecordFault>
    ensures { MatchResult result (λ p. (decode bytes.now ≡ Ok ((start_of p.0, end_of p.0), p.1)) × (p.1 ≤ length bytes.now)) (λ e. decode bytes.now ≡ Err e) }
{
    let flags = match bytes {
        [] => return Err(RecordFault::Own(RecordCause::Ends, 0)),
        [7] => return Err(RecordFault::Own(RecordCause::Ends, 1)),
        [7, flags, ..] => Flags::from(*flags),
        _ => return Err(RecordFault::Own(RecordCause::Kind, 0)),
    };
    let mut reader = Reader { bytes, at: 2 };
    let first = reader.scope(flags.start)?;
    let last = match flags.end {
        Some(form) => reader.scope(form)?,
        None => first,
    };
    let start = StickyIndex {
        scope: first,
        assoc: flags.start_assoc,
    };
    let end = StickyIndex {
        scope: last,
        assoc: flags.end_assoc,
    };
    Ok((LinkSource::new(start, end).unwrap(), reader.at))
}

/// Reads the weak-link record that bytes begin with: its source, and how many bytes it takes.
///
/// What is accepted is a form of the source's record, and every such form is accepted, whatever stands after it.
/// What is read, and any fault but that the bytes end, stays whatever bytes come after, and is told at the byte that causes it.
pub fn decode_weak_link<'a>(bytes: &'a [u8]) -> Result<(LinkSource<'a>, usize), RecordFault>
    ensures exact { MatchResult result (λ p. (decode bytes.now ≡ Ok ((start_of p.0, end_of p.0), p.1)) × (p.1 ≤ length bytes.now)) (λ e. decode bytes.now ≡ Err e) }
    ensures formed { IfOk result (λ p. (front : List ℕ) × (rest : List ℕ) × (bytes.now ≡ front ++ rest) × RecordForm front (start_of p.0) (end_of p.0) × (length front ≡ p.1)) }
    ensures every { (front rest : List ℕ) (s e : Side) → bytes.now ≡ front ++ rest → RecordForm front s e → MatchResult result (λ p. (start_of p.0 ≡ s) × (end_of p.0 ≡ e) × (p.1 ≡ length front)) (λ _. ⊥) }
    ensures stays { (more : List ℕ) → settled last_record (decode bytes.now) ≡ true → decode (bytes.now ++ more) ≡ decode bytes.now }
    ensures first { settled last_record (decode bytes.now) ≡ true → SettledAt bytes.now }
{
    read_record(bytes)
}
