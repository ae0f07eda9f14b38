ghost use Rattle.std.specs.Prelude.{◌≡◌, IfOk};
ghost use Rattle.std.specs.Option.{option_map};
ghost use Rattle.source.specs.Meaning.{start_of, end_of};
ghost use Rattle.lines.specs.Calls.{call_of, source_in, write_in, decode_in, pieces_in, named_in, call_in};

use crate::parts::{is_ended, read_front};
use notation::hex::is_hex;
use notation::words::{is_word, next_word};
use source::weak::LinkSource;
use spelling::side::read_side;
use spelling::wanted::{Wanted, read_wanted};
use std::alloc::{AllocError, Global};

/// A call that needs no document.
#[derive(Drop)]
pub enum Call<'a> {
    /// The record of a source.
    Write(LinkSource<'a>),
    /// The source that a record holds; its bytes as hexadecimal digits.
    Decode(&'a [u8]),
    /// The pieces of a content, cut at an offset.
    Pieces(u64, Wanted),
}

/// The source from the side that one word says to the side that the other says.
fn read_source<'a>(start: &'a [u8], end: &'a [u8]) -> Option<LinkSource<'a>>
    ensures { option_map (λ s. (start_of s, end_of s)) result ≡ source_in start.now end.now }
{
    let start = read_side(start)?;
    let end = read_side(end)?;
    LinkSource::new(start, end)
}

/// The call `write START END`, after its name.
fn read_write<'a>(rest: &'a [u8]) -> Option<Call<'a>>
    ensures { option_map call_of result ≡ write_in rest.now }
{
    let (start, rest) = next_word(rest);
    let (end, rest) = next_word(rest);
    if !is_ended(rest) {
        return None;
    }
    Some(Call::Write(read_source(start, end)?))
}

/// The call `decode HEX`, after its name; without bytes it is an empty record.
fn read_decode<'a>(rest: &'a [u8]) -> Option<Call<'a>>
    ensures { option_map call_of result ≡ decode_in rest.now }
{
    let (bytes, rest) = next_word(rest);
    if is_ended(rest) && is_hex(bytes) {
        Some(Call::Decode(bytes))
    } else {
        None
    }
}

/// The call `pieces OFFSET CONTENT`, after its name.
fn read_pieces<'a>(heap: Global, rest: &'a [u8]) -> Result<Option<Call<'a>>, AllocError>
    ensures { IfOk result (λ o. option_map call_of o ≡ pieces_in rest.now) }
{
    let Some((offset, rest)) = read_front(rest) else {
        return Ok(None);
    };
    let Some(wanted) = read_wanted(heap, rest)? else {
        return Ok(None);
    };
    Ok(Some(Call::Pieces(offset, wanted)))
}

/// The call of that name, by what stands after its name.
pub(crate) fn read_named<'a>(
    heap: Global,
    name: &[u8],
    rest: &'a [u8],
) -> Result<Option<Call<'a>>, AllocError>
    ensures { IfOk result (λ o. option_map call_of o ≡ named_in name.now rest.now) }
{
    // Tried as a `match` on `b".."`, also with std's `text_from_reads`: the arms stayed open.
    if is_word(name, b"write") {
        Ok(read_write(rest))
    } else if is_word(name, b"decode") {
        Ok(read_decode(rest))
    } else if is_word(name, b"pieces") {
        read_pieces(heap, rest)
    } else {
        Ok(None)
    }
}

/// The call that a line says; none where it says none that needs no document.
pub fn read_call<'a>(heap: Global, line: &'a [u8]) -> Result<Option<Call<'a>>, AllocError>
    ensures { IfOk result (λ o. option_map call_of o ≡ call_in line.now) }
{
    let (name, rest) = next_word(line);
    read_named(heap, name, rest)
}
