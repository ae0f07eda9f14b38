ghost use Rattle.std.specs.Prelude.{◌≡◌, IfOk};
ghost use Rattle.std.specs.Option.{option_map};
ghost use Rattle.spelling.specs.Wanted.{wants, wanted_by, wanted_in};

use notation::numeral::{read_numbers, shorten};
use notation::words::{is_word, next_word};
use std::alloc::{AllocError, Global};

/// A content that a line wants made.
#[derive(Drop)]
pub enum Wanted {
    Clips(Vec<u64>),
    Text(Vec<u16>),
    Mark(u64),
    Gap(u64),
}

/// The content of that name with these numbers; none where the name is unknown or the numbers do not suit it.
fn wanted_by(heap: Global, name: &[u8], numbers: Vec<u64>) -> Result<Option<Wanted>, AllocError>
    ensures { IfOk result (λ o. option_map wants o ≡ wanted_by name.now numbers.items) }
{
    // No `match` on `b".."`: tried in `lines`' `read_named`, also with std's `text_from_reads`, and its arms stayed open.
    if is_word(name, b"clips") {
        return Ok(Some(Wanted::Clips(numbers)));
    }
    if is_word(name, b"text") {
        return Ok(shorten(heap, numbers.as_slice())?.map(Wanted::Text));
    }
    let [number] = numbers.as_slice() else {
        return Ok(None);
    };
    if is_word(name, b"mark") {
        Ok(Some(Wanted::Mark(*number)))
    } else if is_word(name, b"gap") {
        Ok(Some(Wanted::Gap(*number)))
    } else {
        Ok(None)
    }
}

/// The content that a line's words say: `clips`, `text`, `mark` or `gap`, and then numbers.
pub fn read_wanted(heap: Global, line: &[u8]) -> Result<Option<Wanted>, AllocError>
    ensures { IfOk result (λ o. option_map wants o ≡ wanted_in line.now) }
{
    let (name, rest) = next_word(line);
    let Some(numbers) = read_numbers(heap, rest)? else {
        return Ok(None);
    };
    wanted_by(heap, name, numbers)
}
