ghost use Rattle.std.specs.Prelude.{◌≡◌, IfOk, drop};
ghost use Rattle.std.specs.Option.{option_map};
ghost use Rattle.lines.specs.Asked.{line_of};
ghost use Rattle.lines.specs.Lines.{plain_in, line_in};

use crate::call::{Call, read_named};
use crate::contents::{read_insert, read_make};
use crate::parts::{read_lone_id, read_numbers};
use notation::words::{is_word, next_word};
use source::id::Id;
use spelling::wanted::Wanted;
use std::alloc::{AllocError, Global};

/// Where a content is inserted: in which list, by which client and at which index.
#[derive(Clone, Copy, PartialEq, Eq, Debug)]
pub struct Spot {
    pub list: u64,
    pub client: u64,
    pub index: u64,
}

/// What a line asks for. A list goes by its number.
#[derive(Drop)]
pub enum Line<'a> {
    /// A new document over that many block records and unit words.
    Document(u64, u64),
    /// The opening of the list of a name.
    Open(&'a [u8]),
    /// A content to be kept under a word.
    Make(&'a [u8], Wanted),
    /// A content to be inserted.
    Insert(Spot, Wanted),
    /// The same of the content that is kept under a word.
    InsertKept(Spot, &'a [u8]),
    /// A removal: the list, the index and how many units.
    Remove(u64, u64, u64),
    /// A cut at an id.
    Cut(Id),
    /// How many live links hold an id.
    Links(Id),
    /// A list's blocks.
    Blocks(u64),
    /// The origins of a list's blocks.
    Origins(u64),
    /// A call that needs no document.
    Call(Call<'a>),
}

/// The name of a list, which is all that follows one blank.
fn read_open<'a>(rest: &'a [u8]) -> &'a [u8]
    ensures { result.now ≡ drop 1 rest.now }
{
    match rest {
        [_, name @ ..] => name,
        [] => rest,
    }
}

/// The call of that name which has no content and needs a document, by what stands after its name.
fn read_plain<'a>(name: &[u8], rest: &'a [u8]) -> Option<Line<'a>>
    ensures { option_map line_of result ≡ plain_in name.now rest.now }
{
    // No `match` on `b".."`: tried in `lines`' `read_named`, also with std's `text_from_reads`, and its arms stayed open.
    if is_word(name, b"open") {
        Some(Line::Open(read_open(rest)))
    } else if is_word(name, b"document") {
        let [blocks, words] = read_numbers::<2>(rest)?;
        Some(Line::Document(blocks, words))
    } else if is_word(name, b"remove") {
        let [list, index, count] = read_numbers::<3>(rest)?;
        Some(Line::Remove(list, index, count))
    } else if is_word(name, b"blocks") {
        let [list] = read_numbers::<1>(rest)?;
        Some(Line::Blocks(list))
    } else if is_word(name, b"origins") {
        let [list] = read_numbers::<1>(rest)?;
        Some(Line::Origins(list))
    } else if is_word(name, b"cut") {
        Some(Line::Cut(read_lone_id(rest)?))
    } else if is_word(name, b"links") {
        Some(Line::Links(read_lone_id(rest)?))
    } else {
        None
    }
}

/// The call that a line says; none where it says none.
pub fn read_line<'a>(heap: Global, line: &'a [u8]) -> Result<Option<Line<'a>>, AllocError>
    ensures { IfOk result (λ o. option_map line_of o ≡ line_in line.now) }
{
    let (name, rest) = next_word(line);
    // No `match` on `b".."`: tried in `lines`' `read_named`, also with std's `text_from_reads`, and its arms stayed open.
    if is_word(name, b"make") {
        return read_make(heap, rest);
    }
    if is_word(name, b"insert") {
        return read_insert(heap, rest);
    }
    if let Some(call) = read_named(heap, name, rest)? {
        return Ok(Some(Line::Call(call)));
    }
    Ok(read_plain(name, rest))
}
