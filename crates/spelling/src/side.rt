ghost use Rattle.std.specs.Prelude.{◌≡◌, ◌++◌, OnOk};
ghost use Rattle.std.specs.Option.{option_map};
ghost use Rattle.source.specs.Meaning.{id_of, scope_of, side_of, start_of, end_of};
ghost use Rattle.spelling.specs.Sides.{clock_in, id_in, scope_in, side_in, id_text, scope_text, side_text, source_text};

use notation::numeral::read_number;
use notation::text::push_shown;
use notation::words::find_byte;
use source::id::Id;
use source::sticky_index::{Assoc, IndexScope, StickyIndex};
use source::weak::LinkSource;
use std::alloc::AllocError;

fn read_clock(word: &[u8]) -> Option<u32>
    ensures { result ≡ clock_in word.now }
{
    u32::try_from(read_number(word)?).ok()
}

/// The id that a word `CLIENT:CLOCK` says.
pub fn read_id(word: &[u8]) -> Option<Id>
    ensures { option_map id_of result ≡ id_in word.now }
{
    let (client, rest) = word.split_at(find_byte(word, b':'));
    let [_, clock @ ..] = rest else {
        return None;
    };
    let client = read_number(client)?;
    let clock = read_clock(clock)?;
    Some(Id { client, clock })
}

fn read_scope<'a>(word: &'a [u8]) -> Option<IndexScope<'a>>
    ensures { option_map scope_of result ≡ scope_in word.now }
{
    match word {
        [b'@', name @ ..] => Some(IndexScope::Root(name)),
        [b'#', list @ ..] => Some(IndexScope::Nested(read_id(list)?)),
        _ => Some(IndexScope::Relative(read_id(word)?)),
    }
}

/// The side that a word says: `-` or `+`, and then an anchor's id, `@` and a root name, or `#` and a nested list's id.
pub fn read_side<'a>(word: &'a [u8]) -> Option<StickyIndex<'a>>
    ensures { option_map side_of result ≡ side_in word.now }
{
    let (assoc, scope) = match word {
        [b'-', scope @ ..] => (Assoc::Before, scope),
        [b'+', scope @ ..] => (Assoc::After, scope),
        _ => return None,
    };
    let scope = read_scope(scope)?;
    Some(StickyIndex { scope, assoc })
}

/// Appends an id to a text: its client, a colon, its clock.
pub fn push_id(text: &mut Vec<u8>, id: Id) -> Result<(), AllocError>
    ensures { OnOk result (text.new.items ≡ text.old.items ++ id_text id.client id.clock) }
{
    push_shown(text, &id)
}

// A root's name is any bytes, so neither a scope nor a side nor a source is text that `Display` could write.
fn push_scope(text: &mut Vec<u8>, scope: IndexScope<'_>) -> Result<(), AllocError>
    ensures { OnOk result (text.new.items ≡ text.old.items ++ scope_text (scope_of scope.entry)) }
{
    match scope {
        IndexScope::Relative(id) => push_id(text, id),
        IndexScope::Nested(list) => push_shown(text, &format_args!("#{list}")),
        IndexScope::Root(name) => {
            text.push(b'@')?;
            text.extend_from_slice(name)
        }
    }
}

fn push_side(text: &mut Vec<u8>, side: StickyIndex<'_>) -> Result<(), AllocError>
    ensures { OnOk result (text.new.items ≡ text.old.items ++ side_text (side_of side.entry)) }
{
    match side.assoc {
        Assoc::Before => text.push(b'-')?,
        Assoc::After => text.push(b'+')?,
    }
    push_scope(text, side.scope)
}

/// Appends a source to a text: its start, a blank, its end.
pub fn push_source(text: &mut Vec<u8>, source: &LinkSource<'_>) -> Result<(), AllocError>
    ensures { OnOk result (text.new.items ≡ text.old.items ++ source_text (start_of source.now) (end_of source.now)) }
{
    push_side(text, source.start())?;
    text.push(b' ')?;
    push_side(text, source.end())
}
