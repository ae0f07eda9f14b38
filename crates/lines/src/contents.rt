ghost use Rattle.std.specs.Prelude.{◌≡◌, IfOk};
ghost use Rattle.std.specs.Option.{option_map};
ghost use Rattle.lines.specs.Asked.{line_of};
ghost use Rattle.lines.specs.Contents.{make_in, spot_in, kept_in, insert_in};

use crate::line::{Line, Spot};
use crate::parts::{is_ended, read_front};
use notation::words::next_word;
use spelling::wanted::read_wanted;
use std::alloc::{AllocError, Global};

/// The call `make WORD CONTENT`, after its name.
pub(crate) fn read_make<'a>(heap: Global, rest: &'a [u8]) -> Result<Option<Line<'a>>, AllocError>
    ensures { IfOk result (λ o. option_map line_of o ≡ make_in rest.now) }
{
    let (word, rest) = next_word(rest);
    let Some(wanted) = read_wanted(heap, rest)? else {
        return Ok(None);
    };
    Ok(Some(Line::Make(word, wanted)))
}

/// Where a line inserts, and what stands after that.
fn read_spot<'a>(line: &'a [u8]) -> Option<(Spot, &'a [u8])>
    ensures { option_map (λ p. (p.0.list, p.0.client, p.0.index, p.1.now)) result ≡ spot_in line.now }
{
    let (list, rest) = read_front(line)?;
    let (client, rest) = read_front(rest)?;
    let (index, rest) = read_front(rest)?;
    let spot = Spot {
        list,
        client,
        index,
    };
    Some((spot, rest))
}

/// The word that a line `=WORD` names, and nothing more.
fn read_kept<'a>(line: &'a [u8]) -> Option<&'a [u8]>
    ensures { option_map (λ w. w.now) result ≡ kept_in line.now }
{
    let (word, rest) = next_word(line);
    match word {
        [_, kept @ ..] if is_ended(rest) && !kept.is_empty() => Some(kept),
        _ => None,
    }
}

/// The call `insert L CLIENT INDEX CONTENT` or `insert L CLIENT INDEX =WORD`, after its name.
pub(crate) fn read_insert<'a>(heap: Global, rest: &'a [u8]) -> Result<Option<Line<'a>>, AllocError>
    ensures { IfOk result (λ o. option_map line_of o ≡ insert_in rest.now) }
{
    let Some((spot, rest)) = read_spot(rest) else {
        return Ok(None);
    };
    let (word, _) = next_word(rest);
    if let [b'=', ..] = word {
        let Some(kept) = read_kept(rest) else {
            return Ok(None);
        };
        return Ok(Some(Line::InsertKept(spot, kept)));
    }
    let Some(wanted) = read_wanted(heap, rest)? else {
        return Ok(None);
    };
    Ok(Some(Line::Insert(spot, wanted)))
}
