// Cutting any content at several offsets, from the laws of a kind alone.
ghost use Rattle.std.specs.Prelude.{◌≡◌, ◌+◌, true, ◌&&◌, map, length, if◌then◌else◌, ◌==◌};
ghost use Rattle.content.specs.Pieces.{rising, cut_up, lengths, MakeWhole};

use crate::content::Content;

// Whether the offsets rise strictly, the first above 0 and the last below `len`.
fn rises(offsets: &[u32], len: u32) -> bool
    ensures { result ≡ rising 0 offsets.now len }
{
    let mut low = 0;
    for &k in offsets {
        if k <= low || k >= len {
            return false;
        }
        low = k;
    }
    true
}

// Cuts at each of the offsets, which rise, where `pieces` has a place for each piece.
fn cut_each<C: Content>(content: &C, offsets: &[u32], pieces: &mut [C])
    requires rise { rising 0 offsets.now (C.Content.size content.now) ≡ true }
    requires room { length pieces.old ≡ length offsets.now + 1 }
    ensures { pieces.new ≡ cut_up C.Content 0 offsets.now content.now }
{
    let mut rest = *content;
    let mut done = 0;
    for (i, &k) in offsets.iter().enumerate() {
        let (piece, others) = rest.cut(k - done);
        // Written by its place: of what is written through a zipped `iter_mut` the proof knows nothing.
        pieces[i] = piece;
        rest = others;
        done = k;
    }
    pieces[offsets.len()] = rest;
}

/// Cuts a content at each of the offsets. The units of the pieces, put together, are those of the whole.
/// Answers no, and writes nothing, if the offsets do not rise strictly inside the content
/// or `pieces` does not have just one place more than there are offsets.
// A bool and no Result: there is one refusal, and nothing to tell of it.
pub fn cut_into_pieces<C: Content>(content: &C, offsets: &[u32], pieces: &mut [C]) -> bool
    ensures answer { result ≡ (rising 0 offsets.now (C.Content.size content.now) && length pieces.old == length offsets.now + 1) }
    ensures written { pieces.new ≡ (if result then cut_up C.Content 0 offsets.now content.now else pieces.old) }
    ensures sized { result ≡ true → map C.Content.size pieces.new ≡ lengths 0 offsets.now (C.Content.size content.now) }
    ensures whole { result ≡ true → MakeWhole C.Content pieces.new content.now }
{
    if !rises(offsets, content.len()) || pieces.len() != offsets.len() + 1 {
        return false;
    }
    cut_each(content, offsets, pieces);
    true
}
