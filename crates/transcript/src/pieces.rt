ghost use Rattle.std.specs.Prelude.{◌≡◌, ◌<◌, ◌≤◌, min, ◌++◌, length, OnOk};
ghost use Rattle.spelling.specs.Wanted.{wants};
ghost use Rattle.transcript.specs.Pieces.{asked, units_text, halves_text, cut_text, free_table, pieces_text};

use content::clip_run::ClipRun;
use content::content::Content;
use content::gap::Gap;
use content::mark::Mark;
use content::text_run::TextRun;
use making::make::Make;
use notation::text::push_shown;
use replies::refusal::push_refusal;
use spelling::wanted::Wanted;
use std::alloc::AllocError;

// A number and no enum: of the script's own refusals this is the only one.
/// The refusal of an offset at which nothing can be cut.
const UNCUT: u8 = 10;

/// Appends the units of a content, a blank before each.
fn push_units<C: Content>(text: &mut Vec<u8>, content: &C, words: &[u64]) -> Result<(), AllocError>
    requires { C.Content.reach content.now ≤ length words.now }
    ensures { OnOk result (text.new.items ≡ text.old.items ++ units_text (C.Content.units words.now content.now)) }
{
    // A content is no slice: it gives each unit by its place, out of the words.
    for k in 0..content.len() {
        let unit = content.unit(words, k).unwrap();
        push_shown(text, &format_args!(" {unit}"))?;
    }
    Ok(())
}

/// Appends the units of both pieces of a content, cut at an offset.
fn push_halves<C: Content>(
    text: &mut Vec<u8>,
    content: &C,
    offset: u32,
    words: &[u64],
) -> Result<(), AllocError>
    requires some { 0 < offset }
    requires inside { offset < C.Content.size content.now }
    requires fits { C.Content.reach content.now ≤ length words.now }
    ensures { OnOk result (text.new.items ≡ text.old.items ++ halves_text offset (C.Content.units words.now content.now)) }
{
    let (fore, rear) = content.cut(offset);
    text.extend_from_slice(b"pieces")?;
    push_units(text, &fore, words)?;
    text.extend_from_slice(b" |")?;
    push_units(text, &rear, words)
}

/// Appends both pieces' units of a content in the used words; an offset at which it cannot be cut is refused.
fn push_cut<C: Content>(
    text: &mut Vec<u8>,
    content: &C,
    offset: u64,
    words: &[u64],
) -> Result<(), AllocError>
    requires { C.Content.reach content.now ≤ length words.now }
    ensures { OnOk result (text.new.items ≡ text.old.items ++ cut_text offset (C.Content.units words.now content.now)) }
{
    if 0 < offset && offset < u64::from(content.len()) {
        push_halves(text, content, offset as u32, words)
    } else {
        push_refusal(text, UNCUT)
    }
}

/// The number itself, or the largest of 32 bits.
fn saturated(n: u64) -> u32
    ensures { result ≡ min n 0xFFFF_FFFF }
{
    u32::try_from(n).unwrap_or(u32::MAX)
}

/// Makes a content in a table of free words, all 0, and appends its pieces' units; or why not.
fn push_made<R, C: Make<R>>(
    text: &mut Vec<u8>,
    offset: u64,
    recipe: R,
    words: &mut [u64],
) -> Result<(), AllocError>
    requires { words.old ≡ free_table }
    ensures { OnOk result (text.new.items ≡ text.old.items ++ pieces_text (C.Make.asks recipe) offset) }
{
    match C::make(recipe, words, 0) {
        Ok(m) => push_cut(text, &m.content, offset, &words[0..m.used as usize]),
        Err(refusal) => push_refusal(text, refusal.number()),
    }
}

/// The same for whichever content is wanted.
fn push_wanted(
    text: &mut Vec<u8>,
    offset: u64,
    wanted: &Wanted,
    words: &mut [u64],
) -> Result<(), AllocError>
    requires { words.old ≡ free_table }
    ensures { OnOk result (text.new.items ≡ text.old.items ++ pieces_text (asked (wants wanted.now)) offset) }
{
    match wanted {
        Wanted::Clips(units) => push_made::<&[u64], ClipRun>(text, offset, units.as_slice(), words),
        Wanted::Text(units) => push_made::<&[u16], TextRun>(text, offset, units.as_slice(), words),
        Wanted::Mark(unit) => push_made::<u64, Mark>(text, offset, *unit, words),
        Wanted::Gap(len) => push_made::<u32, Gap>(text, offset, saturated(*len), words),
    }
}

/// The answer to `pieces`: what is wanted is made, cut, and its pieces' units told.
pub fn push_pieces(text: &mut Vec<u8>, offset: u64, wanted: &Wanted) -> Result<(), AllocError>
    ensures { OnOk result (text.new.items ≡ text.old.items ++ pieces_text (asked (wants wanted.now)) offset) }
{
    // A content is made in a table that its caller lends, since making allocates nothing.
    let mut table = vec![in *text.allocator(); 0u64; 65_536]?;
    push_wanted(text, offset, wanted, table.as_mut_slice())
}
