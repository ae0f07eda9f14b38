// Finding an id among the lists, and cutting there.
ghost use Rattle.std.specs.Prelude.{ℕ, ◌≤◌, length};
ghost use Rattle.block_store.specs.Lists.{Stand, Shape, Shaped};
ghost use Rattle.block_store.specs.Locates.{Located, CutIs, used_after, CountIs};

use content::content::Content;
use source::id::Id;
use table::block::Block;
use table::lookup::find;
use table::splice::split;

/// Why no cut was made.
#[derive(Clone, Copy, Debug, PartialEq, Eq)]
pub enum CutRefusal {
    /// No list has the id.
    NeverInserted,
    /// No record is free for the right piece.
    TooFewRecords,
}

/// The record of the block that has an id, and the offset there.
pub fn locate<C: Content>(
    blocks: &[Block<C>],
    fronts: &[Option<usize>],
    id: Id,
) -> Option<(usize, u32)>
    requires { Stand blocks.now fronts.now }
    ensures { Located C.Content id blocks.now fronts.now result }
{
    for front in fronts {
        if let Some(at) = find(blocks, *front, id) {
            return Some(at);
        }
    }
    None
}

// Tables that are lent for one call, and no struct that holds them: tried for `cut_at`, it added three clauses to each call.
/// Makes an id the first of a block, and tells how many records are then in use; a right piece takes the record `used`.
pub fn cut_at<C: Content>(
    blocks: &mut [Block<C>],
    fronts: &[Option<usize>],
    used: usize,
    limit: usize,
    id: Id,
) -> Result<usize, CutRefusal>
    requires fits { limit ≤ length blocks.old }
    requires enough { used ≤ limit }
    requires shape { Shaped C.Content blocks.old used fronts.now }
    ensures tables { CutIs C.Content id blocks.old blocks.new fronts.now used limit result }
    ensures shape { (n : ℕ) → Shape C.Content n blocks.old used fronts.now → Shape C.Content n blocks.new (used_after used result) fronts.now }
{
    let (i, o) = locate(blocks, fronts, id).ok_or(CutRefusal::NeverInserted)?;
    if o == 0 {
        return Ok(used);
    }
    if used >= limit {
        return Err(CutRefusal::TooFewRecords);
    }
    split(blocks, i, o, used);
    Ok(used + 1)
}

/// How many links the link set of the block that has an id holds.
pub fn count_links<C: Content>(blocks: &[Block<C>], fronts: &[Option<usize>], id: Id) -> Option<u32>
    requires { Stand blocks.now fronts.now }
    ensures { CountIs C.Content id blocks.now fronts.now result }
{
    let (i, _) = locate(blocks, fronts, id)?;
    Some(blocks[i].links.count_ones())
}
