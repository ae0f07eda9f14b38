// Insertion into a list, and removal from it.
ghost use Rattle.std.specs.Prelude.{ℕ, ◌≤◌};
ghost use Rattle.block_store.specs.Lists.{Shape};
ghost use Rattle.block_store.specs.Inserts.{Puttable, NewBlock, Insertable, InsertIs, in_use};
ghost use Rattle.block_store.specs.Removes.{Removable, RemoveIs};

use crate::gap::{find_gap, open_gap};
use content::content::Content;
use marking::strike::strike;
use registry::links::Links;
use source::id::Id;
use table::block::Block;
use table::gap::{left_edge, right_edge};
use table::splice::splice_in;

/// What a call that changes a list's blocks came to.
#[derive(Clone, Copy, Debug, PartialEq, Eq)]
pub struct Outcome {
    /// The link set that it answers.
    pub links: u64,
    /// How many records are then in use.
    pub used: usize,
}

// Puts a new block into the free record `j`, after the block at `left` or at the front of its list, and answers its link set.
// Its id, list and content are those of `new`, and what else it holds is not taken from there.
fn put_new<C: Content>(
    blocks: &mut [Block<C>],
    front: &mut Option<usize>,
    links: &Links,
    left: Option<usize>,
    j: usize,
    new: Block<C>,
) -> u64
    requires { Puttable C.Content blocks.old new.list front.old left j }
    ensures { (w : Puttable C.Content blocks.old new.list front.old left j) → NewBlock C.Content links.now blocks.old blocks.new new.list front.new j new.id new.content w.pre w.post result }
{
    let a = left_edge(blocks, *front, left);
    let b = right_edge(blocks, a.right);
    let joined = links.join(new.list, a.last, b.first, a.links, b.links);
    let joining = Block {
        origin: a.last,
        right_origin: b.first,
        removed: false,
        links: joined,
        ..new
    };
    splice_in(blocks, front, left, j, joining);
    joined
}

// Tables that are lent for one call, and no struct that holds them: tried for `cut_at`, it added three clauses to each call.
/// Inserts a content into a list, directly after `index` visible units; nothing, and nothing is changed, if too few records are free.
pub fn insert_at<C: Content>(
    blocks: &mut [Block<C>],
    fronts: &mut [Option<usize>],
    links: &Links,
    used: usize,
    limit: usize,
    list: u8,
    index: u32,
    id: Id,
    content: C,
) -> Option<Outcome>
    requires { Insertable C.Content blocks.old fronts.old used limit list index id content }
    ensures tables { InsertIs C.Content links.now blocks.old blocks.new fronts.old fronts.new used limit list index id content result }
    ensures shape { (n : ℕ) → Shape C.Content n blocks.old used fronts.old → C.Content.reach content ≤ n → Shape C.Content n blocks.new (in_use used result) fronts.new }
{
    // `as`, since of `usize::from` a proof makes a second number: tried, and an answer stayed open.
    let l = list as usize;
    let gap = find_gap(blocks, fronts[l], index);
    if limit - used <= gap.needs {
        return None;
    }
    let j = open_gap(blocks, used, gap);
    let new = Block {
        id,
        list,
        ..Block::free(content)
    };
    let joined = put_new(blocks, &mut fronts[l], links, gap.left(), j, new);
    Some(Outcome {
        links: joined,
        used: j + 1,
    })
}

// Tables that are lent for one call, and no struct that holds them: tried for `cut_at`, it added three clauses to each call.
/// Removes `count` visible units from `index` on, and answers the union of the link sets of their blocks; nothing, and nothing is
/// changed, if too few records are free. Blocks are cut after the last unit and before the first.
pub fn remove_at<C: Content>(
    blocks: &mut [Block<C>],
    fronts: &[Option<usize>],
    used: usize,
    limit: usize,
    l: usize,
    index: u32,
    count: u32,
) -> Option<Outcome>
    requires { Removable C.Content blocks.old fronts.now used limit l index count }
    ensures tables { RemoveIs C.Content blocks.old blocks.new fronts.now used limit l index count result }
    ensures shape { (n : ℕ) → Shape C.Content n blocks.old used fronts.now → Shape C.Content n blocks.new (in_use used result) fronts.now }
{
    let start = fronts[l];
    let first = find_gap(blocks, start, index);
    let last = find_gap(blocks, start, index + count);
    if limit - used < last.needs + first.needs {
        return None;
    }
    let j = open_gap(blocks, used, last);
    // The first cut may have shortened the block that the other gap falls into.
    let first = find_gap(blocks, start, index);
    let k = open_gap(blocks, j, first);
    let edge = left_edge(blocks, start, first.left());
    let links = strike(blocks, edge.right, count);
    Some(Outcome { links, used: k })
}
