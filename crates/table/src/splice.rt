// Cutting blocks, and putting blocks into lists.
ghost use Rattle.table.specs.Cells.{face_of};
ghost use Rattle.table.specs.Cuts.{Cuttable, Cut};
ghost use Rattle.table.specs.Puts.{Within, Relinks, Spliceable, Put};

use crate::block::Block;
use content::content::Content;

// Tells the block at `n`, if any, that `p` stands before it.
fn relink<C: Content>(blocks: &mut [Block<C>], n: Option<usize>, p: usize)
    requires { Within blocks.old n }
    ensures { Relinks blocks.old n p blocks.new }
{
    if let Some(n) = n {
        blocks[n].left = Some(p);
    }
}

/// Cuts the block at `i` at the offset `k`, with its right piece in the free record `j`. That takes the later ids and units,
/// the id before it as origin, and copies of right origin, list, removed mark and link set.
pub fn split<C: Content>(blocks: &mut [Block<C>], i: usize, k: u32, j: usize)
    requires { Cuttable C.Content blocks.old i k j }
    ensures { (w : Cuttable C.Content blocks.old i k j) → Cut C.Content blocks.old i k j w blocks.new }
{
    let b = blocks[i];
    let (fore, rear) = b.content.cut(k);
    blocks[j] = Block {
        id: b.id_at(k),
        left: Some(i),
        origin: Some(b.id_at(k - 1)),
        content: rear,
        ..b
    };
    blocks[i] = Block {
        right: Some(j),
        content: fore,
        ..b
    };
    relink(blocks, b.right, j);
}

/// Puts a new block into the free record `j`, after the block at `left`, or at the front of its list, which `front` then tells.
/// Its neighbours are told; which these are is not taken from `new`.
pub fn splice_in<C: Content>(
    blocks: &mut [Block<C>],
    front: &mut Option<usize>,
    left: Option<usize>,
    j: usize,
    new: Block<C>,
)
    requires { Spliceable blocks.old new.list front.old left j }
    ensures { (w : Spliceable blocks.old new.list front.old left j) → Put blocks.old new.list front.old left j (face_of new) w blocks.new front.new }
{
    match left {
        None => {
            let right = *front;
            blocks[j] = Block { left, right, ..new };
            *front = Some(j);
            relink(blocks, right, j);
        }
        Some(i) => {
            let before = blocks[i];
            blocks[j] = Block {
                left,
                right: before.right,
                ..new
            };
            blocks[i] = Block {
                right: Some(j),
                ..before
            };
            relink(blocks, before.right, j);
        }
    }
}
