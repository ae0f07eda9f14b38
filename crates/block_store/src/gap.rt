// The gap directly after so many visible units of a list: finding it, and opening it between two blocks.
ghost use Rattle.std.specs.Prelude.{◌≡◌, ℕ};
ghost use Rattle.table.specs.Cells.{cells};
ghost use Rattle.table.specs.Lookups.{Listed};
ghost use Rattle.block_store.specs.Lists.{Shape};
ghost use Rattle.block_store.specs.Gaps.{left_of, GapIs, Closed, Opened};

use content::content::Content;
use table::block::Block;
use table::lookup::{Place, seek};
use table::splice::split;

/// A gap of a list: where it falls, and how many new blocks it takes that one begins there.
#[derive(Clone, Copy)]
pub struct Gap {
    pub place: Place,
    // A count, 0 or 1, and no flag: a removal adds up those of its two gaps.
    pub needs: usize,
}

impl Gap {
    /// The record left of it; none at the front.
    pub fn left(self) -> Option<usize>
        ensures { result ≡ left_of self.place }
    {
        match self.place {
            Place::After(i, _) => Some(i),
            _ => None,
        }
    }
}

/// The gap directly after `index` visible units of the list that begins at `start`.
pub fn find_gap<C: Content>(blocks: &[Block<C>], start: Option<usize>, index: u32) -> Gap
    requires { Listed blocks.now start }
    ensures { GapIs C.Content index (cells blocks.now start) result }
{
    let place = seek(blocks, start, index);
    let needs = match place {
        Place::After(i, o) => usize::from(o < blocks[i].content.len()),
        _ => 0,
    };
    Gap { place, needs }
}

/// Opens a gap of a list: a block that it falls inside is cut, its right piece in the record `used`. Tells how many records
/// are then in use.
pub fn open_gap<C: Content>(blocks: &mut [Block<C>], used: usize, gap: Gap) -> usize
    requires { Closed C.Content blocks.old used gap }
    ensures tables { (w : Closed C.Content blocks.old used gap) → Opened C.Content blocks.old blocks.new w.fronts used w.list w.index gap result }
    ensures shape { (w : Closed C.Content blocks.old used gap) (n : ℕ) → Shape C.Content n blocks.old used w.fronts → Shape C.Content n blocks.new result w.fronts }
{
    let Place::After(i, o) = gap.place else {
        return used;
    };
    if gap.needs == 0 {
        return used;
    }
    split(blocks, i, o, used);
    used + 1
}
