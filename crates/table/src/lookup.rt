// Finding an id and a visible index in a list.
ghost use Rattle.table.specs.Cells.{cells};
ghost use Rattle.table.specs.Lookups.{Listed, Found, Sought};

use crate::block::Block;
use crate::walk::Walk;
use content::content::Content;
use source::id::Id;

/// Where an index falls in a list.
#[derive(Clone, Copy)]
pub enum Place {
    /// At the front of the list.
    Front,
    /// After so many units, at least one, of the block in a record.
    After(usize, u32),
    /// Past the end of the list.
    Past,
}

/// The record of the block that has an id, in the list that begins at `start`, and the offset there; nothing if none has it.
pub fn find<C: Content>(blocks: &[Block<C>], start: Option<usize>, id: Id) -> Option<(usize, u32)>
    requires { Listed blocks.now start }
    ensures { Found C.Content id (cells blocks.now start) result }
{
    for (i, b) in Walk::new(blocks, start) {
        if let Some(offset) = b.offset_of(id) {
            return Some((i, offset));
        }
    }
    None
}

/// Where the gap directly after `index` visible units falls, in the list that begins at `start`.
pub fn seek<C: Content>(blocks: &[Block<C>], start: Option<usize>, index: u32) -> Place
    requires { Listed blocks.now start }
    ensures { Sought C.Content index (cells blocks.now start) result }
{
    if index == 0 {
        return Place::Front;
    }
    let mut left = index;
    for (i, b) in Walk::new(blocks, start) {
        let n = b.shown();
        if left <= n {
            return Place::After(i, left);
        }
        left -= n;
    }
    Place::Past
}
