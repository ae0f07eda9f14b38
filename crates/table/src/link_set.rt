// The link sets of blocks.
ghost use Rattle.std.specs.Prelude.{◌<◌, ◌≤◌, length};
ghost use Rattle.table.specs.Clears.{Cleared};

use crate::block::Block;
use content::content::Content;

// A count beside the slice: the caller lends the whole table, of which the records in use stand first.
/// Takes the link `n` out of the set of each of the first `used` records.
pub fn clear_link<C: Content>(blocks: &mut [Block<C>], used: usize, n: u32)
    requires room { used ≤ length blocks.old }
    requires number { n < 64 }
    ensures { Cleared blocks.old used n blocks.new }
{
    for b in &mut blocks[..used] {
        b.links &= !(1u64 << n);
    }
}
