// Marking blocks as removed.
ghost use Rattle.marking.specs.Strikes.{Strikable, Struck};

use content::content::Content;
use table::block::Block;

/// Marks the next `count` visible units from the block at `from` on as removed, whole blocks; those that are removed already or
/// do not count are passed over and stay as they are. Answers the union of the link sets of the blocks that it marks.
pub fn strike<C: Content>(blocks: &mut [Block<C>], from: Option<usize>, count: u32) -> u64
    requires { Strikable C.Content blocks.old from count }
    ensures { (w : Strikable C.Content blocks.old from count) → Struck C.Content blocks.old from count w blocks.new result }
{
    let mut left = count;
    let mut links = 0;
    let mut cur = from;
    // A cursor and no iterator, which would hold the table that is written here.
    while left > 0
        && let Some(i) = cur
    {
        let b = &mut blocks[i];
        cur = b.right;
        let n = b.shown();
        if n > 0 {
            left -= n;
            links |= b.links;
            b.removed = true;
        }
    }
    links
}
