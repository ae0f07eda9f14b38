// What stands beside a gap of a list.
ghost use Rattle.table.specs.Cells.{cells};
ghost use Rattle.table.specs.Puts.{Within};
ghost use Rattle.table.specs.Gaps.{Gap, LeftIs, RightIs};

use crate::block::Block;
use content::content::Content;
use source::id::Id;

// The links stand beside the id and not in one Option with it: at an end of the list there are none, and that is a link set too.
/// What stands left of a gap, and which record stands right of it.
#[derive(Clone, Copy)]
pub struct LeftEdge {
    /// The last id left of the gap; none at the front.
    pub last: Option<Id>,
    /// The link set left of the gap; empty at the front.
    pub links: u64,
    /// The record right of the gap; none at the end.
    pub right: Option<usize>,
}

// The links beside the id, as in `LeftEdge`.
/// What stands right of a gap.
#[derive(Clone, Copy)]
pub struct RightEdge {
    /// The first id right of the gap; none at the end.
    pub first: Option<Id>,
    /// The link set right of the gap; empty at the end.
    pub links: u64,
}

/// What stands left of the gap after the block at `left`, or of the front of the list that begins at `start`.
pub fn left_edge<C: Content>(
    blocks: &[Block<C>],
    start: Option<usize>,
    left: Option<usize>,
) -> LeftEdge
    requires { Gap C.Content blocks.now start left }
    ensures { (w : Gap C.Content blocks.now start left) → LeftIs C.Content w.pre w.post result }
{
    match left {
        None => LeftEdge {
            last: None,
            links: 0,
            right: start,
        },
        Some(i) => {
            let b = blocks[i];
            LeftEdge {
                last: Some(b.id_at(b.content.len() - 1)),
                links: b.links,
                right: b.right,
            }
        }
    }
}

/// What stands right of a gap, where `right` is the record right of it.
pub fn right_edge<C: Content>(blocks: &[Block<C>], right: Option<usize>) -> RightEdge
    requires { Within blocks.now right }
    ensures { RightIs (cells blocks.now right) result }
{
    match right {
        None => RightEdge {
            first: None,
            links: 0,
        },
        Some(i) => {
            let b = blocks[i];
            RightEdge {
                first: Some(b.id),
                links: b.links,
            }
        }
    }
}
