// Small lists, struck.
ghost use Rattle.std.specs.Prelude.{◌≡◌, false, None};
ghost use Rattle.table.specs.Cells.{block};

use crate::strike::strike;
use content::clip_run::ClipRun;
use content::gap::Gap;
use content::mix::Mix;
use std::test::Fail;
use table::block::Block;

// Each test has its list in full: what built it would take as many arguments.

// A block of list 0.
fn block_of(
    left: Option<usize>,
    right: Option<usize>,
    links: u64,
    content: Mix<ClipRun, Gap>,
) -> Block<Mix<ClipRun, Gap>>
    ensures { result ≡ block 0 left right (record { id = record { client = 0; clock = 0 }; origin = None; right_origin = None; removed = false; links = links; content = content }) }
{
    Block {
        left,
        right,
        links,
        ..Block::free(content)
    }
}

#[test]
fn passes_over_a_gap(rt: HostRuntime) -> Result<(), Fail> {
    let mut blocks = [
        block_of(None, Some(1), 1, Mix::One(ClipRun { from: 0, to: 2 })),
        block_of(Some(0), Some(2), 2, Mix::Other(Gap { len: 3 })),
        block_of(Some(1), None, 4, Mix::One(ClipRun { from: 2, to: 3 })),
    ];
    assert_eq!(rt; strike(&mut blocks, Some(0), 3), 5);
    assert!(rt; blocks[0].removed && !blocks[1].removed && blocks[2].removed);
    Ok(())
}

#[test]
fn stops_at_the_count(rt: HostRuntime) -> Result<(), Fail> {
    let mut blocks = [
        block_of(None, Some(1), 1, Mix::One(ClipRun { from: 0, to: 2 })),
        block_of(Some(0), Some(2), 2, Mix::One(ClipRun { from: 2, to: 3 })),
        block_of(Some(1), None, 4, Mix::One(ClipRun { from: 3, to: 4 })),
    ];
    assert_eq!(rt; strike(&mut blocks, Some(1), 1), 2);
    assert!(rt; !blocks[0].removed && blocks[1].removed && !blocks[2].removed);
    Ok(())
}
