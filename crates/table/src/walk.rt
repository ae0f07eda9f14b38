// Walking along a list, from block to block.
ghost use Rattle.std.specs.Prelude.{◌≡◌};
ghost use Rattle.std.specs.Iterator.{YieldsFirstBy, item_count};
ghost use Rattle.table.specs.Cells.{cells};
ghost use Rattle.table.specs.Lookups.{Listed};
ghost use Rattle.table.specs.Walks.{Leads, cell_of};

use crate::block::Block;

// The blocks of a list that are still to come, each with its record.
#[derive(Drop)]
pub(crate) struct Walk<'a, C> {
    blocks: &'a [Block<C>],
    next: Option<usize>,
}

impl<'a, C> Walk<'a, C> {
    // Over the list that begins at `start`.
    pub(crate) fn new(blocks: &'a [Block<C>], start: Option<usize>) -> Walk<'a, C>
        requires { Listed blocks.now start }
        ensures leads { Leads result.blocks.now result.next }
        ensures all { cells result.blocks.now result.next ≡ cells blocks.now start }
    {
        Walk {
            blocks,
            next: start,
        }
    }
}

impl<'a, C> Iterator for Walk<'a, C> {
    type Item = (usize, &'a Block<C>);

    ghost can_next = { λ s. Leads s.blocks.now s.next };

    ghost next_gives = { YieldsFirstBy cell_of (λ s. cells s.blocks.now s.next) };

    ghost remaining = { item_count (λ s. cells s.blocks.now s.next) };

    fn next(&mut self) -> Option<(usize, &'a Block<C>)> {
        let i = self.next?;
        let b = &self.blocks[i];
        self.next = b.right;
        Some((i, b))
    }
}
