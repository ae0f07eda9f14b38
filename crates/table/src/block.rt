ghost use Rattle.std.specs.Prelude.{◌≡◌, ◌+◌, ◌^◌, ◌<◌};
ghost use Rattle.table.specs.Cells.{unused, face_of};
ghost use Rattle.table.specs.Cuts.{later};
ghost use Rattle.table.specs.Lookups.{shown, HasAt};

use content::content::Content;
use source::id::Id;

/// A record of the table: a run of ids of one client, with the content that holds one unit for each of them.
// Neighbours are places in one slice that the caller lends: nothing is allocated, so a list owns no node.
#[derive(Clone, Copy)]
pub struct Block<C> {
    /// Its first id.
    pub id: Id,
    /// The number of its list.
    pub list: u8,
    /// The record of the block before it in its list.
    pub left: Option<usize>,
    /// The record of the block after it.
    pub right: Option<usize>,
    /// The id that stood directly before it when it was made.
    pub origin: Option<Id>,
    /// The id that stood directly after it when it was inserted.
    pub right_origin: Option<Id>,
    /// Whether its units are removed.
    pub removed: bool,
    // A number and no type of its own: sets are joined, and their ones counted, as numbers are.
    /// Its link set: bit n stands for link n.
    pub links: u64,
    /// What holds its units.
    pub content: C,
}

impl<C> Block<C> {
    /// A free record, in which no block stands. Its content means nothing: any of the kind will do.
    pub fn free(content: C) -> Block<C>
        ensures { result ≡ unused content }
    {
        Block {
            id: Id {
                client: 0,
                clock: 0,
            },
            list: 0,
            left: None,
            right: None,
            origin: None,
            right_origin: None,
            removed: false,
            links: 0,
            content,
        }
    }
}

impl<C: Content> Block<C> {
    /// How many visible units it has: none if it is removed or its content does not count.
    pub fn shown(&self) -> u32
        ensures { result ≡ shown C.Content (face_of self.now) }
    {
        if self.removed || !self.content.countable() {
            0
        } else {
            self.content.len()
        }
    }

    // The id of the unit at an offset.
    pub(crate) fn id_at(&self, offset: u32) -> Id
        requires { self.now.id.clock + offset < 2 ^ 32 }
        ensures { result ≡ later self.now.id offset }
    {
        Id {
            clock: self.id.clock + offset,
            ..self.id
        }
    }

    // The offset of the unit that has an id; nothing if none of its units has it.
    pub(crate) fn offset_of(&self, id: Id) -> Option<u32>
        ensures { HasAt C.Content id (face_of self.now) result }
    {
        let offset = id.clock.checked_sub(self.id.clock)?;
        (id.client == self.id.client && offset < self.content.len()).then_some(offset)
    }
}
