ghost use Rattle.std.specs.Prelude.{◌≡◌, length};

use source::id::Id;

/// A side of a live link: open on its list, or anchored at an id.
// As an `Option` of an id with its side it would be no plainer: each value would have two layers, as `Some((Before, id))`.
#[derive(Clone, Copy, PartialEq, Eq, Debug)]
pub enum Anchor {
    Open,
    Before(Id),
    After(Id),
}

/// A live link: its list's number, and where it starts and ends.
#[derive(Clone, Copy)]
pub struct Link {
    pub list: u8,
    pub start: Anchor,
    pub end: Anchor,
}

/// The live links by number.
// An array and no `Vec`, since the core has no heap; it is no list with a length, for a free number is a hole.
#[derive(Clone, Copy)]
pub struct Links {
    links: [Option<Link>; 64],
    ghost whole: { length links ≡ 64 },
}

impl Links {
    ghost use Rattle.std.specs.Prelude.{ℕ, Bool, ◌&&◌, ◌||◌, None};
    ghost use Rattle.std.specs.Fn.{FnReturnsAt};
    ghost use Rattle.std.specs.Option.{option_map};
    ghost use Rattle.law.specs.Faces.{bit};
    ghost use Rattle.law.specs.Joins.{starts_here, ends_here};
    ghost use Rattle.registry.specs.Links.{plain_id, link_in, Tells};

    /// None is live.
    pub fn new() -> Links
        ensures { (n : ℕ) → link_in result n ≡ None }
    {
        Links { links: [None; 64] }
    }

    /// Two link sets, the first with those live links added that pass the first test, and the second with those that pass the second.
    // In one walk: most numbers are free, and a walk for each side would come to them twice.
    fn with<S: Fn(&Link) -> bool, E: Fn(&Link) -> bool>(
        &self,
        before: u64,
        after: u64,
        starts: S,
        ends: E,
    ) -> (u64, u64)
        requires starts { S.IsAlwaysCallable starts }
        requires ends { E.IsAlwaysCallable ends }
        ensures starts { (n : ℕ) → (t : Bool) × Tells self.now (FnReturnsAt S.Fn starts) n t × (bit n result.0 ≡ (bit n before || t)) }
        ensures ends { (n : ℕ) → (t : Bool) × Tells self.now (FnReturnsAt E.Fn ends) n t × (bit n result.1 ≡ (bit n after || t)) }
    {
        let mut first = before;
        let mut second = after;
        for (n, link) in self.links.iter().enumerate() {
            if matches!(link, Some(link) if starts(link)) {
                first |= 1 << n;
            }
            if matches!(link, Some(link) if ends(link)) {
                second |= 1 << n;
            }
        }
        (first, second)
    }

    /// The link set of a new block in a list, between a left neighbour that ends with the id `left` and has the link set `before`,
    /// and a right one that begins with the id `right` and has the link set `after`; a neighbour that is not there has no id, and no links.
    // A call of its own: laid into a caller, the walk is short of registers, and each free number takes a third more instructions.
    #[inline(never)]
    pub fn join(
        &self,
        list: u8,
        left: Option<Id>,
        right: Option<Id>,
        before: u64,
        after: u64,
    ) -> u64
        ensures { (n : ℕ) → bit n result ≡ ((bit n before || starts_here (link_in self.now n) list (option_map plain_id left)) && (bit n after || ends_here (link_in self.now n) list (option_map plain_id right))) }
    {
        // what sticks in the gap right behind `left`, and in the one right before `right`
        let start = left.map_or(Anchor::Open, Anchor::After);
        let end = right.map_or(Anchor::Open, Anchor::Before);
        let (starts, ends) = self.with(
            before,
            after,
            |link| link.list == list && link.start == start,
            |link| link.list == list && link.end == end,
        );
        starts & ends
    }
}
