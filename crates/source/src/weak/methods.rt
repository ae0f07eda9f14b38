ghost use Rattle.std.specs.Prelude.{◌≡◌, true, false, MatchOption};
ghost use Rattle.source.specs.Meaning.{alike, side_of, start_of, end_of};

use crate::sticky_index::{IndexScope, StickyIndex};
use crate::weak::LinkSource;

impl<'a> LinkSource<'a> {
    /// The source from one side to the other; none where both are open and not the same way.
    pub fn new(start: StickyIndex<'a>, end: StickyIndex<'a>) -> Option<LinkSource<'a>>
        ensures { MatchOption result (alike (side_of start.entry).0 (side_of end.entry).0 ≡ false) (λ s. (start_of s ≡ side_of start.entry) × (end_of s ≡ side_of end.entry)) }
    {
        match (start.scope, end.scope) {
            (IndexScope::Nested(_), IndexScope::Root(_))
            | (IndexScope::Root(_), IndexScope::Nested(_)) => None,
            _ => Some(LinkSource { start, end }),
        }
    }

    /// The start; and of every source, that its open sides are open the same way.
    pub fn start(&self) -> StickyIndex<'a>
        ensures value { side_of result ≡ start_of self.now }
        ensures same_way { alike (start_of self.now).0 (end_of self.now).0 ≡ true }
    {
        self.start
    }

    /// The end.
    pub fn end(&self) -> StickyIndex<'a>
        ensures { side_of result ≡ end_of self.now }
    {
        self.end
    }
}
