ghost use Rattle.std.specs.Prelude.{◌≡◌, true};
ghost use Rattle.source.specs.Sides.{alike, side_of};

use crate::sticky_index::StickyIndex;

mod methods;

/// What a link quotes: all that stands between a start and an end. Where both are open, both are nested or both are roots.
#[derive(Clone, Copy, PartialEq, Eq, Debug)]
pub struct LinkSource<'a> {
    start: StickyIndex<'a>,
    end: StickyIndex<'a>,
    ghost same_way: { alike (side_of start).0 (side_of end).0 ≡ true },
}
