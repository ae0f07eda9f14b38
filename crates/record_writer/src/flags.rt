ghost use Rattle.std.specs.Prelude.{◌≡◌, ◌≤◌};
ghost use Rattle.source.specs.Meaning.{scope_of, side_of, sticks_after};
ghost use Rattle.record.specs.Format.{is_open, by_name, single, bit, flags};

use source::sticky_index::{Assoc, IndexScope, StickyIndex};

/// Whether both sides are anchored at one id.
pub(crate) fn is_single(start: IndexScope<'_>, end: IndexScope<'_>) -> bool
    ensures { result ≡ single (scope_of start.entry) (scope_of end.entry) }
{
    matches!((start, end), (IndexScope::Relative(a), IndexScope::Relative(b)) if a == b)
}

fn is_open(scope: IndexScope<'_>) -> bool
    ensures { result ≡ is_open (scope_of scope.entry) }
{
    !matches!(scope, IndexScope::Relative(_))
}

fn is_by_name(scope: IndexScope<'_>) -> bool
    ensures { result ≡ by_name (scope_of scope.entry) }
{
    matches!(scope, IndexScope::Root(_))
}

fn is_after(assoc: Assoc) -> bool
    ensures { result ≡ sticks_after assoc }
{
    assoc == Assoc::After
}

/// A flag's weight where it is set.
fn weigh(weight: u8, on: bool) -> u8
    ensures value { result ≡ bit weight on }
    ensures bound { result ≤ weight }
{
    if on { weight } else { 0 }
}

/// The flag byte of a source.
pub(crate) fn flags_of(start: StickyIndex<'_>, end: StickyIndex<'_>) -> u8
    ensures { result ≡ flags (side_of start.entry) (side_of end.entry) }
{
    let named = is_by_name(start.scope) || is_by_name(end.scope);
    weigh(0x01, !is_single(start.scope, end.scope))
        + weigh(0x02, is_after(start.assoc))
        + weigh(0x04, is_after(end.assoc))
        + weigh(0x08, is_open(start.scope))
        + weigh(0x10, is_open(end.scope))
        + weigh(0x20, named)
}
