use crate::id::Id;

/// On which side of its anchor an index sticks.
#[derive(Clone, Copy, PartialEq, Eq, Debug)]
pub enum Assoc {
    Before,
    After,
}

/// Where an index stands: at an id, or open on a list, which is nested and named by its id, or a root and named by the caller's bytes.
#[derive(Clone, Copy, PartialEq, Eq, Debug)]
pub enum IndexScope<'a> {
    Relative(Id),
    Nested(Id),
    Root(&'a [u8]),
}

/// One side of a source.
#[derive(Clone, Copy, PartialEq, Eq, Debug)]
pub struct StickyIndex<'a> {
    pub scope: IndexScope<'a>,
    pub assoc: Assoc,
}
