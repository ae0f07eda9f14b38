ghost use Rattle.std.specs.Prelude.{◌≡◌, ◌≤◌, ⊤, length};

use std::alloc::AllocError;

/// A list of at most `N` items in fixed memory, where a `Vec` would need a heap.
pub(crate) struct FixedList<T, const N: usize> {
    items: [T; N],
    len: usize,
    ghost whole: { length items ≡ N },
    ghost within: { len ≤ N },
}

// By hand, since `Clone` has no derive for a struct that has both a type parameter and ghost fields.
impl<T: Copy, const N: usize> Clone for FixedList<T, N> {
    ghost is_clone = { λ x y. y ≡ x };

    ghost is_infallible = { λ _. ⊤ };

    fn clone(&self) -> Result<FixedList<T, N>, AllocError> {
        Ok(*self)
    }
}

impl<T: Copy, const N: usize> Copy for FixedList<T, N> {}

impl<T: Copy, const N: usize> FixedList<T, N> {
    ghost use Rattle.std.specs.Prelude.{◌<◌, ◌==◌, [], ◌∷◌, ◌++◌, take, slice_set, MatchOption};
    ghost use Rattle.registry.specs.FixedLists.{items_of};

    /// A list of no items; `blank` fills its memory.
    pub(crate) fn new(blank: T) -> FixedList<T, N>
        ensures { items_of result ≡ [] }
    {
        FixedList {
            items: [blank; N],
            len: 0,
        }
    }

    /// The first items of a slice, as many as there is room for.
    pub(crate) fn from_slice(items: &[T], blank: T) -> FixedList<T, N>
        ensures { items_of result ≡ take N items.now }
    {
        let len = items.len().min(N);
        let mut row = [blank; N];
        row[..len].copy_from_slice(&items[..len]);
        FixedList { items: row, len }
    }

    /// Its items.
    pub(crate) fn as_slice(&self) -> &[T]
        ensures items { result.now ≡ items_of self.now }
        ensures within { length result.now ≤ N }
    {
        &self.items[..self.len]
    }

    /// Whether it has as many items as there is room for.
    pub(crate) fn is_full(&self) -> bool
        ensures { result ≡ (length (items_of self.now) == N) }
    {
        self.len == N
    }

    /// Appends an item, and tells its place; where the list is full it tells none, and changes nothing.
    pub(crate) fn push(&mut self, item: T) -> Option<usize>
        ensures { MatchOption result ((length (items_of self.old) ≡ N) × (self.new ≡ self.old)) (λ n. (n ≡ length (items_of self.old)) × (n < N) × (items_of self.new ≡ items_of self.old ++ item ∷ [])) }
    {
        if self.is_full() {
            return None;
        }
        let place = self.len;
        self.items[place] = item;
        self.len = place + 1;
        Some(place)
    }

    /// Puts an item at a place of the list.
    pub(crate) fn set(&mut self, place: usize, item: T)
        requires { place < length (items_of self.old) }
        ensures { items_of self.new ≡ slice_set (items_of self.old) place item }
    {
        self.items[place] = item;
    }
}
