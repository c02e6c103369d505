//! A list in memory of a fixed size, for what a room holds: no allocator is asked, so nothing runs out.

ghost use Rattle.std.specs.Prelude.{◌≡◌, ◌≤◌, [], ◌∷◌, ◌++◌, length, if◌then◌else◌, nat_lt, is_ok, IfErr, OnErr};
ghost use Rattle.room.specs.Listed.{listed};

/// A list with room for N items.
// The library's is not `Copy`, and a map that is lent is copied into its rule, which cannot fail.
#[derive(Clone, Copy)]
pub struct ArrayVec<T, const N: usize> {
    len: usize,
    slots: [T; N],
}

impl<T: Copy, const N: usize> ArrayVec<T, N> {
    /// The empty list; `blank` fills the room that is not in use.
    pub fn new(blank: T) -> Self
        ensures { listed result ≡ [] }
    {
        ArrayVec {
            len: 0,
            slots: [blank; N],
        }
    }

    /// The items, in order.
    pub fn as_slice(&self) -> &[T]
        ensures items { result.now ≡ listed self.now }
        ensures bound { length result.now ≤ N }
    {
        self.slots.get(..self.len).unwrap_or(&self.slots)
    }

    /// How many items there are.
    pub fn len(&self) -> usize
        ensures { result ≡ length (listed self.now) }
    {
        self.as_slice().len()
    }

    /// Puts an item at the end; where the list is full, nothing changes and the item comes back.
    pub fn push(&mut self, item: T) -> Result<(), T>
        ensures fits { is_ok result ≡ nat_lt (length (listed self.old)) N }
        ensures items { listed self.new ≡ (if is_ok result then listed self.old ++ item ∷ [] else listed self.old) }
        ensures back { IfErr result (λ x. x ≡ item) }
        ensures unchanged { OnErr result (self.new ≡ self.old) }
    {
        let at = self.len();
        if at >= N {
            return Err(item);
        }
        self.slots[at] = item;
        self.len = at + 1;
        Ok(())
    }
}
