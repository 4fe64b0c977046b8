// What can be done with a bounded vector, each call equal to a function on lists.
ghost use Rattle.std.specs.Prelude.{◌≡◌, ℕ, ◌+◌, ◌<◌, ◌≤◌, Bool, true, false, List, [], ◌∷◌, ◌++◌, length, take, nat_lt, slice_set};
ghost use Rattle.std.specs.List.{slice_get};
ghost use Rattle.bounded.specs.Items.{items};

use super::Bounded;

impl<T: Copy, const N: usize> Bounded<T, N> {
    /// An empty vector; `blank` fills the slots that are not in use.
    pub fn new(blank: T) -> Self
        ensures { items result ≡ [] }
    {
        Bounded {
            slots: [blank; N],
            len: 0,
        }
    }

    /// The number of elements.
    pub fn len(&self) -> usize
        ensures { result ≡ length (items self.now) }
    {
        self.as_slice().len()
    }

    /// The element at `index`, or nothing past the end.
    pub fn get(&self, index: usize) -> Option<T>
        ensures { result ≡ slice_get (items self.now) index }
    {
        self.as_slice().get(index).copied()
    }

    /// Replaces the element at `index`; false, and nothing changed, past the end.
    pub fn set(&mut self, index: usize, x: T) -> bool
        ensures within { result ≡ nat_lt index (length (items self.old)) }
        ensures items { items self.new ≡ slice_set (items self.old) index x }
    {
        if index >= self.len {
            return false;
        }
        self.slots[index] = x;
        true
    }

    /// Adds an element at the end; false, and nothing changed, where there is no room.
    pub fn push(&mut self, x: T) -> bool
        ensures room { result ≡ nat_lt (length (items self.old)) N }
        ensures items { items self.new ≡ take N (items self.old ++ x ∷ []) }
    {
        let at = self.len;
        if at >= N {
            return false;
        }
        self.slots[at] = x;
        self.len = at + 1;
        true
    }

    /// Adds the elements at the end, as many as there is room for.
    pub fn extend(&mut self, xs: &[T])
        ensures { items self.new ≡ take N (items self.old ++ xs.now) }
    {
        let room = xs.len().min(N - self.len);
        let end = self.len + room;
        let slots = &mut self.slots[..];
        slots[self.len..end].copy_from_slice(&xs[..room]);
        self.len = end;
    }

    /// Keeps the first `keep` elements.
    pub fn truncate(&mut self, keep: usize)
        ensures { items self.new ≡ take keep (items self.old) }
    {
        self.len = self.len.min(keep);
    }

    /// The elements as a slice.
    pub fn as_slice(&self) -> &[T]
        ensures { result.now ≡ items self.now }
    {
        &self.slots[..self.len]
    }
}
