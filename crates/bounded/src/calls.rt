//! Making, reading and changing a bounded list.
ghost use Rattle.std.specs.Prelude.{◌≡◌, [], ◌∷◌, ◌++◌, length, take};
ghost use Rattle.std.specs.List.{remove, slice_get};
ghost use Rattle.bounded.specs.Held.{held, pushed};

use crate::Bounded;

impl<T: Copy, const N: usize> Bounded<T, N> {
    /// A list of no items. Its places hold `blank` until an item takes them.
    pub fn new(blank: T) -> Self
        ensures { held result ≡ [] }
    {
        Bounded {
            items: [blank; N],
            len: 0,
        }
    }

    /// The items, in order.
    pub fn as_slice(&self) -> &[T]
        ensures { result.now ≡ held self.now }
    {
        &self.items[..self.len]
    }

    /// How many items are held.
    pub fn len(&self) -> usize
        ensures { result ≡ length (held self.now) }
    {
        self.as_slice().len()
    }

    /// The item at a place, the first at 0.
    pub fn get(&self, place: usize) -> Option<T>
        ensures { result ≡ slice_get (held self.now) place }
    {
        self.as_slice().get(place).copied()
    }

    /// One item more at the end, which is lost if `N` are held.
    pub fn push(&mut self, item: T)
        ensures { held self.new ≡ pushed N (held self.old) item }
    {
        if self.len < N {
            self.items[self.len] = item;
            self.len += 1;
        }
    }

    /// A list of items more at the end, in order; those past `N` are lost.
    pub fn extend_from_slice(&mut self, items: &[T])
        ensures { held self.new ≡ take N (held self.old ++ items.now) }
    {
        let count = (N - self.len).min(items.len());
        let places = &mut self.items[..];
        places[self.len..self.len + count].copy_from_slice(&items[..count]);
        self.len += count;
    }

    /// Removes the item at a place, if there is one; the rest keep their order.
    pub fn remove(&mut self, place: usize)
        ensures { held self.new ≡ remove (held self.old) place }
    {
        if place < self.len {
            self.items.copy_within(place + 1..self.len, place);
            self.len -= 1;
        }
    }
}
