//! A second planner: slot by slot over the whole order, with clashes in a grid of its own.

/// Which of up to 64 items clash: a bit of each row for each item, unlike the kit's sets.
#[derive(Clone, Copy)]
pub struct Grid {
    rows: [u64; 64],
}

impl Default for Grid {
    /// No item clashes.
    fn default() -> Grid {
        Grid { rows: [0; 64] }
    }
}

impl Grid {
    pub fn has(&self, a: usize, b: usize) -> bool {
        a < 64 && b < 64 && (self.rows[a] >> b) & 1 == 1
    }

    /// Joins two different items, both ways.
    pub fn join(&mut self, a: usize, b: usize) {
        if a < 64 && b < 64 && a != b {
            self.rows[a] |= 1 << b;
            self.rows[b] |= 1 << a;
        }
    }

    /// Who is reached in one step or two.
    pub fn within_two(&self) -> Grid {
        let mut reached = *self;
        for a in 0..64 {
            for b in (0..64).filter(|b| self.has(a, *b)) {
                for c in (0..64).filter(|c| self.has(b, *c)) {
                    reached.join(a, c);
                }
            }
        }
        reached
    }

    // Whether an item that clashes with `a` has the slot.
    fn is_held(&self, slots: &[u16; 64], a: usize, slot: u16) -> bool {
        slots
            .iter()
            .enumerate()
            .any(|(b, held)| *held == slot && self.has(a, b))
    }

    /// The slots of the items of an order. Slot after slot, each item of the order that has none
    /// yet gets it, unless an item that clashes has it already.
    pub fn plan(&self, order: &[u16]) -> [u16; 64] {
        let mut slots = [0; 64];
        for slot in 1..=64 {
            for item in order {
                let a = usize::from(*item);
                if a < 64 && slots[a] == 0 && !self.is_held(&slots, a, slot) {
                    slots[a] = slot;
                }
            }
        }
        slots
    }
}
