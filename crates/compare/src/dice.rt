//! Numbers drawn from a generator, so that a comparison can be had again.
ghost use Rattle.std.specs.Prelude.{◌-◌, ◌≤◌};

use bounded::Bounded;
use radio::step;
use std::array;

#[derive(Drop)]
pub struct Dice {
    value: u32,
}

impl Dice {
    pub fn new(seed: u32) -> Dice {
        Dice { value: seed.max(1) }
    }

    /// Any number of 32 bits.
    pub fn word(&mut self) -> u32 {
        self.value = step(self.value);
        self.value
    }

    /// A number below `bound`; 0 if that is 0.
    pub fn below(&mut self, bound: usize) -> usize
        ensures { result ≤ bound - 1 }
    {
        // A cast, since no `From` leads from u32 to usize.
        (self.word() as usize / 16).checked_rem(bound).unwrap_or(0)
    }

    pub fn byte(&mut self, bound: u8) -> u8 {
        // A cast: the number is below a byte, and `try_from` would bring an error that never comes.
        self.below(usize::from(bound)) as u8
    }

    /// Brings the items into an order that is drawn.
    pub fn shuffle<T>(&mut self, items: &mut [T]) {
        // By place, since two places of one slice are exchanged.
        for i in 1..items.len() {
            let j = self.below(i + 1);
            items.swap(i, j);
        }
    }

    /// Some of the numbers below `count` and below 64, or none, or all, in an order that is drawn.
    pub fn order(&mut self, count: usize) -> Bounded<u16, 64> {
        let count = count.min(64);
        // A cast: `u16::try_from` would bring an error that never comes.
        let mut items: [u16; 64] = array::from_fn(|i| i as u16);
        self.shuffle(&mut items[..count]);
        let drawn = self.below(count + 1);
        let mut order = Bounded::new(0);
        order.extend_from_slice(&items[..drawn]);
        order
    }
}
