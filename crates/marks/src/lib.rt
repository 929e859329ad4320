//! A set of marks, numbered from 0 to 63, in one word.
//!
//! A mark stands for a node, or for a slot: mark `s - 1` for slot `s`.
#![tactic(auto)]

ghost use Rattle.std.specs.Prelude.{◌≡◌, ℕ, true, false, not, ◌&&◌, ◌||◌, Decides, ◌==◌, nat_eq, nat_lt};
ghost use Rattle.marks.specs.Sets.{FirstMissing, Same, added, joined, none, removed};
ghost use Rattle.marks.specs.View.{marked, size};
ghost use Rattle.std.specs.Ordering.{on};
ghost use Rattle.std.specs.Cmp.Rules.{comparing};
ghost use Rattle.std.proofs.Common.{rules};

/// A set of marks. Two sets with the same marks are equal.
#[derive(Clone, Copy, Debug, Eq)]
pub struct Marks {
    bits: u64,
}

impl Marks {
    /// How many marks there are to have.
    pub const LIMIT: u8 = 64;

    /// The set without a mark.
    pub fn empty() -> Marks
        ensures value { result ≡ none }
        ensures marks { (j : ℕ) → marked result j ≡ false }
    {
        Marks { bits: 0 }
    }

    /// Whether mark `i` is in the set; no mark from 64 on is.
    pub fn has(self, i: u8) -> bool
        ensures { result ≡ marked self i }
    {
        i < Marks::LIMIT && (self.bits >> i) & 1 == 1
    }

    /// The set with mark `i` too; with the same marks if `i` is 64 or more.
    pub fn with(self, i: u8) -> Marks
        ensures value { result ≡ added self i }
        ensures marks { (j : ℕ) → marked result j ≡ (marked self j || (nat_lt i 64 && j == i)) }
    {
        if i < Marks::LIMIT {
            Marks {
                bits: self.bits | (1 << i),
            }
        } else {
            self
        }
    }

    /// The set but for mark `i`.
    pub fn without(self, i: u8) -> Marks
        ensures value { result ≡ removed self i }
        ensures marks { (j : ℕ) → marked result j ≡ (marked self j && not (j == i)) }
    {
        if i < Marks::LIMIT {
            Marks {
                bits: self.bits & !(1 << i),
            }
        } else {
            self
        }
    }

    /// The marks of either set.
    pub fn union(self, other: Marks) -> Marks
        ensures value { result ≡ joined self other }
        ensures marks { (j : ℕ) → marked result j ≡ (marked self j || marked other j) }
    {
        Marks {
            bits: self.bits | other.bits,
        }
    }

    /// Whether no mark is in the set.
    pub fn is_empty(self) -> bool
        ensures marks { Decides result ((j : ℕ) → marked self j ≡ false) }
        ensures len { result ≡ (size self == 0) }
    {
        self.bits == 0
    }

    /// Whether each mark of this set is a mark of `other`.
    pub fn is_subset(self, other: Marks) -> bool
        ensures { Decides result ((j : ℕ) → marked self j ≡ true → marked other j ≡ true) }
    {
        self.union(other) == other
    }

    /// The number of marks in the set.
    pub fn len(self) -> u8
        ensures { result ≡ size self }
    {
        // At most 64, so the cast loses nothing; try_from would bring a case that never comes.
        self.bits.count_ones() as u8
    }

    /// The smallest mark that is not in the set, or `None` if all 64 are.
    pub fn first_missing(self) -> Option<u8>
        ensures { FirstMissing self result }
    {
        (0..Marks::LIMIT).find(|i| !self.has(*i))
    }
}

/// Equal sets are those with the same marks.
// By hand, since a derived `==` has no clause that says so.
impl PartialEq for Marks {
    ghost eq = { on (λ v. v.bits) nat_eq };

    ghost laws = { Prim.search (comparing, rules) };

    fn eq(&self, other: &Marks) -> bool
        ensures eq { result ≡ on (λ v. v.bits) nat_eq self.now other.now }
        ensures same { Same self.now other.now result }
    {
        self.bits == other.bits
    }
}
