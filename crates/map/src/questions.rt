//! What a map tells.
ghost use Rattle.std.specs.Prelude.{◌≡◌, ℕ, Decides};
ghost use Rattle.marks.specs.View.{marked, size};
ghost use Rattle.map.specs.View.{Contend, degree, link_count, linked, nodes, contender_count};

use crate::Map;
use marks::Marks;

impl Map {
    /// The number of nodes.
    pub fn count(&self) -> u8
        ensures { result ≡ nodes self.now }
    {
        self.count
    }

    /// The nodes linked to `n`; none if `n` is no node of the map.
    pub fn neighbours(&self, n: u8) -> Marks
        ensures marks { (b : ℕ) → marked result b ≡ linked self.now n b }
        ensures len { size result ≡ degree self.now n }
    {
        if n < self.count {
            self.rows[usize::from(n)]
        } else {
            Marks::empty()
        }
    }

    /// Whether `a` and `b` are neighbours.
    pub fn linked(&self, a: u8, b: u8) -> bool
        ensures { result ≡ linked self.now a b }
    {
        self.neighbours(a).has(b)
    }

    /// The number of neighbours of `n`.
    pub fn degree(&self, n: u8) -> u8
        ensures { result ≡ degree self.now n }
    {
        self.neighbours(n).len()
    }

    /// The contenders of `n`: the nodes other than `n` that are neighbours of `n` or of one.
    pub fn contenders(&self, n: u8) -> Marks
        ensures marks { (b : ℕ) → Decides (marked result b) (Contend self.now n b) }
        ensures len { size result ≡ contender_count self.now n }
        ensures swaps { (a b : ℕ) → Contend self.now a b → Contend self.now b a }
        ensures apart { (a : ℕ) → Contend self.now a a → ⊥ }
    {
        let near = self.neighbours(n);
        (0..self.count)
            .filter(|i| near.has(*i))
            .fold(near, |all, i| all.union(self.neighbours(i)))
            .without(n)
    }

    /// The number of links; a linked pair counts once.
    pub fn links(&self) -> u16
        ensures { result ≡ link_count self.now }
    {
        let ends = (0..self.count)
            .map(|n| u16::from(self.degree(n)))
            .sum::<u16>();
        ends / 2
    }
}
