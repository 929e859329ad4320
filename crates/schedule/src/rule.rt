//! What clashes with what.
ghost use Rattle.std.specs.Prelude.{◌≡◌, ℕ, ◌≤◌, Bool};
ghost use Rattle.schedule.specs.Laws.{Laws};

/// A clash rule: how many items there are, and whether two of them clash.
///
/// Every rule shows that clashing is mutual, that no item clashes with itself, and that there are
/// at most `MOST` items, which is never over 512.
pub trait ClashRule {
    /// The most items that a map can have under this rule.
    const MOST: usize;

    // What `MOST` is, for clauses: an impl on a type with a lifetime can give no constant that
    // clauses cite.
    ghost most: { ℕ };

    ghost items: { Self → ℕ };

    ghost clash: { Self → ℕ → ℕ → Bool };

    // Above the methods, so that clauses may cite it.
    ghost laws: { Laws items clash most };

    /// `MOST`, where a proof has to know it.
    fn limit() -> usize
        ensures { result ≡ most };

    /// The number of items.
    fn count(&self) -> usize
        ensures { result ≡ items self.now };

    /// Whether items `a` and `b` clash.
    fn clashes(&self, a: usize, b: usize) -> bool
        ensures { result ≡ clash self.now a b };
}

// The number of items, which the rule's limit bounds.
pub(crate) fn bounded<C: ClashRule>(rule: &C) -> usize
    ensures value { result ≡ C.items rule.now }
    ensures bound { (result ≤ C.most) × (C.most ≤ 512) }
{
    rule.count()
}
