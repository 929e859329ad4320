//! How many cases were tried, and how many agreed.
use std::fmt;
use std::ops::AddAssign;

#[derive(Clone, Copy, Default)]
pub struct Score {
    agreed: u32,
    cases: u32,
}

impl Score {
    /// One case more.
    pub fn count(&mut self, agrees: bool) {
        *self += Score {
            agreed: u32::from(agrees),
            cases: 1,
        };
    }

    pub fn all_agreed(&self) -> bool {
        self.agreed == self.cases
    }
}

impl AddAssign<Score> for Score {
    /// The cases of another group too.
    fn add_assign(&mut self, other: Score) {
        self.agreed = self.agreed.saturating_add(other.agreed);
        self.cases = self.cases.saturating_add(other.cases);
    }
}

impl fmt::Display for Score {
    fn fmt<W: fmt::Write>(&self, f: &mut fmt::Formatter<W>) -> fmt::Result {
        write!(f, "{} of {} agreed", self.agreed, self.cases)
    }
}
