//! Counted work.

ghost use Rattle.std.specs.Prelude.{◌≡◌};
ghost use Rattle.cq_board.specs.Work.{raised};

use cq_atom::Meter;

/// Counts of the work that edits took. What each edit adds stands at
/// [`Board::admit_counted`](crate::Board::admit_counted).
#[derive(Drop)]
pub struct Work {
    /// Tests of a head against a postcondition.
    pub tests: Meter,
    /// Visits of a query's groundings.
    pub visits: Meter,
    /// Edges that lost their matched provider.
    pub changes: Meter,
}

impl Work {
    /// Nothing was done yet.
    pub fn new() -> Work
        ensures tests { result.tests ≡ 0 }
        ensures visits { result.visits ≡ 0 }
        ensures changes { result.changes ≡ 0 }
    {
        Work {
            tests: Meter::new(),
            visits: Meter::new(),
            changes: Meter::new(),
        }
    }
    /// A count that goes up by nothing stays as it is, since it is a 64-bit number.
    pub(crate) fn rests(&self)
        ensures tests { raised self.now.tests 0 ≡ self.now.tests }
        ensures visits { raised self.now.visits 0 ≡ self.now.visits }
        ensures changes { raised self.now.changes 0 ≡ self.now.changes }
    {
        let _tests = self.tests.count();
        let _visits = self.visits.count();
        let _changes = self.changes.count();
    }
}
