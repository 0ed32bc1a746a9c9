//! How many lines are refused.

ghost use Rattle.std.specs.Prelude.{◌≡◌, ◌+◌, ◌<◌, ◌^◌, Some};
ghost use Rattle.cq_report.specs.Refusals.{no_refusal, first_refused, tallied};

use crate::refusal::Refusal;

/// A line that was refused.
#[derive(Clone, Copy, Debug, PartialEq, Eq)]
pub struct Refused {
    /// Its number. Lines count from 1.
    pub line: u128,
    /// Why it was refused.
    pub why: Refusal,
}

/// How many lines were refused, and the first of them.
#[derive(Clone, Copy, Debug, PartialEq, Eq)]
pub struct Tally {
    /// How many.
    pub refused: u128,
    /// The first of them, if there is one.
    pub first: Option<Refused>,
}

impl Tally {
    /// Nothing was refused yet.
    pub(crate) fn begin() -> Tally
        ensures { result ≡ no_refusal }
    {
        Tally {
            refused: 0,
            first: None,
        }
    }

    /// Keeps the first refused line, if it is the first.
    fn keep_first(&mut self, line: u128, why: Refusal)
        ensures { self.new ≡ record self.old { first = Some (first_refused self.old.first (record { line = line; why = why })) } }
    {
        if self.first.is_none() {
            self.first = Some(Refused { line, why });
        }
    }

    /// Adds the line of that number, if it is refused.
    pub(crate) fn add(&mut self, line: u128, why: Option<Refusal>)
        requires { self.old.refused < 2 ^ 100 }
        ensures { self.new ≡ tallied self.old line why }
    {
        if let Some(why) = why {
            self.keep_first(line, why);
            self.refused += 1;
        }
    }
}
