//! The count of the bytes that are out.

ghost use Rattle.std.specs.Prelude.{◌≡◌, ◌≢◌, ◌≤◌, ◌<◌, ◌-◌, ◌^◌, ◌∷◌, ◌↔◌, [], IsTrue};
ghost use mathlib.Core.List.{IsPrefix};
ghost use Rattle.cq_budget.specs.Counting.{out_after, out_of, budget_of, IsWithin};
ghost use Rattle.cq_budget.specs.Steps.Rules.{word_of, EndsWith, GoesOn};
ghost use Rattle.cq_budget.specs.Steps.Ends.{Settles};
ghost use Rattle.cq_budget.specs.declared.change.Change.TheVariants.{Opened, Took, Gave};
ghost use Rattle.cq_budget.specs.declared.count.End.TheVariants.{Made, Lost};

use crate::change::Change;
use logbook::{Gain, Offer, Opening, Plain, Play, Rule, Seen, Start, Word};

/// The rule of the history: the shared word is what it leaves out, within its budget.
pub(crate) struct Kept;

impl Rule<Change, u64> for Kept {
    ghost use Rattle.std.specs.Prelude.{[]};
    ghost use base.Fml.{ftrue};
    ghost use Rattle.cq_budget.specs.Steps.Rules.{IsKept};

    ghost holds = { λ cells history. IsKept cells history };

    ghost first = { [] };

    ghost hinted = { λ n history. Unit {0} };

    ghost shows = { λ history. [] };

    ghost keeps = { λ names history. ftrue };

    ghost moves = { λ ask before after answer. Unit {0} };
}

/// A beginning of the history that was seen.
type History = Seen<Change, u64, Kept>;

/// Callers trade nothing.
struct Nothing;

impl Gain<Change, u64> for Nothing {
    ghost use base.Fml.{ftrue};

    ghost after = { λ names about answer. ftrue };
}

/// The history begins with the budget.
struct Begin;

impl Opening<u64, Change> for Begin {
    ghost use Rattle.std.specs.Prelude.{◌∷◌, []};
    ghost use Rattle.cq_budget.specs.declared.change.Change.TheVariants.{Opened};

    ghost log = { λ words budget. Opened budget ∷ [] };
}

/// The step that looks.
struct Look;

impl Play<Change, u64> for Look {
    ghost use Rattle.cq_budget.specs.Steps.Rules.{Looks};

    ghost then = { Looks };
}

/// The step that adds a change where the word is as it was found.
struct Add;

impl Play<Change, u64> for Add {
    ghost use Rattle.cq_budget.specs.Steps.Rules.{Adds};

    ghost then = { Adds };
}

impl Plain<Change, Change, u64> for Add {
    ghost use Rattle.std.specs.Prelude.{None};

    ghost ask = { λ change. change };

    ghost state = { λ change. None };
}

/// How a change ended.
#[derive(Clone, Copy, PartialEq, Eq)]
pub(crate) enum End {
    /// It stands in the history.
    Made,
    /// The budget has no room for it.
    Full,
    /// Other threads changed the word meanwhile.
    Lost,
}

/// How a change ended, with the history that says so.
#[derive(Drop)]
pub(crate) struct Attempt {
    end: End,
    seen: History,
}

impl Attempt {
    fn is_settled(&self) -> bool
        ensures { IsTrue result ↔ (self.now.end ≢ Lost) }
    {
        self.end != End::Lost
    }

    /// Whether nothing was counted.
    pub(crate) fn is_refused(self) -> bool
        ensures { IsTrue result ↔ (self.end ≢ Made) }
    {
        self.end != End::Made
    }

    /// Ends with no question.
    pub(crate) fn end(self) {
        drop(self);
    }
}

/// The count, with its budget.
#[derive(Drop)]
pub(crate) struct Count {
    word: Word<Change, u64, Kept>,
    budget: u64,
    seen: History,
    ghost word_is: { word ≡ word_of seen.book },
    ghost begun: { seen.log ≡ Opened budget ∷ [] },
}

impl Count {
    /// Nothing is out.
    pub(crate) fn new(budget: u64) -> Count
        ensures { result.budget ≡ budget }
    {
        let (seen, mut pens) = Seen::open_row::<u64, Begin>(&budget, Start::alone(), 1);
        Count {
            word: Word::tracked(0, &mut pens.take()),
            budget,
            seen,
        }
    }

    pub(crate) fn budget(&self) -> u64
        ensures { result ≡ self.now.budget }
    {
        self.budget
    }

    /// How many bytes are out.
    pub(crate) fn out(&self) -> u64
        ensures { result ≤ self.now.budget }
    {
        self.look(&self.seen).0
    }

    /// Counts so many bytes more, unless the budget has no room for them.
    pub(crate) fn take(&self, bytes: usize) -> Attempt
        ensures { Settles (2 ^ 64 - 1) result.end self.now.seen.log (Took bytes) result.seen.log }
    {
        self.change(Change::Took(bytes as u64))
    }

    /// Counts so many bytes less.
    pub(crate) fn give(&self, bytes: usize) -> Attempt
        ensures { Settles (2 ^ 64 - 1) result.end self.now.seen.log (Gave bytes) result.seen.log }
    {
        self.change(Change::Gave(bytes as u64))
    }

    /// Makes the change, unless the budget has no room for it. It gives up after `u64::MAX` tries, each of which
    /// another thread's change has foiled.
    fn change(&self, change: Change) -> Attempt
        ensures { Settles (2 ^ 64 - 1) result.end self.now.seen.log change result.seen.log }
    {
        let mut seen = self.seen.again();
        for _tried in 0..u64::MAX {
            let attempt = self.attempt(&seen, change);
            if attempt.is_settled() {
                return attempt;
            }
            seen = attempt.seen;
        }
        let end = End::Lost;
        Attempt { end, seen }
    }

    /// Tries the change once.
    #[tactic(auto, using(crate::proofs::Adding::prefix_trans))]
    fn attempt(&self, since: &History, change: Change) -> Attempt
        requires { GoesOn self.now.seen.book self.now.seen.log since.now.book since.now.log }
        ensures { Settles 1 result.end since.now.log change result.seen.log × GoesOn self.now.seen.book self.now.seen.log result.seen.book result.seen.log }
    {
        let (out, seen) = self.look(since);
        let Some(left) = change.left(out, self.budget) else {
            let end = End::Full;
            return Attempt { end, seen };
        };
        let (found, seen) = self.exchange(&seen, out, left, change);
        let end = if found == out { End::Made } else { End::Lost };
        Attempt { end, seen }
    }

    /// How many bytes are out, beside the history that says so.
    #[tactic(auto, using(crate::proofs::Adding::prefix_trans))]
    fn look(&self, since: &History) -> (u64, History)
        requires { GoesOn self.now.seen.book self.now.seen.log since.now.book since.now.log }
        ensures out { result.0 ≡ out_of result.1.log }
        ensures within { result.0 ≤ self.now.budget }
        ensures seen { IsPrefix since.now.log result.1.log × GoesOn self.now.seen.book self.now.seen.log result.1.book result.1.log }
    {
        let mut seen = since.again();
        let mut offer: Offer<Change, u64, Kept, Nothing> = seen.plain::<Nothing, Change, Add>(
            &Change::Took(0),
        );
        let out = self.word.load::<Look, Nothing>(&mut seen, &mut offer);
        (out, seen)
    }

    /// Makes the change where so many bytes are out, and says how many it found.
    #[tactic(auto, using(crate::proofs::Adding::prefix_trans))]
    fn exchange(&self, since: &History, out: u64, left: u64, change: Change) -> (u64, History)
        requires since { GoesOn self.now.seen.book self.now.seen.log since.now.book since.now.log }
        requires leaves { left ≡ out_after out change }
        requires within { left ≤ self.now.budget }
        ensures made { result.0 ≡ out → EndsWith since.now.log change result.1.log × IsWithin result.1.log }
        ensures lost { result.0 ≢ out → IsPrefix since.now.log result.1.log × (out_of result.1.log ≡ result.0) }
        ensures seen { GoesOn self.now.seen.book self.now.seen.log result.1.book result.1.log }
    {
        let mut seen = since.again();
        let mut offer: Offer<Change, u64, Kept, Nothing> = seen.plain::<Nothing, Change, Add>(
            &change,
        );
        let mut pen = seen.no_pen();
        let found = self
            .word
            .compare_exchange::<Add, Nothing>(out, left, &mut seen, &mut offer, &mut pen);
        (found, seen)
    }
}
