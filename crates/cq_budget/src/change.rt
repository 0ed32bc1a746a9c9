//! The changes of a count.

ghost use Rattle.std.specs.Prelude.{◌≡◌, ◌≤◌, ◌<◌, MatchOption};
ghost use Rattle.cq_budget.specs.Counting.{out_after};

/// A change of the bytes that are out.
#[derive(Clone, Copy)]
pub(crate) enum Change {
    /// The history begins, with this budget.
    Opened(u64),
    /// So many bytes were handed out.
    Took(u64),
    /// So many bytes came back.
    Gave(u64),
}

impl Change {
    /// How many bytes are out after the change, where the budget has room for it.
    pub(crate) fn left(self, out: u64, budget: u64) -> Option<u64>
        requires { out ≤ budget }
        ensures { MatchOption result (budget < out_after out self) (λ left. (left ≡ out_after out self) × (left ≤ budget)) }
    {
        match self {
            Change::Opened(_) => Some(out),
            Change::Took(bytes) => {
                if bytes > budget - out {
                    None
                } else {
                    Some(out + bytes)
                }
            }
            Change::Gave(bytes) => Some(out.saturating_sub(bytes)),
        }
    }
}
