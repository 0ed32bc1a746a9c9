//! How lines are served.

ghost use Rattle.std.specs.Prelude.{◌≡◌, true};
ghost use Rattle.cq_report.specs.Live.{most_reads};

use cq_devices::MAX_READS;

/// The most reads of one life. No life is so long.
const MOST_READS: u64 = 1 << 62;

/// How lines are served.
#[derive(Clone, Copy, Debug, PartialEq, Eq)]
pub(crate) enum Manner {
    /// As those of a script, which ask nothing. An allocation that fails ends it; if it is strict, so does the first
    /// line that is refused.
    Script { is_strict: bool },
    /// As they come. They may ask, and one at which an allocation fails is refused.
    Live,
}

impl Manner {
    /// Returns how many reads are made at most.
    pub(crate) fn most_reads(self) -> u64
        ensures { result ≡ most_reads self }
    {
        match self {
            Manner::Script { is_strict: _ } => u64::from(MAX_READS),
            Manner::Live => MOST_READS,
        }
    }
}
