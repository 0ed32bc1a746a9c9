//! Where bytes come from.
//!
//! A reader counts its own reads and failures, so that whoever reads from it can say which read
//! failed, and that a fault was answered only because the reader failed.

ghost use Rattle.std.specs.Prelude.{◌≡◌, ◌<◌, ◌+◌, ◌^◌, ◌-◌, ℕ, List, Option, MatchResult};
ghost use Rattle.std.specs.Io.{ReadsAtMost};
ghost use Rattle.std.specs.Io.KnownBytes.{ReadConsumes};

/// A device failed. Which failure it was is not kept.
#[derive(Clone, Copy, Debug, PartialEq, Eq)]
pub struct Failed;

/// Where bytes come from: a reader that counts its calls.
pub trait Source {
    // The bytes that reads will give from here on, where the reader tells them.
    ghost left: { Self → Option (List ℕ) };

    // How many times `read` has been called.
    ghost reads_made: { Self → ℕ };

    // How many of these calls have answered `Failed`.
    ghost failures_met: { Self → ℕ };

    /// Puts the next bytes at the front of `buf`, and answers how many they are.
    ///
    /// `Ok(0)` into room that is not empty means that nothing is left. After `Failed` no byte is
    /// lost: the next read gives what this one did not.
    fn read(&mut self, buf: &mut [u8]) -> Result<usize, Failed>
        requires reads { reads_made self.old < 2 ^ 64 - 1 }
        requires failures { failures_met self.old < 2 ^ 64 - 1 }
        ensures bound { ReadsAtMost result buf.new }
        ensures bytes { ReadConsumes (left self.old) (left self.new) result buf.new }
        ensures reads { reads_made self.new ≡ reads_made self.old + 1 }
        ensures failures { MatchResult result (λ _. failures_met self.new ≡ failures_met self.old) (λ _. failures_met self.new ≡ failures_met self.old + 1) };

    /// How many reads were made.
    fn reads(&self) -> u64
        ensures { result ≡ reads_made self.now };

    /// How many reads failed.
    fn failures(&self) -> u64
        ensures { result ≡ failures_met self.now };
}
