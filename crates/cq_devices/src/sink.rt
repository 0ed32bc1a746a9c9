//! Where bytes go.
//!
//! A writer counts its failures, so that a fault of writing is answered only because the writer
//! failed.

ghost use Rattle.std.specs.Prelude.{◌≡◌, ◌<◌, ◌+◌, ◌^◌, ◌-◌, ℕ, List, Option, MatchResult, IfOk, OnOk, OnErr, length};
ghost use Rattle.std.specs.Io.{WritesAtMost};
ghost use Rattle.std.specs.Io.KnownBytes.{Appends, WriteAppends, Keeps};
ghost use Rattle.cq_devices.specs.Device.{TakesFront};

use crate::source::Failed;

/// Where bytes go: a writer that counts its failures.
pub trait Sink {
    // The bytes that the writer has taken, where it tells them.
    ghost taken: { Self → Option (List ℕ) };

    // How many calls of `write` and `flush` have answered `Failed`.
    ghost write_failures: { Self → ℕ };

    /// Takes bytes from the front of `bytes`, and answers how many.
    ///
    /// Of bytes that are not empty it takes at least one, or answers `Failed`; then it has taken
    /// none.
    fn write(&mut self, bytes: &[u8]) -> Result<usize, Failed>
        requires { write_failures self.old < 2 ^ 64 - 1 }
        ensures bound { WritesAtMost result bytes.now }
        ensures some { IfOk result (λ n. 0 < length bytes.now → 0 < n) }
        ensures bytes { WriteAppends (taken self.old) (taken self.new) result bytes.now }
        ensures failures { MatchResult result (λ _. write_failures self.new ≡ write_failures self.old) (λ _. write_failures self.new ≡ write_failures self.old + 1) };

    /// Passes on what the writer itself still holds back.
    fn flush(&mut self) -> Result<(), Failed>
        requires { write_failures self.old < 2 ^ 64 - 1 }
        ensures bytes { Keeps (taken self.old) (taken self.new) }
        ensures failures { MatchResult result (λ _. write_failures self.new ≡ write_failures self.old) (λ _. write_failures self.new ≡ write_failures self.old + 1) };

    /// How many calls failed.
    fn failures(&self) -> u64
        ensures { result ≡ write_failures self.now };
}

/// Writes all the bytes, by as many writes as it takes.
///
/// # Errors
/// `Failed` where a write failed; a front of the bytes is taken then.
pub fn write_all<W: Sink>(sink: &mut W, bytes: &[u8]) -> Result<(), Failed>
    requires { W.write_failures sink.old < 2 ^ 62 }
    ensures ok { OnOk result (Appends (W.taken sink.old) (W.taken sink.new) bytes.now) }
    ensures err { OnErr result (TakesFront (W.taken sink.old) (W.taken sink.new) bytes.now) }
    ensures failures { MatchResult result (λ _. W.write_failures sink.new ≡ W.write_failures sink.old) (λ _. W.write_failures sink.new ≡ W.write_failures sink.old + 1) }
{
    let mut at = 0;
    while at < bytes.len() {
        at += sink.write(&bytes[at..])?;
    }
    Ok(())
}
