//! Reads all that a source has.

ghost use Rattle.std.specs.Prelude.{◌≡◌, ◌<◌, ◌≤◌, ◌+◌, ◌^◌, [], length, OnOk, IfOk, IfErr, MatchResult};
ghost use Rattle.cq_devices.specs.Limits.{max_reads};
ghost use Rattle.cq_devices.specs.Device.{FailedAtTurn, IfAtTurn, IsAtTurn, ReadWhole, write_failures_of};

use crate::limits::{MAX_PIECE, MAX_READS};
use crate::source::Source;
use crate::stop::Stop;
use std::alloc::Allocator;

/// Reads pieces to the end, and adds them to the bytes. All that it works with is lent, so that no exit has
/// anything to let go.
fn read_pieces<A: Allocator, R: Source>(
    piece: &mut [u8],
    source: &mut R,
    bytes: &mut Vec<u8, A>,
) -> Result<(), Stop>
    requires piece { 0 < length piece.old }
    requires bytes { bytes.old.items ≡ [] }
    requires reads { R.reads_made source.old < 2 ^ 62 }
    requires failures { R.failures_met source.old < 2 ^ 62 }
    ensures whole { OnOk result (ReadWhole (R.left source.old) (R.left source.new) bytes.new.items) }
    ensures turn { IfErr result (λ stop. IfAtTurn stop (λ turn. FailedAtTurn turn (R.reads_made source.old) (R.reads_made source.new) (R.failures_met source.old) (R.failures_met source.new))) }
    ensures reads { R.reads_made source.new ≤ R.reads_made source.old + max_reads }
    ensures failures { MatchResult result (λ _. R.failures_met source.new ≡ R.failures_met source.old) (λ stop. (IsAtTurn stop → ⊥) → R.failures_met source.new ≡ R.failures_met source.old) }
    ensures no_write { IfErr result (λ stop. write_failures_of stop ≡ 0) }
{
    for i in 0..MAX_READS {
        let Ok(len) = source.read(piece) else {
            let turn = u64::from(i) + 1;
            return Err(Stop::Read { turn });
        };
        if len == 0 {
            return Ok(());
        }
        bytes.extend_from_slice(&piece[..len])?;
    }
    Err(Stop::Read {
        turn: u64::from(MAX_READS) + 1,
    })
}

/// Reads all that the source has left, by reads of up to 4,096 bytes, of which there are at most 1,048,576.
///
/// The time is in proportion to the bytes. The source's calls are counted, and how many were made and how many failed is reported
/// with every end, so that a reader without end ends as well.
///
/// # Errors
///
/// `Read` tells the number, from 1, of the read that failed, and 1,048,577 where no read failed and none came to the end;
/// `NoMemory` says that an allocation failed. What was read before is lost with either.
pub fn read_whole<A: Allocator, R: Source>(alloc: A, source: &mut R) -> Result<Vec<u8, A>, Stop>
    requires reads { R.reads_made source.old < 2 ^ 62 }
    requires failures { R.failures_met source.old < 2 ^ 62 }

    // All bytes up to the end, and the source is at its end.
    ensures whole { IfOk result (λ bytes. ReadWhole (R.left source.old) (R.left source.new) bytes.items) }

    // Whose fault it was.
    ensures turn { IfErr result (λ stop. IfAtTurn stop (λ turn. FailedAtTurn turn (R.reads_made source.old) (R.reads_made source.new) (R.failures_met source.old) (R.failures_met source.new))) }
    ensures reads { R.reads_made source.new ≤ R.reads_made source.old + max_reads }
    ensures failures { MatchResult result (λ _. R.failures_met source.new ≡ R.failures_met source.old) (λ stop. (IsAtTurn stop → ⊥) → R.failures_met source.new ≡ R.failures_met source.old) }
    ensures no_write { IfErr result (λ stop. write_failures_of stop ≡ 0) }
{
    let mut bytes = Vec::new(alloc);
    let mut piece = [0u8; MAX_PIECE];
    read_pieces(&mut piece, source, &mut bytes)?;
    Ok(bytes)
}
