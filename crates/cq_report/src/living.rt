//! Lines that are answered one at a time, on and on.

ghost use Rattle.std.specs.Prelude.{◌≡◌, ◌<◌, ◌+◌, ◌^◌, OnOk, IfErr, IfSome, MatchResult};
ghost use Rattle.cq_report.specs.Lines.{lines_of};
ghost use Rattle.cq_report.specs.Live.{Answered, ReadNoFurther, Leaves, ReadsFailed, max_live_reads};
ghost use Rattle.cq_devices.specs.Device.{write_failures_of};

use crate::line_buffer::LineBuffer;
use crate::manner::Manner;
use crate::numbering::Numbering;
use crate::output::{Output, ROOM};
use crate::script::Script;
use crate::serving::serve;
use cq_devices::{MAX_PIECE, Sink, Source, Stop};
use std::alloc::Allocator;
use std::mem;

/// Answers lines one at a time, as long as there are any.
///
/// A line that [asks](cq_ask::read_ask) is answered from the published board, and changes nothing, but that `checkpoint` begins a new journal. After `quit` no line is answered, and nothing is read
/// after the read that brought it. Other lines are those of a script, with the replies of [`run`](crate::run). Each line is answered before the next read.
/// The board makes a checkpoint at the first publish after which at least `every` entries were entered since the last one, or never if `every` is 0. If an
/// allocation fails then, it tries again at the next publish. A line at which an allocation fails is answered `refused Memory` and changes nothing. Lines of up to 64 bytes that say `count`, `quit`, or `publish` with nothing to
/// publish need no memory.
///
/// # Errors
/// `Read` has the number, from 1, of the read that failed: all whole lines before it are answered. `Write` if the writer
/// fails. `NoMemory` if the first two allocations fail: then nothing was read.
pub fn live<A: Allocator + Copy, R: Source, W: Sink>(
    alloc: A,
    numbering: Numbering,
    every: u64,
    reader: &mut R,
    writer: &mut W,
) -> Result<(), Stop>
    requires reads { R.reads_made reader.old < 2 ^ 62 }
    requires failures { R.failures_met reader.old < 2 ^ 62 }
    requires write_failures { W.write_failures writer.old < 2 ^ 62 }

    // Where all went well, all lines of the input were answered.
    ensures answered { OnOk result (IfSome (R.left reader.old) (λ input. Answered numbering every (lines_of input) (W.taken writer.old) (W.taken writer.new))) }

    // No byte was read after the read that brought `quit`.
    ensures quits { OnOk result (ReadNoFurther numbering every (R.left reader.old) (R.left reader.new) (W.taken writer.old) (W.taken writer.new)) }

    // After a fault all whole lines were answered, or a front of the replies was written.
    ensures leaves { IfErr result (λ fault. Leaves numbering every fault (R.left reader.old) (R.left reader.new) (W.taken writer.old) (W.taken writer.new)) }

    // Whose fault it was.
    ensures write_failures { MatchResult result (λ _. W.write_failures writer.new ≡ W.write_failures writer.old) (λ fault. W.write_failures writer.new ≡ W.write_failures writer.old + write_failures_of fault) }
    ensures read_failures { MatchResult result (λ _. R.failures_met reader.new ≡ R.failures_met reader.old) (λ fault. ReadsFailed max_live_reads fault (R.reads_made reader.old) (R.reads_made reader.new) (R.failures_met reader.old) (R.failures_met reader.new)) }
{
    let mut room = Vec::with_capacity(alloc, ROOM)?;
    let mut line = LineBuffer::begin(alloc)?;
    let mut output = Output::new(writer, &mut room);
    let mut script = Script::begin_life(alloc, numbering, every);
    let mut piece = [0u8; MAX_PIECE];
    let manner = Manner::Live;
    let ended = serve(
        &mut script,
        manner,
        &mut line,
        &mut piece,
        reader,
        &mut output,
    );
    mem::drop(line);
    mem::drop(script);
    ended
}
