//! Runs a script.

ghost use Rattle.std.specs.Prelude.{◌≡◌, ◌==◌, ◌<◌, ◌≤◌, ◌+◌, ◌^◌, position, ◌++◌, ◌∷◌, IfOk, IfErr, IfSome, IfNone, MatchResult};
ghost use Rattle.cq_report.specs.Output.{Heard};
ghost use Rattle.cq_devices.specs.Device.{FailedAtTurn, IfAtTurn, IfMemory, IsAtTurn, write_failures_of};
ghost use Rattle.cq_report.specs.Run.{WroteWholeLines, WroteFirstLines, WroteFront};
ghost use Rattle.cq_report.specs.Steps.Playing.{ran};
ghost use Rattle.cq_report.specs.Lines.{HasNoEnd};

use crate::line_buffer::LineBuffer;
use crate::manner::Manner;
use crate::numbering::Numbering;
use crate::output::{Output, ROOM};
use crate::script::Script;
use crate::serving::serve;
use cq_devices::{MAX_PIECE, MAX_READS, Sink, Source, Stop};
use cq_text::one_reading;
use memchr::memchr;
use std::alloc::Allocator;
use std::mem;

/// The place of the first LF.
fn first_end(bytes: &[u8]) -> Option<usize>
    ensures { result ≡ position (λ byte. byte == 10) bytes.now }
{
    memchr(b'\n', bytes)
}

/// Returns the first line of the bytes without its LF, and the bytes after that, if there is an LF.
pub fn first_line(bytes: &[u8]) -> Option<(&[u8], &[u8])>
    ensures cut { IfSome result (λ parts. bytes.now ≡ parts.0.now ++ (10 ∷ parts.1.now)) }
    ensures line { IfSome result (λ parts. HasNoEnd parts.0.now) }
    ensures none { IfNone result (HasNoEnd bytes.now) }
{
    let end = first_end(bytes)?;
    let (line, behind) = bytes.split_at(end);
    let (_, rest) = behind.split_at(1);
    Some((line, rest))
}

/// The script after a run that ended so, if it went well.
fn run_of<A: Allocator + Copy>(
    script: Script<A>,
    ended: Result<(), Stop>,
) -> Result<Script<A>, Stop>
    ensures { result ≡ ran ended script }
{
    match ended {
        Ok(()) => Ok(script),
        Err(stop) => {
            mem::drop(script);
            Err(stop)
        }
    }
}

/// Runs a script: reads it to its end, writes the replies to its lines, and returns the script after them.
///
/// The bytes are cut into lines at LF. Each line is answered before the next read; a last line
/// without LF is answered at the end, and then the writer is flushed once. Reads are of up to
/// 4,096 bytes, and there are at most 1,048,576 of them. If replies are numbered, each reply that is not empty begins with the number of its line, from 1, and
/// `: `, once even if it has several lines; blank lines and comments count. A strict script ends at the first
/// line that is refused, once its reply is written: no later line is heard, and nothing more is read.
///
/// # Errors
///
/// `Read` has the number, from 1, of the read that failed, or 1,048,577 if no read failed and
/// none came to the end. `Write` if the writer fails. `NoMemory` if an allocation
/// fails: then all lines before that one were answered, and nothing of that one. Lines
/// that a fault cut off are not answered.
pub fn run<A: Allocator + Copy, R: Source, W: Sink>(
    alloc: A,
    numbering: Numbering,
    is_strict: bool,
    reader: &mut R,
    writer: &mut W,
) -> Result<Script<A>, Stop>
    requires reads { R.reads_made reader.old < 2 ^ 62 }
    requires failures { R.failures_met reader.old < 2 ^ 62 }
    requires write_failures { W.write_failures writer.old < 2 ^ 62 }

    // Where all went well, the output of the lines that are heard was written, however they are read, and what is left is the state after them.
    ensures heard { IfOk result (λ script. IfSome (R.left reader.old) (λ input. Heard is_strict numbering input (W.taken writer.old) (W.taken writer.new) script)) }

    // After a fault of reading the output of the whole lines was written; where memory ran out, that of the first lines, down to
    // somewhere in the last piece that was read; after any fault no more than a front of the output of what was read.
    ensures whole_lines { IfErr result (λ fault. IfAtTurn fault (λ turn. WroteWholeLines numbering (R.left reader.old) (R.left reader.new) (W.taken writer.old) (W.taken writer.new))) }
    ensures first_lines { IfErr result (λ fault. IfMemory fault (WroteFirstLines numbering (R.left reader.old) (R.left reader.new) (W.taken writer.old) (W.taken writer.new))) }
    ensures front { IfErr result (λ fault. WroteFront numbering (R.left reader.old) (R.left reader.new) (W.taken writer.old) (W.taken writer.new)) }

    // Whose fault it was.
    ensures turn { IfErr result (λ fault. IfAtTurn fault (λ turn. FailedAtTurn turn (R.reads_made reader.old) (R.reads_made reader.new) (R.failures_met reader.old) (R.failures_met reader.new))) }
    ensures reads { R.reads_made reader.new ≤ R.reads_made reader.old + MAX_READS }
    ensures read_failures { MatchResult result (λ _. R.failures_met reader.new ≡ R.failures_met reader.old) (λ fault. (IsAtTurn fault → ⊥) → R.failures_met reader.new ≡ R.failures_met reader.old) }
    ensures write_failures { MatchResult result (λ _. W.write_failures writer.new ≡ W.write_failures writer.old) (λ fault. W.write_failures writer.new ≡ W.write_failures writer.old + write_failures_of fault) }
{
    one_reading();
    let mut room = Vec::with_capacity(alloc, ROOM)?;
    let mut line = LineBuffer::begin(alloc)?;
    let mut output = Output::new(writer, &mut room);
    let mut script = Script::begin(alloc, numbering);
    let mut piece = [0u8; MAX_PIECE];
    let manner = Manner::Script { is_strict };
    let ended = serve(
        &mut script,
        manner,
        &mut line,
        &mut piece,
        reader,
        &mut output,
    );
    mem::drop(line);
    run_of(script, ended)
}
