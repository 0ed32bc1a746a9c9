//! Serves the lines of a source.

ghost use Rattle.std.specs.Prelude.{◌≡◌, ◌<◌, ◌≤◌, ◌+◌, ◌^◌, Some, length, [], false, OnOk, IfErr, MatchResult};
ghost use Rattle.cq_report.specs.Live.{is_done, most_reads, ReadsFailed};
ghost use Rattle.cq_report.specs.Steps.Count.{lines_before};
ghost use Rattle.cq_report.specs.Steps.Serving.{Finishes, IsSound, ServedOut, ServesOn, Stopped, StopsOn};
ghost use Rattle.cq_report.specs.Steps.Written.{Fails};
ghost use Rattle.cq_devices.specs.Device.{write_failures_of};

use crate::line_buffer::LineBuffer;
use crate::manner::Manner;
use crate::output::Output;
use crate::running::first_line;
use crate::script::Script;
use cq_devices::{MAX_PIECE, Sink, Source, Stop};
use std::alloc::Allocator;

/// Serves each line that the piece ends, and keeps what begins the next one.
fn feed<W: Sink, A: Allocator + Copy>(
    script: &mut Script<A>,
    manner: Manner,
    line: &mut LineBuffer<A>,
    output: &mut Output<'_, W, A>,
    piece: &[u8],
) -> Result<(), Stop>
    requires failures { W.write_failures output.old.sink.now < 2 ^ 62 }
    requires lines { lines_before script.old + length piece.now < 2 ^ 100 }
    ensures lines { OnOk result (lines_before script.new ≤ lines_before script.old + length piece.now) }
    ensures ok { OnOk result (ServesOn manner W.taken W.write_failures output.old output.new script.old script.new line.old line.new piece.now) }
    ensures sound { OnOk result (IsSound W.write_failures output.old output.new) }
    ensures err { IfErr result (λ stop. StopsOn manner W.taken W.write_failures output.old output.new script.old line.old piece.now stop) }
    ensures fails { IfErr result (λ stop. Fails W.write_failures output.old output.new stop) }
{
    let mut rest = piece;
    while let Some((last, behind)) = first_line(rest) {
        line.end(last);
        script.answer(manner, line.whole(last), output)?;
        line.clear();
        rest = behind;
    }
    line.extend(rest);
    Ok(())
}

/// Serves the last line, if no LF ends it, and passes on all that waits.
fn finish<W: Sink, A: Allocator + Copy>(
    script: &mut Script<A>,
    manner: Manner,
    line: &LineBuffer<A>,
    output: &mut Output<'_, W, A>,
) -> Result<(), Stop>
    requires failures { W.write_failures output.old.sink.now < 2 ^ 62 }
    requires lines { lines_before script.old < 2 ^ 100 }
    ensures ok { OnOk result (Finishes manner W.taken W.write_failures output.old output.new script.old script.new line.now) }
    ensures held { OnOk result (output.new.held.now.items ≡ []) }
    ensures sound { OnOk result (IsSound W.write_failures output.old output.new) }
    ensures err { IfErr result (λ stop. StopsOn manner W.taken W.write_failures output.old output.new script.old line.now [] stop) }
    ensures fails { IfErr result (λ stop. Fails W.write_failures output.old output.new stop) }
{
    if line.is_new() {
        output.finish()?;
        return Ok(());
    }
    script.answer(manner, line.whole(b""), output)?;
    output.finish()?;
    Ok(())
}

/// Reads pieces to the end, or until no further line is heard, and serves the lines: all whole lines that were read are served, and the replies passed on,
/// before the next read. All that it works with is lent, so that no exit has anything to let go.
pub(crate) fn serve<A: Allocator + Copy, R: Source, W: Sink>(
    script: &mut Script<A>,
    manner: Manner,
    line: &mut LineBuffer<A>,
    piece: &mut [u8],
    reader: &mut R,
    output: &mut Output<'_, W, A>,
) -> Result<(), Stop>
    requires lines { lines_before script.old ≡ 0 }
    requires heard { is_done manner script.old ≡ false }
    requires line { line.old ≡ Some [] }
    requires piece { length piece.old ≡ MAX_PIECE }
    requires reads { R.reads_made reader.old < 2 ^ 62 }
    requires failures { R.failures_met reader.old < 2 ^ 62 }
    requires write_failures { W.write_failures output.old.sink.now < 2 ^ 62 }
    requires held { output.old.held.now.items ≡ [] }
    ensures ok { OnOk result (ServedOut manner W.taken W.write_failures script.old script.new (R.left reader.old) (R.left reader.new) output.old output.new) }
    ensures err { IfErr result (λ stop. Stopped manner W.taken W.write_failures script.old (R.left reader.old) (R.left reader.new) output.old output.new stop) }
    ensures writer { output.new.sink.ghost_name ≡ output.old.sink.ghost_name }
    ensures write_failures { MatchResult result (λ _. W.write_failures output.new.sink.now ≡ W.write_failures output.old.sink.now) (λ stop. W.write_failures output.new.sink.now ≡ W.write_failures output.old.sink.now + write_failures_of stop) }
    ensures reads { R.reads_made reader.new ≤ R.reads_made reader.old + most_reads manner }
    ensures read_failures { MatchResult result (λ _. R.failures_met reader.new ≡ R.failures_met reader.old) (λ stop. ReadsFailed (most_reads manner) stop (R.reads_made reader.old) (R.reads_made reader.new) (R.failures_met reader.old) (R.failures_met reader.new)) }
{
    let most = manner.most_reads();
    for i in 0..most {
        let Ok(len) = reader.read(piece) else {
            return Err(Stop::Read { turn: i + 1 });
        };
        if len == 0 {
            return finish(script, manner, line, output);
        }
        feed(script, manner, line, output, &piece[..len])?;
        output.write_out()?;
        if script.is_done(manner) {
            output.finish()?;
            return Ok(());
        }
    }
    Err(Stop::Read { turn: most + 1 })
}
