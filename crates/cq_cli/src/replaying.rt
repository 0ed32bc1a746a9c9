//! Replays a script.

ghost use Rattle.std.specs.Prelude.{◌≡◌, ◌≢◌, ◌<◌, ◌^◌, ◌⊎◌, ◌++◌, List, [], ℕ, codes, string_bytes, IfOk, IfSome, OnOk};
ghost use Rattle.std.specs.Option.{is_some};
ghost use Rattle.cq_render.specs.Report.{line};
ghost use Rattle.cq_report.specs.Machine.{State};
ghost use Rattle.cq_report.specs.Output.{Heard, left_in};
ghost use Rattle.cq_report.specs.Summary.{summary};
ghost use Rattle.cq_cli.specs.Devices.{counts, HaveRoom, LeavesRefused, ReportsFailures, ReportsWriting};
ghost use Rattle.cq_cli.specs.Status.{status_after, IsRefused};
ghost use Rattle.cq_cli.specs.Told.{end_words, told_lines, summary_if, IsReplayed, status_of_text, IsToldOf};
ghost use Rattle.cq_cli.specs.Views.{ToldOn};
ghost use Rattle.cq_why.specs.Why.{is_mark};

use crate::ahead::LookAhead;
use crate::status::Status;
use crate::writing::{marked_notes, tell, tell_fault};
use cq_devices::{Counted, Sink, Source, Stop, read_whole};
use cq_report::{Numbering, Played, Script, put_summary, run};
use cq_why::put_whys;
use std::alloc::{AllocError, Allocator, Global};

/// The line that sums up what a script leaves.
fn line_of<A: Allocator + Copy>(
    heap: A,
    origin: &str,
    played: &Played<A>,
) -> Result<String<A>, AllocError>
    ensures { IfOk result (λ text. string_bytes text ≡ line (codes "board: " ++ origin.now ++ summary played.now)) }
{
    let mut words = String::new(heap);
    put_summary(played, &mut words)?;
    format!(in heap; "board: {origin}{words}\n")
}

/// The line that sums up a script.
fn summary_line<A: Allocator + Copy>(
    heap: A,
    origin: &str,
    ran: Script<A>,
) -> Result<String<A>, AllocError>
    ensures { IfOk result (λ text. string_bytes text ≡ line (codes "board: " ++ origin.now ++ summary (left_in ran))) }
{
    let played = ran.into_played()?;
    line_of(heap, origin, &played)
}

/// How a script is replayed.
#[derive(Clone, Copy, Debug, PartialEq, Eq)]
pub(crate) struct Replaying {
    /// Whether replies have the numbers of their lines.
    pub(crate) numbering: Numbering,
    /// Whether it ends at the first line that is refused.
    pub(crate) is_strict: bool,
    /// Whether it is summed up in the end.
    pub(crate) is_summed: bool,
    /// Whether it is told in the end what is wrong with lines.
    pub(crate) is_told: bool,
}

/// How the program ends after a script, of which a line may have been refused.
fn status_after(is_strict: bool, has_refused: bool) -> Status
    ensures { result ≡ status_after is_strict has_refused }
{
    if is_strict && has_refused {
        Status::LineRefused
    } else {
        Status::Done
    }
}

/// The line that sums up a script, where that is asked for.
fn summary_line_if<A: Allocator + Copy>(
    heap: A,
    origin: &str,
    is_summed: bool,
    ran: Script<A>,
) -> Result<String<A>, AllocError>
    ensures { IfOk result (λ text. string_bytes text ≡ summary_if is_summed origin.now ran) }
{
    if is_summed {
        summary_line(heap, origin, ran)
    } else {
        Ok(String::new(heap))
    }
}

/// What is told of a script in the end: that a byte order mark stands in front of it, if one does, and the summary, where it is asked for.
fn end_text<A: Allocator + Copy>(
    heap: A,
    origin: &str,
    is_marked: bool,
    is_summed: bool,
    ran: Script<A>,
) -> Result<String<A>, AllocError>
    ensures { IfOk result (λ text. string_bytes text ≡ end_words origin.now is_marked is_summed ran) }
{
    let summary = summary_line_if(heap, origin, is_summed, ran)?;
    marked_notes(heap, origin, is_marked, summary)
}

/// Tells what is to be told of a script in the end, and says how the program ends.
fn end_replay<A: Allocator + Copy, E: Sink>(
    alloc: Global,
    heap: A,
    origin: &str,
    is_marked: bool,
    replaying: Replaying,
    ran: Script<A>,
    errors: &mut E,
) -> Status
    requires { E.write_failures errors.old < 2 ^ 62 }
    ensures told { result ≢ Status.NoMemory → ToldOn (E.write_failures errors.old) (E.write_failures errors.new) (E.taken errors.old) (E.taken errors.new) (end_words origin.now is_marked replaying.is_summed ran) }
    ensures status { (result ≡ Status.NoMemory) ⊎ (result ≡ status_after replaying.is_strict (is_some ran.tally.first)) }
{
    let status = status_after(replaying.is_strict, ran.has_refused());
    match end_text(heap, origin, is_marked, replaying.is_summed, ran) {
        Ok(text) => {
            tell(errors, &text);
            status
        }
        Err(AllocError) => {
            tell_fault(alloc, origin, &Stop::NoMemory, errors);
            Status::NoMemory
        }
    }
}

/// As many lines as were heard, or the most that are told of.
fn told_lines(lines: u128) -> u64
    ensures { result ≡ told_lines lines }
{
    if lines < 18_446_744_073_709_551_615 {
        lines as u64
    } else {
        u64::MAX
    }
}

/// Puts the line that sums up what a script leaves, where that is asked for.
fn put_summary_if<A: Allocator + Copy>(
    heap: A,
    origin: &str,
    is_summed: bool,
    played: &Played<A>,
    page: &mut String<A>,
) -> Result<(), AllocError>
    ensures { (state : State) → left_in state ≡ played.now → OnOk result (string_bytes page.new ≡ string_bytes page.old ++ summary_if is_summed origin.now state) }
{
    if is_summed {
        let text = line_of(heap, origin, played)?;
        page.push_str(text.as_str())?;
    }
    Ok(())
}

/// What is told of a script in the end: what is wrong with its lines, and the summary, where it is asked for.
fn told_text<A: Allocator + Copy>(
    heap: A,
    origin: &str,
    is_summed: bool,
    script: &[u8],
    ran: Script<A>,
) -> Result<String<A>, AllocError>
    ensures { IfOk result (λ text. IsToldOf origin.now is_summed script.now ran (string_bytes text)) }
{
    let played = ran.into_played()?;
    let board = played.board();
    let mut text = String::new(heap);
    put_whys(
        heap,
        origin,
        told_lines(played.lines()),
        board.limits(),
        board.tables().catalog(),
        script,
        &mut text,
    )?;
    put_summary_if(heap, origin, is_summed, &played, &mut text)?;
    Ok(text)
}

/// Tells what is wrong with the lines of a script, and says how the program ends.
fn end_told<A: Allocator + Copy, E: Sink>(
    alloc: Global,
    heap: A,
    origin: &str,
    replaying: Replaying,
    script: &[u8],
    ran: Script<A>,
    errors: &mut E,
) -> Status
    requires { E.write_failures errors.old < 2 ^ 62 }
    ensures told { result ≢ Status.NoMemory → (text : List ℕ) × IsToldOf origin.now replaying.is_summed script.now ran text × ToldOn (E.write_failures errors.old) (E.write_failures errors.new) (E.taken errors.old) (E.taken errors.new) text }
    ensures status { (result ≡ Status.NoMemory) ⊎ (result ≡ status_after replaying.is_strict (is_some ran.tally.first)) }
{
    let status = status_after(replaying.is_strict, ran.has_refused());
    match told_text(heap, origin, replaying.is_summed, script, ran) {
        Ok(words) => {
            tell(errors, &words);
            status
        }
        Err(AllocError) => {
            tell_fault(alloc, origin, &Stop::NoMemory, errors);
            Status::NoMemory
        }
    }
}

/// How the program ends after a script that was in memory.
fn status_of_text(fault: Stop) -> Status
    ensures { result ≡ status_of_text fault }
{
    match fault {
        Stop::Read { turn: _ } => Status::BadFile,
        Stop::Write => Status::Failed,
        Stop::NoMemory => Status::NoMemory,
    }
}

/// Replays a script that is in memory, and tells what is wrong with its lines.
fn replay_text<A: Allocator + Copy, W: Sink, E: Sink>(
    alloc: Global,
    heap: A,
    origin: &str,
    replaying: Replaying,
    script: &[u8],
    sink: &mut W,
    errors: &mut E,
) -> Status
    requires sink { W.write_failures sink.old < 2 ^ 62 }
    requires errors { E.write_failures errors.old < 2 ^ 62 }
    ensures failures { ReportsWriting (W.write_failures sink.old) (W.write_failures sink.new) result }
    ensures served { IsRefused result → ⊥ }
{
    let mut source = Counted::new(script);
    match run(
        heap,
        replaying.numbering,
        replaying.is_strict,
        &mut source,
        sink,
    ) {
        Ok(ran) => end_told(alloc, heap, origin, replaying, script, ran, errors),
        Err(fault) => {
            tell_fault(alloc, origin, &fault, errors);
            status_of_text(fault)
        }
    }
}

/// Reads the script that the source gives to its end, replays it, and reports what is wrong with its lines.
pub(crate) fn replay_explained<A: Allocator + Copy, R: Source, W: Sink, E: Sink>(
    alloc: Global,
    heap: A,
    origin: &str,
    replaying: Replaying,
    source: &mut R,
    sink: &mut W,
    errors: &mut E,
) -> Status
    requires devices { HaveRoom (counts R.reads_made R.failures_met W.write_failures source.old sink.old) }
    requires errors { E.write_failures errors.old < 2 ^ 62 }
    ensures failures { ReportsFailures (counts R.reads_made R.failures_met W.write_failures source.old sink.old) (counts R.reads_made R.failures_met W.write_failures source.new sink.new) result }
    ensures refused { LeavesRefused source.old source.new sink.old sink.new result }
{
    match read_whole(heap, source) {
        Ok(script) => replay_text(alloc, heap, origin, replaying, &script, sink, errors),
        Err(stop) => {
            tell_fault(alloc, origin, &stop, errors);
            Status::of_run(stop)
        }
    }
}

/// Replays the script that the source gives, and reports what there is to report in the end, or an error.
pub(crate) fn replay<A: Allocator + Copy, R: LookAhead, W: Sink, E: Sink>(
    alloc: Global,
    heap: A,
    origin: &str,
    replaying: Replaying,
    source: &mut R,
    sink: &mut W,
    errors: &mut E,
) -> Status
    requires devices { HaveRoom (counts R.reads_made R.failures_met W.write_failures source.old sink.old) }
    requires errors { E.write_failures errors.old < 2 ^ 62 }
    ensures told { result ≢ Status.NoMemory → result ≢ Status.Failed → IfSome (R.left source.old) (λ input. IsReplayed replaying.is_strict replaying.is_summed replaying.numbering origin.now input result (W.taken sink.old) (W.taken sink.new) (ToldOn (E.write_failures errors.old) (E.write_failures errors.new) (E.taken errors.old) (E.taken errors.new))) }
    ensures failures { ReportsFailures (counts R.reads_made R.failures_met W.write_failures source.old sink.old) (counts R.reads_made R.failures_met W.write_failures source.new sink.new) result }
    ensures refused { LeavesRefused source.old source.new sink.old sink.new result }
{
    let Ok(is_marked) = source.has_mark() else {
        tell_fault(alloc, origin, &Stop::Read { turn: 1 }, errors);
        return Status::Failed;
    };
    match run(heap, replaying.numbering, replaying.is_strict, source, sink) {
        Ok(ran) => end_replay(alloc, heap, origin, is_marked, replaying, ran, errors),
        Err(fault) => {
            tell_fault(alloc, origin, &fault, errors);
            Status::of_run(fault)
        }
    }
}
