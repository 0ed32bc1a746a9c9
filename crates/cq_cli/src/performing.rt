//! Performs the task that the words ask for.

ghost use Rattle.std.specs.Prelude.{◌≡◌, ◌<◌, ◌^◌, nat_le};
ghost use Rattle.std.specs.Option.{is_some};
ghost use Rattle.cq_cli.specs.declared.status.Status.{Status};
ghost use Rattle.cq_cli.specs.Status.{over_source, IsRefused};
ghost use Rattle.cq_cli.specs.Devices.{counts, HaveRoom, LeavesRefused, ReportsFailures, ReportsOver, ReportsWriting};

use crate::ahead::LookAhead;
use crate::looking::answer_look;
use crate::planning::NoTask;
use crate::replaying::{replay, replay_explained};
use crate::rows::{Hint, RowsFault, SheetWords, write_rows};
use crate::sessions::{FileFault, serve_files};
use crate::status::Status;
use crate::wanted::{Task, VERSION_LINE};
use crate::writing::{tell, tell_fault, write_text};
use clap::Error;
use clap::error::ErrorKind;
use cq_devices::{Sink, Source, Stop};
use cq_report::{Numbering, live};
use std::alloc::{Allocator, Global};
use std::fs::Files;
use std::sync::Wait;
use std::thread::Threads;

/// The first record of CSV seems to be a header.
const HEADED: &str = "the first record seems to be a header; --header leaves it out";

/// The insert lines need a script of form 2.
const OF_FORM_TWO: &str =
    "a relation of more than 8 columns needs a script that begins with `board 2`";

/// Both, in two lines.
const HEADED_OF_FORM_TWO: &str = "the first record seems to be a header; --header leaves it out
board: a relation of more than 8 columns needs a script that begins with `board 2`";

/// What is printed if memory runs out.
const NO_MEMORY: &str = "board: out of memory\n";

/// What is printed if `--memory` is too small for the first edit of a live board.
const SMALL_SIZE: &str = "board: out of memory: a live board needs --memory 16384 at least\n";

/// Writes a text, and tells where that failed.
fn say<W: Sink, E: Sink>(alloc: Global, text: &str, sink: &mut W, errors: &mut E) -> Status
    requires sink { W.write_failures sink.old < 2 ^ 62 }
    requires errors { E.write_failures errors.old < 2 ^ 62 }
    ensures failures { ReportsWriting (W.write_failures sink.old) (W.write_failures sink.new) result }
    ensures refused { IsRefused result → (sink.new ≡ sink.old) }
{
    let Ok(()) = write_text(sink, text) else {
        tell_fault(alloc, "", &Stop::Write, errors);
        return Status::Failed;
    };
    Status::Done
}

/// Tells what is wrong with the words on the sink of errors, or writes the help or the version that they ask for
/// to the other.
fn answer_words<W: Sink, E: Sink>(
    alloc: Global,
    error: &Error,
    sink: &mut W,
    errors: &mut E,
) -> Status
    requires sink { W.write_failures sink.old < 2 ^ 62 }
    requires errors { E.write_failures errors.old < 2 ^ 62 }
    ensures failures { ReportsWriting (W.write_failures sink.old) (W.write_failures sink.new) result }
    ensures refused { IsRefused result → (sink.new ≡ sink.old) }
{
    let text = format!(in alloc; "{error}");
    let (Ok(text), false) = (text, error.kind() == ErrorKind::OutOfMemory) else {
        return starved(NO_MEMORY, errors);
    };
    if error.use_stderr() {
        tell(errors, &text);
        return Status::Usage;
    }
    say(alloc, &text, sink, errors)
}

/// Prints that memory ran out.
fn starved<E: Sink>(text: &str, errors: &mut E) -> Status
    requires { E.write_failures errors.old < 2 ^ 62 }
    ensures { result ≡ Status.NoMemory }
{
    tell(errors, text);
    Status::NoMemory
}

/// Tells that the word is no number of bytes, in the form in which `clap` tells the other faults of words.
fn tell_size<E: Sink>(alloc: Global, word: &str, errors: &mut E)
    requires { E.write_failures errors.old < 2 ^ 62 }
{
    let text = format!(in alloc;
        "error: invalid value '{word}' for '--memory <BYTES>': no number of bytes, as 65536, 64K, 16M or 1G

For more information, try '--help'.
"
    );
    match text {
        Ok(text) => tell(errors, &text),
        Err(_) => tell(errors, NO_MEMORY),
    }
}

/// Answers the lines that the source gives, and tells a fault of it.
fn answer_lines<A: Allocator + Copy, R: Source, W: Sink, E: Sink>(
    alloc: Global,
    heap: A,
    origin: &str,
    numbering: Numbering,
    every: u64,
    source: &mut R,
    sink: &mut W,
    errors: &mut E,
) -> Status
    requires devices { HaveRoom (counts R.reads_made R.failures_met W.write_failures source.old sink.old) }
    requires errors { E.write_failures errors.old < 2 ^ 62 }
    ensures failures { ReportsFailures (counts R.reads_made R.failures_met W.write_failures source.old sink.old) (counts R.reads_made R.failures_met W.write_failures source.new sink.new) result }
    ensures refused { LeavesRefused source.old source.new sink.old sink.new result }
{
    let Err(fault) = live(heap, numbering, every, source, sink) else {
        return Status::Done;
    };
    tell_fault(alloc, origin, &fault, errors);
    Status::of_run(fault)
}

/// What stands before a fault of rows: the file, which is not at fault for the words.
fn origin_of(fault: RowsFault, origin: &str) -> &str {
    match fault {
        RowsFault::BadName | RowsFault::BadArity | RowsFault::BadDelimiter => "",
        _ => origin,
    }
}

/// Writes the hints beside rows on the sink of errors: that of a header behind the name of the file, and that of the form, which does not depend on the
/// file, by itself.
fn tell_hint<E: Sink>(alloc: Global, origin: &str, hint: Hint, errors: &mut E)
    requires { E.write_failures errors.old < 2 ^ 62 }
{
    match (hint.seems_headed, hint.needs_form_two) {
        (false, false) => {}
        (true, false) => tell_fault(alloc, origin, &HEADED, errors),
        (false, true) => tell_fault(alloc, "", &OF_FORM_TWO, errors),
        (true, true) => tell_fault(alloc, origin, &HEADED_OF_FORM_TWO, errors),
    }
}

/// Writes the insert lines of the CSV that the source gives, and tells a fault of it.
fn answer_rows<A: Allocator + Copy, R: Source, W: Sink, E: Sink>(
    alloc: Global,
    heap: A,
    origin: &str,
    words: &SheetWords<'_>,
    source: &mut R,
    sink: &mut W,
    errors: &mut E,
) -> Status
    requires devices { HaveRoom (counts R.reads_made R.failures_met W.write_failures source.old sink.old) }
    requires errors { E.write_failures errors.old < 2 ^ 62 }
    ensures failures { ReportsFailures (counts R.reads_made R.failures_met W.write_failures source.old sink.old) (counts R.reads_made R.failures_met W.write_failures source.new sink.new) result }
    ensures refused { LeavesRefused source.old source.new sink.old sink.new result }
{
    match write_rows(heap, alloc, words, source, sink) {
        Ok(hint) => {
            tell_hint(alloc, origin, hint, errors);
            Status::Done
        }
        Err(fault) => {
            tell_fault(alloc, origin_of(fault, origin), &fault, errors);
            Status::of_rows(fault)
        }
    }
}

/// Serves the files, and tells a fault of it.
fn answer_sessions<
    H: Files + Threads + Wait + Sync,
    A: Allocator + Copy + Send + Sync,
    W: Sink,
    E: Sink,
>(
    host: &H,
    alloc: Global,
    heap: A,
    setup: &str,
    files: &[&str],
    sink: &mut W,
    errors: &mut E,
) -> Status
    requires sink { W.write_failures sink.old < 2 ^ 62 }
    requires errors { E.write_failures errors.old < 2 ^ 62 }
    ensures failures { ReportsWriting (W.write_failures sink.old) (W.write_failures sink.new) result }
    ensures refused { IsRefused result → (sink.new ≡ sink.old) }
{
    let Err(fault) = serve_files(host, host, heap, setup, files, sink) else {
        return Status::Done;
    };
    tell_fault(alloc, "", &fault, errors);
    Status::of_files(fault)
}

/// Reports why there is no task, or writes the help or the version that the words ask for.
fn answer_no_task<W: Sink, E: Sink>(
    alloc: Global,
    no_task: &NoTask<'_>,
    sink: &mut W,
    errors: &mut E,
) -> Status
    requires sink { W.write_failures sink.old < 2 ^ 62 }
    requires errors { E.write_failures errors.old < 2 ^ 62 }
    ensures failures { ReportsWriting (W.write_failures sink.old) (W.write_failures sink.new) result }
    ensures refused { IsRefused result → (sink.new ≡ sink.old) }
{
    match no_task {
        NoTask::Words(error) => answer_words(alloc, error, sink, errors),
        NoTask::BadSize(word) => {
            tell_size(alloc, word, errors);
            Status::Usage
        }
        NoTask::SmallSize => starved(SMALL_SIZE, errors),
        NoTask::BadFile(path) => {
            tell_fault(alloc, "", &FileFault::Open { path: *path }, errors);
            Status::Unserved
        }
        NoTask::NoMemory => starved(NO_MEMORY, errors),
    }
}

/// Returns how the program ends after a task of that status. Over a file, a failure is the file's if the sink failed no more often than before.
fn end_over<W: Sink>(file: Option<&str>, before: u64, status: Status, sink: &W) -> Status
    ensures { result ≡ over_source (is_some file.entry) (nat_le (W.write_failures sink.now) before) status }
{
    if file.is_some() {
        status.over_file(sink.failures() <= before)
    } else {
        status
    }
}

/// Performs the task, or reports why there is none. Texts of errors go to the sink of errors, each one line; help goes to the other sink.
/// `file` is the text in front of the errors of the file that the source reads, if it does not read standard input.
/// The words and the texts use `alloc`, since the reader of words has no other allocator; the task uses `heap`.
pub(crate) fn perform<
    H: Files + Threads + Wait + Sync,
    A: Allocator + Copy + Send + Sync,
    R: LookAhead,
    W: Sink,
    E: Sink,
>(
    host: &H,
    alloc: Global,
    heap: A,
    task: &Result<Task<'_>, NoTask<'_>>,
    file: Option<&str>,
    source: &mut R,
    sink: &mut W,
    errors: &mut E,
) -> Status
    requires devices { HaveRoom (counts R.reads_made R.failures_met W.write_failures source.old sink.old) }
    requires errors { E.write_failures errors.old < 2 ^ 62 }

    // If a read of standard input failed, or a write to the sink, of help too, the status reports it, and it reports nothing else; over a file, only a write.
    ensures failures { ReportsOver (is_some file.entry) (counts R.reads_made R.failures_met W.write_failures source.old sink.old) (counts R.reads_made R.failures_met W.write_failures source.new sink.new) result }

    // For words that ask for nothing and records at fault nothing is written to the sink, and for such words nothing is read.
    ensures refused { LeavesRefused source.old source.new sink.old sink.new result }
{
    let origin = file.unwrap_or("");
    let before = sink.failures();
    let status = match task {
        Err(no_task) => answer_no_task(alloc, no_task, sink, errors),
        Ok(Task::Replay(replaying)) if replaying.is_told => {
            replay_explained(alloc, heap, origin, *replaying, source, sink, errors)
        }
        Ok(Task::Replay(replaying)) => {
            replay(alloc, heap, origin, *replaying, source, sink, errors)
        }
        Ok(Task::Live { numbering, every }) => answer_lines(
            alloc, heap, origin, *numbering, *every, source, sink, errors,
        ),
        Ok(Task::Rows(words)) => answer_rows(alloc, heap, origin, words, source, sink, errors),
        Ok(Task::Sessions { setup, files }) => {
            answer_sessions(host, alloc, heap, setup, files, sink, errors)
        }
        Ok(Task::Look(look)) => answer_look(alloc, heap, origin, look, source, sink, errors),
        Ok(Task::Version) => say(alloc, VERSION_LINE, sink, errors),
    };
    end_over(file, before, status, sink)
}
