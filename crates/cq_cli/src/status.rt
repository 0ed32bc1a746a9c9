//! How the program ends.

ghost use Rattle.std.specs.Prelude.{◌≡◌};
ghost use Rattle.cq_cli.specs.Status.{code_of, status_of_run, status_of_choices, status_of_outcome, status_of_files, status_of_reading, status_of_rows, status_of_sessions, over_file};

use crate::choices::ChoiceFault;
use crate::rows::RowsFault;
use crate::sessions::{FileFault, FilesFault};
use cq_devices::Stop;
use cq_going::Outcome;
use cq_sessions::SessionsFault;

/// How the program ends.
#[derive(Clone, Copy, Debug, PartialEq, Eq)]
pub(crate) enum Status {
    /// All was done; refused lines of a script included, and help and the version.
    Done,
    /// The source or the sink failed.
    Failed,
    /// The words ask for nothing that the program does.
    Usage,
    /// An allocation failed.
    NoMemory,
    /// A record of CSV is at fault.
    BadRecord,
    /// Sessions were not served: a file failed, or no thread or place was had.
    Unserved,
    /// What was asked of a board is not so: the choices do not coordinate, or there are none.
    NotSo,
    /// What was sought on a board was neither found nor ruled out.
    Undecided,
    /// A file that was to be read failed.
    BadFile,
    /// A line was refused, at which a strict replay ends.
    LineRefused,
}

impl Status {
    /// The exit status.
    pub(crate) fn code(self) -> u8
        ensures { result ≡ code_of self }
    {
        match self {
            Status::Done => 0,
            Status::Failed => 1,
            Status::Usage => 2,
            Status::NoMemory => 3,
            Status::BadRecord => 4,
            Status::Unserved => 1,
            Status::NotSo => 5,
            Status::Undecided => 6,
            Status::BadFile => 1,
            Status::LineRefused => 7,
        }
    }

    /// The same of a task whose source was a file, which failed where it was not the sink.
    pub(crate) fn over_file(self, is_sink_whole: bool) -> Status
        ensures { result ≡ over_file self is_sink_whole }
    {
        match self {
            Status::Failed if is_sink_whole => Status::BadFile,
            other => other,
        }
    }

    /// How the program ends after a run that ended so.
    pub(crate) fn of_run(fault: Stop) -> Status
        ensures { result ≡ status_of_run fault }
    {
        match fault {
            Stop::Read { turn: _ } | Stop::Write => Status::Failed,
            Stop::NoMemory => Status::NoMemory,
        }
    }

    /// How the program ends after a file that was not read whole.
    fn of_reading(fault: Stop) -> Status
        ensures { result ≡ status_of_reading fault }
    {
        match fault {
            Stop::Read { turn: _ } | Stop::Write => Status::Unserved,
            Stop::NoMemory => Status::NoMemory,
        }
    }

    /// How the program ends after sessions that ended so.
    fn of_sessions(fault: SessionsFault) -> Status
        ensures { result ≡ status_of_sessions fault }
    {
        match fault {
            SessionsFault::Write => Status::Failed,
            SessionsFault::Places | SessionsFault::Thread => Status::Unserved,
            SessionsFault::NoMemory => Status::NoMemory,
        }
    }

    /// How the program ends after files that were served so.
    pub(crate) fn of_files(fault: FilesFault<'_>) -> Status
        ensures { result ≡ status_of_files fault.entry }
    {
        match fault {
            FilesFault::NoFile | FilesFault::TooMany => Status::Usage,
            FilesFault::File(FileFault::Open { path: _ }) => Status::Unserved,
            FilesFault::File(FileFault::Read(fault)) => Status::of_reading(fault),
            FilesFault::Run(fault) => Status::of_sessions(fault),
        }
    }

    /// How the program ends after a search for a coordinating choice.
    pub(crate) fn of_outcome(outcome: Outcome) -> Status
        ensures { result ≡ status_of_outcome outcome }
    {
        match outcome {
            Outcome::Found => Status::Done,
            Outcome::Impossible => Status::NotSo,
            Outcome::Undecided => Status::Undecided,
        }
    }

    /// How the program ends after words that are no choices.
    pub(crate) fn of_choices(fault: ChoiceFault<'_>) -> Status
        ensures { result ≡ status_of_choices fault.entry }
    {
        match fault {
            ChoiceFault::Bad { word: _ } | ChoiceFault::Name { word: _ } => Status::Usage,
            ChoiceFault::NoMemory => Status::NoMemory,
        }
    }

    /// How the program ends after rows that ended so.
    pub(crate) fn of_rows(fault: RowsFault) -> Status
        ensures { result ≡ status_of_rows fault }
    {
        match fault {
            RowsFault::BadName | RowsFault::BadArity | RowsFault::BadDelimiter => Status::Usage,
            RowsFault::Read { turn: _ } | RowsFault::Write => Status::Failed,
            RowsFault::NoMemory => Status::NoMemory,
            RowsFault::Width { .. } | RowsFault::Text { .. } => Status::BadRecord,
        }
    }
}
