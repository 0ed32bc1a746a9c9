//! Plans a task: what it reads, standard input or a file, and how much memory it may have.

ghost use Rattle.std.specs.Prelude.{◌≡◌, IfSome};
ghost use Rattle.std.specs.Option.{is_some};
ghost use Rattle.std.specs.Io.{ReadsAtMost};
ghost use Rattle.std.specs.Io.KnownBytes.{ReadConsumes};
ghost use Rattle.cq_cli.specs.Devices.{left_of_input};

use crate::sizes::size_of;
use crate::wanted::{Task, read_words};
use clap::Error;
use std::alloc::Global;
use std::convert::AsStr;
use std::fs;
use std::fs::Files;
use std::io::{self, Read};

/// The reason why there is no task.
#[derive(Drop, Debug)]
pub(crate) enum NoTask<'a> {
    /// The words are at fault, or ask for help or for the version.
    Words(Error),
    /// This value of `--memory` is no number of bytes.
    BadSize(&'a str),
    /// The value of `--memory` is less than a live board needs.
    SmallSize,
    /// The file of this path does not open.
    BadFile(&'a str),
    /// An allocation failed.
    NoMemory,
}

/// The least value of `--memory` with which a live board starts. With less than some 11,000 bytes it would refuse each edit for want of memory.
const LEAST_LIVE: usize = 16_384;

/// A reader of a file, if there is one, and of standard input otherwise.
#[derive(Drop)]
pub(crate) struct Input<S, F> {
    standard: S,
    file: Option<F>,
}

impl<S, F> Input<S, F> {
    /// Returns a reader that has read nothing yet.
    pub(crate) fn new(standard: S, file: Option<F>) -> Self
        ensures { result ≡ record { standard = standard; file = file } }
    {
        Input { standard, file }
    }
}

impl<S: Read, F: Read> Read for Input<S, F> {
    ghost use Rattle.cq_cli.specs.Devices.{left_of_input};

    ghost remaining = { λ i. left_of_input S.remaining F.remaining i.standard i.file };

    fn read(&mut self, buf: &mut [u8]) -> io::Result<usize> {
        self.read_from(buf)
    }
}

impl<S: Read, F: Read> Input<S, F> {
    /// Reads from the file, if there is one, and from standard input otherwise.
    fn read_from(&mut self, buf: &mut [u8]) -> io::Result<usize>
        ensures bound { ReadsAtMost result buf.new }
        ensures bytes { ReadConsumes (left_of_input S.remaining F.remaining self.old.standard self.old.file) (left_of_input S.remaining F.remaining self.new.standard self.new.file) result buf.new }

        // Standard input is not read if there is a file.
        ensures standard { IfSome self.old.file (λ file. self.new.standard ≡ self.old.standard) }
        ensures file { is_some self.new.file ≡ is_some self.old.file }
    {
        match &mut self.file {
            Some(file) => file.read(buf),
            None => self.standard.read(buf),
        }
    }
}

/// A task, what it reads, and how much memory it may have.
#[derive(Drop)]
pub(crate) struct Plan<'a, F> {
    /// The task, or the reason why there is none.
    pub(crate) task: Result<Task<'a>, NoTask<'a>>,
    /// The most bytes of memory, if there is a bound.
    pub(crate) bytes: Option<usize>,
    /// The file that is read, if it is not standard input.
    pub(crate) file: Option<F>,
    /// The text in front of the errors of that file.
    pub(crate) origin: Option<String<Global>>,
    /// Whether prompts are written at a terminal.
    pub(crate) is_prompted: bool,
    /// Whether it is reported at a terminal how much was read.
    pub(crate) is_watched: bool,
}

/// Returns the number of bytes that the value of `--memory` denotes, if there is a value.
fn bytes_of<'a>(memory: Option<&'a str>) -> Result<Option<usize>, NoTask<'a>> {
    let Some(word) = memory else {
        return Ok(None);
    };
    match size_of(word) {
        Some(bytes) => Ok(Some(bytes)),
        None => Err(NoTask::BadSize(word)),
    }
}

/// Returns the number of bytes that the task may have, if there is a bound and it is not too small for the task.
fn bytes_for<'a>(task: &Task<'a>, memory: Option<&'a str>) -> Result<Option<usize>, NoTask<'a>> {
    match (task, bytes_of(memory)?) {
        (Task::Live { .. }, Some(bytes)) if bytes < LEAST_LIVE => Err(NoTask::SmallSize),
        (_, bytes) => Ok(bytes),
    }
}

/// Opens the file of that path, and makes the text in front of its errors.
fn open<'a, H: Files>(
    host: &H,
    alloc: Global,
    path: &'a str,
) -> Result<(H::File, String<Global>), NoTask<'a>> {
    let Ok(file) = fs::open(host, path) else {
        return Err(NoTask::BadFile(path));
    };
    match format!(in alloc; "{path}: ") {
        Ok(origin) => Ok((file, origin)),
        Err(_) => Err(NoTask::NoMemory),
    }
}

/// Opens the named file, if it is not standard input.
fn open_named<'a, H: Files>(
    host: &H,
    alloc: Global,
    path: Option<&'a str>,
) -> Result<(Option<H::File>, Option<String<Global>>), NoTask<'a>> {
    match path {
        Some(path) if path != "-" => {
            let (file, origin) = open(host, alloc, path)?;
            Ok((Some(file), Some(origin)))
        }
        _ => Ok((None, None)),
    }
}

/// Plans the task that the words ask for.
fn plan_task<'a, H: Files, S: AsStr>(
    host: &H,
    alloc: Global,
    words: &'a [S],
) -> Result<Plan<'a, H::File>, NoTask<'a>> {
    let wanted = match read_words(alloc, words) {
        Ok(wanted) => wanted,
        Err(error) => return Err(NoTask::Words(error)),
    };
    let bytes = bytes_for(&wanted.task, wanted.memory)?;
    let (file, origin) = open_named(host, alloc, wanted.file)?;
    Ok(Plan {
        is_prompted: matches!(&wanted.task, Task::Live { .. }),
        is_watched: wanted.is_watched,
        task: Ok(wanted.task),
        bytes,
        file,
        origin,
    })
}

/// Plans the task that the words ask for, and opens the file that they name. Opens no file if the words are at fault.
pub(crate) fn make_plan<'a, H: Files, S: AsStr>(
    host: &H,
    alloc: Global,
    words: &'a [S],
) -> Plan<'a, H::File> {
    match plan_task(host, alloc, words) {
        Ok(plan) => plan,
        Err(no_task) => Plan {
            task: Err(no_task),
            bytes: None,
            file: None,
            origin: None,
            is_prompted: false,
            is_watched: false,
        },
    }
}
