//! Files served over one board.

ghost use Rattle.std.specs.Prelude.{◌≡◌, ◌<◌, ◌+◌, ◌^◌, ◌⊎◌, ℕ, List, length, map, Err, IfOk, IfErr, OnOk, MatchResult};
ghost use Rattle.cq_ask.specs.Choices.{ArePaired};
ghost use Rattle.cq_cli.specs.Sessions.{WroteScript, IsOfWriting, IsOfCount, failures_of};

use cq_devices::{Counted, Sink, Stop, read_whole};
use cq_sessions::{SessionsFault, run_sessions};
use std::alloc::Allocator;
use std::fs;
use std::fs::Files;
use std::io::ErrorKind;
use std::sync::Wait;
use std::thread::Threads;
use thiserror::Error;

/// The most files.
const MAX_FILES: usize = 16;

/// Why a file was not read.
#[derive(Clone, Copy, Debug, PartialEq, Eq, Error)]
pub(crate) enum FileFault<'a> {
    /// It does not open.
    #[error("cannot open {path}")]
    Open { path: &'a str },
    /// It was not read whole.
    #[error(transparent)]
    Read(Stop),
}

/// Why files were not served, or not all was written.
#[derive(Clone, Copy, Debug, PartialEq, Eq, Error)]
pub(crate) enum FilesFault<'a> {
    /// There is no file.
    #[error("at least 1 file")]
    NoFile,
    /// There are more files than sessions.
    #[error("at most 16 files")]
    TooMany,
    /// A file was not read.
    #[error(transparent)]
    File(FileFault<'a>),
    /// The sessions were not served, or their script was not written whole.
    #[error(transparent)]
    Run(SessionsFault),
}

impl<'a> From<FileFault<'a>> for FilesFault<'a> {
    ghost use Rattle.std.specs.Prelude.{◌≡◌};
    ghost use Rattle.cq_cli.specs.declared.sessions.FilesFault.TheVariants.{File};

    ghost from_gives = { λ fault e. e ≡ File fault };

    fn from(fault: FileFault<'a>) -> FilesFault<'a> {
        FilesFault::File(fault)
    }
}

/// Where files are held.
pub(crate) trait Shelf {
    // Under this path it holds these bytes.
    ghost held: { Self → List ℕ → List ℕ → Type 0 };

    /// All bytes of the file under that path.
    fn take<'a, A: Allocator>(&self, alloc: A, path: &'a str) -> Result<Vec<u8, A>, FileFault<'a>>
        ensures { IfOk result (λ bytes. held self.now path.now bytes.items) };
}

/// The files of the host. What is held there is known from no contract, so that these bytes are those under the path is shown by
/// runs alone.
impl<H: Files> Shelf for H {
    ghost held = { λ host path bytes. Unit {0} };

    fn take<'a, A: Allocator>(&self, alloc: A, path: &'a str) -> Result<Vec<u8, A>, FileFault<'a>> {
        let file = match fs::open(self, path) {
            Ok(file) => file,
            Err(error) if error.kind() == ErrorKind::OutOfMemory => {
                return Err(FileFault::Read(Stop::NoMemory));
            }
            Err(_) => return Err(FileFault::Open { path }),
        };
        let mut source = Counted::new(file);
        match read_whole(alloc, &mut source) {
            Ok(bytes) => Ok(bytes),
            Err(fault) => Err(FileFault::Read(fault)),
        }
    }
}

/// All bytes of each file, which are read in order.
fn read_files<'a, S: Shelf, A: Allocator + Copy>(
    shelf: &S,
    alloc: A,
    paths: &[&'a str],
) -> Result<Vec<Vec<u8, A>, A>, FileFault<'a>>
    ensures held { IfOk result (λ files. ArePaired (S.held shelf.now) (map (λ path. path.now) paths.now) (map (λ file. file.items) files.items)) }
    ensures count { IfOk result (λ files. length files.items ≡ length paths.now) }
{
    let mut files = Vec::new(alloc);
    for path in paths {
        let bytes = shelf.take(alloc, *path)?;
        let Ok(()) = files.push(bytes) else {
            return Err(FileFault::Read(Stop::NoMemory));
        };
    }
    Ok(files)
}

/// Serves SETUP and the files, and writes what they leave.
///
/// The files are counted before any is opened; then SETUP and the files are opened and read to their ends, one after another
/// in their order.
pub(crate) fn serve_files<
    'a,
    S: Shelf,
    H: Threads + Wait + Sync,
    A: Allocator + Copy + Send + Sync,
    W: Sink,
>(
    shelf: &S,
    host: &H,
    alloc: A,
    setup: &'a str,
    paths: &[&'a str],
    sink: &mut W,
) -> Result<(), FilesFault<'a>>
    requires sink { W.write_failures sink.old < 2 ^ 62 }

    // The script of SETUP and the files, by what was held under each path, is written whole, and nothing at all but where the writer failed.
    ensures ok { OnOk result (WroteScript (S.held shelf.now) setup.now (map (λ path. path.now) paths.now) (W.taken sink.old) (W.taken sink.new)) }
    ensures err { IfErr result (λ fault. (IsOfWriting fault → ⊥) → sink.new ≡ sink.old) }

    // No file and too many are reported, and nothing else is reported so.
    ensures none { length paths.now ≡ 0 → result ≡ Err FilesFault.NoFile }
    ensures many { 16 < length paths.now → result ≡ Err FilesFault.TooMany }
    ensures count { IfErr result (λ fault. IsOfCount fault → (length paths.now ≡ 0) ⊎ (16 < length paths.now)) }

    // The writer's failures rise where it is reported that it failed.
    ensures failures { MatchResult result (λ _. W.write_failures sink.new ≡ W.write_failures sink.old) (λ fault. W.write_failures sink.new ≡ W.write_failures sink.old + failures_of fault) }
{
    if paths.is_empty() {
        return Err(FilesFault::NoFile);
    }
    if paths.len() > MAX_FILES {
        return Err(FilesFault::TooMany);
    }
    let setup = shelf.take(alloc, setup)?;
    let files = read_files(shelf, alloc, paths)?;
    match run_sessions(host, alloc, &setup, &files, sink) {
        Ok(()) => Ok(()),
        Err(fault) => Err(FilesFault::Run(fault)),
    }
}
