//! SETUP and files served, and the script that is written replayed.

use crate::devices::Expecting;
use crate::runs;
use cq_devices::Counted;
use cq_report::Numbering;
use cq_sessions::{SessionsFault, run_sessions};
use std::alloc::{AllocError, Allocator, Global};
use std::io::Write;
use std::sync::Wait;
use std::thread::Threads;

/// How the run ends, and the writer; nothing where there are no files or more than sixteen.
fn ran<T: Threads + Wait + Sync, A: Allocator + Copy + Send + Sync, W: Write + Drop>(
    rt: &T,
    alloc: A,
    setup: &[u8],
    files: &[Vec<u8, A>],
    writer: W,
) -> Option<(Result<(), SessionsFault>, W)> {
    if files.is_empty() || files.len() > 16 {
        return None;
    }
    let mut writer = Counted::new(writer);
    let ended = run_sessions(rt, alloc, setup, files, &mut writer);
    Some((ended, writer.into_inner()))
}

/// The bytes, in a list of their own.
fn copy<A: Allocator>(alloc: A, bytes: &[u8]) -> Result<Vec<u8, A>, AllocError> {
    let mut copy = Vec::new(alloc);
    copy.extend_from_slice(bytes)?;
    Ok(copy)
}

/// The files, each in a list of its own.
fn copies<A: Allocator + Copy>(
    alloc: A,
    files: &[&[u8]],
) -> Result<Vec<Vec<u8, A>, A>, AllocError> {
    let mut copies = Vec::new(alloc);
    for file in files {
        copies.push(copy(alloc, file)?)?;
    }
    Ok(copies)
}

/// The same of files that are copied first. Where memory for these runs out, the writer comes back as it was.
pub fn ran_copies<T: Threads + Wait + Sync, A: Allocator + Copy + Send + Sync, W: Write + Drop>(
    rt: &T,
    alloc: A,
    setup: &[u8],
    files: &[&[u8]],
    writer: W,
) -> Option<(Result<(), SessionsFault>, W)> {
    match copies(alloc, files) {
        Ok(files) => ran(rt, alloc, setup, &files, writer),
        Err(_) => Some((Err(SessionsFault::NoMemory), writer)),
    }
}

/// How the run ends over a writer that takes the expected bytes and no others, and how many of them were not written.
pub fn told<T: Threads + Wait + Sync, A: Allocator + Copy + Send + Sync>(
    rt: &T,
    alloc: A,
    setup: &[u8],
    files: &[&[u8]],
    expected: &[u8],
) -> Option<(Result<(), SessionsFault>, usize)> {
    let writer = Expecting::new(expected, usize::MAX);
    let (ended, writer) = ran_copies(rt, alloc, setup, files, writer)?;
    Some((ended, writer.rest.len()))
}

/// What the run writes; `None` where it fails.
pub fn written<T: Threads + Wait + Sync>(
    rt: &T,
    alloc: Global,
    setup: &[u8],
    files: &[Vec<u8>],
) -> Option<String> {
    match ran(rt, alloc, setup, files, Vec::new(alloc)) {
        Some((Ok(()), text)) => String::from_utf8(text).ok(),
        _ => None,
    }
}

/// What a replay of the script answers.
pub fn replayed(alloc: Global, script: &str) -> Option<Vec<u8>> {
    match runs::ran(alloc, Numbering::Plain, script.as_bytes(), Vec::new(alloc)) {
        (Ok(()), answers) => Some(answers),
        _ => None,
    }
}
