//! Runs of one script over devices, and scripts that are read whole.

use crate::devices::{Expecting, Pieces};
use cq_devices::{Counted, Stop, read_whole};
use cq_report::{Numbering, RunFault, Script, run};
use std::alloc::{Allocator, Global};
use std::fmt::Display;
use std::io::{Read, Write};
use std::mem;

/// How the run of what the reader gives ends, and the writer.
pub fn ran<A: Allocator + Copy, D: Read + Drop, W: Write + Drop>(
    alloc: A,
    numbering: Numbering,
    device: D,
    writer: W,
) -> (Result<(), RunFault>, W) {
    let mut reader = Counted::new(device);
    let mut writer = Counted::new(writer);
    let ended = end_of(run(alloc, numbering, false, &mut reader, &mut writer));
    (ended, writer.into_inner())
}

/// How the run ended.
fn end_of<A: Allocator + Copy>(ended: Result<Script<A>, RunFault>) -> Result<(), RunFault> {
    match ended {
        Ok(ran) => {
            mem::drop(ran);
            Ok(())
        }
        Err(fault) => Err(fault),
    }
}

/// How a run ended, how many of the expected bytes were not written, and how often the writer was flushed.
pub type Told = (Result<(), RunFault>, usize, u32);

/// How all is reported and flushed once.
pub const WELL: Told = (Ok(()), 0, 1);

/// How the run of what the reader gives ends, over a writer that takes the expected bytes and no others.
pub fn told<A: Allocator + Copy, D: Read + Drop>(
    alloc: A,
    numbering: Numbering,
    device: D,
    writer: Expecting<'_>,
) -> Told {
    let (ended, writer) = ran(alloc, numbering, device, writer);
    (ended, writer.rest.len(), writer.flushes)
}

/// The same of a script that is read and answered in pieces of so many bytes at most, and whose replies have no numbers.
pub fn told_of(alloc: Global, script: &[u8], most: usize, expected: &[u8]) -> Told {
    let pieces = Pieces { rest: script, most };
    told(
        alloc,
        Numbering::Plain,
        pieces,
        Expecting::new(expected, usize::MAX),
    )
}

/// Whether the fault is reported so.
pub fn is_told<F: Display>(alloc: Global, fault: &F, text: &str) -> bool {
    match format!(in alloc; "{fault}") {
        Ok(told) => told.as_str() == text,
        Err(_) => false,
    }
}

/// Whether what the reader gives to the end are these bytes; else why not.
pub fn is_whole<A: Allocator, D: Read + Drop>(
    alloc: A,
    device: D,
    expected: &[u8],
) -> Result<bool, Stop> {
    let bytes = read_whole(alloc, &mut Counted::new(device))?;
    Ok(bytes.as_slice() == expected)
}
