//! Each allocation of a call refused in turn.

use crate::devices::{Expecting, OneLine};
use crate::runs;
use crate::runs::{Told, WELL};
use cq_refusing::{ENOUGH, Outcome, Refusing, Tried, refusals};
use cq_report::{Numbering, RunFault};
use std::alloc::{Allocator, Global};
use std::io::Read;

/// Setup, every kind of edit, a refused post, a publish and a look, and a line that is no command.
const SCRIPT: &[u8] = b"relation T 1\nlimits 9 9\ninsert T(1)\ninsert T(2)\ndelete T(2)
post a {S(2)} S(1) <-\npost b {S(1)} S(2) <- T(x)\npost b {} S(3) <-
publish\nshow\npost c {} S(3) <-\nwithdraw c\n?\n";

/// The replies, with the numbers of their lines.
const ANSWERS: &[u8] =
    b"1: ok\n2: ok\n3: ok 1\n4: ok 2\n5: ok 3\n6: ok 4\n7: ok 5\n8: refused NameTaken
9: published 5\n10: show 5
relation T 1 rows 1
query a matched
  text {S(2)} S(1) <-
  post 0 providers 1
    b head 0
  groundings 1 ()
    ()
query b matched
  text {S(1)} S(2) <- T(x)
  post 0 providers 1
    a head 0
  groundings 1 (x)
    (1)
end
11: ok 6\n12: ok 7\n13: refused Token at 0
";

/// A run of the script, with numbers, each of which takes memory too.
struct Running;

/// How the run of the script that is read ends, over a writer that takes the answers alone.
fn told<A: Allocator + Copy, R: Read + Drop>(alloc: A, script: R) -> Told {
    let writer = Expecting::new(ANSWERS, usize::MAX);
    runs::told(alloc, Numbering::Numbered, script, writer)
}

impl Tried for Running {
    fn tried<A: Allocator + Copy>(alloc: A) -> Outcome {
        match told(alloc, SCRIPT) {
            (Ok(()), lacking, _) => Outcome::done_if(lacking == 0),
            (Err(fault), _, _) => {
                Outcome::refused_if(fault == RunFault::NoMemory && told(alloc, SCRIPT) == WELL)
            }
        }
    }
}

// A failed allocation ends the run as out of memory, and what was written is a front of the answers.
#[test]
fn failed_allocation_in_run(rt: HostRuntime) {
    assert!(rt; matches!(refusals::<Running>(rt.alloc()), Ok(33..)));
}

/// How many different lengths of answers were written by runs with one allocation refused, where each wrote as much as where each line
/// is read alone, so that its reply is written before the next read; or nothing, where one did not.
fn lengths_written(alloc: Global) -> Option<u64> {
    let mut lengths = 1u64;
    let mut last = ANSWERS.len();
    for allocation in 0..ENOUGH {
        let (ended, lacking, flushes) = told(&Refusing::new(alloc, allocation), SCRIPT);
        let alone = told(&Refusing::new(alloc, allocation), OneLine(SCRIPT));
        if (ended, lacking, flushes) != alone {
            return None;
        }
        lengths = lengths.saturating_add(u64::from(lacking < last));
        last = lacking;
        if ended == Ok(()) {
            return Some(lengths);
        }
    }
    None
}

// All lines before the one that ran out of memory have their replies, though these waited in a buffer.
#[test]
fn replies_before_a_failed_allocation(rt: HostRuntime) {
    assert!(rt; matches!(lengths_written(rt.alloc()), Some(6..)));
}
