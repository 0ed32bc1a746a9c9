//! What is told of a script beside its replies, with each allocation refused in turn.

use crate::devices::Expecting;
use cq_devices::{Counted, Stop};
use cq_refusing::{Outcome, Tried, refusals};
use cq_report::{Numbering, Played, RunFault, put_summary, put_warning, read_script, run};
use std::alloc::{AllocError, Allocator};

/// Two refused lines, the second and the sixth, and an edit that is not published.
const SCRIPT: &[u8] =
    b"relation T 1\n?\npost a {} S(1) <-\npublish\npost b {S(2)} S(3) <-\nwithdraw z\n";

const WARNING: &str = "2 lines refused, first line 2: Token at 0; 1 edit not published";

const SUMMARY: &str =
    "6 lines, 2 refused, first line 2: Token at 0; 1 query pending, 1 matched; 1 edit not published";

/// The replies down to the first refused line.
const HALTED: &[u8] = b"ok\nrefused Token at 0\n";

/// What is put of a script.
#[derive(Clone, Copy)]
enum Words {
    Warning,
    Summary,
}

impl Words {
    fn wanted(self) -> &'static str {
        match self {
            Words::Warning => WARNING,
            Words::Summary => SUMMARY,
        }
    }

    fn put<A: Allocator + Copy>(
        self,
        played: &Played<A>,
        page: &mut String<A>,
    ) -> Result<(), AllocError> {
        match self {
            Words::Warning => put_warning(played, page),
            Words::Summary => put_summary(played, page),
        }
    }
}

/// Whether these words are put as they are wanted.
fn are_put<A: Allocator + Copy>(
    alloc: A,
    played: &Played<A>,
    words: Words,
) -> Result<bool, AllocError> {
    let mut page = String::new(alloc);
    words.put(played, &mut page)?;
    Ok(page.as_str() == words.wanted())
}

fn told<A: Allocator + Copy>(alloc: A, played: &Played<A>, words: Words) -> Outcome {
    match are_put(alloc, played, words) {
        Ok(right) => Outcome::done_if(right),
        Err(_) => Outcome::refused_if(are_put(alloc, played, words) == Ok(true)),
    }
}

fn played<A: Allocator + Copy>(alloc: A) -> Result<Played<A>, Stop> {
    read_script(alloc, &mut Counted::new(SCRIPT))
}

fn tried<A: Allocator + Copy>(alloc: A, words: Words) -> Outcome {
    match played(alloc) {
        Ok(played) => told(alloc, &played, words),
        Err(_) => Outcome::Unready,
    }
}

struct Warned;

impl Tried for Warned {
    fn tried<A: Allocator + Copy>(alloc: A) -> Outcome {
        tried(alloc, Words::Warning)
    }
}

struct Summed;

impl Tried for Summed {
    fn tried<A: Allocator + Copy>(alloc: A) -> Outcome {
        tried(alloc, Words::Summary)
    }
}

/// Whether a strict run of the script ends at its second line, and what it leaves says so.
fn halts<A: Allocator + Copy>(alloc: A) -> Result<bool, RunFault> {
    let mut reader = Counted::new(SCRIPT);
    let mut writer = Counted::new(Expecting::new(HALTED, usize::MAX));
    let ran = run(alloc, Numbering::Plain, true, &mut reader, &mut writer)?;
    let has_refused = ran.has_refused();
    let played = ran.into_played()?;
    let lacking = writer.into_inner().rest.len();
    Ok(has_refused && played.lines() == 2 && played.tally().refused == 1 && lacking == 0)
}

struct Halting;

impl Tried for Halting {
    fn tried<A: Allocator + Copy>(alloc: A) -> Outcome {
        match halts(alloc) {
            Ok(right) => Outcome::done_if(right),
            Err(fault) => {
                Outcome::refused_if(fault == RunFault::NoMemory && halts(alloc) == Ok(true))
            }
        }
    }
}

#[test]
fn failed_allocation_in_summaries(rt: HostRuntime) {
    assert!(rt; matches!(refusals::<Warned>(rt.alloc()), Ok(1..)));
    assert!(rt; matches!(refusals::<Summed>(rt.alloc()), Ok(2..)));
}

#[test]
fn failed_allocation_in_a_strict_run(rt: HostRuntime) {
    assert!(rt; matches!(refusals::<Halting>(rt.alloc()), Ok(3..)));
}
