//! Sixteen files of many edits, whose script replays.

use crate::files::asked::{FILES, LINES, files};
use crate::files::judged::{Finding, entries_of, judge};
use crate::files::served::{replayed, written};
use std::alloc::{AllocError, Global};
use std::sync::Wait;
use std::thread::Threads;

const SETUP: &[u8] = b"relation T 1\nlimits 4096 65536\n";

fn put_numbers(alloc: Global, text: &mut String, count: usize) -> Result<(), AllocError> {
    for place in 0..count {
        let number = place.saturating_add(1);
        text.push_str(&format!(in alloc; "ok {number}\n")?)?;
    }
    Ok(())
}

/// Adds the front of what a replay answers where none of so many edits is refused.
fn put_front(alloc: Global, text: &mut String, entries: usize) -> Result<(), AllocError> {
    text.push_str("ok\nok\n")?;
    put_numbers(alloc, text, entries)?;
    let shown = format!(in alloc; "published {entries}\nshow {entries}\nrelation T 1 rows ")?;
    text.push_str(&shown)
}

/// Whether the answers of a replay take all of so many edits, in order, and end with a report.
fn are_taken(alloc: Global, answers: &[u8], entries: usize) -> bool {
    let mut front = String::new(alloc);
    put_front(alloc, &mut front, entries).is_ok()
        && answers.starts_with(front.as_bytes())
        && answers.ends_with(b"\nend\n")
}

/// Whether a replay takes all of so many edits, in order, and ends with a report.
fn replays(alloc: Global, script: &str, entries: usize) -> bool {
    match replayed(alloc, script) {
        Some(answers) => are_taken(alloc, &answers, entries),
        None => false,
    }
}

/// What is found of the script, and how many entries it has.
fn finding_of(alloc: Global, script: &str) -> Result<(Finding, usize), AllocError> {
    let lines: Vec<&str> = script.lines().collect(alloc)?;
    let entries = entries_of(&lines);
    let finding = judge(alloc, &lines);
    if finding == Finding::Right && !replays(alloc, script, entries) {
        return Ok((Finding::Replay, entries));
    }
    Ok((finding, entries))
}

/// What the files leave.
fn files_served<T: Threads + Wait + Sync>(rt: &T, alloc: Global) -> Option<String> {
    let files = files(alloc).ok()?;
    written(rt, alloc, SETUP, &files)
}

/// What is found of what the files leave, and how many entries that has.
fn found<T: Threads + Wait + Sync>(rt: &T, alloc: Global) -> (Finding, usize) {
    let Some(script) = files_served(rt, alloc) else {
        return (Finding::Unready, 0);
    };
    match finding_of(alloc, &script) {
        Ok(found) => found,
        Err(_) => (Finding::Unready, 0),
    }
}

// Of ten lines of a file at least one is entered, whatever the others do: a posting of a name that is its own.
#[test]
fn many_edits_replay(rt: HostRuntime) {
    let (finding, entries) = found(&rt, rt.alloc());
    assert!(rt; finding == Finding::Right, "{finding:?}");
    assert!(rt; entries >= FILES * LINES / 10);
}
