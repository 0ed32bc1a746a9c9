//! Records held against the journal.

use crate::sessions::asked::{EDITS, WRITERS, line, may_be, text};
use crate::sessions::left::report_of;
use crate::sessions::record::{Kept, Record};
use cq_atom::Edit;
use cq_board::Why;
use cq_desk::{Entry, Reply};
use std::alloc::{AllocError, Global};

/// What is found of sessions that have run.
#[derive(Clone, Copy, Debug, PartialEq, Eq)]
pub enum Finding {
    /// All is as the journal has it.
    Right,
    /// The room was not opened, or memory ran out.
    Unready,
    /// A session saw less than it knew of, or has other than its number of replies and looks.
    Session(usize),
    /// A reply tells of an entry that is another one.
    Reply(usize),
    /// A look shows another board than that of the entries that it counts.
    Look(usize),
    /// There are other than as many entries as replies told of.
    Entries,
}

/// Whether the entry is the writer's edit of that number.
fn is_entry(
    alloc: Global,
    entry: &Entry<Edit>,
    writer: usize,
    number: usize,
) -> Result<bool, AllocError> {
    let told = text(alloc, &entry.edit)?;
    let asked = line(alloc, writer, number)?;
    Ok(entry.author == writer && told.as_str() == asked.as_str())
}

/// The entry of that number, counted from 1.
fn entry_at(journal: &[Entry<Edit>], number: u64) -> Option<&Entry<Edit>> {
    let place = number.checked_sub(1)?;
    journal.get(usize::try_from(place).ok()?)
}

/// What a writer's replies told so far.
#[derive(Clone, Copy)]
struct Told {
    /// The number of the last entry.
    last: u64,
    /// How many entries there were.
    entries: usize,
}

/// What is reported after the reply to the writer's edit of that number; `None` where it is wrong, or what it tells of does not stand in
/// the journal, after what was reported before.
fn after_reply(
    alloc: Global,
    journal: &[Entry<Edit>],
    writer: usize,
    number: usize,
    reply: &Reply<Why>,
    told: Told,
) -> Option<Told> {
    if !may_be(number, reply) {
        return None;
    }
    let Reply::Entered(place) = reply else {
        return Some(told);
    };
    let entry = entry_at(journal, *place)?;
    if *place <= told.last || is_entry(alloc, entry, writer, number) != Ok(true) {
        return None;
    }
    Some(Told {
        last: *place,
        entries: told.entries.checked_add(1)?,
    })
}

/// How many entries the writer's replies tell of; `None` where one is wrong.
fn entered(
    alloc: Global,
    journal: &[Entry<Edit>],
    writer: usize,
    replies: &[Reply<Why>],
) -> Option<usize> {
    let mut told = Told {
        last: 0,
        entries: 0,
    };
    for (number, reply) in replies.iter().enumerate() {
        told = after_reply(alloc, journal, writer, number, reply, told)?;
    }
    Some(told.entries)
}

/// So many entries, from the first on.
fn first(journal: &[Entry<Edit>], count: u64) -> Option<&[Entry<Edit>]> {
    journal.get(..usize::try_from(count).ok()?)
}

/// Whether the look shows the board of the entries that it counts.
fn is_shown(alloc: Global, journal: &[Entry<Edit>], kept: &Kept) -> bool {
    let Some(entries) = first(journal, kept.count) else {
        return false;
    };
    match report_of(alloc, entries) {
        Some(text) => text.as_str() == kept.text.as_str(),
        None => false,
    }
}

fn all_shown(alloc: Global, journal: &[Entry<Edit>], looks: &[Kept]) -> bool {
    for kept in looks {
        if !is_shown(alloc, journal, kept) {
            return false;
        }
    }
    true
}

/// Whether the session of that number ran to its end, and never saw less than it knew of.
fn is_whole(number: usize, record: &Record) -> bool {
    let (replies, looks) = (record.replies.len(), record.looks.len());
    if number < WRITERS {
        record.holds && replies == EDITS && looks == 8
    } else {
        record.holds && replies == 0 && looks >= 1
    }
}

/// How many entries the replies of the session of that number tell of.
///
/// # Errors
/// What is found where it is not right.
fn told_of(
    alloc: Global,
    journal: &[Entry<Edit>],
    number: usize,
    record: &Record,
) -> Result<usize, Finding> {
    if !is_whole(number, record) {
        return Err(Finding::Session(number));
    }
    let Some(entries) = entered(alloc, journal, number, &record.replies) else {
        return Err(Finding::Reply(number));
    };
    if !all_shown(alloc, journal, &record.looks) {
        return Err(Finding::Look(number));
    }
    Ok(entries)
}

/// How many entries the replies of all sessions tell of.
///
/// # Errors
/// What is found of the first session that is not right.
fn all_told_of(
    alloc: Global,
    journal: &[Entry<Edit>],
    records: &[Record],
) -> Result<usize, Finding> {
    let mut entries = 0usize;
    for (number, record) in records.iter().enumerate() {
        entries = entries.saturating_add(told_of(alloc, journal, number, record)?);
    }
    Ok(entries)
}

/// What is found of the sessions, whose records stand in the order of their numbers.
pub fn judge(alloc: Global, journal: &[Entry<Edit>], records: &[Record]) -> Finding {
    match all_told_of(alloc, journal, records) {
        Ok(entries) if records.len() == 16 && entries == journal.len() => Finding::Right,
        Ok(_) => Finding::Entries,
        Err(finding) => finding,
    }
}
