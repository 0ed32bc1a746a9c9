//! A script held against the files that it came of.

use crate::files::asked::{FILES, LINES, Wish, line, may_refuse, wish_of};
use std::alloc::{AllocError, Global};

/// The lines before the entries.
const SETTING: [&str; 2] = ["relation T 1", "limits 4096 65536"];

/// The lines between the entries and the files' replies.
const BEHIND: [&str; 4] = ["publish", "show", "# setup line 1 ok", "# setup line 2 ok"];

/// What is found of a script.
#[derive(Clone, Copy, Debug, PartialEq, Eq)]
pub enum Finding {
    /// All is as it has to be.
    Right,
    /// Memory ran out, or nothing was written.
    Unready,
    /// There are other lines before or after the entries, or other than as many.
    Lines,
    /// The reply to a line of that file is wrong.
    Reply { file: usize, number: usize },
    /// There are other than as many entries as replies tell of.
    Entries,
    /// A replay answers something else.
    Replay,
}

/// The lines of a script, and how many entries it has.
#[derive(Clone, Copy)]
struct Script<'a> {
    lines: &'a [&'a str],
    entries: usize,
}

/// How many lines are comments on entries.
pub fn entries_of(lines: &[&str]) -> usize {
    let mut count = 0usize;
    for text in lines {
        if text.starts_with("# entry ") {
            count = count.saturating_add(1);
        }
    }
    count
}

/// Whether the lines stand there, from that place on.
fn stand_at(lines: &[&str], place: usize, wanted: &[&str]) -> bool {
    let Some(rest) = lines.get(place..) else {
        return false;
    };
    rest.starts_with(wanted)
}

/// Whether there are as many lines as there have to be, and those that do not hang on the order are right.
fn is_whole(script: Script<'_>) -> bool {
    let behind = script
        .entries
        .saturating_mul(2)
        .saturating_add(SETTING.len());
    let replies = behind.saturating_add(BEHIND.len());
    script.lines.len() == replies.saturating_add(FILES * LINES)
        && stand_at(script.lines, 0, &SETTING)
        && stand_at(script.lines, behind, &BEHIND)
}

/// Whether the entry of that number, from 1, is the file's line.
fn is_entry(
    alloc: Global,
    script: Script<'_>,
    entry: usize,
    file: usize,
    number: usize,
) -> Result<bool, AllocError> {
    let comment = format!(in alloc; "# entry {entry} session {file}")?;
    let command = line(alloc, file, number)?;
    let place = entry.saturating_mul(2);
    Ok(
        entry >= 1
            && entry <= script.entries
            && stand_at(script.lines, place, &[comment.as_str(), command.as_str()]),
    )
}

/// What a file's replies told so far.
#[derive(Clone, Copy)]
struct Known {
    /// The number of the last entry.
    last: usize,
    /// The most entries that were published or shown.
    seen: usize,
    /// How many entries there were.
    entries: usize,
}

/// The number after the word.
fn number_behind(reply: &str, word: &str) -> Option<usize> {
    reply.strip_prefix(word)?.parse::<usize>().ok()
}

impl Known {
    /// Nothing was told yet.
    fn nothing() -> Known {
        Known {
            last: 0,
            seen: 0,
            entries: 0,
        }
    }

    /// After an edit became the entry. It came after all that was seen and told.
    fn entered(self, entry: usize) -> Option<Known> {
        if entry <= self.last || entry <= self.seen {
            return None;
        }
        Some(Known {
            last: entry,
            seen: self.seen,
            entries: self.entries.checked_add(1)?,
        })
    }

    /// After so many entries were shown, no fewer than were seen.
    fn shown(self, count: usize) -> Option<Known> {
        if count < self.seen {
            return None;
        }
        Some(Known {
            last: self.last,
            seen: count,
            entries: self.entries,
        })
    }

    /// After so many entries were published, with the file's own.
    fn published(self, count: usize) -> Option<Known> {
        if count < self.last {
            return None;
        }
        self.shown(count)
    }
}

/// What is known after the file's edit became that entry.
fn after_entry(
    alloc: Global,
    script: Script<'_>,
    file: usize,
    number: usize,
    entry: usize,
    known: Known,
) -> Option<Known> {
    match is_entry(alloc, script, entry, file, number) {
        Ok(true) => known.entered(entry),
        _ => None,
    }
}

/// What is known after the reply to the file's line; `None` where the reply is wrong.
fn after_reply(
    alloc: Global,
    script: Script<'_>,
    file: usize,
    number: usize,
    reply: &str,
    known: Known,
) -> Option<Known> {
    let wish = wish_of(number);
    match wish {
        Wish::Publish => known.published(number_behind(reply, "published ")?),
        Wish::Show => known.shown(number_behind(reply, "show ")?),
        _ if may_refuse(wish, reply) => Some(known),
        Wish::NoWithdrawal => None,
        _ => {
            let entry = number_behind(reply, "ok ")?;
            after_entry(alloc, script, file, number, entry, known)
        }
    }
}

/// What is known after the reply to the file's line, which stands among the script's last lines.
fn after_line(
    alloc: Global,
    script: Script<'_>,
    file: usize,
    number: usize,
    known: Known,
) -> Option<Known> {
    let left = FILES
        .checked_sub(file)?
        .checked_mul(LINES)?
        .checked_sub(number)?;
    let text = script.lines.get(script.lines.len().checked_sub(left)?)?;
    let line = number.checked_add(1)?;
    let words = format!(in alloc; "# session {file} line {line} ").ok()?;
    let reply = text.strip_prefix(words.as_str())?;
    let known = after_reply(alloc, script, file, number, reply, known)?;
    if known.seen > script.entries {
        return None;
    }
    Some(known)
}

/// How many entries the file's replies tell of.
///
/// # Errors
/// The first line whose reply is wrong.
fn told_of(alloc: Global, script: Script<'_>, file: usize) -> Result<usize, Finding> {
    let mut known = Known::nothing();
    for number in 0..LINES {
        match after_line(alloc, script, file, number, known) {
            Some(after) => known = after,
            None => return Err(Finding::Reply { file, number }),
        }
    }
    Ok(known.entries)
}

/// How many entries all replies tell of.
fn all_told_of(alloc: Global, script: Script<'_>) -> Result<usize, Finding> {
    let mut entries = 0usize;
    for file in 0..FILES {
        entries = entries.saturating_add(told_of(alloc, script, file)?);
    }
    Ok(entries)
}

/// What is found of a script of these lines.
pub fn judge(alloc: Global, lines: &[&str]) -> Finding {
    let entries = entries_of(lines);
    let script = Script { lines, entries };
    if !is_whole(script) {
        return Finding::Lines;
    }
    match all_told_of(alloc, script) {
        Ok(told) if told == entries => Finding::Right,
        Ok(_) => Finding::Entries,
        Err(finding) => finding,
    }
}
