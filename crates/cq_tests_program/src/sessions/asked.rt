//! What each writer asks for.

use crate::lines::{edit, posting, withdrawal};
use cq_atom::{Edit, EditKind, Name, Query, Row};
use cq_board::Why;
use cq_desk::Reply;
use cq_text::{print_query, print_row};
use std::alloc::{AllocError, Global};

/// The sessions with the numbers below this one write, the others only look.
pub const WRITERS: usize = 12;

/// How many submits each writer makes.
pub const TURNS: usize = 100;

/// How many edits each writer asks for: in five turns, 1 and 2 and so on to 5.
pub const EDITS: usize = 300;

/// The line of the writer's edit of that number, from 0. Six edits are a round; the third posts a name again.
pub fn line(alloc: Global, writer: usize, number: usize) -> Result<String, AllocError> {
    let round = number / 6;
    let value = writer.saturating_add(round) % 10;
    let other = writer.saturating_add(number) % 10;
    let next = writer.saturating_add(1) % WRITERS;
    match number % 6 {
        0 | 2 => posting(alloc, writer, next, round),
        1 => format!(in alloc; "insert T({value})"),
        3 => withdrawal(alloc, writer, round),
        4 => format!(in alloc; "delete T({other})"),
        _ => format!(in alloc; "insert T({other})"),
    }
}

/// Whether a writer's edit of that number may be entered, and why it may be refused, whatever the others do.
fn may_come(number: usize) -> (bool, Option<Why>) {
    match number % 6 {
        0 => (true, None),
        2 => (false, Some(Why::NameTaken)),
        3 if number < 24 => (false, Some(Why::NoSuchName)),
        3 => (true, None),
        4 => (true, Some(Why::RowAbsent)),
        _ => (true, Some(Why::RowPresent)),
    }
}

/// Whether that may be the reply to a writer's edit of that number.
pub fn may_be(number: usize, reply: &Reply<Why>) -> bool {
    let (enters, refusal) = may_come(number);
    match reply {
        Reply::Entered(_) => enters,
        Reply::Not(why) => refusal == Some(*why),
        Reply::JournalFull => false,
    }
}

/// The writer's edit of that number.
fn made(alloc: Global, writer: usize, number: usize) -> Result<Edit, AllocError> {
    let line = line(alloc, writer, number)?;
    edit(alloc, line.as_str())
}

/// So many of the writer's edits, from that number on.
pub fn edits(
    alloc: Global,
    writer: usize,
    first: usize,
    count: usize,
) -> Result<Vec<Edit>, AllocError> {
    let mut asked = Vec::new(alloc);
    for number in first..first.saturating_add(count) {
        asked.push(made(alloc, writer, number)?)?;
    }
    Ok(asked)
}

fn posting_text(alloc: Global, name: &Name, query: &Query) -> Result<String, AllocError> {
    let text = print_query(alloc, query)?;
    format!(in alloc; "post {} {text}", name.as_str())
}

fn row_text(alloc: Global, word: &str, row: &Row) -> Result<String, AllocError> {
    let text = print_row(alloc, row)?;
    format!(in alloc; "{word} {text}")
}

/// The edit as a line of a script.
pub fn text(alloc: Global, edit: &Edit) -> Result<String, AllocError> {
    match edit {
        EditKind::Post { name, query } => posting_text(alloc, name, query),
        EditKind::Withdraw { name } => format!(in alloc; "withdraw {}", name.as_str()),
        EditKind::Insert { row } => row_text(alloc, "insert", row),
        EditKind::Delete { row } => row_text(alloc, "delete", row),
    }
}
