//! Files of one posting each, and what they leave in one order or another.

use std::alloc::{AllocError, Global};

/// A part of what comes of the postings, which has one text for each of these.
#[derive(Clone, Copy)]
enum Part {
    /// The line that the session posts.
    Line,
    /// The session's entry, which has that number.
    Entry,
    /// The reply to the session, whose entry has that number.
    Reply,
    /// The reply of a replay to the entry of that number.
    Answer,
    /// The replies to the publish and the look after so many entries.
    Shown,
    /// The session's query, as a report has it.
    Query,
}

fn text_of(alloc: Global, part: Part, session: usize, number: usize) -> Result<String, AllocError> {
    match part {
        Part::Line => format!(in alloc; "post q{session} {{}} R({session}) <-\n"),
        Part::Entry => {
            format!(in alloc;
                "# entry {number} session {session}\npost q{session} {{}} R({session}) <-\n"
            )
        }
        Part::Reply => format!(in alloc; "# session {session} line 1 ok {number}\n"),
        Part::Answer => format!(in alloc; "ok {number}\n"),
        Part::Shown => format!(in alloc; "published {number}\nshow {number}\n"),
        Part::Query => {
            format!(in alloc;
                "query q{session} matched\n  text {{}} R({session}) <-\n  groundings 1 ()\n    ()\n"
            )
        }
    }
}

/// So many files with one line each.
pub fn posting_files(alloc: Global, count: usize) -> Result<Vec<Vec<u8>>, AllocError> {
    let mut files = Vec::new(alloc);
    for session in 0..count {
        files.push(text_of(alloc, Part::Line, session, 0)?.into_bytes())?;
    }
    Ok(files)
}

/// The session of an entry, where the line is the comment on one.
fn session_in(line: &str) -> Option<usize> {
    let (_number, session) = line.strip_prefix("# entry ")?.split_once(" session ")?;
    session.parse::<usize>().ok()
}

/// The sessions of the entries, in their order.
fn order_of(alloc: Global, script: &str) -> Result<Vec<usize>, AllocError> {
    let mut order = Vec::new(alloc);
    for line in script.lines() {
        if let Some(session) = session_in(line) {
            order.push(session)?;
        }
    }
    Ok(order)
}

/// The number of the session's entry; 0 where there is none.
fn number_of(order: &[usize], session: usize) -> usize {
    match order.iter().position(|author| *author == session) {
        Some(place) => place.saturating_add(1),
        None => 0,
    }
}

/// Adds the part for each entry; for each session, in the order of their numbers, where it is the reply.
fn put_each(
    alloc: Global,
    text: &mut String,
    order: &[usize],
    part: Part,
) -> Result<(), AllocError> {
    for (place, author) in order.iter().enumerate() {
        let added = match part {
            Part::Reply => text_of(alloc, part, place, number_of(order, place)),
            _ => text_of(alloc, part, *author, place.saturating_add(1)),
        };
        text.push_str(&added?)?;
    }
    Ok(())
}

/// Adds what the files leave over an empty SETUP, where their sessions came in that order.
fn put_script(alloc: Global, text: &mut String, order: &[usize]) -> Result<(), AllocError> {
    text.push_str("limits 1000 100000\n")?;
    put_each(alloc, text, order, Part::Entry)?;
    text.push_str("publish\nshow\n")?;
    put_each(alloc, text, order, Part::Reply)
}

fn is_script_in(alloc: Global, script: &str, order: &[usize]) -> bool {
    let mut text = String::new(alloc);
    put_script(alloc, &mut text, order).is_ok() && text.as_str() == script
}

/// The order in which so many sessions came, where the script is what they leave then.
pub fn order_told(alloc: Global, script: &str, count: usize) -> Option<Vec<usize>> {
    let order = order_of(alloc, script).ok()?;
    if order.len() == count && is_script_in(alloc, script, &order) {
        Some(order)
    } else {
        None
    }
}

/// Adds what a replay of that script answers.
fn put_replay(alloc: Global, text: &mut String, order: &[usize]) -> Result<(), AllocError> {
    text.push_str("ok\n")?;
    put_each(alloc, text, order, Part::Answer)?;
    text.push_str(&text_of(alloc, Part::Shown, 0, order.len())?)?;
    put_each(alloc, text, order, Part::Query)?;
    text.push_str("end\n")
}

/// Whether that is what a replay of that script answers.
pub fn is_replay_in(alloc: Global, answers: &[u8], order: &[usize]) -> bool {
    let mut text = String::new(alloc);
    put_replay(alloc, &mut text, order).is_ok() && text.as_bytes() == answers
}
