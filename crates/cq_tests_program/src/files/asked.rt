//! What each of sixteen files asks for.

use crate::lines::{posting, withdrawal};
use std::alloc::{AllocError, Global};

/// How many files there are.
pub const FILES: usize = 16;

/// How many lines each file has. Ten of them are a round.
pub const LINES: usize = 160;

/// What a line asks for, as far as its replies go.
#[derive(Clone, Copy, PartialEq, Eq)]
pub enum Wish {
    /// The posting of a name of the file's own, which is not pending.
    OwnPost,
    /// The withdrawal of what the file posted four rounds ago.
    OwnWithdrawal,
    /// The withdrawal of a name that nobody posts.
    NoWithdrawal,
    /// The posting of a name that several files use.
    Post,
    /// The withdrawal of such a name.
    Withdrawal,
    /// A row that several files insert and delete.
    Insertion,
    Deletion,
    Publish,
    Show,
}

/// What the line of that number, from 0, asks for.
pub fn wish_of(number: usize) -> Wish {
    match number % 10 {
        0 => Wish::OwnPost,
        1 | 8 => Wish::Insertion,
        2 => Wish::Post,
        3 => Wish::Deletion,
        4 => Wish::Show,
        5 => Wish::Withdrawal,
        6 => Wish::Publish,
        7 if number < 40 => Wish::NoWithdrawal,
        7 => Wish::OwnWithdrawal,
        _ if number % 20 == 9 => Wish::Show,
        _ => Wish::Deletion,
    }
}

/// The file's line of that number, from 0, in printed form.
pub fn line(alloc: Global, file: usize, number: usize) -> Result<String, AllocError> {
    let round = number / 10;
    let shared = file.saturating_add(number) % 12;
    let next = file.saturating_add(1) % FILES;
    match wish_of(number) {
        Wish::OwnPost => posting(alloc, file, next, round),
        Wish::OwnWithdrawal | Wish::NoWithdrawal => withdrawal(alloc, file, round),
        Wish::Post => { format!(in alloc; "post n{shared} {{S({shared})}} R({shared}) <-") }
        Wish::Withdrawal => format!(in alloc; "withdraw n{shared}"),
        Wish::Insertion => format!(in alloc; "insert T({shared})"),
        Wish::Deletion => format!(in alloc; "delete T({shared})"),
        Wish::Publish => String::from_str(alloc, "publish"),
        Wish::Show => String::from_str(alloc, "show"),
    }
}

/// The one refusal of what is asked for that there may be, whatever the others do.
fn refusal_of(wish: Wish) -> Option<&'static str> {
    match wish {
        Wish::OwnPost | Wish::OwnWithdrawal | Wish::Publish | Wish::Show => None,
        Wish::NoWithdrawal | Wish::Withdrawal => Some("refused NoSuchName"),
        Wish::Post => Some("refused NameTaken"),
        Wish::Insertion => Some("refused RowPresent"),
        Wish::Deletion => Some("refused RowAbsent"),
    }
}

/// Whether that may be the refusal of what is asked for.
pub fn may_refuse(wish: Wish, reply: &str) -> bool {
    match refusal_of(wish) {
        Some(refusal) => reply == refusal,
        None => false,
    }
}

fn put_file(alloc: Global, text: &mut String, file: usize) -> Result<(), AllocError> {
    for number in 0..LINES {
        text.push_str(&line(alloc, file, number)?)?;
        text.push_str("\n")?;
    }
    Ok(())
}

/// The bytes of the file.
fn file_of(alloc: Global, file: usize) -> Result<Vec<u8>, AllocError> {
    let mut text = String::new(alloc);
    put_file(alloc, &mut text, file)?;
    Ok(text.into_bytes())
}

/// The files.
pub fn files(alloc: Global) -> Result<Vec<Vec<u8>>, AllocError> {
    let mut files = Vec::new(alloc);
    for file in 0..FILES {
        files.push(file_of(alloc, file)?)?;
    }
    Ok(files)
}
