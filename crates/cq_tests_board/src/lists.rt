//! Lists of edits from a generator: after each fifth edit the board shows what one from scratch shows, over plain lists
//! of the queries and rows that are left.

use crate::page::Page;
use crate::samples::{begun, edit};
use crate::scratch::{Lists, page_from};
use crate::shown::page_of;
use cq_atom::Edit;
use cq_board::{Board, Limits, ScratchFault};
use std::alloc::{AllocError, Global};
use std::mem::{drop, replace};

const LIMITS: Limits = Limits {
    pool: 5,
    journal: 9,
};

/// A generator of numbers, the same for the same start.
#[derive(Drop)]
struct Draws {
    state: u64,
}

impl Draws {
    /// The next number below the bound; 0 where that is 0.
    fn below(&mut self, bound: usize) -> usize {
        self.state = self
            .state
            .wrapping_mul(6364136223846793005)
            .wrapping_add(1442695040888963407);
        (self.state >> 33) as usize % bound.max(1)
    }

    /// One of the texts.
    fn one_of(&mut self, texts: &[&'static str]) -> &'static str {
        match texts.get(self.below(texts.len())) {
            Some(text) => *text,
            None => "",
        }
    }
}

const NAMES: [&str; 6] = ["a", "b", "c", "d", "e", "f"];

/// Atoms of queries that read both variables. The last is over a relation that has rows.
const OPEN: [&str; 12] = [
    "A(1)", "A(x)", "A(y)", "A(x)", "B(1, x)", "B(2, y)", "B(x, y)", "B(y, x)", "B(x, x)",
    "B(1, 2)", "B(y, 1)", "F(x)",
];

/// Atoms without variables. The last is over a relation that has rows.
const CLOSED: [&str; 12] = [
    "A(1)", "A(2)", "A(3)", "A(\"1\")", "B(1, 1)", "B(1, 2)", "B(2, 1)", "B(2, 2)", "B(1, 1)",
    "A(1)", "A(2)", "T(1, 2)",
];

/// Bodies with both variables. The last two do not fit the catalog.
const BODIES: [&str; 12] = [
    "T(x, y)",
    "T(x, y), T(y, x)",
    "T(x, y), F(x)",
    "F(x), F(y)",
    "T(x, 1), F(y)",
    "T(x, y), F(2)",
    "T(x, x), T(x, y)",
    "F(y), T(1, x)",
    "T(x, y), T(x, y)",
    "F(x), F(y), T(x, y)",
    "F(x), T(y)",
    "F(x), G(y)",
];

/// Rows. The last two do not fit the catalog.
const ROWS: [&str; 12] = [
    "T(1, 1)", "T(1, 2)", "T(1, 3)", "T(2, 1)", "T(2, 2)", "T(3, 1)", "T(3, 2)", "F(1)", "F(2)",
    "F(3)", "T(1)", "G(1)",
];

/// One of the atoms, and in one of three cases a second one.
fn drawn_atoms(draws: &mut Draws, atoms: &[&'static str]) -> (&'static str, &'static str) {
    let first = draws.one_of(atoms);
    if draws.below(3) != 0 {
        return (first, "");
    }
    (first, draws.one_of(atoms))
}

fn put_atoms(atoms: (&str, &str), page: &mut Page) {
    let (first, second) = atoms;
    page.put(first);
    page.put(if second.is_empty() { "" } else { ", " });
    page.put(second);
}

/// A posting of these atoms and that body; one in four awaits nothing.
fn put_posting(draws: &mut Draws, atoms: &[&'static str], body: &str, page: &mut Page) {
    page.put("post ");
    page.put(draws.one_of(NAMES.as_slice()));
    let heads = drawn_atoms(draws, atoms);
    let posts = if draws.below(4) == 0 {
        ("", "")
    } else {
        drawn_atoms(draws, atoms)
    };
    page.put(" {");
    put_atoms(posts, page);
    page.put("} ");
    put_atoms(heads, page);
    page.put(" <- ");
    page.put(body);
}

/// The line of an edit.
fn put_line(draws: &mut Draws, page: &mut Page) {
    let name = draws.one_of(NAMES.as_slice());
    let row = draws.one_of(ROWS.as_slice());
    let (verb, what) = match draws.below(12) {
        0..=2 => {
            let body = draws.one_of(BODIES.as_slice());
            return put_posting(draws, OPEN.as_slice(), body, page);
        }
        3 => return put_posting(draws, CLOSED.as_slice(), "", page),
        4..=6 => ("withdraw ", name),
        7..=9 => ("insert ", row),
        _ => ("delete ", row),
    };
    page.put(verb);
    page.put(what);
}

fn drawn_edit(alloc: Global, draws: &mut Draws) -> Result<Edit, AllocError> {
    let mut page = Page::new();
    put_line(draws, &mut page);
    match page.text() {
        Some(line) => edit(alloc, line),
        None => Err(AllocError),
    }
}

/// How many edits were refused, and how many looks found a board of some kind.
#[derive(Clone, Copy, Debug)]
struct Seen {
    refused: u64,
    /// Some query is matched.
    matched: u64,
    /// Some query is not matched.
    waiting: u64,
    /// A postcondition is crowded.
    crowded: u64,
}

/// How many a call tells.
fn count_of<T: Drop>(told: Result<Vec<T>, AllocError>) -> Result<usize, AllocError> {
    let items = told?;
    Ok(items.len())
}

impl Seen {
    fn look(&mut self, board: &Board) -> Result<(), AllocError> {
        let matched = count_of(board.matched())?;
        let crowds = count_of(board.crowded())?;
        if matched > 0 {
            self.matched = self.matched.saturating_add(1);
        }
        if matched < board.len() {
            self.waiting = self.waiting.saturating_add(1);
        }
        if crowds > 0 {
            self.crowded = self.crowded.saturating_add(1);
        }
        Ok(())
    }
}

/// A board, and plain lists of the queries and rows that are left.
#[derive(Drop)]
struct Twin {
    board: Board,
    lists: Lists,
}

/// Goes on with a copy in place of the board.
fn go_on_with_copy(board: &mut Board) -> Result<(), AllocError> {
    let copy = board.copy()?;
    drop(replace(board, copy));
    Ok(())
}

/// Puts an edit to the board, and to the lists where it is not refused.
fn admit(twin: &mut Twin, edit: Edit, seen: &mut Seen) -> Result<(), AllocError> {
    let told = twin.board.admit(&edit);
    if told == Ok(None) {
        return twin.lists.take(edit);
    }
    drop(edit);
    let _ = told?;
    seen.refused = seen.refused.saturating_add(1);
    Ok(())
}

/// Whether the board shows what one from scratch shows.
fn is_kept(alloc: Global, twin: &Twin) -> Result<bool, ScratchFault> {
    let page = page_of(alloc, &twin.board)?;
    let wanted = page_from(alloc, &twin.lists, LIMITS)?;
    Ok(page.is_same(&wanted))
}

/// Makes an edit, or goes on with a copy.
fn change(
    alloc: Global,
    draws: &mut Draws,
    twin: &mut Twin,
    seen: &mut Seen,
) -> Result<(), AllocError> {
    if draws.below(16) == 0 {
        return go_on_with_copy(&mut twin.board);
    }
    admit(twin, drawn_edit(alloc, draws)?, seen)
}

/// Makes five edits, and looks at what they left.
fn change_five(
    alloc: Global,
    draws: &mut Draws,
    twin: &mut Twin,
    seen: &mut Seen,
) -> Result<(), AllocError> {
    for _ in 0..5 {
        change(alloc, draws, twin, seen)?;
    }
    seen.look(&twin.board)
}

/// Whether the board is kept under fifty edits, of which each fifth is looked after.
fn keep(
    alloc: Global,
    draws: &mut Draws,
    twin: &mut Twin,
    seen: &mut Seen,
) -> Result<bool, ScratchFault> {
    for _ in 0..10 {
        change_five(alloc, draws, twin, seen)?;
        if !is_kept(alloc, twin)? {
            return Ok(false);
        }
    }
    Ok(true)
}

/// The same of a board that begins.
fn keep_list(alloc: Global, draws: &mut Draws, seen: &mut Seen) -> Result<bool, ScratchFault> {
    let mut twin = Twin {
        board: begun(alloc, LIMITS.pool)?,
        lists: Lists::new(alloc),
    };
    let kept = keep(alloc, draws, &mut twin, seen);
    drop(twin);
    kept
}

/// The first list under which the board is not kept.
fn other_list(alloc: Global, seen: &mut Seen) -> Result<Option<usize>, ScratchFault> {
    let mut draws = Draws { state: 20110612 };
    for list in 0..200usize {
        if !keep_list(alloc, &mut draws, seen)? {
            return Ok(Some(list));
        }
    }
    Ok(None)
}

#[test]
fn two_hundred_lists_of_edits(rt: HostRuntime) {
    let mut seen = Seen {
        refused: 0,
        matched: 0,
        waiting: 0,
        crowded: 0,
    };
    let other = other_list(rt.alloc(), &mut seen);
    let many = seen.refused >= 2_000
        && seen.matched >= 300
        && seen.waiting >= 300
        && seen.crowded >= 300;
    assert!(rt; other == Ok(None) && many, "{other:?} {seen:?}");
}
