//! The worked rows: after each edit its answer, the work, and the matched queries.

use crate::page::Page;
use crate::samples::{TRAVEL, admit_all, begun, edit};
use crate::shown::put_matched;
use cq_atom::Meter;
use cq_board::{Board, Why, Work};
use std::alloc::{AllocError, Global};
use std::fmt::Write;

/// How many queries may be pending on a board, the edits that are put into it, and the rows that follow. A row is an edit and,
/// after ` = `, what comes of it: `ok` or why it is refused; how many tests, visits and edges that lose their matched
/// provider; and after a colon the names that are matched after it.
#[derive(Clone, Copy)]
pub struct Worked {
    pub pool: usize,
    pub setup: &'static str,
    pub rows: &'static str,
}

// One waits, and coordinates with the one that comes; it is withdrawn, and posted again.
const KRAMER_AND_JERRY: Worked = Worked {
    pool: 9,
    setup: TRAVEL,
    rows: "post kramer {R(Jerry, x)} R(Kramer, x) <- Flights(x, Paris) = ok 0 1 0:
post jerry {R(Kramer, y)} R(Jerry, y) <- Flights(y, Paris), Airlines(y, United) = ok 2 1 0: kramer jerry
withdraw kramer = ok 0 0 2:
post kramer {R(Jerry, x)} R(Kramer, x) <- Flights(x, Paris) = ok 2 1 0: jerry kramer",
};

const RING_OF_THREE: Worked = Worked {
    pool: 9,
    setup: "",
    rows: "post a {S(2)} S(1) <- = ok 0 1 0:
post b {S(3)} S(2) <- = ok 1 1 0:
post c {S(1)} S(3) <- = ok 2 1 0: a b c
withdraw b = ok 0 0 3:
post b {S(3)} S(2) <- = ok 2 1 0: a c b",
};

// Two revived by a third, which is withdrawn and posted again.
const REVIVED_BY_A_THIRD: Worked = Worked {
    pool: 9,
    setup: "",
    rows: "post u {P(2), P(3)} P(1) <- = ok 0 1 0:
post v {P(1), P(3)} P(2) <- = ok 2 1 0:
post z {} P(3) <- = ok 2 1 0: u v z
withdraw z = ok 0 0 4:
post z {} P(3) <- = ok 2 1 0: u v z",
};

const CROWDED_SUPPLIER: Worked = Worked {
    pool: 9,
    setup: "",
    rows: "post w {R(1)} Q(1) <- = ok 0 1 0:
post h1 {} R(1) <- = ok 1 1 0: w h1
post h2 {Z(1)} R(1) <- = ok 1 1 0: w h1
withdraw h2 = ok 0 0 0: w h1",
};

const SUPPLIES_ITSELF: Worked = Worked {
    pool: 9,
    setup: TRAVEL,
    rows: "post s {R(A, x)} R(A, x) <- Flights(x, Rome) = ok 1 1 0: s",
};

const BOTH_WAYS: Worked = Worked {
    pool: 9,
    setup: "",
    rows: "post t {} R(x, y) <- T(x, y), T(y, x) = ok 0 1 0:
insert T(1, 2) = ok 0 1 0:
insert T(2, 1) = ok 0 1 0: t
insert T(1, 1) = ok 0 1 0: t
delete T(1, 2) = ok 0 1 0: t",
};

// The query supplies itself and another one, until its last row goes; and itself alone, until it goes.
const SUPPLIES_TWO: Worked = Worked {
    pool: 9,
    setup: "",
    rows: "post w {R(1)} Q(1) <- = ok 0 1 0:
post s {R(1)} R(1) <- F(x) = ok 2 1 0:
insert F(7) = ok 0 1 0: w s
insert F(8) = ok 0 1 0: w s
delete F(7) = ok 0 1 0: w s
delete F(8) = ok 0 1 2:
withdraw w = ok 0 0 0:
insert F(7) = ok 0 1 0: s
withdraw s = ok 0 0 1:",
};

const EMPTY_BODY: Worked = Worked {
    pool: 9,
    setup: "",
    rows: "post one {} R(1) <- = ok 0 1 0: one",
};

const NUMBER_IS_NO_TEXT: Worked = Worked {
    pool: 9,
    setup: "",
    rows: "post n {R(122)} Q(1) <- = ok 0 1 0:
post t {} R(\"122\") <- = ok 0 1 0: t
post l {} R(-9223372036854775808) <- = ok 0 1 0: t l",
};

const EVERY_REFUSAL: Worked = Worked {
    pool: 9,
    setup: "",
    rows: "insert Flights(122, Paris) = ok 0 0 0:
insert Flights(122, Paris) = RowPresent 0 0 0:
delete Flights(122, Rome) = RowAbsent 0 0 0:
post a {} R(1) <- = ok 0 1 0: a
post a {} R(2) <- = NameTaken 0 0 0: a
withdraw a = ok 0 0 0:
withdraw a = NoSuchName 0 0 0:
post c {} Flights(1, 2) <- = NotAnswer { part: Heads, place: 0 } 0 0 0:
post d {} R(x) <- Flights(x) = Arity { place: 0 } 0 0 0:
post e {} R(x) <- Trains(x) = UnknownRelation { place: 0 } 0 0 0:",
};

const PUBLISHED_GROUNDINGS: Worked = Worked {
    pool: 9,
    setup: "",
    rows: "insert Flights(122, Paris) = ok 0 0 0:
post k {} R(x) <- Flights(x, Paris) = ok 0 1 0: k
delete Flights(122, Paris) = ok 0 1 0:
insert Flights(122, Rome) = ok 0 1 0:",
};

const LIMITS: Worked = Worked {
    pool: 1,
    setup: "",
    rows: "post a {} R(1) <- = ok 0 1 0: a
post a {} R(1) <- = PoolFull 0 0 0: a",
};

const WORKED: [Worked; 12] = [
    KRAMER_AND_JERRY,
    RING_OF_THREE,
    REVIVED_BY_A_THIRD,
    CROWDED_SUPPLIER,
    SUPPLIES_ITSELF,
    BOTH_WAYS,
    SUPPLIES_TWO,
    EMPTY_BODY,
    NUMBER_IS_NO_TEXT,
    EVERY_REFUSAL,
    PUBLISHED_GROUNDINGS,
    LIMITS,
];

/// The work that was done before an edit: one of each. An edit adds to it.
fn begun_work() -> Work {
    let mut work = Work::new();
    work.tests.tick();
    work.visits.tick();
    work.changes.tick();
    work
}

/// Writes how many were counted but the one before; `none` where that is gone.
fn put_more(meter: &Meter, page: &mut Page) {
    page.space();
    match meter.count().checked_sub(1) {
        Some(more) => page.put_number(more),
        None => page.put("none"),
    }
}

/// Writes the answer to an edit.
fn put_answer(told: Option<Why>, page: &mut Page) {
    match told {
        Some(why) => {
            let _ = write!(page, "{why:?}");
        }
        None => page.put("ok"),
    }
}

/// Writes what comes of the edit of the line: the answer and the work.
fn put_admitted(
    alloc: Global,
    board: &mut Board,
    line: &str,
    page: &mut Page,
) -> Result<(), AllocError> {
    let edit = edit(alloc, line.as_bytes())?;
    let mut work = begun_work();
    let told = board.admit_counted(&edit, &mut work);
    drop(edit);
    put_answer(told?, page);
    put_more(&work.tests, page);
    put_more(&work.visits, page);
    put_more(&work.changes, page);
    Ok(())
}

/// Whether the edit of the row comes out so.
fn is_right(alloc: Global, board: &mut Board, row: &str) -> Result<bool, AllocError> {
    let (line, wanted) = row.split_once(" = ").unwrap_or((row, ""));
    let mut page = Page::new();
    put_admitted(alloc, board, line, &mut page)?;
    page.put(":");
    put_matched(board, &mut page)?;
    Ok(page.is(wanted))
}

/// The first row that does not go as said, after the setup.
fn other_behind(
    alloc: Global,
    board: &mut Board,
    worked: Worked,
) -> Result<Option<&'static str>, AllocError> {
    admit_all(alloc, board, worked.setup)?;
    for row in worked.rows.lines() {
        if !is_right(alloc, board, row)? {
            return Ok(Some(row));
        }
    }
    Ok(None)
}

/// The first row that does not go as said.
pub fn other_row(alloc: Global, worked: Worked) -> Result<Option<&'static str>, AllocError> {
    let mut board = begun(alloc, worked.pool)?;
    let other = other_behind(alloc, &mut board, worked);
    drop(board);
    other
}

#[test]
fn worked_rows(rt: HostRuntime) {
    for worked in WORKED {
        let other = other_row(rt.alloc(), worked);
        assert!(rt; other == Ok(None), "{other:?}");
    }
}
