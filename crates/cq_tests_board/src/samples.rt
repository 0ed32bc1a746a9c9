//! Boards that several tests use.

use crate::page::Page;
use crate::shown::{other_look, page_of};
use cq_atom::Edit;
use cq_board::{Board, Limits, Why};
use cq_rel::Catalog;
use cq_text::{CommandKind, Form, read_command};
use std::alloc::{AllocError, Allocator};

pub const LIMITS: Limits = Limits {
    pool: 3,
    journal: 9,
};

/// The rows of the worked travel setup.
pub const TRAVEL: &str = "insert Flights(122, Paris)
insert Flights(123, Paris)
insert Flights(134, Paris)
insert Flights(136, Rome)
insert Airlines(122, United)
insert Airlines(123, United)
insert Airlines(134, Lufthansa)
insert Airlines(136, Alitalia)";

/// The lines of edits that a board is made by.
#[derive(Clone, Copy)]
pub struct Setup {
    pub first: &'static str,
    pub then: &'static str,
}

/// The two worked queries.
pub const KRAMER_AND_JERRY: &str = "post kramer {R(Jerry, x)} R(Kramer, x) <- Flights(x, Paris)
post jerry {R(Kramer, y)} R(Jerry, y) <- Flights(y, Paris), Airlines(y, United)";

/// The travel setup with the two worked queries.
pub const WORKED: Setup = Setup {
    first: TRAVEL,
    then: KRAMER_AND_JERRY,
};

/// The edit that a line of a script asks for; a line of no edit counts as out of memory.
pub fn edit<A: Allocator + Copy>(alloc: A, line: &[u8]) -> Result<Edit<A>, AllocError> {
    match read_command(alloc, line, Form::One) {
        Ok(CommandKind::Edit(edit)) => Ok(edit),
        _ => Err(AllocError),
    }
}

/// What the board answers to the edit of the line.
fn admit<A: Allocator + Copy>(
    alloc: A,
    board: &mut Board<A>,
    line: &str,
) -> Result<Option<Why>, AllocError> {
    let edit = edit(alloc, line.as_bytes())?;
    let told = board.admit(&edit);
    drop(edit);
    told
}

/// Admits the edit of each line; a refused one counts as out of memory.
pub fn admit_all<A: Allocator + Copy>(
    alloc: A,
    board: &mut Board<A>,
    lines: &str,
) -> Result<(), AllocError> {
    for line in lines.lines() {
        if admit(alloc, board, line) != Ok(None) {
            return Err(AllocError);
        }
    }
    Ok(())
}

/// The relations of all boards here, each with its arity.
pub const RELATIONS: [(&str, usize); 4] = [("Flights", 2), ("Airlines", 2), ("T", 2), ("F", 1)];

/// The catalog of these relations; a refused one counts as out of memory.
pub fn catalog<A: Allocator + Copy>(alloc: A) -> Result<Catalog<A>, AllocError> {
    let mut catalog = Catalog::empty(alloc);
    for (relation, arity) in RELATIONS {
        if catalog.declare(relation, arity).is_err() {
            return Err(AllocError);
        }
    }
    Ok(catalog)
}

/// A board without rows and queries, for so many queries.
pub fn begun<A: Allocator + Copy>(alloc: A, pool: usize) -> Result<Board<A>, AllocError> {
    let catalog = catalog(alloc)?;
    Board::begin(alloc, catalog, Limits { pool, journal: 9 })
}

/// The board of the setup.
pub fn made<A: Allocator + Copy>(alloc: A, setup: Setup) -> Result<Board<A>, AllocError> {
    let mut board = begun(alloc, LIMITS.pool)?;
    admit_all(alloc, &mut board, setup.first)?;
    admit_all(alloc, &mut board, setup.then)?;
    Ok(board)
}

/// What the board of the setup shows.
fn page_made<A: Allocator + Copy>(alloc: A, setup: Setup) -> Result<Page, AllocError> {
    let board = made(alloc, setup)?;
    let page = page_of(alloc, &board);
    drop(board);
    page
}

/// Whether the board shows what the board of the setup does.
pub fn shows<A: Allocator + Copy>(
    alloc: A,
    board: &Board<A>,
    setup: Setup,
) -> Result<bool, AllocError> {
    let page = page_of(alloc, board)?;
    let wanted = page_made(alloc, setup)?;
    Ok(page.is_same(&wanted))
}

/// The line of the first look that the board of the setup does not answer so.
pub fn other_made<A: Allocator + Copy>(
    alloc: A,
    setup: Setup,
    looks: &'static str,
) -> Result<Option<&'static str>, AllocError> {
    let board = made(alloc, setup)?;
    let other = other_look(alloc, &board, looks);
    drop(board);
    other
}
