//! Boards, and edits that are read from lines.

use cq_atom::Edit;
use cq_board::{Board, Limits};
use cq_rel::Catalog;
use cq_text::{CommandKind, Form, read_command};
use std::alloc::{AllocError, Allocator};

/// A line of a script, which asks for an edit.
#[derive(Clone, Copy)]
pub enum Line {
    /// Posts the query `a`, which waits for nobody.
    Answer,
    /// Posts the query `b`, which waits for nobody either.
    Other,
    /// Posts a query that waits for [`Line::OtherWay`].
    OneWay,
    /// Posts a query that waits for [`Line::OneWay`].
    OtherWay,
    /// Posts the query `c`, which waits for nobody.
    Third,
    /// A flight to Paris comes.
    Paris,
    /// Posts the query `k` for such a flight.
    Asked,
    /// The flight to Paris goes.
    NoParis,
    /// The flight to another place comes.
    Rome,
    /// A row comes.
    RowOne,
    /// Another row comes.
    RowTwo,
}

impl Line {
    fn text(self) -> &'static str {
        match self {
            Line::Answer => "post a {} R(1) <-",
            Line::Other => "post b {} R(1) <-",
            Line::OneWay => "post a {R(2)} R(1) <-",
            Line::OtherWay => "post b {R(1)} R(2) <-",
            Line::Third => "post c {} R(3) <-",
            Line::Paris => "insert Flights(122, Paris)",
            Line::Asked => "post k {} R(x) <- Flights(x, Paris)",
            Line::NoParis => "delete Flights(122, Paris)",
            Line::Rome => "insert Flights(122, Rome)",
            Line::RowOne => "insert T(1)",
            Line::RowTwo => "insert T(2)",
        }
    }
}

/// The edit that a line of a script asks for; a line of no edit counts as out of memory.
pub fn edit<A: Allocator + Copy>(alloc: A, line: Line) -> Result<Edit<A>, AllocError> {
    match read_command(alloc, line.text().as_bytes(), Form::One) {
        Ok(CommandKind::Edit(edit)) => Ok(edit),
        _ => Err(AllocError),
    }
}

/// The catalog of the relations that have rows.
fn catalog<A: Allocator + Copy>(alloc: A) -> Result<Catalog<A>, AllocError> {
    let mut catalog = Catalog::empty(alloc);
    for (relation, arity) in [("Flights", 2), ("T", 1)] {
        // A refused one counts as out of memory.
        if catalog.declare(relation, arity).is_err() {
            return Err(AllocError);
        }
    }
    Ok(catalog)
}

/// A board without rows and queries, for so many queries.
pub fn board<A: Allocator + Copy>(alloc: A, pool: usize) -> Result<Board<A>, AllocError> {
    let catalog = catalog(alloc)?;
    Board::begin(alloc, catalog, Limits { pool, journal: 9 })
}

/// Whether the query of that place and name is there, and is matched or not, as told, with so many groundings.
pub fn stands_at<A: Allocator + Copy>(
    board: &Board<A>,
    place: usize,
    text: &str,
    matched: bool,
    groundings: usize,
) -> bool {
    let Some(name) = board.name_at(place) else {
        return false;
    };
    name.as_str() == text
        && board.is_matched(name) == Some(matched)
        && match board.groundings(name) {
            Some(found) => found.count() == groundings,
            None => false,
        }
}

/// Whether the first grounding of the first query is the flight 122.
fn is_flight<A: Allocator + Copy>(board: &Board<A>) -> Option<bool> {
    let values = board.groundings(board.name_at(0)?)?.list().next()?;
    match values.as_slice() {
        [value] => Some(value.as_num() == Some(122)),
        _ => None,
    }
}

/// Whether the query [`Line::Asked`] is matched, with the flight 122 as its one grounding, or waits, with none.
pub fn is_grounded<A: Allocator + Copy>(board: &Board<A>, grounded: bool) -> bool {
    let flight = is_flight(board) == Some(true);
    stands_at(board, 0, "k", grounded, usize::from(grounded)) && flight == grounded
}
