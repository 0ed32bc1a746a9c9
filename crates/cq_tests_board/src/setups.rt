//! Boards that go on under another setup: what they refuse, and what stays.

use crate::samples::{WORKED, made};
use crate::shown::other_look;
use cq_board::{Board, Limits, LimitsFault, RelationFault};
use cq_rel::CatalogFault;
use std::alloc::{AllocError, Allocator, Global};

/// Relations that the worked board refuses. Each of its queries waits for the last one and offers it.
const REFUSED: [(&str, usize, RelationFault); 4] = [
    ("seats", 1, RelationFault::Refused(CatalogFault::BadName)),
    ("R", 17, RelationFault::Refused(CatalogFault::BadArity)),
    ("Flights", 3, RelationFault::Refused(CatalogFault::Declared)),
    ("R", 3, RelationFault::InUse),
];

/// The worked board with other limits, and as it was else.
const LIMITED: &str = "counts: 2 2 7 4 4
numbered: 1.0>0.0 0.0>1.0
matched: kramer jerry
query kramer: matched 3 1";

fn refuses_relations<A: Allocator + Copy>(board: &mut Board<A>) -> bool {
    for (relation, arity, fault) in REFUSED {
        if board.declare(relation, arity) != Err(fault) {
            return false;
        }
    }
    true
}

/// Whether the board declares the relation, after the others.
fn declares<A: Allocator + Copy>(board: &mut Board<A>) -> bool {
    let declared = board.tables().catalog().len();
    board.declare("Seats", 3) == Ok(())
        && board.tables().catalog().entry(declared) == Some(("Seats", 3))
}

/// Whether the board takes limits for the two queries that are pending, and none for one.
fn is_limited<A: Allocator + Copy>(board: &mut Board<A>) -> bool {
    let one = Limits {
        pool: 1,
        journal: 7,
    };
    let two = Limits {
        pool: 2,
        journal: 7,
    };
    board.set_limits(one) == Err(LimitsFault::TooManyPending) && board.set_limits(two) == Ok(())
}

/// Whether the board refuses and takes what it must, and shows then what it did.
fn is_set_up<A: Allocator + Copy>(alloc: A, board: &mut Board<A>) -> Result<bool, AllocError> {
    if !refuses_relations(board) || !declares(board) || !is_limited(board) {
        return Ok(false);
    }
    Ok(other_look(alloc, board, LIMITED)?.is_none())
}

fn is_worked_set_up(alloc: Global) -> Result<bool, AllocError> {
    let mut board = made(alloc, WORKED)?;
    let is_set_up = is_set_up(alloc, &mut board);
    drop(board);
    is_set_up
}

#[test]
fn other_setups(rt: HostRuntime) {
    assert!(rt; is_worked_set_up(rt.alloc()) == Ok(true));
}
