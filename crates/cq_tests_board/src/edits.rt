//! What holds of all boards, and copies that are apart.

use crate::samples::{KRAMER_AND_JERRY, Setup, TRAVEL, WORKED, admit_all, made, shows};
use crate::shown::page_of;
use cq_board::{Board, pools_are_their_content, pools_stay_good, unifies_is_unify};
use std::alloc::{AllocError, Global};

#[test]
fn laws() {
    unifies_is_unify();
    pools_stay_good();
    pools_are_their_content();
}

/// Edits of a board and of its copy, and after them what is put into a travel board that shows the same as either.
#[derive(Clone, Copy)]
struct Stage {
    name: &'static str,
    edits_of_board: &'static str,
    edits_of_copy: &'static str,
    board: &'static str,
    copy: &'static str,
    /// Whether board and copy show the same.
    same: bool,
}

const NEWMAN_TOO: &str = "insert Flights(140, Rome)
post kramer {R(Jerry, x)} R(Kramer, x) <- Flights(x, Paris)
post jerry {R(Kramer, y)} R(Jerry, y) <- Flights(y, Paris), Airlines(y, United)
post newman {} N(z) <- Flights(z, Rome)";

const KRAMER_ALONE: &str = "delete Flights(134, Paris)
post kramer {R(Jerry, x)} R(Kramer, x) <- Flights(x, Paris)";

const STAGES: [Stage; 3] = [
    Stage {
        name: "the copy is made",
        edits_of_board: "",
        edits_of_copy: "",
        board: KRAMER_AND_JERRY,
        copy: KRAMER_AND_JERRY,
        same: true,
    },
    Stage {
        name: "a query and a row come to the board",
        edits_of_board: "post newman {} N(z) <- Flights(z, Rome)
insert Flights(140, Rome)",
        edits_of_copy: "",
        board: NEWMAN_TOO,
        copy: KRAMER_AND_JERRY,
        same: false,
    },
    Stage {
        name: "a query and a row go from the copy",
        edits_of_board: "",
        edits_of_copy: "withdraw jerry
delete Flights(134, Paris)",
        board: NEWMAN_TOO,
        copy: KRAMER_ALONE,
        same: false,
    },
];

/// Whether the board shows what a travel board with these lines does.
fn is_travel(alloc: Global, board: &Board, then: &'static str) -> Result<bool, AllocError> {
    let first = TRAVEL;
    shows(alloc, board, Setup { first, then })
}

/// Whether board and copy show after the edits what they must.
fn is_right(
    alloc: Global,
    board: &mut Board,
    copy: &mut Board,
    stage: &Stage,
) -> Result<bool, AllocError> {
    admit_all(alloc, board, stage.edits_of_board)?;
    admit_all(alloc, copy, stage.edits_of_copy)?;
    let same = page_of(alloc, board)?.is_same(&page_of(alloc, copy)?);
    Ok(
        same == stage.same
            && is_travel(alloc, board, stage.board)?
            && is_travel(alloc, copy, stage.copy)?,
    )
}

/// The name of the first stage at which they show something else.
fn other_stage(
    alloc: Global,
    board: &mut Board,
    copy: &mut Board,
) -> Result<Option<&'static str>, AllocError> {
    for stage in &STAGES {
        if !is_right(alloc, board, copy, stage)? {
            return Ok(Some(stage.name));
        }
    }
    Ok(None)
}

/// The same of a board and a copy that is made of it.
fn other_of_copy(alloc: Global, board: &mut Board) -> Result<Option<&'static str>, AllocError> {
    let mut copy = board.copy()?;
    let other = other_stage(alloc, board, &mut copy);
    drop(copy);
    other
}

/// The same of the worked board.
fn other_worked(alloc: Global) -> Result<Option<&'static str>, AllocError> {
    let mut board = made(alloc, WORKED)?;
    let other = other_of_copy(alloc, &mut board);
    drop(board);
    other
}

#[test]
fn copies_are_apart(rt: HostRuntime) {
    let other = other_worked(rt.alloc());
    assert!(rt; other == Ok(None), "{other:?}");
}
