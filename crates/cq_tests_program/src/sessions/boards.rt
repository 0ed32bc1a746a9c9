//! The boards of these tests.

use cq_atom::Edit;
use cq_board::{Board, Limits, Why};
use cq_desk::Live;
use cq_rel::Catalog;
use cq_render::report;
use std::alloc::{AllocError, Global};

/// A state that takes the edits of a board, and is reported as one. What goes on in a room is stated over any such state, since what is
/// known of sessions over boards themselves is large.
pub trait Posted: Live<Edit = Edit, Why = Why> {
    /// The report on the board.
    fn told(&self, alloc: Global) -> Result<String, AllocError>;
}

impl Posted for Board {
    fn told(&self, alloc: Global) -> Result<String, AllocError> {
        report(alloc, self)
    }
}

pub const LIMITS: Limits = Limits {
    pool: 4_096,
    journal: 65_536,
};

/// The catalog with the one relation `T` of one column.
pub fn catalog(alloc: Global) -> Option<Catalog> {
    let mut catalog = Catalog::empty(alloc);
    match catalog.declare("T", 1) {
        Ok(_) => Some(catalog),
        Err(_) => None,
    }
}

/// A board over that catalog, without rows and queries.
pub fn board(alloc: Global) -> Option<Board> {
    match catalog(alloc) {
        Some(catalog) => Board::begin(alloc, catalog, LIMITS).ok(),
        None => None,
    }
}
