//! Boards from scratch.

use crate::page::Page;
use crate::samples::{KRAMER_AND_JERRY, LIMITS, Setup, catalog, edit};
use crate::shown::{other_look, page_of};
use crate::views::WORKED_SHOWN;
use cq_atom::{Edit, EditKind, Name, Query, Row};
use cq_board::{Board, Limits, ScratchFault, Why};
use cq_rel::Catalog;
use std::alloc::{AllocError, Allocator, Global};

/// Plain lists of queries and rows.
#[derive(Drop)]
pub struct Lists<A: Allocator = Global> {
    queries: Vec<(Name<A>, Query<A>), A>,
    rows: Vec<Row<A>, A>,
}

fn is_row<A: Allocator>(row: &Row<A>, other: &Row<A>) -> bool {
    row.relation() == other.relation() && row.values() == other.values()
}

impl<A: Allocator + Copy> Lists<A> {
    pub fn new(alloc: A) -> Lists<A> {
        Lists {
            queries: Vec::new(alloc),
            rows: Vec::new(alloc),
        }
    }

    /// Does to the lists what the edit does to a pool.
    pub fn take(&mut self, edit: Edit<A>) -> Result<(), AllocError> {
        match edit {
            EditKind::Post { name, query } => self.queries.push((name, query))?,
            EditKind::Withdraw { name } => self
                .queries
                .retain(|other| other.0.as_str() != name.as_str()),
            EditKind::Insert { row } => self.rows.push(row)?,
            EditKind::Delete { row } => self.rows.retain(|other| !is_row(other, &row)),
        }
        Ok(())
    }

    fn take_all(&mut self, alloc: A, lines: &str) -> Result<(), AllocError> {
        for line in lines.lines() {
            self.take(edit(alloc, line.as_bytes())?)?;
        }
        Ok(())
    }

    /// The board of these queries and rows.
    fn board(
        &self,
        alloc: A,
        catalog: Catalog<A>,
        limits: Limits,
    ) -> Result<Board<A>, ScratchFault> {
        Board::scratch(alloc, catalog, limits, &self.queries, &self.rows)
    }
}

/// The queries and the rows of the setup.
pub fn lists_of<A: Allocator + Copy>(alloc: A, setup: Setup) -> Result<Lists<A>, AllocError> {
    let mut lists = Lists::new(alloc);
    lists.take_all(alloc, setup.first)?;
    lists.take_all(alloc, setup.then)?;
    Ok(lists)
}

/// What the board of the lists shows.
pub fn page_from<A: Allocator + Copy>(
    alloc: A,
    lists: &Lists<A>,
    limits: Limits,
) -> Result<Page, ScratchFault> {
    let board = lists.board(alloc, catalog(alloc)?, limits)?;
    let page = page_of(alloc, &board);
    drop(board);
    Ok(page?)
}

/// Whether the lists make the worked board.
pub fn is_worked<A: Allocator + Copy>(
    alloc: A,
    catalog: Catalog<A>,
    lists: &Lists<A>,
) -> Result<bool, ScratchFault> {
    let board = lists.board(alloc, catalog, LIMITS)?;
    let other = other_look(alloc, &board, WORKED_SHOWN);
    drop(board);
    Ok(other?.is_none())
}

/// The same of the setup's.
fn is_worked_of(alloc: Global, setup: Setup) -> Result<bool, ScratchFault> {
    let catalog = catalog(alloc)?;
    let lists = lists_of(alloc, setup)?;
    let worked = is_worked(alloc, catalog, &lists);
    drop(lists);
    worked
}

/// The second row does not fit the catalog.
const UNFIT: Setup = Setup {
    first: "insert Flights(1, 2)
insert Flights(1)",
    then: KRAMER_AND_JERRY,
};

#[test]
fn refused_from_scratch(rt: HostRuntime) {
    let refused = ScratchFault::Refused(Why::Arity { place: 0 });
    assert!(rt; is_worked_of(rt.alloc(), UNFIT) == Err(refused));
}
