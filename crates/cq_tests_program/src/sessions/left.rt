//! What a beginning of a journal leaves, over plain lists of queries and rows.

use crate::sessions::boards::{LIMITS, catalog};
use cq_atom::{Edit, EditKind, Name, Query, Row};
use cq_board::Board;
use cq_desk::{Entry, Live, NoMemory};
use cq_render::report;
use std::alloc::Global;
use std::mem::drop;

/// The queries that are pending and the rows that are there.
#[derive(Drop)]
pub struct Left {
    queries: Vec<(Name, Query)>,
    rows: Vec<Row>,
}

fn is_row(row: &Row, other: &Row) -> bool {
    row.relation() == other.relation() && row.values() == other.values()
}

impl Left {
    fn nothing(alloc: Global) -> Left {
        Left {
            queries: Vec::new(alloc),
            rows: Vec::new(alloc),
        }
    }

    /// Does to the lists what the edit does to a pool.
    fn list(&mut self, edit: Edit) -> Result<(), NoMemory> {
        match edit {
            EditKind::Post { name, query } => self.queries.push((name, query))?,
            EditKind::Withdraw { name } => self
                .queries
                .retain(|other| other.0.as_str() != name.as_str()),
            EditKind::Insert { row } => self.rows.push(row)?,
            EditKind::Delete { row } => self.rows.retain(|other| !is_row(other, &row)),
        }
        Ok(())
    }

    /// Does so with a copy of each entry's edit, one after another.
    fn list_all(&mut self, entries: &[Entry<Edit>]) -> Result<(), NoMemory> {
        for entry in entries {
            self.list(<Board as Live>::copy_edit(&entry.edit)?)?;
        }
        Ok(())
    }

    /// The report on the board from scratch over these queries and rows.
    fn report(&self, alloc: Global) -> Option<String> {
        let catalog = catalog(alloc)?;
        let board = Board::scratch(alloc, catalog, LIMITS, &self.queries, &self.rows).ok()?;
        let text = report(alloc, &board);
        drop(board);
        text.ok()
    }
}

/// The report on the board from scratch over what the entries leave.
pub fn report_of(alloc: Global, entries: &[Entry<Edit>]) -> Option<String> {
    let mut left = Left::nothing(alloc);
    let text = match left.list_all(entries) {
        Ok(()) => left.report(alloc),
        Err(_) => None,
    };
    drop(left);
    text
}
