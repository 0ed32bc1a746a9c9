//! Calls of grounded, and of the tables that they are over, as the tests have them.

use crate::stores::{Copied, Store, go_on_with_copy};
use crate::texts::{query_of, row_of};
use cq_atom::{Meter, Query, Row};
use cq_grounded::GroundedQueries;
use cq_rel::{Catalog, CatalogFault, Tables};
use cq_text::Command;
use std::alloc::{AllocError, Allocator, Global};

/// Tables over `T` of arity 2 and `U` of arity 1, and grounded over them.
#[derive(Drop)]
pub struct Sample<A: Allocator = Global> {
    tables: Tables<A>,
    grounded: GroundedQueries<A>,
}

/// A call of a sample.
pub enum Call {
    /// The query is put, and this is its place.
    Add(&'static str, usize),
    /// The row comes into the tables, which do not have it.
    Come(&'static str),
    /// The grounded are brought up to the row, which has come, with so many visits.
    Gain(&'static str, u64),
    /// The row goes from the grounded, with so many visits, and from the tables.
    Lose(&'static str, u64),
    /// The query at the place is taken away.
    Withdraw(usize),
    /// Whether a query stands at the place.
    Has(usize, bool),
    /// The places 0, 1, .. have so many groundings, and nothing stands at the next one.
    Counts(&'static [usize]),
    /// The queries at these places, and no others, are those that the row may touch.
    Open(&'static str, &'static [usize]),
    /// A copy takes the place of the grounded.
    Copy,
}

fn declare<A: Allocator + Copy>(catalog: &mut Catalog<A>) -> Result<(), CatalogFault> {
    catalog.declare("T", 2)?;
    catalog.declare("U", 1)
}

fn begun_tables<A: Allocator + Copy>(alloc: A) -> Result<Tables<A>, AllocError> {
    let mut catalog = Catalog::empty(alloc);
    if declare(&mut catalog).is_err() {
        return Err(AllocError);
    }
    Tables::begin(catalog)
}

/// Whether the query gets the place, by one visit.
fn is_put<A: Allocator + Copy>(
    grounded: &mut GroundedQueries<A>,
    tables: &Tables<A>,
    query: &Query<A>,
    place: usize,
) -> Result<bool, AllocError> {
    let mut visits = Meter::new();
    let at = grounded.add(query, tables, &mut visits)?;
    Ok(at == place && visits.count() == 1)
}

/// Whether the row comes; a row that is there counts as out of memory.
fn comes<A: Allocator + Copy>(tables: &mut Tables<A>, row: &Row<A>) -> Result<bool, AllocError> {
    match tables.insert(row.copy()?) {
        Ok(()) => Ok(true),
        Err(_) => Err(AllocError),
    }
}

fn is_gained<A: Allocator + Copy>(
    grounded: &mut GroundedQueries<A>,
    tables: &Tables<A>,
    row: &Row<A>,
    told: u64,
) -> Result<bool, AllocError> {
    let mut visits = Meter::new();
    grounded.gain(tables, row, &mut visits)?;
    Ok(visits.count() == told)
}

fn is_lost<A: Allocator + Copy>(
    grounded: &mut GroundedQueries<A>,
    tables: &mut Tables<A>,
    row: &Row<A>,
    told: u64,
) -> bool {
    let mut visits = Meter::new();
    grounded.lose(tables, row, &mut visits);
    tables.delete(row) == Ok(()) && visits.count() == told
}

/// Takes the query away that stands at the place. Answers whether one stood there, and none does now.
fn is_withdrawn<A: Allocator + Copy>(grounded: &mut GroundedQueries<A>, place: usize) -> bool {
    if !grounded.has(place) {
        return false;
    }
    grounded.remove(place);
    !grounded.has(place) && grounded.query(place).is_none()
}

fn count_at<A: Allocator + Copy>(grounded: &GroundedQueries<A>, place: usize) -> Option<usize> {
    match grounded.groundings(place) {
        Some(found) => Some(found.count()),
        None => None,
    }
}

fn are_counts<A: Allocator + Copy>(grounded: &GroundedQueries<A>, counts: &[usize]) -> bool {
    for (place, count) in counts.iter().enumerate() {
        if !grounded.has(place) || count_at(grounded, place) != Some(*count) {
            return false;
        }
    }
    !grounded.has(counts.len())
}

/// Whether the row may touch the queries at these places, and no others, each told once.
fn are_open<A: Allocator + Copy>(
    grounded: &GroundedQueries<A>,
    row: &Row<A>,
    places: &[usize],
) -> bool {
    let mut left = places.len();
    for place in grounded.open_to(row) {
        if left == 0 || !places.contains(&place) {
            return false;
        }
        left -= 1;
    }
    left == 0
}

impl<A: Allocator + Copy> Copied for GroundedQueries<A> {
    fn copied(&self) -> Result<GroundedQueries<A>, AllocError> {
        self.copy()
    }
}

impl<A: Allocator + Copy> Store<A> for Sample<A> {
    type Call = Call;

    fn begin(alloc: A) -> Result<Sample<A>, AllocError> {
        let tables = begun_tables(alloc)?;
        Ok(Sample {
            tables,
            grounded: GroundedQueries::begin(alloc),
        })
    }

    fn text(call: &Call) -> &'static str {
        match call {
            Call::Add(text, _)
            | Call::Come(text)
            | Call::Gain(text, _)
            | Call::Lose(text, _)
            | Call::Open(text, _) => *text,
            _ => "",
        }
    }

    fn make(&mut self, _alloc: A, call: &Call, given: &Command<A>) -> Result<bool, AllocError> {
        match (call, query_of(given), row_of(given)) {
            (Call::Add(_, place), Some(query), _) => {
                is_put(&mut self.grounded, &self.tables, query, *place)
            }
            (Call::Come(_), _, Some(row)) => comes(&mut self.tables, row),
            (Call::Gain(_, told), _, Some(row)) => {
                is_gained(&mut self.grounded, &self.tables, row, *told)
            }
            (Call::Lose(_, told), _, Some(row)) => {
                Ok(is_lost(&mut self.grounded, &mut self.tables, row, *told))
            }
            (Call::Withdraw(place), _, _) => Ok(is_withdrawn(&mut self.grounded, *place)),
            (Call::Has(place, there), _, _) => Ok(self.grounded.has(*place) == *there),
            (Call::Counts(counts), _, _) => Ok(are_counts(&self.grounded, counts)),
            (Call::Open(_, places), _, Some(row)) => Ok(are_open(&self.grounded, row, places)),
            (Call::Copy, _, _) => go_on_with_copy(&mut self.grounded),
            _ => Ok(false),
        }
    }
}
