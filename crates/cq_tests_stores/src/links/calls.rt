//! Calls of links as the tables have them.

use crate::stores::{Copied, Store, go_on_with_copy};
use crate::texts::query_of;
use cq_atom::{Edge, Meter, Query};
use cq_links::Links;
use cq_text::Command;
use std::alloc::{AllocError, Allocator};

/// A query, the edges that it makes after those above it, and how many pairs are tested for them.
pub struct Posting {
    pub text: &'static str,
    pub edges: &'static [Edge],
    pub tests: u64,
}

/// A call of links.
pub enum Call {
    /// The query is posted where none stands, and makes its edges.
    Come(usize, Posting),
    /// The query of the text is posted where none stands, and taken away again.
    ComeAndGo(usize, &'static str),
    /// Whether a query stands at the place.
    Has(usize, bool),
    /// A copy takes the place of the links.
    Copy,
}

/// Whether these are the edges, in any order. The wanted ones are each given once.
fn are_edges(edges: &[Edge], wanted: &[Edge]) -> bool {
    for edge in wanted {
        if !edges.contains(edge) {
            return false;
        }
    }
    edges.len() == wanted.len()
}

/// Posts the query at a place where none stands, and answers whether the edges and the tests are those that it is to
/// make.
fn comes<A: Allocator + Copy>(
    links: &mut Links<A>,
    place: usize,
    query: &Query<A>,
    posting: &Posting,
) -> Result<bool, AllocError> {
    if links.has(place) {
        return Ok(false);
    }
    let mut tests = Meter::new();
    let edges = links.add(place, query, &mut tests)?;
    Ok(are_edges(&edges, posting.edges) && tests.count() == posting.tests && links.has(place))
}

/// Posts the query at a place where none stands and takes it away again. Answers whether the place had it in between,
/// and only then.
fn comes_and_goes<A: Allocator + Copy>(
    links: &mut Links<A>,
    place: usize,
    query: &Query<A>,
) -> Result<bool, AllocError> {
    if links.has(place) {
        return Ok(false);
    }
    let mut tests = Meter::new();
    let _edges = links.add(place, query, &mut tests)?;
    let stood = links.has(place);
    links.remove(place, query);
    Ok(stood && !links.has(place))
}

impl<A: Allocator + Copy> Copied for Links<A> {
    fn copied(&self) -> Result<Links<A>, AllocError> {
        self.copy()
    }
}

impl<A: Allocator + Copy> Store<A> for Links<A> {
    type Call = Call;

    fn begin(alloc: A) -> Result<Links<A>, AllocError> {
        Ok(Links::begin(alloc))
    }

    fn text(call: &Call) -> &'static str {
        match call {
            Call::Come(_, posting) => posting.text,
            Call::ComeAndGo(_, text) => *text,
            Call::Has(_, _) | Call::Copy => "",
        }
    }

    fn make(&mut self, _alloc: A, call: &Call, given: &Command<A>) -> Result<bool, AllocError> {
        match (call, query_of(given)) {
            (Call::Come(place, posting), Some(query)) => comes(self, *place, query, posting),
            (Call::ComeAndGo(place, _), Some(query)) => comes_and_goes(self, *place, query),
            (Call::Has(place, there), _) => Ok(self.has(*place) == *there),
            (Call::Copy, _) => go_on_with_copy(self),
            _ => Ok(false),
        }
    }
}
