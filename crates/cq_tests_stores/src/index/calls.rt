//! Calls of an index as the tables have them.

use crate::stores::{Copied, Store, go_on_with_copy};
use crate::texts::atom_of;
use cq_atom::{Atom, Meter};
use cq_index::AtomIndex;
use cq_text::Command;
use std::alloc::{AllocError, Allocator};

/// A call of an index. An atom is the one of the body of the query of a text.
pub enum Call {
    /// The atom is put where none stands.
    Put(&'static str, usize),
    /// The atom is put where none stands, and taken away again.
    PutAndTake(&'static str, usize),
    /// Whether an atom stands at the place.
    Has(usize, bool),
    /// These are the candidates of the atom.
    Candidates(&'static str, &'static [usize]),
    /// These are its partners, found by that many tests.
    Partners(&'static str, &'static [usize], u64),
    /// A copy takes the index's place.
    Copy,
}

/// Adds the atom at a place where nothing stands, and takes it away again where it is not to stay. Answers whether
/// nothing stood there, then the atom, and then nothing where it was taken away.
fn comes<A: Allocator + Copy>(
    index: &mut AtomIndex<A>,
    place: usize,
    atom: &Atom<A>,
    stays: bool,
) -> Result<bool, AllocError> {
    if index.has(place) {
        return Ok(false);
    }
    index.add(place, atom)?;
    let stood = index.has(place);
    if stays {
        return Ok(stood);
    }
    index.remove(place, atom);
    Ok(stood && !index.has(place))
}

fn candidates_are<A: Allocator + Copy>(
    index: &AtomIndex<A>,
    atom: &Atom<A>,
    places: &[usize],
) -> Result<bool, AllocError> {
    Ok(index.candidates(atom)?.as_slice() == places)
}

fn partners_are<A: Allocator + Copy>(
    index: &AtomIndex<A>,
    atom: &Atom<A>,
    places: &[usize],
    tests: u64,
) -> Result<bool, AllocError> {
    let mut meter = Meter::new();
    let partners = index.partners(atom, &mut meter)?;
    Ok(partners.as_slice() == places && meter.count() == tests)
}

impl<A: Allocator + Copy> Copied for AtomIndex<A> {
    fn copied(&self) -> Result<AtomIndex<A>, AllocError> {
        self.copy()
    }
}

impl<A: Allocator + Copy> Store<A> for AtomIndex<A> {
    type Call = Call;

    fn begin(alloc: A) -> Result<AtomIndex<A>, AllocError> {
        Ok(AtomIndex::begin(alloc))
    }

    fn text(call: &Call) -> &'static str {
        match call {
            Call::Put(text, _)
            | Call::PutAndTake(text, _)
            | Call::Candidates(text, _)
            | Call::Partners(text, _, _) => *text,
            Call::Has(_, _) | Call::Copy => "",
        }
    }

    fn make(&mut self, _alloc: A, call: &Call, given: &Command<A>) -> Result<bool, AllocError> {
        match (call, atom_of(given)) {
            (Call::Put(_, place), Some(atom)) => comes(self, *place, atom, true),
            (Call::PutAndTake(_, place), Some(atom)) => comes(self, *place, atom, false),
            (Call::Has(place, there), _) => Ok(self.has(*place) == *there),
            (Call::Candidates(_, places), Some(atom)) => candidates_are(self, atom, places),
            (Call::Partners(_, places, tests), Some(atom)) => {
                partners_are(self, atom, places, *tests)
            }
            (Call::Copy, _) => go_on_with_copy(self),
            _ => Ok(false),
        }
    }
}
