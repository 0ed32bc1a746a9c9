//! The worked rows with ample memory.

use crate::stores::other_case;
use crate::{grounded, index, links, matching, roster};
use cq_index::AtomIndex;
use cq_links::Links;
use cq_match::is_crowd;
use cq_roster::Roster;
use std::alloc::{AllocError, Global};

/// The places of the case, the part and the call that show something else.
type Other = Result<Option<(usize, usize, usize)>, AllocError>;

const STORES: &[&str] = &["index", "roster", "grounded", "links", "matcher", "graphs"];

/// What is other in the store at the place.
fn other_at(alloc: Global, place: usize) -> Other {
    match place {
        0 => other_case::<_, AtomIndex>(alloc, index::CASES),
        1 => other_case::<_, Roster>(alloc, roster::CASES),
        2 => other_case::<_, grounded::Sample>(alloc, grounded::CASES),
        3 => other_case::<_, Links>(alloc, links::CASES),
        4 => other_case::<_, matching::Guarded>(alloc, matching::CASES),
        5 => other_case::<_, matching::Scratch>(alloc, matching::GRAPHS),
        _ => Err(AllocError),
    }
}

#[test]
fn worked_rows(rt: HostRuntime) {
    for (place, store) in STORES.iter().enumerate() {
        let other = other_at(rt.alloc(), place);
        assert!(rt; other == Ok(None), "{store}: {other:?}");
    }
}

#[test]
fn crowds(rt: HostRuntime) {
    for (providers, wanted) in [(0, false), (1, false), (2, true), (3, true)] {
        assert!(rt; is_crowd(providers) == wanted, "{providers}");
    }
}
