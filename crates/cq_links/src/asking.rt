//! One side of a query asks the other side of all queries, and the answers are edges.

ghost use Rattle.std.specs.Prelude.{◌≡◌, ◌+◌, ◌≤◌, length, sum_by, min, OnOk};
ghost use Rattle.cq_index.specs.Index.{candidates_of};
ghost use Rattle.cq_links.specs.Steps.Asking.{edge_of, Answers, AnswersAll};

use cq_atom::{Atom, Edge, MAX_ATOMS, Meter};
use cq_index::AtomIndex;
use std::alloc::{AllocError, Allocator};

/// The side of a query that asks: heads ask who waits for them, postconditions who supplies them.
#[derive(Clone, Copy)]
pub enum Side {
    Heads,
    Posts,
}

/// The edge between the atom of that number on the side of the query at the place, and the atom of the other side at the
/// key.
fn edge_of(side: Side, place: usize, number: u8, key: usize) -> Edge
    ensures { result ≡ edge_of side place number key }
{
    let other_place = key / MAX_ATOMS;
    let other_number = (key % MAX_ATOMS) as u8;
    match side {
        Side::Heads => Edge {
            provider: place,
            head: number,
            waiter: other_place,
            post: other_number,
        },
        Side::Posts => Edge {
            provider: other_place,
            head: other_number,
            waiter: place,
            post: number,
        },
    }
}

/// Adds the edges to the atoms of the index that unify with the one atom.
fn ask<A: Allocator + Copy>(
    edges: &mut Vec<Edge, A>,
    index: &AtomIndex<A>,
    side: Side,
    place: usize,
    number: u8,
    atom: &Atom<A>,
    tests: &mut Meter,
) -> Result<(), AllocError>
    ensures edges { OnOk result (Answers (edge_of side place number) index.now atom.now edges.old.items edges.new.items) }
    ensures ticks { OnOk result (tests.new ≡ min (tests.old + length (candidates_of index.now atom.now)) u64.MAX) }
{
    let partners = index.partners(atom, tests)?;
    for key in &partners {
        edges.push(edge_of(side, place, number, *key))?;
    }
    Ok(())
}

/// Adds the edges to the atoms of the index that unify with the atoms.
pub fn ask_all<A: Allocator + Copy>(
    edges: &mut Vec<Edge, A>,
    index: &AtomIndex<A>,
    side: Side,
    place: usize,
    atoms: &[Atom<A>],
    tests: &mut Meter,
) -> Result<(), AllocError>
    requires { length atoms.now ≤ MAX_ATOMS }
    ensures edges { OnOk result (AnswersAll (edge_of side place) index.now atoms.now edges.old.items edges.new.items) }
    ensures ticks { OnOk result (tests.new ≡ min (tests.old + sum_by (λ atom. length (candidates_of index.now atom)) atoms.now) u64.MAX) }
{
    let _counted = tests.count();
    for (number, atom) in atoms.iter().enumerate() {
        ask(edges, index, side, place, number as u8, atom, tests)?;
    }
    Ok(())
}
