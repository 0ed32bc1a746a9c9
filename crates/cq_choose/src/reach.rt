//! Which queries are concerned: the matched ones that are asked for, the matched providers of these, and so on.

ghost use Rattle.std.specs.Prelude.{◌≡◌, not, map, IfOk};
ghost use Rattle.std.specs.List.{All, list_any};
ghost use Rattle.std.specs.Str.{bytes_eq};
ghost use Rattle.cq_board.specs.Named.{matched_named, query_named};
ghost use Rattle.cq_board.specs.Steps.Choices.{IsValid};
ghost use Rattle.cq_choose.specs.Steps.Reach.{is_spare, told, IsKnown, IfKnown, IsExact};

use cq_atom::{Atom, Name, Query, Term};
use cq_board::Board;
use cq_closure::closure;
use std::alloc::{AllocError, Allocator};

/// Whether the flag at that place is set.
pub(crate) fn is_spare(spare: &[bool], place: usize) -> bool
    ensures { result ≡ is_spare spare.now place }
{
    match spare.get(place) {
        Some(flag) => *flag,
        None => false,
    }
}

fn is_wanted<A: Allocator>(wanted: &[Name<A>], name: &Name<A>) -> bool
    ensures { result ≡ list_any (bytes_eq name.now) wanted.now }
{
    wanted.iter().any(|other| name.as_str() == other.as_str())
}

/// Of the queries of these names whether they are wanted.
fn wanted_flags<A: Allocator>(
    alloc: A,
    names: &[&Name<A>],
    wanted: &[Name<A>],
) -> Result<Vec<bool, A>, AllocError>
    ensures { IfOk result (λ flags. flags.items ≡ map (λ name. list_any (bytes_eq name.now) wanted.now) names.now) }
{
    let mut flags = Vec::with_capacity(alloc, names.len())?;
    for name in names {
        flags.push(is_wanted(wanted, name))?;
    }
    Ok(flags)
}

// The next four change and answer nothing. They are there for the proof: that a constant is a value is known of one that was looked at,
// and that a head which equals a postcondition has an edge to it is true of atoms over values.

fn know_term<A: Allocator>(term: &Term<A>)
    ensures { IsValid term.now }
{
    match term.as_variable() {
        Some(_) => {}
        None => {
            let _value = term.as_constant();
        }
    }
}

fn know_terms<A: Allocator>(terms: &[Term<A>])
    ensures { All IsValid terms.now }
{
    for term in terms {
        know_term(term);
    }
}

fn know_atoms<A: Allocator>(atoms: &[Atom<A>])
    ensures { All (λ a. All IsValid a.terms) atoms.now }
{
    for atom in atoms {
        know_terms(atom.terms());
    }
}

fn know<A: Allocator>(query: &Query<A>)
    ensures { IsKnown query.now }
{
    know_atoms(query.heads());
    know_atoms(query.posts());
}

/// Whether a matched query is pending under the name.
fn is_matched<A: Allocator + Copy>(board: &Board<A>, name: &Name<A>) -> bool
    ensures matched { result ≡ told (matched_named name.now board.now) }
    ensures known { IfKnown (query_named name.now board.now.pending) }
{
    match board.view(name) {
        Some(view) => {
            know(view.query);
            view.matched
        }
        None => false,
    }
}

/// At which places matched queries stand, of the queries of these names.
fn matched_of<A: Allocator + Copy>(
    alloc: A,
    board: &Board<A>,
    names: &[&Name<A>],
) -> Result<Vec<bool, A>, AllocError>
    ensures matched { IfOk result (λ matched. matched.items ≡ map (λ name. told (matched_named name.now board.now)) names.now) }
    ensures known { IfOk result (λ _. All (λ name. IfKnown (query_named name.now board.now.pending)) names.now) }
{
    let mut matched = Vec::with_capacity(alloc, names.len())?;
    for name in names {
        matched.push(is_matched(board, name))?;
    }
    Ok(matched)
}

/// At which places no query stands that is reached.
fn idle_of<A: Allocator>(alloc: A, reached: &[bool]) -> Result<Vec<bool, A>, AllocError>
    ensures { IfOk result (λ idle. idle.items ≡ map not reached.now) }
{
    let mut idle = Vec::with_capacity(alloc, reached.len())?;
    for is_reached in reached {
        idle.push(!*is_reached)?;
    }
    Ok(idle)
}

/// At which places no query stands that is concerned, where something is to be chosen for the queries of these names: the matched ones there may
/// be left out, since they serve none of these, nor any that serves one of these, and so on.
///
/// # Errors
/// `AllocError` where an allocation failed.
pub(crate) fn left_out<A: Allocator + Copy>(
    alloc: A,
    board: &Board<A>,
    wanted: &[Name<A>],
) -> Result<Vec<bool, A>, AllocError>
    ensures { IfOk result (λ spare. IsExact board.now wanted.now spare.items) }
{
    let _good = board.len();
    let names = board.names()?;
    let edges = board.edges_by_place()?;
    let matched = matched_of(alloc, board, &names)?;
    let first = wanted_flags(alloc, &names, wanted)?;
    let reached = closure(alloc, &edges, &matched, &first)?;
    idle_of(alloc, &reached)
}
