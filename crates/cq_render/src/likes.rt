//! Heads that are like a postcondition.

ghost use Rattle.std.specs.Prelude.{◌≡◌, ◌++◌, ◌<◌, ◌==◌, ◌≤◌, ℕ, [], length, if◌then◌else◌, IfOk, OnOk};
ghost use Rattle.std.specs.List.{flat_map, enumerate_from};
ghost use Rattle.cq_atom.specs.Limits.{max_atoms};
ghost use Rattle.cq_board.specs.Near.{AreNearest};
ghost use Rattle.cq_render.specs.Hints.{like_if, likes_of, likes_named};

use crate::explaining::post_of;
use crate::walking::Listing;
use cq_atom::{Atom, Name};
use cq_near::likeness;
use std::alloc::{AllocError, Allocator};

/// A head that is like what is wanted: how many letters are changed, the number of its query in posting order, and its place among the heads.
pub(crate) type Like = (u128, usize, u8);

/// How many of them are told at most.
const MOST: usize = 3;

/// Puts those of the heads of a query that are like what is wanted.
fn put_likes<A: Allocator + Copy>(
    alloc: A,
    wanted: &Atom<A>,
    number: usize,
    heads: &[Atom<A>],
    likes: &mut Vec<Like, A>,
) -> Result<(), AllocError>
    requires { length heads.now ≤ max_atoms }
    ensures { OnOk result (likes.new.items ≡ likes.old.items ++ flat_map (like_if wanted.now number) (enumerate_from 0 heads.now)) }
{
    for place in 0..heads.len() {
        if let Some(changes) = likeness(alloc, wanted, &heads[place])? {
            likes.push((changes, number, place as u8))?;
        }
    }
    Ok(())
}

/// The same, where the query is not the one that waits.
fn put_others<A: Allocator + Copy>(
    alloc: A,
    wanted: &Atom<A>,
    waiter: usize,
    number: usize,
    heads: &[Atom<A>],
    likes: &mut Vec<Like, A>,
) -> Result<(), AllocError>
    requires { length heads.now ≤ max_atoms }
    ensures { OnOk result (likes.new.items ≡ likes.old.items ++ (if number == waiter then [] else flat_map (like_if wanted.now number) (enumerate_from 0 heads.now))) }
{
    if number == waiter {
        Ok(())
    } else {
        put_likes(alloc, wanted, number, heads, likes)
    }
}

/// All heads of other pending queries that are like what is wanted.
fn likes_of<A: Allocator + Copy>(
    alloc: A,
    listing: &Listing<'_, A>,
    wanted: &Atom<A>,
    waiter: usize,
) -> Result<Vec<Like, A>, AllocError>
    ensures { IfOk result (λ likes. likes.items ≡ likes_of wanted.now waiter listing.now.board.now.pending) }
{
    let mut likes = Vec::new(alloc);
    for number in 0..listing.queries.len() {
        let heads = listing.queries[number].query.heads();
        put_others(alloc, wanted, waiter, number, heads, &mut likes)?;
    }
    Ok(likes)
}

/// Those of them that are most like it.
fn nearest_to<A: Allocator + Copy>(
    alloc: A,
    listing: &Listing<'_, A>,
    wanted: &Atom<A>,
    waiter: usize,
) -> Result<Vec<Like, A>, AllocError>
    ensures { IfOk result (λ likes. AreNearest (likes_of wanted.now waiter listing.now.board.now.pending) likes.items) }
{
    let mut likes = likes_of(alloc, listing, wanted, waiter)?;
    likes.sort_unstable();
    likes.truncate(MOST);
    Ok(likes)
}

/// The heads of other pending queries that are most like a postcondition of the query of that name and number.
pub(crate) fn nearest<A: Allocator + Copy>(
    alloc: A,
    listing: &Listing<'_, A>,
    name: &Name<A>,
    waiter: usize,
    post: u8,
) -> Result<Vec<Like, A>, AllocError>
    ensures { IfOk result (λ likes. AreNearest (likes_named name.now waiter post listing.now.board.now.pending) likes.items) }
{
    match post_of(listing.board, name, post) {
        Some(wanted) => nearest_to(alloc, listing, wanted, waiter),
        None => Ok(Vec::new(alloc)),
    }
}
