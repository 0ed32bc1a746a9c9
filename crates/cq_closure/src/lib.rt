//! Closure of a set of nodes: who is reached over edges, from who waits to who provides.
//!
//! [`closure`] flags the nodes that are reached from the first ones (`specs/Closure`).
//!
//! Not here: what a node is, which are the first, and who may be reached.
#![tactic(auto)]

ghost use Rattle.std.specs.Prelude.{◌≡◌, ◌<◌, ◌↔◌, ℕ, List, [], Bool, true, false, length, IfOk, OnOk};
ghost use Rattle.std.specs.List.{All};
ghost use Rattle.std.specs.List.Sorted.{IsNonDecreasingBy};
ghost use Rattle.cq_atom.specs.declared.edge.Edge.{Edge};
ghost use Rattle.cq_closure.specs.Closure.{is_set, IsReached};
ghost use Rattle.cq_closure.specs.Steps.Reach.{is_taken, Takes, IsClosing, AreReached};

use cq_atom::Edge;
use cq_match::edges_into;
use std::alloc::{AllocError, Allocator};

/// Nodes that are gone over.
#[derive(Drop)]
struct Reach<A: Allocator> {
    /// Which nodes may be reached, and were not.
    spare: Vec<bool, A>,
    /// The nodes that were reached, and whose providers are still to be.
    left: Vec<usize, A>,
}

/// Whether the node has a flag.
pub fn is_set(flags: &[bool], node: usize) -> bool
    ensures { result ≡ is_set flags.now node }
{
    match flags.get(node) {
        Some(flag) => *flag,
        None => false,
    }
}

/// Takes the node, if it is spare.
fn take<A: Allocator>(reach: &mut Reach<A>, node: usize) -> Result<(), AllocError>
    ensures takes { OnOk result (Takes reach.old.spare.items reach.old.left.items reach.new.spare.items reach.new.left.items) }
    ensures taken { OnOk result (is_set reach.new.spare.items node ≡ false) }
    ensures only { OnOk result ((edges : List Edge) (may first : List Bool) → (is_set may node ≡ true → IsReached edges may first node) → AreReached edges may first reach.old.spare.items reach.old.left.items → AreReached edges may first reach.new.spare.items reach.new.left.items) }
{
    if is_set(&reach.spare, node) {
        reach.spare[node] = false;
        reach.left.push(node)?;
    }
    Ok(())
}

/// Takes the providers of the edges.
fn take_providers<A: Allocator>(reach: &mut Reach<A>, edges: &[Edge]) -> Result<(), AllocError>
    ensures takes { OnOk result (Takes reach.old.spare.items reach.old.left.items reach.new.spare.items reach.new.left.items) }
    ensures taken { OnOk result (All (λ edge. is_set reach.new.spare.items edge.provider ≡ false) edges.now) }
    ensures only { OnOk result ((all : List Edge) (may first : List Bool) → All (λ edge. is_set may edge.provider ≡ true → IsReached all may first edge.provider) edges.now → AreReached all may first reach.old.spare.items reach.old.left.items → AreReached all may first reach.new.spare.items reach.new.left.items) }
{
    for edge in edges {
        take(reach, edge.provider)?;
    }
    Ok(())
}

/// Takes the node, where it has the flag.
fn take_if<A: Allocator>(
    reach: &mut Reach<A>,
    first: &[bool],
    node: usize,
) -> Result<(), AllocError>
    ensures takes { OnOk result (Takes reach.old.spare.items reach.old.left.items reach.new.spare.items reach.new.left.items) }
    ensures taken { OnOk result (is_set first.now node ≡ true → is_set reach.new.spare.items node ≡ false) }
    ensures only { OnOk result ((edges : List Edge) (may : List Bool) → AreReached edges may first.now reach.old.spare.items reach.old.left.items → AreReached edges may first.now reach.new.spare.items reach.new.left.items) }
{
    if is_set(first, node) {
        take(reach, node)
    } else {
        Ok(())
    }
}

/// Takes the first nodes.
fn take_first<A: Allocator>(reach: &mut Reach<A>, first: &[bool]) -> Result<(), AllocError>
    ensures takes { OnOk result (Takes reach.old.spare.items reach.old.left.items reach.new.spare.items reach.new.left.items) }
    ensures taken { OnOk result ((n : ℕ) → n < length first.now → is_set first.now n ≡ true → is_set reach.new.spare.items n ≡ false) }
    ensures only { OnOk result ((edges : List Edge) (may : List Bool) → AreReached edges may first.now reach.old.spare.items reach.old.left.items → AreReached edges may first.now reach.new.spare.items reach.new.left.items) }
{
    for node in 0..first.len() {
        take_if(reach, first, node)?;
    }
    Ok(())
}

/// Takes providers until none is left to be taken.
fn close<A: Allocator>(reach: &mut Reach<A>, edges: &[Edge]) -> Result<(), AllocError>
    requires { IsNonDecreasingBy (λ edge. edge.waiter) edges.now }
    ensures kept { OnOk result ((n : ℕ) → is_set reach.old.spare.items n ≡ false → is_set reach.new.spare.items n ≡ false) }
    ensures closed { OnOk result ((may : List Bool) → IsClosing edges.now may reach.old.spare.items reach.old.left.items → IsClosing edges.now may reach.new.spare.items []) }
    ensures only { OnOk result ((may first : List Bool) → AreReached edges.now may first reach.old.spare.items reach.old.left.items → AreReached edges.now may first reach.new.spare.items reach.new.left.items) }
{
    while let Some(waiter) = reach.left.pop() {
        take_providers(reach, edges_into(edges, waiter))?;
    }
    Ok(())
}

/// Whether the node may be reached, and is not spare.
fn is_taken(may: &[bool], spare: &[bool], node: usize) -> bool
    ensures { result ≡ is_taken may.now spare.now node }
{
    is_set(may, node) && !is_set(spare, node)
}

/// The nodes that may be reached, and are not spare.
fn taken<A: Allocator>(alloc: A, may: &[bool], spare: &[bool]) -> Result<Vec<bool, A>, AllocError>
    ensures long { IfOk result (λ flags. length flags.items ≡ length may.now) }
    ensures each { IfOk result (λ flags. (n : ℕ) → n < length may.now → is_set flags.items n ≡ is_taken may.now spare.now n) }
{
    let mut flags = Vec::with_capacity(alloc, may.len())?;
    for node in 0..may.len() {
        flags.push(is_taken(may, spare, node))?;
    }
    Ok(flags)
}

/// Flags the nodes that are reached, of those that may be: the first ones, and over the edges, which stand by their waiters, all who provide for one that is
/// reached. Each edge into a node that is reached is gone over once, and found by halving.
///
/// # Errors
/// `AllocError` where an allocation failed.
pub fn closure<A: Allocator + Copy>(
    alloc: A,
    edges: &[Edge],
    may: &[bool],
    first: &[bool],
) -> Result<Vec<bool, A>, AllocError>
    requires { IsNonDecreasingBy (λ edge. edge.waiter) edges.now }
    ensures long { IfOk result (λ flags. length flags.items ≡ length may.now) }
    ensures reached { IfOk result (λ flags. (n : ℕ) → (is_set flags.items n ≡ true) ↔ IsReached edges.now may.now first.now n) }
{
    let mut reach = Reach {
        spare: Vec::from_slice(alloc, may)?,
        left: Vec::new(alloc),
    };
    take_first(&mut reach, first)?;
    close(&mut reach, edges)?;
    taken(alloc, may, &reach.spare)
}
