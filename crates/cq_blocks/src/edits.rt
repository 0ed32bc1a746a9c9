//! What an insertion or a removal does to the blocks.

ghost use Rattle.std.specs.Prelude.{◌≡◌, ◌+◌, Bool, filter, ◌<◌, ◌≤◌, [], ◌∷◌, ◌++◌, length, take, drop, IfOk, IfErr, OnOk, OnErr, slice_index_or, slice_get, insert, remove, Some};
ghost use Rattle.std.specs.Fn.{ComputesKey};
ghost use Rattle.cq_blocks.specs.Blocks.{elements, flat, lists_of, AreFilled, IsPlace, IsBefore, Stays, halved};

use crate::place::Place;
use std::alloc::{AllocError, AllocFailed, Allocator};

/// How many elements a block has where an insertion first cuts it in halves.
pub(crate) const MOST: usize = 128;

/// Puts a block of one element after the others.
fn push_block<T: Drop, A: Allocator + Clone>(
    blocks: &mut Vec<Vec<T, A>, A>,
    element: T,
) -> Result<(), AllocFailed<T>>
    ensures ok { OnOk result (lists_of blocks.new.items ≡ lists_of blocks.old.items ++ (element ∷ []) ∷ []) }
    ensures err { OnErr result (lists_of blocks.new.items ≡ lists_of blocks.old.items) }
    ensures value_returned { IfErr result (λ refused. refused.value ≡ element) }
{
    if blocks.reserve(1).is_err() {
        return Err(AllocFailed { value: element });
    }
    let Ok(alloc) = blocks.allocator().clone() else {
        return Err(AllocFailed { value: element });
    };
    let mut block = Vec::new(alloc);
    block.push(element)?;
    match blocks.push(block) {
        Ok(()) => Ok(()),
        // Room was made before.
        Err(_) => unreachable!(),
    }
}

/// Cuts a block in two, after as many of its elements as are asked.
fn cut<T: Drop, A: Allocator + Clone>(
    blocks: &mut Vec<Vec<T, A>, A>,
    block: usize,
    stay: usize,
) -> Result<(), AllocError>
    requires within { block < length (lists_of blocks.old.items) }
    requires long { stay ≤ length (slice_index_or (lists_of blocks.old.items) block []) }
    ensures ok { OnOk result (lists_of blocks.new.items ≡ halved stay block (lists_of blocks.old.items)) }
    ensures err { OnErr result (lists_of blocks.new.items ≡ lists_of blocks.old.items) }
{
    blocks.reserve(1)?;
    let behind = blocks[block].split_off(stay)?;
    match blocks.insert(block + 1, behind) {
        Ok(()) => Ok(()),
        // Room was made before.
        Err(_) => unreachable!(),
    }
}

/// Makes room at the place: a block that is full is cut in halves. Answers where the place is then.
fn make_room<T: Drop, A: Allocator + Clone>(
    blocks: &mut Vec<Vec<T, A>, A>,
    place: Place,
) -> Result<Place, AllocError>
    requires block { place.block < length (lists_of blocks.old.items) }
    requires index { place.index ≤ length (slice_index_or (lists_of blocks.old.items) place.block []) }
    ensures elements { elements (lists_of blocks.new.items) ≡ elements (lists_of blocks.old.items) }
    ensures filled { AreFilled (lists_of blocks.old.items) → AreFilled (lists_of blocks.new.items) }
    ensures place { IfOk result (λ p. Stays (lists_of blocks.old.items) place (lists_of blocks.new.items) p) }
{
    let long = blocks[place.block].len();
    if long < MOST {
        return Ok(place);
    }
    let half = long / 2;
    cut(blocks, place.block, half)?;
    if place.index <= half {
        return Ok(place);
    }
    Ok(Place {
        block: place.block + 1,
        index: place.index - half,
    })
}

/// Puts the element at the place.
pub(crate) fn insert_at<T: Drop, A: Allocator + Clone>(
    blocks: &mut Vec<Vec<T, A>, A>,
    place: Place,
    element: T,
) -> Result<(), AllocFailed<T>>
    requires { IsPlace (lists_of blocks.old.items) place }
    ensures ok { OnOk result (elements (lists_of blocks.new.items) ≡ insert (elements (lists_of blocks.old.items)) (flat (lists_of blocks.old.items) place) element) }
    ensures err { OnErr result (elements (lists_of blocks.new.items) ≡ elements (lists_of blocks.old.items)) }
    ensures value_returned { IfErr result (λ refused. refused.value ≡ element) }
    ensures filled { AreFilled (lists_of blocks.old.items) → AreFilled (lists_of blocks.new.items) }
{
    if place.block == blocks.len() {
        return push_block(blocks, element);
    }
    let Ok(place) = make_room(blocks, place) else {
        return Err(AllocFailed { value: element });
    };
    blocks[place.block].insert(place.index, element)
}

/// Takes the element away that stands at the place. A block that is left empty goes. Takes no memory.
pub(crate) fn remove_at<T: Drop, A: Allocator>(blocks: &mut Vec<Vec<T, A>, A>, place: Place) -> T
    requires { IsBefore (lists_of blocks.old.items) place }
    ensures value { slice_get (elements (lists_of blocks.old.items)) (flat (lists_of blocks.old.items) place) ≡ Some result }
    ensures rest { elements (lists_of blocks.new.items) ≡ remove (elements (lists_of blocks.old.items)) (flat (lists_of blocks.old.items) place) }
    ensures filled { AreFilled (lists_of blocks.old.items) → AreFilled (lists_of blocks.new.items) }
{
    let element = blocks[place.block].remove(place.index);
    if blocks[place.block].is_empty() {
        let _ = blocks.remove(place.block);
    }
    element
}

/// Lets the elements of a block go that do not pass the test. Answers how many went. Takes no memory.
pub(crate) fn retain_in<T: Drop, A: Allocator, F: FnMut(&T) -> bool>(
    block: &mut Vec<T, A>,
    f: &mut F,
) -> usize
    requires { F.IsAlwaysCallable f.old }
    ensures callable { F.IsAlwaysCallable f.new }
    ensures kept { (p : T → Bool) → ComputesKey F.FnMut p f.old → ComputesKey F.FnMut p f.new × (block.new.items ≡ filter p block.old.items) }
    ensures went { result + length block.new.items ≡ length block.old.items }
{
    let mut went = 0;
    let mut at = 0;
    'elements: while at < block.len() {
        let stays = f(&block[at]);
        if stays {
            at += 1;
        } else {
            let _ = block.remove(at);
            went += 1;
        }
    }
    went
}

/// Lets the elements go that do not pass the test. Answers how many went. A block that is left empty goes. Takes no memory.
pub(crate) fn retain_each<T: Drop, A: Allocator, F: FnMut(&T) -> bool>(
    blocks: &mut Vec<Vec<T, A>, A>,
    mut f: F,
) -> usize
    requires callable { F.IsAlwaysCallable f }
    requires fits { length (elements (lists_of blocks.old.items)) ≤ u64.MAX }
    ensures kept { (p : T → Bool) → ComputesKey F.FnMut p f → elements (lists_of blocks.new.items) ≡ filter p (elements (lists_of blocks.old.items)) }
    ensures went { result + length (elements (lists_of blocks.new.items)) ≡ length (elements (lists_of blocks.old.items)) }
    ensures filled { AreFilled (lists_of blocks.old.items) → AreFilled (lists_of blocks.new.items) }
{
    let mut went = 0;
    let mut at = 0;
    'each: while at < blocks.len() {
        went += retain_in(&mut blocks[at], &mut f);
        if blocks[at].is_empty() {
            let _ = blocks.remove(at);
        } else {
            at += 1;
        }
    }
    went
}
