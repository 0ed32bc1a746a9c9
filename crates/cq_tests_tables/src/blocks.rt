//! Lists in blocks: numbers that are put in and taken out, and each allocation of an insertion refused in turn.

use cq_blocks::Blocks;
use cq_refusing::{Outcome, Tried, refusals};
use std::alloc::{AllocError, Allocator, Global};

/// So many numbers stand in several blocks.
const MANY: usize = 1_500;

/// So many fill one.
const FULL: usize = 128;

/// So many fill more than two.
const SEVERAL: usize = 300;

/// Puts the number at its place.
fn put<A: Allocator + Copy>(list: &mut Blocks<usize, A>, number: usize) -> Result<(), AllocError> {
    match list.binary_search_by(|other| other.cmp(&number)) {
        Ok(_) => Ok(()),
        Err(place) => {
            list.insert(place, number)?;
            Ok(())
        }
    }
}

/// The numbers below `MANY`, put in one by one in an order that goes to and fro.
fn many(alloc: Global) -> Result<Blocks<usize>, AllocError> {
    let mut list = Blocks::new(alloc);
    for i in 0..MANY {
        put(&mut list, (i * 7) % MANY)?;
    }
    Ok(list)
}

/// Whether these are the numbers below this one.
fn are_below<A: Allocator>(list: &Blocks<usize, A>, end: usize) -> bool {
    list.len() == end && list.is_empty() == (end == 0) && list.iter().copied().eq(0..end)
}

/// How many numbers stand before the one that equals this one.
fn index_of(list: &Blocks<usize>, number: usize) -> Option<usize> {
    match list.binary_search_by(|other| other.cmp(&number)) {
        Ok(place) => Some(list.index_of(place)),
        Err(_) => None,
    }
}

#[test]
fn numbers_in_blocks(rt: HostRuntime) -> Result<(), AllocError> {
    let mut list = many(rt.alloc())?;
    assert!(rt; are_below(&list, MANY));
    let copy = list.clone()?;
    list.retain(|number| number % 3 != 0);
    assert!(rt; list.len() == 1_000);
    assert!(rt;
        list.equal_range(|number| (number / 10).cmp(&4))
            .copied()
            .eq([40, 41, 43, 44, 46, 47, 49])
    );
    assert!(rt; index_of(&list, 46) == Some(30));
    let place = list.place_at(999);
    assert!(rt; list.remove(place) == Some(1_499));
    assert!(rt; list.len() == 999);
    assert!(rt; are_below(&copy, MANY));
    Ok(())
}

/// The numbers below this one.
fn numbers_below<A: Allocator + Copy>(alloc: A, end: usize) -> Result<Vec<usize, A>, AllocError> {
    let mut numbers = Vec::new(alloc);
    for i in 0..end {
        numbers.push(i)?;
    }
    Ok(numbers)
}

/// A number that is put into a list of one full block.
struct Inserting;

/// The numbers below `FULL`.
fn full<A: Allocator + Copy>(alloc: A) -> Result<Blocks<usize, A>, AllocError> {
    let mut list = Blocks::new(alloc);
    for i in 0..FULL {
        put(&mut list, i)?;
    }
    Ok(list)
}

fn is_put<A: Allocator + Copy>(list: &mut Blocks<usize, A>) -> bool {
    put(list, FULL).is_ok() && are_below(list, FULL + 1)
}

impl Tried for Inserting {
    fn tried<A: Allocator + Copy>(alloc: A) -> Outcome {
        let Ok(mut list) = full(alloc) else {
            return Outcome::Unready;
        };
        let place = list.place_at(FULL.min(list.len()));
        match list.insert(place, FULL) {
            Ok(()) => Outcome::done_if(are_below(&list, FULL + 1)),
            Err(refused) => Outcome::refused_if(
                refused.value == FULL && are_below(&list, FULL) && is_put(&mut list),
            ),
        }
    }
}

/// A list of numbers that fill more than two blocks.
struct OfVec;

fn is_of_vec<A: Allocator + Copy>(alloc: A) -> bool {
    match numbers_below(alloc, SEVERAL) {
        Ok(numbers) => match Blocks::from_vec(numbers) {
            Ok(list) => are_below(&list, SEVERAL),
            Err(_) => false,
        },
        Err(_) => false,
    }
}

impl Tried for OfVec {
    fn tried<A: Allocator + Copy>(alloc: A) -> Outcome {
        let Ok(numbers) = numbers_below(alloc, SEVERAL) else {
            return Outcome::Unready;
        };
        match Blocks::from_vec(numbers) {
            Ok(list) => Outcome::done_if(are_below(&list, SEVERAL)),
            Err(_) => Outcome::refused_if(is_of_vec(alloc)),
        }
    }
}

#[test]
fn failed_allocation_in_a_list_of_a_vec(rt: HostRuntime) {
    assert!(rt; matches!(refusals::<OfVec>(rt.alloc()), Ok(1..)));
}

#[test]
fn failed_allocation_in_blocks(rt: HostRuntime) {
    assert!(rt; matches!(refusals::<Inserting>(rt.alloc()), Ok(1..)));
}
