//! Going over the elements of a list in blocks.

ghost use Rattle.std.specs.Prelude.{◌≡◌, ◌≤◌, [], length, take, drop, slice_index_or};
ghost use Rattle.std.specs.Iterator.{YieldsFirstRef, item_count};
ghost use Rattle.cq_blocks.specs.Blocks.{lists_of, IsPlace};

use crate::place::Place;
use std::alloc::{Allocator, Global};
use std::marker::Model;

/// Elements of a list in blocks in order, seen as the list of those that are left.
#[derive(Drop)]
pub struct Iter<'a, T, A: Allocator = Global> {
    pub(crate) front: &'a [T],
    pub(crate) blocks: &'a [Vec<T, A>],
    pub(crate) back: &'a [T],
}

impl<'a, T, A: Allocator> Model for Iter<'a, T, A> {
    ghost use Rattle.std.specs.Prelude.{List, ◌++◌};

    ghost Value = { List T };

    ghost use Rattle.cq_blocks.specs.Blocks.{elements, lists_of, AreFilled};

    ghost view = { λ it. it.front.now ++ (elements (lists_of it.blocks.now) ++ it.back.now) };

    ghost invariant = { λ it. AreFilled (lists_of it.blocks.now) };
}

impl<'a, T, A: Allocator> Iter<'a, T, A> {
    /// Of no elements.
    pub fn empty() -> Iter<'a, T, A>
        ensures { result ≡ [] }
    {
        Iter {
            front: &[],
            blocks: &[],
            back: &[],
        }
    }
}

impl<'a, T, A: Allocator> Iterator for Iter<'a, T, A> {
    type Item = &'a T;

    ghost next_gives = { YieldsFirstRef (λ rest. rest) };

    ghost remaining = { item_count (λ rest. rest) };

    fn next(&mut self) -> Option<&'a T> {
        if let Some((element, rest)) = self.front.split_first() {
            self.front = rest;
            return Some(element);
        }
        if let Some((block, rest)) = self.blocks.split_first() {
            self.blocks = rest;
            self.front = &block[1..];
            return Some(&block[0]);
        }
        let (element, rest) = self.back.split_first()?;
        self.back = rest;
        Some(element)
    }
}

/// What stands in the place's block before the place.
pub(crate) fn up_to<T, A: Allocator>(blocks: &[Vec<T, A>], place: Place) -> &[T]
    requires { IsPlace (lists_of blocks.now) place }
    ensures { result.now ≡ take place.index (slice_index_or (lists_of blocks.now) place.block []) }
{
    if place.block >= blocks.len() {
        return &[];
    }
    &blocks[place.block][..place.index]
}

/// What stands in the place's block from the place on.
pub(crate) fn from_on<T, A: Allocator>(blocks: &[Vec<T, A>], place: Place) -> &[T]
    requires { IsPlace (lists_of blocks.now) place }
    ensures { result.now ≡ drop place.index (slice_index_or (lists_of blocks.now) place.block []) }
{
    if place.block >= blocks.len() {
        return &[];
    }
    &blocks[place.block][place.index..]
}
