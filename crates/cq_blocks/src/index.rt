//! How many elements stand before a place of the blocks.

ghost use Rattle.std.specs.Prelude.{◌≡◌, ◌≤◌, length};
ghost use Rattle.cq_blocks.specs.Blocks.{elements, flat, lists_of, IsPlace};

use crate::place::Place;
use std::alloc::Allocator;

/// How many elements stand before the place.
pub(crate) fn index_in<T, A: Allocator>(blocks: &[Vec<T, A>], place: Place) -> usize
    requires place { IsPlace (lists_of blocks.now) place }
    requires fits { length (elements (lists_of blocks.now)) ≤ u64.MAX }
    ensures { result ≡ flat (lists_of blocks.now) place }
{
    let mut before = 0;
    'each: for block in &blocks[..place.block] {
        before += block.len();
    }
    before + place.index
}

/// The place that has so many elements before it: before an element, unless it is after all.
pub(crate) fn place_in<T, A: Allocator>(blocks: &[Vec<T, A>], mut index: usize) -> Place
    requires { index ≤ length (elements (lists_of blocks.now)) }
    ensures place { IsPlace (lists_of blocks.now) result }
    ensures before { flat (lists_of blocks.now) result ≡ index }
{
    'each: for (at, block) in blocks.iter().enumerate() {
        let count = block.len();
        if index < count {
            return Place { block: at, index };
        }
        index -= count;
    }
    Place {
        block: blocks.len(),
        index: 0,
    }
}
