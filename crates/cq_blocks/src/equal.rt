//! Where the elements begin and end that a test finds equal.

ghost use Rattle.std.specs.Prelude.{◌≡◌, ◌+◌, ◌<◌, ◌≤◌, length, true, slice_index_or, []};
ghost use Rattle.std.specs.Fn.{ComputesKey};
ghost use Rattle.std.specs.List.{AllWithin};
ghost use Rattle.std.specs.List.Sorted.{IsPartitionedBy};
ghost use Rattle.cq_blocks.specs.Blocks.{elements, flat, lists_of, begin_of, is_passed, AreFilled, IsPlace, IsBefore, IsBetween};

use crate::place::Place;
use std::alloc::Allocator;
use std::cmp::Ordering;

/// How many elements further on to look first for the end of equal elements.
const NEAR: usize = 8;

/// Whether an element that compares so comes before the place that is sought: it is less, or equal where those count too.
fn passes(order: Ordering, upto: bool) -> bool
    ensures { result ≡ is_passed upto order }
{
    if upto { !order.is_gt() } else { order.is_lt() }
}

/// The first index between two others of a block whose element does not pass. By halving.
fn point_in<T, F: FnMut(&T) -> Ordering>(
    block: &[T],
    from: usize,
    to: usize,
    f: &mut F,
    upto: bool,
) -> usize
    requires callable { F.IsAlwaysCallable f.old }
    requires order { from ≤ to }
    requires within { to ≤ length block.now }
    ensures callable { F.IsAlwaysCallable f.new }
    ensures computes { (ord : T → Ordering) → ComputesKey F.FnMut ord f.old → ComputesKey F.FnMut ord f.new }
    ensures low { from ≤ result }
    ensures high { result ≤ to }
    ensures between { (ord : T → Ordering) → ComputesKey F.FnMut ord f.old → IsPartitionedBy (λ x. is_passed upto (ord x)) block.now → IsBetween (λ x. is_passed upto (ord x)) block.now from to → IsBetween (λ x. is_passed upto (ord x)) block.now result result }
{
    let mut low = from;
    let mut high = to;
    'halving: while low < high {
        let middle = low + (high - low) / 2;
        let order = f(&block[middle]);
        if passes(order, upto) {
            low = middle + 1;
        } else {
            high = middle;
        }
    }
    low
}

/// The last block, from one on, that begins with an element that passes, or else that one. By halving.
fn block_from<T, A: Allocator, F: FnMut(&T) -> Ordering>(
    blocks: &[Vec<T, A>],
    from: usize,
    f: &mut F,
    upto: bool,
) -> usize
    requires callable { F.IsAlwaysCallable f.old }
    requires filled { AreFilled (lists_of blocks.now) }
    requires within { from < length (lists_of blocks.now) }
    ensures callable { F.IsAlwaysCallable f.new }
    ensures computes { (ord : T → Ordering) → ComputesKey F.FnMut ord f.old → ComputesKey F.FnMut ord f.new }
    ensures low { from ≤ result }
    ensures within { result < length (lists_of blocks.now) }
    ensures between { (ord : T → Ordering) → ComputesKey F.FnMut ord f.old → IsPartitionedBy (λ x. is_passed upto (ord x)) (elements (lists_of blocks.now)) → AllWithin (λ x. is_passed upto (ord x) ≡ true) (elements (lists_of blocks.now)) 0 (begin_of (lists_of blocks.now) from) → IsBetween (λ x. is_passed upto (ord x)) (elements (lists_of blocks.now)) (begin_of (lists_of blocks.now) result) (begin_of (lists_of blocks.now) (result + 1)) }
{
    let mut low = from;
    let mut high = blocks.len();
    'halving: while high - low > 1 {
        let middle = low + (high - low) / 2;
        let order = f(&blocks[middle][0]);
        if passes(order, upto) {
            low = middle;
        } else {
            high = middle;
        }
    }
    low
}

/// The first place from a block on whose element does not pass.
pub(crate) fn point_from<T, A: Allocator, F: FnMut(&T) -> Ordering>(
    blocks: &[Vec<T, A>],
    from: usize,
    f: &mut F,
    upto: bool,
) -> Place
    requires callable { F.IsAlwaysCallable f.old }
    requires filled { AreFilled (lists_of blocks.now) }
    requires within { from < length (lists_of blocks.now) }
    ensures callable { F.IsAlwaysCallable f.new }
    ensures computes { (ord : T → Ordering) → ComputesKey F.FnMut ord f.old → ComputesKey F.FnMut ord f.new }
    ensures low { from ≤ result.block }
    ensures block { result.block < length (lists_of blocks.now) }
    ensures index { result.index ≤ length (slice_index_or (lists_of blocks.now) result.block []) }
    ensures between { (ord : T → Ordering) → ComputesKey F.FnMut ord f.old → IsPartitionedBy (λ x. is_passed upto (ord x)) (elements (lists_of blocks.now)) → AllWithin (λ x. is_passed upto (ord x) ≡ true) (elements (lists_of blocks.now)) 0 (begin_of (lists_of blocks.now) from) → IsBetween (λ x. is_passed upto (ord x)) (elements (lists_of blocks.now)) (flat (lists_of blocks.now) result) (flat (lists_of blocks.now) result) }
{
    let block = block_from(blocks, from, f, upto);
    let inside = blocks[block].as_slice();
    let index = point_in(inside, 0, inside.len(), f, upto);
    Place { block, index }
}

/// The first index from one on of a block whose element is greater. Most often it is near.
fn end_in<T, F: FnMut(&T) -> Ordering>(block: &[T], from: usize, f: &mut F) -> usize
    requires callable { F.IsAlwaysCallable f.old }
    requires within { from ≤ length block.now }
    ensures callable { F.IsAlwaysCallable f.new }
    ensures computes { (ord : T → Ordering) → ComputesKey F.FnMut ord f.old → ComputesKey F.FnMut ord f.new }
    ensures low { from ≤ result }
    ensures high { result ≤ length block.now }
    ensures between { (ord : T → Ordering) → ComputesKey F.FnMut ord f.old → IsPartitionedBy (λ x. is_passed true (ord x)) block.now → AllWithin (λ x. is_passed true (ord x) ≡ true) block.now 0 from → IsBetween (λ x. is_passed true (ord x)) block.now result result }
{
    if block.len() - from <= NEAR {
        return point_in(block, from, block.len(), f, true);
    }
    let near = from + NEAR;
    let order = f(&block[near]);
    if order.is_gt() {
        point_in(block, from, near, f, true)
    } else {
        point_in(block, near + 1, block.len(), f, true)
    }
}

/// The first place from one on whose element is greater, where there is none before.
pub(crate) fn end_from<T, A: Allocator, F: FnMut(&T) -> Ordering>(
    blocks: &[Vec<T, A>],
    from: Place,
    f: &mut F,
) -> Place
    requires callable { F.IsAlwaysCallable f.old }
    requires filled { AreFilled (lists_of blocks.now) }
    requires block { from.block < length (lists_of blocks.now) }
    requires index { from.index ≤ length (slice_index_or (lists_of blocks.now) from.block []) }
    ensures place { IsPlace (lists_of blocks.now) result }
    ensures order { flat (lists_of blocks.now) from ≤ flat (lists_of blocks.now) result }
    ensures between { (ord : T → Ordering) → ComputesKey F.FnMut ord f.old → IsPartitionedBy (λ x. is_passed true (ord x)) (elements (lists_of blocks.now)) → AllWithin (λ x. is_passed true (ord x) ≡ true) (elements (lists_of blocks.now)) 0 (flat (lists_of blocks.now) from) → IsBetween (λ x. is_passed true (ord x)) (elements (lists_of blocks.now)) (flat (lists_of blocks.now) result) (flat (lists_of blocks.now) result) }
{
    let inside = blocks[from.block].as_slice();
    let index = end_in(inside, from.index, f);
    let next = from.block + 1;
    if index == inside.len() && next < blocks.len() {
        return point_from(blocks, next, f, true);
    }
    Place {
        block: from.block,
        index,
    }
}
