//! A list in blocks.

ghost use Rattle.std.specs.Prelude.{◌≡◌, ◌≤◌, Bool, true, false, [], length, nat_eq, slice_get, slice_range, filter, not, ◌||◌, insert, remove, option_copied, MatchOption, MatchResult, IfOk, IfErr, OnOk, OnErr};
ghost use Rattle.std.specs.Fn.{ComputesKey};
ghost use Rattle.std.specs.Ordering.{is_lt, is_gt, is_eq};
ghost use Rattle.std.specs.List.Sorted.{IsPartitionedBy, IsPartitionPoint, IsSearchInRange, IsBinarySearchResult};
ghost use Rattle.cq_blocks.specs.Blocks.{elements, flat, flats, lists_of, AreFilled, IsPlace, IsBefore};

use crate::edits::{insert_at, remove_at, retain_each};
use crate::equal::{end_from, point_from};
use crate::fate::{Fate, fate_of};
use crate::index::{index_in, place_in};
use crate::iter::{Iter, from_on, up_to};
use crate::place::Place;
use std::alloc::{AllocError, AllocFailed, Allocator, Global};
use std::cmp::Ordering;
use std::marker::Model;

/// A list in blocks: an insertion or a removal moves the elements of one block. Each block has an element at least.
#[derive(Drop)]
pub struct Blocks<T, A: Allocator = Global> {
    blocks: Vec<Vec<T, A>, A>,
    count: usize,
}

impl<T, A: Allocator> Model for Blocks<T, A> {
    ghost use Rattle.std.specs.Prelude.{◌≡◌, List, length};
    ghost use Rattle.cq_blocks.specs.Blocks.{elements, lists_of, AreFilled};

    ghost Value = { List (List T) };

    ghost view = { λ s. lists_of s.blocks.items };

    ghost invariant = { λ s. AreFilled (lists_of s.blocks.items) × (s.count ≡ length (elements (lists_of s.blocks.items))) };
}

impl<T, A: Allocator> Blocks<T, A> {
    /// The empty list. Takes no memory.
    pub fn new(alloc: A) -> Blocks<T, A>
        ensures { result ≡ [] }
    {
        Blocks {
            blocks: Vec::new(alloc),
            count: 0,
        }
    }

    /// The elements of a `Vec` in their order, as one block.
    ///
    /// # Errors
    /// `AllocError` where an allocation failed. Where there are no elements, none is asked for.
    pub fn from_vec(vec: Vec<T, A>) -> Result<Blocks<T, A>, AllocError>
    where
        T: Drop,
        A: Clone,
        ensures { IfOk result (λ list. elements list ≡ vec.items) }
    {
        let count = vec.len();
        let alloc = vec.allocator().clone()?;
        if count == 0 {
            return Ok(Blocks::new(alloc));
        }
        let mut blocks = Vec::with_capacity(alloc, 1)?;
        blocks.push(vec)?;
        Ok(Blocks { blocks, count })
    }

    /// The allocator.
    pub fn allocator(&self) -> &A {
        self.blocks.allocator()
    }

    /// How many elements there are.
    pub fn len(&self) -> usize
        ensures { result ≡ length (elements self.now) }
    {
        self.count
    }

    /// Whether there are none.
    pub fn is_empty(&self) -> bool
        ensures { result ≡ nat_eq (length (elements self.now)) 0 }
    {
        self.len() == 0
    }

    /// The blocks in order.
    fn blocks(&self) -> &[Vec<T, A>]
        ensures blocks { lists_of result.now ≡ self.now }
        ensures filled { AreFilled (lists_of result.now) }
    {
        self.blocks.as_slice()
    }

    /// Goes over the elements in order.
    pub fn iter(&self) -> Iter<'_, T, A>
        ensures { result ≡ elements self.now }
    {
        Iter {
            front: &[],
            blocks: self.blocks(),
            back: &[],
        }
    }

    /// Goes over the elements from one place up to another.
    fn range(&self, from: Place, to: Place) -> Iter<'_, T, A>
        requires from { IsPlace self.now from }
        requires to { IsPlace self.now to }
        requires order { flat self.now from ≤ flat self.now to }
        ensures { result ≡ slice_range (elements self.now) (flat self.now from) (flat self.now to) }
    {
        let blocks = self.blocks();
        let back = up_to(blocks, to);
        if from.block < to.block {
            return Iter {
                front: from_on(blocks, from),
                blocks: &blocks[from.block + 1..to.block],
                back,
            };
        }
        if from.block == to.block {
            return Iter {
                front: &[],
                blocks: &[],
                back: &back[from.index..],
            };
        }
        Iter {
            front: &[],
            blocks: &[],
            back: &[],
        }
    }

    /// Where the element stands that stands at the place, if there is one: after the last element of a block is before the
    /// first of the next.
    fn settle(&self, place: Place) -> Option<Place>
        requires { IsPlace self.now place }
        ensures { MatchOption result (length (elements self.now) ≤ flat self.now place) (λ p. IsBefore self.now p × (flat self.now p ≡ flat self.now place)) }
    {
        let blocks = self.blocks();
        if place.block >= blocks.len() {
            return None;
        }
        if place.index < blocks[place.block].len() {
            return Some(place);
        }
        let next = place.block + 1;
        if next < blocks.len() {
            Some(Place {
                block: next,
                index: 0,
            })
        } else {
            None
        }
    }

    /// The element at the place, if there is one.
    fn get(&self, place: Place) -> Option<&T>
        requires { IsPlace self.now place }
        ensures { option_copied result ≡ slice_get (elements self.now) (flat self.now place) }
    {
        let place = self.settle(place)?;
        let blocks = self.blocks();
        Some(&blocks[place.block][place.index])
    }

    /// The place of an element that the test finds equal, or else where one would stand, where the answers of the test rise
    /// along the list. By halving over the blocks, by their first elements, and then within one of them.
    pub fn binary_search_by<F: FnMut(&T) -> Ordering>(&self, mut f: F) -> Result<Place, Place>
        requires { F.IsAlwaysCallable f }
        ensures place { MatchResult result (IsBefore self.now) (IsPlace self.now) }
        ensures bound { IsSearchInRange (flats self.now result) (length (elements self.now)) }
        ensures position { (ord : T → Ordering) → ComputesKey F.FnMut ord f → IsBinarySearchResult ord (elements self.now) (flats self.now result) }
    {
        let blocks = self.blocks();
        let mut low = 0;
        let mut high = blocks.len();
        if high == 0 {
            return Err(Place { block: 0, index: 0 });
        }
        'halving: while high - low > 1 {
            let middle = low + (high - low) / 2;
            let order = f(&blocks[middle][0]);
            if order.is_gt() {
                high = middle;
            } else {
                low = middle;
            }
        }
        match blocks[low].binary_search_by(f) {
            Ok(index) => Ok(Place { block: low, index }),
            Err(index) => Err(Place { block: low, index }),
        }
    }

    /// Goes over the elements that the test finds equal, where the answers of the test rise along the list.
    pub fn equal_range<F: FnMut(&T) -> Ordering>(&self, mut f: F) -> Iter<'_, T, A>
        requires { F.IsAlwaysCallable f }
        ensures { (ord : T → Ordering) → ComputesKey F.FnMut ord f → IsPartitionedBy (λ x. is_lt (ord x)) (elements self.now) → IsPartitionedBy (λ x. not (is_gt (ord x))) (elements self.now) → result ≡ filter (λ x. is_eq (ord x)) (elements self.now) }
    {
        let blocks = self.blocks();
        if blocks.is_empty() {
            return Iter::empty();
        }
        let from = point_from(blocks, 0, &mut f, false);
        let to = end_from(blocks, from, &mut f);
        self.range(from, to)
    }

    /// How many elements stand before the place. Its time is that of the blocks before it.
    pub fn index_of(&self, place: Place) -> usize
        requires { IsPlace self.now place }
        ensures { result ≡ flat self.now place }
    {
        let _most = self.len();
        index_in(self.blocks(), place)
    }

    /// The place that has so many elements before it. Its time is that of the blocks before it.
    pub fn place_at(&self, index: usize) -> Place
        requires { index ≤ length (elements self.now) }
        ensures place { IsPlace self.now result }
        ensures before { flat self.now result ≡ index }
    {
        place_in(self.blocks(), index)
    }

    /// How many elements the test finds less, where its answers rise along the list. By halving.
    fn count_less<F: FnMut(&T) -> Ordering>(&self, order: &mut F) -> usize
        requires { F.IsAlwaysCallable order.old }
        ensures callable { F.IsAlwaysCallable order.new }
        ensures bound { result ≤ length (elements self.now) }
        ensures partitioned { (ord : T → Ordering) → ComputesKey F.FnMut ord order.old → ComputesKey F.FnMut ord order.new × (IsPartitionedBy (λ x. is_lt (ord x)) (elements self.now) → IsPartitionPoint (λ x. is_lt (ord x) ≡ true) (λ x. is_lt (ord x) ≡ false) (elements self.now) result) }
    {
        let blocks = self.blocks();
        if blocks.is_empty() {
            return 0;
        }
        let place = point_from(blocks, 0, order, false);
        self.index_of(place)
    }

    /// Puts the element at the place, before what stands there. Gives it back where there is no memory.
    pub fn insert(&mut self, place: Place, element: T) -> Result<(), AllocFailed<T>>
    where
        T: Drop,
        A: Clone,
        requires { IsPlace self.old place }
        ensures ok { OnOk result (elements self.new ≡ insert (elements self.old) (flat self.old place) element) }
        ensures err { OnErr result (elements self.new ≡ elements self.old) }
        ensures value_returned { IfErr result (λ refused. refused.value ≡ element) }
    {
        // No memory holds more.
        if self.count == usize::MAX {
            return Err(AllocFailed { value: element });
        }
        insert_at(&mut self.blocks, place, element)?;
        self.count += 1;
        Ok(())
    }

    /// Takes the element away that stands at the place, if there is one. Takes no memory.
    pub fn remove(&mut self, place: Place) -> Option<T>
    where
        T: Drop,
        requires { IsPlace self.old place }
        ensures value { result ≡ slice_get (elements self.old) (flat self.old place) }
        ensures rest { elements self.new ≡ remove (elements self.old) (flat self.old place) }
    {
        let place = self.settle(place)?;
        let element = remove_at(&mut self.blocks, place);
        self.count -= 1;
        Some(element)
    }

    /// Lets the elements go that do not pass the test. Takes no memory.
    pub fn retain<F: FnMut(&T) -> bool>(&mut self, f: F)
    where
        T: Drop,
        requires { F.IsAlwaysCallable f }
        ensures { (p : T → Bool) → ComputesKey F.FnMut p f → elements self.new ≡ filter p (elements self.old) }
    {
        let went = retain_each(&mut self.blocks, f);
        self.count -= went;
    }
}

impl<T: Drop, A: Allocator> Blocks<T, A> {
    /// Lets those of the elements that one test finds equal go that do not pass the other, where the answers of the one rise
    /// along the list. By halving, and then from the first of them on. Takes no memory.
    pub fn retain_equal<F: FnMut(&T) -> Ordering, P: FnMut(&T) -> bool>(
        &mut self,
        mut order: F,
        mut pred: P,
    )
        requires order { F.IsAlwaysCallable order }
        requires pred { P.IsAlwaysCallable pred }
        ensures { (ord : T → Ordering) (p : T → Bool) → ComputesKey F.FnMut ord order → ComputesKey P.FnMut p pred → IsPartitionedBy (λ x. is_lt (ord x)) (elements self.old) → IsPartitionedBy (λ x. not (is_gt (ord x))) (elements self.old) → elements self.new ≡ filter (λ x. not (is_eq (ord x)) || p x) (elements self.old) }
    {
        let mut index = self.count_less(&mut order);
        'equal: while index < self.len() {
            let place = self.place_at(index);
            let Some(element) = self.get(place) else {
                unreachable!()
            };
            match fate_of(element, &mut order, &mut pred) {
                Fate::Stays => index += 1,
                Fate::Goes => {
                    let _ = self.remove(place);
                }
                Fate::Ends => return,
            }
        }
    }
}

impl<T: Clone, A: Allocator + Clone> Clone for Blocks<T, A> {
    ghost use Rattle.std.specs.List.{AllZip};
    ghost use Rattle.cq_blocks.specs.Blocks.{elements};

    ghost is_clone = { λ a b. AllZip T.is_clone (elements a) (elements b) };

    fn clone(&self) -> Result<Blocks<T, A>, AllocError> {
        Ok(Blocks {
            blocks: self.blocks.clone()?,
            count: self.count,
        })
    }
}
