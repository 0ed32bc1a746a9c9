//! How many edges are counted for each postcondition of a node.

ghost use Rattle.std.specs.Prelude.{◌≡◌, ◌+◌, ◌-◌, ◌==◌, ◌<◌, ◌≤◌, [], length, replicate, IfOk, slice_index, slice_set};
ghost use Rattle.std.specs.List.{list_any};

use std::alloc::{AllocError, Allocator};
use std::marker::Model;

/// Numbers in order. None or one takes no memory.
#[derive(Drop)]
enum Numbers<A: Allocator> {
    Empty,
    One(usize),
    Many(Vec<usize, A>),
}

/// For each postcondition of a node, how many edges to it are counted.
#[derive(Drop)]
pub(crate) struct Counts<A: Allocator> {
    numbers: Numbers<A>,
}

impl<A: Allocator> Model for Counts<A> {
    ghost use Rattle.std.specs.Prelude.{List, ℕ};
    ghost use Rattle.cq_match.specs.Steps.Counts.{numbers_in};

    ghost Value = { List ℕ };

    ghost view = { λ counts. numbers_in counts.numbers };
}

impl<A: Allocator> Counts<A> {
    /// No postconditions.
    pub(crate) fn none() -> Counts<A>
        ensures { result ≡ [] }
    {
        Counts {
            numbers: Numbers::Empty,
        }
    }

    /// Nothing counted of so many postconditions.
    pub(crate) fn zeros(alloc: A, posts: u8) -> Result<Counts<A>, AllocError>
        ensures { IfOk result (λ counts. counts ≡ replicate posts 0) }
    {
        let numbers = match posts {
            0 => Numbers::Empty,
            1 => Numbers::One(0),
            _ => Numbers::Many(vec![in alloc; 0usize; usize::from(posts)]?),
        };
        Ok(Counts { numbers })
    }

    /// How many edges to the postcondition are counted, 0 where there is no such postcondition.
    pub(crate) fn at(&self, post: usize) -> usize
        ensures { result ≡ slice_index self.now post }
    {
        match &self.numbers {
            Numbers::One(count) if post == 0 => *count,
            Numbers::Many(counts) if post < counts.len() => counts[post],
            _ => 0,
        }
    }

    /// Counts one edge less, and tells whether none is left.
    pub(crate) fn lower(&mut self, post: usize) -> bool
        requires within { post < length self.old }
        requires counted { 1 ≤ slice_index self.old post }
        ensures lowered { self.new ≡ slice_set self.old post (slice_index self.old post - 1) }
        ensures none { result ≡ (slice_index self.old post - 1 == 0) }
    {
        match &mut self.numbers {
            Numbers::Empty => unreachable!(),
            Numbers::One(count) => *count -= 1,
            Numbers::Many(counts) => counts[post] -= 1,
        }
        self.at(post) == 0
    }

    /// Counts one edge more.
    pub(crate) fn raise(&mut self, post: usize)
        requires within { post < length self.old }
        requires fits { slice_index self.old post < usize.MAX }
        ensures { self.new ≡ slice_set self.old post (slice_index self.old post + 1) }
    {
        match &mut self.numbers {
            Numbers::Empty => unreachable!(),
            Numbers::One(count) => *count += 1,
            Numbers::Many(counts) => counts[post] += 1,
        }
    }

    /// Lets all postconditions go.
    pub(crate) fn clear(&mut self)
        ensures { self.new ≡ [] }
    {
        self.numbers = Numbers::Empty;
    }

    /// Whether some postcondition has no counted edge.
    pub(crate) fn has_none(&self) -> bool
        ensures { result ≡ list_any (λ count. count == 0) self.now }
    {
        match &self.numbers {
            Numbers::Empty => false,
            Numbers::One(count) => *count == 0,
            Numbers::Many(counts) => counts.iter().any(|count| *count == 0),
        }
    }
}

impl<A: Allocator + Clone> Clone for Counts<A> {
    ghost use Rattle.std.specs.Prelude.{◌≡◌};

    ghost is_clone = { λ a b. b ≡ a };

    fn clone(&self) -> Result<Counts<A>, AllocError> {
        let numbers = match &self.numbers {
            Numbers::Empty => Numbers::Empty,
            Numbers::One(count) => Numbers::One(*count),
            Numbers::Many(counts) => Numbers::Many(counts.clone()?),
        };
        Ok(Counts { numbers })
    }
}
