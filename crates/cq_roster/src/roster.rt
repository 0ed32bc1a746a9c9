//! The roster.

ghost use Rattle.std.specs.Prelude.{◌≡◌, ◌++◌, ◌∷◌, [], false, length, map, IfOk, OnOk, OnErr, None, slice_get};
ghost use Rattle.std.specs.Option.{option_copied};
ghost use Rattle.cq_roster.specs.Roster.{seat_of, place_named, is_taken_place, without, IsRoster};

use crate::kept::{Kept, forget, keep, place_of};
use crate::seat::Seat;
use cq_atom::Name;
use indexmap::IndexMap;
use std::alloc::{AllocError, Allocator, Global};
use std::collections::BTreeMap;
use std::collections::btree_map::Values;
use std::marker::Model;

/// Names in the order in which they came, each with its place. Contracts see the list of the seats.
#[derive(Drop)]
pub struct Roster<A: Allocator = Global> {
    kept: Kept<A>,
}

impl<A: Allocator> Model for Roster<A> {
    ghost use Rattle.std.specs.Prelude.{List};
    ghost use Rattle.std.specs.Map.{values_of};
    ghost use Rattle.cq_roster.specs.Roster.{SeatRecord};

    ghost Value = { List SeatRecord };

    ghost use Rattle.cq_roster.specs.Steps.Kept.{IsKept};

    ghost view = { λ r. values_of r.kept.order.entries };

    ghost invariant = { λ r. IsKept r.kept.order.entries r.kept.numbers.entries r.kept.next };
}

impl<A: Allocator + Copy> Roster<A> {
    /// A roster without seats. It grows with the allocator later on.
    pub fn begin(alloc: A) -> Roster<A>
        ensures { result ≡ [] }
    {
        Roster {
            kept: Kept {
                order: BTreeMap::new(alloc),
                numbers: IndexMap::new(alloc),
                next: 0,
            },
        }
    }

    /// How many seats there are.
    pub fn len(&self) -> usize
        ensures count { result ≡ length self.now }
        ensures valid { IsRoster self.now }
    {
        self.kept.order.len()
    }

    /// The place of the seat of that name, where there is one. Logarithmic expected time.
    pub fn place_of(&self, name: &Name<A>) -> Option<usize>
        ensures { result ≡ place_named name.now self.now }
    {
        place_of(&self.kept, name)
    }

    /// The seat at that index from the first that came, counted from 0. Time in proportion to the
    /// index.
    pub fn nth(&self, index: usize) -> Option<&Seat<Name<A>>>
        ensures { option_copied result ≡ slice_get self.now index }
    {
        self.kept.order.values().nth(index)
    }

    /// Returns the seats in the order in which they came, one after another. Does not allocate.
    pub fn iter(&self) -> Values<'_, u64, Seat<Name<A>>>
        ensures { result ≡ self.now }
    {
        self.kept.order.values()
    }

    /// All seats, in the order in which they came.
    ///
    /// # Errors
    /// `AllocError` where an allocation failed.
    pub fn in_order(&self) -> Result<Vec<&Seat<Name<A>>, A>, AllocError>
        ensures { IfOk result (λ seats. map (λ s. s.now) seats.items ≡ self.now) }
    {
        self.kept
            .order
            .values()
            .collect(*self.kept.numbers.allocator())
    }

    /// Puts a seat with a copy of the name after all others. The name and the place are new.
    /// Logarithmic expected time.
    ///
    /// # Errors
    /// `AllocError` where an allocation failed; then nothing has changed. The same once
    /// 2^64 - 1 seats have come, which takes longer than any run.
    pub fn add(&mut self, name: &Name<A>, place: usize) -> Result<(), AllocError>
        requires absent { place_named name.now self.old ≡ None }
        requires free { is_taken_place place self.old ≡ false }
        ensures ok { OnOk result (self.new ≡ self.old ++ seat_of name.now place ∷ []) }
        ensures err { OnErr result (self.new ≡ self.old) }
    {
        keep(&mut self.kept, name, place)
    }

    /// Takes the seat of that name away, where there is one, and answers the place that it had.
    /// Takes no memory, and logarithmic expected time.
    pub fn remove(&mut self, name: &Name<A>) -> Option<usize>
        ensures place { result ≡ place_named name.now self.old }
        ensures others { self.new ≡ without name.now self.old }
    {
        forget(&mut self.kept, name)
    }

    /// A roster with the same seats in the same order, on the same allocator.
    ///
    /// # Errors
    /// `AllocError` where an allocation failed.
    pub fn copy(&self) -> Result<Roster<A>, AllocError>
        ensures { IfOk result (λ copy. copy ≡ self.now) }
    {
        let order = self.kept.order.clone()?;
        let numbers = self.kept.numbers.clone()?;
        Ok(Roster {
            kept: Kept {
                order,
                numbers,
                next: self.kept.next,
            },
        })
    }
}
