//! Calls of a roster as the tables have them.

ghost use Rattle.std.specs.Prelude.{◌≡◌, nat_eq, IfOk};
ghost use Rattle.std.specs.List.{list_any};
ghost use Rattle.cq_roster.specs.Roster.{is_taken_place};

use crate::stores::{Copied, Store, go_on_with_copy};
use crate::texts::name_of;
use cq_atom::Name;
use cq_roster::{Roster, Seat};
use cq_text::Command;
use std::alloc::{AllocError, Allocator};

/// A call of a roster. A name is the one that a text withdraws.
pub enum Call {
    /// The name is added with the place, where neither is there.
    Add(&'static str, usize),
    /// The name has this place, or none.
    At(&'static str, Option<usize>),
    /// The name goes, which has this place.
    Leave(&'static str, usize),
    /// These are the seats, in this order, by number and as they are listed, and the name of each is found.
    Stands(&'static [Seat<&'static str>]),
    /// A copy takes the roster's place.
    Copy,
}

/// Whether one of the seats has the place.
fn is_among<A: Allocator>(seats: &[&Seat<Name<A>>], place: usize) -> bool
    ensures { result ≡ list_any (λ seat. nat_eq place seat.now.place) seats.now }
{
    seats.iter().any(|seat| place == seat.place)
}

/// Whether a seat has the place.
fn has_place<A: Allocator + Copy>(roster: &Roster<A>, place: usize) -> Result<bool, AllocError>
    ensures { IfOk result (λ has. has ≡ is_taken_place place roster.now) }
{
    let seats = roster.in_order()?;
    Ok(is_among(&seats, place))
}

/// Adds the name with the place where neither is there, and answers whether that was so.
fn put<A: Allocator + Copy>(
    roster: &mut Roster<A>,
    name: &Name<A>,
    place: usize,
) -> Result<bool, AllocError> {
    if roster.place_of(name).is_some() || has_place(roster, place)? {
        return Ok(false);
    }
    roster.add(name, place)?;
    Ok(true)
}

/// Takes the name away, and answers whether it had the place, and then none.
fn leaves<A: Allocator + Copy>(roster: &mut Roster<A>, name: &Name<A>, place: usize) -> bool {
    roster.remove(name) == Some(place)
        && roster.remove(name).is_none()
        && roster.place_of(name).is_none()
}

/// Whether it is this name with this place.
fn is_seat<A: Allocator>(found: &Seat<Name<A>>, seat: &Seat<&str>) -> bool {
    found.name.as_str() == seat.name && found.place == seat.place
}

/// Whether the seat is the one at that index, and its name is found.
fn stands_at<A: Allocator + Copy>(roster: &Roster<A>, index: usize, seat: &Seat<&str>) -> bool {
    match roster.nth(index) {
        Some(found) => is_seat(found, seat) && roster.place_of(&found.name) == Some(seat.place),
        None => false,
    }
}

/// Whether these are the seats, in this order, where those are listed.
fn stand_as<A: Allocator + Copy>(
    roster: &Roster<A>,
    listed: &[&Seat<Name<A>>],
    seats: &[Seat<&str>],
) -> bool {
    if listed.len() != seats.len() || roster.len() != seats.len() {
        return false;
    }
    for index in 0..seats.len() {
        if !is_seat(listed[index], &seats[index]) || !stands_at(roster, index, &seats[index]) {
            return false;
        }
    }
    roster.nth(seats.len()).is_none()
}

fn stands_as<A: Allocator + Copy>(
    roster: &Roster<A>,
    seats: &[Seat<&str>],
) -> Result<bool, AllocError> {
    let listed = roster.in_order()?;
    Ok(stand_as(roster, &listed, seats))
}

impl<A: Allocator + Copy> Copied for Roster<A> {
    fn copied(&self) -> Result<Roster<A>, AllocError> {
        self.copy()
    }
}

impl<A: Allocator + Copy> Store<A> for Roster<A> {
    type Call = Call;

    fn begin(alloc: A) -> Result<Roster<A>, AllocError> {
        Ok(Roster::begin(alloc))
    }

    fn text(call: &Call) -> &'static str {
        match call {
            Call::Add(text, _) | Call::At(text, _) | Call::Leave(text, _) => *text,
            _ => "",
        }
    }

    fn make(&mut self, _alloc: A, call: &Call, given: &Command<A>) -> Result<bool, AllocError> {
        match (call, name_of(given)) {
            (Call::Add(_, place), Some(name)) => put(self, name, *place),
            (Call::At(_, place), Some(name)) => Ok(self.place_of(name) == *place),
            (Call::Leave(_, place), Some(name)) => Ok(leaves(self, name, *place)),
            (Call::Stands(seats), _) => stands_as(self, seats),
            (Call::Copy, _) => go_on_with_copy(self),
            _ => Ok(false),
        }
    }
}
