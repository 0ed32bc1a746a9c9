//! What a script leaves.

ghost use Rattle.std.specs.Prelude.{◌≡◌};
ghost use Rattle.cq_desk.specs.Machine.{published_count};
ghost use Rattle.cq_report.specs.Machine.{shown};
ghost use Rattle.cq_report.specs.Summary.{unpublished};

use crate::floors::BoardFloor;
use crate::tally::Tally;
use cq_board::Board;
use cq_text::Form;
use std::alloc::Allocator;
use std::marker::Model;

/// A script that was served to its end. Contracts see what its lines leave.
#[derive(Drop)]
pub struct Played<A: Allocator + Copy> {
    floor: BoardFloor<A>,
    form: Form,
    lines: u128,
    tally: Tally,
}

impl<A: Allocator + Copy> Model for Played<A> {
    ghost use Rattle.cq_report.specs.Output.{Left};

    ghost Value = { Left };

    ghost view = { λ p. record { floor = p.floor; form = p.form; lines = p.lines; tally = p.tally } };
}

impl<A: Allocator + Copy> Played<A> {
    /// Returns this floor after that many lines of a script in this form, of which these were refused.
    pub(crate) fn new(floor: BoardFloor<A>, form: Form, lines: u128, tally: Tally) -> Played<A>
        ensures { result ≡ record { floor = floor; form = form; lines = lines; tally = tally } }
    {
        Played {
            floor,
            form,
            lines,
            tally,
        }
    }

    /// The board that is published after the script: what was entered after the last publish is not on it.
    pub fn board(&self) -> &Board<A>
        ensures { result.now ≡ shown self.now.floor }
    {
        self.floor.board()
    }

    /// Returns the form of the script.
    pub fn form(&self) -> Form
        ensures { result ≡ self.now.form }
    {
        self.form
    }

    /// Returns how many entries the journal may contain.
    pub fn journal_limit(&self) -> usize
        ensures { result ≡ self.now.floor.limit }
    {
        self.floor.limit()
    }

    /// How many entries of the journal that board is of.
    pub fn entries(&self) -> u64
        ensures { result ≡ published_count self.now.floor }
    {
        self.floor.published_count()
    }

    /// How many edits were entered and are not published.
    pub fn unpublished(&self) -> u64
        ensures { result ≡ unpublished self.now.floor }
    {
        self.floor.unpublished_count() as u64
    }

    /// How many lines there were.
    pub fn lines(&self) -> u128
        ensures { result ≡ self.now.lines }
    {
        self.lines
    }

    /// Which lines were refused.
    pub fn tally(&self) -> &Tally
        ensures { result.now ≡ self.now.tally }
    {
        &self.tally
    }
}
