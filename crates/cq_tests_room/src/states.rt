//! States that take edits, as these tests drive them.

use crate::lines::{Line, board, edit, is_grounded, stands_at};
use crate::tally::{Full, Tally};
use cq_atom::{Edit, EditKind};
use cq_board::{Board, Why};
use cq_desk::{Answer, Live, Reply};
use std::alloc::Allocator;

/// What a state is to show.
#[derive(Clone, Copy)]
pub enum Sight {
    /// A board with so many queries.
    Queries(usize),
    /// A board with so many rows of `T`.
    Rows(usize),
    /// A board whose query has the flight as its one grounding, or none.
    Grounded(bool),
    /// A tally of these bytes after the first one.
    Bytes(&'static [u8]),
    /// What so many of the numbered edits leave.
    LeftBy(u64),
}

/// A state that tests drive. Four edits of it have numbers: the first three are entered one after another, and then the
/// fourth one is refused.
pub trait Shared<A: Allocator + Copy>: Live {
    /// What is asked for, as a test has it.
    type Asked;

    /// The state before the first edit; a board is one for so many queries.
    fn begun(alloc: A, pool: usize) -> Option<Self>;

    /// The edit that is asked for.
    fn edit(alloc: A, asked: &Self::Asked) -> Option<Self::Edit>;

    /// The edit of that number.
    fn numbered(alloc: A, number: u64) -> Option<Self::Edit>;

    /// Whether the edit is the one of that number.
    fn has_number(edit: &Self::Edit, number: u64) -> bool;

    /// Whether it refuses the fourth edit so.
    fn is_refusal(why: &Self::Why) -> bool;

    /// Whether these are the replies.
    fn are_replies(replies: &[Reply<Self::Why>], wanted: &[Reply<Self::Why>]) -> bool;

    /// Whether this is the answer.
    fn is_answer(answer: &Answer<Self::Why>, wanted: &Answer<Self::Why>) -> bool;

    /// Whether the state shows this.
    fn shows(&self, sight: Sight) -> bool;
}

/// The edits that are asked for.
pub fn edits<L: Shared<A>, A: Allocator + Copy>(
    alloc: A,
    asked: &[L::Asked],
) -> Option<Vec<L::Edit, A>> {
    let mut edits = Vec::new(alloc);
    for asked in asked {
        edits.push(L::edit(alloc, asked)?).ok()?;
    }
    Some(edits)
}

/// The edits of the numbers from the first on, before the last.
pub fn numbered_edits<L: Shared<A>, A: Allocator + Copy>(
    alloc: A,
    first: u64,
    last: u64,
) -> Option<Vec<L::Edit, A>> {
    let mut edits = Vec::new(alloc);
    for number in first..last {
        edits.push(L::numbered(alloc, number)?).ok()?;
    }
    Some(edits)
}

impl<A: Allocator + Copy> Shared<A> for Tally<A> {
    type Asked = u8;

    fn begun(alloc: A, _pool: usize) -> Option<Tally<A>> {
        let mut tally = Tally::empty(alloc);
        match tally.admit(&7) {
            // A copy has no room to spare.
            Ok(None) => tally.copy().ok(),
            _ => None,
        }
    }

    fn edit(_alloc: A, asked: &u8) -> Option<u8> {
        Some(*asked)
    }

    fn numbered(_alloc: A, number: u64) -> Option<u8> {
        u8::try_from(number).ok()
    }

    fn has_number(edit: &u8, number: u64) -> bool {
        u64::from(*edit) == number
    }

    fn is_refusal(why: &Full) -> bool {
        *why == Full
    }

    fn are_replies(replies: &[Reply<Full>], wanted: &[Reply<Full>]) -> bool {
        replies == wanted
    }

    fn is_answer(answer: &Answer<Full>, wanted: &Answer<Full>) -> bool {
        answer == wanted
    }

    fn shows(&self, sight: Sight) -> bool {
        match (sight, self.bytes()) {
            (Sight::Bytes(wanted), [7, bytes @ ..]) => bytes == wanted,
            (Sight::LeftBy(entries), [7, bytes @ ..]) => {
                [1, 2, 3].as_slice().get(..bytes.len()) == Some(bytes)
                    && bytes.len() as u64 == entries
            }
            _ => false,
        }
    }
}

/// Two queries come that wait for each other, and then one that waits for nobody.
fn is_left_by<A: Allocator + Copy>(board: &Board<A>, entries: u64) -> bool {
    let count = board.len();
    for (place, name) in ["a", "b", "c"].iter().enumerate() {
        if place < count && !stands_at(board, place, name, count > 1, 1) {
            return false;
        }
    }
    count as u64 == entries
}

impl<A: Allocator + Copy> Shared<A> for Board<A> {
    type Asked = Line;

    fn begun(alloc: A, pool: usize) -> Option<Board<A>> {
        board(alloc, pool).ok()
    }

    fn edit(alloc: A, asked: &Line) -> Option<Edit<A>> {
        edit(alloc, *asked).ok()
    }

    fn numbered(alloc: A, number: u64) -> Option<Edit<A>> {
        let lines = [Line::OneWay, Line::OtherWay, Line::Third, Line::OneWay];
        let place = usize::try_from(number.checked_sub(1)?).ok()?;
        edit(alloc, *lines.get(place)?).ok()
    }

    fn has_number(edit: &Edit<A>, number: u64) -> bool {
        match edit {
            EditKind::Post { name, .. } => match number {
                1 => name.as_str() == "a",
                2 => name.as_str() == "b",
                3 => name.as_str() == "c",
                _ => false,
            },
            _ => false,
        }
    }

    fn is_refusal(why: &Why) -> bool {
        *why == Why::NameTaken
    }

    fn are_replies(replies: &[Reply<Why>], wanted: &[Reply<Why>]) -> bool {
        replies == wanted
    }

    fn is_answer(answer: &Answer<Why>, wanted: &Answer<Why>) -> bool {
        answer == wanted
    }

    fn shows(&self, sight: Sight) -> bool {
        match sight {
            Sight::Queries(count) => self.len() == count,
            Sight::Rows(count) => self.tables().count("T") == Some(count),
            Sight::Grounded(grounded) => is_grounded(self, grounded),
            Sight::LeftBy(entries) => is_left_by(self, entries),
            Sight::Bytes(_) => false,
        }
    }
}
