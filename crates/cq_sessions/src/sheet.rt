//! What the lines of a file were answered.

ghost use Rattle.std.specs.Prelude.{◌≡◌, ◌<◌, ◌≤◌, ◌∷◌, ◌++◌, ℕ, List, [], length, drop, option_map, map, string_bytes, IfOk, OnOk, MatchBool};
ghost use Rattle.cq_sessions.specs.Steps.Sheets.{blank, filled, line_map, told_in};

use crate::fault::ServeFault;
use cq_atom::Edit;
use cq_board::Why;
use cq_desk::Reply;
use cq_report::Outcome;
use std::alloc::{AllocError, Allocator};
use std::marker::Model;
use std::mem;

/// A line of the batch that the next submit ends.
#[derive(Drop)]
pub(crate) enum Line<T> {
    /// It was answered at once; a blank line with nothing.
    Told(Option<T>),
    /// It asks for an edit, which waits.
    Asks,
}

/// The replies to the lines of a file: those that submits ended, and then the batch that the next one ends, with the edits
/// that wait for it.
#[derive(Drop)]
pub(crate) struct Sheet<A: Allocator> {
    alloc: A,
    replies: Vec<Option<String<A>>, A>,
    batch: Vec<Line<String<A>>, A>,
    gathered: Vec<Edit<A>, A>,
    /// The numbers of the entries that submits told.
    numbers: Vec<u64, A>,
}

impl<A: Allocator> Model for Sheet<A> {
    ghost use Rattle.std.specs.Prelude.{map, option_map, string_bytes};
    ghost use Rattle.cq_sessions.specs.Steps.Sheets.{SheetRecord, line_map};

    ghost Value = { SheetRecord };

    ghost view = { λ s. record { replies = map (option_map string_bytes) s.replies.items; batch = map (line_map string_bytes) s.batch.items; asked = s.gathered.items; numbers = s.numbers.items } };
}

/// The reply to a line of a batch, and how many of the edits' replies go with it.
fn fill<A: Allocator>(
    alloc: A,
    line: Line<String<A>>,
    replies: &[Reply<Why>],
    told: usize,
) -> Result<(Option<String<A>>, usize), AllocError>
    requires { told ≤ length replies.now }
    ensures bound { IfOk result (λ filling. filling.1 ≤ length replies.now) }
    ensures fills { IfOk result (λ filling. (rest : List (Line (List ℕ))) → filled (line_map string_bytes line ∷ rest) (drop told replies.now) ≡ option_map string_bytes filling.0 ∷ filled rest (drop filling.1 replies.now)) }
{
    match line {
        Line::Told(reply) => Ok((reply, told)),
        Line::Asks => match replies.get(told) {
            Some(reply) => Ok((Some(Outcome::of_reply(reply).to_line(alloc)?), told + 1)),
            None => Ok((None, told)),
        },
    }
}

/// Puts the number that a reply tells, if it tells one.
fn push_number<A: Allocator>(
    numbers: &mut Vec<u64, A>,
    reply: &Reply<Why>,
) -> Result<(), AllocError>
    ensures { OnOk result (numbers.new.items ≡ numbers.old.items ++ told_in (reply.now ∷ [])) }
{
    match reply {
        Reply::Entered(number) => {
            numbers.push(*number)?;
            Ok(())
        }
        Reply::JournalFull => Ok(()),
        Reply::Not(_) => Ok(()),
    }
}

/// Puts the numbers that the replies tell.
fn push_numbers<A: Allocator>(
    numbers: &mut Vec<u64, A>,
    replies: &[Reply<Why>],
) -> Result<(), AllocError>
    ensures { OnOk result (numbers.new.items ≡ numbers.old.items ++ told_in replies.now) }
{
    let mut left = replies;
    while let Some((reply, behind)) = left.split_first() {
        push_number(numbers, reply)?;
        left = behind;
    }
    Ok(())
}

impl<A: Allocator + Copy> Sheet<A> {
    /// No line was served yet.
    pub(crate) fn begin(alloc: A) -> Sheet<A>
        ensures { result ≡ blank }
    {
        Sheet {
            alloc,
            replies: Vec::new(alloc),
            batch: Vec::new(alloc),
            gathered: Vec::new(alloc),
            numbers: Vec::new(alloc),
        }
    }

    /// The next line has this reply, or none.
    pub(crate) fn tell(&mut self, reply: Option<String<A>>) -> Result<(), ServeFault>
        ensures { OnOk result (self.new ≡ record self.old { batch = self.old.batch ++ Line.Told (option_map string_bytes reply) ∷ [] }) }
    {
        self.batch.push(Line::Told(reply))?;
        Ok(())
    }

    /// The next line's edit waits.
    pub(crate) fn gather(&mut self, edit: Edit<A>) -> Result<(), ServeFault>
        ensures { OnOk result (self.new ≡ record self.old { batch = self.old.batch ++ Line.Asks ∷ []; asked = self.old.asked ++ edit ∷ [] }) }
    {
        self.gathered.push(edit)?;
        self.batch.push(Line::Asks)?;
        Ok(())
    }

    /// Whether an edit waits.
    pub(crate) fn waits(&self) -> bool
        ensures { MatchBool result (0 < length self.now.asked) (self.now.asked ≡ []) }
    {
        !self.gathered.is_empty()
    }

    /// The edits that wait, which are to be submitted.
    pub(crate) fn take(&mut self) -> Vec<Edit<A>, A>
        ensures edits { result.items ≡ self.old.asked }
        ensures rest { self.new ≡ record self.old { asked = [] } }
    {
        mem::replace(&mut self.gathered, Vec::new(self.alloc))
    }

    /// The lines of the batch, which goes.
    fn take_batch(&mut self) -> Vec<Line<String<A>>, A>
        ensures lines { map (line_map string_bytes) result.items ≡ self.old.batch }
        ensures rest { self.new ≡ record self.old { batch = [] } }
    {
        mem::replace(&mut self.batch, Vec::new(self.alloc))
    }

    /// Ends the batch: the edits that were taken have these replies, in order.
    pub(crate) fn end(&mut self, replies: &[Reply<Why>]) -> Result<(), AllocError>
        ensures { OnOk result (self.new ≡ record self.old { replies = self.old.replies ++ filled self.old.batch replies.now; batch = [] }) }
    {
        let mut next = 0usize;
        for line in self.take_batch() {
            let (reply, told) = fill(self.alloc, line, replies, next)?;
            self.replies.push(reply)?;
            next = told;
        }
        Ok(())
    }

    /// Takes down the numbers that the replies tell.
    pub(crate) fn take_down(&mut self, replies: &[Reply<Why>]) -> Result<(), AllocError>
        ensures { OnOk result (self.new ≡ record self.old { numbers = self.old.numbers ++ told_in replies.now }) }
    {
        push_numbers(&mut self.numbers, replies)
    }

    /// The numbers of the entries that submits told, in the order in which they were told.
    pub(crate) fn numbers(&self) -> &[u64]
        ensures { result.now ≡ self.now.numbers }
    {
        &self.numbers
    }

    /// The replies to the lines that submits ended, in the order of the lines.
    pub(crate) fn replies(&self) -> &[Option<String<A>>]
        ensures { map (option_map string_bytes) result.now ≡ self.now.replies }
    {
        &self.replies
    }
}
