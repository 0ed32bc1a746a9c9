//! What comes of a line.

ghost use Rattle.std.specs.Prelude.{◌≡◌, string_bytes, IfOk};
ghost use Rattle.cq_report.specs.Reply.{reply_outcome, answer_outcome, refusal, outcome_line};
ghost use Rattle.cq_report.specs.Steps.Turns.{counts_page, plain_turn, is_silent};
ghost use Rattle.cq_ask.specs.declared.ask.AskKind.TheVariants.{Count};
ghost use Rattle.cq_report.specs.declared.outcome.Outcome.TheVariants.{Answered};

use crate::numbering::Numbering;
use crate::refusal::Refusal;
use crate::reply::words_of;
use cq_ask::{AskKind, Counts, ending};
use cq_board::Why;
use cq_desk::{Answer, Reply};
use std::alloc::{AllocError, Allocator};
use std::marker::Model;

/// What comes of a line of a script, or of one that asks.
#[derive(Clone, Copy, Debug, PartialEq, Eq)]
pub enum Outcome {
    /// Nothing: the line is blank.
    Silent,
    /// A line of a setup is accepted.
    Accepted,
    /// An edit is accepted, as the entry of this number, from 1.
    Entered(u64),
    /// So many entries are published.
    Published(u64),
    /// The board is shown, after that many published entries.
    Shown(u64),
    /// A line that asks is answered.
    Answered(AskKind),
    /// A checkpoint is made after this many entries.
    Checkpointed(u64),
    /// No further line is read.
    Quit,
    /// The line is refused.
    Refused(Refusal),
}

impl Outcome {
    /// Returns what comes of an edit.
    pub fn of_reply(reply: &Reply<Why>) -> Outcome
        ensures { result ≡ reply_outcome reply.now }
    {
        match reply {
            Reply::Entered(entry) => Outcome::Entered(*entry),
            Reply::JournalFull => Outcome::Refused(Refusal::JournalFull),
            Reply::Not(why) => Outcome::Refused(Refusal::Pool(*why)),
        }
    }

    /// Returns what comes of an event, by its answer.
    pub(crate) fn of_answer(answer: &Answer<Why>) -> Outcome
        ensures { result ≡ answer_outcome answer.now }
    {
        match answer {
            Answer::Replied(reply) => Outcome::of_reply(reply),
            Answer::Published(count) => Outcome::Published(*count),
            Answer::Looked(count) => Outcome::Shown(*count),
            Answer::Heard(_) => Outcome::Silent,
            Answer::Checkpointed(count) => Outcome::Checkpointed(*count),
        }
    }

    /// Returns why the line is refused, if it is.
    pub fn refusal(self) -> Option<Refusal>
        ensures { result ≡ refusal self }
    {
        match self {
            Outcome::Refused(why) => Some(why),
            _ => None,
        }
    }

    /// Returns the line of the reply in words, with its LF; of `Shown` the line before the report.
    ///
    /// # Errors
    /// `AllocError` if an allocation fails.
    pub fn to_line<A: Allocator>(self, alloc: A) -> Result<String<A>, AllocError>
        ensures { IfOk result (λ text. string_bytes text ≡ outcome_line self) }
    {
        let mut text = String::new(alloc);
        words_of(self).put(&mut text)?;
        Ok(text)
    }
}

/// The reply to a line before it is written: the outcome of the line and a page, which is empty except for a look and an answer. The page is
/// a text, or counts in words or as JSON.
#[derive(Drop)]
pub(crate) struct Turn<A: Allocator> {
    pub(crate) outcome: Outcome,
    pub(crate) text: String<A>,
    pub(crate) counts: Option<(Numbering, Counts)>,
}

impl<A: Allocator> Model for Turn<A> {
    ghost use Rattle.std.specs.Prelude.{string_bytes};
    ghost use Rattle.cq_report.specs.Steps.Turns.{TurnRecord, paged};

    ghost Value = { TurnRecord };

    ghost view = { λ t. record { outcome = t.outcome; page = paged t.counts (string_bytes t.text) } };
}

impl<A: Allocator> Turn<A> {
    /// Returns a reply without a page. Does not allocate.
    pub(crate) fn plain(alloc: A, outcome: Outcome) -> Turn<A>
        ensures { result ≡ plain_turn outcome }
    {
        Turn {
            outcome,
            text: String::new(alloc),
            counts: None,
        }
    }

    /// Returns a reply with this text as its page.
    pub(crate) fn of_text(outcome: Outcome, text: String<A>) -> Turn<A>
        ensures { result ≡ record { outcome = outcome; page = string_bytes text } }
    {
        Turn {
            outcome,
            text,
            counts: None,
        }
    }

    /// Returns a reply with these counts. Does not allocate.
    pub(crate) fn of_counts(alloc: A, numbering: Numbering, counts: Counts) -> Turn<A>
        ensures { result ≡ record { outcome = Answered Count; page = counts_page numbering counts } }
    {
        Turn {
            outcome: Outcome::Answered(AskKind::Count),
            text: String::new(alloc),
            counts: Some((numbering, counts)),
        }
    }

    /// Returns true if nothing is written in words.
    pub(crate) fn is_silent(&self) -> bool
        ensures { result ≡ is_silent self.now }
    {
        if self.counts.is_some() {
            return false;
        }
        match self.outcome {
            Outcome::Silent | Outcome::Quit => self.text.is_empty(),
            Outcome::Answered(kind) => self.text.is_empty() && ending(kind).is_empty(),
            Outcome::Accepted
            | Outcome::Entered(_)
            | Outcome::Published(_)
            | Outcome::Shown(_)
            | Outcome::Checkpointed(_)
            | Outcome::Refused(_) => false,
        }
    }
}
