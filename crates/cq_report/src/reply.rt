//! How replies read, piece by piece.

ghost use Rattle.std.specs.Prelude.{◌≡◌, ◌++◌, codes, string_bytes, OnOk, option_map};
ghost use Rattle.cq_report.specs.Refusals.{part_words, place_words, part_member, place_member, refusal_words, refusal_members};
ghost use Rattle.cq_report.specs.Reply.{outcome_line, outcome_end};
ghost use Rattle.cq_report.specs.Data.{outcome_members};
ghost use Rattle.cq_report.specs.Machine.{before_page, after_page};
ghost use Rattle.cq_report.specs.Steps.Lines.{number_bytes};

use crate::numbering::Numbering;
use crate::outcome::Outcome;
use crate::refusal::{Place, Refusal};
use cq_ask::ending;
use std::alloc::{AllocError, Allocator};
use std::marker::Model;

/// The line of a reply, or its members of a JSON object, by pieces. Contracts see its bytes. It takes no memory.
#[derive(Drop)]
pub(crate) struct ReplyLine {
    pub(crate) front: &'static str,
    pub(crate) word: &'static str,
    pub(crate) before_part: &'static str,
    pub(crate) part: &'static str,
    pub(crate) before_number: &'static str,
    pub(crate) number: Option<u64>,
    pub(crate) end: &'static str,
}

impl Model for ReplyLine {
    ghost use Rattle.std.specs.Prelude.{ℕ, List};
    ghost use Rattle.cq_report.specs.Steps.Lines.{reply_bytes};

    ghost Value = { List ℕ };

    ghost view = { λ l. reply_bytes l.front.now l.word.now l.before_part.now l.part.now l.before_number.now l.number l.end.now };
}

/// Returns a part of a query in words, with the text before it.
fn part_words(part: Option<&'static str>) -> (&'static str, &'static str)
    ensures { result.0.now ++ result.1.now ≡ part_words (option_map (λ part. part.now) part.entry) }
{
    match part {
        None => ("", ""),
        Some(part) => (" ", part),
    }
}

/// Returns a place in words, with the text before it.
fn place_words(place: Option<Place>) -> (&'static str, Option<u64>)
    ensures { result.0.now ++ number_bytes result.1 ≡ place_words place }
{
    match place {
        None => ("", None),
        Some(Place::Byte(offset)) => (" at ", Some(offset)),
        Some(Place::Atom(place)) => (" ", Some(place)),
    }
}

/// Returns a part of a query as a member, with the text before it, which ends the word; the text of the member is ended after it.
fn part_member(part: Option<&'static str>) -> (&'static str, &'static str)
    ensures { result.0.now ++ (result.1.now ++ codes "\"") ≡ codes "\"" ++ part_member (option_map (λ part. part.now) part.entry) }
{
    match part {
        None => ("", ""),
        Some(part) => ("\",\"part\":\"", part),
    }
}

/// Returns a place as a member, with the text before it, which ends a text.
fn place_member(place: Option<Place>) -> (&'static str, Option<u64>)
    ensures { result.0.now ++ number_bytes result.1 ≡ codes "\"" ++ place_member place }
{
    match place {
        None => ("\"", None),
        Some(Place::Byte(offset)) => ("\",\"at\":", Some(offset)),
        Some(Place::Atom(place)) => ("\",\"place\":", Some(place)),
    }
}

impl ReplyLine {
    /// These words, and nothing else.
    fn just(words: &'static str) -> ReplyLine
        ensures { result ≡ words.now }
    {
        ReplyLine::counting(words, None, "")
    }

    /// Words, a number, if there is one, and what ends them.
    fn counting(words: &'static str, number: Option<u64>, end: &'static str) -> ReplyLine
        ensures { result ≡ words.now ++ (number_bytes number ++ end.now) }
    {
        ReplyLine {
            front: "",
            word: "",
            before_part: "",
            part: "",
            before_number: words,
            number,
            end,
        }
    }

    /// Returns a refusal in words, with the texts before and after it.
    pub(crate) fn of_words(front: &'static str, refusal: Refusal, end: &'static str) -> ReplyLine
        ensures { result ≡ front.now ++ (refusal_words refusal ++ end.now) }
    {
        let parts = refusal.parts();
        let (before_part, part) = part_words(parts.part);
        let (before_number, number) = place_words(parts.place);
        ReplyLine {
            front,
            word: parts.word,
            before_part,
            part,
            before_number,
            number,
            end,
        }
    }

    /// A refusal as members.
    fn of_members(refusal: Refusal) -> ReplyLine
        ensures { result ≡ refusal_members refusal }
    {
        let parts = refusal.parts();
        let (before_part, part) = part_member(parts.part);
        let (before_number, number) = place_member(parts.place);
        ReplyLine {
            front: ",\"refused\":\"",
            word: parts.word,
            before_part,
            part,
            before_number,
            number,
            end: "",
        }
    }

    /// Appends it to a text.
    ///
    /// # Errors
    /// `AllocError` if an allocation fails. A part of it may be appended then.
    pub(crate) fn put<A: Allocator>(&self, page: &mut String<A>) -> Result<(), AllocError>
        ensures { OnOk result (string_bytes page.new ≡ string_bytes page.old ++ self.now) }
    {
        let (front, word, before_part, part) = (self.front, self.word, self.before_part, self.part);
        let (before_number, end) = (self.before_number, self.end);
        match self.number {
            None => write!(page, "{front}{word}{before_part}{part}{before_number}{end}"),
            Some(number) => {
                write!(
                    page,
                    "{front}{word}{before_part}{part}{before_number}{number}{end}"
                )
            }
        }
    }
}

/// The line of a reply in words.
pub(crate) fn words_of(outcome: Outcome) -> ReplyLine
    ensures { result ≡ outcome_line outcome }
{
    match outcome {
        Outcome::Silent | Outcome::Answered(_) | Outcome::Quit => ReplyLine::just(""),
        Outcome::Accepted => ReplyLine::just("ok\n"),
        Outcome::Entered(entry) => ReplyLine::counting("ok ", Some(entry), "\n"),
        Outcome::Published(count) => ReplyLine::counting("published ", Some(count), "\n"),
        Outcome::Shown(count) => ReplyLine::counting("show ", Some(count), "\n"),
        Outcome::Checkpointed(count) => ReplyLine::counting("checkpoint ", Some(count), "\n"),
        Outcome::Refused(refusal) => ReplyLine::of_words("refused ", refusal, "\n"),
    }
}

/// The members of a reply, up to the board that a look shows.
fn members_of(outcome: Outcome) -> ReplyLine
    ensures { result ≡ outcome_members outcome }
{
    match outcome {
        Outcome::Silent | Outcome::Answered(_) => ReplyLine::just(""),
        Outcome::Accepted => ReplyLine::just(",\"ok\":true"),
        Outcome::Entered(entry) => ReplyLine::counting(",\"ok\":", Some(entry), ""),
        Outcome::Published(count) => ReplyLine::counting(",\"published\":", Some(count), ""),
        Outcome::Shown(_) => ReplyLine::just(",\"board\":"),
        Outcome::Checkpointed(count) => ReplyLine::counting(",\"checkpoint\":", Some(count), ""),
        Outcome::Quit => ReplyLine::just(",\"quit\":true"),
        Outcome::Refused(refusal) => ReplyLine::of_members(refusal),
    }
}

/// What comes before the page of a reply.
pub(crate) fn before_page(numbering: Numbering, outcome: Outcome) -> ReplyLine
    ensures { result ≡ before_page numbering outcome }
{
    match numbering {
        Numbering::Plain | Numbering::Numbered => words_of(outcome),
        Numbering::Json => members_of(outcome),
    }
}

fn end_of(outcome: Outcome) -> &'static str
    ensures { result.now ≡ outcome_end outcome }
{
    match outcome {
        Outcome::Shown(_) => "end\n",
        Outcome::Answered(kind) => ending(kind),
        _ => "",
    }
}

/// What comes after the page of a reply.
pub(crate) fn after_page(numbering: Numbering, outcome: Outcome) -> &'static str
    ensures { result.now ≡ after_page numbering outcome }
{
    match numbering {
        Numbering::Plain | Numbering::Numbered => end_of(outcome),
        Numbering::Json => "",
    }
}
