//! Why lines are refused.

ghost use Rattle.std.specs.Prelude.{◌≡◌, ◌++◌, string_bytes, OnOk};
ghost use Rattle.cq_report.specs.Refusals.{Parts, just, at_atom, kind_word, catalog_word, part_word, why_parts, refusal_parts, refusal_words};

use crate::reply::ReplyLine;
use cq_atom::Part;
use cq_board::Why;
use cq_rel::CatalogFault;
use cq_text::Kind;
use std::alloc::{AllocError, Allocator};
use std::marker::Model;

/// Why a line is refused.
#[derive(Clone, Copy, Debug, PartialEq, Eq)]
pub enum Refusal {
    /// The line is no command.
    Text {
        /// Its first fault.
        kind: Kind,
        /// The byte of the line at which that is, from 0.
        at: usize,
    },
    /// A line of a setup comes after it, or a line names the form after another line.
    Late,
    /// A relation is not declared.
    Catalog(CatalogFault),
    /// A relation is not declared, since a pending query uses its name in a head or a postcondition.
    InUse,
    /// The limits allow fewer queries than are pending.
    TooManyPending,
    /// The pool refuses an edit.
    Pool(Why),
    /// The journal has as many entries as it may hold.
    JournalFull,
    /// A checkpoint is requested, but some entries are not published.
    Unpublished,
    /// An allocation failed.
    Memory,
}

/// A place that a refusal names. Places count from 0.
#[derive(Clone, Copy, Debug, PartialEq, Eq)]
pub enum Place {
    /// A byte of the line.
    Byte(u64),
    /// An atom of the edit.
    Atom(u64),
}

/// What a refusal is printed by, in words and as JSON. Contracts see the word and the part as bytes.
#[derive(Drop)]
pub struct RefusalParts {
    /// The word.
    pub word: &'static str,
    /// The part of a query that it names, if any.
    pub part: Option<&'static str>,
    /// The place that it names, if any.
    pub place: Option<Place>,
}

impl Model for RefusalParts {
    ghost use Rattle.std.specs.Prelude.{option_map};
    ghost use Rattle.cq_report.specs.Refusals.{Parts};

    ghost Value = { Parts };

    ghost view = { λ p. record { word = p.word.now; part = option_map (λ part. part.now) p.part; place = p.place } };
}

impl RefusalParts {
    /// A word, and nothing else.
    fn just(word: &'static str) -> RefusalParts
        ensures { result ≡ just word.now }
    {
        RefusalParts {
            word,
            part: None,
            place: None,
        }
    }

    /// A word, and the number of an atom.
    fn at_atom(word: &'static str, place: usize) -> RefusalParts
        ensures { result ≡ at_atom word.now place }
    {
        RefusalParts {
            word,
            part: None,
            place: Some(Place::Atom(place as u64)),
        }
    }
}

fn kind_word(kind: Kind) -> &'static str
    ensures { result.now ≡ kind_word kind }
{
    match kind {
        Kind::Token => "Token",
        Kind::Text => "Text",
        Kind::Number => "Number",
        Kind::Shape => "Shape",
        Kind::Limit => "Limit",
        Kind::Unbound => "Unbound",
    }
}

fn catalog_word(fault: CatalogFault) -> &'static str
    ensures { result.now ≡ catalog_word fault }
{
    match fault {
        CatalogFault::BadName => "BadName",
        CatalogFault::BadArity => "BadArity",
        CatalogFault::Declared => "Declared",
        CatalogFault::CatalogFull => "CatalogFull",
        CatalogFault::NoMemory => "Memory",
    }
}

fn part_word(part: Part) -> &'static str
    ensures { result.now ≡ part_word part }
{
    match part {
        Part::Posts => "posts",
        Part::Heads => "heads",
        Part::Body => "body",
    }
}

fn why_parts(why: Why) -> RefusalParts
    ensures { result ≡ why_parts why }
{
    match why {
        Why::PoolFull => RefusalParts::just("PoolFull"),
        Why::NameTaken => RefusalParts::just("NameTaken"),
        Why::NotAnswer { part, place } => RefusalParts {
            word: "NotAnswer",
            part: Some(part_word(part)),
            place: Some(Place::Atom(place as u64)),
        },
        Why::UnknownRelation { place } => RefusalParts::at_atom("UnknownRelation", place),
        Why::Arity { place } => RefusalParts::at_atom("Arity", place),
        Why::NoSuchName => RefusalParts::just("NoSuchName"),
        Why::RowPresent => RefusalParts::just("RowPresent"),
        Why::RowAbsent => RefusalParts::just("RowAbsent"),
    }
}

impl Refusal {
    /// Returns what it is printed by. This does not allocate.
    pub fn parts(self) -> RefusalParts
        ensures { result ≡ refusal_parts self }
    {
        match self {
            Refusal::Text { kind, at } => RefusalParts {
                word: kind_word(kind),
                part: None,
                place: Some(Place::Byte(at as u64)),
            },
            Refusal::Late => RefusalParts::just("Late"),
            Refusal::Catalog(fault) => RefusalParts::just(catalog_word(fault)),
            Refusal::InUse => RefusalParts::just("InUse"),
            Refusal::TooManyPending => RefusalParts::just("TooManyPending"),
            Refusal::Pool(why) => why_parts(why),
            Refusal::JournalFull => RefusalParts::just("JournalFull"),
            Refusal::Unpublished => RefusalParts::just("Unpublished"),
            Refusal::Memory => RefusalParts::just("Memory"),
        }
    }

    /// Appends it in words, as in `Shape at 13`.
    ///
    /// # Errors
    /// `AllocError` if an allocation fails. A part of the words may be appended then.
    pub fn put<A: Allocator>(self, page: &mut String<A>) -> Result<(), AllocError>
        ensures { OnOk result (string_bytes page.new ≡ string_bytes page.old ++ refusal_words self) }
    {
        ReplyLine::of_words("", self, "").put(page)
    }
}
