//! What a line asks.

ghost use Rattle.std.specs.Prelude.{◌≡◌, [], IfOk};
ghost use Rattle.cq_ask.specs.Ask.{is_checkpoint, is_find, is_quit};

use cq_atom::Name;
use std::alloc::{AllocError, Allocator};
use std::marker::Model;

/// What is asked.
#[derive(Clone, Copy, Debug, PartialEq, Eq)]
pub enum AskKind {
    /// How many queries, rows and entries there are.
    Count,
    /// Whether queries are matched.
    Status,
    /// The block of a query in the report.
    Query,
    /// Why queries wait.
    Explain,
    /// Which heads nearly supply that postcondition of a query, counted from 0.
    Near { post: u8 },
    /// Whether choices coordinate.
    Choice,
    /// For a coordinating choice that has the queries.
    Choose,
    /// Which queries hang together, and whether they can go.
    Groups,
    /// Which queries came, went or turned between the last two publishes.
    Changes,
    /// The graph of who can supply whom.
    Graph,
    /// The report in JSON.
    Json,
    /// A script that makes the board.
    Dump,
    /// The groundings of a body, which begins at this byte of the line.
    Find { place: usize },
    /// That a checkpoint be made.
    Checkpoint,
    /// Which lines ask.
    Help,
    /// That no further line is heard.
    Quit,
    /// A question whose words do not fit.
    Unfit,
}

/// What a line asks, and of what: the names that it is asked of, or the text that has the choices or the body.
#[derive(Drop)]
pub struct Ask<A: Allocator> {
    kind: AskKind,
    names: Vec<Name<A>, A>,
    text: Vec<u8, A>,
}

impl<A: Allocator> Model for Ask<A> {
    ghost use Rattle.cq_ask.specs.Ask.{AskRecord};

    ghost Value = { AskRecord };

    ghost view = { λ a. record { kind = a.kind; names = a.names.items; text = a.text.items } };
}

impl<A: Allocator + Copy> Ask<A> {
    /// Returns a question about what the text has.
    pub(crate) fn of_text(alloc: A, kind: AskKind, text: &[u8]) -> Result<Ask<A>, AllocError>
        ensures { IfOk result (λ ask. ask ≡ record { kind = kind; names = []; text = text.now }) }
    {
        Ok(Ask {
            kind,
            names: Vec::new(alloc),
            text: Vec::from_slice(alloc, text)?,
        })
    }
}

impl<A: Allocator> Ask<A> {
    /// This, asked of these names.
    pub(crate) fn new(alloc: A, kind: AskKind, names: Vec<Name<A>, A>) -> Ask<A>
        ensures { result ≡ record { kind = kind; names = names.items; text = [] } }
    {
        Ask {
            kind,
            names,
            text: Vec::new(alloc),
        }
    }

    /// What is asked.
    pub fn kind(&self) -> AskKind
        ensures { result ≡ self.now.kind }
    {
        self.kind
    }

    /// Whether it is asked that no further line is heard.
    pub fn is_quit(&self) -> bool
        ensures { result ≡ is_quit self.now.kind }
    {
        matches!(self.kind, AskKind::Quit)
    }

    /// Returns true if the line asks for a checkpoint.
    pub fn is_checkpoint(&self) -> bool
        ensures { result ≡ is_checkpoint self.now.kind }
    {
        matches!(self.kind, AskKind::Checkpoint)
    }

    /// Returns true if the line asks for groundings.
    pub fn is_find(&self) -> bool
        ensures { result ≡ is_find self.now.kind }
    {
        matches!(self.kind, AskKind::Find { .. })
    }

    /// The names that it is asked of.
    pub(crate) fn names(&self) -> &[Name<A>]
        ensures { result.now ≡ self.now.names }
    {
        &self.names
    }

    /// The text that has the choices or the body.
    pub fn text(&self) -> &[u8]
        ensures { result.now ≡ self.now.text }
    {
        &self.text
    }
}
