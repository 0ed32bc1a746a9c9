//! Commands.

ghost use Rattle.std.specs.Prelude.{◌≡◌};
ghost use Rattle.cq_text.specs.Steps.Commands.{command_word};

use crate::form::Form;
use cq_atom::{EditKind, Name, Query, Row};
use std::alloc::{Allocator, Global};

/// A line of a script's setup, over what holds names.
#[derive(Drop)]
pub enum SetupLine<N> {
    /// Declares a database relation with that many columns.
    Relation {
        /// The relation's name.
        name: N,
        /// The number of its columns.
        arity: usize,
    },
    /// Names the form of the script.
    Board {
        /// The form.
        form: Form,
    },
    /// Limits the board.
    Limits {
        /// The most pending queries.
        pool: usize,
        /// The most journal entries.
        journal: usize,
    },
}

/// What a line of a script stands for, over what holds names, queries and rows. Contracts see a
/// command as a `CommandKind` over the bytes of names and the records of queries and rows.
#[derive(Drop)]
pub enum CommandKind<N, Q, R> {
    /// A line of spaces, or a comment.
    Blank,
    /// Sets the board up.
    Setup(SetupLine<N>),
    /// Asks for an edit.
    Edit(EditKind<N, Q, R>),
    /// Publishes the edits so far.
    Publish,
    /// Shows the published board.
    Show,
}

/// A command.
pub type Command<A = Global> = CommandKind<Name<A>, Query<A>, Row<A>>;

/// The word that a command begins with.
#[derive(Clone, Copy)]
pub(crate) enum CommandWord {
    Relation,
    Board,
    Limits,
    Post,
    Withdraw,
    Insert,
    Delete,
    Publish,
    Show,
}

impl CommandWord {
    /// The command word that an identifier is, if it is one.
    pub(crate) fn of(word: &str) -> Option<CommandWord>
        ensures { result ≡ command_word word.now }
    {
        match word {
            "relation" => Some(CommandWord::Relation),
            "board" => Some(CommandWord::Board),
            "limits" => Some(CommandWord::Limits),
            "post" => Some(CommandWord::Post),
            "withdraw" => Some(CommandWord::Withdraw),
            "insert" => Some(CommandWord::Insert),
            "delete" => Some(CommandWord::Delete),
            "publish" => Some(CommandWord::Publish),
            "show" => Some(CommandWord::Show),
            _ => None,
        }
    }
}
