//! What calls are made with: commands, which are read from texts.

use cq_atom::{Atom, EditKind, Name, Query, Row};
use cq_text::{Command, CommandKind, Form, read_command};
use std::alloc::{AllocError, Allocator};

/// The command of the text; a text of none counts as out of memory.
pub fn command<A: Allocator + Copy>(alloc: A, text: &str) -> Result<Command<A>, AllocError> {
    match read_command(alloc, text.as_bytes(), Form::One) {
        Ok(command) => Ok(command),
        Err(_) => Err(AllocError),
    }
}

/// The query that is posted.
pub fn query_of<A: Allocator>(command: &Command<A>) -> Option<&Query<A>> {
    match command {
        CommandKind::Edit(EditKind::Post { query, .. }) => Some(query),
        _ => None,
    }
}

/// The first atom of the body of the query that is posted.
pub fn atom_of<A: Allocator>(command: &Command<A>) -> Option<&Atom<A>> {
    match query_of(command) {
        Some(query) => query.body().first(),
        None => None,
    }
}

/// The row that is inserted.
pub fn row_of<A: Allocator>(command: &Command<A>) -> Option<&Row<A>> {
    match command {
        CommandKind::Edit(EditKind::Insert { row }) => Some(row),
        _ => None,
    }
}

/// The name whose query is withdrawn.
pub fn name_of<A: Allocator>(command: &Command<A>) -> Option<&Name<A>> {
    match command {
        CommandKind::Edit(EditKind::Withdraw { name }) => Some(name),
        _ => None,
    }
}
