//! Reads a command, a query or a ground atom in one pass from left to right.

ghost use Rattle.std.specs.Prelude.{◌<◌, ◌↔◌, List, ℕ, Ok, IfOk, IsTrue, length};
ghost use Rattle.cq_atom.specs.Atom.{RowRecord};
ghost use Rattle.cq_atom.specs.Query.{QueryRecord};
ghost use Rattle.cq_text.specs.declared.fault.Kind.{Kind};
ghost use Rattle.cq_text.specs.Grammar.{CommandContent, StandsFor, StandsForQuery, StandsForRow};
ghost use Rattle.cq_text.specs.Fault.{FirstFault, FirstQueryFault, FirstRowFault, HasOneReading};
ghost use Rattle.cq_text.specs.declared.form.Form.{Form};
ghost use Rattle.cq_text.specs.Forms.{most_bytes};
ghost use Rattle.cq_text.specs.Views.{OrNoMemory, IfFault};
ghost use Rattle.cq_text.specs.Steps.Lists.{row_at, query_at};
ghost use Rattle.cq_text.specs.Steps.Lexemes.{Gives, ahead_of_text};
ghost use Rattle.cq_text.specs.Steps.Commands.{command_at};

mod commands;
mod lexemes;
mod lists;
mod steps;

use self::lexemes::limit;
use crate::command::{Command, CommandKind};
use crate::fault::TextFault;
use crate::form::Form;
use crate::lexing::is_blank;
use crate::room::Room;
use cq_atom::{Query, Row};
use std::alloc::Allocator;
use std::marker::Model;

/// Reads a text, of which `at` bytes are read.
#[derive(Drop)]
pub(crate) struct Reader<'a, A: Allocator> {
    alloc: A,
    text: &'a [u8],
    at: usize,
    room: Room<A>,
}

impl<'a, A: Allocator> Model for Reader<'a, A> {
    ghost use Rattle.cq_text.specs.Steps.Lexemes.{Ahead};
    ghost use Rattle.cq_text.specs.Steps.Reader.{ahead_of, IsReader};

    ghost Value = { Ahead };

    ghost view = { ahead_of };

    ghost invariant = { IsReader };
}

/// Whether a text is longer than a line may be.
fn is_too_long(text: &[u8], form: Form) -> bool
    ensures { IsTrue result ↔ (most_bytes form < length text.now) }
{
    text.len() > form.max_bytes()
}

/// The command of a text that is not blank.
fn command_in<A: Allocator + Copy>(
    alloc: A,
    text: &[u8],
    form: Form,
) -> Result<Command<A>, TextFault>
    ensures { Gives (λ command. command) result (command_at form (ahead_of_text text.now)) }
{
    Reader::new(alloc, text).command(form)
}

fn query_in<A: Allocator + Copy>(alloc: A, text: &[u8], form: Form) -> Result<Query<A>, TextFault>
    ensures { Gives (λ query. query) result (query_at form (ahead_of_text text.now)) }
{
    Reader::new(alloc, text).query(form)
}

fn row_in<A: Allocator + Copy>(alloc: A, text: &[u8], form: Form) -> Result<Row<A>, TextFault>
    ensures { Gives (λ row. row) result (row_at form (ahead_of_text text.now)) }
{
    Reader::new(alloc, text).row(form)
}

/// The command that a line of a script in this form stands for.
///
/// A line is blank where it has spaces, tabs and carriage returns alone, or `#` as its first other
/// byte.
///
/// # Errors
/// The first fault of the text, with its kind and its offset in bytes; or `NoMemory` where an allocation
/// failed, which may be before a later fault is seen.
pub fn read_command<A: Allocator + Copy>(
    alloc: A,
    text: &[u8],
    form: Form,
) -> Result<Command<A>, TextFault>
    // What is read is what the text stands for.
    ensures found { IfOk result (λ command. StandsFor form text.now command) }
    // A text that stands for a command is read as it.
    ensures only { (command : CommandContent) → StandsFor form text.now command → OrNoMemory result (Ok command) }
    // A fault that is answered is the first one.
    ensures fault { IfFault result (λ kind offset. FirstFault form text.now kind offset) }
    // A text that has a first fault is refused with it.
    ensures only_fault { (kind : Kind) (offset : ℕ) → FirstFault form text.now kind offset → OrNoMemory result (Err (TextFault.At kind offset)) }
{
    if is_too_long(text, form) {
        return Err(limit(form.max_bytes()));
    }
    if is_blank(text) {
        return Ok(CommandKind::Blank);
    }
    command_in(alloc, text, form)
}

/// The query that a text stands for, within the limits of the form: `{posts} heads <- body`. A query's text is never blank.
///
/// # Errors
/// The first fault of the text, with its kind and its offset in bytes; or `NoMemory` where an allocation
/// failed, which may be before a later fault is seen.
pub fn read_query<A: Allocator + Copy>(
    alloc: A,
    text: &[u8],
    form: Form,
) -> Result<Query<A>, TextFault>
    // What is read is what the text stands for.
    ensures found { IfOk result (λ query. StandsForQuery form text.now query) }
    // A text that stands for a query is read as it.
    ensures only { (query : QueryRecord) → StandsForQuery form text.now query → OrNoMemory result (Ok query) }
    // A fault that is answered is the first one.
    ensures fault { IfFault result (λ kind offset. FirstQueryFault form text.now kind offset) }
    // A text that has a first fault is refused with it.
    ensures only_fault { (kind : Kind) (offset : ℕ) → FirstQueryFault form text.now kind offset → OrNoMemory result (Err (TextFault.At kind offset)) }
{
    if is_too_long(text, form) {
        return Err(limit(form.max_bytes()));
    }
    query_in(alloc, text, form)
}

/// The row that a text stands for, within the limits of the form: a ground atom, `R(1, "a", B)`, in which an upper-case identifier is
/// the text of its letters. A ground atom's text is never blank.
///
/// # Errors
/// The first fault of the text, with its kind and its offset in bytes: a variable is `Shape`, since a
/// row has none. Or `NoMemory` where an allocation failed, which may be before a later fault is seen.
pub fn read_ground_atom<A: Allocator + Copy>(
    alloc: A,
    text: &[u8],
    form: Form,
) -> Result<Row<A>, TextFault>
    // What is read is what the text stands for.
    ensures found { IfOk result (λ row. StandsForRow form text.now row) }
    // A text that stands for a row is read as it.
    ensures only { (row : RowRecord) → StandsForRow form text.now row → OrNoMemory result (Ok row) }
    // A fault that is answered is the first one.
    ensures fault { IfFault result (λ kind offset. FirstRowFault form text.now kind offset) }
    // A text that has a first fault is refused with it.
    ensures only_fault { (kind : Kind) (offset : ℕ) → FirstRowFault form text.now kind offset → OrNoMemory result (Err (TextFault.At kind offset)) }
{
    if is_too_long(text, form) {
        return Err(limit(form.max_bytes()));
    }
    row_in(alloc, text, form)
}

/// In each form a text has one reading: it stands for one value and has no fault, or it has one first fault and
/// stands for nothing. This is a law of the definitions alone, so there is nothing to do.
pub fn one_reading()
    // Of a text that is read as a command.
    ensures commands { (form : Form) (text : List ℕ) → HasOneReading (λ command. StandsFor form text command) (λ kind offset. FirstFault form text kind offset) }
    // Of a text that is read as a query.
    ensures queries { (form : Form) (text : List ℕ) → HasOneReading (λ query. StandsForQuery form text query) (λ kind offset. FirstQueryFault form text kind offset) }
    // Of a text that is read as a ground atom.
    ensures rows { (form : Form) (text : List ℕ) → HasOneReading (λ row. StandsForRow form text row) (λ kind offset. FirstRowFault form text kind offset) }
{}
