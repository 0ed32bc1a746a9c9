//! The printed form of commands.

ghost use Rattle.std.specs.Prelude.{◌≡◌, ◌≢◌, ◌++◌, decimal, string_bytes, OnOk};
ghost use Rattle.std.specs.List.{All};
ghost use Rattle.cq_atom.specs.Edit.{Edit as EditContent};
ghost use Rattle.cq_atom.specs.declared.edit.EditKind.TheVariants as edits;
ghost use Rattle.cq_text.specs.declared.command.CommandKind.TheVariants as commands;
ghost use Rattle.cq_text.specs.declared.command.SetupLine.TheVariants as lines;
ghost use Rattle.cq_text.specs.declared.form.Form.{Form};
ghost use Rattle.cq_text.specs.declared.form.Form.TheVariants.{Two};
ghost use Rattle.cq_text.specs.Forms.{number_of_form};
ghost use Rattle.cq_text.specs.Grammar.{CommandContent, FitsCommand, StandsFor};
ghost use Rattle.cq_text.specs.Print.{printed_command};
ghost use Rattle.cq_text.specs.Sound.{IsSoundCommand};

use super::{push_query_parts, push_row};
use crate::form::Form;
use cq_atom::{Name, Query, Row};
use std::alloc::{AllocError, Allocator};

fn push_count<A: Allocator>(printed: &mut String<A>, count: usize) -> Result<(), AllocError>
    ensures { OnOk result (string_bytes printed.new ≡ string_bytes printed.old ++ decimal count) }
{
    write!(printed, "{count}")
}

/// The number that a `board` line names the form by.
fn number_of_form(form: Form) -> usize
    ensures { result ≡ number_of_form form }
{
    match form {
        Form::One => 1,
        Form::Two => 2,
    }
}

/// Appends the line that names a form, as `board 2`, without its end. In constant time.
///
/// # Errors
/// `AllocError` if an allocation fails. A prefix of the line may have been appended then.
pub fn push_board<A: Allocator>(printed: &mut String<A>, form: Form) -> Result<(), AllocError>
    ensures { OnOk result (string_bytes printed.new ≡ string_bytes printed.old ++ printed_command (commands.Setup (lines.Board form))) }
{
    printed.push_str("board ")?;
    push_count(printed, number_of_form(form))?;
    Ok(())
}

/// Appends the line that declares a relation, as `relation R 2`, without its end. In proportion to the name.
///
/// # Errors
/// `AllocError` if an allocation fails. A prefix of the line may have been appended then.
pub fn push_relation<A: Allocator>(
    printed: &mut String<A>,
    name: &str,
    arity: usize,
) -> Result<(), AllocError>
    ensures { OnOk result (string_bytes printed.new ≡ string_bytes printed.old ++ printed_command (commands.Setup (lines.Relation name.now arity))) }
{
    printed.push_str("relation ")?;
    printed.push_str(name)?;
    printed.push(' ')?;
    push_count(printed, arity)?;
    Ok(())
}

/// Appends the line that limits a board, as `limits 100 1000`, without its end. In constant time.
///
/// # Errors
/// `AllocError` if an allocation fails. A prefix of the line may have been appended then.
pub fn push_limits<A: Allocator>(
    printed: &mut String<A>,
    pool: usize,
    journal: usize,
) -> Result<(), AllocError>
    ensures { OnOk result (string_bytes printed.new ≡ string_bytes printed.old ++ printed_command (commands.Setup (lines.Limits pool journal))) }
{
    printed.push_str("limits ")?;
    push_count(printed, pool)?;
    printed.push(' ')?;
    push_count(printed, journal)?;
    Ok(())
}

/// Appends the line that posts a query under a name, as `post NAME {posts} heads <- body`, without its end. In proportion to the
/// query.
///
/// # Errors
/// `AllocError` if an allocation fails. A prefix of the line may have been appended then.
pub fn push_post<A: Allocator>(
    printed: &mut String<A>,
    name: &Name<A>,
    query: &Query<A>,
) -> Result<(), AllocError>
    ensures printed { OnOk result (string_bytes printed.new ≡ string_bytes printed.old ++ printed_command (commands.Edit (edits.Post name.now query.now))) }
    // The command is sound, so `commands_read_back` says that the line is read as it.
    ensures sound { OnOk result (IsSoundCommand (commands.Edit (edits.Post name.now query.now))) }
{
    printed.push_str("post ")?;
    printed.push_str(name.as_str())?;
    printed.push(' ')?;
    push_query_parts(printed, query)?;
    Ok(())
}

/// Appends the line that inserts a row, as `insert R(1, "a")`, without its end. In proportion to the row.
///
/// # Errors
/// `AllocError` if an allocation fails. A prefix of the line may have been appended then.
pub fn push_insert<A: Allocator>(printed: &mut String<A>, row: &Row<A>) -> Result<(), AllocError>
    ensures printed { OnOk result (string_bytes printed.new ≡ string_bytes printed.old ++ printed_command (commands.Edit (edits.Insert row.now))) }
    // The command is sound, so `commands_read_back` says that the line is read as it.
    ensures sound { OnOk result (IsSoundCommand (commands.Edit (edits.Insert row.now))) }
{
    printed.push_str("insert ")?;
    push_row(printed, row)?;
    Ok(())
}

/// Appends the line `publish`, without its end. In constant time.
///
/// # Errors
/// `AllocError` if an allocation fails. A prefix of the line may have been appended then.
pub fn push_publish<A: Allocator>(printed: &mut String<A>) -> Result<(), AllocError>
    ensures { OnOk result (string_bytes printed.new ≡ string_bytes printed.old ++ printed_command commands.Publish) }
{
    printed.push_str("publish")?;
    Ok(())
}

/// Printed commands are read back: a sound command that a format allows is what its printed line means there. This is a law of
/// the definitions alone, so the body is empty.
pub fn commands_read_back()
    // In each format, if the command keeps its limits.
    ensures commands { (form : Form) (command : CommandContent) → IsSoundCommand command → FitsCommand form command → StandsFor form (printed_command command) command }
    // Such a line has no line feed.
    ensures one_line { (form : Form) (command : CommandContent) → IsSoundCommand command → FitsCommand form command → All (λ byte. byte ≢ 10) (printed_command command) }
    // Each sound edit keeps the limits of format 2.
    ensures edits { (edit : EditContent) → IsSoundCommand (commands.Edit edit) → FitsCommand Two (commands.Edit edit) }
{}
