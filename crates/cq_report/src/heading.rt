//! Which form a script is in.

ghost use Rattle.std.specs.Prelude.{◌≡◌, None};
ghost use Rattle.cq_report.specs.Reading.{Reads};
ghost use Rattle.cq_report.specs.Machine.{form_of, headed, named_form};

use cq_atom::Name;
use cq_text::{Command, CommandKind, Form, SetupLine};
use std::alloc::Allocator;

/// Returns the form in which the next line is read, if this one is settled, or none.
pub fn form_of(heading: Option<Form>) -> Form
    ensures { result ≡ form_of heading }
{
    match heading {
        Some(form) => form,
        None => Form::One,
    }
}

/// The form that is settled after a command, if any.
pub fn headed<A: Allocator>(heading: Option<Form>, command: &Command<A>) -> Option<Form>
    ensures { result ≡ headed heading (Reads command.now) }
{
    match heading {
        Some(form) => Some(form),
        None => settled(command),
    }
}

/// The form of a script whose first line is this one of a setup.
fn named_form<A: Allocator>(line: &SetupLine<Name<A>>) -> Form
    ensures { result ≡ named_form line.now }
{
    match line {
        SetupLine::Board { form } => *form,
        SetupLine::Relation { .. } | SetupLine::Limits { .. } => Form::One,
    }
}

/// Returns the form that the first command settles, if it settles one.
fn settled<A: Allocator>(command: &Command<A>) -> Option<Form>
    ensures { result ≡ headed None (Reads command.now) }
{
    match command {
        CommandKind::Blank => None,
        CommandKind::Setup(line) => Some(named_form(line)),
        CommandKind::Edit(_) | CommandKind::Publish | CommandKind::Show => Some(Form::One),
    }
}
