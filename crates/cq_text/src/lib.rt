//! The text form of queries and commands.
//!
//! The room above uses `read_command`: a line is read exactly as what it stands for, and any other
//! line is refused with its first fault, by kind and offset. `read_query` and `read_ground_atom` do the
//! same with a query and with a row alone. `specs/Lexing` says which tokens a text
//! has, `specs/Grammar` which of them stand for what, and `specs/Fault` which fault is the first.
//! `read_field` reads a field of CSV as the value that `specs/Field` gives it.
//!
//! A writer of scripts uses `push_post`, `push_insert` and the other calls of commands: each appends a line as `specs/Print` has it,
//! which is read back as its command. `commands_read_back` says so of all commands.
//!
//! Not here: what a command does, cutting a script into lines, and the devices that bytes come from and go to.
#![tactic(auto)]

mod binding;
mod command;
mod fault;
mod field;
mod form;
mod lexing;
mod limits;
mod printing;
mod quoting;
mod reading;
mod room;
mod token;
mod word;

pub use command::{Command, CommandKind, SetupLine};
pub use fault::{Kind, TextFault};
pub use field::read_field;
pub use form::Form;
pub use limits::{MAX_BYTES, MAX_COUNT, MAX_FORM};
pub use printing::{
    commands_read_back, print_atom, print_query, print_row, print_values, push_board, push_escaped,
    push_insert, push_limits, push_post, push_publish, push_query, push_relation, push_values,
};
pub use reading::{one_reading, read_command, read_ground_atom, read_query};
