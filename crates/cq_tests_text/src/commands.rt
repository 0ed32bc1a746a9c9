//! Commands, one of each kind. What they hold is shown by the cases.

use cq_atom::{Edit, EditKind, Name};
use cq_text::{
    Command, CommandKind, Form, Kind, MAX_COUNT, SetupLine, TextFault, read_command,
    read_ground_atom, read_query,
};
use std::alloc::{AllocError, Global};
use std::test::Fail;

/// The kind of a line of a setup, and two numbers as below.
fn kind_of_setup(line: &SetupLine<Name>) -> (&str, usize, usize) {
    match line {
        SetupLine::Relation { name, arity } => ("relation", name.as_str().len(), *arity),
        SetupLine::Board { form } => ("board", form.max_terms(), form.max_atoms()),
        SetupLine::Limits { pool, journal } => ("limits", *pool, *journal),
    }
}

/// The kind of an edit, and two numbers as below.
fn kind_of_edit(edit: &Edit) -> (&str, usize, usize) {
    match edit {
        EditKind::Post { name, query } => ("post", name.as_str().len(), query.body().len()),
        EditKind::Withdraw { name } => ("withdraw", name.as_str().len(), 0),
        EditKind::Insert { row } => ("insert", row.relation().len(), row.values().len()),
        EditKind::Delete { row } => ("delete", row.relation().len(), row.values().len()),
    }
}

/// The kind of a command, and two numbers that it has or that count what it has.
fn kind_of(command: &Command) -> (&str, usize, usize) {
    match command {
        CommandKind::Blank => ("", 0, 0),
        CommandKind::Setup(line) => kind_of_setup(line),
        CommandKind::Edit(edit) => kind_of_edit(edit),
        CommandKind::Publish => ("publish", 0, 0),
        CommandKind::Show => ("show", 0, 0),
    }
}

/// Whether the line stands for a command of that kind and those numbers.
fn is_kind(alloc: Global, line: &str, kind: (&str, usize, usize)) -> bool {
    match read_command(alloc, line.as_bytes(), Form::One) {
        Ok(command) => kind_of(&command) == kind,
        Err(_) => false,
    }
}

/// A line, the word of its command, and two numbers of that.
type Told = (&'static str, &'static str, usize, usize);

/// The first of the lines that stands for another command.
fn other_kind(alloc: Global, told: &[Told]) -> Option<&'static str> {
    for (line, word, first, second) in told {
        if !is_kind(alloc, line, (*word, *first, *second)) {
            return Some(*line);
        }
    }
    None
}

const KINDS: [Told; 15] = [
    ("", "", 0, 0),
    (" \t\r", "", 0, 0),
    ("#", "", 0, 0),
    ("  # post -0", "", 0, 0),
    ("relation Flights 8", "relation", 7, 8),
    ("board 1", "board", 8, 8),
    (" board 2 ", "board", 16, 16),
    ("limits 1000000 1 ", "limits", MAX_COUNT, 1),
    ("post kramer {} R(x) <- T(x), U(1)", "post", 6, 2),
    (" post show{}R(Jerry)<-\r", "post", 4, 0),
    ("withdraw withdraw", "withdraw", 8, 0),
    ("insert T(Paris,-5,\"x y\")", "insert", 1, 3),
    ("delete T ( \"Paris\" , -5 )", "delete", 1, 2),
    ("publish", "publish", 0, 0),
    ("\tshow ", "show", 0, 0),
];

#[test]
fn kinds(rt: HostRuntime) {
    let other = other_kind(rt.alloc(), KINDS.as_slice());
    assert!(rt; other.is_none(), "{other:?}");
}

/// The first faults of a text as a line, as a query and as a ground atom.
fn faults(alloc: Global, text: &str, form: Form) -> [Option<TextFault>; 3] {
    [
        read_command(alloc, text.as_bytes(), form).err(),
        read_query(alloc, text.as_bytes(), form).err(),
        read_ground_atom(alloc, text.as_bytes(), form).err(),
    ]
}

/// The same of as many spaces.
fn faults_of_spaces(
    alloc: Global,
    count: usize,
    form: Form,
) -> Result<[Option<TextFault>; 3], AllocError> {
    let spaces = " ".repeat(alloc, count)?;
    Ok(faults(alloc, spaces.as_str(), form))
}

fn at(kind: Kind, offset: usize) -> Option<TextFault> {
    Some(TextFault::At { kind, offset })
}

#[test]
fn longest_line(rt: HostRuntime) -> Result<(), Fail> {
    for (form, most) in [(Form::One, 131_072), (Form::Two, 524_288)] {
        let end = at(Kind::Shape, most);
        let limit = at(Kind::Limit, most);
        let over = most.saturating_add(1);
        assert!(rt;
            faults_of_spaces(rt.alloc(), most, form)? == [None, end, end],
            "{most}"
        );
        assert!(rt;
            faults_of_spaces(rt.alloc(), over, form)? == [limit, limit, limit],
            "{most}"
        );
    }
    Ok(())
}

/// Where a post is at fault for a limit, in each form.
fn limits_of(alloc: Global, text: &str) -> [Option<TextFault>; 2] {
    [
        read_command(alloc, text.as_bytes(), Form::One).err(),
        read_command(alloc, text.as_bytes(), Form::Two).err(),
    ]
}

/// The fault of a limit at that offset, if there is one.
fn limit_at(offset: Option<usize>) -> Option<TextFault> {
    match offset {
        Some(offset) => at(Kind::Limit, offset),
        None => None,
    }
}

/// A line, and where it is at fault for a limit in form 1 and in form 2.
type Limited = (&'static str, Option<usize>, Option<usize>);

/// The first of the lines that is at fault elsewhere.
fn other_limits(alloc: Global, told: &[Limited]) -> Option<&'static str> {
    for (text, one, two) in told {
        if limits_of(alloc, text) != [limit_at(*one), limit_at(*two)] {
            return Some(*text);
        }
    }
    None
}

const LIMITS: [Limited; 8] = [
    ("relation F 8", None, None),
    ("relation F 9", Some(11), None),
    ("relation F 17", Some(11), Some(11)),
    ("post a {} R(1,2,3,4,5,6,7,8,9) <-", Some(28), None),
    (
        "post a {} R(1,2,3,4,5,6,7,8,9,1,2,3,4,5,6,7,8) <-",
        Some(28),
        Some(44),
    ),
    ("insert R(1,2,3,4,5,6,7,8,9)", Some(25), None),
    (
        "insert R(1,2,3,4,5,6,7,8,9,1,2,3,4,5,6,7,8)",
        Some(25),
        Some(41),
    ),
    (
        "post a {} A(1),A(1),A(1),A(1),A(1),A(1),A(1),A(1),B(1) <-",
        Some(50),
        None,
    ),
];

#[test]
fn limits_by_form(rt: HostRuntime) {
    let other = other_limits(rt.alloc(), LIMITS.as_slice());
    assert!(rt; other.is_none(), "{other:?}");
}
