//! Each allocation of a call refused in turn.

use cq_atom::{Name, Query, Row};
use cq_devices::{Counted, Stop, read_whole};
use cq_refusing::{Outcome, Tried, refusals};
use cq_text::{
    Form, TextFault, print_atom, print_query, print_row, print_values, push_board, push_escaped,
    push_insert, push_limits, push_post, push_publish, push_relation, read_command,
    read_ground_atom, read_query,
};
use std::alloc::{AllocError, Allocator};
use std::io::{self, Read};

const LINE: &[u8] = b"post a {A(x, \"b\")} R(C) <- T(x, D)";

/// A line read as a command.
struct ReadingLine;

impl Tried for ReadingLine {
    fn tried<A: Allocator + Copy>(alloc: A) -> Outcome {
        match read_command(alloc, LINE, Form::One) {
            Ok(_) => Outcome::Done,
            Err(fault) => Outcome::refused_if(
                fault == TextFault::NoMemory && read_command(alloc, LINE, Form::One).is_ok(),
            ),
        }
    }
}

#[test]
fn failed_allocation_in_reading(rt: HostRuntime) {
    assert!(rt; matches!(refusals::<ReadingLine>(rt.alloc()), Ok(6..)));
}

// A text of more than 22 bytes takes memory of its own.
const ROW: &[u8] = b"Flights(C, \"Paris, the city of light\", 1)";

/// A text read as a ground atom.
struct ReadingRow;

impl Tried for ReadingRow {
    fn tried<A: Allocator + Copy>(alloc: A) -> Outcome {
        match read_ground_atom(alloc, ROW, Form::One) {
            Ok(_) => Outcome::Done,
            Err(fault) => Outcome::refused_if(
                fault == TextFault::NoMemory && read_ground_atom(alloc, ROW, Form::One).is_ok(),
            ),
        }
    }
}

#[test]
fn failed_allocation_in_reading_rows(rt: HostRuntime) {
    assert!(rt; matches!(refusals::<ReadingRow>(rt.alloc()), Ok(4..)));
}

const KRAMER: &str = r#"{R("Jerry", x)} R("Kramer", x) <- Flights(x, "Paris"), Airlines(x, y)"#;

/// A text read as a query.
struct ReadingQuery;

fn is_read<A: Allocator + Copy>(alloc: A) -> Result<bool, TextFault> {
    let query = read_query(alloc, KRAMER.as_bytes(), Form::One)?;
    Ok(query.heads().len() == 1 && query.variables().len() == 2)
}

impl Tried for ReadingQuery {
    fn tried<A: Allocator + Copy>(alloc: A) -> Outcome {
        match is_read(alloc) {
            Ok(right) => Outcome::done_if(right),
            Err(fault) => Outcome::refused_if(
                fault == TextFault::NoMemory && is_read(alloc) == Ok(true),
            ),
        }
    }
}

#[test]
fn failed_allocation_in_reading_queries(rt: HostRuntime) {
    assert!(rt; matches!(refusals::<ReadingQuery>(rt.alloc()), Ok(9..)));
}

/// Whether the query is printed as it was read.
fn is_printed<A: Allocator + Copy>(alloc: A, query: &Query<A>) -> bool {
    match print_query(alloc, query) {
        Ok(text) => text.as_str() == KRAMER,
        Err(_) => false,
    }
}

fn printed<A: Allocator + Copy>(alloc: A, query: &Query<A>) -> Outcome {
    match print_query(alloc, query) {
        Ok(text) => Outcome::done_if(text.as_str() == KRAMER),
        Err(_) => Outcome::refused_if(is_printed(alloc, query)),
    }
}

/// A query printed.
struct Printing;

impl Tried for Printing {
    fn tried<A: Allocator + Copy>(alloc: A) -> Outcome {
        match read_query(alloc, KRAMER.as_bytes(), Form::One) {
            Ok(query) => printed(alloc, &query),
            Err(_) => Outcome::Unready,
        }
    }
}

#[test]
fn failed_allocation_in_printing(rt: HostRuntime) {
    assert!(rt; matches!(refusals::<Printing>(rt.alloc()), Ok(1..)));
}

const PRINTED: &str = r#"Flights("C", "Paris, the city of light", 1)"#;

/// An atom, a row and its values printed, and a text as it stands between quotes.
struct PrintingParts;

fn prints_row<A: Allocator + Copy>(alloc: A, row: &Row<A>) -> Result<bool, AllocError> {
    let text = print_row(alloc, row)?;
    let values = print_values(alloc, row.values())?;
    Ok(text.as_str() == PRINTED && values.as_str() == r#"("C", "Paris, the city of light", 1)"#)
}

fn prints_head<A: Allocator + Copy>(alloc: A, query: &Query<A>) -> Result<bool, AllocError> {
    match query.heads() {
        [head] => Ok(print_atom(alloc, head)?.as_str() == r#"R("Kramer", x)"#),
        _ => Ok(false),
    }
}

fn prints_escaped<A: Allocator + Copy>(alloc: A) -> Result<bool, AllocError> {
    let mut text = String::from_str(alloc, "a")?;
    push_escaped(&mut text, r#"b"\c"#)?;
    Ok(text.as_str() == r#"ab\"\\c"#)
}

fn prints<A: Allocator + Copy>(
    alloc: A,
    query: &Query<A>,
    row: &Row<A>,
) -> Result<bool, AllocError> {
    Ok(prints_head(alloc, query)? && prints_row(alloc, row)? && prints_escaped(alloc)?)
}

impl Tried for PrintingParts {
    fn tried<A: Allocator + Copy>(alloc: A) -> Outcome {
        let (Ok(query), Ok(row)) = (
            read_query(alloc, KRAMER.as_bytes(), Form::One),
            read_ground_atom(alloc, ROW, Form::One),
        ) else {
            return Outcome::Unready;
        };
        match prints(alloc, &query, &row) {
            Ok(right) => Outcome::done_if(right),
            Err(_) => Outcome::refused_if(prints(alloc, &query, &row) == Ok(true)),
        }
    }
}

#[test]
fn failed_allocation_in_printing_parts(rt: HostRuntime) {
    assert!(rt; matches!(refusals::<PrintingParts>(rt.alloc()), Ok(3..)));
}

/// The lines of commands, each printed on a text of its own.
struct PrintingCommands;

const INSERTED: &str = r#"insert Flights("C", "Paris, the city of light", 1)"#;

fn prints_commands<A: Allocator + Copy>(
    alloc: A,
    name: &Name<A>,
    query: &Query<A>,
    row: &Row<A>,
) -> Result<bool, AllocError> {
    let mut board = String::new(alloc);
    push_board(&mut board, Form::Two)?;
    let mut relation = String::new(alloc);
    push_relation(&mut relation, "Flights", 3)?;
    let mut limits = String::new(alloc);
    push_limits(&mut limits, 10, 1000000)?;
    let mut post = String::new(alloc);
    push_post(&mut post, name, query)?;
    let mut insert = String::new(alloc);
    push_insert(&mut insert, row)?;
    let mut publish = String::new(alloc);
    push_publish(&mut publish)?;
    Ok(
        board.as_str() == "board 2"
            && relation.as_str() == "relation Flights 3"
            && limits.as_str() == "limits 10 1000000"
            && post.as_str().strip_prefix("post kramer ") == Some(KRAMER)
            && insert.as_str() == INSERTED
            && publish.as_str() == "publish",
    )
}

impl Tried for PrintingCommands {
    fn tried<A: Allocator + Copy>(alloc: A) -> Outcome {
        let (Ok(name), Ok(query), Ok(row)) = (
            Name::new(alloc, "kramer"),
            read_query(alloc, KRAMER.as_bytes(), Form::One),
            read_ground_atom(alloc, ROW, Form::One),
        ) else {
            return Outcome::Unready;
        };
        match prints_commands(alloc, &name, &query, &row) {
            Ok(right) => Outcome::done_if(right),
            Err(_) => Outcome::refused_if(prints_commands(alloc, &name, &query, &row) == Ok(true)),
        }
    }
}

#[test]
fn failed_allocation_in_printing_commands(rt: HostRuntime) {
    assert!(rt; matches!(refusals::<PrintingCommands>(rt.alloc()), Ok(6..)));
}

/// Gives one letter a read, as many as it has.
#[derive(Drop)]
struct Letters(u8);

impl Read for Letters {
    fn read(&mut self, buf: &mut [u8]) -> io::Result<usize> {
        if self.0 == 0 || buf.is_empty() {
            return Ok(0);
        }
        self.0 -= 1;
        buf[0] = b'a';
        Ok(1)
    }
}

/// A source read whole.
struct ReadingWhole;

fn reads_whole<A: Allocator + Copy>(alloc: A) -> Result<bool, Stop> {
    let bytes = read_whole(alloc, &mut Counted::new(Letters(40)))?;
    Ok(bytes.len() == 40 && bytes.iter().all(|byte| *byte == b'a'))
}

impl Tried for ReadingWhole {
    fn tried<A: Allocator + Copy>(alloc: A) -> Outcome {
        match reads_whole(alloc) {
            Ok(right) => Outcome::done_if(right),
            Err(fault) => Outcome::refused_if(
                fault == Stop::NoMemory && reads_whole(alloc) == Ok(true),
            ),
        }
    }
}

#[test]
fn failed_allocation_in_read_whole(rt: HostRuntime) {
    assert!(rt; matches!(refusals::<ReadingWhole>(rt.alloc()), Ok(3..)));
}
