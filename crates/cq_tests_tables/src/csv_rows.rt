//! Rows from CSV: worked texts, each fault, failing and endless sources, and each allocation refused in turn.

use cq_atom::{Row, Value};
use cq_csv::{CsvFault, Flaw, Layout, all_records, one_line, read_csv};
use cq_devices::Counted;
use cq_refusing::Refusing;
use cq_text::print_row;
use std::alloc::{AllocError, Allocator, Global};
use std::io::{self, ErrorKind, Read};
use std::mem;

/// Commas between fields, and no header.
const PLAIN: Layout = Layout {
    delimiter: b',',
    has_header: false,
};

/// 255 bytes.
const LONG: &[u8; 255] =
    b"aaaaaaaaaaaaaaaaaaaaaaaaaaaaaaaaaaaaaaaaaaaaaaaaaaaaaaaaaaaaaaaaaaaaaaaaaaaaaaaaaaaaaaaaaaaaaaaaaaaaaaaaaaaaaaaaaaaaaaaaaaaaaaaaaaaaaaaaaaaaaaaaaaaaaaaaaaaaaaaaaaaaaaaaaaaaaaaaaaaaaaaaaaaaaaaaaaaaaaaaaaaaaaaaaaaaaaaaaaaaaaaaaaaaaaaaaaaaaaaaaaaaaaaaaaaaaaa";

/// Whether each row is printed so.
fn are_printed<A: Allocator + Copy>(
    alloc: A,
    rows: &[Row<A>],
    printed: &[&str],
) -> Result<bool, AllocError> {
    for (row, printed) in rows.iter().zip(printed) {
        if print_row(alloc, row)?.as_str() != *printed {
            return Ok(false);
        }
    }
    Ok(rows.len() == printed.len())
}

/// Whether CSV of that layout over `T` gives rows that are printed so.
fn gives(heap: Global, text: &[u8], arity: usize, layout: Layout, printed: &[&str]) -> bool {
    match read_csv(heap, heap, &mut Counted::new(text), "T", arity, layout) {
        Ok(rows) => are_printed(heap, &rows, printed) == Ok(true),
        Err(_) => false,
    }
}

/// CSV over `T` of an arity, and how its rows are printed.
type Told = (&'static [u8], usize, &'static [&'static str]);

/// The place of the first whose rows are printed otherwise.
fn other_rows(heap: Global, told: &[Told]) -> Option<usize> {
    for (place, (text, arity, printed)) in told.iter().enumerate() {
        if !gives(heap, text, *arity, PLAIN, printed) {
            return Some(place);
        }
    }
    None
}

const INSERTS: [Told; 10] = [
    (
        b"122,Paris\n\"123\",\"Pa\"\"ris\"\n007,\n",
        2,
        &[
            r#"T(122, "Paris")"#,
            r#"T(123, "Pa\"ris")"#,
            r#"T("007", "")"#,
        ],
    ),
    // Doubles, and each end of a record.
    (b"1\r2\r\n1\n3", 1, &["T(1)", "T(2)", "T(1)", "T(3)"]),
    // Empty lines are no records, and a line of a comma is one.
    (b"\n\r\n1,2\n\n\r,\n\n", 2, &["T(1, 2)", r#"T("", "")"#]),
    // A byte order mark in front is dropped, and another one is not.
    (b"\xef\xbb\xbf1", 1, &["T(1)"]),
    (b"\xef\xbb\xbf\xef\xbb\xbf1", 1, &["T(\"\u{feff}1\")"]),
    // What looks like a number and is none.
    (
        b"--1,+1,1 ,-9223372036854775809,99999999999999999999999999999999999999,\xc2\x80",
        6,
        &[
            "T(\"--1\", \"+1\", \"1 \", \"-9223372036854775809\", \"99999999999999999999999999999999999999\", \"\u{80}\")",
        ],
    ),
    // No byte, one byte, quotes in the middle, commas in quotes, spaces, numbers at their ends.
    (b"", 8, &[]),
    (b"x", 1, &[r#"T("x")"#]),
    (b"a\"b\",\"c,d\", 1", 3, &[r#"T("a\"b\"", "c,d", " 1")"#]),
    (
        b"-9223372036854775808,9223372036854775807,-0,9223372036854775808,-,0,1-2,00",
        8,
        &[
            r#"T(-9223372036854775808, 9223372036854775807, "-0", "9223372036854775808", "-", 0, "1-2", "00")"#,
        ],
    ),
];

#[test]
fn csv_to_inserts(rt: HostRuntime) {
    // Each text has these records and no others.
    all_records();
    let other = other_rows(rt.alloc(), INSERTS.as_slice());
    assert!(rt; other.is_none(), "{other:?}");
}

/// A delimiter, whether there is a header, CSV over `T` of arity 2, and how its rows are printed.
type Laid = (u8, bool, &'static [u8], &'static [&'static str]);

/// The place of the first whose rows are printed otherwise.
fn other_laid(heap: Global, told: &[Laid]) -> Option<usize> {
    for (place, (delimiter, has_header, text, printed)) in told.iter().enumerate() {
        let layout = Layout {
            delimiter: *delimiter,
            has_header: *has_header,
        };
        if !gives(heap, text, 2, layout, printed) {
            return Some(place);
        }
    }
    None
}

const LAYOUTS: [Laid; 6] = [
    (
        b',',
        true,
        b"City,Number\nParis,122",
        &[r#"T("Paris", 122)"#],
    ),
    // Nothing is looked at in a header, and there need be none.
    (b',', true, b"\n\xff\n1,2\n", &["T(1, 2)"]),
    (b',', true, b"1,2", &[]),
    (b',', true, b"", &[]),
    (
        b';',
        false,
        b"1;2,3\n\"4;5\";6",
        &[r#"T(1, "2,3")"#, r#"T("4;5", 6)"#],
    ),
    (b'\t', true, b"a\tb\nc\td", &[r#"T("c", "d")"#]),
];

#[test]
fn csv_layouts(rt: HostRuntime) {
    let other = other_laid(rt.alloc(), LAYOUTS.as_slice());
    assert!(rt; other.is_none(), "{other:?}");
}

/// Why CSV gives no rows, if it gives none.
fn fault_in(
    heap: Global,
    text: &[u8],
    relation: &str,
    arity: usize,
    layout: Layout,
) -> Option<CsvFault> {
    read_csv(heap, heap, &mut Counted::new(text), relation, arity, layout).err()
}

/// Why CSV gives no rows, if it gives none, as tables have it.
#[derive(Clone, Copy)]
enum Wrong {
    /// A line, the index of the record in it, and how many fields that has.
    Width(usize, usize, usize),
    /// A line, the index of the record in it, the place of a field, and its flaw.
    Text(usize, usize, usize, Flaw),
    Arity,
    Nothing,
}

fn fault_of(wrong: Wrong) -> Option<CsvFault> {
    match wrong {
        Wrong::Width(line, index, fields) => Some(CsvFault::Width {
            line,
            index,
            fields,
        }),
        Wrong::Text(line, index, field, flaw) => Some(CsvFault::Text {
            line,
            index,
            field,
            flaw,
        }),
        Wrong::Arity => Some(CsvFault::BadArity),
        Wrong::Nothing => None,
    }
}

/// CSV over `T` of an arity, and why it gives no rows.
type Faulty = (&'static [u8], usize, Wrong);

/// The place of the first that gives another fault.
fn other_fault(heap: Global, told: &[Faulty]) -> Option<usize> {
    for (place, (text, arity, wanted)) in told.iter().enumerate() {
        if fault_in(heap, text, "T", *arity, PLAIN) != fault_of(*wanted) {
            return Some(place);
        }
    }
    None
}

const FAULTS: [Faulty; 17] = [
    (b"a,b\nc\n", 2, Wrong::Width(2, 1, 1)),
    (b"\xff\n", 1, Wrong::Text(1, 0, 0, Flaw::NotUtf8)),
    (b"\xff,b\n", 1, Wrong::Width(1, 0, 2)),
    (b"\xff\na,b", 1, Wrong::Text(1, 0, 0, Flaw::NotUtf8)),
    (b"\"a\nb\",1", 2, Wrong::Text(1, 0, 0, Flaw::Control)),
    (b"1,2\n3,\x7f\n4", 2, Wrong::Text(2, 1, 1, Flaw::Control)),
    (b"1,\0,\xff", 3, Wrong::Text(1, 0, 1, Flaw::Control)),
    (b"a\tb", 1, Wrong::Text(1, 0, 0, Flaw::Control)),
    (b"\0", 1, Wrong::Text(1, 0, 0, Flaw::Control)),
    (b"1,2,3,4,5,6,7,8", 8, Wrong::Nothing),
    (b"1,2,3,4,5,6,7,8,9", 8, Wrong::Width(1, 0, 9)),
    (LONG, 1, Wrong::Nothing),
    (b"", 1, Wrong::Nothing),
    (b"", 0, Wrong::Arity),
    (b"1,2,3,4,5,6,7,8,9", 9, Wrong::Nothing),
    (b"", 16, Wrong::Nothing),
    (b"", 17, Wrong::Arity),
];

#[test]
fn csv_faults(rt: HostRuntime) {
    let other = other_fault(rt.alloc(), FAULTS.as_slice());
    assert!(rt; other.is_none(), "{other:?}");
    let named = fault_in(rt.alloc(), b"\xff", "t", 0, PLAIN);
    assert!(rt; named == Some(CsvFault::BadName));
}

/// Whether there is a header, CSV over `T` of arity 2, and why it gives no rows.
type Lined = (bool, &'static [u8], Wrong);

/// The place of the first that gives another fault.
fn other_line(heap: Global, told: &[Lined]) -> Option<usize> {
    for (place, (has_header, text, wanted)) in told.iter().enumerate() {
        let layout = Layout {
            delimiter: b',',
            has_header: *has_header,
        };
        if fault_in(heap, text, "T", 2, layout) != fault_of(*wanted) {
            return Some(place);
        }
    }
    None
}

const LINES: [Lined; 18] = [
    // The last line needs no end, and the first one may hold the record.
    (false, b"1,2,3", Wrong::Width(1, 0, 3)),
    (false, b"1,2\n3", Wrong::Width(2, 1, 1)),
    // Lines that are no record count.
    (false, b"\n\n1\n", Wrong::Width(3, 0, 1)),
    (false, b"\r\n\n1,2\n\n\n3\n", Wrong::Width(6, 1, 1)),
    // A record is in the line in which it begins, and those behind it are in lines of their own.
    (false, b"1,\"a\nb\"", Wrong::Text(1, 0, 1, Flaw::Control)),
    (false, b"1,2\n\"a\n\n", Wrong::Width(2, 1, 1)),
    (false, b"\n1,\"a\n\n\",3\n5,6\n", Wrong::Width(2, 0, 3)),
    (
        false,
        b"1,2\n\"\"\"\n\",\xff",
        Wrong::Text(2, 1, 0, Flaw::Control),
    ),
    // So is one behind a header, which counts as lines and not as a record.
    (true, b"a,b\n1,2\n3\n", Wrong::Width(3, 1, 1)),
    (true, b"\n\"a\nb\n\"\n\n1\n", Wrong::Width(6, 0, 1)),
    (true, b"a\nb\nc", Wrong::Width(2, 0, 1)),
    // CR and LF end one line, and CR alone ends none.
    (false, b"1,2\r\n3,4\r\n5\r\n", Wrong::Width(3, 2, 1)),
    (false, b"1,2\r3,4\r5\r", Wrong::Width(1, 2, 1)),
    (false, b"1,2\r3\n", Wrong::Width(1, 1, 1)),
    (false, b"1,2\n\r3\n", Wrong::Width(2, 1, 1)),
    // A byte order mark changes nothing.
    (false, b"\xef\xbb\xbf1,2\n3\n", Wrong::Width(2, 1, 1)),
    (true, b"\xef\xbb\xbf\n\n1,2\n\n3\n", Wrong::Width(5, 0, 1)),
    // Of many lines each is found.
    (
        false,
        b"1,2\n1,2\n1,2\n1,2\n1,2\n1,2\n1,2\n1,2\n1,2\n1\n1,2\n1,2\n",
        Wrong::Width(10, 9, 1),
    ),
];

#[test]
fn csv_lines(rt: HostRuntime) {
    // No other line than that which is told is right.
    one_line();
    let other = other_line(rt.alloc(), LINES.as_slice());
    assert!(rt; other.is_none(), "{other:?}");
}

/// Whether a text of a byte more than a text may have is no value.
fn is_too_long(heap: Global) -> Result<bool, AllocError> {
    let mut text = Vec::new(heap);
    text.extend_from_slice(LONG)?;
    text.push(b'a')?;
    let long = Wrong::Text(1, 0, 0, Flaw::Long);
    Ok(fault_in(heap, &text, "T", 1, PLAIN) == fault_of(long))
}

#[test]
fn csv_text_of_256_bytes(rt: HostRuntime) {
    assert!(rt; is_too_long(rt.alloc()) == Ok(true));
}

/// Gives one byte a read, and fails at one of the reads, and at a read into room for other than 4,096 bytes.
#[derive(Drop)]
struct Failing<'a> {
    rest: &'a [u8],
    good: u64,
}

impl<'a> Read for Failing<'a> {
    fn read(&mut self, buf: &mut [u8]) -> io::Result<usize> {
        if self.good == 0 || buf.len() != 4096 {
            return Err(ErrorKind::TimedOut.into());
        }
        self.good -= 1;
        let count = self.rest.len().min(buf.len()).min(1);
        let (front, rest) = self.rest.split_at(count);
        buf[..count].copy_from_slice(front);
        self.rest = rest;
        Ok(count)
    }
}

/// The answer where so many reads are good.
fn failing_at(heap: Global, good: u64) -> Option<CsvFault> {
    let mut source = Counted::new(Failing {
        rest: b"a,b\nc",
        good,
    });
    read_csv(heap, heap, &mut source, "T", 2, PLAIN).err()
}

#[test]
fn csv_reads_that_fail(rt: HostRuntime) {
    for good in 0..6 {
        let told = failing_at(rt.alloc(), good);
        assert!(rt; told == Some(CsvFault::Device { turn: good + 1 }), "{good}");
    }
    assert!(rt; failing_at(rt.alloc(), 6) == fault_of(Wrong::Width(2, 1, 1)));
}

/// Gives a line feed at each read.
#[derive(Drop)]
struct Endless;

impl Read for Endless {
    fn read(&mut self, buf: &mut [u8]) -> io::Result<usize> {
        if buf.is_empty() {
            return Ok(0);
        }
        buf[0] = b'\n';
        Ok(1)
    }
}

#[test]
fn endless_reader(rt: HostRuntime) {
    let told = read_csv(
        rt.alloc(),
        rt.alloc(),
        &mut Counted::new(Endless),
        "T",
        1,
        PLAIN,
    );
    assert!(rt; told.err() == Some(CsvFault::Device { turn: 1_048_577 }));
}

const WORKED: &[u8] = b"122,Paris\n\"123\",\"Pa\"\"ris\"\n007,\n";

/// Whether the worked text is read on the allocator as three rows, the first of them the worked one; else whether memory
/// ran out.
fn is_read<A: Allocator + Copy>(alloc: A, heap: Global) -> Result<bool, CsvFault> {
    let rows = read_csv(alloc, heap, &mut Counted::new(WORKED), "T", 2, PLAIN)?;
    let right = match rows.as_slice() {
        [first, _, _] => is_worked(first.values()),
        _ => false,
    };
    mem::drop(rows);
    Ok(right)
}

fn is_worked<A: Allocator>(values: &[Value<A>]) -> bool {
    match values {
        [number, city] => number.as_num() == Some(122) && city.as_text() == Some("Paris"),
        _ => false,
    }
}

/// How many allocations of reading the worked text can be refused, each of which is reported as out of memory, and the text
/// then is read.
fn refusals(heap: Global) -> Option<u64> {
    for left in 0..64 {
        let refusing = Refusing::new(heap, left);
        match (is_read(&refusing, heap), refusing.has_refused()) {
            (Ok(true), false) => return Some(left),
            (Err(CsvFault::NoMemory), true) if is_read(&refusing, heap) == Ok(true) => {}
            _ => return None,
        }
    }
    None
}

#[test]
fn failed_allocation_in_csv(rt: HostRuntime) {
    assert!(rt; matches!(refusals(rt.alloc()), Some(8..)));
}
