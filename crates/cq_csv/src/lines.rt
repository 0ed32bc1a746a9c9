//! The line in which a record begins.

ghost use Rattle.std.specs.Prelude.{◌≡◌, ◌<◌, ℕ, List, length, IfOk, IfErr};
ghost use Rattle.csv.specs.Reading.{reader_config, records};
ghost use Rattle.cq_csv.specs.Csv.{BeginsInLine, csv_records, first_lines, header_count};
ghost use Rattle.cq_csv.specs.declared.layout.Layout.{Layout};
ghost use Rattle.cq_csv.specs.Steps.Csv.{IsAtStart, text_left};

use crate::fault::CsvFault;
use crate::layout::Layout;
use crate::reader::{next_record, reader_of};
use csv::{ByteRecord, Reader};
use std::alloc::Global;

/// How many records in front are a header.
pub(crate) fn header_count(layout: Layout) -> usize
    ensures { result ≡ header_count layout }
{
    if layout.has_header { 1 } else { 0 }
}

/// So many lines in front, or all.
fn first_lines(bytes: &[u8], count: usize) -> &[u8]
    ensures { result.now ≡ first_lines count bytes.now }
{
    let mut left = count;
    for (place, byte) in bytes.iter().enumerate() {
        if left == 0 {
            return &bytes[..place];
        }
        if *byte == b'\n' {
            left -= 1;
        }
    }
    bytes
}

/// How many lines there are. Behind the last LF another one begins.
fn line_count(bytes: &[u8]) -> usize
    ensures { first_lines result bytes.now ≡ bytes.now }
{
    let mut count = 1;
    for byte in bytes {
        if *byte == b'\n' {
            count += 1;
        }
    }
    count
}

/// How many records a reader has yet to read, which are fewer than so many.
fn count_left(
    reader: &mut Reader<&[u8]>,
    fields: &mut ByteRecord,
    most: usize,
) -> Result<usize, CsvFault>
    requires most { length (text_left reader.old) < most }
    requires start { IsAtStart (reader_config reader.old) reader.old }
    ensures count { IfOk result (λ count. count ≡ length (records (reader_config reader.old) (text_left reader.old))) }
    ensures memory { IfErr result (λ fault. fault ≡ CsvFault.NoMemory) }
{
    for place in 0..most {
        if !next_record(reader, fields)? {
            return Ok(place);
        }
    }
    Ok(most)
}

/// How many records bytes have, behind the header, where there is one.
fn count_records(heap: Global, bytes: &[u8], layout: Layout) -> Result<usize, CsvFault>
    ensures count { IfOk result (λ count. count ≡ length (csv_records layout bytes.now)) }
    ensures memory { IfErr result (λ fault. fault ≡ CsvFault.NoMemory) }
{
    let mut reader = reader_of(heap, bytes, layout);
    let mut fields = ByteRecord::new(heap);
    let count = count_left(&mut reader, &mut fields, bytes.len() + 1)?;
    Ok(count.saturating_sub(header_count(layout)))
}

/// The line in which the record at that place behind the header begins, found by halving: lines up to `low` have no more
/// records than stand before it, and lines up to `high` have more.
pub(crate) fn line_of(
    heap: Global,
    bytes: &[u8],
    layout: Layout,
    index: usize,
) -> Result<usize, CsvFault>
    requires { index < length (csv_records layout bytes.now) }
    ensures line { IfOk result (λ line. BeginsInLine layout bytes.now index line) }
    ensures memory { IfErr result (λ fault. fault ≡ CsvFault.NoMemory) }
{
    let mut low = 0;
    let mut high = line_count(bytes);
    while high - low > 1 {
        let middle = low + (high - low) / 2;
        if index < count_records(heap, first_lines(bytes, middle), layout)? {
            high = middle;
        } else {
            low = middle;
        }
    }
    Ok(high)
}

/// A record begins in one line alone. This is a law of the definitions alone, so there is nothing to do.
pub fn one_line()
    ensures { (layout : Layout) (bytes : List ℕ) (index line other : ℕ) → BeginsInLine layout bytes index line → BeginsInLine layout bytes index other → line ≡ other }
{}
