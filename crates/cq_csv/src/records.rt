//! Rows of the records that bytes of CSV have.

ghost use Rattle.std.specs.Prelude.{◌≡◌, ◌<◌, ◌≤◌, ◌-◌, ◌++◌, ◌∷◌, ◌⊎◌, ℕ, List, [], None, Some, length, map, filter_map, option_map, IfOk, IfErr, OnOk};
ghost use Rattle.cq_text.specs.Field.{value_of_field};
ghost use Rattle.csv.specs.Reading.{AreRecords, records, strip_bom};
ghost use Rattle.csv.specs.Records.{fields_of};
ghost use Rattle.csv.specs.declared.parser.State.TheVariants as st;
ghost use Rattle.cq_csv.specs.Csv.{AreGood, BeginsInLine, IfOfRecord, IsFirstFault, config_of, csv_records, field_flaw, first_wrong, flaw_of, row_of_record};
ghost use Rattle.cq_csv.specs.declared.layout.Layout.{Layout};
ghost use Rattle.cq_csv.specs.Steps.Csv.{IsAtStart, IsInRecords, fault_at, text_left, wrong_of};

use crate::fault::{CsvFault, Flaw, Wrong};
use crate::layout::Layout;
use crate::lines::{header_count, line_of};
use crate::reader::{next_record, reader_of};
use cq_atom::{MAX_TEXT, Row, Value};
use cq_text::{TextFault, read_field};
use csv::{ByteRecord, Reader};
use std::alloc::{Allocator, Global};
use std::str;

/// Why a field that is no value is none.
fn flaw_of(field: &[u8]) -> Flaw
    ensures { result ≡ flaw_of field.now }
{
    if field.len() > MAX_TEXT {
        return Flaw::Long;
    }
    match str::from_utf8(field) {
        Ok(_) => Flaw::Control,
        Err(_) => Flaw::NotUtf8,
    }
}

/// Adds the values of the record's fields.
fn push_values<A: Allocator + Copy>(
    alloc: A,
    fields: &ByteRecord,
    values: &mut Vec<Value<A>, A>,
) -> Result<(), Wrong>
    requires { values.old.items ≡ [] }
    ensures fields { OnOk result (first_wrong field_flaw (fields_of fields.now) ≡ None) }
    ensures values { OnOk result (values.new.items ≡ filter_map value_of_field (fields_of fields.now)) }
    ensures wrong { IfErr result (λ wrong. (wrong ≡ Wrong.NoMemory) ⊎ (option_map (λ f. Wrong.Text f.0 f.1) (first_wrong field_flaw (fields_of fields.now)) ≡ Some wrong)) }
{
    for field in fields {
        match read_field(alloc, field) {
            Ok(value) => values.push(value)?,
            Err(TextFault::At { .. }) => {
                return Err(Wrong::Text {
                    field: values.len(),
                    flaw: flaw_of(field),
                });
            }
            Err(TextFault::NoMemory) => return Err(Wrong::NoMemory),
        }
    }
    Ok(())
}

/// The row of the record.
fn row_of<A: Allocator + Copy>(
    alloc: A,
    relation: &str,
    arity: usize,
    fields: &ByteRecord,
) -> Result<Row<A>, Wrong>
    ensures row { IfOk result (λ row. (wrong_of arity (fields_of fields.now) ≡ None) × (row ≡ row_of_record relation.now (fields_of fields.now))) }
    ensures wrong { IfErr result (λ wrong. (wrong ≡ Wrong.NoMemory) ⊎ (wrong_of arity (fields_of fields.now) ≡ Some wrong)) }
{
    if fields.len() != arity {
        return Err(Wrong::Width {
            fields: fields.len(),
        });
    }
    let mut values = Vec::new(alloc);
    push_values(alloc, fields, &mut values)?;
    match Row::new(alloc, relation, values) {
        Ok(row) => Ok(row),
        // The relation and the number of its values are good, so that only memory can run out.
        Err(_) => Err(Wrong::NoMemory),
    }
}

/// Adds the row of the record at that place, if it is behind the first ones, which are a header.
fn push_row<A: Allocator + Copy>(
    alloc: A,
    relation: &str,
    arity: usize,
    first: usize,
    place: usize,
    fields: &ByteRecord,
    rows: &mut Vec<Row<A>, A>,
) -> Result<(), Wrong>
    ensures row { OnOk result (first ≤ place → (wrong_of arity (fields_of fields.now) ≡ None) × (rows.new.items ≡ rows.old.items ++ row_of_record relation.now (fields_of fields.now) ∷ [])) }
    ensures header { OnOk result (place < first → rows.new.items ≡ rows.old.items) }
    ensures behind { IfErr result (λ _. first ≤ place) }
    ensures wrong { IfErr result (λ wrong. (wrong ≡ Wrong.NoMemory) ⊎ (wrong_of arity (fields_of fields.now) ≡ Some wrong)) }
{
    if place < first {
        return Ok(());
    }
    let row = row_of(alloc, relation, arity, fields)?;
    rows.push(row)?;
    Ok(())
}

/// How it is told what is wrong with a record.
fn fault_at(line: usize, index: usize, wrong: Wrong) -> CsvFault
    ensures { result ≡ fault_at line index wrong }
{
    match wrong {
        Wrong::Width { fields } => CsvFault::Width {
            line,
            index,
            fields,
        },
        Wrong::Text { field, flaw } => CsvFault::Text {
            line,
            index,
            field,
            flaw,
        },
        Wrong::NoMemory => CsvFault::NoMemory,
    }
}

/// How it is told what is wrong with the record at that place behind the header. Only now its line is looked for.
fn fault_of(heap: Global, bytes: &[u8], layout: Layout, index: usize, wrong: Wrong) -> CsvFault
    requires { index < length (csv_records layout bytes.now) }
    ensures { (result ≡ CsvFault.NoMemory) ⊎ ((line : ℕ) × BeginsInLine layout bytes.now index line × (result ≡ fault_at line index wrong)) }
{
    if wrong == Wrong::NoMemory {
        return CsvFault::NoMemory;
    }
    match line_of(heap, bytes, layout, index) {
        Ok(line) => fault_at(line, index, wrong),
        Err(fault) => fault,
    }
}

/// Adds the rows of the records of bytes, behind the header, if there is one. All that it works with is lent.
fn push_rows<A: Allocator + Copy>(
    alloc: A,
    heap: Global,
    bytes: &[u8],
    relation: &str,
    arity: usize,
    layout: Layout,
    reader: &mut Reader<&[u8]>,
    fields: &mut ByteRecord,
    rows: &mut Vec<Row<A>, A>,
) -> Result<(), CsvFault>
    requires start { IsAtStart (config_of layout) reader.old }
    requires text { text_left reader.old ≡ strip_bom bytes.now }
    requires rows { rows.old.items ≡ [] }
    ensures good { OnOk result (AreGood arity (csv_records layout bytes.now)) }
    ensures rows { OnOk result (rows.new.items ≡ map (row_of_record relation.now) (csv_records layout bytes.now)) }
    ensures fault { IfErr result (λ fault. IfOfRecord fault (IsFirstFault arity layout bytes.now fault)) }
    ensures memory { IfErr result (λ fault. IsInRecords fault) }
{
    let first = header_count(layout);
    for place in 0..bytes.len() + 1 {
        if !next_record(reader, fields)? {
            return Ok(());
        }
        if let Err(wrong) = push_row(alloc, relation, arity, first, place, fields, rows) {
            return Err(fault_of(heap, bytes, layout, place - first, wrong));
        }
    }
    Ok(())
}

/// The rows of the records of bytes.
pub(crate) fn rows_of<A: Allocator + Copy>(
    alloc: A,
    heap: Global,
    bytes: &[u8],
    relation: &str,
    arity: usize,
    layout: Layout,
) -> Result<Vec<Row<A>, A>, CsvFault>
    ensures rows { IfOk result (λ rows. AreGood arity (csv_records layout bytes.now) × (rows.items ≡ map (row_of_record relation.now) (csv_records layout bytes.now))) }
    ensures fault { IfErr result (λ fault. IfOfRecord fault (IsFirstFault arity layout bytes.now fault)) }
    ensures memory { IfErr result (λ fault. IsInRecords fault) }
{
    let mut reader = reader_of(heap, bytes, layout);
    let mut fields = ByteRecord::new(heap);
    let mut rows = Vec::new(alloc);
    push_rows(
        alloc,
        heap,
        bytes,
        relation,
        arity,
        layout,
        &mut reader,
        &mut fields,
        &mut rows,
    )?;
    Ok(rows)
}

/// The records of bytes, with the header, are all that the reader of `csv` takes from them, one after another from their start
/// to where it takes none. This is a law of the definitions alone, so there is nothing to do.
pub fn all_records()
    ensures { (layout : Layout) (bytes : List ℕ) → AreRecords (config_of layout) st.StartRecord (strip_bom bytes) (records (config_of layout) (strip_bom bytes)) }
{}
