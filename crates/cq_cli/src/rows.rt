//! Insert lines from CSV.

ghost use Rattle.std.specs.Prelude.{◌≡◌, ◌<◌, ◌≤◌, ◌+◌, ◌^◌, ◌++◌, codes, string_bytes, IfOk, OnOk, IfErr, IfSome, MatchResult, Ok, Err};
ghost use Rattle.cq_devices.specs.Device.{FailedAtTurn};
ghost use Rattle.cq_cli.specs.declared.rows.RowsFault.{RowsFault};
ghost use Rattle.cq_cli.specs.Devices.{counts, HaveRoom};
ghost use Rattle.cq_cli.specs.Rows.{arity_of, is_delimiter, delimiter_of, wanted_sheet, insert_line, rows_output, rows_of, IsRowsAnswer, has_number, seem_headed, hint_of, told, MatchFault, IsOfReader, IsOfWriter, failures_of, WroteLines, WroteFront};

use crate::writing::write_text;
use cq_atom::{Row, is_relation_text};
use cq_csv::{CsvFault, Flaw, Layout, read_csv};
use cq_devices::{MAX_READS, Sink, Source};
use cq_text::{Form, print_row};
use std::alloc::{AllocError, Allocator, Global};
use thiserror::Error;

/// Why no rows were written, or not all of them.
#[derive(Clone, Copy, Debug, PartialEq, Eq, Error)]
pub(crate) enum RowsFault {
    /// The first word is no relation's name.
    #[error("bad relation name")]
    BadName,
    /// The second word is no number from 1 to 16 in decimal, without a zero in front.
    #[error("bad arity")]
    BadArity,
    /// The word for what stands between fields is no single byte of ASCII, or a quote, or an end of a line.
    #[error("bad delimiter")]
    BadDelimiter,
    /// The reader failed, or gave no end. Reads count from 1.
    #[error("read failed at turn {turn}")]
    Read {
        turn: u64,
    },
    /// The writer failed.
    #[error("write failed")]
    Write,
    /// A record has not as many fields as the relation. Records count from 0, and the lines in which they begin from 1.
    #[error("line {line}: record {index}: expected {arity} fields\n  fields of record {index}: {fields}")]
    Width {
        line: usize,
        index: usize,
        arity: usize,
        fields: usize,
    },
    /// A field of a record is no value. Fields count from 0.
    #[error("line {line}: record {index}: bad text\n  field {field} of record {index} {flaw}")]
    Text {
        line: usize,
        index: usize,
        field: usize,
        flaw: Flaw,
    },
    /// An allocation failed.
    #[error("out of memory")]
    NoMemory,
}

impl From<AllocError> for RowsFault {
    ghost use Rattle.std.specs.Prelude.{◌≡◌};
    ghost use Rattle.cq_cli.specs.declared.rows.RowsFault.TheVariants.{NoMemory};

    ghost from_gives = { λ _ e. e ≡ NoMemory };

    fn from(_e: AllocError) -> RowsFault {
        RowsFault::NoMemory
    }
}

/// The words that `rows` is given.
#[derive(Clone, Copy, Debug)]
pub(crate) struct SheetWords<'a> {
    /// The word that stands for the relation's name.
    pub(crate) relation: &'a str,
    /// The word that stands for its arity.
    pub(crate) arity: &'a str,
    /// The word that stands for what is between two fields.
    pub(crate) delimiter: &'a str,
    /// Whether the first record is a header.
    pub(crate) has_header: bool,
}

/// What CSV is to be read as.
#[derive(Clone, Copy, Debug)]
struct Sheet {
    arity: usize,
    layout: Layout,
}

/// What is told beside rows.
#[derive(Clone, Copy, Debug)]
pub(crate) struct Hint {
    /// The first record seems to be a header.
    pub(crate) seems_headed: bool,
    /// The lines need a script of form 2.
    pub(crate) needs_form_two: bool,
}

/// The arity that a word stands for: a number from 1 to 16 in decimal, without a zero in front, and nothing beside it.
fn arity_of(word: &str) -> Option<usize>
    ensures { result ≡ arity_of word.now }
{
    match word.as_bytes() {
        [digit @ b'1'..=b'9'] => Some(usize::from(*digit - b'0')),
        [b'1', digit @ b'0'..=b'6'] => Some(10 + usize::from(*digit - b'0')),
        _ => None,
    }
}

/// Whether the byte may stand between fields.
fn is_delimiter(byte: u8) -> bool
    ensures { result ≡ is_delimiter byte }
{
    byte == b'\t' || (b' ' <= byte && byte <= b'~' && byte != b'"')
}

/// The byte between fields that a word stands for.
fn delimiter_of(word: &str) -> Option<u8>
    ensures { result ≡ delimiter_of word.now }
{
    match word.as_bytes() {
        [byte] => {
            if is_delimiter(*byte) {
                Some(*byte)
            } else {
                None
            }
        }
        [b'\\', b't'] => Some(b'\t'),
        _ => None,
    }
}

/// What the words of `rows` ask for, of which the relation's is looked at first, and then the arity's.
fn wanted_sheet(words: &SheetWords<'_>) -> Result<Sheet, RowsFault>
    ensures { result ≡ wanted_sheet words.now }
{
    if !is_relation_text(words.relation) {
        return Err(RowsFault::BadName);
    }
    let Some(arity) = arity_of(words.arity) else {
        return Err(RowsFault::BadArity);
    };
    let Some(delimiter) = delimiter_of(words.delimiter) else {
        return Err(RowsFault::BadDelimiter);
    };
    Ok(Sheet {
        arity,
        layout: Layout {
            delimiter,
            has_header: words.has_header,
        },
    })
}

/// Adds the line whose row is printed.
fn push_printed<A: Allocator>(lines: &mut String<A>, printed: &str) -> Result<(), AllocError>
    ensures { OnOk result (string_bytes lines.new ≡ string_bytes lines.old ++ (codes "insert " ++ (printed.now ++ codes "\n"))) }
{
    lines.push_str("insert ")?;
    lines.push_str(printed)?;
    lines.push('\n')?;
    Ok(())
}

fn push_line<A: Allocator + Copy>(
    alloc: A,
    lines: &mut String<A>,
    row: &Row<A>,
) -> Result<(), AllocError>
    ensures { OnOk result (string_bytes lines.new ≡ string_bytes lines.old ++ insert_line row.now) }
{
    let printed = print_row(alloc, row)?;
    push_printed(lines, &printed)
}

fn push_lines<A: Allocator + Copy>(
    alloc: A,
    lines: &mut String<A>,
    rows: &[Row<A>],
) -> Result<(), AllocError>
    ensures { OnOk result (string_bytes lines.new ≡ string_bytes lines.old ++ rows_output rows.now) }
{
    for row in rows {
        push_line(alloc, lines, row)?;
    }
    Ok(())
}

/// The insert lines of rows, in order.
fn print_rows<A: Allocator + Copy>(alloc: A, rows: &[Row<A>]) -> Result<String<A>, RowsFault>
    ensures lines { IfOk result (λ lines. string_bytes lines ≡ rows_output rows.now) }
    ensures memory { IfErr result (λ fault. fault ≡ RowsFault.NoMemory) }
{
    let mut lines = String::new(alloc);
    push_lines(alloc, &mut lines, rows)?;
    Ok(lines)
}

/// How a fault of reading CSV is reported: that of a width with the arity that was wanted.
fn told(fault: CsvFault, arity: usize) -> RowsFault
    ensures { result ≡ told fault arity }
{
    match fault {
        CsvFault::BadName => RowsFault::BadName,
        CsvFault::BadArity => RowsFault::BadArity,
        CsvFault::Device { turn } => RowsFault::Read { turn },
        CsvFault::Width {
            line,
            index,
            fields,
        } => RowsFault::Width {
            line,
            index,
            arity,
            fields,
        },
        CsvFault::Text {
            line,
            index,
            field,
            flaw,
        } => RowsFault::Text {
            line,
            index,
            field,
            flaw,
        },
        CsvFault::NoMemory => RowsFault::NoMemory,
    }
}

/// Whether a value is a number.
fn has_number<A: Allocator>(row: &Row<A>) -> bool
    ensures { result ≡ has_number row.now }
{
    row.values().iter().any(|value| value.as_num().is_some())
}

/// Whether the first row seems to be a header.
fn seem_headed<A: Allocator>(rows: &[Row<A>]) -> bool
    ensures { result ≡ seem_headed rows.now }
{
    match rows {
        [first, second, ..] => !has_number(first) && has_number(second),
        _ => false,
    }
}

/// What is told beside rows.
fn hint_of<A: Allocator>(sheet: &Sheet, rows: &[Row<A>]) -> Hint
    ensures { result ≡ hint_of sheet.now rows.now }
{
    Hint {
        seems_headed: !sheet.layout.has_header && seem_headed(rows),
        needs_form_two: sheet.arity > Form::One.max_terms(),
    }
}

/// Insert lines, and what is told beside them.
#[derive(Drop)]
struct Inserts<A: Allocator> {
    lines: String<A>,
    hint: Hint,
}

/// What is written of rows, and told beside it.
fn inserts_of<A: Allocator + Copy>(
    alloc: A,
    sheet: &Sheet,
    rows: &[Row<A>],
) -> Result<Inserts<A>, RowsFault>
    ensures lines { IfOk result (λ inserts. string_bytes inserts.lines ≡ rows_output rows.now) }
    ensures hint { IfOk result (λ inserts. inserts.hint ≡ hint_of sheet.now rows.now) }
    ensures memory { IfErr result (λ fault. fault ≡ RowsFault.NoMemory) }
{
    let lines = print_rows(alloc, rows)?;
    Ok(Inserts {
        lines,
        hint: hint_of(sheet, rows),
    })
}

/// The insert lines of the records that the source gives.
fn read_lines<A: Allocator + Copy, R: Source>(
    alloc: A,
    heap: Global,
    words: &SheetWords<'_>,
    source: &mut R,
) -> Result<Inserts<A>, RowsFault>
    requires reads { R.reads_made source.old < 2 ^ 62 }
    requires failures { R.failures_met source.old < 2 ^ 62 }
    ensures words { IfErr (wanted_sheet words.now) (λ fault. (result ≡ Err fault) × (source.new ≡ source.old)) }
    ensures lines { IfOk result (λ inserts. IfOk (wanted_sheet words.now) (λ sheet. IfSome (R.left source.old) (λ input. IsRowsAnswer words.now.relation.now sheet input (Ok (string_bytes inserts.lines))))) }
    ensures hint { IfOk result (λ inserts. IfOk (wanted_sheet words.now) (λ sheet. IfSome (R.left source.old) (λ input. inserts.hint ≡ hint_of sheet (rows_of words.now.relation.now sheet.layout input)))) }
    ensures fault { IfErr result (λ fault. MatchFault fault
        (wanted_sheet words.now ≡ Err fault)
        (λ turn. FailedAtTurn turn (R.reads_made source.old) (R.reads_made source.new) (R.failures_met source.old) (R.failures_met source.new))
        ⊥
        (IfOk (wanted_sheet words.now) (λ sheet. IfSome (R.left source.old) (λ input. IsRowsAnswer words.now.relation.now sheet input (Err fault))))
        (Unit {0})) }
    ensures reads { R.reads_made source.new ≤ R.reads_made source.old + MAX_READS }
    ensures read_failures { MatchResult result (λ _. R.failures_met source.new ≡ R.failures_met source.old) (λ fault. (IsOfReader fault → ⊥) → R.failures_met source.new ≡ R.failures_met source.old) }
{
    let sheet = wanted_sheet(words)?;
    match read_csv(
        alloc,
        heap,
        source,
        words.relation,
        sheet.arity,
        sheet.layout,
    ) {
        Ok(rows) => inserts_of(alloc, &sheet, &rows),
        Err(fault) => Err(told(fault, sheet.arity)),
    }
}

/// Reads CSV to its end, and then writes the insert lines of its records, in order, and flushes once. Gives what is to be told beside them.
///
/// # Errors
/// `BadName`, then `BadArity`, and then `BadDelimiter`, before anything is read. `Read`, `Width` and `Text` as `read_csv` tells
/// them, and `NoMemory` where an allocation failed: nothing is written then. `Write` where the writer
/// failed.
pub(crate) fn write_rows<A: Allocator + Copy, R: Source, W: Sink>(
    alloc: A,
    heap: Global,
    words: &SheetWords<'_>,
    source: &mut R,
    sink: &mut W,
) -> Result<Hint, RowsFault>
    requires devices { HaveRoom (counts R.reads_made R.failures_met W.write_failures source.old sink.old) }

    // The words are looked at before anything is read, the relation's name first.
    ensures words { IfErr (wanted_sheet words.now) (λ fault. (result ≡ Err fault) × (source.new ≡ source.old)) }

    // Where all went well, the insert lines of the rows of all records were written, in order.
    ensures lines { OnOk result (IfOk (wanted_sheet words.now) (λ sheet. IfSome (R.left source.old) (λ input. WroteLines words.now.relation.now sheet input (W.taken sink.old) (W.taken sink.new)))) }

    // The hint is that of these rows.
    ensures hint { IfOk result (λ hint. IfOk (wanted_sheet words.now) (λ sheet. IfSome (R.left source.old) (λ input. hint ≡ hint_of sheet (rows_of words.now.relation.now sheet.layout input)))) }

    // Only the writer's own fault leaves something written.
    ensures nothing { IfErr result (λ fault. (IsOfWriter fault → ⊥) → sink.new ≡ sink.old) }

    // Whose fault it was.
    ensures fault { IfErr result (λ fault. MatchFault fault
        (wanted_sheet words.now ≡ Err fault)
        (λ turn. FailedAtTurn turn (R.reads_made source.old) (R.reads_made source.new) (R.failures_met source.old) (R.failures_met source.new))
        (IfOk (wanted_sheet words.now) (λ sheet. IfSome (R.left source.old) (λ input. WroteFront words.now.relation.now sheet input (W.taken sink.old) (W.taken sink.new))))
        (IfOk (wanted_sheet words.now) (λ sheet. IfSome (R.left source.old) (λ input. IsRowsAnswer words.now.relation.now sheet input (Err fault))))
        (Unit {0})) }
    ensures reads { R.reads_made source.new ≤ R.reads_made source.old + MAX_READS }
    ensures read_failures { MatchResult result (λ _. R.failures_met source.new ≡ R.failures_met source.old) (λ fault. (IsOfReader fault → ⊥) → R.failures_met source.new ≡ R.failures_met source.old) }
    ensures write_failures { MatchResult result (λ _. W.write_failures sink.new ≡ W.write_failures sink.old) (λ fault. W.write_failures sink.new ≡ W.write_failures sink.old + failures_of fault) }
{
    let inserts = read_lines(alloc, heap, words, source)?;
    match write_text(sink, &inserts.lines) {
        Ok(()) => Ok(inserts.hint),
        Err(_) => Err(RowsFault::Write),
    }
}
