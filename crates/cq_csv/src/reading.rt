//! Reads CSV from a source.

ghost use Rattle.std.specs.Prelude.{◌≡◌, ◌<◌, ◌≤◌, ◌+◌, ◌^◌, None, Some, map, IfOk, IfErr, IfSome, MatchResult};
ghost use Rattle.std.specs.Io.KnownBytes.{IsAtEnd};
ghost use Rattle.cq_devices.specs.Limits.{max_reads};
ghost use Rattle.cq_devices.specs.Device.{FailedAtTurn, ReadWhole};
ghost use Rattle.cq_csv.specs.Csv.{AreGood, IfOfCall, IfOfDevice, IfOfRecord, IsFirstFault, IsOfDevice, call_fault, csv_records, row_of_record};

use crate::fault::CsvFault;
use crate::layout::Layout;
use crate::records::rows_of;
use cq_atom::{MAX_ARITY, Row, is_relation_text};
use cq_devices::{Source, Stop, read_whole};
use std::alloc::{Allocator, Global};

/// All bytes that the source has left.
fn read_bytes<A: Allocator, R: Source>(alloc: A, source: &mut R) -> Result<Vec<u8, A>, CsvFault>
    requires reads { R.reads_made source.old < 2 ^ 62 }
    requires failures { R.failures_met source.old < 2 ^ 62 }
    ensures whole { IfOk result (λ bytes. ReadWhole (R.left source.old) (R.left source.new) bytes.items) }
    ensures call { IfErr result (λ fault. IfOfCall fault ⊥) }
    ensures record { IfErr result (λ fault. IfOfRecord fault ⊥) }
    ensures turn { IfErr result (λ fault. IfOfDevice fault (λ turn. FailedAtTurn turn (R.reads_made source.old) (R.reads_made source.new) (R.failures_met source.old) (R.failures_met source.new))) }
    ensures reads { R.reads_made source.new ≤ R.reads_made source.old + max_reads }
    ensures failures { MatchResult result (λ _. R.failures_met source.new ≡ R.failures_met source.old) (λ fault. (IsOfDevice fault → ⊥) → R.failures_met source.new ≡ R.failures_met source.old) }
{
    match read_whole(alloc, source) {
        Ok(bytes) => Ok(bytes),
        Err(Stop::Read { turn }) => Err(CsvFault::Device { turn }),
        Err(Stop::Write) => unreachable!(),
        Err(Stop::NoMemory) => Err(CsvFault::NoMemory),
    }
}

/// Why nothing is read.
fn call_fault(relation: &str, arity: usize) -> Option<CsvFault>
    ensures { result ≡ call_fault relation.now arity }
{
    if !is_relation_text(relation) {
        return Some(CsvFault::BadName);
    }
    if arity == 0 || arity > MAX_ARITY {
        return Some(CsvFault::BadArity);
    }
    None
}

/// Reads CSV, and answers one row of the relation for each record, in order; doubles are rows as well.
///
/// All bytes are read first, by reads of up to 4,096 bytes, of which there are at most 1,048,576. Their
/// records are those of the crate `csv` with this byte between fields and its default settings else, behind the header, where
/// the layout has one: of that nothing is looked at, and no row is made. The
/// time is in proportion to the bytes; where a record is at fault, its line is found by reading fronts of them again, about as
/// often as the number of lines can be halved. The bytes and the rows are on `alloc`; that crate keeps the
/// record that it reads on `heap`.
///
/// # Errors
///
/// Before any read `BadName` unless the bytes are a name that begins with an upper-case letter, and then
/// `BadArity` unless the arity is 1 to 16. `Device` tells the number, from 1, of the read that failed,
/// and 1,048,577 where no read failed and none came to the end. Then the first record at fault is reported, counted
/// from 0 behind the header, with the line of the bytes in which it begins: `Width` with the number of its fields where that is not the arity, else `Text` with its first field that is no
/// value, counted from 0, and why it is none. Lines count from 1, and end behind each LF. `NoMemory` where an allocation failed.
pub fn read_csv<A: Allocator + Copy, R: Source>(
    alloc: A,
    heap: Global,
    source: &mut R,
    relation: &str,
    arity: usize,
    layout: Layout,
) -> Result<Vec<Row<A>, A>, CsvFault>
    requires reads { R.reads_made source.old < 2 ^ 62 }
    requires failures { R.failures_met source.old < 2 ^ 62 }

    // A relation that cannot be is reported before any read, and else never.
    ensures refused { IfSome (call_fault relation.now arity) (λ fault. (result ≡ Err fault) × (source.new ≡ source.old)) }
    ensures call { IfErr result (λ fault. IfOfCall fault (call_fault relation.now arity ≡ Some fault)) }

    // Where the bytes are known, the rows of all records, or the fault of the first record at fault, with a line in which it begins.
    ensures rows { IfOk result (λ rows. IfSome (R.left source.old) (λ input. AreGood arity (csv_records layout input) × (rows.items ≡ map (row_of_record relation.now) (csv_records layout input)))) }
    ensures record { IfErr result (λ fault. IfOfRecord fault (IfSome (R.left source.old) (λ input. IsFirstFault arity layout input fault))) }

    // Either is reported at the end of the bytes.
    ensures end { MatchResult result (λ _. IsAtEnd (R.left source.new)) (λ fault. IfOfRecord fault (IsAtEnd (R.left source.new))) }

    // Whose fault it was.
    ensures turn { IfErr result (λ fault. IfOfDevice fault (λ turn. FailedAtTurn turn (R.reads_made source.old) (R.reads_made source.new) (R.failures_met source.old) (R.failures_met source.new))) }
    ensures reads { R.reads_made source.new ≤ R.reads_made source.old + max_reads }
    ensures read_failures { MatchResult result (λ _. R.failures_met source.new ≡ R.failures_met source.old) (λ fault. (IsOfDevice fault → ⊥) → R.failures_met source.new ≡ R.failures_met source.old) }
{
    if let Some(fault) = call_fault(relation, arity) {
        return Err(fault);
    }
    let bytes = read_bytes(alloc, source)?;
    rows_of(alloc, heap, bytes.as_slice(), relation, arity, layout)
}
