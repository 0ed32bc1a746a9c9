//! A reader of the records of bytes.

ghost use Rattle.std.specs.Prelude.{◌≡◌, true, IfOk, IfErr};
ghost use Rattle.csv.specs.Reading.{ReadRecord, reader_config, strip_bom};
ghost use Rattle.csv.specs.Records.{fields_of};
ghost use Rattle.cq_csv.specs.Csv.{config_of};
ghost use Rattle.cq_csv.specs.Steps.Csv.{IsAtStart, IsPlain, bytes_of, text_left};

use crate::fault::CsvFault;
use crate::layout::Layout;
use csv::{ByteRecord, ErrorKind, Reader, ReaderBuilder};
use std::alloc::Global;

/// A reader at the start of bytes that are laid out so.
pub(crate) fn reader_of(heap: Global, bytes: &[u8], layout: Layout) -> Reader<&[u8]>
    ensures start { IsAtStart (config_of layout) result }
    ensures text { text_left result ≡ strip_bom bytes.now }
{
    ReaderBuilder::new()
        .has_headers(false)
        .flexible(true)
        .delimiter(layout.delimiter)
        .from_reader(heap, bytes)
}

/// Reads the next record, if there is one.
pub(crate) fn next_record(
    reader: &mut Reader<&[u8]>,
    fields: &mut ByteRecord,
) -> Result<bool, CsvFault>
    requires { IsPlain (reader_config reader.old) reader.old }
    ensures read { IfOk result (λ found. ReadRecord bytes_of reader.old reader.new found (fields_of fields.new)) }
    ensures plain { IfOk result (λ found. found ≡ true → IsPlain (reader_config reader.old) reader.new) }
    ensures memory { IfErr result (λ fault. fault ≡ CsvFault.NoMemory) }
{
    match reader.read_byte_record(fields) {
        Ok(found) => Ok(found),
        Err(error) => match error.kind() {
            // Bytes in memory are read without a failure.
            ErrorKind::OutOfMemory | ErrorKind::Io(_) => Err(CsvFault::NoMemory),
            _ => unreachable!(),
        },
    }
}
