//! Why CSV gives no rows.

use std::alloc::{AllocError, AllocFailed};
use thiserror::Error;

/// Why a field is no value: the first of these that is so.
#[derive(Clone, Copy, Debug, PartialEq, Eq, Error)]
pub enum Flaw {
    /// It has more than 255 bytes.
    #[error("has more than 255 bytes")]
    Long,
    /// It is not UTF-8.
    #[error("is not UTF-8")]
    NotUtf8,
    /// It has a control character of ASCII.
    #[error("has a control character")]
    Control,
}

/// Why `read_csv` gives no rows, in the order in which it looks.
#[derive(Clone, Copy, Debug, PartialEq, Eq, Error)]
pub enum CsvFault {
    /// The bytes are no relation's name.
    #[error("not a relation's name")]
    BadName,
    /// The arity is none of 1 to 16.
    #[error("a relation has 1 to 16 values")]
    BadArity,
    /// The source failed, or gave no end. Reads count from 1.
    #[error("read failed at turn {turn}")]
    Device {
        /// The number of the read that failed.
        turn: u64,
    },
    /// The number of a record's fields is not the arity. Lines count from 1, records from 0.
    #[error("line {line}: record {index} has {fields} fields")]
    Width {
        /// The line in which the record begins.
        line: usize,
        /// The place of the record.
        index: usize,
        /// How many fields it has.
        fields: usize,
    },
    /// A field of a record is no value. Lines count from 1, records and fields from 0.
    #[error("line {line}: field {field} of record {index} {flaw}")]
    Text {
        /// The line in which the record begins.
        line: usize,
        /// The place of the record.
        index: usize,
        /// The place of its first field that is no value.
        field: usize,
        /// Why that field is none.
        flaw: Flaw,
    },
    /// An allocation failed.
    #[error("out of memory")]
    NoMemory,
}

impl From<AllocError> for CsvFault {
    ghost use Rattle.std.specs.Prelude.{◌≡◌};
    ghost use Rattle.cq_csv.specs.declared.fault.CsvFault.TheVariants.{NoMemory};

    ghost from_gives = { λ _ e. e ≡ NoMemory };

    fn from(_e: AllocError) -> CsvFault {
        CsvFault::NoMemory
    }
}

impl<T: Drop> From<AllocFailed<T>> for CsvFault {
    ghost use Rattle.std.specs.Prelude.{◌≡◌};
    ghost use Rattle.cq_csv.specs.declared.fault.CsvFault.TheVariants.{NoMemory};

    ghost from_gives = { λ _ e. e ≡ NoMemory };

    fn from(_e: AllocFailed<T>) -> CsvFault {
        CsvFault::NoMemory
    }
}

/// Why a record is no row, wherever it stands.
#[derive(Clone, Copy, Debug, PartialEq, Eq)]
pub(crate) enum Wrong {
    /// The number of its fields is not the arity.
    Width { fields: usize },
    /// Its first field that is no value. Fields count from 0.
    Text { field: usize, flaw: Flaw },
    /// An allocation failed.
    NoMemory,
}

impl From<AllocError> for Wrong {
    ghost use Rattle.std.specs.Prelude.{◌≡◌};
    ghost use Rattle.cq_csv.specs.declared.fault.Wrong.TheVariants.{NoMemory};

    ghost from_gives = { λ _ e. e ≡ NoMemory };

    fn from(_e: AllocError) -> Wrong {
        Wrong::NoMemory
    }
}

impl<T: Drop> From<AllocFailed<T>> for Wrong {
    ghost use Rattle.std.specs.Prelude.{◌≡◌};
    ghost use Rattle.cq_csv.specs.declared.fault.Wrong.TheVariants.{NoMemory};

    ghost from_gives = { λ _ e. e ≡ NoMemory };

    fn from(_e: AllocFailed<T>) -> Wrong {
        Wrong::NoMemory
    }
}
