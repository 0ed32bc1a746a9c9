//! Rows from CSV.
//!
//! `read_csv` reads a source to its end and makes one row of a relation of each record, as `specs/Csv` says which. It puts
//! them into no table.
//!
//! Not here: which rows tables take, and which bytes are a device's.
#![tactic(auto)]

mod fault;
mod layout;
mod lines;
mod reader;
mod reading;
mod records;

pub use fault::{CsvFault, Flaw};
pub use layout::Layout;
pub use lines::one_line;
pub use reading::read_csv;
pub use records::all_records;
