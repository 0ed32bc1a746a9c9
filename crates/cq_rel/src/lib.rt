//! Tables: rows that stand under a catalog of declared relations.
//!
//! The crates above use one contract of this one most: tables are a set of rows under a catalog.
//! `insert` and `delete` say the whole content that they leave, a refused call leaves it as it was,
//! `rows_of` shows the rows of one relation in order of their values, `rows_first` those of them whose first values are given,
//! in that order too, and `rows_with` those that have values in any run of columns, going round after the last.
//!
//! Contracts see a catalog as the list of its `Declaration`s, and tables as a `TablesRecord`.
//!
//! Not here: which rows a query's body finds.
#![tactic(auto)]

mod catalog;
mod column;
mod fault;
mod limits;
mod near;
mod table;
mod tables;

pub use catalog::Catalog;
pub use fault::{CatalogFault, RowFault};
pub use limits::MAX_RELATIONS;
pub use near::order_of_first;
pub use tables::Tables;
