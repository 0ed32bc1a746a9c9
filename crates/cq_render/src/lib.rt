//! A board as text: the report, why queries wait, the graph of its queries, and what the report tells as JSON; and pending queries by their names as JSON.
//!
//! Who shows a board uses `put_report` or `report`: the report, as `specs/Report` has it, and `put_block` for one query; `explain`, `explain_named` and `explain_these`: a text of
//! whole lines, as `specs/Explain` has it, and `near` for the heads near to a postcondition; `graph`: a text in the language of Graphviz, as `specs/Graph` has it; and `json`: what
//! the report tells, as `specs/Json` has it, printed by the library for JSON.
//!
//! Who answers in JSON puts values on a `JsonText`: `put_named` and `put_standing` for a query by its name, `put_near` for the heads near to a postcondition, and `put_reasons`, which
//! tells why queries wait, as `specs/Data` has them; and `put_values`, `put_constant` and `put_variable` for their parts.
//!
//! Who stores a board as a script uses `dump`, as `specs/Dump` has it.
//!
//! Not here: who asks for a text, and where it goes.
#![tactic(auto)]

mod data;
mod drawn;
mod dumping;
mod explaining;
mod extent;
mod graphing;
mod hints;
mod json_text;
mod keeping;
mod lacking;
mod likes;
mod limits;
mod naming;
mod numbering;
mod once;
mod page;
mod quoting;
mod reasons;
mod reporting;
mod walking;
mod words;

pub use data::{json, put_constant, put_values, put_variable, put_variables};
pub use drawn::Drawn;
pub use dumping::dump;
pub use explaining::{explain, explain_named, explain_these, near};
pub use extent::Extent;
pub use graphing::{graph, graph_of};
pub use json_text::JsonText;
pub use keeping::kept_with;
pub use limits::MOST_KEPT;
pub use naming::{put_named, put_standing};
pub use once::explain_once;
pub use page::put;
pub use reasons::{put_near, put_reasons};
pub use reporting::{put_block, put_report, report};
