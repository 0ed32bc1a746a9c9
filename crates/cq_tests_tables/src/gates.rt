//! Gates: which rows a query is opened for.

use cq_ground::{gate_of, marks_of};
use cq_text::{Form, read_ground_atom, read_query};
use std::alloc::Global;
use std::test::Fail;

/// Whether the query's gate for the relation of the row lets the row in; `None` where a text is none of a query or a row.
fn lets_in(alloc: Global, query: &str, row: &str) -> Option<bool> {
    let Ok(query) = read_query(alloc, query.as_bytes(), Form::One) else {
        return None;
    };
    let Ok(row) = read_ground_atom(alloc, row.as_bytes(), Form::One) else {
        return None;
    };
    let (gate, marks) = (gate_of(&query, row.relation()), marks_of(&row));
    Some((0..=marks.len()).any(|column| gate.order_at(&marks, column).is_eq()))
}

const JERRY: &str = "{} R(Jerry, x) <- Flights(x, Paris), Airlines(x, United)";

const TWICE: &str = "{} R(x) <- Flights(x, Paris), Flights(x, Rome)";

const ROWS: [(&str, &str, bool); 8] = [
    (JERRY, "Flights(122, Paris)", true),
    (JERRY, "Flights(136, Rome)", false),
    (JERRY, "Airlines(122, United)", true),
    (JERRY, "Airlines(136, Alitalia)", false),
    // A number is no text.
    (
        "{} R(y) <- Flights(122, y)",
        "Flights(\"122\", Paris)",
        false,
    ),
    // Two atoms read the relation, so its rows are looked at one by one.
    (TWICE, "Flights(136, Oslo)", true),
    // There is no constant to differ from.
    ("{} R(x) <- Flights(x, x)", "Flights(122, Paris)", true),
    // No such column: the query is opened, and finds nothing.
    ("{} R(x) <- Flights(x, Paris)", "Flights(122)", true),
];

#[test]
fn rows_let_in(rt: HostRuntime) {
    for (query, row, wanted) in ROWS {
        assert!(rt;
            lets_in(rt.alloc(), query, row) == Some(wanted),
            "{row} for {query}"
        );
    }
}
