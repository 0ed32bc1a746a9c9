//! The graph of a board with its groups in boxes.

ghost use Rattle.std.specs.Prelude.{◌≡◌, ◌++◌, string_bytes, IfOk, OnOk};
ghost use Rattle.std.specs.List.{enumerate_from, flat_map};
ghost use Rattle.cq_render.specs.Graph.{is_drawn};
ghost use Rattle.cq_going.specs.Boxes.{boxed, box_of, IsBoxed};

use crate::grouping::{Grouped, group_all, is_flagged, label_at};
use cq_board::Board;
use cq_render::{Drawn, graph_of, put};
use std::alloc::{AllocError, Allocator};

fn boxed<A: Allocator + Copy>(alloc: A, label: usize, place: usize) -> Result<String<A>, AllocError>
    ensures { IfOk result (λ text. string_bytes text ≡ boxed label place) }
{
    format!(in alloc; "  subgraph cluster_{label} {{ q{place}; }}\n")
}

/// Puts the query at the place into the box of its group, where it is drawn and matched.
fn put_boxed<A: Allocator + Copy>(
    alloc: A,
    drawn: Drawn<'_>,
    grouped: &Grouped<'_, A>,
    place: usize,
    page: &mut String<A>,
) -> Result<(), AllocError>
    ensures { OnOk result (string_bytes page.new ≡ string_bytes page.old ++ box_of (is_drawn drawn.entry) grouped.now.matched.items grouped.now.labels.items place) }
{
    if drawn.has(place) && is_flagged(&grouped.matched, place) {
        put(page, boxed(alloc, label_at(&grouped.labels, place), place))
    } else {
        Ok(())
    }
}

/// Puts each query into the box of its group.
fn put_all<A: Allocator + Copy>(
    alloc: A,
    drawn: Drawn<'_>,
    grouped: &Grouped<'_, A>,
    page: &mut String<A>,
) -> Result<(), AllocError>
    ensures { OnOk result (string_bytes page.new ≡ string_bytes page.old ++ flat_map (λ query. box_of (is_drawn drawn.entry) grouped.now.matched.items grouped.now.labels.items query.0) (enumerate_from 0 grouped.now.names.items)) }
{
    for place in 0..grouped.names.len() {
        put_boxed(alloc, drawn, grouped, place, page)?;
    }
    Ok(())
}

/// The graph of the queries that are drawn, as [`graph_of`] has it, with each group of matched queries that hang together in a box. Groups are told apart in
/// time in proportion to the edges and to the product of queries and groups.
///
/// # Errors
/// `AllocError` where an allocation failed.
pub fn boxed_graph<A: Allocator + Copy>(
    alloc: A,
    board: &Board<A>,
    drawn: Drawn<'_>,
) -> Result<String<A>, AllocError>
    ensures { IfOk result (λ text. IsBoxed (is_drawn drawn.entry) board.now (string_bytes text)) }
{
    let grouped = group_all(alloc, board)?;
    let mut boxes = String::new(alloc);
    put_all(alloc, drawn, &grouped, &mut boxes)?;
    graph_of(alloc, board, drawn, boxes.as_str())
}
