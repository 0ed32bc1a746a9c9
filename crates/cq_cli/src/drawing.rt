//! The graph of a board, or of a part of it.

ghost use Rattle.std.specs.Prelude.{map, string_bytes, IfOk};
ghost use Rattle.cq_render.specs.Graph.{is_drawn};
ghost use Rattle.cq_cli.specs.Views.{IsGraphOf, IsGraphWith};

use cq_board::Board;
use cq_going::boxed_graph;
use cq_render::{Drawn, graph_of, kept_with};
use std::alloc::{AllocError, Allocator};

/// The graph of the queries that are drawn, with groups in boxes or without.
fn graph_in<A: Allocator + Copy>(
    heap: A,
    board: &Board<A>,
    drawn: Drawn<'_>,
    is_boxed: bool,
) -> Result<String<A>, AllocError>
    ensures { IfOk result (λ text. IsGraphOf is_boxed (is_drawn drawn.entry) board.now (string_bytes text)) }
{
    if is_boxed {
        boxed_graph(heap, board, drawn)
    } else {
        graph_of(heap, board, drawn, "")
    }
}

/// The graph of the queries of these names and of those on which they hang; of all where there is no name.
pub(crate) fn draw<A: Allocator + Copy>(
    heap: A,
    board: &Board<A>,
    names: &[&str],
    is_boxed: bool,
) -> Result<String<A>, AllocError>
    ensures { IfOk result (λ text. IsGraphWith is_boxed (map (λ name. name.now) names.now) board.now (string_bytes text)) }
{
    if names.is_empty() {
        return graph_in(heap, board, Drawn::All, is_boxed);
    }
    let flags = kept_with(heap, board, names)?;
    graph_in(heap, board, Drawn::Flagged(&flags), is_boxed)
}
