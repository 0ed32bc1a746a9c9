//! Floors over boards.

ghost use Rattle.std.specs.Prelude.{◌≡◌, take};
ghost use Rattle.cq_board.specs.Board.{board_of};
ghost use Rattle.cq_board.specs.Journal.{pool_left};

use crate::board::Board;
use cq_desk::Floor;
use std::alloc::Allocator;

/// The working board of a floor. Its edges, crowded postconditions, matched queries and groundings are
/// those computed from scratch over the queries and rows that the whole journal leaves.
pub fn working_board<A: Allocator + Copy>(floor: &Floor<Board<A>, A>) -> &Board<A>
    ensures { board_of result.now ≡ board_of (pool_left floor.now.opening floor.now.journal) }
{
    floor.working()
}

/// The board that a look at a floor shows. Its edges, crowded postconditions, matched queries and
/// groundings are those computed from scratch over the queries and rows that the published front of the
/// journal leaves.
pub fn published_board<A: Allocator + Copy>(floor: &Floor<Board<A>, A>) -> &Board<A>
    ensures { board_of result.now ≡ board_of (pool_left floor.now.opening (take floor.now.published floor.now.journal)) }
{
    floor.board()
}
