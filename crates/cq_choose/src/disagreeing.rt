//! The search for a query that no choice can serve.

ghost use Rattle.std.specs.Prelude.{◌≡◌, ℕ, List, None, IfOk, IfSome};
ghost use Rattle.std.specs.List.{Contains};
ghost use Rattle.cq_board.specs.Choice.{ChoiceRecord};
ghost use Rattle.cq_choose.specs.Choosing.{IsChoiceFor};
ghost use Rattle.cq_choose.specs.Disagreement.{IsDisagreeing, IsDisagreement};

use crate::offers::offers_of;
use crate::reach::left_out;
use crate::stock::stocked;
use crate::telling::{Disagreement, told_first};
use cq_atom::Name;
use cq_board::Board;
use std::alloc::{AllocError, Allocator};

/// Looks for a concerned query of which no grounding has everything offered that it awaits: of several such queries it tells the one that was posted
/// first. Concerned are the matched queries among those of the names, the matched providers of these, and so on; offered is a head of a matched query
/// under one of its groundings.
///
/// Where the query of one of the names is told, there is no coordinating choice for them; where another is told, there may be one without it.
/// Where none is told, there may still be no coordinating choice: then each concerned query has a grounding of which everything is offered, but what is
/// offered need not go together.
///
/// What it takes is in proportion to the groundings of the concerned queries times the atoms of these queries. To find them it lists all edges, looks
/// at each pending query, and once more at each that is concerned.
///
/// # Errors
/// `AllocError` where an allocation failed.
pub fn disagreement<'b, A: Allocator + Copy>(
    alloc: A,
    board: &'b Board<A>,
    names: &[Name<A>],
) -> Result<Option<Disagreement<'b, A>>, AllocError>
    ensures told { IfOk result (λ found. IfSome found (λ d. IsDisagreement board.now names.now d.name.now d.values.now d.post)) }
    ensures none { IfOk result (λ found. found ≡ None → (place : ℕ) (name : List ℕ) → IsDisagreeing board.now names.now place name → ⊥) }
    ensures impossible { IfOk result (λ found. IfSome found (λ d. Contains names.now d.name.now → (choices : List ChoiceRecord) → IsChoiceFor board.now names.now choices → ⊥)) }
{
    let _good = board.len();
    let spare = left_out(alloc, board, names)?;
    let offers = offers_of(alloc, board, &spare)?;
    let stock = stocked(alloc, &offers)?;
    let posted = board.names()?;
    Ok(told_first(board, &spare, &stock, &posted))
}
