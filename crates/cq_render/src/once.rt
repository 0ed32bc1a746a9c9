//! Why the queries of a board wait, each query once, in a line.

ghost use Rattle.std.specs.Prelude.{◌≡◌, codes, string_bytes, [], IfOk, OnOk};
ghost use Rattle.cq_render.specs.Steps.Falls.{AreFalls};
ghost use Rattle.cq_render.specs.declared.hints.Hints.TheVariants as hints;
ghost use Rattle.cq_render.specs.Explain.{AreReasonLines, IsToldOnce};

use crate::explaining::{Layout, Looked, fallen_of, look, put_lines};
use crate::extent::Extent;
use crate::hints::Hints;
use cq_board::Board;
use std::alloc::{AllocError, Allocator};

/// The layout of a line by itself.
const LINE: Layout = Layout {
    front: "",
    separator: " waits: ",
    hints: Hints::Likes,
};

/// Puts a line for each of all falls that are told on an empty page.
fn put_all<A: Allocator + Copy>(
    alloc: A,
    looked: &Looked<'_, A>,
    extent: Extent,
    page: &mut String<A>,
) -> Result<(), AllocError>
    requires { AreFalls looked.now.listing.board.now looked.now.falls.items }
    ensures { string_bytes page.old ≡ [] → OnOk result (AreReasonLines [] (codes " waits: ") hints.Likes extent looked.now.listing.board.now looked.now.falls.items (string_bytes page.new)) }
{
    let parts = looked.parts(alloc)?;
    put_lines(
        alloc,
        &fallen_of(looked, &parts),
        extent,
        LINE,
        &looked.falls,
        page,
    )
}

/// Why the queries of a board wait: a line `NAME waits: REASON` for each of them, in such an order that each rests on none but those above it, or for those
/// alone that have a cause. All queries fall once, in the time of [`Board::falls`]; then each line has the time of its providers, up to sorting, and where
/// there is none, that of [`Heads::near_misses`](cq_board::Heads::near_misses).
///
/// # Errors
/// `AllocError` where an allocation failed.
pub fn explain_once<A: Allocator + Copy>(
    alloc: A,
    board: &Board<A>,
    extent: Extent,
) -> Result<String<A>, AllocError>
    ensures { IfOk result (λ text. IsToldOnce extent board.now (string_bytes text)) }
{
    let looked = look(alloc, board)?;
    let mut page = String::new(alloc);
    put_all(alloc, &looked, extent, &mut page)?;
    Ok(page)
}
