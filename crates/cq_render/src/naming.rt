//! Pending queries by their names, as JSON, put on a sheet.

ghost use Rattle.std.specs.Prelude.{◌≡◌, ◌++◌, OnOk};
ghost use Rattle.json.specs.Tree.{json_tokens};
ghost use Rattle.cq_render.specs.Data.{standing_word, standing_members, standing_json, named_json};
ghost use Rattle.cq_render.specs.Steps.Telling.{member_tokens};

use crate::data::put_query;
use crate::json_text::JsonText;
use crate::walking::{Listing, walk};
use crate::words::state_word;
use cq_atom::Name;
use cq_board::Board;
use std::alloc::{AllocError, Allocator};

fn standing_word(state: Option<bool>) -> &'static str
    ensures { result.now ≡ standing_word state }
{
    match state {
        Some(matched) => state_word(matched),
        None => "absent",
    }
}

/// Puts the members that tell of a name: the name, and what became of it.
pub(crate) fn put_state<A: Allocator + Copy>(
    sheet: &mut JsonText<A>,
    board: &Board<A>,
    name: &Name<A>,
) -> Result<(), AllocError>
    ensures { OnOk result (sheet.new ≡ sheet.old ++ member_tokens (standing_members board.now name.now)) }
{
    sheet.text_member("name", name.as_str())?;
    sheet.text_member("state", standing_word(board.is_matched(name)))
}

/// Puts a name, and what became of it: its query is matched, or it waits, or none is pending.
///
/// # Errors
/// `AllocError` where an allocation failed. The sheet may then have a part of it.
pub fn put_standing<A: Allocator + Copy>(
    sheet: &mut JsonText<A>,
    board: &Board<A>,
    name: &Name<A>,
) -> Result<(), AllocError>
    ensures { OnOk result (sheet.new ≡ sheet.old ++ json_tokens (standing_json board.now name.now)) }
{
    sheet.begin_object()?;
    put_state(sheet, board, name)?;
    sheet.end_object()
}

/// Puts the first query of that name, or that none is pending.
fn put_first<A: Allocator + Copy>(
    alloc: A,
    sheet: &mut JsonText<A>,
    listing: &Listing<'_, A>,
    name: &Name<A>,
) -> Result<(), AllocError>
    ensures { OnOk result (sheet.new ≡ sheet.old ++ json_tokens (named_json listing.now.board.now name.now)) }
{
    for shown in &listing.queries {
        if shown.name.as_str() == name.as_str() {
            return put_query(alloc, sheet, listing, shown);
        }
    }
    put_standing(sheet, listing.board, name)
}

/// Puts the query of that name, as [`json`](crate::json) tells it; where none is pending, what [`put_standing`] puts. It takes a
/// walk over the board.
///
/// # Errors
/// `AllocError` where an allocation failed. The sheet may then have a part of it.
pub fn put_named<A: Allocator + Copy>(
    alloc: A,
    sheet: &mut JsonText<A>,
    board: &Board<A>,
    name: &Name<A>,
) -> Result<(), AllocError>
    ensures { OnOk result (sheet.new ≡ sheet.old ++ json_tokens (named_json board.now name.now)) }
{
    let listing = walk(alloc, board)?;
    put_first(alloc, sheet, &listing, name)
}
