//! What is told of a coordinating choice that is sought, as JSON.

ghost use Rattle.std.specs.Prelude.{◌≡◌, ◌++◌, map, OnOk};
ghost use Rattle.std.specs.Option.{option_copied};
ghost use Rattle.json.specs.Tree.{json_tokens};
ghost use Rattle.cq_atom.specs.Valuation.{under};
ghost use Rattle.cq_board.specs.Choice.{bound, offered_by};
ghost use Rattle.cq_render.specs.Json.{array_of, atom_json};
ghost use Rattle.cq_render.specs.Data.{IsPut};
ghost use Rattle.cq_going.specs.Going.{HasNone, IsFor};
ghost use Rattle.cq_going.specs.Data.{choice_json, found_json, undecided_json, IsSoughtJson};

use crate::data_atoms::{begin_valued, put_atom};
use crate::data_reasons::{put_all_barred, put_disagreement};
use crate::listing::{name_of, values_of};
use crate::telling::sought_for;
use cq_atom::{Name, Query, Value};
use cq_board::{Board, Choice};
use cq_choose::Answer;
use cq_render::JsonText;
use std::alloc::{AllocError, Allocator};

/// Puts the heads of the query under the values.
fn put_heads<A: Allocator>(
    sheet: &mut JsonText<A>,
    query: &Query<A>,
    values: &[Value<A>],
) -> Result<(), AllocError>
    ensures { OnOk result (sheet.new ≡ sheet.old ++ json_tokens (array_of (map atom_json (map (under (bound query.now values.now)) query.now.heads)))) }
{
    sheet.begin_array()?;
    for head in query.heads() {
        put_atom(sheet, query, values, head)?;
    }
    sheet.end_array()
}

/// Puts what the query offers under the values: nothing where there is none.
fn put_offers<A: Allocator>(
    sheet: &mut JsonText<A>,
    query: Option<&Query<A>>,
    values: &[Value<A>],
) -> Result<(), AllocError>
    ensures { OnOk result (sheet.new ≡ sheet.old ++ json_tokens (array_of (map atom_json (offered_by (option_copied query.entry) values.now)))) }
{
    if let Some(query) = query {
        return put_heads(sheet, query, values);
    }
    sheet.begin_array()?;
    sheet.end_array()
}

/// Puts a choice, and what it offers.
fn put_choice<A: Allocator + Copy>(
    sheet: &mut JsonText<A>,
    board: &Board<A>,
    choice: &Choice<A>,
) -> Result<(), AllocError>
    ensures { OnOk result (sheet.new ≡ sheet.old ++ json_tokens (choice_json board.now.pending choice.now)) }
{
    let name = name_of(choice);
    let values = values_of(choice);
    begin_valued(sheet, name, values)?;
    sheet.key("offers")?;
    put_offers(sheet, board.query(name), values)?;
    sheet.end_object()
}

/// Puts the choices.
fn put_choices<A: Allocator + Copy>(
    sheet: &mut JsonText<A>,
    board: &Board<A>,
    choices: &[Choice<A>],
) -> Result<(), AllocError>
    ensures { OnOk result (sheet.new ≡ sheet.old ++ json_tokens (array_of (map (choice_json board.now.pending) choices.now))) }
{
    sheet.begin_array()?;
    for choice in choices {
        put_choice(sheet, board, choice)?;
    }
    sheet.end_array()
}

/// Puts that these choices were found.
fn put_found<A: Allocator + Copy>(
    sheet: &mut JsonText<A>,
    board: &Board<A>,
    choices: &[Choice<A>],
) -> Result<(), AllocError>
    ensures { OnOk result (sheet.new ≡ sheet.old ++ json_tokens (found_json board.now.pending choices.now)) }
{
    sheet.begin_object()?;
    sheet.text_member("outcome", "found")?;
    sheet.key("choices")?;
    put_choices(sheet, board, choices)?;
    sheet.end_object()
}

/// Puts that there is none, and why, as far as it is told.
fn put_none<A: Allocator + Copy>(
    alloc: A,
    sheet: &mut JsonText<A>,
    board: &Board<A>,
    names: &[Name<A>],
) -> Result<(), AllocError>
    requires { HasNone board.now names.now }
    ensures { OnOk result (IsPut (IsSoughtJson board.now names.now) sheet.old sheet.new) }
{
    sheet.begin_object()?;
    sheet.text_member("outcome", "none")?;
    sheet.key("barred")?;
    put_all_barred(sheet, board, names)?;
    sheet.key("lack")?;
    put_disagreement(alloc, sheet, board, names)?;
    sheet.end_object()
}

/// Puts the choices that were found, or that there are none.
fn put_found_or_none<A: Allocator + Copy>(
    alloc: A,
    sheet: &mut JsonText<A>,
    board: &Board<A>,
    names: &[Name<A>],
    choices: &[Choice<A>],
) -> Result<(), AllocError>
    requires { IsFor board.now names.now choices.now }
    ensures { OnOk result (IsPut (IsSoughtJson board.now names.now) sheet.old sheet.new) }
{
    if choices.is_empty() {
        return put_none(alloc, sheet, board, names);
    }
    put_found(sheet, board, choices)
}

/// Puts that neither was found.
fn put_undecided<A: Allocator>(sheet: &mut JsonText<A>) -> Result<(), AllocError>
    ensures { OnOk result (sheet.new ≡ sheet.old ++ json_tokens undecided_json) }
{
    sheet.begin_object()?;
    sheet.text_member("outcome", "undecided")?;
    sheet.end_object()
}

/// Looks for a coordinating choice as `tell_choice` does, and puts what was found, as one object: its `outcome` is `found`, and then come the choices, each with the
/// atoms that it offers; or `none`, and why, as far as it is told; or `undecided`, where neither was found within the budget.
///
/// # Errors
/// `AllocError` where an allocation failed; then a part of the object may stand on the sheet.
pub fn put_sought<A: Allocator + Copy>(
    alloc: A,
    sheet: &mut JsonText<A>,
    board: &Board<A>,
    names: &[Name<A>],
    budget: u64,
) -> Result<(), AllocError>
    ensures { OnOk result (IsPut (IsSoughtJson board.now names.now) sheet.old sheet.new) }
{
    let sought = sought_for(alloc, board, names, budget)?;
    match sought.answer {
        Answer::Found(choices) => put_found_or_none(alloc, sheet, board, names, &choices),
        Answer::Impossible => put_none(alloc, sheet, board, names),
        Answer::Undecided => put_undecided(sheet),
    }
}
